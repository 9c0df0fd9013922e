//! What constants were set to, by the numbers of their names.

ghost use Rattle.std.specs.Prelude.{◌≡◌, ◌≢◌, ◌<◌, vec_capacity, vec_len, slice_set, Some, OnOk};
ghost use Rattle.rr_base.specs.declared.name.Sym.{Sym};
ghost use Rattle.rr_store.specs.Stores.{constant_in};

use rr_base::Sym;
use rr_space::Ref;
use std::alloc::AllocError;

/// What a constant was last set to.
#[derive(Clone, Copy)]
pub enum ConstValue {
    /// A shareable value: an immediate or an object of a published cluster. Every ractor may read it.
    Shareable(Ref),
    /// A value that the main ractor keeps itself, since it was not shareable when the constant was set.
    Own,
}

/// What a constant has.
pub(crate) fn constant_at(constants: &[Option<ConstValue>], name: Sym) -> Option<ConstValue>
    ensures { result ≡ constant_in constants.now name }
{
    let index = name.0 as usize;
    if index < constants.len() {
        constants[index]
    } else {
        None
    }
}

/// Takes the memory for a constant of this name.
pub(crate) fn reserve_for(
    constants: &mut Vec<Option<ConstValue>>,
    name: Sym,
) -> Result<(), AllocError>
    ensures same { constants.new.items ≡ constants.old.items }
    ensures room { OnOk result (name.0 < vec_capacity constants.new) }
{
    let wanted = name.0 as usize + 1;
    if wanted > constants.len() {
        constants.reserve(wanted - constants.len())?;
    }
    Ok(())
}

/// Gives a constant its value, where there is room for it.
pub(crate) fn set_reserved(constants: &mut Vec<Option<ConstValue>>, name: Sym, value: ConstValue)
    requires { name.0 < vec_capacity constants.old }
    ensures here { constant_in constants.new.items name ≡ Some value }
    ensures others { (n : Sym) → n ≢ name → constant_in constants.new.items n ≡ constant_in constants.old.items n }
{
    let index = name.0 as usize;
    while constants.len() <= index {
        constants.push_reserved(None);
    }
    replace_at(constants, index, Some(value));
}

// One element in the place of another.
fn replace_at<T: Copy>(items: &mut Vec<T>, index: usize, value: T)
    requires { index < vec_len items.old }
    ensures items { items.new.items ≡ slice_set items.old.items index value }
{
    items[index] = value;
}
