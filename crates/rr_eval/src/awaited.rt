//! Names that only `self` has methods of.

ghost use Rattle.std.specs.Prelude.{◌≡◌};
ghost use Rattle.rr_eval.specs.Awaited.{is_raise, is_block_given, is_awaited};

/// Whether it is `raise`.
pub fn is_raise(name: &[u8]) -> bool
    ensures { result ≡ is_raise name.now }
{
    name == b"raise".as_slice()
}

/// Whether it is `block_given?`.
pub fn is_block_given(name: &[u8]) -> bool
    ensures { result ≡ is_block_given name.now }
{
    name == b"block_given?".as_slice()
}

/// Whether `self` has a method of the name that is not evaluated yet.
pub fn is_awaited(name: &[u8]) -> bool
    ensures { result ≡ is_awaited name.now }
{
    name == b"loop".as_slice() || name == b"block_given?".as_slice()
}
