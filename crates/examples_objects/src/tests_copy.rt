//! Graphs on their way from one space to another.

ghost use Rattle.std.specs.Prelude.{length, IfOk};
ghost use Rattle.rr_space.specs.Sound.{IsHold};
ghost use Rattle.rr_space.specs.Parts.{IsWithin};

use rr_base::{ClassId, Fault, RactorNo, Sym};
use rr_copy::{Message, can_pack, open, pack_copy};
use rr_space::{Cluster, Entries, Items, Key, Kind, Label, Node, Raised, Ref, Sealed, Space};
use std::alloc::Global;
use std::process::Abort;
use std::test::Fail;

// A copy of what an object of the space leads to.
fn packed(rt: &impl Abort, alloc: Global, space: &Space, value: Ref) -> Result<Message, Fault> {
    let Ref::Local(slot) = value else {
        return Err(Fault::NotShareable);
    };
    assert!(rt; (slot as usize) < space.len());
    assert!(rt; can_pack(alloc, space, value)?);
    pack_copy(alloc, space, value)
}

fn opened(space: &mut Space, message: Message) -> Result<Ref, Fail> {
    match open(space, message) {
        Ok(root) => Ok(root),
        Err(_) => Err(Fail::from("the message was not opened")),
    }
}

// What stands in an object under a label.
fn under(space: &Space, value: Ref, label: Label) -> Result<Ref, Fail> {
    match space.read(value, label) {
        Some(found) => Ok(found),
        None => Err(Fail::from("nothing stands there")),
    }
}

// A space with one object, so that what is opened there gets other names.
fn other(alloc: Global, limit: u32) -> Result<Space, Fail> {
    let mut space = Space::new(alloc, RactorNo(2), limit);
    space.alloc(Node::Array(Items::new(alloc)))?;
    Ok(space)
}

fn text_message(rt: &impl Abort, alloc: Global, bytes: &[u8]) -> Result<Message, Fail> {
    let mut space = Space::new(alloc, RactorNo(1), 10);
    let text = space.alloc(Node::Text(bytes.to_vec(alloc)?))?;
    Ok(packed(rt, alloc, &space, text)?)
}

fn check_text(rt: &impl Abort, alloc: Global, bytes: &[u8]) -> Result<(), Fail> {
    let message = text_message(rt, alloc, bytes)?;
    let mut space = other(alloc, 10)?;
    let root = opened(&mut space, message)?;
    assert!(rt; space.text_bytes(root) == bytes);
    Ok(())
}

fn all_bytes(alloc: Global) -> Result<Vec<u8>, Fail> {
    let mut all = Vec::new(alloc);
    for byte in 0..=255u8 {
        all.push(byte)?;
    }
    Ok(all)
}

#[test]
fn texts_arrive_byte_by_byte(rt: HostRuntime) -> Result<(), Fail> {
    let all = all_bytes(rt.alloc())?;
    check_text(&rt, rt.alloc(), all.as_slice())?;
    check_text(&rt, rt.alloc(), b"")?;
    let mut long = Vec::new(rt.alloc());
    for _ in 0..65_536 {
        long.extend_from_slice(all.as_slice())?;
    }
    check_text(&rt, rt.alloc(), long.as_slice())
}

// An array of one text twice.
fn twice_message(rt: &impl Abort, alloc: Global) -> Result<Message, Fail> {
    let mut space = Space::new(alloc, RactorNo(1), 10);
    let text = space.alloc(Node::Text(b"abc".to_vec(alloc)?))?;
    let array = space.alloc(Node::Array(Items::two(alloc, text, text)))?;
    Ok(packed(rt, alloc, &space, array)?)
}

#[test]
fn one_text_under_two_places_arrives_as_one(rt: HostRuntime) -> Result<(), Fail> {
    let message = twice_message(&rt, rt.alloc())?;
    let mut space = other(rt.alloc(), 10)?;
    let root = opened(&mut space, message)?;
    assert!(rt; space.len() == 3);
    let first = under(&space, root, Label::Place(0))?;
    let second = under(&space, root, Label::Place(1))?;
    assert!(rt; space.same(first, second));
    assert!(rt; space.text_bytes(first) == b"abc".as_slice());
    Ok(())
}

// An array that holds itself.
fn cycle_message(rt: &impl Abort, alloc: Global) -> Result<Message, Fail> {
    let mut space = Space::new(alloc, RactorNo(1), 10);
    let array = space.alloc(Node::Array(Items::new(alloc)))?;
    space.push_element(array, array)?;
    Ok(packed(rt, alloc, &space, array)?)
}

#[test]
fn a_cycle_arrives_as_a_cycle(rt: HostRuntime) -> Result<(), Fail> {
    let message = cycle_message(&rt, rt.alloc())?;
    let mut space = other(rt.alloc(), 10)?;
    let root = opened(&mut space, message)?;
    let inner = under(&space, root, Label::Place(0))?;
    assert!(rt; space.same(root, inner));
    assert!(rt; space.len() == 2);
    Ok(())
}

// A hash of a text key and an integer key, in a space of its own.
fn hash_message(rt: &impl Abort, alloc: Global) -> Result<Message, Fail> {
    let mut space = Space::new(alloc, RactorNo(1), 10);
    let key = space.alloc(Node::Text(b"key".to_vec(alloc)?))?;
    let mut entries = Entries::new(alloc);
    entries.insert(Key::Text(b"key".to_vec(alloc)?), (key, Ref::Int(1)))?;
    entries.insert(Key::Int(5), (Ref::Int(5), key))?;
    let hash = space.alloc(Node::Hash(Box::new(alloc, entries)?))?;
    Ok(packed(rt, alloc, &space, hash)?)
}

#[test]
fn a_hash_arrives_with_its_keys(rt: HostRuntime) -> Result<(), Fail> {
    let message = hash_message(&rt, rt.alloc())?;
    let mut space = other(rt.alloc(), 10)?;
    let root = opened(&mut space, message)?;
    let key = Key::Text(b"key".to_vec(rt.alloc())?);
    assert!(rt; space.find(root, &key) == Some(0));
    assert!(rt; space.find(root, &Key::Int(5)) == Some(1));
    let name = under(&space, root, Label::Key(0))?;
    let value = under(&space, root, Label::Value(1))?;
    assert!(rt; space.same(name, value));
    Ok(())
}

// An exception without fields, whose message is a text.
fn exception(alloc: Global, space: &mut Space) -> Result<Ref, Fail>
    ensures { IfOk result (λ r. IsWithin (length space.new.slots) r) }
{
    let text = space.alloc(Node::Text(b"why".to_vec(alloc)?))?;
    let raised = Raised {
        message: text,
        cause: Ref::Nil,
        ractor: Ref::Ractor(RactorNo(7)),
        fields: Vec::new(alloc),
    };
    Ok(space.alloc(Node::Exception(ClassId::HASH, Box::new(alloc, raised)?))?)
}

// An object whose one field is an exception, in a space of their own.
fn object_message(rt: &impl Abort, alloc: Global) -> Result<Message, Fail> {
    let mut space = Space::new(alloc, RactorNo(1), 10);
    let raised = exception(alloc, &mut space)?;
    let fields = vec![in alloc; (Sym(3), raised)]?;
    let object = space.alloc(Node::Object(ClassId::ARRAY, fields))?;
    Ok(packed(rt, alloc, &space, object)?)
}

#[test]
fn an_object_arrives_with_its_fields_and_an_exception_with_its_parts(
    rt: HostRuntime,
) -> Result<(), Fail> {
    let message = object_message(&rt, rt.alloc())?;
    let mut space = other(rt.alloc(), 10)?;
    let root = opened(&mut space, message)?;
    let raised = under(&space, root, Label::Field(Sym(3)))?;
    assert!(rt; space.class_of(root) == ClassId::ARRAY);
    assert!(rt; space.kind_of(raised) == Kind::Exception);
    assert!(rt; space.class_of(raised) == ClassId::HASH);
    let ractor = under(&space, raised, Label::Ractor)?;
    assert!(rt; matches!(ractor, Ref::Ractor(RactorNo(7))));
    let text = under(&space, raised, Label::Message)?;
    assert!(rt; space.text_bytes(text) == b"why".as_slice());
    Ok(())
}

// A published cluster of one text.
fn published(alloc: Global) -> Result<&'static Cluster, Fail>
    ensures { IfOk result (λ cluster. IsHold 0 cluster.now) }
{
    let text = Sealed::Text(b"abc".to_vec(alloc)?);
    match Cluster::new(alloc, vec![in alloc; text]?)?.publish(alloc, 8) {
        Ok(cluster) if cluster.len() > 0 => Ok(cluster),
        _ => Err(Fail::from("nothing was published")),
    }
}

#[test]
fn a_published_text_is_referred_to(rt: HostRuntime) -> Result<(), Fail> {
    let text = Ref::Shared(0, published(rt.alloc())?);
    let mut space = Space::new(rt.alloc(), RactorNo(1), 10);
    let array = space.alloc(Node::Array(Items::one(rt.alloc(), text)))?;
    let message = packed(&rt, rt.alloc(), &space, array)?;
    assert!(rt; message.size() == 1);
    let mut space = other(rt.alloc(), 10)?;
    let root = opened(&mut space, message)?;
    let found = under(&space, root, Label::Place(0))?;
    assert!(rt; space.same(found, text));
    Ok(())
}

// Adds an array of the object before it, or of nil where there is none.
fn wrap(alloc: Global, space: &mut Space) -> Result<(), Fail> {
    let inner = match space.len() {
        0 => Ref::Nil,
        count => Ref::Local(count as u32 - 1),
    };
    space.alloc(Node::Array(Items::one(alloc, inner)))?;
    Ok(())
}

// A space of arrays in one another, with nil in the innermost.
fn chain(alloc: Global, count: u32) -> Result<Space, Fail> {
    let mut space = Space::new(alloc, RactorNo(1), count);
    for _ in 0..count {
        wrap(alloc, &mut space)?;
    }
    Ok(space)
}

fn depth(space: &Space, chain: Ref, most: u32) -> u32 {
    let mut value = chain;
    for depth in 0..most {
        match space.read(value, Label::Place(0)) {
            Some(inner) => value = inner,
            None => return depth,
        }
    }
    most
}

#[test]
fn a_long_chain_arrives(rt: HostRuntime) -> Result<(), Fail> {
    let space = chain(rt.alloc(), 100_000)?;
    let message = packed(&rt, rt.alloc(), &space, Ref::Local(99_999))?;
    assert!(rt; message.size() == 100_000);
    let mut space = other(rt.alloc(), 100_001)?;
    let root = opened(&mut space, message)?;
    assert!(rt; depth(&space, root, 200_000) == 100_000);
    Ok(())
}

// The message of a text, packed again where a growth was refused. What the space has stays as it was.
fn pack_again(rt: &impl Abort, alloc: Global, space: &Space, text: Ref) -> Result<Message, Fault> {
    match packed(rt, alloc, space, text) {
        Ok(message) => Ok(message),
        Err(fault) => {
            assert!(rt; fault == Fault::Memory);
            assert!(rt; space.len() == 1);
            assert!(rt; space.text_bytes(text) == b"abc".as_slice());
            packed(rt, alloc, space, text)
        }
    }
}

// The root of a message, opened again where a growth was refused: the message is the same and the space has nothing of it.
fn open_again(rt: &impl Abort, space: &mut Space, message: Message) -> Option<Ref> {
    match open(space, message) {
        Ok(root) => Some(root),
        Err((fault, back)) => {
            assert!(rt; fault == Fault::Memory);
            assert!(rt; back.size() == 1);
            assert!(rt; back.sender() == RactorNo(1));
            assert!(rt; space.len() == 0);
            open(space, back).ok()
        }
    }
}

// A refusal leaves both spaces and the message. The gate refuses nothing: `rt try --test --fail-alloc N -- a_refused_growth`
// does, for N from 1 on.
#[test]
fn a_refused_growth_leaves_the_spaces_and_the_message(rt: HostRuntime) -> Result<(), Fail> {
    let mut space = Space::new(rt.alloc(), RactorNo(1), 10);
    let Ok(bytes) = b"abc".to_vec(rt.alloc()) else {
        return Ok(());
    };
    let Ok(text) = space.alloc(Node::Text(bytes)) else {
        assert!(rt; space.len() == 0);
        return Ok(());
    };
    let message = pack_again(&rt, rt.alloc(), &space, text)?;
    let mut other = Space::new(rt.alloc(), RactorNo(2), 10);
    let Some(root) = open_again(&rt, &mut other, message) else {
        return Err(Fail::from("the message was not opened"));
    };
    assert!(rt; other.text_bytes(root) == b"abc".as_slice());
    Ok(())
}
