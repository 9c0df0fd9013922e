//! The classes of a program among its words: their names, and what their heads tell.

ghost use Rattle.std.specs.Prelude.{◌≡◌, ℕ, List, ◌||◌, ◌++◌, [], nat_eq, map, option_map, IfOk, OnOk};
ghost use Rattle.std.specs.List.{list_any};
ghost use Rattle.std.specs.Map.{keys_of, lookup};
ghost use Rattle.indexmap.specs.IndexSet.{contains};
ghost use Rattle.rr_parser.specs.ClassWords.{has_class};
ghost use Rattle.rr_parser.specs.Grammar.Classes.{class_head};
ghost use Rattle.rr_parser.specs.Opened.{Head, is_class, first_constant, class_behind, with_number, classes_in, kind_by, with_classes, has_below, below_built_in, opening_by, name_text, own_class, below_path, superclass_of, head_of, head_behind, heads_in, classes_by, opening_of, opened_kind, opened_words, with_class, class_of_entry};

use crate::class_bodies::class_head;
use crate::names::number;
use crate::refusal::Storage;
use crate::word::{Naming, Opening, Word, WordKind};
use indexmap::{IndexMap, IndexSet};
use rr_base::{BuiltInClass, ClassId, Sym};
use rr_tree::{Class, Path};
use std::alloc::Global;

/// The constant that comes first, by the number of its name.
fn first_constant(words: &[Word]) -> Option<u32>
    ensures { result ≡ first_constant words.now }
{
    match words {
        [
            Word {
                kind: WordKind::Constant(name, _),
                ..
            },
            ..
        ] => Some(name.0),
        _ => None,
    }
}

/// The constant behind a word, where that is the word `class`, by the number of its name.
fn class_behind(word: Word, words: &[Word]) -> Option<u32>
    ensures { result ≡ class_behind word words.now }
{
    match word.kind {
        WordKind::Class(_) => first_constant(words),
        _ => None,
    }
}

fn is_class(kind: WordKind) -> bool
    ensures { result ≡ is_class kind }
{
    matches!(kind, WordKind::Class(_))
}

/// Whether the word `class` stands among words, the last of which is of this kind, where it does among those before or not.
pub(crate) fn is_class_among(before: bool, kind: WordKind) -> bool
    ensures { result ≡ (before || is_class kind) }
{
    before || is_class(kind)
}

fn note(names: &mut IndexSet<u32>, number: Option<u32>) -> Result<(), Storage>
    ensures { OnOk result (names.new.keys ≡ with_number names.old.keys number) }
{
    if let Some(number) = number {
        names.insert_full(number)?;
    }
    Ok(())
}

/// The constants that stand behind the word `class` somewhere.
fn classes_in(alloc: Global, words: &[Word]) -> Result<IndexSet<u32>, Storage>
    ensures { IfOk result (λ s. (x : ℕ) → list_any (nat_eq x) s.keys ≡ list_any (nat_eq x) (classes_in words.now)) }
{
    let mut names = IndexSet::new(alloc);
    let mut left = words;
    while let Some((word, rest)) = left.split_first() {
        note(&mut names, class_behind(*word, rest))?;
        left = rest;
    }
    Ok(names)
}

/// What a word is, where these are the names of the program's classes.
fn kind_by(names: &IndexSet<u32>, kind: WordKind) -> WordKind
    ensures { result ≡ kind_by (contains nat_eq names.now) kind }
{
    match kind {
        WordKind::Constant(name, Naming::Free) => {
            if names.contains(&name.0) {
                WordKind::Constant(name, Naming::Opened)
            } else {
                kind
            }
        }
        _ => kind,
    }
}

/// Tells the names of the program's classes from other constants among the words.
fn with_classes(alloc: Global, words: &mut [Word]) -> Result<(), Storage>
    ensures { OnOk result (words.new ≡ with_classes words.old) }
{
    let names = classes_in(alloc, words)?;
    for word in words.iter_mut() {
        word.kind = kind_by(&names, word.kind);
    }
    Ok(())
}

/// What comes of the heads of classes, from left to right.
#[derive(Drop)]
struct Openings<'s> {
    /// The bytes of the names.
    symbols: &'s [Vec<u8>],
    /// The classes that have come, by the numbers of their names, with their superclasses.
    classes: IndexMap<u32, ClassId>,
}

/// The words of a source, and the classes of its program.
#[derive(Drop)]
pub(crate) struct Opened {
    pub words: Vec<Word>,
    pub classes: Vec<Class>,
}

/// Whether a class of a program may stand below it.
fn has_below(class: BuiltInClass) -> bool
    ensures { result ≡ has_below class }
{
    match class {
        BuiltInClass::BasicObject
        | BuiltInClass::MovedObject
        | BuiltInClass::Integer
        | BuiltInClass::String
        | BuiltInClass::Symbol
        | BuiltInClass::Array
        | BuiltInClass::Hash
        | BuiltInClass::NilClass
        | BuiltInClass::TrueClass
        | BuiltInClass::FalseClass
        | BuiltInClass::Class
        | BuiltInClass::Ractor => false,
        _ => true,
    }
}

fn below_built_in(class: Option<BuiltInClass>) -> Opening
    ensures { result ≡ below_built_in class }
{
    match class {
        None => Opening::Unknown,
        Some(class) => if has_below(class) {
            Opening::Below(class.id())
        } else {
            Opening::Closed
        },
    }
}

/// What is told of a class that stood below this one earlier, where its head tells this.
fn opening_by(earlier: Option<ClassId>, given: Option<Opening>) -> Opening
    ensures { result ≡ opening_by earlier given }
{
    let Some(opening) = given else {
        return Opening::Below(earlier.unwrap_or(ClassId::OBJECT));
    };
    match earlier {
        Some(class) if opening != Opening::Below(class) => Opening::Unknown,
        _ => opening,
    }
}

/// The superclass that is told; a head that does not tell one is refused.
fn superclass_of(opening: Opening) -> ClassId
    ensures { result ≡ superclass_of opening }
{
    match opening {
        Opening::Below(class) => class,
        _ => ClassId::OBJECT,
    }
}

impl Openings<'_> {
    /// The bytes of a name.
    fn name_text(&self, name: Sym) -> &[u8]
        ensures { result.now ≡ name_text (map (λ s. s.items) self.now.symbols.now) name }
    {
        match self.symbols.get(name.0 as usize) {
            Some(bytes) => bytes.as_slice(),
            None => &[],
        }
    }

    /// The class of the program with a name, if it has come.
    fn own_class(&self, name: Sym) -> Result<Option<ClassId>, Storage>
        ensures { IfOk result (λ c. c ≡ own_class (keys_of self.now.classes.entries) name.0) }
    {
        let Some(place) = self.classes.get_index_of(&name.0) else {
            return Ok(None);
        };
        match number(place)?.checked_add(ClassId::BUILT_IN) {
            Some(number) => Ok(Some(ClassId(number))),
            None => Err(Storage::Slots),
        }
    }

    /// What the path of a superclass tells.
    fn below_path(&self, path: Path) -> Result<Opening, Storage>
        ensures { IfOk result (λ o. o ≡ below_path (map (λ s. s.items) self.now.symbols.now) (keys_of self.now.classes.entries) path) }
    {
        match path {
            Path::Plain(name) => match self.own_class(name)? {
                Some(class) => Ok(Opening::Below(class)),
                None => Ok(below_built_in(BuiltInClass::named(self.name_text(name)))),
            },
            Path::Ractor(name) => {
                let class = BuiltInClass::named_in_ractor(self.name_text(name));
                Ok(below_built_in(class))
            }
        }
    }

    /// What the path of a superclass tells, if one is given.
    fn given(&self, path: Option<Path>) -> Result<Option<Opening>, Storage>
        ensures { IfOk result (λ o. o ≡ option_map (below_path (map (λ s. s.items) self.now.symbols.now) (keys_of self.now.classes.entries)) path) }
    {
        match path {
            Some(path) => Ok(Some(self.below_path(path)?)),
            None => Ok(None),
        }
    }

    /// What is told of a class with this name.
    fn opening(&self, name: Sym, path: Option<Path>) -> Result<Opening, Storage>
        ensures { IfOk result (λ o. o ≡ opening_by (lookup (nat_eq name.0) self.now.classes.entries) (option_map (below_path (map (λ s. s.items) self.now.symbols.now) (keys_of self.now.classes.entries)) path)) }
    {
        let given = self.given(path)?;
        let earlier = self.classes.get(&name.0).copied();
        Ok(opening_by(earlier, given))
    }

    /// Adds a class where its name is new.
    fn add(&mut self, name: Sym, opening: Opening) -> Result<(), Storage>
        ensures classes { OnOk result (self.new.classes.entries ≡ with_class self.old.classes.entries name.0 (superclass_of opening)) }
        ensures symbols { self.new.symbols ≡ self.old.symbols }
    {
        if self.classes.get(&name.0).is_none() {
            self.classes.insert(name.0, superclass_of(opening))?;
        }
        Ok(())
    }

    /// The word `class`, where these words stand behind it.
    fn class(&mut self, words: &[Word]) -> Result<WordKind, Storage>
        ensures kind { (hs : List Head) → self.old.classes.entries ≡ classes_by (map (λ s. s.items) self.old.symbols.now) hs → IfOk result (λ k. k ≡ WordKind.Class (opening_of (map (λ s. s.items) self.old.symbols.now) hs (class_head words.now))) }
        ensures classes { (hs : List Head) → self.old.classes.entries ≡ classes_by (map (λ s. s.items) self.old.symbols.now) hs → OnOk result (self.new.classes.entries ≡ classes_by (map (λ s. s.items) self.old.symbols.now) (hs ++ head_of (class_head words.now))) }
        ensures symbols { self.new.symbols ≡ self.old.symbols }
    {
        let Some(((name, path), _)) = class_head(words) else {
            return Ok(WordKind::Class(Opening::Unknown));
        };
        let opening = self.opening(name, path)?;
        self.add(name, opening)?;
        Ok(WordKind::Class(opening))
    }

    /// The word, where these words stand behind it.
    fn kind(&mut self, kind: WordKind, words: &[Word]) -> Result<WordKind, Storage>
        ensures kind { (hs : List Head) → self.old.classes.entries ≡ classes_by (map (λ s. s.items) self.old.symbols.now) hs → IfOk result (λ k. k ≡ opened_kind (map (λ s. s.items) self.old.symbols.now) hs kind words.now) }
        ensures classes { (hs : List Head) → self.old.classes.entries ≡ classes_by (map (λ s. s.items) self.old.symbols.now) hs → OnOk result (self.new.classes.entries ≡ classes_by (map (λ s. s.items) self.old.symbols.now) (hs ++ head_behind kind words.now)) }
        ensures symbols { self.new.symbols ≡ self.old.symbols }
    {
        match kind {
            WordKind::Class(_) => self.class(words),
            _ => Ok(kind),
        }
    }
}

fn classes(alloc: Global, entries: &IndexMap<u32, ClassId>) -> Result<Vec<Class>, Storage>
    ensures { IfOk result (λ v. v.items ≡ map class_of_entry entries.now.entries) }
{
    let mut classes = Vec::with_capacity(alloc, entries.len())?;
    while let Some((name, superclass)) = entries.get_index(classes.len()) {
        classes.push(Class {
            name: Sym(*name),
            superclass: *superclass,
        })?;
    }
    Ok(classes)
}

/// Tells each `class` among the words its superclass. The classes of the program.
fn open(alloc: Global, symbols: &[Vec<u8>], words: &mut [Word]) -> Result<Vec<Class>, Storage>
    ensures words { OnOk result (words.new ≡ opened_words (map (λ s. s.items) symbols.now) [] words.old) }
    ensures classes { IfOk result (λ v. v.items ≡ map class_of_entry (classes_by (map (λ s. s.items) symbols.now) (heads_in words.old))) }
{
    let mut openings = Openings {
        symbols,
        classes: IndexMap::new(alloc),
    };
    let mut place = 0;
    while place < words.len() {
        let kind = openings.kind(words[place].kind, &words[place + 1..])?;
        words[place].kind = kind;
        place += 1;
    }
    Ok(classes(alloc, &openings.classes)?)
}

/// The words, where the names of the program's classes are told from other constants, and each `class` is told its
/// superclass; and the classes of the program. Where no class is among the words, they are taken as they are.
pub(crate) fn told(
    alloc: Global,
    symbols: &[Vec<u8>],
    words: Vec<Word>,
    with_class: bool,
) -> Result<Opened, Storage>
    requires { with_class ≡ has_class words.items }
    ensures words { IfOk result (λ o. o.words.items ≡ opened_words (map (λ s. s.items) symbols.now) [] (with_classes words.items)) }
    ensures classes { IfOk result (λ o. o.classes.items ≡ map class_of_entry (classes_by (map (λ s. s.items) symbols.now) (heads_in (with_classes words.items)))) }
{
    if !with_class {
        return Ok(Opened {
            words,
            classes: Vec::new(alloc),
        });
    }
    let mut words = words;
    with_classes(alloc, words.as_mut_slice())?;
    let classes = open(alloc, symbols, words.as_mut_slice())?;
    Ok(Opened { words, classes })
}
