//! The frames of the program and of the methods and blocks that run, by numbers of 32 bits.

ghost use Rattle.std.specs.Prelude.{true, false, IfSome, ◌≡◌, ◌+◌, ◌-◌, ◌<◌, ◌∷◌, ◌++◌, [], nat_lt, length, IfOk, IfErr, IsTrue, IsFalse, OnOk, OnErr, if◌then◌else◌};
ghost use Rattle.std.specs.List.{All};
ghost use Rattle.rr_base.specs.declared.fault.Fault.{Fault};
ghost use Rattle.rr_base.specs.declared.limits.LimitKind.{LimitKind};
ghost use Rattle.rr_frames.specs.Frames.{Frame as Activated, frame_at, laid, left, list_of, no_frame, read_at};
ghost use Rattle.rr_eval.specs.Blocks.{activation_in, running, is_outside};
ghost use Rattle.rr_eval.specs.Unframed.{LiesIn, AsMany};
ghost use Rattle.rr_eval.specs.Variables.{top, outer, read_variable, write_variable};
ghost use Rattle.rr_eval.specs.Within.{Reach, IsReached, AreVariablesReached};

use rr_base::{ClassId, Fault, Sym};
use rr_frames::{Activation, Frames, Given, Shape};
use rr_space::Ref;
use std::alloc::Global;
use std::marker::Model;

/// A variable: how many scopes outside of the frame that runs it is, and its number there.
#[derive(Clone, Copy)]
pub struct Variable {
    pub depth: u32,
    pub slot: u32,
}

/// The block that a method is given.
#[derive(Clone, Copy)]
pub enum Handed {
    Nothing,
    /// A block that stands in the frame that runs.
    Beside,
    /// The block that the method was given that runs.
    Same,
}

/// What the value of a call is.
#[derive(Clone, Copy)]
pub enum CallValue {
    /// That of the method.
    Method,
    /// Another value, whatever the method's is: a new object, or a value that is assigned.
    Other(Ref),
    /// Whether the method's value is nil or false.
    Opposite,
    /// None: a new exception is raised.
    Raises(Ref),
}

/// A call of a method.
#[derive(Clone, Copy)]
pub struct Invocation {
    /// `self`.
    pub itself: Ref,
    /// The name of the method.
    pub name: Sym,
    /// The class in which the method stands.
    pub class: ClassId,
    /// How many parameters it has.
    pub parameters: u32,
    /// The block that it is given.
    pub block: Handed,
    pub value: CallValue,
}

/// What a new frame is for.
#[derive(Clone, Copy)]
pub enum Entry {
    /// A method.
    OfMethod(Invocation),
    /// A block, by the number of the frame in which it stands.
    OfBlock(u32),
}

/// How many numbers frames have.
const NUMBERS: usize = 4_294_967_296;

/// The frames of the program and of the methods and blocks that run. There are no more than their numbers allow.
#[derive(Drop)]
pub struct CallStack {
    frames: Frames,
}

impl Model for CallStack {
    ghost use Rattle.std.specs.Prelude.{◌≤◌, ◌^◌, length};
    ghost use Rattle.rr_frames.specs.Frames.{Stack};

    ghost Value = { Stack };

    ghost view = { λ s. s.frames };

    ghost invariant = { λ s. (length s.frames.frames ≤ s.frames.limit) × (s.frames.limit ≤ 2 ^ 32) };
}

/// What a frame has beside its variables where there is none.
fn no_activation() -> Activation
    ensures { result ≡ no_frame.activation }
{
    Activation {
        itself: Ref::Nil,
        given: Given::Nothing,
        home: 0,
        root: 0,
        name: Sym(0),
        class: ClassId::OBJECT,
        parameters: 0,
    }
}

/// Whether a block runs that stands in no method.
pub fn is_outside(calls: &CallStack) -> bool
    ensures { result ≡ is_outside calls.now.frames }
{
    calls.running().root == 0 && calls.top() > 0
}

impl CallStack {
    /// The frame of a program, whose variables are unset and whose `self` is given, where so many methods and blocks may be
    /// called in one another. The only fault is `Memory`.
    pub fn new(alloc: Global, most: u32, size: u32, itself: Ref) -> Result<CallStack, Fault>
        ensures frames { IfOk result (λ s. s.frames ≡ record { variables = laid 0 size []; activation = record no_frame.activation { itself = itself } } ∷ []) }
        ensures limit { IfOk result (λ s. s.limit ≡ most + 1) }
        ensures fault { IfErr result (λ f. f ≡ Fault.Memory) }
    {
        let mut frames = Frames::new(alloc, most as usize + 1);
        let shape = Shape {
            parameters: 0,
            size,
        };
        let activation = Activation {
            itself,
            ..no_activation()
        };
        match frames.push(&[], None, shape, activation) {
            Ok(()) => Ok(CallStack { frames }),
            Err(_) => Err(Fault::Memory),
        }
    }

    /// The number of the frame that runs.
    #[inline(always)]
    pub fn top(&self) -> u32
        ensures { result ≡ top self.now.frames }
    {
        self.frames.len().saturating_sub(1) as u32
    }

    /// The number of the next frame, where there may be one more.
    #[inline(always)]
    pub fn next_number(&self) -> Option<u32>
        ensures number { IfSome result (λ n. n ≡ length self.now.frames) }
        ensures room { IfSome result (λ _. nat_lt (length self.now.frames) self.now.limit ≡ true) }
    {
        if self.frames.may_grow() {
            Some((self.frames.len() % NUMBERS) as u32)
        } else {
            None
        }
    }

    /// What a frame has beside its variables.
    #[inline(always)]
    pub fn activation(&self, number: u32) -> Activation
        ensures { result ≡ (frame_at number self.now.frames).activation }
    {
        match self.frames.activation(number) {
            Some(activation) => activation,
            None => no_activation(),
        }
    }

    /// What the frame that runs has beside its variables.
    #[inline(always)]
    pub fn running(&self) -> Activation
        ensures { result ≡ running self.now.frames }
    {
        match self.frames.last() {
            Some(activation) => activation,
            None => no_activation(),
        }
    }

    /// The number of the frame one scope outside of the one that runs, and so many scopes more.
    fn outside(&self, more: u32) -> u32
        ensures { result ≡ outer (more + 1) (top self.now.frames) self.now.frames }
    {
        let mut number = self.running().home;
        let mut rest = more;
        while rest > 0 {
            number = self.activation(number).home;
            rest -= 1;
        }
        number
    }

    /// The value of a variable; nil where there is none.
    #[inline(always)]
    pub fn read(&self, variable: Variable) -> Ref
        ensures { result ≡ read_variable variable self.now.frames }
    {
        match variable.depth {
            0 => self.frames.read(variable.slot),
            depth => self.frames.get(self.outside(depth - 1), variable.slot),
        }
    }

    /// The number of the frame so many scopes outside of one, where that and those between are there.
    #[inline(always)]
    fn scope_at(&self, home: u32, more: u32) -> Option<u32>
        ensures goes { (f : Activated) → IfSome result (λ n. outer more home (self.now.frames ++ f ∷ []) ≡ n) }
        ensures there { IfSome result (λ n. n < length self.now.frames) }
    {
        let mut number = home;
        let mut rest = more;
        while rest > 0 {
            number = self.frames.activation(number)?.home;
            rest -= 1;
        }
        if (number as usize) < self.frames.len() {
            Some(number)
        } else {
            None
        }
    }

    /// A variable as a frame sees it that is not there: its first variables have these values, and it lies in the one with the number
    /// `home`. None where that does not tell it.
    #[inline(always)]
    pub fn read_unframed(&self, values: &[Ref], home: u32, variable: Variable) -> Option<Ref>
        ensures { (f : Activated) → LiesIn values.now home f → IfSome result (λ v. read_variable variable (self.now.frames ++ f ∷ []) ≡ v) }
    {
        match variable.depth {
            0 => match values.get(variable.slot as usize) {
                Some(value) => Some(*value),
                None => None,
            },
            depth => {
                let number = self.scope_at(home, depth - 1)?;
                Some(self.frames.get(number, variable.slot))
            }
        }
    }

    /// Gives a variable outside of such a frame another value: it answers whether it was done. Where it answers `false`, nothing was done.
    #[inline(always)]
    pub fn write_unframed(&mut self, home: u32, variable: Variable, value: Ref) -> bool
        ensures written { IsTrue result → (f : Activated) → f.activation.home ≡ home → write_variable variable value (self.old.frames ++ f ∷ []) ≡ self.new.frames ++ f ∷ [] }
        ensures many { AsMany self.old self.new }
        ensures within { (k : Reach) → IsReached k value → All (AreVariablesReached k) self.old.frames → All (AreVariablesReached k) self.new.frames }
        ensures declined { IsFalse result → self.new ≡ self.old }
    {
        if variable.depth == 0 {
            return false;
        }
        match self.scope_at(home, variable.depth - 1) {
            Some(number) => {
                self.frames.set(number, variable.slot, value);
                true
            }
            None => false,
        }
    }

    /// A variable of the frame with a number; nil where there is none.
    pub fn get(&self, number: u32, slot: u32) -> Ref
        ensures { result ≡ read_at number slot self.now.frames }
    {
        self.frames.get(number, slot)
    }

    /// Gives a variable another value. Nothing is done where there is no such variable.
    #[inline(always)]
    pub fn write(&mut self, variable: Variable, value: Ref)
        ensures frames { self.new.frames ≡ write_variable variable value self.old.frames }
        ensures limit { self.new.limit ≡ self.old.limit }
    {
        match variable.depth {
            0 => self.frames.write(variable.slot, value),
            depth => {
                let number = self.outside(depth - 1);
                self.frames.set(number, variable.slot, value);
            }
        }
    }

    /// What the frame of a method has beside its variables.
    #[inline(always)]
    fn activation_of(&self, call: Invocation) -> Activation
        ensures { length self.now.frames < self.now.limit → result ≡ activation_in (Entry.OfMethod call) self.now.frames }
    {
        let number = (self.frames.len() % NUMBERS) as u32;
        let given = match call.block {
            Handed::Nothing => Given::Nothing,
            Handed::Beside => Given::Block {
                block: number,
                home: number.saturating_sub(1),
            },
            Handed::Same => self.running().given,
        };
        Activation {
            itself: call.itself,
            given,
            home: number,
            root: number,
            name: call.name,
            class: call.class,
            parameters: call.parameters,
        }
    }

    /// What a new frame has beside its variables.
    #[inline(always)]
    fn activation_in(&self, entry: Entry) -> Activation
        ensures { length self.now.frames < self.now.limit → result ≡ activation_in entry self.now.frames }
    {
        match entry {
            Entry::OfMethod(call) => self.activation_of(call),
            Entry::OfBlock(home) => Activation {
                home,
                ..self.activation(home)
            },
        }
    }

    /// A new frame, the one that runs, whose parameters have these values. `last` stands behind `values`.
    ///
    /// The faults leave the frames as they were. `Limit(Frames)`: there are as many as there may be. `Memory`: a growth was
    /// refused.
    #[inline(always)]
    pub fn push(
        &mut self,
        values: &[Ref],
        last: Option<Ref>,
        shape: Shape,
        entry: Entry,
    ) -> Result<(), Fault>
        ensures pushed { OnOk result (self.new.frames ≡ self.old.frames ++ record { variables = laid shape.parameters shape.size (values.now ++ list_of last); activation = activation_in entry self.old.frames } ∷ []) }
        ensures room { OnOk result (length self.old.frames < self.old.limit) }
        ensures limit { self.new.limit ≡ self.old.limit }
        ensures refused { OnErr result (self.new ≡ self.old) }
        ensures fault { IfErr result (λ fault. fault ≡ (if nat_lt (length self.old.frames) self.old.limit then Fault.Memory else Fault.Limit LimitKind.Frames)) }
    {
        let activation = self.activation_in(entry);
        self.frames.push(values, last, shape, activation)
    }

    /// The same where it takes no memory: it answers whether it was done. Where it answers `false`, nothing was done.
    #[inline(always)]
    pub fn push_usual(
        &mut self,
        values: &[Ref],
        last: Option<Ref>,
        shape: Shape,
        entry: Entry,
    ) -> bool
        ensures pushed { IsTrue result → self.new.frames ≡ self.old.frames ++ record { variables = laid shape.parameters shape.size (values.now ++ list_of last); activation = activation_in entry self.old.frames } ∷ [] }
        ensures room { IsTrue result → length self.old.frames < self.old.limit }
        ensures limit { self.new.limit ≡ self.old.limit }
        ensures declined { IsFalse result → self.new ≡ self.old }
    {
        match entry {
            Entry::OfMethod(call) => {
                let activation = self.activation_of(call);
                self.frames.push_usual(values, last, shape, activation)
            }
            Entry::OfBlock(home) => self.frames.push_inside(values, last, shape, home),
        }
    }

    /// The same with these values alone.
    pub fn push_all(&mut self, values: &[Ref], shape: Shape, entry: Entry) -> Result<(), Fault>
        ensures pushed { OnOk result (self.new.frames ≡ self.old.frames ++ record { variables = laid shape.parameters shape.size values.now; activation = activation_in entry self.old.frames } ∷ []) }
        ensures room { OnOk result (length self.old.frames < self.old.limit) }
        ensures limit { self.new.limit ≡ self.old.limit }
        ensures refused { OnErr result (self.new ≡ self.old) }
        ensures fault { IfErr result (λ fault. fault ≡ (if nat_lt (length self.old.frames) self.old.limit then Fault.Memory else Fault.Limit LimitKind.Frames)) }
    {
        self.push(values, None, shape, entry)
    }

    /// The same with up to two values.
    pub fn push_few(
        &mut self,
        first: Option<Ref>,
        last: Option<Ref>,
        shape: Shape,
        entry: Entry,
    ) -> Result<(), Fault>
        ensures pushed { OnOk result (self.new.frames ≡ self.old.frames ++ record { variables = laid shape.parameters shape.size (list_of first ++ list_of last); activation = activation_in entry self.old.frames } ∷ []) }
        ensures room { OnOk result (length self.old.frames < self.old.limit) }
        ensures limit { self.new.limit ≡ self.old.limit }
        ensures refused { OnErr result (self.new ≡ self.old) }
        ensures fault { IfErr result (λ fault. fault ≡ (if nat_lt (length self.old.frames) self.old.limit then Fault.Memory else Fault.Limit LimitKind.Frames)) }
    {
        match first {
            Some(value) => self.push(&[value], last, shape, entry),
            None => self.push(&[], last, shape, entry),
        }
    }

    /// The same with up to two values, where it takes no memory.
    #[inline(always)]
    pub fn push_two(
        &mut self,
        first: Option<Ref>,
        last: Option<Ref>,
        shape: Shape,
        entry: Entry,
    ) -> bool
        ensures pushed { IsTrue result → self.new.frames ≡ self.old.frames ++ record { variables = laid shape.parameters shape.size (list_of first ++ list_of last); activation = activation_in entry self.old.frames } ∷ [] }
        ensures room { IsTrue result → length self.old.frames < self.old.limit }
        ensures limit { self.new.limit ≡ self.old.limit }
        ensures declined { IsFalse result → self.new ≡ self.old }
    {
        match (first, last) {
            (Some(value), None) => self.push_usual(&[], Some(value), shape, entry),
            (Some(value), Some(_)) => self.push_usual(&[value], last, shape, entry),
            (None, _) => self.push_usual(&[], last, shape, entry),
        }
    }

    /// Takes the frame that runs away. Nothing is done where there is none.
    #[inline(always)]
    pub fn pop(&mut self)
        ensures frames { self.new.frames ≡ left self.old.frames }
        ensures limit { self.new.limit ≡ self.old.limit }
    {
        self.frames.pop();
    }
}
