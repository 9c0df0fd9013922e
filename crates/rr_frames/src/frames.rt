//! A list of frames, whose variables lie in one vector.

ghost use Rattle.std.specs.Prelude.{◌≡◌, nat_lt, ◌-◌, ◌∷◌, ◌++◌, [], ◌<◌, length, slice_get, OnOk, OnErr, IfErr, IfSome, IsTrue, IsFalse, if◌then◌else◌};
ghost use Rattle.std.specs.Option.{option_map};
ghost use Rattle.rr_base.specs.declared.fault.Fault.{Fault};
ghost use Rattle.rr_base.specs.declared.limits.LimitKind.{LimitKind};
ghost use Rattle.rr_frames.specs.Frames.{no_frames, list_of, laid, frame_at, read_at, write_at, read_last, write_last, left};

use crate::activation::{Activation, Shape};
use crate::slots::{append_within, cut_within, has_room, last_of, lay_within, replace_at};
use rr_base::{Fault, LimitKind};
use rr_space::Ref;
use std::alloc::Global;
use std::marker::Model;

/// Where the variables of a frame lie, and what else it has.
#[derive(Clone, Copy)]
pub(crate) struct Row {
    pub base: usize,
    pub size: usize,
    pub activation: Activation,
}

/// The frames of the methods and blocks that run, by their numbers from 0: the first one is the program's. Each has its
/// variables.
#[derive(Drop)]
pub struct Frames {
    slots: Vec<Ref>,
    rows: Vec<Row>,
    limit: usize,
    // What the last row has, since the variables of the last frame are read and written most.
    base: usize,
    size: usize,
}

impl Model for Frames {
    ghost use Rattle.rr_frames.specs.Frames.{Stack};
    ghost use Rattle.rr_frames.specs.Layout.{frames_of, IsLaid, IsLast};

    ghost Value = { Stack };

    ghost view = { λ s. record { frames = frames_of s.slots.items s.rows.items; limit = s.limit } };

    ghost invariant = { λ s. IsLaid s.slots.items s.rows.items s.limit × IsLast s.rows.items s.base s.size };
}

impl Frames {
    /// No frames, of which there may be `limit`. Takes no memory.
    pub fn new(alloc: Global, limit: usize) -> Frames
        ensures { result ≡ no_frames limit }
    {
        Frames {
            slots: Vec::new(alloc),
            rows: Vec::new(alloc),
            limit,
            base: 0,
            size: 0,
        }
    }

    /// How many frames there are.
    #[inline(always)]
    pub fn len(&self) -> usize
        ensures { result ≡ length self.now.frames }
    {
        self.rows.len()
    }

    /// Whether there may be another frame.
    #[inline(always)]
    pub fn may_grow(&self) -> bool
        ensures { result ≡ nat_lt (length self.now.frames) self.now.limit }
    {
        self.rows.len() < self.limit
    }

    /// What the frame has beside its variables.
    #[inline(always)]
    pub fn activation(&self, number: u32) -> Option<Activation>
        ensures { result ≡ option_map (λ f. f.activation) (slice_get self.now.frames number) }
    {
        match self.rows.get(number as usize) {
            Some(row) => Some(row.activation),
            None => None,
        }
    }

    /// What the last frame has beside its variables.
    #[inline(always)]
    pub fn last(&self) -> Option<Activation>
        ensures { result ≡ option_map (λ f. f.activation) (slice_get self.now.frames (length self.now.frames - 1)) }
    {
        match self.rows.last() {
            Some(row) => Some(row.activation),
            None => None,
        }
    }

    /// A variable of a frame; nil where there is none.
    #[inline(always)]
    pub fn get(&self, number: u32, place: u32) -> Ref
        ensures { result ≡ read_at number place self.now.frames }
    {
        let number = number as usize;
        if number < self.rows.len() {
            let row = self.rows[number];
            if (place as usize) < row.size {
                return self.slots[row.base + place as usize];
            }
        }
        Ref::Nil
    }

    /// Gives a variable of a frame another value. Nothing is done where there is no such variable.
    #[inline(always)]
    pub fn set(&mut self, number: u32, place: u32, value: Ref)
        ensures frames { self.new.frames ≡ write_at number place value self.old.frames }
        ensures limit { self.new.limit ≡ self.old.limit }
    {
        let number = number as usize;
        if number < self.rows.len() {
            let row = self.rows[number];
            if (place as usize) < row.size {
                replace_at(&mut self.slots, row.base + place as usize, value);
            }
        }
    }

    /// A variable of the last frame; nil where there is none.
    #[inline(always)]
    pub fn read(&self, place: u32) -> Ref
        ensures { result ≡ read_last place self.now.frames }
    {
        if (place as usize) < self.size {
            return self.slots[self.base + place as usize];
        }
        Ref::Nil
    }

    /// Gives a variable of the last frame another value. Nothing is done where there is no such variable.
    #[inline(always)]
    pub fn write(&mut self, place: u32, other: Ref)
        ensures { self.new ≡ record self.old { frames = write_last place other self.old.frames } }
    {
        if (place as usize) < self.size {
            replace_at(&mut self.slots, self.base + place as usize, other);
        }
    }

    /// A new frame, the last one, whose first variables are the parameters: they have the first of the values, and all
    /// other variables are nil. `last` stands behind `values`.
    ///
    /// The faults leave the frames as they were. `Limit(Frames)`: there are as many as there may be. `Memory`: a growth was
    /// refused.
    pub fn push(
        &mut self,
        values: &[Ref],
        last: Option<Ref>,
        shape: Shape,
        activation: Activation,
    ) -> Result<(), Fault>
        ensures pushed { OnOk result (self.new.frames ≡ self.old.frames ++ record { variables = laid shape.parameters shape.size (values.now ++ list_of last); activation = activation } ∷ []) }
        ensures room { OnOk result (length self.old.frames < self.old.limit) }
        ensures limit { self.new.limit ≡ self.old.limit }
        ensures refused { OnErr result (self.new ≡ self.old) }
        ensures fault { IfErr result (λ fault. fault ≡ (if nat_lt (length self.old.frames) self.old.limit then Fault.Memory else Fault.Limit LimitKind.Frames)) }
    {
        if self.rows.len() >= self.limit {
            return Err(Fault::Limit(LimitKind::Frames));
        }
        let base = self.slots.len();
        let size = shape.size as usize;
        self.rows.reserve(1)?;
        self.slots
            .reserve(size.max(values.len().saturating_add(1)).max(2))?;
        append_within(&mut self.slots, values, last);
        self.slots.truncate(base + shape.parameters as usize);
        cut_within(&mut self.slots, base + size);
        self.rows.push_reserved(Row {
            base,
            size,
            activation,
        });
        self.base = base;
        self.size = size;
        Ok(())
    }

    /// The same where it takes no memory: it answers whether it was done. Where it answers `false`, nothing was done.
    #[inline(always)]
    pub fn push_usual(
        &mut self,
        values: &[Ref],
        last: Option<Ref>,
        shape: Shape,
        activation: Activation,
    ) -> bool
        ensures pushed { IsTrue result → self.new.frames ≡ self.old.frames ++ record { variables = laid shape.parameters shape.size (values.now ++ list_of last); activation = activation } ∷ [] }
        ensures room { IsTrue result → length self.old.frames < self.old.limit }
        ensures limit { self.new.limit ≡ self.old.limit }
        ensures declined { IsFalse result → self.new ≡ self.old }
    {
        let size = shape.size as usize;
        if !has_room(&self.slots, values, size)
            || self.rows.len() >= self.limit
            || self.rows.len() >= self.rows.capacity()
        {
            return false;
        }
        let base = self.slots.len();
        lay_within(&mut self.slots, values, last, shape);
        self.rows.push_reserved(Row {
            base,
            size,
            activation,
        });
        self.base = base;
        self.size = size;
        true
    }

    /// The same, inside another frame: the new one has what that one has beside its variables, but that it is one scope inside it. It is
    /// not done either where there is no frame of the number.
    #[inline(always)]
    pub fn push_inside(
        &mut self,
        values: &[Ref],
        last: Option<Ref>,
        shape: Shape,
        home: u32,
    ) -> bool
        ensures pushed { IsTrue result → self.new.frames ≡ self.old.frames ++ record { variables = laid shape.parameters shape.size (values.now ++ list_of last); activation = record (frame_at home self.old.frames).activation { home = home } } ∷ [] }
        ensures room { IsTrue result → length self.old.frames < self.old.limit }
        ensures limit { self.new.limit ≡ self.old.limit }
        ensures declined { IsFalse result → self.new ≡ self.old }
    {
        let size = shape.size as usize;
        if !has_room(&self.slots, values, size)
            || self.rows.len() >= self.limit
            || self.rows.len() >= self.rows.capacity()
        {
            return false;
        }
        let Some(outside) = self.rows.get(home as usize) else {
            return false;
        };
        let activation = Activation {
            home,
            ..outside.activation
        };
        let base = self.slots.len();
        lay_within(&mut self.slots, values, last, shape);
        self.rows.push_reserved(Row {
            base,
            size,
            activation,
        });
        self.base = base;
        self.size = size;
        true
    }

    /// Takes the last frame away. Nothing is done where there is none.
    #[inline(always)]
    pub fn pop(&mut self)
        ensures frames { self.new.frames ≡ left self.old.frames }
        ensures limit { self.new.limit ≡ self.old.limit }
    {
        if let Some(row) = self.rows.pop() {
            self.slots.truncate(row.base);
            let (base, size) = last_of(&self.rows);
            self.base = base;
            self.size = size;
        }
    }
}
