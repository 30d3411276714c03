//! Where a line puts the bytes that it has read while it waits for more, so that they can be
//! dropped meanwhile.
ghost use Rattle.std.specs.Prelude.{◌≡◌, true, IfOk, IfErr, IfSome, OnOk};
ghost use Rattle.crossbeam_queue.specs.Passes.{ruled_capacity, IsPassOf};
ghost use Rattle.jsp_line.specs.Bytes.{has_bytes};
ghost use Rattle.jsp_line.specs.Slots.{Holds};

use crate::sealed::Sealed;
use crate::transcript::Transcript;
use crossbeam_queue::protocol::{Outcome, Protocol};
use crossbeam_queue::{Pass, RuledArrayQueue};
use jsp_types::NoMemory;
use std::alloc::Global;
use std::collections::LinkedList;
use std::marker::Model;
use std::sync::Wait;
use std::thread;

// What is in a slot is what its owner has put there last, or shows why that was dropped. A pass
// knows what was put as a list.
struct LastPut;

impl Protocol<Transcript, LinkedList<u8>> for LastPut {
    ghost use Rattle.std.specs.Prelude.{[]};
    ghost use Rattle.jsp_line.specs.Slots.{HoldsLast};

    ghost holds = { HoldsLast };

    ghost first = { [] };
}

// The owner has put it there.
struct Put;

impl Outcome<Transcript, LinkedList<u8>> for Put {
    ghost use Rattle.jsp_line.specs.Slots.{Holds};

    ghost then = { λ v x w. Holds x w };
}

// The owner has taken it.
struct Taken;

impl Outcome<Transcript, LinkedList<u8>> for Taken {
    ghost use Rattle.std.specs.Prelude.{◌≡◌};
    ghost use Rattle.jsp_line.specs.Slots.{Holds};

    ghost then = { λ v x w. Holds x v × (w ≡ v) };
}

// Somebody has taken it, or put there what shows why: who knows nothing of it.
struct Cleared;

impl Outcome<Transcript, LinkedList<u8>> for Cleared {
    ghost use Rattle.std.specs.Prelude.{⊤};

    ghost then = { λ v x w. ⊤ };
}

type Place = RuledArrayQueue<Transcript, LinkedList<u8>, LastPut>;

/// What makes a thread the owner of a slot. It has no bytes.
pub(crate) type Ownership = Pass<Transcript, LinkedList<u8>>;

/// A place for the bytes that one line has read. One thread owns it, and any thread may clear it.
#[derive(Drop)]
pub(crate) struct Slot {
    place: Place,
    ghost one: { ruled_capacity place ≡ 1 },
}

/// The owner of a slot. Contracts see what it has put there last.
#[derive(Drop)]
pub(crate) struct Owner<'a> {
    slot: &'a Slot,
    pass: Ownership,
}

impl<'a> Model for Owner<'a> {
    ghost use Rattle.std.specs.Prelude.{◌≡◌, List, ℕ};
    ghost use Rattle.crossbeam_queue.specs.Passes as passes;

    ghost Value = { List ℕ };

    ghost view = { λ o. passes.view o.pass };

    ghost invariant = { λ o. passes.IsPassOf o.slot.now.place o.pass × (o.pass.id ≡ 0) };
}

impl Slot {
    /// An empty slot.
    pub(crate) fn new(alloc: Global) -> Result<(Slot, Ownership), NoMemory>
        ensures { IfOk result (λ s. IsPassOf s.0.place s.1 × (s.1.id ≡ 0)) }
    {
        let (place, pass) = Place::ruled(alloc, 1)?;
        Ok((Slot { place }, pass))
    }

    /// Its owner, whose pass it came with.
    pub(crate) fn owner(&self, pass: Ownership) -> Owner<'_>
        requires { IsPassOf self.now.place pass × (pass.id ≡ 0) }
    {
        Owner { slot: self, pass }
    }

    /// Drops what is there, and leaves what shows why, unless its owner is just taking it.
    pub(crate) fn clear<T: Wait>(&self, rt: &T, sealed: Sealed) {
        let mut pass = self.place.pass();
        let Some(dropped) = self.place.try_pop_as::<Cleared>(&mut pass) else {
            return;
        };
        for _ in rt.forever() {
            if self.show(&mut pass, sealed) {
                break;
            }
            thread::yield_now();
        }
        drop(dropped);
    }

    // One attempt to leave what shows why nothing is there.
    fn show(&self, pass: &mut Ownership, sealed: Sealed) -> bool
        requires { IsPassOf self.now.place pass.old }
        ensures { IsPassOf self.now.place pass.new }
    {
        let shown = Transcript::Sealed(sealed);
        self.place.try_push_as::<Cleared>(pass, shown).is_ok()
    }
}

impl Owner<'_> {
    /// Puts bytes there, after the last ones were taken. They come back where somebody is just
    /// clearing it.
    pub(crate) fn put(&mut self, whole: Transcript) -> Result<(), Transcript>
        requires { has_bytes whole ≡ true }
        ensures ok { OnOk result (Holds whole self.new) }
        ensures err { IfErr result (λ back. back ≡ whole) }
    {
        self.slot.place.try_push_as::<Put>(&mut self.pass, whole)
    }

    /// Takes what it has put there last, or what shows why that was dropped. Who clears the slot
    /// leaves that at once.
    pub(crate) fn take<T: Wait>(&mut self, rt: &T) -> Transcript
        ensures holds { Holds result self.old }
        ensures same { self.new ≡ self.old }
    {
        for _ in rt.forever() {
            if let Some(taken) = self.take_once() {
                return taken;
            }
            thread::yield_now();
        }
        unreachable!()
    }

    // One attempt to take it.
    fn take_once(&mut self) -> Option<Transcript>
        ensures holds { IfSome result (λ taken. Holds taken self.old) }
        ensures same { self.new ≡ self.old }
    {
        self.slot.place.try_pop_as::<Taken>(&mut self.pass)
    }
}
