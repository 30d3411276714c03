//! Things, found by number, by key and by end.
ghost use Rattle.std.specs.Prelude.{◌≡◌, ◌<◌, ◌++◌, ◌∷◌, [], filter, map, not, ◌==◌, option_copied, find, OnErr, IfOk, MatchOption};
ghost use Rattle.std.specs.List.{AllByRecursion};
ghost use Rattle.jsp_lease.specs.Due.{first_item, over_by};
ghost use Rattle.jsp_table.specs.Finding.{numbered, without, AreNumbered};
ghost use Rattle.jsp_table.specs.Places.{living};
ghost use Rattle.jsp_keyed.specs.Kept.{item_of};

use crate::adding::{append, cancel, item, place};
use crate::naming::forget_gone;
use crate::{Keying, NoMemory};
use jsp_lease::{Item, Leases};
use jsp_table::{Hints, Numbering, Numbers, Table};
use std::alloc::Global;
use std::marker::Model;

/// Things, found by number, by key and by end. Contracts see the list of them, in rising order of
/// their numbers.
#[derive(Drop)]
pub struct Keyed<T, K: Numbering<T> + Keying<T>> {
    pub(crate) alloc: Global,
    pub(crate) seed: u64,
    pub(crate) table: Table<T, K>,
    /// The numbers of the things under each key. A list may name more.
    pub(crate) hints: Hints,
    /// No numbers, for keys that have no list.
    pub(crate) none: Numbers,
    pub(crate) ends: Leases,
}

impl<T, K: Numbering<T> + Keying<T>> Model for Keyed<T, K> {
    ghost use Rattle.std.specs.Prelude.{List};
    ghost use Rattle.jsp_keyed.specs.Kept.{AreKeyed};

    ghost Value = { List T };

    ghost view = { λ k. k.table };

    ghost invariant = { λ k. AreKeyed K.number_of K.keys_of K.end_of K.rank_of k.seed k.hints k.ends k.table };
}

impl<T, K: Numbering<T> + Keying<T>> Keyed<T, K> {
    /// Nothing. The seed is for the keys.
    pub fn new(alloc: Global, seed: u64) -> Self
        ensures { result ≡ [] }
    {
        Keyed {
            alloc,
            seed,
            table: Table::new(alloc),
            hints: Hints::new(alloc),
            none: Numbers::new(alloc),
            ends: Leases::new(alloc),
        }
    }

    /// Adds a thing whose number is above all that were given, whole or not at all. One whose
    /// number isn't is answered, and all stays as it was.
    pub fn push(&mut self, thing: T) -> Result<Option<T>, NoMemory>
    where
        T: Drop,
        ensures ok { IfOk result (λ back. MatchOption back (self.new ≡ self.old ++ thing ∷ []) (λ it. (it ≡ thing) × (self.new ≡ self.old))) }
        ensures err { OnErr result (self.new ≡ self.old) }
    {
        let number = K::number(&thing);
        if number == 0 || self.ends.last() >= number || !self.table.is_above(number) {
            return Ok(Some(thing));
        }
        self.ends.reserve(1)?;
        let item = item::<T, K>(&thing);
        append(
            self.alloc,
            self.seed,
            &mut self.hints,
            &mut self.table,
            thing,
        )?;
        place(&mut self.ends, item);
        Ok(None)
    }

    /// The thing of this number.
    pub fn get(&self, number: u64) -> Option<&T>
        ensures { option_copied result ≡ numbered K.number_of number self.now }
    {
        self.table.get(number)
    }

    /// The thing of this number goes. Takes no memory.
    pub fn remove(&mut self, number: u64)
    where
        T: Drop,
        ensures { self.new ≡ without K.number_of number self.old }
    {
        let thing = self.table.remove(number);
        forget_gone::<T, K>(self.seed, &mut self.hints, thing, number);
        cancel(&mut self.ends, number);
    }

    /// The thing whose end has come and comes first, as an item.
    pub fn due(&self, time: u64) -> Option<Item>
        ensures { result ≡ first_item (over_by time (map (item_of K.number_of K.end_of K.rank_of) self.now)) }
    {
        self.ends.due(time)
    }

    /// The places of the things in their order, some of which are empty.
    pub fn places(&self) -> &[Option<T>]
        ensures things { living result.now ≡ self.now }
        ensures rising { AreNumbered K.number_of self.now }
        ensures positive { AllByRecursion (λ x. 0 < K.number_of x) self.now }
    {
        self.table.places()
    }
}
