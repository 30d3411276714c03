//! A list that finds what it is asked for, or looks at thing after thing. Contracts see the plain
//! list.
ghost use Rattle.std.specs.Prelude.{◌≡◌, ◌==◌, ◌&&◌, ◌++◌, ◌∷◌, ℕ, [], true, not, nat_le, if◌then◌else◌, map, filter, find, length, option_copied, IfOk, OnOk, OnErr, MatchOption};
ghost use Rattle.std.specs.List.{list_any};
ghost use Rattle.jsp_lease.specs.Due.{first_item, over_by};
ghost use Rattle.jsp_table.specs.Finding.{numbered, without};
ghost use Rattle.jsp_keyed.specs.Kept.{item_of};
ghost use Rattle.jsp_keyed.specs.Finding.{is_sought};
ghost use Rattle.jsp_keyed.specs.Changing.{HasSameKeys, HasOnlyNewEnd};

use crate::numbered::{Any, HasNumber, NumberedAnd, one_passing};
use crate::reading::read_one;
use crate::scanned::{
    any_passes, change_passing, copies, count_filled, count_passing, drop_passing, first_over,
    first_passing, read_passing, try_change_passing,
};
use crate::{NoMemory, Reading};
use jsp_keyed::{Keyed, Keying, Keys};
use jsp_lease::Item;
use jsp_table::{Change, Numbering, Test, TryChange};
use jsp_types::Items;
use std::alloc::Global;
use std::marker::Model;

/// Things in a list, found by number, by key and by end. Contracts see the list of them.
///
/// They are found by hints where their numbers rise, as those of the machine do. Where one comes
/// whose number doesn't, each thing is looked at from then on.
#[derive(Drop)]
pub struct IndexedList<T, K: Numbering<T> + Keying<T>> {
    alloc: Global,
    kept: Storage<T, K>,
}

/// How the things are kept.
#[derive(Drop)]
pub(crate) enum Storage<T, K: Numbering<T> + Keying<T>> {
    Scanned(Vec<T>),
    Keyed(Keyed<T, K>),
}

impl<T, K: Numbering<T> + Keying<T>> Model for IndexedList<T, K> {
    ghost use Rattle.std.specs.Prelude.{List};
    ghost use Rattle.jsp_list.specs.Storage.{things_in};

    ghost Value = { List T };

    ghost view = { λ l. things_in l.kept };
}

impl<T: Drop, K: Numbering<T> + Keying<T>> IndexedList<T, K> {
    /// These things, which are looked at one by one.
    pub fn scanned(alloc: Global, things: Items<T>) -> Self
        ensures { result ≡ things }
    {
        IndexedList {
            alloc,
            kept: Storage::Scanned(things.into_vec()),
        }
    }

    /// Nothing yet. The keys come from the seed, which clients aren't to know.
    pub fn new(alloc: Global, seed: u64) -> Self
        ensures { result ≡ [] }
    {
        IndexedList {
            alloc,
            kept: Storage::Keyed(Keyed::new(alloc, seed)),
        }
    }

    /// These things, found by hints.
    pub fn of(alloc: Global, things: Items<T>, seed: u64) -> Result<Self, NoMemory>
        ensures { IfOk result (λ l. l ≡ things) }
    {
        let mut list = IndexedList::new(alloc, seed);
        let mut things = things.into_vec();
        things.reverse();
        'things: while let Some(thing) = things.pop() {
            list.push(thing)?;
        }
        Ok(list)
    }

    /// A plain copy of these things.
    pub fn to_items(&self) -> Result<Items<T>, NoMemory>
        ensures { IfOk result (λ c. c ≡ self.now) }
    {
        match &self.kept {
            Storage::Scanned(things) => copies::<T, K>(self.alloc, things),
            Storage::Keyed(things) => things.to_items(self.alloc),
        }
    }

    // ---- add

    /// Adds a thing at the end, whole or not at all.
    pub fn push(&mut self, thing: T) -> Result<(), NoMemory>
        ensures ok { OnOk result (self.new ≡ self.old ++ thing ∷ []) }
        ensures err { OnErr result (self.new ≡ self.old) }
    {
        match self.push_rising(thing)? {
            None => Ok(()),
            Some(thing) => self.push_scanned(thing),
        }
    }

    /// Adds a thing at the end, or gives it back where its number has to rise and doesn't.
    fn push_rising(&mut self, thing: T) -> Result<Option<T>, NoMemory>
        ensures ok { IfOk result (λ back. MatchOption back (self.new ≡ self.old ++ thing ∷ []) (λ it. (it ≡ thing) × (self.new ≡ self.old))) }
        ensures err { OnErr result (self.new ≡ self.old) }
    {
        match &mut self.kept {
            Storage::Scanned(things) => {
                things.push(thing)?;
                Ok(None)
            }
            Storage::Keyed(things) => things.push(thing),
        }
    }

    /// Adds a thing at the end. Each is looked at from then on.
    fn push_scanned(&mut self, thing: T) -> Result<(), NoMemory>
        ensures ok { OnOk result (self.new ≡ self.old ++ thing ∷ []) }
        ensures err { OnErr result (self.new ≡ self.old) }
    {
        let mut plain = self.to_items()?.into_vec();
        plain.push(thing)?;
        self.kept = Storage::Scanned(plain);
        Ok(())
    }

    // ---- leave out. Nothing here takes memory.

    /// The thing of this number goes.
    pub fn remove(&mut self, number: u64)
        ensures { self.new ≡ without K.number_of number self.old }
    {
        match &mut self.kept {
            Storage::Scanned(things) => drop_passing(things, &HasNumber::<K>::of(number)),
            Storage::Keyed(things) => things.remove(number),
        }
    }

    /// Those that pass the test go, which only things pass that have one of the keys that are
    /// sought.
    pub fn remove_all<P: Test<T> + Keys>(&mut self, test: &P)
        requires { (seed : ℕ) (x : T) → P.is_passed test.now x ≡ true → is_sought (P.sought test.now seed) (K.keys_of seed x) ≡ true }
        ensures { self.new ≡ filter (λ x. not (P.is_passed test.now x)) self.old }
    {
        match &mut self.kept {
            Storage::Scanned(things) => drop_passing(things, test),
            Storage::Keyed(things) => things.remove_all(test),
        }
    }

    // ---- change in place

    /// Changes the thing of this number, which keeps its number, its keys and its end. Takes no
    /// memory.
    pub fn change<C: Change<T>>(&mut self, number: u64, change: &C)
        requires { (x : T) → HasSameKeys K.number_of K.keys_of K.end_of x (C.changed change.now x) }
        ensures { self.new ≡ map (λ x. if K.number_of x == number then C.changed change.now x else x) self.old }
    {
        match &mut self.kept {
            Storage::Scanned(things) => change_passing(things, &HasNumber::<K>::of(number), change),
            Storage::Keyed(things) => things.change(number, change),
        }
    }

    /// The thing of this number ends then: the change gives it that end, and keeps its number and
    /// its keys. Takes no memory.
    pub fn set_end<C: Change<T>>(&mut self, number: u64, end: u64, change: &C)
        requires { (x : T) → HasOnlyNewEnd K.number_of K.keys_of K.end_of end x (C.changed change.now x) }
        ensures { self.new ≡ map (λ x. if K.number_of x == number then C.changed change.now x else x) self.old }
    {
        match &mut self.kept {
            Storage::Scanned(things) => change_passing(things, &HasNumber::<K>::of(number), change),
            Storage::Keyed(things) => things.set_end(number, end, change),
        }
    }

    /// Changes the thing of this number, which keeps its number, its keys and its end, whole or not
    /// at all. The other change takes this one back.
    pub fn try_change<C: TryChange<T>, U: Change<T>>(
        &mut self,
        number: u64,
        change: &C,
        undo: &U,
    ) -> Result<(), NoMemory>
        requires keeps { (x : T) → HasSameKeys K.number_of K.keys_of K.end_of x (C.changed change.now x) }
        requires back { (x : T) → U.changed undo.now (C.changed change.now x) ≡ x }
        ensures ok { OnOk result (self.new ≡ map (λ x. if K.number_of x == number then C.changed change.now x else x) self.old) }
        ensures err { OnErr result (self.new ≡ self.old) }
    {
        match &mut self.kept {
            Storage::Scanned(things) => {
                try_change_passing(things, &HasNumber::<K>::of(number), change, undo)
            }
            Storage::Keyed(things) => things.try_change(number, change),
        }
    }

    // ---- find. Nothing here takes memory.

    /// Whether there are so many.
    pub fn has_at_least(&self, count: usize) -> bool
        ensures { result ≡ nat_le count (length self.now) }
    {
        match &self.kept {
            Storage::Scanned(things) => count <= things.len(),
            Storage::Keyed(things) => things.has_at_least(count),
        }
    }

    /// How many there are.
    pub fn len(&self) -> usize
        ensures { result ≡ length self.now }
    {
        match &self.kept {
            Storage::Scanned(things) => things.len(),
            Storage::Keyed(things) => count_filled(things.places()),
        }
    }

    /// How many pass the test, which only things pass that have one of the keys that are sought.
    pub fn count<P: Test<T> + Keys>(&self, test: &P) -> usize
        requires { (seed : ℕ) (x : T) → P.is_passed test.now x ≡ true → is_sought (P.sought test.now seed) (K.keys_of seed x) ≡ true }
        ensures { result ≡ length (filter (P.is_passed test.now) self.now) }
    {
        match &self.kept {
            Storage::Scanned(things) => count_passing(things, test),
            Storage::Keyed(things) => things.count(test),
        }
    }

    /// The thing of this number.
    pub fn get(&self, number: u64) -> Option<&T>
        ensures { option_copied result ≡ numbered K.number_of number self.now }
    {
        match &self.kept {
            Storage::Scanned(things) => first_passing(things, &HasNumber::<K>::of(number)),
            Storage::Keyed(things) => things.get(number),
        }
    }

    /// Whether the thing of this number passes a test.
    pub fn any_of<P: Test<T>>(&self, number: u64, test: &P) -> bool
        ensures { result ≡ list_any (λ x. K.number_of x == number && P.is_passed test.now x) self.now }
    {
        match &self.kept {
            Storage::Scanned(things) => any_passes(things, &NumberedAnd::<K, P>::of(number, test)),
            Storage::Keyed(things) => things.any_of(number, test),
        }
    }

    /// The first thing of this number that passes a test.
    pub fn first_of<P: Test<T>>(&self, number: u64, test: &P) -> Option<&T>
        ensures { option_copied result ≡ find (λ x. K.number_of x == number && P.is_passed test.now x) self.now }
    {
        match &self.kept {
            Storage::Scanned(things) => first_passing(
                things,
                &NumberedAnd::<K, P>::of(number, test),
            ),
            Storage::Keyed(things) => {
                // Which says that the numbers rise.
                let _ = things.places();
                one_passing(things.get(number), test)
            }
        }
    }

    /// Whether one passes a test. Each is looked at.
    pub fn any<P: Test<T>>(&self, test: &P) -> bool
        ensures { result ≡ list_any (P.is_passed test.now) self.now }
    {
        match &self.kept {
            Storage::Scanned(things) => any_passes(things, test),
            Storage::Keyed(things) => things.first(test).is_some(),
        }
    }

    /// The thing whose end has come and comes first, as an item.
    pub fn due(&self, time: u64) -> Option<Item>
        ensures { result ≡ first_item (over_by time (map (item_of K.number_of K.end_of K.rank_of) self.now)) }
    {
        match &self.kept {
            Storage::Scanned(things) => first_over::<T, K, Any>(things, time, &Any {}),
            Storage::Keyed(things) => things.due(time),
        }
    }

    /// The same of those that pass a test. Each is looked at.
    pub fn due_of<P: Test<T>>(&self, time: u64, test: &P) -> Option<Item>
        ensures { result ≡ first_item (over_by time (map (item_of K.number_of K.end_of K.rank_of) (filter (P.is_passed test.now) self.now))) }
    {
        match &self.kept {
            Storage::Scanned(things) => first_over::<T, K, P>(things, time, test),
            Storage::Keyed(things) => things.due_of(time, test),
        }
    }

    // ---- answer in a list, which takes memory

    /// What is read off the things of this number.
    pub fn read_of<R: Reading<T>>(
        &self,
        alloc: Global,
        number: u64,
        reading: &R,
    ) -> Result<Vec<u64>, NoMemory>
        ensures { IfOk result (λ v. v.items ≡ map (R.value_of reading.now) (filter (λ x. K.number_of x == number) self.now)) }
    {
        match &self.kept {
            Storage::Scanned(things) => {
                read_passing(alloc, things, &HasNumber::<K>::of(number), reading)
            }
            Storage::Keyed(things) => {
                // Which says that the numbers rise.
                let _ = things.places();
                read_one(alloc, things.get(number), reading)
            }
        }
    }
}
