//! What is asked of all things, or of the one that has a number.
ghost use Rattle.std.specs.Prelude.{◌≡◌, ◌==◌, ◌&&◌, nat_le, map, filter, find, length, option_copied, IfOk};
ghost use Rattle.std.specs.List.{list_any};
ghost use Rattle.jsp_lease.specs.Due.{first_item, over_by};
ghost use Rattle.jsp_keyed.specs.Kept.{item_of};

use crate::slots::{are_empty, copies_of, count_at, first_at, first_over_at};
use crate::{Keyed, Keying, NoMemory};
use jsp_lease::Item;
use jsp_table::{Numbering, Test};
use jsp_types::Items;
use std::alloc::Global;

impl<T, K: Numbering<T> + Keying<T>> Keyed<T, K> {
    /// A plain copy of these things.
    pub fn to_items(&self, alloc: Global) -> Result<Items<T>, NoMemory>
    where
        T: Drop,
        ensures { IfOk result (λ c. c ≡ self.now) }
    {
        copies_of::<T, K>(alloc, self.places())
    }

    /// Whether there are so many. They are counted only where there are enough places.
    pub fn has_at_least(&self, count: usize) -> bool
        ensures { result ≡ nat_le count (length self.now) }
    {
        let places = self.places();
        count <= places.len() && count <= count_at(places)
    }

    /// Whether there is none.
    pub fn is_empty(&self) -> bool
        ensures { result ≡ (length self.now == 0) }
    {
        are_empty(self.places())
    }

    /// The first thing that passes a test. Each is looked at.
    pub fn first<P: Test<T>>(&self, test: &P) -> Option<&T>
        ensures { option_copied result ≡ find (P.is_passed test.now) self.now }
    {
        first_at(self.places(), test)
    }

    /// Whether the thing of this number passes a test.
    pub fn any_of<P: Test<T>>(&self, number: u64, test: &P) -> bool
        ensures { result ≡ list_any (λ x. K.number_of x == number && P.is_passed test.now x) self.now }
    {
        // Which says that the numbers rise.
        let _ = self.places();
        match self.get(number) {
            None => false,
            Some(thing) => test.passes(thing),
        }
    }

    /// Of the things that pass a test and whose end has come, the one that comes first, as an item.
    /// Each is looked at.
    pub fn due_of<P: Test<T>>(&self, time: u64, test: &P) -> Option<Item>
        ensures { result ≡ first_item (over_by time (map (item_of K.number_of K.end_of K.rank_of) (filter (P.is_passed test.now) self.now))) }
    {
        first_over_at::<T, K, P>(self.places(), time, test)
    }
}
