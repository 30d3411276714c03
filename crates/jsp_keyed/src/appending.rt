//! Several things more.
ghost use Rattle.std.specs.Prelude.{◌≡◌, ◌<◌, ◌++◌, OnOk, OnErr};
ghost use Rattle.std.specs.Bool.{OnTrue};
ghost use Rattle.std.specs.List.{AllByRecursion};
ghost use Rattle.jsp_table.specs.Finding.{AreNumbered};

use crate::ends::{ends_of, make_ready, place_all};
use crate::naming::name_all;
use crate::{Keyed, Keying, NoMemory};
use jsp_table::Numbering;

impl<T, K: Numbering<T> + Keying<T>> Keyed<T, K> {
    /// Whether these things may come after all others: their numbers rise, above those of all
    /// others and above 0. Where one isn't above a number that is gone, it may be refused.
    pub fn may_append(&self, things: &[T]) -> bool
        ensures rising { OnTrue result (AreNumbered K.number_of (self.now ++ things.now)) }
        ensures positive { OnTrue result (AllByRecursion (λ x. 0 < K.number_of x) (self.now ++ things.now)) }
    {
        // Which says that the numbers rise.
        let _ = self.table.places();
        let [first, ..] = things else {
            return true;
        };
        self.table.is_above(K::number(first)) && are_rising::<T, K>(things)
    }

    /// Adds things at the end, whole or not at all. Where memory is refused they stay with the
    /// caller.
    pub fn append(&mut self, things: &mut Vec<T>) -> Result<(), NoMemory>
    where
        T: Drop,
        requires rising { AreNumbered K.number_of (self.old ++ things.old.items) }
        requires positive { AllByRecursion (λ x. 0 < K.number_of x) (self.old ++ things.old.items) }
        ensures ok { OnOk result (self.new ≡ self.old ++ things.old.items) }
        ensures err { OnErr result (self.new ≡ self.old) }
        ensures things_stay { OnErr result (things.new.items ≡ things.old.items) }
    {
        let [first, ..] = things.as_slice() else {
            return Ok(());
        };
        let first = K::number(first);
        name_all::<T, K>(self.seed, &mut self.hints, things)?;
        let items = ends_of::<T, K>(self.alloc, things)?;
        make_ready::<T, K>(
            self.alloc,
            &mut self.ends,
            self.table.places(),
            first,
            things.len(),
        )?;
        self.table.append(things)?;
        place_all(&mut self.ends, &items);
        Ok(())
    }
}

/// Whether the numbers rise, from above 0 on.
fn are_rising<T, K: Numbering<T>>(things: &[T]) -> bool
    ensures rising { OnTrue result (AreNumbered K.number_of things.now) }
    ensures positive { OnTrue result (AllByRecursion (λ x. 0 < K.number_of x) things.now) }
{
    let mut last = 0;
    'things: for thing in things {
        let number = K::number(thing);
        if number <= last {
            return false;
        }
        last = number;
    }
    true
}
