//! Those that pass a test change in place.
ghost use Rattle.std.specs.Prelude.{◌≡◌, ◌&&◌, nat_le, ℕ, true, map, OnOk, OnErr};
ghost use Rattle.jsp_table.specs.Finding.{AreNamed};
ghost use Rattle.jsp_types.specs.declared.class.Class.{Class};
ghost use Rattle.jsp_types.specs.declared.entry.Entry.{Entry as OfEntry};
ghost use Rattle.jsp_keys.specs.Templates.{seeks};
ghost use Rattle.jsp_keyed.specs.Changing.{HasSameKeys, IsUndone, where_passed};

use crate::{Keyed, Keying, NoMemory};
use jsp_keys::ByEntry;
use jsp_table::{Change, Numbering, Numbers, Test, TryChange};
use jsp_types::{Classes, Entry};
use std::marker::PhantomData;

impl<T, K: Numbering<T> + Keying<T>> Keyed<T, K> {
    /// Changes those that pass the test, which only things pass that the entry seeks. They
    /// keep their numbers, keys and ends. Takes no memory.
    pub fn change_all<P: Test<T> + ByEntry, C: Change<T>>(&mut self, test: &P, change: &C)
        requires seeks { (seed : ℕ) (x : T) → P.is_passed test.now x ≡ true → seeks seed (P.classes_of test.now) (P.space_of test.now) (P.entry_of test.now) (K.keys_of seed x) ≡ true }
        requires keeps { (x : T) → HasSameKeys K.number_of K.keys_of K.end_of x (C.changed change.now x) }
        ensures { self.new ≡ map (where_passed (P.is_passed test.now) (C.changed change.now)) self.old }
    {
        // Which says that no number is 0.
        let _ = self.places();
        let mut last = 0;
        'things: while let Some(thing) = self.first_matching(last, test) {
            last = K::number(thing);
            self.change(last, change);
        }
    }

    /// The same of those that are named, which all are that pass the test, each or none: where
    /// memory is refused the other change takes this one back.
    pub fn try_change_named<P: Test<T> + ByEntry, C: TryChange<T>, U: Change<T>>(
        &mut self,
        numbers: &Numbers,
        test: &P,
        change: &C,
        undo: &U,
    ) -> Result<(), NoMemory>
        requires named { AreNamed K.number_of (P.is_passed test.now) numbers.now self.old }
        requires seeks { (seed : ℕ) (x : T) → P.is_passed test.now x ≡ true → seeks seed (P.classes_of test.now) (P.space_of test.now) (P.entry_of test.now) (K.keys_of seed x) ≡ true }
        requires keeps { (x : T) → HasSameKeys K.number_of K.keys_of K.end_of x (C.changed change.now x) }
        requires keeps_back { (x : T) → HasSameKeys K.number_of K.keys_of K.end_of x (U.changed undo.now x) }
        requires undone { IsUndone (P.is_passed test.now) (C.changed change.now) (U.changed undo.now) }
        ensures ok { OnOk result (self.new ≡ map (where_passed (P.is_passed test.now) (C.changed change.now)) self.old) }
        ensures err { OnErr result (self.new ≡ self.old) }
    {
        // Which says that no number is 0.
        let _ = self.places();
        let mut last = 0;
        'things: while let Some(thing) = self.first_named(numbers, last, test) {
            let number = K::number(thing);
            if let Err(e) = self.try_change(number, change) {
                self.change_all(&UpTo::<K, P>::of(last, test), undo);
                return Err(e);
            }
            last = number;
        }
        Ok(())
    }
}

/// Whether its number is up to this one and it passes a test.
#[derive(Drop)]
struct UpTo<'a, K, P> {
    last: u64,
    test: &'a P,
    numbering: PhantomData<K>,
}

impl<'a, K, P> UpTo<'a, K, P> {
    fn of(last: u64, test: &'a P) -> Self
        ensures last { result.last ≡ last }
        ensures test { result.test.now ≡ test.now }
    {
        UpTo {
            last,
            test,
            numbering: PhantomData,
        }
    }
}

impl<'a, T, K: Numbering<T>, P: Test<T>> Test<T> for UpTo<'a, K, P> {
    ghost is_passed = { λ t x. nat_le (K.number_of x) t.last && P.is_passed t.test.now x };

    fn passes(&self, thing: &T) -> bool {
        K::number(thing) <= self.last && self.test.passes(thing)
    }
}

impl<'a, K, P: ByEntry> ByEntry for UpTo<'a, K, P> {
    ghost classes_of = { λ t. P.classes_of t.test.now };

    ghost space_of = { λ t. P.space_of t.test.now };

    ghost entry_of = { λ t. P.entry_of t.test.now };

    fn classes(&self) -> &Classes {
        self.test.classes()
    }

    fn space(&self) -> u64 {
        self.test.space()
    }

    fn entry(&self) -> &Entry {
        self.test.entry()
    }
}
