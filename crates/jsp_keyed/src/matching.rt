//! The first thing that passes a test, and the numbers of all that do, among those that an entry
//! seeks.
ghost use Rattle.std.specs.Prelude.{◌≡◌, ◌<◌, ◌&&◌, ℕ, true, find, option_copied, IfOk, OnOk};
ghost use Rattle.std.specs.List.{AllByRecursion, list_any};
ghost use Rattle.jsp_table.specs.Numbers.{contains};
ghost use Rattle.jsp_table.specs.Finding.{AreNamed, AreNumbered};
ghost use Rattle.jsp_keyed.specs.Finding.{is_next, IsLeast};
ghost use Rattle.jsp_keys.specs.Templates.{value_keys, seeks};
ghost use Rattle.jsp_keyed.specs.Several.{are_named, is_named_for};

use crate::finding::{first_under_any, lesser};
use crate::lists::{Lists, limit_of};
use crate::passing::gather_sought;
use crate::several::{OfOne, OfSeveral, asks_any};
use crate::{Keyed, Keying, NoMemory};
use jsp_keys::{ByEntry, ValueKeys};
use jsp_table::{Hints, Numbering, Numbers, Table, Test};

/// The keys of the entry's values, none of which is kept yet.
fn values_of<'a, P: ByEntry>(seed: u64, test: &'a P) -> ValueKeys<'a>
    ensures { result ≡ value_keys seed (P.space_of test.now) (P.entry_of test.now).fields }
{
    ValueKeys::of(seed, test.space(), test.entry().fields.as_slice())
}

/// The first above a number that passes the test, of those that ask for so many of the entry's
/// values.
fn first_of_several<'a, T, K: Numbering<T>, P: Test<T> + ByEntry>(
    table: &'a Table<T, K>,
    hints: &Hints,
    seed: u64,
    after: u64,
    test: &P,
    values: &ValueKeys,
    count: u64,
) -> Option<&'a T>
    requires values { values.now ≡ value_keys seed (P.space_of test.now) (P.entry_of test.now).fields }
    requires count { 0 < count }
    ensures { IsLeast K.number_of (is_next K.number_of (P.is_passed test.now) after) (λ x. are_named hints.now seed (P.space_of test.now) (P.entry_of test.now).fields (K.number_of x) count) table.now (option_copied result) }
{
    if !asks_any(hints, seed, count, test.space()) {
        return None;
    }
    let mut lists = Lists::of(hints, values, count);
    lists.look_up();
    let limit = limit_of(&lists);
    let several = OfSeveral {
        test,
        lists: &lists,
        limit,
    };
    first_under_any(table, hints, seed, after, &several)
}

/// The first above a number that passes the test, of those that are named for the entry.
fn first_for<'a, T, K: Numbering<T>, P: Test<T> + ByEntry>(
    table: &'a Table<T, K>,
    hints: &Hints,
    seed: u64,
    after: u64,
    test: &P,
) -> Option<&'a T>
    ensures { IsLeast K.number_of (is_next K.number_of (P.is_passed test.now) after) (λ x. is_named_for hints.now seed (P.classes_of test.now) (P.space_of test.now) (P.entry_of test.now) (K.number_of x)) table.now (option_copied result) }
{
    let mut values = values_of(seed, test);
    values.make();
    let one = OfOne {
        test,
        values: &values,
    };
    let of_one = first_under_any(table, hints, seed, after, &one);
    let of_two = first_of_several(table, hints, seed, after, test, &values, 2);
    let of_three = first_of_several(table, hints, seed, after, test, &values, 3);
    let of_four = first_of_several(table, hints, seed, after, test, &values, 4);
    let of_more = lesser::<T, K>(of_two, lesser::<T, K>(of_three, of_four));
    lesser::<T, K>(of_one, of_more)
}

impl<T, K: Numbering<T> + Keying<T>> Keyed<T, K> {
    /// The first thing above a number that passes the test, which only things pass that the entry
    /// seeks.
    pub fn first_matching<P: Test<T> + ByEntry>(&self, after: u64, test: &P) -> Option<&T>
        requires { (seed : ℕ) (x : T) → P.is_passed test.now x ≡ true → seeks seed (P.classes_of test.now) (P.space_of test.now) (P.entry_of test.now) (K.keys_of seed x) ≡ true }
        ensures found { option_copied result ≡ find (is_next K.number_of (P.is_passed test.now) after) self.now }
        ensures rising { AreNumbered K.number_of self.now }
        ensures positive { AllByRecursion (λ x. 0 < K.number_of x) self.now }
    {
        // Where there is nothing, no key is made. That also says that the numbers rise.
        if self.table.places().is_empty() {
            return None;
        }
        first_for(&self.table, &self.hints, self.seed, after, test)
    }
}

/// Adds the numbers of the things that ask for so many of the entry's values and pass the test.
fn gather_several<T, K: Numbering<T>, P: Test<T> + ByEntry>(
    table: &Table<T, K>,
    hints: &Hints,
    seed: u64,
    test: &P,
    values: &ValueKeys,
    count: u64,
    found: &mut Numbers,
) -> Result<(), NoMemory>
    requires values { values.now ≡ value_keys seed (P.space_of test.now) (P.entry_of test.now).fields }
    requires numbers { AllByRecursion (λ x. 0 < K.number_of x) table.now }
    requires count { 0 < count }
    ensures ok { OnOk result (AllByRecursion (λ x. P.is_passed test.now x ≡ true → are_named hints.now seed (P.space_of test.now) (P.entry_of test.now).fields (K.number_of x) count ≡ true → contains found.new (K.number_of x) ≡ true) table.now) }
    ensures keeps { (m : ℕ) → contains found.old m ≡ true → contains found.new m ≡ true }
{
    if !asks_any(hints, seed, count, test.space()) {
        return Ok(());
    }
    let mut lists = Lists::of(hints, values, count);
    lists.look_up();
    let limit = limit_of(&lists);
    let several = OfSeveral {
        test,
        lists: &lists,
        limit,
    };
    gather_sought(table, hints, seed, &several, found)
}

/// Adds the numbers of the things that are named for the entry and pass the test.
fn gather_for<T, K: Numbering<T>, P: Test<T> + ByEntry>(
    table: &Table<T, K>,
    hints: &Hints,
    seed: u64,
    test: &P,
    found: &mut Numbers,
) -> Result<(), NoMemory>
    requires { AllByRecursion (λ x. 0 < K.number_of x) table.now }
    ensures { OnOk result (AllByRecursion (λ x. P.is_passed test.now x ≡ true → is_named_for hints.now seed (P.classes_of test.now) (P.space_of test.now) (P.entry_of test.now) (K.number_of x) ≡ true → contains found.new (K.number_of x) ≡ true) table.now) }
{
    let mut values = values_of(seed, test);
    values.make();
    let one = OfOne {
        test,
        values: &values,
    };
    gather_sought(table, hints, seed, &one, found)?;
    gather_several(table, hints, seed, test, &values, 2, found)?;
    gather_several(table, hints, seed, test, &values, 3, found)?;
    gather_several(table, hints, seed, test, &values, 4, found)
}

impl<T, K: Numbering<T> + Keying<T>> Keyed<T, K> {
    /// Numbers, among which are those of all things that pass the test, which only things pass that
    /// the entry seeks.
    pub fn passing<P: Test<T> + ByEntry>(&self, test: &P) -> Result<Numbers, NoMemory>
        requires { (seed : ℕ) (x : T) → P.is_passed test.now x ≡ true → seeks seed (P.classes_of test.now) (P.space_of test.now) (P.entry_of test.now) (K.keys_of seed x) ≡ true }
        ensures named { IfOk result (λ numbers. AreNamed K.number_of (P.is_passed test.now) numbers self.now) }
        ensures positive { AllByRecursion (λ x. 0 < K.number_of x) self.now }
    {
        let mut found = Numbers::new(self.alloc);
        // Where there is nothing, no key is made.
        if self.table.places().is_empty() {
            return Ok(found);
        }
        gather_for(&self.table, &self.hints, self.seed, test, &mut found)?;
        Ok(found)
    }
}
