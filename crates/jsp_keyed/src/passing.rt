//! Numbers, among which are those of all things that pass a test. Each thing that is named under a
//! key that is sought is tested once, where one search after another would test some again and
//! again.
ghost use Rattle.std.specs.Prelude.{◌≡◌, ◌<◌, ◌&&◌, ℕ, true, OnOk};
ghost use Rattle.std.specs.List.{AllByRecursion, list_any};
ghost use Rattle.jsp_table.specs.Numbers.{contains};
ghost use Rattle.jsp_table.specs.Hints.{names};

use crate::{Keys, NoMemory};
use jsp_table::{Hints, Numbering, Numbers, Table, Test};

/// Adds the numbers of the things that are named and pass the test.
fn gather_named<T, K: Numbering<T>, P: Test<T>>(
    table: &Table<T, K>,
    numbers: &Numbers,
    test: &P,
    found: &mut Numbers,
) -> Result<(), NoMemory>
    requires { AllByRecursion (λ x. 0 < K.number_of x) table.now }
    ensures ok { OnOk result (AllByRecursion (λ x. (contains numbers.now (K.number_of x) && P.is_passed test.now x) ≡ true → contains found.new (K.number_of x) ≡ true) table.now) }
    ensures keeps { (m : ℕ) → contains found.old m ≡ true → contains found.new m ≡ true }
{
    let mut last = 0;
    'things: while let Some(thing) = table.first_above(numbers, last, test) {
        last = K::number(thing);
        found.add(last)?;
    }
    Ok(())
}

/// Adds the numbers of the things that are named under the key and pass the test.
fn gather_under<T, K: Numbering<T>, P: Test<T>>(
    table: &Table<T, K>,
    hints: &Hints,
    key: u64,
    test: &P,
    found: &mut Numbers,
) -> Result<(), NoMemory>
    requires { AllByRecursion (λ x. 0 < K.number_of x) table.now }
    ensures ok { OnOk result (AllByRecursion (λ x. P.is_passed test.now x ≡ true → names hints.now key (K.number_of x) ≡ true → contains found.new (K.number_of x) ≡ true) table.now) }
    ensures keeps { (m : ℕ) → contains found.old m ≡ true → contains found.new m ≡ true }
{
    match hints.get(key) {
        None => Ok(()),
        Some(numbers) => gather_named(table, numbers, test, found),
    }
}

/// Adds the numbers of the things that are named under one of the keys that are sought and pass the
/// test.
pub(crate) fn gather_sought<T, K: Numbering<T>, P: Test<T> + Keys>(
    table: &Table<T, K>,
    hints: &Hints,
    seed: u64,
    test: &P,
    found: &mut Numbers,
) -> Result<(), NoMemory>
    requires { AllByRecursion (λ x. 0 < K.number_of x) table.now }
    ensures ok { OnOk result (AllByRecursion (λ x. P.is_passed test.now x ≡ true → list_any (λ k. names hints.now k (K.number_of x)) (P.sought test.now seed) ≡ true → contains found.new (K.number_of x) ≡ true) table.now) }
    ensures keeps { (m : ℕ) → contains found.old m ≡ true → contains found.new m ≡ true }
{
    'places: for place in 0..test.sought_count(seed) {
        let key = test.sought_key(seed, place);
        gather_under(table, hints, key, test, found)?;
    }
    Ok(())
}
