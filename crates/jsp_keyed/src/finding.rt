//! The first thing that passes a test, among those that have one of the keys that are sought.
//! Nothing here takes memory.
ghost use Rattle.std.specs.Prelude.{◌≡◌, ◌<◌, ℕ, true, find, option_copied};
ghost use Rattle.std.specs.List.{AllByRecursion, list_any};
ghost use Rattle.jsp_table.specs.Hints.{names};
ghost use Rattle.jsp_table.specs.Finding.{AreNumbered};
ghost use Rattle.jsp_keyed.specs.Finding.{is_next, is_sought, lesser as lesser_of, IsLeast};

use crate::{Keyed, Keying, Keys};
use jsp_table::{Hints, Numbering, Table, Test};

/// The one with the lesser number.
pub fn lesser<'a, T, K: Numbering<T>>(a: Option<&'a T>, b: Option<&'a T>) -> Option<&'a T>
    ensures { option_copied result ≡ lesser_of K.number_of (option_copied a.entry) (option_copied b.entry) }
{
    match (a, b) {
        (None, b) => b,
        (Some(a), None) => Some(a),
        (Some(a), Some(b)) => Some(if K::number(a) <= K::number(b) { a } else { b }),
    }
}

/// The first thing above a number that is named under the key and passes the test.
fn first_under<'a, T, K: Numbering<T>, P: Test<T>>(
    table: &'a Table<T, K>,
    hints: &Hints,
    key: u64,
    after: u64,
    test: &P,
) -> Option<&'a T>
    ensures { IsLeast K.number_of (is_next K.number_of (P.is_passed test.now) after) (λ x. names hints.now key (K.number_of x)) table.now (option_copied result) }
{
    match hints.get(key) {
        None => None,
        Some(numbers) => table.first_above(numbers, after, test),
    }
}

/// The first thing above a number that is named under one of the keys that are sought and passes
/// the test.
pub(crate) fn first_under_any<'a, T, K: Numbering<T>, P: Test<T> + Keys>(
    table: &'a Table<T, K>,
    hints: &Hints,
    seed: u64,
    after: u64,
    test: &P,
) -> Option<&'a T>
    ensures { IsLeast K.number_of (is_next K.number_of (P.is_passed test.now) after) (λ x. list_any (λ k. names hints.now k (K.number_of x)) (P.sought test.now seed)) table.now (option_copied result) }
{
    let mut first = None;
    'places: for place in 0..test.sought_count(seed) {
        let key = test.sought_key(seed, place);
        first = lesser::<T, K>(first, first_under(table, hints, key, after, test));
    }
    first
}

impl<T, K: Numbering<T> + Keying<T>> Keyed<T, K> {
    /// The first thing above a number that passes the test, which only things pass that have one of
    /// the keys that are sought.
    pub fn first_above<P: Test<T> + Keys>(&self, after: u64, test: &P) -> Option<&T>
        requires { (seed : ℕ) (x : T) → P.is_passed test.now x ≡ true → is_sought (P.sought test.now seed) (K.keys_of seed x) ≡ true }
        ensures found { option_copied result ≡ find (is_next K.number_of (P.is_passed test.now) after) self.now }
        ensures rising { AreNumbered K.number_of self.now }
        ensures positive { AllByRecursion (λ x. 0 < K.number_of x) self.now }
    {
        // Where there is nothing, no key is made. That also says that the numbers rise.
        if self.table.places().is_empty() {
            return None;
        }
        first_under_any(&self.table, &self.hints, self.seed, after, test)
    }
}
