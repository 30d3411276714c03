//! Tests of things by their numbers.
ghost use Rattle.std.specs.Prelude.{◌≡◌, ◌==◌, ◌&&◌, [], ◌∷◌, true, find, option_copied};
ghost use Rattle.jsp_table.specs.Places.{living};

use jsp_table::{Numbering, Test};
use std::marker::PhantomData;

/// Whether it has a number.
#[derive(Drop)]
pub(crate) struct HasNumber<K> {
    number: u64,
    numbering: PhantomData<K>,
}

impl<K> HasNumber<K> {
    pub(crate) fn of(number: u64) -> Self
        ensures { result.number ≡ number }
    {
        HasNumber {
            number,
            numbering: PhantomData,
        }
    }
}

impl<T, K: Numbering<T>> Test<T> for HasNumber<K> {
    ghost is_passed = { λ t x. K.number_of x == t.number };

    fn passes(&self, thing: &T) -> bool {
        K::number(thing) == self.number
    }
}

/// Whether it has a number and passes a test.
#[derive(Drop)]
pub(crate) struct NumberedAnd<'a, K, P> {
    number: u64,
    test: &'a P,
    numbering: PhantomData<K>,
}

impl<'a, K, P> NumberedAnd<'a, K, P> {
    pub(crate) fn of(number: u64, test: &'a P) -> Self
        ensures number { result.number ≡ number }
        ensures test { result.test.now ≡ test.now }
    {
        NumberedAnd {
            number,
            test,
            numbering: PhantomData,
        }
    }
}

impl<'a, T, K: Numbering<T>, P: Test<T>> Test<T> for NumberedAnd<'a, K, P> {
    ghost is_passed = { λ t x. K.number_of x == t.number && P.is_passed t.test.now x };

    fn passes(&self, thing: &T) -> bool {
        K::number(thing) == self.number && self.test.passes(thing)
    }
}

/// Whether it is there.
#[derive(Drop)]
pub(crate) struct Any {}

impl<T> Test<T> for Any {
    ghost is_passed = { λ _ _. true };

    fn passes(&self, _thing: &T) -> bool {
        true
    }
}

/// The thing, if there is one and it passes.
pub(crate) fn one_passing<'a, T, P: Test<T>>(thing: Option<&'a T>, test: &P) -> Option<&'a T>
    ensures { option_copied result ≡ find (P.is_passed test.now) (living (option_copied thing.entry ∷ [])) }
{
    match thing {
        None => None,
        Some(thing) => only_passing(thing, test),
    }
}

fn only_passing<'a, T, P: Test<T>>(thing: &'a T, test: &P) -> Option<&'a T>
    ensures { option_copied result ≡ find (P.is_passed test.now) (thing.now ∷ []) }
{
    if test.passes(thing) {
        return Some(thing);
    }
    None
}
