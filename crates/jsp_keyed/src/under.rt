//! What is named under a key. Nothing here takes memory.
ghost use Rattle.std.specs.Prelude.{◌≡◌, ◌<◌, Bool, find, option_copied, IfSome};
ghost use Rattle.std.specs.List.{AllByRecursion};
ghost use Rattle.jsp_table.specs.Numbers.{contains};
ghost use Rattle.jsp_table.specs.Finding.{is_hit, AreNamed, AreNumbered};
ghost use Rattle.jsp_keyed.specs.Finding.{is_next, HaveKey, IsLeast};

use crate::{Key, Keyed, Keying};
use jsp_table::{Numbering, Numbers, Test};

impl<T, K: Numbering<T> + Keying<T>> Keyed<T, K> {
    /// Numbers, among which are those of all things that have the key: of each kind of which all
    /// do.
    pub fn numbers_under<Q: Key>(&self, key: &Q) -> &Numbers
        ensures { (kind : T → Bool) → HaveKey K.keys_of (Q.key_by key.now) kind → AreNamed K.number_of kind result.now self.now }
    {
        let key = key.key(self.seed);
        match self.hints.get(key) {
            None => &self.none,
            Some(numbers) => numbers,
        }
    }

    /// Numbers, among which are those of all things that have the key by this seed. Nothing where
    /// the keys are made by another seed.
    pub fn numbers_at(&self, seed: u64, key: u64) -> Option<&Numbers>
        ensures { IfSome (option_copied result) (λ numbers. AreNamed K.number_of (λ x. contains (K.keys_of seed x) key) numbers self.now) }
    {
        if seed != self.seed {
            return None;
        }
        match self.hints.get(key) {
            None => Some(&self.none),
            Some(numbers) => Some(numbers),
        }
    }

    /// The first thing above a number that is named and passes the test. Of a kind of which all are
    /// named it is the first above the number that passes.
    pub fn first_named<P: Test<T>>(&self, numbers: &Numbers, after: u64, test: &P) -> Option<&T>
        ensures found { option_copied result ≡ find (is_hit K.number_of (P.is_passed test.now) numbers.now after) self.now }
        ensures least { (kind : T → Bool) → AreNamed K.number_of kind numbers.now self.now → IsLeast K.number_of (is_next K.number_of (P.is_passed test.now) after) kind self.now (option_copied result) }
        ensures rising { AreNumbered K.number_of self.now }
        ensures positive { AllByRecursion (λ x. 0 < K.number_of x) self.now }
    {
        self.table.first_above(numbers, after, test)
    }
}
