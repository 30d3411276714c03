//! How many pass a test, and those that go.
ghost use Rattle.std.specs.Prelude.{◌≡◌, ℕ, true, not, length, filter, find, option_map};
ghost use Rattle.jsp_table.specs.Finding.{AreNumbered};
ghost use Rattle.jsp_keyed.specs.Finding.{is_sought};

use crate::{Keyed, Keying, Keys};
use jsp_table::{Numbering, Test};

impl<T, K: Numbering<T> + Keying<T>> Keyed<T, K> {
    /// How many things pass the test, which only things pass that have one of the keys that are
    /// sought.
    pub fn count<P: Test<T> + Keys>(&self, test: &P) -> usize
        requires { (seed : ℕ) (x : T) → P.is_passed test.now x ≡ true → is_sought (P.sought test.now seed) (K.keys_of seed x) ≡ true }
        ensures { result ≡ length (filter (P.is_passed test.now) self.now) }
    {
        // Which says that no number is 0.
        let _ = self.places();
        let mut count = 0;
        let mut last = 0;
        'things: while let Some(thing) = self.first_above(last, test) {
            last = K::number(thing);
            count += 1;
        }
        count
    }

    /// The number of the first thing that passes the test.
    pub fn first_number<P: Test<T> + Keys>(&self, test: &P) -> Option<u64>
        requires { (seed : ℕ) (x : T) → P.is_passed test.now x ≡ true → is_sought (P.sought test.now seed) (K.keys_of seed x) ≡ true }
        ensures found { result ≡ option_map K.number_of (find (P.is_passed test.now) self.now) }
        ensures rising { AreNumbered K.number_of self.now }
    {
        match self.first_above(0, test) {
            None => None,
            Some(thing) => Some(K::number(thing)),
        }
    }

    /// Those that pass the test go, which only things pass that have one of the keys that are
    /// sought. Takes no memory.
    pub fn remove_all<P: Test<T> + Keys>(&mut self, test: &P)
    where
        T: Drop,
        requires { (seed : ℕ) (x : T) → P.is_passed test.now x ≡ true → is_sought (P.sought test.now seed) (K.keys_of seed x) ≡ true }
        ensures { self.new ≡ filter (λ x. not (P.is_passed test.now x)) self.old }
    {
        'things: while let Some(number) = self.first_number(test) {
            self.remove(number);
        }
    }
}
