//! By which keys things are found, and when they end.
ghost use Rattle.std.specs.Prelude.{◌≡◌, ◌<◌, ℕ, List, length, slice_index, IfOk};
ghost use Rattle.jsp_lease.specs.declared.item.Rank.{Rank as OfRank};

use crate::NoMemory;
use jsp_lease::Rank;

/// The keys of a thing, by a seed that clients don't know, and its end. Two keys may be the same
/// number.
pub trait Keying<T> {
    ghost keys_of: { ℕ → T → List ℕ };

    ghost end_of: { T → ℕ };

    ghost rank_of: { OfRank };

    fn count(seed: u64, thing: &T) -> usize
        ensures { result ≡ length (keys_of seed thing.now) };

    /// The key at a place, and 0 past the last.
    fn key(seed: u64, thing: &T, place: usize) -> u64
        ensures { result ≡ slice_index (keys_of seed thing.now) place };

    /// In milliseconds of the house's clock.
    fn end(thing: &T) -> u64
        ensures { result ≡ end_of thing.now };

    fn rank() -> Rank
        ensures { result ≡ rank_of };

    fn copy(thing: &T) -> Result<T, NoMemory>
        ensures { IfOk result (λ c. c ≡ thing.now) };
}

/// A key, by the seed of what is searched.
pub trait Key {
    ghost key_by: { Self → ℕ → ℕ };

    fn key(&self, seed: u64) -> u64
        ensures { result ≡ key_by self.now seed };
}

/// The keys that are sought, by the seed of what is searched.
pub trait Keys {
    ghost sought: { Self → ℕ → List ℕ };

    fn sought_count(&self, seed: u64) -> usize
        ensures { result ≡ length (sought self.now seed) };

    fn sought_key(&self, seed: u64, place: usize) -> u64
        requires { place < length (sought self.now seed) }
        ensures { result ≡ slice_index (sought self.now seed) place };
}
