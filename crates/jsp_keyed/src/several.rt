//! What asks for several of an entry's values. It is named under each of them, so as many lists
//! have it as it asks for values, and all but one less of them are enough to look through: the
//! longest are passed over. Nothing here takes memory.
ghost use Rattle.std.specs.Prelude.{◌≡◌, ◌<◌, ◌++◌, ◌∷◌, map, length, slice_index, nat_lt};
ghost use Rattle.jsp_keys.specs.Keys.{any_key, count_key, mix};
ghost use Rattle.jsp_keys.specs.Templates.{line_keys};
ghost use Rattle.jsp_keyed.specs.Several.{length_under, looked_under};

use crate::Keys;
use crate::lists::{Lists, length_of};
use jsp_keys::{ByEntry, ValueKeys, count_entry_keys, entry_key, key_of_count};
use jsp_table::{Hints, Test};

/// The keys of what asks for one value at most, by those of the entry's values.
#[derive(Drop)]
pub(crate) struct OfOne<'a, P> {
    pub(crate) test: &'a P,
    pub(crate) values: &'a ValueKeys<'a>,
}

impl<'a, T, P: Test<T>> Test<T> for OfOne<'a, P> {
    ghost is_passed = { λ t x. P.is_passed t.test.now x };

    fn passes(&self, thing: &T) -> bool {
        self.test.passes(thing)
    }
}

impl<'a, P: ByEntry> Keys for OfOne<'a, P> {
    ghost sought = { λ t seed. any_key seed (P.space_of t.test.now) ∷ (t.values.now ++ line_keys seed (P.classes_of t.test.now) (P.space_of t.test.now) (P.entry_of t.test.now).class) };

    fn sought_count(&self, _seed: u64) -> usize {
        count_entry_keys(
            self.test.classes(),
            self.test.entry().class.as_str(),
            self.values,
        )
    }

    fn sought_key(&self, seed: u64, place: usize) -> u64 {
        entry_key(
            seed,
            self.test.classes(),
            self.test.space(),
            self.test.entry().class.as_str(),
            self.values,
            place,
        )
    }
}

/// The keys of what asks for so many values, but for those whose lists are longer than a limit.
#[derive(Drop)]
pub(crate) struct OfSeveral<'a, P> {
    pub(crate) test: &'a P,
    pub(crate) lists: &'a Lists<'a>,
    pub(crate) limit: Option<usize>,
}

impl<'a, T, P: Test<T>> Test<T> for OfSeveral<'a, P> {
    ghost is_passed = { λ t x. P.is_passed t.test.now x };

    fn passes(&self, thing: &T) -> bool {
        self.test.passes(thing)
    }
}

impl<'a, P> Keys for OfSeveral<'a, P> {
    ghost sought = { λ t seed. map (looked_under t.lists.now.hints.now t.limit) (map (λ k. mix k t.lists.now.count) t.lists.now.values.now) };

    fn sought_count(&self, _seed: u64) -> usize {
        self.lists.values.len()
    }

    fn sought_key(&self, _seed: u64, place: usize) -> u64 {
        key_if_short(self.lists, self.limit, place)
    }
}

fn key_if_short(lists: &Lists, limit: Option<usize>, place: usize) -> u64
    requires { place < length lists.now.values.now }
    ensures { result ≡ looked_under lists.now.hints.now limit (mix (slice_index lists.now.values.now place) lists.now.count) }
{
    if lists.is_longer(place, limit) {
        0
    } else {
        lists.key(place)
    }
}

/// Whether anything at the space asks for so many values.
pub(crate) fn asks_any(hints: &Hints, seed: u64, count: u64, space: u64) -> bool
    ensures { result ≡ nat_lt 0 (length_under hints.now (count_key seed count space)) }
{
    0 < length_of(hints, key_of_count(seed, count, space))
}
