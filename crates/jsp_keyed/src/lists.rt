//! The lists of what asks for so many values, under the keys of an entry's values. The length of
//! each is looked up once. Nothing here takes memory.
ghost use Rattle.std.specs.Prelude.{◌≡◌, ◌<◌, ◌≤◌, ℕ, map, length, filter, slice_index};
ghost use Rattle.jsp_keys.specs.Keys.{mix};
ghost use Rattle.jsp_keyed.specs.Several.{length_under, is_longer};

use jsp_keys::{MOST_VALUES, ValueKeys, key_of_one_among};
use jsp_table::Hints;

/// The lengths of how many lists are kept. A class has no more fields.
const KEPT: usize = 32;

/// The lists of what asks for so many values, under the keys of an entry's values. The lengths of
/// the first 32 are kept once they are looked up; any other is looked up whenever it is asked for.
#[derive(Drop)]
pub(crate) struct Lists<'a> {
    pub(crate) hints: &'a Hints,
    pub(crate) values: &'a ValueKeys<'a>,
    pub(crate) count: u64,
    /// The lengths of how many are kept, of those that there are.
    looked_up: usize,
    kept: [usize; KEPT],
    ghost room: { looked_up ≤ 32 },
    ghost known: { (i : ℕ) → i < looked_up → i < length values.now → slice_index kept i ≡ length_under hints.now (mix (slice_index values.now i) count) },
}

impl<'a> Lists<'a> {
    /// No length is kept yet.
    pub(crate) fn of(hints: &'a Hints, values: &'a ValueKeys<'a>, count: u64) -> Self
        ensures hints { result.hints.now ≡ hints.now }
        ensures values { result.values.now ≡ values.now }
        ensures count { result.count ≡ count }
    {
        Lists {
            hints,
            values,
            count,
            looked_up: 0,
            kept: [0; KEPT],
        }
    }

    /// Looks up the first 32, and keeps their lengths.
    pub(crate) fn look_up(&mut self)
        ensures hints { self.new.hints.now ≡ self.old.hints.now }
        ensures values { self.new.values.now ≡ self.old.values.now }
        ensures count { self.new.count ≡ self.old.count }
    {
        fill(self.hints, self.values, self.count, &mut self.kept);
        self.looked_up = KEPT;
    }

    /// The key of the list at a place.
    pub(crate) fn key(&self, place: usize) -> u64
        requires { place < length self.now.values.now }
        ensures { result ≡ mix (slice_index self.now.values.now place) self.now.count }
    {
        key_of_one_among(self.values.get(place), self.count)
    }

    /// How long the list at a place is.
    pub(crate) fn length(&self, place: usize) -> usize
        requires { place < length self.now.values.now }
        ensures { result ≡ length_under self.now.hints.now (mix (slice_index self.now.values.now place) self.now.count) }
    {
        if place < self.looked_up {
            return self.kept[place];
        }
        length_of(self.hints, self.key(place))
    }

    pub(crate) fn is_longer(&self, place: usize, limit: Option<usize>) -> bool
        requires { place < length self.now.values.now }
        ensures { result ≡ is_longer self.now.hints.now limit (mix (slice_index self.now.values.now place) self.now.count) }
    {
        match limit {
            None => false,
            Some(limit) => limit < self.length(place),
        }
    }
}

/// The lengths of the first lists.
fn fill(hints: &Hints, values: &ValueKeys, count: u64, lengths: &mut [usize; KEPT])
    ensures { (i : ℕ) → i < 32 → i < length values.now → slice_index lengths.new i ≡ length_under hints.now (mix (slice_index values.now i) count) }
{
    'places: for place in 0..KEPT {
        if place >= values.len() {
            return;
        }
        let key = key_of_one_among(values.get(place), count);
        lengths[place] = length_of(hints, key);
    }
}

pub(crate) fn length_of(hints: &Hints, key: u64) -> usize
    ensures { result ≡ length_under hints.now key }
{
    match hints.get(key) {
        None => 0,
        Some(numbers) => numbers.len(),
    }
}

/// A limit than which fewer lists are longer than values are asked for: how long the list is that
/// has just one less before it, the longest first.
pub(crate) fn limit_of(lists: &Lists) -> Option<usize>
    requires { 0 < lists.now.count }
    ensures { length (filter (is_longer lists.now.hints.now result) (map (λ k. mix k lists.now.count) lists.now.values.now)) < lists.now.count }
{
    let limit = Some(nth_longest(lists));
    if (count_longer(lists, limit) as u64) < lists.count {
        limit
    } else {
        None
    }
}

/// How many of the lists are longer than the limit.
fn count_longer(lists: &Lists, limit: Option<usize>) -> usize
    ensures { result ≡ length (filter (is_longer lists.now.hints.now limit) (map (λ k. mix k lists.now.count) lists.now.values.now)) }
{
    let mut longer = 0;
    'places: for place in 0..lists.values.len() {
        if lists.is_longer(place, limit) {
            longer += 1;
        }
    }
    longer
}

/// How long the list is that has just one less before it than values are asked for, the longest
/// first.
fn nth_longest(lists: &Lists) -> usize {
    let mut longest = [0; MOST_VALUES];
    for place in 0..lists.values.len() {
        insert(&mut longest, lists.length(place));
    }
    let Some(place) = (lists.count as usize).checked_sub(1) else {
        return 0;
    };
    match longest.get(place) {
        None => 0,
        Some(length) => *length,
    }
}

/// The longest, with one more where it is one of them.
fn insert(longest: &mut [usize; MOST_VALUES], length: usize) {
    let mut length = length;
    for place in longest.iter_mut() {
        if *place < length {
            let shorter = *place;
            *place = length;
            length = shorter;
        }
    }
}
