//! The keys of an entry's values. Each is made once, and then sought by again and again: as the key
//! of what asks for this value alone, and as a part of the keys of what asks for several.
ghost use Rattle.std.specs.Prelude.{◌≡◌, ◌<◌, ◌≤◌, ◌^◌, ℕ, List, length, slice_index};
ghost use Rattle.jsp_keys.specs.Keys.{number_key, field_key};
ghost use Rattle.jsp_keys.specs.Templates.{value_keys};

use crate::keys::{key_from, start_of_fields};
use jsp_types::{Text, Value};
use std::marker::Model;

/// How many keys are kept. A class has no more fields.
const KEPT: usize = 32;

/// The keys of an entry's values at a space, as `key_of_field` makes them, in the order of its
/// fields. Contracts see the list of them. The first 32 are kept once they are made, in the 296
/// bytes of this struct; any other is made whenever it is asked for.
#[derive(Drop)]
pub struct ValueKeys<'a> {
    seed: u64,
    space: u64,
    fields: &'a [(Text, Value)],
    /// How many are kept, of those that there are.
    made: usize,
    kept: [u64; KEPT],
}

impl<'a> Model for ValueKeys<'a> {
    ghost Value = { List ℕ };

    ghost view = { λ k. value_keys k.seed k.space k.fields.now };

    ghost invariant = { λ k. (k.made ≤ 32) × ((i : ℕ) → i < k.made → i < length k.fields.now → slice_index k.kept i ≡ slice_index (value_keys k.seed k.space k.fields.now) i) };
}

impl<'a> ValueKeys<'a> {
    /// None of them is kept yet.
    pub fn of(seed: u64, space: u64, fields: &'a [(Text, Value)]) -> Self
        ensures { result ≡ value_keys seed space fields.now }
    {
        ValueKeys {
            seed,
            space,
            fields,
            made: 0,
            kept: [0; KEPT],
        }
    }

    /// Makes the first 32, and keeps them.
    pub fn make(&mut self)
        ensures { self.new ≡ self.old }
    {
        fill(self.seed, self.space, self.fields, &mut self.kept);
        self.made = KEPT;
    }

    /// How many they are.
    pub fn len(&self) -> usize
        ensures count { result ≡ length self.now }
        ensures few { result < 2 ^ 62 }
    {
        self.fields.len()
    }

    /// The key at a place.
    pub fn get(&self, place: usize) -> u64
        requires { place < length self.now }
        ensures { result ≡ slice_index self.now place }
    {
        if place < self.made {
            return self.kept[place];
        }
        key_of(start_of_fields(self.seed, self.space), &self.fields[place])
    }
}

/// The keys of the first values.
fn fill(seed: u64, space: u64, fields: &[(Text, Value)], keys: &mut [u64; KEPT])
    ensures { (i : ℕ) → i < 32 → i < length fields.now → slice_index keys.new i ≡ slice_index (value_keys seed space fields.now) i }
{
    let start = start_of_fields(seed, space);
    'places: for place in 0..KEPT {
        if place >= fields.len() {
            return;
        }
        keys[place] = key_of(start, &fields[place]);
    }
}

#[tactic(auto, unfolding(crate::specs::Keys::field_key))]
fn key_of(start: u64, field: &(Text, Value)) -> u64
    ensures { (seed : ℕ) (space : ℕ) → start ≡ number_key seed 3 space → result ≡ field_key seed space field.now.0 field.now.1 }
{
    key_from(start, field.0.as_str(), &field.1)
}
