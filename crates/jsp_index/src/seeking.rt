//! The keys under which rows are sought.
ghost use Rattle.std.specs.Prelude.{[], ◌∷◌};
ghost use Rattle.jsp_keys.specs.Keys.{space_key, class_key, field_key};

use crate::row_tests::InSpace;
use jsp_keyed::{Key, Keys};
use jsp_keys::{key_of_class, key_of_field, key_of_space};
use jsp_types::{Text, Value};

impl Key for InSpace {
    ghost key_by = { λ s seed. space_key seed s.space };

    fn key(&self, seed: u64) -> u64 {
        key_of_space(seed, self.space)
    }
}

impl Keys for InSpace {
    ghost sought = { λ s seed. space_key seed s.space ∷ [] };

    fn sought_count(&self, _seed: u64) -> usize {
        1
    }

    fn sought_key(&self, seed: u64, _place: usize) -> u64 {
        key_of_space(seed, self.space)
    }
}

/// Of the rows of a class in a space.
#[derive(Drop)]
pub(crate) struct OfClass<'a> {
    pub(crate) space: u64,
    pub(crate) class: &'a str,
}

impl<'a> Key for OfClass<'a> {
    ghost key_by = { λ s seed. class_key seed s.space s.class.now };

    fn key(&self, seed: u64) -> u64 {
        key_of_class(seed, self.space, self.class)
    }
}

/// Of the rows in a space that have a value in a field.
#[derive(Drop)]
pub(crate) struct OfField<'a> {
    pub(crate) space: u64,
    pub(crate) field: &'a (Text, Value),
}

impl<'a> Key for OfField<'a> {
    ghost key_by = { λ s seed. field_key seed s.space s.field.now.0 s.field.now.1 };

    fn key(&self, seed: u64) -> u64 {
        key_of_field(seed, self.space, self.field.0.as_str(), &self.field.1)
    }
}
