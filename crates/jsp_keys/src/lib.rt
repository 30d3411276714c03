//! The keys of things, by a seed that clients don't know: of numbers, classes and values, of
//! templates, and of the entries that they may match.
//!
//! A template that asks for several values stands under a key of each, made by how many there are,
//! and under one of how many there are; what asks for less has one key. So an entry that a template
//! matches has a key of it, or as many of its keys as it asks for values (`seeks`). Contracts say
//! each key as a number of the seed and its parts. Two keys may be the same number. Nothing here
//! takes memory.
#![tactic(auto)]

mod entries;
mod keys;
mod mixing;
mod templates;
mod value_keys;

pub use entries::{ByEntry, count_entry_keys, entry_key};
pub use keys::{
    key_of_class, key_of_field, key_of_number, key_of_session, key_of_space, key_of_transaction,
};
pub use templates::{
    MOST_VALUES, count_keys_of_all, count_template_keys, key_of_all, key_of_any, key_of_count,
    key_of_one_among, template_key,
};
pub use value_keys::ValueKeys;
