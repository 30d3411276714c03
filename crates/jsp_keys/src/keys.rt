//! Keys, by a seed that clients don't know. Two keys may be the same number, by chance of the seed:
//! a list of hints may name more than it has to.
ghost use Rattle.std.specs.Prelude.{◌≡◌};
ghost use Rattle.jsp_keys.specs.Keys.{number_key, space_key, session_key, transaction_key, class_key, field_key, mix_text as text_mixed, mix_value as value_mixed};

use crate::mixing::{mix, mix_text, mix_value};
use jsp_types::Value;

/// The key of what has a number of this kind. The kinds 1 to 5 and 8 have calls of their own.
pub fn key_of_number(seed: u64, kind: u64, number: u64) -> u64
    ensures { result ≡ number_key seed kind number }
{
    mix(mix(seed, kind), number)
}

/// The key of all that a space has.
pub fn key_of_space(seed: u64, space: u64) -> u64
    ensures { result ≡ space_key seed space }
{
    key_of_number(seed, 1, space)
}

/// The key of what is a session's.
pub fn key_of_session(seed: u64, session: u64) -> u64
    ensures { result ≡ session_key seed session }
{
    key_of_number(seed, 4, session)
}

/// The key of what is under a transaction.
pub fn key_of_transaction(seed: u64, x: u64) -> u64
    ensures { result ≡ transaction_key seed x }
{
    key_of_number(seed, 5, x)
}

/// The key of what a space has of a class.
#[tactic(auto, unfolding(crate::specs::Keys::class_key))]
pub fn key_of_class(seed: u64, space: u64, class: &str) -> u64
    ensures { result ≡ class_key seed space class.now }
{
    mix_text(key_of_number(seed, 2, space), class)
}

/// The key of what a space has with the value in a field.
#[tactic(auto, unfolding(crate::specs::Keys::field_key))]
pub fn key_of_field(seed: u64, space: u64, name: &str, value: &Value) -> u64
    ensures { result ≡ field_key seed space name.now value.now }
{
    key_from(start_of_fields(seed, space), name, value)
}

/// What the keys of all values at a space are made from.
pub(crate) fn start_of_fields(seed: u64, space: u64) -> u64
    ensures { result ≡ number_key seed 3 space }
{
    key_of_number(seed, 3, space)
}

/// The key of a value, from what those of all values at its space are made from.
pub(crate) fn key_from(start: u64, name: &str, value: &Value) -> u64
    ensures { result ≡ value_mixed (text_mixed start name.now) value.now }
{
    mix_value(mix_text(start, name), value)
}
