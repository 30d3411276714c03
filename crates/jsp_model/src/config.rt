//! The spaces of a house.
ghost use Rattle.std.specs.Prelude.{◌≡◌, IsTrue, IfSome, IfNone, IsFalse, bytes_eq, ◌||◌, ◌&&◌, ◌==◌, nat_lt, nat_le};
ghost use Rattle.std.specs.List.{list_all, list_any};
ghost use Rattle.std.specs.Char.{is_ascii_alphanumeric};
ghost use Rattle.jsp_types.specs.Classes.{is_name};
ghost use Rattle.jsp_model.specs.Config.{are_space_names, are_different};

use crate::limits::MOST_SPACES;
use jsp_types::{Items, Text};
use std::marker::Model;

/// The names of a house's spaces, in their order: 1 to 64 names, no two alike, each of 1 to 64
/// ASCII letters, digits, `_`, `.` or `$` (this profile's own). Contracts see the list of them.
#[derive(Clone, Drop)]
pub struct Config {
    spaces: Items<Text>,
}

impl Model for Config {
    ghost use Rattle.std.specs.Prelude.{List, ℕ, IsTrue};
    ghost use Rattle.jsp_model.specs.Config.{are_space_names};

    ghost Value = { List (List ℕ) };

    ghost view = { λ a. a.spaces };

    ghost invariant = { λ a. IsTrue (are_space_names a.spaces) };
}

impl Config {
    /// The config of these names, or none where they break a limit.
    pub fn new(spaces: Items<Text>) -> Option<Config>
        ensures some { IfSome result (λ c. c ≡ spaces) }
        ensures none { IfNone result (IsFalse (are_space_names spaces)) }
    {
        if are_names(spaces.as_slice()) {
            Some(Config { spaces })
        } else {
            None
        }
    }

    /// The names.
    pub fn spaces(&self) -> &[Text]
        ensures names { result.now ≡ self.now }
        ensures limits { IsTrue (are_space_names self.now) }
    {
        self.spaces.as_slice()
    }
}

fn are_names(names: &[Text]) -> bool
    ensures { result ≡ are_space_names names.now }
{
    is_between(names.len(), MOST_SPACES) && all_names(names) && are_distinct(names)
}

fn is_between(len: usize, most: usize) -> bool
    ensures { result ≡ (nat_le 1 len && nat_le len most) }
{
    1 <= len && len <= most
}

fn all_names(names: &[Text]) -> bool
    ensures { result ≡ list_all is_name names.now }
{
    names.iter().all(|name| is_a_name(name.as_str()))
}

fn is_a_name(name: &str) -> bool
    ensures { result ≡ is_name name.now }
{
    let bytes = name.as_bytes();
    has_name_length(bytes.len()) && all_name_bytes(bytes)
}

fn has_name_length(len: usize) -> bool
    ensures { result ≡ (nat_lt 0 len && nat_le len 64) }
{
    0 < len && len <= 64
}

fn all_name_bytes(bytes: &[u8]) -> bool
    ensures { result ≡ list_all (λ c. is_ascii_alphanumeric c || c == 95 || c == 46 || c == 36) bytes.now }
{
    bytes.iter().all(|c| is_name_byte(*c))
}

fn is_name_byte(c: u8) -> bool
    ensures { result ≡ (is_ascii_alphanumeric c || c == 95 || c == 46 || c == 36) }
{
    c.is_ascii_alphanumeric() || c == b'_' || c == b'.' || c == b'$'
}

fn are_distinct(names: &[Text]) -> bool
    ensures { result ≡ are_different names.now }
{
    match names.split_first() {
        None => true,
        Some((name, rest)) => !is_among(name, rest) && are_distinct(rest),
    }
}

fn is_among(name: &Text, others: &[Text]) -> bool
    ensures { result ≡ list_any (bytes_eq name.now) others.now }
{
    others.iter().any(|other| is_same(name, other))
}

fn is_same(name: &Text, other: &Text) -> bool
    ensures { result ≡ bytes_eq name.now other.now }
{
    name.as_str() == other.as_str()
}
