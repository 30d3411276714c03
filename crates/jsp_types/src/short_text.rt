//! A text that stands where it is kept.
ghost use Rattle.std.specs.Prelude.{◌≡◌, IfSome};

use crate::NoMemory;
use std::marker::Model;
use std::str;

/// How many bytes a short text has at most: with its length and the mark that it is one it fills
/// two words.
const MOST: usize = 14;

/// A text of at most 14 bytes. Contracts see it as the list of them.
#[derive(Debug, Drop)]
pub(crate) struct ShortText {
    len: u8,
    bytes: [u8; MOST],
}

impl Model for ShortText {
    ghost use Rattle.std.specs.Prelude.{◌≡◌, ◌≤◌, List, ℕ, length, take, IsUtf8};

    ghost Value = { List ℕ };

    ghost view = { λ s. take s.len s.bytes };

    ghost invariant = { λ s. (s.len ≤ 14) × (length s.bytes ≡ 14) × ∥ IsUtf8 (take s.len s.bytes) ∥₁ };
}

impl Clone for ShortText {
    ghost is_clone = { λ text copy. copy ≡ text };

    fn clone(&self) -> Result<ShortText, NoMemory> {
        Ok(ShortText {
            len: self.len,
            bytes: self.bytes,
        })
    }
}

impl ShortText {
    /// A copy of a string, if it is short.
    pub(crate) fn from_str(text: &str) -> Option<Self>
        ensures { IfSome result (λ copy. copy ≡ text.now) }
    {
        let len = text.len();
        if len > MOST {
            return None;
        }
        let mut bytes = [0; MOST];
        bytes[..len].copy_from_slice(text.as_bytes());
        Some(ShortText {
            len: len as u8,
            bytes,
        })
    }

    /// The text.
    #[inline]
    pub(crate) fn as_str(&self) -> &str
        ensures { result.now ≡ self.now }
    {
        // The bytes were a string's, as the type's invariant says.
        unsafe { str::from_utf8_unchecked(&self.bytes[..self.len as usize]) }
    }
}
