//! How one part after another goes into a key, by a seed that clients don't know.
//!
//! A text goes in by words of eight bytes, and the last seven bytes or fewer one by one. How long
//! it is, and of which kind a value is, goes in before it, so that two keys are the same number by
//! chance of the seed alone. That is a step for each text and each value.
ghost use Rattle.std.specs.Prelude.{◌≡◌};
ghost use Rattle.std.specs.Int.{w64, cast_unsigned as bits_of};
ghost use Rattle.jsp_keys.specs.Keys.{folded_multiply as folded, mix as mixed, mix_all, mix_words as words_mixed, mix_text as text_mixed, mix_value as value_mixed};

use jsp_types::Value;

/// An odd number, by which each part of a key spreads over 128 bits.
const FACTOR: u64 = 0x9e37_79b9_7f4a_7c15;

/// The halves of the 128 bits of a product, joined by xor.
#[tactic(auto, unfolding(crate::specs::Keys::folded_multiply))]
fn folded_multiply(a: u64, b: u64) -> u64
    ensures { result ≡ folded a b }
{
    let product = a as u128 * b as u128;
    (product & 0xFFFF_FFFF_FFFF_FFFF) as u64 ^ (product >> 64) as u64
}

/// The key and one more part. Since the halves are joined, the parts that make two keys the same
/// can't be worked out without the seed.
pub(crate) fn mix(key: u64, part: u64) -> u64
    ensures { result ≡ mixed key part }
{
    folded_multiply(key ^ part, FACTOR)
}

fn mix_bytes(key: u64, bytes: &[u8]) -> u64
    ensures { result ≡ mix_all key bytes.now }
{
    let mut mixed = key;
    let mut left = bytes;
    'bytes: while let [byte, rest @ ..] = left {
        mixed = mix(mixed, *byte as u64);
        left = rest;
    }
    mixed
}

fn mix_words(key: u64, bytes: &[u8]) -> u64
    ensures { result ≡ words_mixed key bytes.now }
{
    let mut mixed = key;
    let mut left = bytes;
    'words: while let [a, b, c, d, e, f, g, h, rest @ ..] = left {
        mixed = mix(mixed, u64::from_le_bytes([*a, *b, *c, *d, *e, *f, *g, *h]));
        left = rest;
    }
    mix_bytes(mixed, left)
}

/// How long it is goes in first: otherwise it may have the key of a longer one that goes on in
/// nulls, or of one that goes on in what is mixed in behind it.
pub(crate) fn mix_text(key: u64, text: &str) -> u64
    ensures { result ≡ text_mixed key text.now }
{
    let bytes = text.as_bytes();
    mix_words(mix(key, bytes.len() as u64), bytes)
}

/// All 64, so that no two integers are the same.
fn bits(int: &i64) -> u64
    ensures { result ≡ bits_of w64 int.now }
{
    int.cast_unsigned()
}

/// Of which kind it is goes in first, with the length of a text in the same step.
pub(crate) fn mix_value(key: u64, value: &Value) -> u64
    ensures { result ≡ value_mixed key value.now }
{
    match value {
        Value::Null => mix(key, 0),
        Value::Bool(is_true) => mix(key, 1 + *is_true as u64),
        Value::Int(int) => mix(mix(key, 3), bits(int)),
        Value::Text(text) => {
            let bytes = text.as_str().as_bytes();
            mix_words(mix(key, 4 + bytes.len() as u64), bytes)
        }
    }
}
