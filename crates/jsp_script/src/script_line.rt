//! One line of a script.
ghost use Rattle.std.specs.Prelude.{ℕ, List, ◌≡◌, ◌<◌, ◌^◌, IfOk, IfSome, IfNone, MatchOption, IsTrue, IsFalse, length};
ghost use Rattle.std.specs.List.{list_any, position};
ghost use Rattle.jsp_drive.specs.declared.acts.Act.{Act as AnAct};
ghost use Rattle.jsp_script.specs.Script.{first_part, other_parts, is_blank, IsActOf, IsReadAs, IsHexOf, Names, Sends, SendsRaw};

use hex::FromHexError;
use jsp_drive::Act;
use jsp_frame::frame;
use jsp_types::NoMemory;
use std::alloc::Global;
use std::str;

/// What a line says.
#[derive(Drop)]
pub(crate) enum Line {
    /// It is empty, or begins with `#`.
    PassedOver,
    Act(Act),
    NotUnderstood,
}

/// Reads a line: `open c`, `send c JSON`, `hex c HEX`, `shut c`, `clock t` or `settle`. c is a
/// session's decimal number, JSON is all that is left of the line, sent as one frame, HEX is one or
/// more pairs of hex digits, sent as these bytes, and t is a reading of the clock in milliseconds.
/// One blank stands between parts.
pub(crate) fn read_line(alloc: Global, line: &[u8]) -> Result<Line, NoMemory>
    requires { length line.now < 2 ^ 32 }
    ensures { IfOk result (IsReadAs line.now) }
{
    if line.is_empty() || line.starts_with(b"#") {
        return Ok(Line::PassedOver);
    }
    Ok(match act_of(alloc, line)? {
        Some(act) => Line::Act(act),
        None => Line::NotUnderstood,
    })
}

/// The act that a line asks for, or none where it isn't understood.
fn act_of(alloc: Global, line: &[u8]) -> Result<Option<Act>, NoMemory>
    requires { length line.now < 2 ^ 32 }
    ensures { IfOk result (λ r. MatchOption r ((a : AnAct) → IsActOf line.now a → ⊥) (IsActOf line.now)) }
{
    if line == b"settle".as_slice() {
        return Ok(Some(Act::Settle));
    }
    let Some((kind, rest)) = split_at_blank(line) else {
        return Ok(None);
    };
    if kind == b"open".as_slice() {
        Ok(number(rest).map(|session| Act::Open { session }))
    } else if kind == b"shut".as_slice() {
        Ok(number(rest).map(|session| Act::Shut { session }))
    } else if kind == b"send".as_slice() {
        Ok(send(alloc, rest)?.map(|(session, bytes)| Act::Piece { session, bytes }))
    } else if kind == b"hex".as_slice() {
        Ok(raw(alloc, rest)?.map(|(session, bytes)| Act::Piece { session, bytes }))
    } else if kind == b"clock".as_slice() {
        Ok(number(rest).map(|time| Act::Clock { time }))
    } else {
        Ok(None)
    }
}

/// The session and the bytes of what follows `send`. The payload is framed as it stands, also where
/// it is no JSON or empty.
fn send(alloc: Global, rest: &[u8]) -> Result<Option<(u64, Vec<u8>)>, NoMemory>
    requires { length rest.now < 2 ^ 32 }
    ensures { IfOk result (λ r. MatchOption r ((s : ℕ) (bytes : List ℕ) → Sends rest.now s bytes → ⊥) (λ p. Sends rest.now p.0 p.1.items)) }
{
    let Some((session, payload)) = session_and_rest(rest) else {
        return Ok(None);
    };
    Ok(Some((session, frame(alloc, payload)?)))
}

/// The session and the bytes of what follows `hex`.
fn raw(alloc: Global, rest: &[u8]) -> Result<Option<(u64, Vec<u8>)>, NoMemory>
    ensures { IfOk result (λ r. MatchOption r ((s : ℕ) (bytes : List ℕ) → SendsRaw rest.now s bytes → ⊥) (λ p. SendsRaw rest.now p.0 p.1.items)) }
{
    let Some((session, pairs)) = session_and_rest(rest) else {
        return Ok(None);
    };
    let Some(bytes) = decoded(alloc, pairs)? else {
        return Ok(None);
    };
    Ok(Some((session, bytes)))
}

/// The session that stands before the first blank, and what stands behind it.
fn session_and_rest(text: &[u8]) -> Option<(u64, &[u8])>
    ensures none { IfNone result ((s : ℕ) → Names (first_part text.now) s → IsFalse (list_any is_blank text.now)) }
    ensures some { IfSome result (λ p. IsTrue (list_any is_blank text.now) × Names (first_part text.now) p.0 × (p.1.now ≡ other_parts text.now)) }
{
    let (digits, others) = split_at_blank(text)?;
    let session = number(digits)?;
    Some((session, others))
}

/// The bytes of one or more pairs of hex digits.
fn decoded(alloc: Global, pairs: &[u8]) -> Result<Option<Vec<u8>>, NoMemory>
    ensures { IfOk result (λ r. MatchOption r ((bytes : List ℕ) → IsHexOf pairs.now bytes → ⊥) (λ v. IsHexOf pairs.now v.items)) }
{
    match hex::decode(alloc, pairs) {
        Ok(bytes) if bytes.is_empty() => Ok(None),
        Ok(bytes) => Ok(Some(bytes)),
        Err(FromHexError::OutOfMemory) => Err(NoMemory),
        Err(_) => Ok(None),
    }
}

/// What stands before the first blank, and behind it.
fn split_at_blank(text: &[u8]) -> Option<(&[u8], &[u8])>
    ensures none { IfNone result (IsFalse (list_any is_blank text.now)) }
    ensures some { IfSome result (λ p. IsTrue (list_any is_blank text.now) × (p.0.now ≡ first_part text.now) × (p.1.now ≡ other_parts text.now)) }
{
    match first_blank(text) {
        Some(place) => Some((&text[..place], &text[place + 1..])),
        None => None,
    }
}

fn first_blank(text: &[u8]) -> Option<usize>
    ensures { result ≡ position is_blank text.now }
{
    text.iter().position(|b| *b == b' ')
}

/// The decimal number that digits alone name, below 2^64.
fn number(text: &[u8]) -> Option<u64>
    ensures { MatchOption result ((n : ℕ) → Names text.now n → ⊥) (Names text.now) }
{
    match str::from_utf8(text) {
        Ok(digits) => plain_number(digits),
        Err(_) => None,
    }
}

fn plain_number(digits: &str) -> Option<u64>
    ensures { MatchOption result ((n : ℕ) → Names digits.now n → ⊥) (Names digits.now) }
{
    // `parse` takes a plus too.
    if digits.starts_with('+') {
        return None;
    }
    match digits.parse::<u64>() {
        Ok(number) => Some(number),
        Err(_) => None,
    }
}
