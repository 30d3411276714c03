//! The words of a short form.
use crate::fault::LineFault;
use serde_json::Value as Json;
use std::alloc::Global;
use std::mem;

/// Where the reading of a line is.
#[derive(Clone, Copy, PartialEq, Eq)]
enum Mode {
    Plain,
    Quoted,
    /// Behind a backslash in a quote.
    Escaped,
}

impl Mode {
    /// Where it is behind this character.
    fn after(self, next: char) -> Mode {
        match (self, next) {
            (Mode::Plain, '"') => Mode::Quoted,
            (Mode::Quoted, '"') => Mode::Plain,
            (Mode::Quoted, '\\') => Mode::Escaped,
            (Mode::Escaped, _) => Mode::Quoted,
            (mode, _) => mode,
        }
    }
}

/// Cuts a line at its blanks. A comma is a word of its own. What is quoted is cut nowhere, and
/// keeps its quotes.
pub(crate) fn words_of(alloc: Global, line: &str) -> Result<Vec<String>, LineFault> {
    let mut words = Vec::new(alloc);
    let mut word = String::new(alloc);
    let mut mode = Mode::Plain;
    for next in line.chars() {
        let ends = mode == Mode::Plain && (next.is_ascii_whitespace() || next == ',');
        if ends && !word.is_empty() {
            words.push(mem::replace(&mut word, String::new(alloc)))?;
        }
        if ends && next == ',' {
            words.push(String::from_str(alloc, ",")?)?;
        }
        if !ends {
            word.push(next)?;
        }
        mode = mode.after(next);
    }
    if mode != Mode::Plain {
        return Err(LineFault::OpenQuote);
    }
    if !word.is_empty() {
        words.push(word)?;
    }
    Ok(words)
}

/// The value of a field: an integer where it looks like one, `true`, `false`, or else text.
pub(crate) fn value(alloc: Global, word: &str) -> Result<Json, LineFault> {
    match word {
        "true" => Ok(Json::Bool(true)),
        "false" => Ok(Json::Bool(false)),
        _ if looks_like_number(word) => number(alloc, word),
        _ => text(alloc, word),
    }
}

/// Whether a word has digits alone, with at most a sign before them.
fn looks_like_number(word: &str) -> bool {
    let digits = word.strip_prefix('-').unwrap_or(word);
    !digits.is_empty() && digits.bytes().all(|byte| byte.is_ascii_digit())
}

/// A number of 64 bits with sign.
pub(crate) fn number(alloc: Global, word: &str) -> Result<Json, LineFault> {
    match word.parse::<i64>() {
        Ok(number) if looks_like_number(word) => Ok(Json::from(number)),
        _ => Err(LineFault::NotNumber(String::from_str(alloc, word)?)),
    }
}

/// A text, in quotes, as in JSON, or without them.
pub(crate) fn text(alloc: Global, word: &str) -> Result<Json, LineFault> {
    if !word.starts_with('"') {
        return Ok(Json::try_from_str(alloc, word)?);
    }
    match Json::from_str(alloc, word) {
        Ok(text) if text.is_string() => Ok(text),
        Err(error) if error.is_memory() => Err(LineFault::NoMemory),
        _ => Err(LineFault::NotText(String::from_str(alloc, word)?)),
    }
}
