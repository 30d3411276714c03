//! What a line of the input asks.
use crate::fault::LineFault;
use crate::form::form_of;
use crate::help::help;
use crate::json::read_json;
use crate::request::Request;
use crate::short::read_short;
use crate::word::words_of;
use std::alloc::Global;
use std::str;

/// What a line of the input asks.
#[derive(Drop)]
pub enum Line {
    /// It is empty, or a comment.
    Nothing,
    /// How all operations are written, or one: this text, whose lines end by a newline each.
    Help(String),
    Request(Request),
}

/// What a line asks, where it is understood.
pub fn read_line(alloc: Global, line: &[u8]) -> Result<Line, LineFault> {
    let Ok(text) = str::from_utf8(line) else {
        return Err(LineFault::NotUtf8);
    };
    let text = text.trim_ascii();
    if text.is_empty() || text.starts_with('#') {
        return Ok(Line::Nothing);
    }
    if text.starts_with('{') {
        return Ok(Line::Request(read_json(alloc, text)?));
    }
    let words = words_of(alloc, text)?;
    match words.as_slice() {
        [] => Ok(Line::Nothing),
        [first, rest @ ..] if first.as_str() == "help" => read_help(alloc, rest),
        [first, rest @ ..] => match form_of(first.as_str()) {
            Some(form) => Ok(Line::Request(read_short(alloc, form, rest)?)),
            None => Err(LineFault::UnknownOperation(first.clone()?)),
        },
    }
}

/// Help on all operations, or on one.
fn read_help(alloc: Global, words: &[String]) -> Result<Line, LineFault> {
    match words {
        [] => Ok(Line::Help(help(alloc, None)?)),
        [op] => match form_of(op.as_str()) {
            Some(form) => Ok(Line::Help(help(alloc, Some(form))?)),
            None => Err(LineFault::UnknownOperation(op.clone()?)),
        },
        [_, word, ..] => Err(LineFault::TooMuch {
            op: "help",
            word: String::from_str(alloc, word.as_str())?,
        }),
    }
}
