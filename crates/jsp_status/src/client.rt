//! Asking a server for its status.
use httparse::Status as Parsed;
use httparse::spans::{EMPTY_HEADER_SPAN, parse_response};
use serde_json::Value as Json;
use std::alloc::{AllocError, Global};
use std::io::{self, Read, Write};
use thiserror::Error;

/// What is asked.
const REQUEST: &[u8] = b"GET /status.json HTTP/1.1\r\nhost: jsp\r\nconnection: close\r\n\r\n";

/// The most bytes of an answer, and the most headers.
const MOST_BYTES: u64 = 1 << 24;

const MOST_HEADERS: usize = 16;

/// Why there is no status, in words for people.
#[derive(Debug, Drop, Error)]
pub enum AskFault {
    #[error("cannot ask for a status: {0}")]
    Broken(io::Error),
    #[error("what answered shows no status")]
    NoStatus,
    #[error("out of memory")]
    NoMemory,
}

impl From<io::Error> for AskFault {
    fn from(error: io::Error) -> AskFault {
        match error.kind() {
            io::ErrorKind::OutOfMemory => AskFault::NoMemory,
            _ => AskFault::Broken(error),
        }
    }
}

impl From<AllocError> for AskFault {
    fn from(_error: AllocError) -> AskFault {
        AskFault::NoMemory
    }
}

/// Asks for a status over a connection on which [`serve`](crate::serve) answers, which then ends: a
/// text of many lines for people, which is JSON as [`to_json`](crate::to_json) has it. A terminal
/// finds nothing in it to obey.
pub fn ask<S: Read + Write + Drop>(alloc: Global, stream: S) -> Result<String, AskFault> {
    let mut stream = stream;
    stream.write_all(REQUEST)?;
    let mut answer = Vec::new(alloc);
    stream.take(MOST_BYTES).read_to_end(&mut answer)?;
    let Some(body) = body_of(&answer) else {
        return Err(AskFault::NoStatus);
    };
    let Ok(status) = Json::from_slice(alloc, body) else {
        return Err(AskFault::NoStatus);
    };
    let text = status.to_string_pretty(alloc)?;
    if text.chars().any(|next| next != '\n' && next.is_control()) {
        return Err(AskFault::NoStatus);
    }
    Ok(text)
}

/// The body of an answer that is a success.
fn body_of(answer: &[u8]) -> Option<&[u8]> {
    let mut headers = [EMPTY_HEADER_SPAN; MOST_HEADERS];
    match parse_response(answer, &mut headers) {
        Ok(Parsed::Complete(head)) if head.code == 200 => answer.get(head.len..),
        _ => None,
    }
}
