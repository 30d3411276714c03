//! Why a line isn't understood.
use crate::misfit::Misfit;
use crate::request::MOST_BYTES;
use std::alloc::{AllocError, AllocFailed};
use thiserror::Error;

/// Why a line isn't understood, in words for the person who typed it.
#[derive(Debug, Drop, Error)]
pub enum LineFault {
    #[error("longer than {MOST_BYTES} bytes")]
    TooLong,
    #[error("not text in UTF-8")]
    NotUtf8,
    #[error("a quote isn't closed")]
    OpenQuote,
    #[error("not JSON: {0}")]
    NotJson(serde_json::Error),
    #[error("`op` is missing")]
    NoOperation,
    #[error("`id` is there, which the client gives")]
    HasId,
    #[error("no operation `{0}`; try `help`")]
    UnknownOperation(String),
    #[error("`{op}` lacks `{member}`; try `help {op}`")]
    Missing {
        op: &'static str,
        member: &'static str,
    },
    #[error("`{op}` has no place for `{word}`; try `help {op}`")]
    TooMuch {
        op: &'static str,
        word: String,
    },
    #[error("`{0}` is there twice")]
    Twice(String),
    #[error("`{0}` is no number of 64 bits")]
    NotNumber(String),
    #[error("`{0}` is no text")]
    NotText(String),
    #[error("`{word}` isn't {wanted}")]
    NotPart {
        wanted: &'static str,
        word: String,
    },
    #[error(transparent)]
    Unfit(Misfit),
    #[error("out of memory")]
    NoMemory,
}

impl From<AllocError> for LineFault {
    fn from(_error: AllocError) -> LineFault {
        LineFault::NoMemory
    }
}

impl<T: Drop> From<AllocFailed<T>> for LineFault {
    fn from(_error: AllocFailed<T>) -> LineFault {
        LineFault::NoMemory
    }
}

impl From<serde_json::Error> for LineFault {
    fn from(error: serde_json::Error) -> LineFault {
        if error.is_memory() {
            LineFault::NoMemory
        } else {
            LineFault::NotJson(error)
        }
    }
}
