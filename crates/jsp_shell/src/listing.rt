//! A listing: the match set that it opened, page after page.
use serde_json::Value as Json;
use std::alloc::{AllocError, Global};

/// The match set of a listing, and what is asked of it next.
#[derive(Clone, Copy)]
pub(crate) struct MatchSet {
    number: u64,
    /// Whether its last page is there, so that it is to be closed.
    is_listed: bool,
}

impl MatchSet {
    /// The one that an answer says was opened.
    pub(crate) fn opened_by(answer: &Json) -> Option<MatchSet> {
        Some(MatchSet {
            number: answer.get("ok")?.get("lease")?.as_u64()?,
            is_listed: false,
        })
    }

    /// How it goes on after an answer; none where that is its end, as a refusal is.
    pub(crate) fn after(self, answer: &Json) -> Option<MatchSet> {
        if self.is_listed {
            return None;
        }
        Some(MatchSet {
            number: self.number,
            is_listed: answer.get("ok")?.get("end")?.as_bool()?,
        })
    }

    /// The line that asks for what comes next.
    pub(crate) fn line(self, alloc: Global) -> Result<String, AllocError> {
        let number = self.number;
        if self.is_listed {
            format!(in alloc; "close_set {number}")
        } else {
            format!(in alloc; "next {number}")
        }
    }
}
