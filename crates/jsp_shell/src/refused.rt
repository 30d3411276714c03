//! What counts as refused.
ghost use Rattle.std.specs.Prelude.{◌≡◌, ◌||◌, true, false};
ghost use Rattle.serde_json.specs.View.{view, items_view};
ghost use Rattle.jsp_shell.specs.Refused.{has_fault, any_has_fault, counts_as_refused, found_nothing, status_of};

use serde_json::Value as Json;
use std::marker::Model;

/// Whether anything was refused so far: a line for which nothing was sent, an answer, or a request
/// that had none; and, where an entry must be found, a search that found none. Contracts see it as
/// that.
#[derive(Drop)]
pub struct Refused {
    any: bool,
}

impl Model for Refused {
    ghost use Rattle.std.specs.Prelude.{Bool};

    ghost Value = { Bool };

    ghost view = { λ r. r.any };
}

impl Refused {
    /// Nothing was, so far.
    pub(crate) fn new() -> Refused
        ensures { result ≡ false }
    {
        Refused { any: false }
    }

    /// A line or a request was.
    pub(crate) fn note(&mut self)
        ensures { self.new ≡ true }
    {
        self.any = true;
    }

    /// The answer may be.
    pub(crate) fn note_answer(&mut self, answer: &Json)
        ensures { self.new ≡ (self.old || counts_as_refused (view answer.now)) }
    {
        self.any = self.any || is_refused(answer);
    }

    /// The answer to a search that must find something may be, and this says whether it is.
    pub(crate) fn note_search(&mut self, answer: &Json) -> bool
        ensures noted { self.new ≡ (self.old || found_nothing (view answer.now)) }
        ensures said { result ≡ found_nothing (view answer.now) }
    {
        let found_nothing = is_nothing(answer);
        self.any = self.any || found_nothing;
        found_nothing
    }

    /// The status that a session ends with.
    pub fn status(&self) -> u8
        ensures { result ≡ status_of self.now }
    {
        if self.any { 1 } else { 0 }
    }
}

/// Whether an answer says a refusal itself.
pub(crate) fn has_fault(answer: &Json) -> bool
    ensures { result ≡ has_fault (view answer.now) }
{
    answer.get("fault").is_some()
}

fn any_has_fault(items: &[Json]) -> bool
    ensures { result ≡ any_has_fault (items_view items.now) }
{
    'items: for item in items {
        if has_fault(item) {
            return true;
        }
    }
    false
}

/// Whether an answer to a search says that nothing was found.
fn is_nothing(answer: &Json) -> bool
    ensures { result ≡ found_nothing (view answer.now) }
{
    match answer.get("ok") {
        Some(found) => found.is_null(),
        None => false,
    }
}

/// Whether an answer counts as refused.
fn is_refused(answer: &Json) -> bool
    ensures { result ≡ counts_as_refused (view answer.now) }
{
    has_fault(answer)
        || match answer.get("ok").and_then(Json::as_array) {
            Some(items) => any_has_fault(items.as_slice()),
            None => false,
        }
}
