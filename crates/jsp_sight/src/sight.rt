//! What a caller, a request or a match set sees of a row. Nothing here takes memory.
ghost use Rattle.std.specs.Prelude.{◌≡◌, ◌==◌, ◌&&◌, if◌then◌else◌};
ghost use Rattle.std.specs.List.{list_any, list_all};
ghost use Rattle.jsp_types.specs.Matching.{matches as fits};
ghost use Rattle.jsp_model.specs.Lookup.{contains as has, is_caller as calls};
ghost use Rattle.jsp_model.specs.Sight.{is_free as frees, readable, takeable, conflicts as conflicting, is_take as takes, is_if as waits_for_conflict};
ghost use Rattle.jsp_sight.specs.Rows.{wanted, offered, held, shows};

use jsp_model::{Blocked, Form, MatchSet, Row};
use jsp_types::{Classes, Template, matches};

/// Whether the number is among these.
pub fn contains(numbers: &[u64], number: u64) -> bool
    ensures { result ≡ has numbers.now number }
{
    numbers.iter().any(|n| *n == number)
}

/// Whether the caller is this transaction.
pub fn is_caller(caller: Option<u64>, transaction: u64) -> bool
    ensures { result ≡ calls caller transaction }
{
    caller == Some(transaction)
}

/// Whether a request of this form takes what it is given.
pub fn is_take(form: Form) -> bool
    ensures { result ≡ takes form }
{
    match form {
        Form::Read | Form::ReadIf => false,
        Form::Take | Form::TakeIf | Form::TakeMany => true,
    }
}

/// Whether a request of this form waits only for a row in conflict (the IfExists forms of
/// JavaSpaces).
pub fn is_if(form: Form) -> bool
    ensures { result ≡ waits_for_conflict form }
{
    matches!(form, Form::ReadIf | Form::TakeIf)
}

/// Whether the request may be given the row: it is in its space, one of its templates matches it,
/// and it may be read or taken, as the form asks.
pub fn is_available(classes: &Classes, blocked: &Blocked, row: &Row) -> bool
    ensures { result ≡ offered classes.now blocked.now row.now }
{
    wants(classes, blocked, row) && is_open_to(blocked.form, blocked.transaction, row)
}

/// Whether the request wants the row and another transaction took it or, for a take, read it.
pub fn is_in_conflict(classes: &Classes, blocked: &Blocked, row: &Row) -> bool
    ensures { result ≡ held classes.now blocked.now row.now }
{
    wants(classes, blocked, row) && conflicts(is_take(blocked.form), blocked.transaction, row)
}

/// Whether the row is in the request's space and one of its templates matches it.
pub fn wants(classes: &Classes, blocked: &Blocked, row: &Row) -> bool
    ensures { result ≡ wanted classes.now blocked.now row.now }
{
    row.space == blocked.space && matches_one(classes, blocked.templates.as_slice(), row)
}

fn matches_one(classes: &Classes, templates: &[Template], row: &Row) -> bool
    ensures { result ≡ list_any (λ t. fits classes.now t row.now.entry) templates.now }
{
    templates.iter().any(|t| matches(classes, t, &row.entry))
}

fn is_open_to(form: Form, caller: Option<u64>, row: &Row) -> bool
    ensures { result ≡ (if takes form then takeable caller row.now else readable caller row.now) }
{
    if is_take(form) {
        is_takeable(caller, row)
    } else {
        is_readable(caller, row)
    }
}

fn is_takeable(caller: Option<u64>, row: &Row) -> bool
    ensures { result ≡ takeable caller row.now }
{
    is_readable(caller, row) && is_read_by_none_else(caller, row.readers.as_slice())
}

/// Whether the caller may read the row: nobody took it, and it is everyone's or the caller's own.
pub fn is_readable(caller: Option<u64>, row: &Row) -> bool
    ensures { result ≡ readable caller row.now }
{
    row.taker.is_none() && is_free(caller, row.writer)
}

fn conflicts(takes: bool, caller: Option<u64>, row: &Row) -> bool
    ensures { result ≡ conflicting takes caller row.now }
{
    is_free(caller, row.writer)
        && (!is_free(caller, row.taker)
            || takes && !is_read_by_none_else(caller, row.readers.as_slice()))
}

fn is_read_by_none_else(caller: Option<u64>, readers: &[u64]) -> bool
    ensures { result ≡ list_all (calls caller) readers.now }
{
    readers.iter().all(|reader| is_caller(caller, *reader))
}

/// Whether a mark is nobody's, or the caller's own.
pub fn is_free(caller: Option<u64>, holder: Option<u64>) -> bool
    ensures { result ≡ frees caller holder }
{
    match holder {
        None => true,
        Some(x) => is_caller(caller, x),
    }
}

/// Whether the set may still show the row: it could be read, is of the set's space and template,
/// above its cursor and below its own number.
pub fn may_show(classes: &Classes, set: &MatchSet, row: &Row) -> bool
    ensures { result ≡ shows classes.now set.now row.now }
{
    row.space == set.space
        && set.cursor < row.number
        && row.number < set.number
        && is_readable(set.transaction, row)
        && matches(classes, &set.template, &row.entry)
}
