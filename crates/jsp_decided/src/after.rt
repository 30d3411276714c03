//! What a row is after what is recorded. Nothing here takes memory.
ghost use Rattle.std.specs.Prelude.{◌≡◌, ◌==◌, Some, None, option_map, if◌then◌else◌};
ghost use Rattle.jsp_model.specs.Lookup.{is_caller as calls};
ghost use Rattle.jsp_decided.specs.Decided.{row_after};
ghost use Rattle.jsp_decided.specs.Recording.{space_of};
ghost use Rattle.jsp_decided.specs.declared.recorded.Recorded.TheVariants.{Decided as OfDecided};
ghost use Rattle.jsp_decided.specs.Left.{left_by as left_after_one, marks_of, is_over as ended, reads_alone as is_alone, is_readable as may_be_read};

use crate::recorded::Recorded;
use jsp_model::Row;
use jsp_sight::{Decision, is_caller, is_free};

/// The marks of a row that are left, but for its readers.
#[derive(Clone, Copy)]
pub(crate) struct Left {
    pub(crate) writer: Option<u64>,
    pub(crate) taker: Option<u64>,
}

/// The marks of a row after what is recorded, unless it goes.
pub(crate) fn left_after(recorded: &[Recorded], row: &Row) -> Option<Left>
    ensures { result ≡ option_map marks_of (row_after recorded.now row.now) }
{
    let mut left = Left {
        writer: row.writer,
        taker: row.taker,
    };
    'recorded: for one in recorded {
        let Some(next) = left_at(one, row.space, left) else {
            return None;
        };
        left = next;
    }
    Some(left)
}

/// The marks after one record, if it is about the space.
fn left_at(recorded: &Recorded, space: u64, left: Left) -> Option<Left>
    ensures { result ≡ (if space == space_of recorded.now then left_after_one recorded.now left else Some left) }
{
    if space == recorded.space() {
        left_by(recorded, left)
    } else {
        Some(left)
    }
}

/// The marks after one record.
fn left_by(recorded: &Recorded, left: Left) -> Option<Left>
    ensures { result ≡ left_after_one recorded.now left }
{
    match recorded {
        Recorded::Decided(decision) => left_by_decision(decision, left),
        Recorded::Reset(_) => None,
    }
}

/// The marks after one decision.
fn left_by_decision(decision: &Decision, left: Left) -> Option<Left>
    ensures { result ≡ left_after_one (OfDecided decision.now) left }
{
    let x = decision.transaction;
    if decision.commits {
        if is_caller(left.taker, x) {
            return None;
        }
        Some(Left {
            writer: but(left.writer, x),
            taker: left.taker,
        })
    } else {
        if is_caller(left.writer, x) {
            return None;
        }
        Some(Left {
            writer: left.writer,
            taker: but(left.taker, x),
        })
    }
}

/// A mark, unless it is the transaction's.
fn but(mark: Option<u64>, x: u64) -> Option<u64>
    ensures { result ≡ (if calls mark x then None else mark) }
{
    if is_caller(mark, x) { None } else { mark }
}

/// Whether the transaction ended in the space.
fn is_over(recorded: &[Recorded], space: u64, x: u64) -> bool
    ensures { result ≡ ended recorded.now space x }
{
    recorded.iter().any(|one| one.ends(space, x))
}

/// Whether none but the caller is left of a row's readers.
pub(crate) fn reads_alone(recorded: &[Recorded], row: &Row, caller: Option<u64>) -> bool
    ensures { result ≡ is_alone recorded.now row.now caller }
{
    let (space, readers) = (row.space, row.readers.as_slice());
    readers
        .iter()
        .all(|x| is_caller(caller, *x) || is_over(recorded, space, *x))
}

/// Whether the caller may read the row, by the marks that are left.
pub(crate) fn is_readable(left: Left, caller: Option<u64>) -> bool
    ensures { result ≡ may_be_read left caller }
{
    left.taker.is_none() && is_free(caller, left.writer)
}
