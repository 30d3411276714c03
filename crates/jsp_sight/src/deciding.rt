//! What becomes of one row where a transaction ended.
ghost use Rattle.std.specs.Prelude.{◌≡◌, Some, None, if◌then◌else◌};
ghost use Rattle.jsp_sight.specs.Deciding.{fate};

use crate::marks::{settle, undo};
use crate::sight::is_caller;
use jsp_model::Row;

/// How a transaction ended in one space: with its changes there, or without them.
#[derive(Clone, Copy, Debug, PartialEq, Eq)]
pub struct Decision {
    pub transaction: u64,
    pub space: u64,
    pub commits: bool,
}

/// Lets a row go that the decision is about. Whether it stays. Takes no memory.
pub fn decide(row: &mut Row, decision: &Decision) -> bool
    ensures { fate decision.now row.old ≡ (if result then Some row.new else None) }
{
    let x = decision.transaction;
    if row.space != decision.space {
        return true;
    }
    if decision.commits {
        let stays = !is_caller(row.taker, x);
        settle(row, x);
        stays
    } else {
        let stays = !is_caller(row.writer, x);
        undo(row, x);
        stays
    }
}
