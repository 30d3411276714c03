//! The end of a transaction, space by space.
ghost use Rattle.std.specs.Prelude.{◌≡◌, ◌==◌, if◌then◌else◌, Some, IfOk, map};
ghost use Rattle.std.specs.Bool.{OnTrue};
ghost use Rattle.std.specs.List.{filter_map};
ghost use Rattle.jsp_sight.specs.Deciding.{fate};
ghost use Rattle.jsp_index.specs.Ending.{EndsAll};
ghost use Rattle.jsp_index.specs.Holding.{AreHeld};

use crate::holding::{Holders, Holding, first_listed, is_longer, take_list, unlist};
use crate::keyed::KeyedRows;
use crate::revising::{revise, revise_space};
use crate::row_changes::{Abort, Commit, Local};
use crate::{HintedRows, NoMemory};
use jsp_sight::Decision;
use std::alloc::Global;

impl HintedRows {
    /// The decisions that end a transaction in each space where it wrote, took or read rows. A
    /// space may be named where none of these rows is left.
    pub fn decisions(&self, alloc: Global, x: u64, commits: bool) -> Result<Vec<Decision>, NoMemory>
        ensures { IfOk result (λ v. EndsAll x commits v.items self.now) }
    {
        match self.holders.get(&x) {
            None => Ok(Vec::new(alloc)),
            Some(holdings) => decisions_in(alloc, holdings.as_slice(), x, commits),
        }
    }

    /// Applies a decision: the rows of its space that the transaction wrote, took or read are let
    /// go, or go. Takes no memory.
    pub fn apply(&mut self, decision: &Decision)
        ensures { self.new ≡ filter_map (fate decision.now) self.old }
    {
        let transaction = decision.transaction;
        let Some(holding) = take_list(&mut self.holders, transaction, decision.space) else {
            return;
        };
        if decision.commits {
            revise_space(&mut self.rows, &holding, &Commit { transaction });
        } else {
            revise_space(&mut self.rows, &holding, &Abort { transaction });
        }
    }

    /// Applies a decision to so many rows of its space at most. Whether nothing is left of it; else
    /// further calls go on. Takes no memory.
    pub fn apply_some(&mut self, decision: &Decision, most: usize) -> bool
        ensures same { filter_map (fate decision.now) self.new ≡ filter_map (fate decision.now) self.old }
        ensures all { OnTrue result (self.new ≡ filter_map (fate decision.now) self.old) }
    {
        if is_longer(&self.holders, decision.transaction, decision.space, most) {
            apply_to_some(&mut self.rows, &mut self.holders, decision, most);
            return false;
        }
        self.apply(decision);
        true
    }
}

/// Applies a decision to the first of the rows that are listed, so many of them.
fn apply_to_some(rows: &mut KeyedRows, holders: &mut Holders, decision: &Decision, count: usize)
    requires { AreHeld holders.old rows.old }
    ensures held { AreHeld holders.new rows.new }
    ensures same { filter_map (fate decision.now) rows.new ≡ filter_map (fate decision.now) rows.old }
{
    'rows: for _ in 0..count {
        apply_to_first(rows, holders, decision);
    }
}

/// Applies a decision to the first of the rows that are listed. Then it is listed no more.
fn apply_to_first(rows: &mut KeyedRows, holders: &mut Holders, decision: &Decision)
    requires { AreHeld holders.old rows.old }
    ensures held { AreHeld holders.new rows.new }
    ensures same { filter_map (fate decision.now) rows.new ≡ filter_map (fate decision.now) rows.old }
{
    let Some(number) = first_listed(holders, decision.transaction, decision.space) else {
        return;
    };
    apply_at(rows, decision, number);
    unlist(holders, decision.transaction, decision.space, number);
}

/// Applies a decision to the row of a number.
fn apply_at(rows: &mut KeyedRows, decision: &Decision, number: u64)
    ensures { rows.new ≡ filter_map (λ r. if r.number == number then fate decision.now r else Some r) rows.old }
{
    let (transaction, space) = (decision.transaction, decision.space);
    if decision.commits {
        let commit = Commit { transaction };
        let revision = &commit;
        revise(rows, number, &Local { space, revision });
    } else {
        let abort = Abort { transaction };
        let revision = &abort;
        revise(rows, number, &Local { space, revision });
    }
}

fn decisions_in(
    alloc: Global,
    holdings: &[Holding],
    transaction: u64,
    commits: bool,
) -> Result<Vec<Decision>, NoMemory>
    ensures { IfOk result (λ v. v.items ≡ map (λ h. record { transaction = transaction; space = h.space; commits = commits }) holdings.now) }
{
    holdings
        .iter()
        .map(|h| Decision {
            transaction,
            space: h.space,
            commits,
        })
        .collect(alloc)
}
