//! What is recorded of a space.
ghost use Rattle.std.specs.Prelude.{◌≡◌, ◌==◌, Some, None, if◌then◌else◌, map, filter, not, IfOk};
ghost use Rattle.std.specs.Bool.{OnTrue};
ghost use Rattle.std.specs.List.{filter_map};
ghost use Rattle.jsp_decided.specs.Recording.{space_of, becomes, ends as ends_in, is_of_other as is_other, resets as resets_it};
ghost use Rattle.jsp_decided.specs.declared.recorded.Recorded.TheVariants.{Decided as OfDecided};

use jsp_index::HintedRows;
use jsp_model::Row;
use jsp_scan::apply as apply_decision;
use jsp_sight::Decision;
use jsp_types::NoMemory;
use std::alloc::Global;

/// What becomes of the rows of a space.
#[derive(Clone, Copy, Debug, PartialEq, Eq)]
pub(crate) enum Recorded {
    /// A transaction ended there.
    Decided(Decision),
    /// The space was reset: all go.
    Reset(u64),
}

impl Recorded {
    pub(crate) fn space(&self) -> u64
        ensures { result ≡ space_of self.now }
    {
        match self {
            Recorded::Decided(decision) => decision.space,
            Recorded::Reset(space) => *space,
        }
    }

    /// Whether it is a reset of the space.
    pub(crate) fn resets(&self, space: u64) -> bool
        ensures { result ≡ resets_it space self.now }
    {
        match self {
            Recorded::Decided(_) => false,
            Recorded::Reset(reset) => *reset == space,
        }
    }

    /// Whether the transaction ended in the space.
    pub(crate) fn ends(&self, space: u64, x: u64) -> bool
        ensures { result ≡ ends_in space x self.now }
    {
        match self {
            Recorded::Decided(decision) => decision.space == space && decision.transaction == x,
            Recorded::Reset(_) => false,
        }
    }

    /// Whether it isn't the end of this transaction.
    pub(crate) fn is_of_other(&self, x: u64) -> bool
        ensures { result ≡ is_other x self.now }
    {
        match self {
            Recorded::Decided(decision) => decision.transaction != x,
            Recorded::Reset(_) => true,
        }
    }
}

/// These decisions, to be recorded.
pub(crate) fn all_of(alloc: Global, decisions: &[Decision]) -> Result<Vec<Recorded>, NoMemory>
    ensures { IfOk result (λ v. v.items ≡ map OfDecided decisions.now) }
{
    decisions
        .iter()
        .map(|decision| Recorded::Decided(*decision))
        .collect(alloc)
}

/// Applies it to all rows of its space. Takes no memory.
pub(crate) fn apply(stored: &mut HintedRows, recorded: &Recorded)
    ensures { stored.new ≡ filter_map (becomes recorded.now) stored.old }
{
    match recorded {
        Recorded::Decided(decision) => stored.apply(decision),
        Recorded::Reset(space) => stored.clear(*space),
    }
}

/// Applies it to so many rows of its space at most. Whether nothing is left of it; else further
/// calls go on. Takes no memory.
pub(crate) fn apply_some(stored: &mut HintedRows, recorded: &Recorded, most: usize) -> bool
    ensures same { filter_map (becomes recorded.now) stored.new ≡ filter_map (becomes recorded.now) stored.old }
    ensures all { OnTrue result (stored.new ≡ filter_map (becomes recorded.now) stored.old) }
{
    match recorded {
        Recorded::Decided(decision) => stored.apply_some(decision, most),
        Recorded::Reset(space) => stored.clear_some(*space, most),
    }
}

/// Applies it to a plain list of rows. Takes no memory.
pub(crate) fn apply_to_list(rows: &mut Vec<Row>, recorded: &Recorded)
    ensures { rows.new.items ≡ filter_map (becomes recorded.now) rows.old.items }
{
    match recorded {
        Recorded::Decided(decision) => apply_decision(rows, decision),
        Recorded::Reset(space) => leave_out(rows, *space),
    }
}

fn leave_out(rows: &mut Vec<Row>, space: u64)
    ensures { rows.new.items ≡ filter (λ r. not (r.space == space)) rows.old.items }
{
    rows.retain(|row| !(row.space == space));
}
