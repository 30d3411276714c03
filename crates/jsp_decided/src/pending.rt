//! What is recorded of a space and isn't applied.
ghost use Rattle.std.specs.Prelude.{◌≡◌, ◌==◌, true, false, not, length, position};
ghost use Rattle.std.specs.Bool.{OnTrue};
ghost use Rattle.std.specs.List.{AllByRecursion, list_all};
ghost use Rattle.jsp_model.specs.declared.state.Row.{Row as OfRow};
ghost use Rattle.jsp_model.specs.Lookup.{contains as has};
ghost use Rattle.jsp_decided.specs.Recording.{space_of, covers as is_covered, is_cleared as has_none_left};
ghost use Rattle.jsp_decided.specs.Decided.{pending_in};

use crate::recorded::Recorded;
use jsp_index::HintedRows;
use jsp_model::Row;

/// Whether something is recorded of the space.
pub(crate) fn covers(recorded: &[Recorded], space: u64) -> bool
    ensures { result ≡ is_covered recorded.now space }
{
    recorded.iter().any(|one| one.space() == space)
}

/// How much is.
pub(crate) fn count_in(recorded: &[Recorded], space: u64) -> usize
    ensures { result ≡ length (pending_in recorded.now space) }
{
    recorded.iter().filter(|one| one.space() == space).count()
}

/// The place of the first.
pub(crate) fn place_of(recorded: &[Recorded], space: u64) -> Option<usize>
    ensures { result ≡ position (λ d. space_of d == space) recorded.now }
{
    recorded.iter().position(|one| one.space() == space)
}

/// Whether the space was reset, so that no row of it is left.
pub(crate) fn is_cleared(recorded: &[Recorded], space: u64) -> bool
    ensures { result ≡ has_none_left recorded.now space }
{
    recorded.iter().any(|one| one.resets(space))
}

/// Whether nothing is recorded of the spaces of these rows.
pub(crate) fn are_uncovered(recorded: &[Recorded], rows: &[Row]) -> bool
    ensures { OnTrue result (AllByRecursion (λ (r : OfRow). is_covered recorded.now r.space ≡ false) rows.now) }
{
    recorded.is_empty() || is_each_uncovered(recorded, rows)
}

fn is_each_uncovered(recorded: &[Recorded], rows: &[Row]) -> bool
    ensures { result ≡ list_all (λ r. not (is_covered recorded.now r.space)) rows.now }
{
    rows.iter().all(|row| !covers(recorded, row.space))
}

/// Whether nothing is recorded of the spaces of the rows of these numbers.
pub(crate) fn are_numbers_uncovered(
    recorded: &[Recorded],
    stored: &HintedRows,
    numbers: &[u64],
) -> bool
    ensures { OnTrue result (AllByRecursion (λ (r : OfRow). has numbers.now r.number ≡ true → is_covered recorded.now r.space ≡ false) stored.now) }
{
    'numbers: for number in numbers {
        if !is_number_uncovered(recorded, stored, *number) {
            return false;
        }
    }
    true
}

/// Whether nothing is recorded of the space of the row of this number.
fn is_number_uncovered(recorded: &[Recorded], stored: &HintedRows, number: u64) -> bool
    ensures { OnTrue result (AllByRecursion (λ (r : OfRow). r.number ≡ number → is_covered recorded.now r.space ≡ false) stored.now) }
{
    if recorded.is_empty() {
        return true;
    }
    // Which says that each number stands once.
    let _ = stored.places();
    match stored.get(number) {
        None => true,
        Some(row) => !covers(recorded, row.space),
    }
}
