//! Several rows changed or left out, each by its number. Nothing here takes memory.
ghost use Rattle.std.specs.Prelude.{◌≡◌, ◌==◌, true, false, not, if◌then◌else◌, filter, map, Some};
ghost use Rattle.std.specs.List.{AllByRecursion, filter_map};
ghost use Rattle.jsp_model.specs.declared.state.Row.{Row as OfRow};
ghost use Rattle.jsp_model.specs.Lookup.{contains as has};
ghost use Rattle.jsp_sight.specs.Rows.{taken_row};
ghost use Rattle.jsp_table.specs.Numbers.{contains};
ghost use Rattle.jsp_index.specs.Changing.{HasSameKeys, IsOnce, revised_by};
ghost use Rattle.jsp_index.specs.Holding.{listed_in, is_in};

use crate::holding::Holding;
use crate::keyed::KeyedRows;
use crate::row_changes::{Local, Revision};
use jsp_model::Row;
use jsp_table::{Change, Numbers};

/// Revises the row of a number.
pub(crate) fn revise<R: Revision + Change<Row>>(rows: &mut KeyedRows, number: u64, revision: &R)
    requires { (r : OfRow) → HasSameKeys r (R.changed revision.now r) }
    ensures { rows.new ≡ filter_map (λ r. if r.number == number then revised_by (R.is_gone revision.now) (R.changed revision.now) r else Some r) rows.old }
{
    let Some(row) = rows.get(number) else {
        return;
    };
    if revision.goes(row) {
        rows.remove(number);
    } else {
        rows.change(number, revision);
    }
}

/// Revises the rows of these numbers, where a revision leaves all others as they are. So it revises
/// all.
pub(crate) fn revise_all<R: Revision + Change<Row>>(
    rows: &mut KeyedRows,
    numbers: &Numbers,
    revision: &R,
)
    requires keys { (r : OfRow) → HasSameKeys r (R.changed revision.now r) }
    requires named { AllByRecursion (λ (r : OfRow). contains numbers.now r.number ≡ false → revised_by (R.is_gone revision.now) (R.changed revision.now) r ≡ Some r) rows.old }
    ensures { rows.new ≡ filter_map (revised_by (R.is_gone revision.now) (R.changed revision.now)) rows.old }
{
    // Which says that no number is 0.
    let _ = rows.places();
    let mut last = 0;
    'numbers: while let Some(number) = numbers.next_above(last) {
        revise(rows, number, revision);
        last = number;
    }
}

/// Revises the rows that are listed, space by space, where a revision leaves all others as they
/// are. So it revises all.
pub(crate) fn revise_holdings<R: Revision + Change<Row>>(
    rows: &mut KeyedRows,
    holdings: &[Holding],
    revision: &R,
)
    requires keys { (r : OfRow) → HasSameKeys r (R.changed revision.now r) }
    requires once { IsOnce (revised_by (R.is_gone revision.now) (R.changed revision.now)) }
    requires listed { AllByRecursion (λ (r : OfRow). is_in (listed_in holdings.now r.space) r.number ≡ false → revised_by (R.is_gone revision.now) (R.changed revision.now) r ≡ Some r) rows.old }
    ensures { rows.new ≡ filter_map (revised_by (R.is_gone revision.now) (R.changed revision.now)) rows.old }
{
    'holdings: for holding in holdings {
        revise_space(rows, holding, revision);
    }
}

/// Revises the rows of a space that are listed, where a revision leaves its others as they are.
pub(crate) fn revise_space<R: Revision + Change<Row>>(
    rows: &mut KeyedRows,
    holding: &Holding,
    revision: &R,
)
    requires keys { (r : OfRow) → HasSameKeys r (R.changed revision.now r) }
    requires listed { AllByRecursion (λ (r : OfRow). (r.space == holding.now.space) ≡ true → contains holding.now.numbers r.number ≡ false → revised_by (R.is_gone revision.now) (R.changed revision.now) r ≡ Some r) rows.old }
    ensures { rows.new ≡ filter_map (λ r. if r.space == holding.now.space then revised_by (R.is_gone revision.now) (R.changed revision.now) r else Some r) rows.old }
{
    let space = holding.space;
    revise_all(rows, &holding.numbers, &Local { space, revision });
}

/// The rows of these numbers go.
pub(crate) fn remove_all(rows: &mut KeyedRows, numbers: &[u64])
    ensures { rows.new ≡ filter (λ r. not (has numbers.now r.number)) rows.old }
{
    'numbers: for number in numbers {
        rows.remove(*number);
    }
}

/// A transaction takes the rows of these numbers.
pub(crate) fn take_all(rows: &mut KeyedRows, numbers: &[u64], x: u64)
    ensures { rows.new ≡ map (taken_row x numbers.now) rows.old }
{
    'numbers: for number in numbers {
        rows.take(*number, x);
    }
}
