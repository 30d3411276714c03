//! What becomes of one row: its marks and its end. Only `add_reader` takes memory.
ghost use Rattle.std.specs.Prelude.{◌≡◌, ◌==◌, filter, not, OnOk, OnErr};
ghost use Rattle.jsp_model.specs.Changes.{unread as without_reader};
ghost use Rattle.jsp_sight.specs.Rows.{released_row, row_ending, settled, taken_row, undone, with_reader};

use crate::sight::{contains, is_caller};
use jsp_model::{Row, Vote};
use jsp_types::NoMemory;

/// The transaction that ends without its changes doesn't hold the row any more.
pub fn undo(row: &mut Row, x: u64)
    ensures { row.new ≡ undone x row.old }
{
    if is_caller(row.taker, x) {
        row.taker = None;
    }
    unread(row, x);
}

/// The row is everyone's, if the transaction that ends with its changes wrote it.
pub fn settle(row: &mut Row, x: u64)
    ensures { row.new ≡ settled x row.old }
{
    if is_caller(row.writer, x) {
        row.writer = None;
    }
    unread(row, x);
}

/// Once its space has voted that nothing is changed, the transaction hasn't read the row.
pub fn release_row(row: &mut Row, vote: Vote, x: u64, space: u64)
    ensures { row.new ≡ released_row vote x space row.old }
{
    if matches!(vote, Vote::NotChanged) && row.space == space {
        unread(row, x);
    }
}

/// The transaction takes the row, if it has one of these numbers.
pub fn take_row(row: &mut Row, numbers: &[u64], x: u64)
    ensures { row.new ≡ taken_row x numbers.now row.old }
{
    if contains(numbers, row.number) {
        row.taker = Some(x);
    }
}

/// The row ends then, if it has this number.
pub fn extend_row(row: &mut Row, number: u64, end: u64)
    ensures { row.new ≡ row_ending number end row.old }
{
    if row.number == number {
        row.end = end;
    }
}

/// The transaction has read the row, whole or not at all.
pub fn add_reader(row: &mut Row, x: u64) -> Result<(), NoMemory>
    ensures ok { OnOk result (row.new ≡ with_reader x row.old) }
    ensures err { OnErr result (row.new ≡ row.old) }
{
    if !contains(row.readers.as_slice(), x) {
        row.readers.push(x)?;
    }
    Ok(())
}

/// The transaction's read mark goes.
fn unread(row: &mut Row, x: u64)
    ensures { row.new ≡ without_reader x row.old }
{
    let readers = &mut row.readers;
    drop_reader(&mut readers.items, x);
}

fn drop_reader(readers: &mut Vec<u64>, x: u64)
    ensures { readers.new.items ≡ filter (λ y. not (y == x)) readers.old.items }
{
    readers.retain(|y| !(*y == x));
}
