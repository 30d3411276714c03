//! How many rows each space has.
ghost use Rattle.std.specs.Prelude.{◌≡◌, ◌+◌, ◌-◌, ◌^◌, ◌<◌, ℕ, length, OnOk};
ghost use Rattle.jsp_table.specs.Counts.{count_of};
ghost use Rattle.jsp_index.specs.Counted.{count_in, HaveRoom};

use crate::NoMemory;
use jsp_model::Row;
use jsp_table::{Counts, count_one_less, count_one_more, make_room_for_count};

/// Makes room for the counts of the rows' spaces. Each count stays as it was.
pub(crate) fn make_room_for(counts: &mut Counts, rows: &[Row]) -> Result<(), NoMemory>
    ensures ok { OnOk result (HaveRoom counts.new rows.now) }
    ensures same { (space : ℕ) → count_of counts.new space ≡ count_of counts.old space }
{
    'rows: for row in rows {
        make_room_for_count(counts, row.space)?;
    }
    Ok(())
}

/// Counts rows, for whose spaces there is room. Takes no memory.
pub(crate) fn count_all(counts: &mut Counts, rows: &[Row])
    requires room { HaveRoom counts.old rows.now }
    requires fits { (space : ℕ) → count_of counts.old space + length rows.now < 2 ^ 64 }
    ensures { (space : ℕ) → count_of counts.new space ≡ count_of counts.old space + count_in space rows.now }
{
    'rows: for row in rows {
        count_one_more(counts, row.space);
    }
}

/// Takes rows from the counts. Takes no memory.
pub(crate) fn uncount_all(counts: &mut Counts, rows: &[Row])
    ensures { (space : ℕ) → count_of counts.new space ≡ count_of counts.old space - count_in space rows.now }
{
    'rows: for row in rows {
        count_one_less(counts, row.space);
    }
}
