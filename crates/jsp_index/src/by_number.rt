//! The keys of rows.
ghost use Rattle.std.specs.Prelude.{◌≡◌, map, slice_index, IfOk};
ghost use Rattle.jsp_lease.specs.declared.item.Rank.TheVariants.{Entry as OfRank};
ghost use Rattle.jsp_index.specs.Keys.{value_key, row_keys};

use crate::NoMemory;
use jsp_keyed::{Keyed, Keying};
use jsp_keys::{key_of_class, key_of_field, key_of_space};
use jsp_model::{Rank, Row};
use jsp_table::Numbering;
use jsp_types::{Text, Value};

/// Rows go by their numbers. Each is named under its space, its class there, and each value of a
/// field that isn't null.
#[derive(Drop)]
pub(crate) struct ByNumber {}

/// Rows, found by number, by key and by end.
pub(crate) type RowsByNumber = Keyed<Row, ByNumber>;

impl Numbering<Row> for ByNumber {
    ghost number_of = { λ r. r.number };

    fn number(row: &Row) -> u64 {
        row.number
    }
}

impl Keying<Row> for ByNumber {
    ghost keys_of = { row_keys };

    ghost end_of = { λ r. r.end };

    ghost rank_of = { OfRank };

    fn count(_seed: u64, row: &Row) -> usize {
        row.entry.fields.as_slice().len() + 2
    }

    fn key(seed: u64, row: &Row, place: usize) -> u64 {
        match place {
            0 => key_of_space(seed, row.space),
            1 => key_of_class(seed, row.space, row.entry.class.as_str()),
            _ => key_of_place(seed, row, place - 2),
        }
    }

    fn end(row: &Row) -> u64 {
        row.end
    }

    fn rank() -> Rank {
        Rank::Entry
    }

    fn copy(row: &Row) -> Result<Row, NoMemory> {
        copy_of(row)
    }
}

/// A copy of a row.
pub(crate) fn copy_of(row: &Row) -> Result<Row, NoMemory>
    ensures { IfOk result (λ c. c ≡ row.now) }
{
    row.clone()
}

/// The key of the value at this place, and 0 past the last.
fn key_of_place(seed: u64, row: &Row, place: usize) -> u64
    ensures { result ≡ slice_index (map (value_key seed row.now.space) row.now.entry.fields) place }
{
    match row.entry.fields.as_slice().get(place) {
        Some(field) => key_of_value(seed, row.space, field),
        None => 0,
    }
}

fn key_of_value(seed: u64, space: u64, field: &(Text, Value)) -> u64
    ensures { result ≡ value_key seed space field.now }
{
    if field.1.is_null() {
        key_of_space(seed, space)
    } else {
        key_of_field(seed, space, field.0.as_str(), &field.1)
    }
}
