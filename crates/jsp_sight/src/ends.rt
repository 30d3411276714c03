//! When a row's lease ends, and which of two ends comes first.
ghost use Rattle.std.specs.Prelude.{◌≡◌};
ghost use Rattle.jsp_sight.specs.Rows.{earlier as earlier_of, row_end};

use jsp_lease::is_before;
use jsp_model::{Item, Rank, Row};

/// The item, unless the other one comes before it.
pub fn earlier(other: Option<Item>, item: Item) -> Option<Item>
    ensures { result ≡ earlier_of other item }
{
    match other {
        None => Some(item),
        Some(other) => Some(if is_before(other, item) { other } else { item }),
    }
}

/// The end of a row's lease.
pub fn row_item(row: &Row) -> Item
    ensures { result ≡ row_end row.now }
{
    Item {
        end: row.end,
        rank: Rank::Entry,
        number: row.number,
    }
}
