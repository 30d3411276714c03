//! What has an end.
ghost use Rattle.std.specs.Prelude.{◌≡◌};
ghost use Rattle.jsp_lease.specs.Due.{is_before as comes_before, is_item as is_same_item, rank_number as place_of_rank};

/// What kind of thing an item is, in the order in which items of one end come. The order is this
/// profile's own.
#[derive(Clone, Copy, Debug, PartialEq, Eq)]
pub enum Rank {
    /// A row.
    Entry,
    /// A registration for events.
    Registration,
    Transaction,
    /// A request that waits.
    Blocked,
    MatchSet,
}

/// Something that has an end, in milliseconds of the house's clock. No two items of a
/// house have the same number, whatever their ranks.
#[derive(Clone, Copy, Debug, PartialEq, Eq)]
pub struct Item {
    pub end: u64,
    pub rank: Rank,
    pub number: u64,
}

/// Whether the first item comes before the second: by end, then rank, then number. The order is
/// this profile's own.
pub fn is_before(a: Item, b: Item) -> bool
    ensures { result ≡ comes_before a b }
{
    if a.end != b.end {
        return a.end < b.end;
    }
    let rank = rank_number(a.rank);
    let other = rank_number(b.rank);
    if rank != other {
        return rank < other;
    }
    a.number < b.number
}

/// Whether both are the same item.
pub fn is_item(a: Item, b: Item) -> bool
    ensures { result ≡ is_same_item a b }
{
    a.end == b.end && rank_number(a.rank) == rank_number(b.rank) && a.number == b.number
}

/// The place of a rank among those of one end, from 0 on.
fn rank_number(rank: Rank) -> u8
    ensures { result ≡ place_of_rank rank }
{
    match rank {
        Rank::Entry => 0,
        Rank::Registration => 1,
        Rank::Transaction => 2,
        Rank::Blocked => 3,
        Rank::MatchSet => 4,
    }
}
