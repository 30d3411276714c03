//! Things by rising number, lists of numbers that hint at where they are, and counts.
//!
//! Contracts see a `Table` as the list of its things. One is found by its number in a binary
//! search; a thing that goes leaves its place empty until more than half of the places are.
//! `Numbers` are rising numbers, and `Hints` lists of them by key. A list of hints never decides
//! what is found: it names at least what it has to, and `first_above` makes the full test on each
//! thing that is named, so that the first which passes is the first of the whole list, as its
//! contract says. Adding to a table is whole or not at all; a hint that stays behind where memory
//! is refused does no harm. Removing takes no memory. `Counts` say how many there are, by key.
#![tactic(auto)]

mod counts;
mod few;
mod hints;
mod many;
mod numbers;
mod room;
mod table;

pub use counts::{
    Counts, count_of, count_one_less, count_one_more, drop_count, make_room_for_count,
};
pub use hints::Hints;
pub use numbers::Numbers;
pub use room::make_room;
pub use std::alloc::AllocError as NoMemory;
pub use table::{Change, Numbering, Table, Test, TryChange};
