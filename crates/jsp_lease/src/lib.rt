//! The ends of leased things, with the least due one found at once.
//!
//! Whatever ends by itself is an [`Item`]: its end, its rank and its number. [`Leases`] holds the
//! items of a house, each with the end that its lease was granted by the rules of Jini Distributed
//! Leasing, in this profile's own numbers (`granted`), and tells which is due: its end has come,
//! and it is the first by end, then rank, then number. Contracts see the list of the items in
//! rising order of their numbers and the last number (`specs/Leases`): an item that is placed is
//! appended, another end changes one, a cancel leaves one out, and what is due is the first item of
//! those that are over (`specs/Due`). A refused call leaves all as it was. Only what adds takes
//! memory, and room can be made before. Finding what is due takes one look, and every other call
//! but `reserve` a number of looks that grows as the logarithm of the number of items, once the
//! moves to more memory are spread over all calls. Costs aren't proved.
#![tactic(auto)]

mod fault;
mod granting;
mod item;
mod leases;
mod tournament;

pub use fault::LeaseFault;
pub use granting::{granted, ms_of};
pub use item::{Item, Rank, is_before, is_item};
pub use leases::Leases;
pub use std::alloc::AllocError as NoMemory;
