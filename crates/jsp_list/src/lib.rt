//! A list that finds what it is asked for.
//!
//! [`IndexedList`] keeps things by hints (jsp_keyed) where their numbers rise, as those of the
//! machine do, and else looks at each; contracts see the plain list, so its users needn't know
//! which. What there is to do with it is a call of one of four forms: add one, leave some out,
//! change some in place, find. The contract of each says by the plain list what it leaves or
//! answers. Adding is whole or not at all; only that, what changes a thing by more than it has room
//! for, and what answers in a list take memory.
#![tactic(auto)]

mod indexed_list;
mod numbered;
mod reading;
mod scanned;

pub use indexed_list::IndexedList;
pub use jsp_types::NoMemory;
pub use reading::Reading;
