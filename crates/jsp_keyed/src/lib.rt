//! Things found by number, by what they are asked for, and by end.
//!
//! [`Keyed`] is a list of things in rising order of their numbers, and contracts see it as that
//! list. What is kept says by [`Keying`] under which keys it is found and when it ends. Under each
//! key stands a list of numbers, and the ends stand in leases.
//!
//! A list of numbers names at least each thing that has its key, and may name others, so it never
//! decides: each thing that is named gets the full test, and what is found first is the first of
//! all that pass, as each contract says. What adds is whole or not at all, and so is a change that
//! takes memory. Besides these, `to_items` and `passing` take some for what they answer, and
//! nothing else takes any.
#![tactic(auto)]

mod adding;
mod appending;
mod changing_all;
mod counting;
mod ends;
mod finding;
mod in_place;
mod keyed;
mod keying;
mod listing;
mod lists;
mod matching;
mod naming;
mod passing;
mod several;
mod slots;
mod under;

pub use adding::item;
pub use finding::lesser;
pub use jsp_types::NoMemory;
pub use keyed::Keyed;
pub use keying::{Key, Keying, Keys};
pub use slots::sooner;
