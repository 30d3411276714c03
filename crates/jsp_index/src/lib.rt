//! The rows of all spaces, found by lists that hint at where they are.
//!
//! [`HintedRows`] has the calls of a plain list of rows, and contracts see it as that list, in
//! rising order of the rows' numbers. Under it are rows by number, by end, and by keys of their own
//! (their space, their class there, and each value of a field), and lists of numbers by
//! transaction.
//!
//! A list of hints names at least each row that carries its key, and may name others, so it never
//! decides: each row that is named gets the full test, and what is found first is the first of all
//! rows that pass, as each contract says. Keys depend on a seed, so that who doesn't know it can't
//! aim many values at one list. A search takes no memory, and what leaves rows out takes none.
#![tactic(auto)]

mod both;
mod by_number;
mod choosing;
mod counting;
mod deciding;
mod finding;
mod hinted;
mod holding;
mod keyed;
mod learning;
mod listing;
mod own;
mod passing;
mod revising;
mod row_changes;
mod row_tests;
mod searching;
mod seeing;
mod seeking;
mod shape;
mod shapes;
mod starts;
mod stretches;
mod walking;

pub use hinted::HintedRows;
pub use jsp_types::NoMemory;
