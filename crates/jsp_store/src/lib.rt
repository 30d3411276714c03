//! The rows of all spaces as a program keeps them, which contracts see as the list of the
//! definitions.
//!
//! `Rows` has private fields. What there is to do with rows is a call of one of four forms: append,
//! leave some out, change some in place, find. The contract of each says by the plain list, in the
//! order in which rows were written, what it leaves or answers (`specs/Rows.antt` of jsp_sight).
//! Rows are found by hints, and follow a decision when their space applies it (jsp_decided), or
//! each is looked at (jsp_scan): `Keeping` says which, and no contract can tell. What adds and what
//! marks rows is whole or not at all. Only these, what answers in lists and the record of a
//! decision take memory, and the record needs none.
#![tactic(auto)]

mod rows;

pub use rows::{Keeping, Rows};
