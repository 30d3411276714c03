//! Rows in a plain list, each of which every call looks at.
//!
//! [`ScannedRows`] has the calls of the program's rows (jsp_store), and contracts see it as the
//! list that it is. It is what the others are held against, what is left where numbers don't rise,
//! and what rows are copied to where a call goes over all of them anyhow. What adds and what marks
//! rows is whole or not at all; only these, and what answers in lists, take memory.
#![tactic(auto)]

mod scanned;

pub use scanned::{ScannedRows, apply};
