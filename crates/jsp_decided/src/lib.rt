//! The rows of all spaces with what is recorded and they don't show yet.
//!
//! Where a transaction ends, its rows aren't touched: that it ended, and how, is recorded for each
//! space where it holds rows; so is that a space was reset. [`DecidedRows`] are the rows after all
//! that is recorded. So each contract speaks of the list that a plain store would have (`rows_of`),
//! and no caller can tell when a space applies it: [`DecidedRows::apply_first`] leaves that list as
//! it is, and one record less is pending. A space of which nothing is recorded is searched by its
//! hints (jsp_index); of one that was reset no row is left, and in others each row is looked at.
#![tactic(auto)]

mod after;
mod decided;
mod finding;
mod pending;
mod recorded;
mod scanning;
mod tests;

pub use decided::DecidedRows;
