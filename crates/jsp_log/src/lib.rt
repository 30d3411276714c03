//! A server's log: what happens to its connections, a line each, with the time.
//!
//! What all threads of a server say to a [`ServerLog`] one thread writes, in words or as JSON, not
//! more than so many lines in a second, so that nobody else waits for whoever reads them. A
//! [`Notice`] is what a line says. No contract speaks of it.
#![tactic(auto)]

mod log;
mod notice;

pub use log::{LogFormat, ServerLog};
pub use notice::{Cause, Notice};
