//! The history that has ended, compared with what its lines read and wrote.
//!
//! A history is made by many threads, and nothing is trusted of them here. [`close`] feeds the
//! bytes of each line to a new line, and puts what that gives in the place of each request of the
//! history. It replays the steps so made, and compares what they say to each session with the bytes
//! that were written to it. A difference is [`RunFault::Audit`]. A line whose bytes weren't all
//! kept, since memory was short, is compared with nothing; the run is replayed with what the
//! history asks for it.
#![tactic(auto)]

mod asked;
mod closed;
mod closing;
mod leaving;
mod resting;
mod written;

pub use closed::{Closed, LineReport, RunFault};
pub use closing::close;
