//! Many lines at once over one house.
//!
//! `run_house` serves the lines of a [`Door`] over one history (jsp_line), each by threads of its
//! own, settles meanwhile, and closes the history once all have ended.
#![tactic(auto)]

mod door;
mod end;
mod lines;
mod served;
mod threads;

pub use door::{Arrival, Door};
pub use jsp_closing::{Closed, LineReport, RunFault};
pub use jsp_drive::Ended;
pub use jsp_line::{
    AnswerWriter, Clock, Counted, Counts, Floor, Gate, Hangup, Health, Left, LineDone, LineEnd,
    ReadDone, Shared, ShutFor, SpaceCounts, Start, Transcript, WriteDone,
};
pub use threads::{Bounds, run_house};
