//! One line over a history that many lines share: from its bytes to its answers.
//!
//! A [`Floor`] is one lock round a `Kept`. Each line has a thread that reads it and a second one
//! that waits for what others cause. The thread that reads acts each frame and hands out the
//! answers to it in one hold of the lock, and writes them itself. What a line has taken and written
//! stands behind a lock of the line's own, [`AnswerWriter`], whose type keeps that the bytes
//! written are the frames of the answers taken. The house's lock is held in no read, no write, no
//! gate and no wait.
#![tactic(auto)]

mod answer;
mod answer_writer;
mod counted;
mod counts;
mod floor;
mod gate;
mod hangup;
mod line_end;
mod locked;
mod notes;
mod patience;
mod read;
mod resting;
mod sealed;
mod serve_line;
mod settle;
mod shared;
mod slot;
mod threads;
mod transcript;

pub use answer_writer::{AnswerWriter, Health, Start, WriteDone};
pub use counted::Counted;
pub use counts::Counts;
pub use floor::Floor;
pub use gate::{Clock, Gate};
pub use hangup::Hangup;
pub use jsp_kept::{SpaceCounts, TransactionCounts};
pub use line_end::LineEnd;
pub use locked::Left;
pub use notes::ShutFor;
pub use read::ReadDone;
pub use sealed::Sealed;
pub use serve_line::LineDone;
pub use shared::Shared;
pub use threads::start;
pub use transcript::Transcript;
