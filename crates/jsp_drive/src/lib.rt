//! Runs acts on any house: bytes of clients in, frames of answers out.
//!
//! An act opens or shuts a session, brings a piece of its bytes, reads the clock, or is a settle
//! turn. `drive` makes the house's steps for each act, and then sends what they say. Its contract
//! (`specs/Tie.antt`): the steps are one legal run from the empty state, cut into a part for each
//! act. A part was asked for by the act alone: its own step, one request or fault for each frame
//! that its bytes complete, or the next vote or decision. At its end nothing is due, what it
//! touched is quiet, and all that it said is sent, by session number. A settle turn at which no
//! transaction votes leaves quiet the first space that wasn't. So each session asks by its whole
//! stream, however that was cut into pieces (`specs/Streams.antt`), and is sent the frames of what
//! that run says to it, in order, and all of them. In that run all laws of jsp_laws hold. All this
//! holds for every house that keeps the contract of `House`.
//!
//! A [`Line`] is the one way from a session's bytes to what it asks, in whatever pieces they come
//! (`specs/Line.antt`, and by whole streams `specs/Giving.antt`). `drive` keeps one for each
//! session. A `hello` changes the version of a line, and with it the limit of the frames behind it:
//! a stream is read by a scan over its frames whose state is the version (`specs/Versions.antt`),
//! and has one reading alone (`one_reading`).
#![tactic(auto)]

mod acts;
mod ended;
mod era;
mod hear;
mod line;
mod lines;
mod perform;
mod reading;
mod run_acts;
mod send;
mod serve;
mod stop;

pub use acts::{Act, Driven, Sent};
pub use ended::Ended;
pub use era::Era;
pub use hear::LineInput;
pub use line::{Line, Next};
pub use reading::one_reading;
pub use run_acts::drive;
pub use send::encode;
