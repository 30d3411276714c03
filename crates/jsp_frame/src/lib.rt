//! Frames of a byte stream, however it is cut into pieces.
//!
//! A frame is the length of its payload in 4 bytes, big-endian, and the payload; `frame` makes one.
//! An [`Unframer`] takes a stream piece by piece and cuts the payloads out of it, each within a
//! limit. This format is the profile's own: the JavaSpaces standard leaves the bytes between
//! parties open. What cuts them is `tokio_util`'s codec for frames that begin with their length,
//! over a `bytes` buffer. It is asked only where a whole frame or a length past the limit is there.
//!
//! The contracts speak of the whole stream. What is in no frame yet is the rest: `feed` appends to
//! it, and `next` cuts the frame that it begins with. `More` says that the rest is less than a
//! frame, and `TooLong` that it begins with a length past the limit. So the payloads so far and the
//! rest are the reading of all pieces joined, as `frames_of` states, and a stream has one reading
//! alone, as
//! `one_reading` states. After a refused growth each `feed` and `next` answers [`NoMemory`].
#![tactic(auto)]

mod encode;
mod front;
mod reading;
mod unframer;

pub use encode::frame;
pub use reading::{Reading, frames_of, one_reading};
pub use std::alloc::AllocError as NoMemory;
pub use unframer::{Cut, Unframer};
