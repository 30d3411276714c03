//! The frames of a whole stream.
ghost use Rattle.std.specs.Prelude.{ℕ, ◌<◌, ◌^◌, List, slice_index, IfOk};
ghost use Rattle.jsp_frame.specs.Reading.{IsReading, HasReading, HasOneReading, TakesFrames, payloads_of, joined_bytes};
ghost use Rattle.jsp_frame.specs.Unframer.{IsOpen};

use crate::NoMemory;
use crate::unframer::{Cut, Unframer};
use std::alloc::Global;

/// The payloads of a stream's frames, and whether a length past the limit follows them. Else less
/// than a frame does.
#[derive(Debug, Drop)]
pub struct Reading {
    pub payloads: Vec<Vec<u8>>,
    pub too_long: bool,
}

/// The reading of the stream that the pieces join to.
pub fn frames_of(alloc: Global, limit: u32, pieces: &[Vec<u8>]) -> Result<Reading, NoMemory>
    ensures { IfOk result (λ reading. IsReading limit (joined_bytes pieces.now)
        (payloads_of reading.payloads.items) reading.too_long) }
{
    let mut unframer = Unframer::new(alloc, limit);
    let mut payloads = Vec::new(alloc);
    for piece in pieces {
        unframer.feed(piece)?;
        if take_frames(&mut unframer, &mut payloads)? {
            return Ok(Reading {
                payloads,
                too_long: true,
            });
        }
    }
    Ok(Reading {
        payloads,
        too_long: false,
    })
}

/// Takes every frame that is there, and answers whether a length past the limit follows.
fn take_frames(unframer: &mut Unframer, payloads: &mut Vec<Vec<u8>>) -> Result<bool, NoMemory>
    requires { IsOpen unframer.old }
    ensures { IfOk result (λ too_long. TakesFrames unframer.old (payloads_of payloads.old.items)
        too_long unframer.new (payloads_of payloads.new.items)) }
{
    'frames: loop {
        match unframer.next()? {
            Cut::Frame(payload) => payloads.push(payload)?,
            Cut::More => return Ok(false),
            Cut::TooLong => return Ok(true),
        }
    }
}

/// The law that a stream of bytes has one reading under a limit: there are payloads and a rest that
/// it is made of, and no others. So how it was cut into pieces does not matter.
pub fn one_reading()
    ensures some { (limit : ℕ) (stream : List ℕ) → ((i : ℕ) → slice_index stream i < 256)
        → HasReading limit stream }
    ensures only { (limit : ℕ) (stream : List ℕ) → limit < 2 ^ 32 → HasOneReading limit stream }
{}
