//! Cutting one frame off the front of a buffer.
ghost use Rattle.std.specs.Prelude.{◌≡◌, ℕ, ◌<◌, IfOk, OnOk, IsOk, IsTrue, slice_index, ◌↔◌};
ghost use Rattle.jsp_frame.specs.Codec.{CutsFrames};
ghost use Rattle.jsp_frame.specs.Stream.{IsUnfinished, HasNoFrame};
ghost use Rattle.jsp_frame.specs.Unframer.{CutsFront};

use crate::{Cut, NoMemory};
use bytes::BytesMut;
use std::io::ErrorKind;
use tokio_util::codec::{Decoder, LengthDelimitedCodec};

/// A codec that cuts frames of at most `limit` bytes, each after its length. It takes no memory.
pub(crate) fn line_codec(limit: u32) -> LengthDelimitedCodec
    ensures { CutsFrames result limit }
{
    LengthDelimitedCodec::builder()
        .max_frame_length(limit as usize)
        .new_codec()
}

/// The next frame of the buffer, taken out of it, or why there is none. It takes memory only for a
/// frame. After `NoMemory` the buffer may have lost one, and the codec may stand within it.
pub(crate) fn cut_front(
    buffer: &mut BytesMut,
    codec: &mut LengthDelimitedCodec,
    limit: u32,
) -> Result<Cut, NoMemory>
    requires { CutsFrames codec.old limit }
    ensures cut { IfOk result (λ cut. CutsFront limit buffer.old.items cut buffer.new.items) }
    ensures no_frame { HasNoFrame limit buffer.old.items → IsOk result }
    ensures codec { OnOk result (CutsFrames codec.new limit) }
{
    // The codec promises little once it has asked for more bytes, so it is asked only for an answer
    // that is there, and then stands before a frame again.
    if is_unfinished(buffer.as_slice(), limit) {
        return Ok(Cut::More);
    }
    match codec.decode(buffer) {
        // The payload gives up its share of the block, so that the buffer can use all of it again.
        Ok(Some(payload)) => Ok(Cut::Frame(payload.into_vec()?)),
        Ok(None) => unreachable!(),
        Err(e) => match e.kind() {
            ErrorKind::InvalidData => Ok(Cut::TooLong),
            _ => Err(NoMemory),
        },
    }
}

/// Whether it takes more bytes to know the first frame, or that its length is past the limit.
fn is_unfinished(bytes: &[u8], limit: u32) -> bool
    ensures value { IsTrue result ↔ IsUnfinished limit bytes.now }
    // What the type says, for a caller that reads a buffer.
    ensures bytes { (i : ℕ) → slice_index bytes.now i < 256 }
{
    let Some((head, body)) = bytes.split_first_chunk::<4>() else {
        return true;
    };
    let length = u32::from_be_bytes(*head);
    length <= limit && body.len() < length as usize
}
