//! Writing a frame.
ghost use Rattle.std.specs.Prelude.{◌≡◌, ◌<◌, ◌^◌, length, IfOk};
ghost use Rattle.jsp_frame.specs.Stream.{frame_of};

use crate::NoMemory;
use std::alloc::Global;

/// The frame of a payload: its length in 4 bytes, big-endian, and then its bytes. The length has to
/// fit those 4 bytes, and may be 0.
pub fn frame(alloc: Global, payload: &[u8]) -> Result<Vec<u8>, NoMemory>
    requires { length payload.now < 2 ^ 32 }
    ensures { IfOk result (λ frame. frame.items ≡ frame_of payload.now) }
{
    let mut frame = Vec::with_capacity(alloc, 4 + payload.len())?;
    frame.extend_from_slice(&(payload.len() as u32).to_be_bytes())?;
    frame.extend_from_slice(payload)?;
    Ok(frame)
}
