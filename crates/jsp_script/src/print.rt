//! What was sent, as lines for a reader.
ghost use Rattle.std.specs.Prelude.{◌≡◌, ◌++◌, drop, flat_map, IfOk, OnOk};
ghost use Rattle.jsp_script.specs.Print.{line_for};

use itoa::Buffer;
use jsp_drive::Sent;
use jsp_types::NoMemory;
use std::alloc::Global;

/// The bytes of a frame before its payload.
const HEADER: usize = 4;

/// A line for each frame: its session's number, a blank, and its payload.
pub(crate) fn printed(alloc: Global, sent: &[Sent]) -> Result<Vec<u8>, NoMemory>
    ensures { IfOk result (λ text. text.items ≡ flat_map line_for sent.now) }
{
    let mut text = Vec::new(alloc);
    'sent: for sent in sent {
        print(&mut text, sent)?;
    }
    Ok(text)
}

fn print(text: &mut Vec<u8>, sent: &Sent) -> Result<(), NoMemory>
    ensures { OnOk result (text.new.items ≡ text.old.items ++ line_for sent.now) }
{
    let mut digits = Buffer::new();
    text.extend_from_slice(digits.format(sent.session).as_bytes())?;
    text.push(b' ')?;
    text.extend_from_slice(payload(sent.frame.as_slice()))?;
    text.push(b'\n')?;
    Ok(())
}

fn payload(frame: &[u8]) -> &[u8]
    ensures { result.now ≡ drop 4 frame.now }
{
    match frame.get(HEADER..) {
        Some(payload) => payload,
        None => &[],
    }
}
