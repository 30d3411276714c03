//! Text within the value of a label.
ghost use Rattle.std.specs.Prelude.{◌≡◌, ◌++◌, OnOk};
ghost use Rattle.jsp_status.specs.Label.{in_label, label_escape_of};

use std::alloc::AllocError;

/// Appends a text so that it stays within its quotes, whatever it holds.
#[tactic(auto, unfolding(crate::specs::Label::in_label))]
pub(crate) fn push_in_label(text: &mut Vec<u8>, value: &str) -> Result<(), AllocError>
    ensures { OnOk result (text.new.items ≡ text.old.items ++ in_label value.now) }
{
    'bytes: for byte in value.as_bytes() {
        push_byte(text, *byte)?;
    }
    Ok(())
}

fn push_byte(text: &mut Vec<u8>, byte: u8) -> Result<(), AllocError>
    ensures { OnOk result (text.new.items ≡ text.old.items ++ label_escape_of byte) }
{
    match byte {
        b'\\' => text.extend_from_slice(b"\\\\"),
        b'"' => text.extend_from_slice(b"\\\""),
        b'\n' => text.extend_from_slice(b"\\n"),
        _ => Ok(text.push(byte)?),
    }
}
