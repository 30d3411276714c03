//! Text within HTML.
ghost use Rattle.std.specs.Prelude.{◌≡◌, ◌++◌, OnOk};
ghost use Rattle.jsp_status.specs.Escape.{escape_of, escaped};

use std::alloc::AllocError;

/// Appends a text so that a browser shows it and reads no markup in it, whatever it holds.
#[tactic(auto, unfolding(crate::specs::Escape::escaped))]
pub(crate) fn push_escaped(page: &mut Vec<u8>, text: &str) -> Result<(), AllocError>
    ensures { OnOk result (page.new.items ≡ page.old.items ++ escaped text.now) }
{
    'bytes: for byte in text.as_bytes() {
        push_byte(page, *byte)?;
    }
    Ok(())
}

fn push_byte(page: &mut Vec<u8>, byte: u8) -> Result<(), AllocError>
    ensures { OnOk result (page.new.items ≡ page.old.items ++ escape_of byte) }
{
    match byte {
        b'<' => page.extend_from_slice(b"&lt;"),
        b'>' => page.extend_from_slice(b"&gt;"),
        b'&' => page.extend_from_slice(b"&amp;"),
        b'"' => page.extend_from_slice(b"&quot;"),
        b'\'' => page.extend_from_slice(b"&#39;"),
        _ => Ok(page.push(byte)?),
    }
}
