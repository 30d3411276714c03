//! A read of a line at rest, which waits until bytes come.
ghost use Rattle.std.specs.Prelude.{◌≡◌, ℕ, List, true, OnErr, OnOk};
ghost use Rattle.std.specs.Io.{ReadsAtMost};
ghost use Rattle.std.specs.Io.KnownBytes.{ReadConsumes};
ghost use Rattle.jsp_line.specs.declared.transcript.Transcript.TheVariants.{NoMemory};
ghost use Rattle.jsp_line.specs.Bytes.{saturated, has_bytes, IsTranscript};

use crate::counted::Counted;
use crate::sealed::Sealed;
use crate::slot::Owner;
use crate::transcript::Transcript;
use std::io::Read;
use std::sync::{OnceLock, Wait};
use std::{io, mem};

/// One read. Meanwhile what the line keeps of earlier ones stands in its slot, if it has one, and
/// is gone afterwards where that was cleared. Once an era is sealed none is kept.
pub(crate) fn read_at_rest<R: Read, T: Wait>(
    rt: &T,
    reader: &mut Counted<R>,
    transcript: &mut Transcript,
    owner: &mut Option<Owner<'_>>,
    seal: &OnceLock<Sealed>,
    buf: &mut [u8],
) -> io::Result<usize>
    ensures bound { ReadsAtMost result buf.new }
    ensures bytes { ReadConsumes (R.remaining reader.old.inner) (R.remaining reader.new.inner) result buf.new }
    ensures ok { OnOk result (reader.new.failures ≡ reader.old.failures) }
    ensures err { OnErr result (reader.new.failures ≡ saturated reader.old.failures) }
    ensures counted { reader.new.reads ≡ saturated reader.old.reads }
    ensures kept { (all : List ℕ) → IsTranscript transcript.old all → IsTranscript transcript.new all }
    ensures room { transcript.new ≡ NoMemory → transcript.old ≡ NoMemory }
{
    if let Some(sealed) = seal.get() {
        transcript.forget(*sealed);
    }
    match owner {
        Some(owner) if transcript.has_bytes() => {
            read_beside_slot(rt, reader, transcript, owner, seal, buf)
        }
        _ => reader.read_once(buf),
    }
}

// The same, of a line that has a slot and keeps its bytes.
fn read_beside_slot<R: Read, T: Wait>(
    rt: &T,
    reader: &mut Counted<R>,
    transcript: &mut Transcript,
    owner: &mut Owner<'_>,
    seal: &OnceLock<Sealed>,
    buf: &mut [u8],
) -> io::Result<usize>
    requires { has_bytes transcript.old ≡ true }
    ensures bound { ReadsAtMost result buf.new }
    ensures bytes { ReadConsumes (R.remaining reader.old.inner) (R.remaining reader.new.inner) result buf.new }
    ensures ok { OnOk result (reader.new.failures ≡ reader.old.failures) }
    ensures err { OnErr result (reader.new.failures ≡ saturated reader.old.failures) }
    ensures counted { reader.new.reads ≡ saturated reader.old.reads }
    ensures kept { (all : List ℕ) → IsTranscript transcript.old all → IsTranscript transcript.new all }
    ensures room { transcript.new ≡ NoMemory → transcript.old ≡ NoMemory }
{
    let whole = mem::replace(transcript, Transcript::NoMemory);
    if let Err(back) = owner.put(whole) {
        // Somebody is just clearing the slot.
        *transcript = back;
        return reader.read_once(buf);
    }
    if let Some(sealed) = seal.get() {
        // Whoever clears it may have come before.
        drop(owner.take(rt));
        *transcript = Transcript::Sealed(*sealed);
        return reader.read_once(buf);
    }
    let result = reader.read_once(buf);
    *transcript = owner.take(rt);
    result
}
