//! Bytes to a writer that may fail, and the line that tells of a fault.
ghost use Rattle.std.specs.Prelude.{◌≡◌, ◌++◌, true, false, codes, decimal};
ghost use Rattle.std.specs.Io.KnownBytes.{Appends};
ghost use Rattle.jsp_script.specs.Faults.{AppendsPart, AppendsSome, line_telling};

use crate::fault::ScriptFault;
use itoa::Buffer;
use std::io::{ErrorKind, Write};

/// Writes the bytes, or where the writer fails a beginning of them, and answers whether it wrote
/// all.
pub(crate) fn write_bytes<W: Write>(out: &mut W, bytes: &[u8]) -> bool
    ensures all { result ≡ true → Appends (W.contents out.old) (W.contents out.new) bytes.now }
    ensures some { AppendsSome (W.contents out.old) (W.contents out.new) bytes.now }
    ensures part { result ≡ false → AppendsPart (W.contents out.old) (W.contents out.new) bytes.now }
{
    let mut rest = bytes;
    'tries: for _ in 0..u64::MAX {
        if rest.is_empty() {
            return true;
        }
        match out.write(rest) {
            Ok(0) => return false,
            Ok(n) => rest = &rest[n..],
            Err(error) if error.kind() == ErrorKind::Interrupted => {}
            Err(_) => return false,
        }
    }
    rest.is_empty()
}

/// Tells of a fault by one line, without asking for memory, and answers whether it told all of it.
pub(crate) fn tell<F: Write>(faults: &mut F, fault: ScriptFault) -> bool
    ensures all { result ≡ true → Appends (F.contents faults.old) (F.contents faults.new) (line_telling fault) }
    ensures some { AppendsSome (F.contents faults.old) (F.contents faults.new) (line_telling fault) }
    ensures part { result ≡ false → AppendsPart (F.contents faults.old) (F.contents faults.new) (line_telling fault) }
{
    match fault {
        ScriptFault::CannotRead => write_bytes(faults, b"jsp: cannot read\n"),
        ScriptFault::TooLong => write_bytes(faults, b"jsp: input too long\n"),
        ScriptFault::NotUnderstood(number) => tell_line(faults, number),
        ScriptFault::NoMemory => write_bytes(faults, b"jsp: out of memory\n"),
        ScriptFault::DoesNotReplay => write_bytes(faults, b"jsp: the history doesn't replay\n"),
        ScriptFault::CannotWrite => write_bytes(faults, b"jsp: cannot write\n"),
    }
}

fn tell_line<F: Write>(faults: &mut F, number: u64) -> bool
    ensures all { result ≡ true → Appends (F.contents faults.old) (F.contents faults.new) (codes "jsp: line " ++ decimal number ++ codes ": not understood\n") }
    ensures some { AppendsSome (F.contents faults.old) (F.contents faults.new) (codes "jsp: line " ++ decimal number ++ codes ": not understood\n") }
    ensures part { result ≡ false → AppendsPart (F.contents faults.old) (F.contents faults.new) (codes "jsp: line " ++ decimal number ++ codes ": not understood\n") }
{
    let mut digits = Buffer::new();
    if !write_bytes(faults, b"jsp: line ") {
        return false;
    }
    if !write_bytes(faults, digits.format(number).as_bytes()) {
        return false;
    }
    write_bytes(faults, b": not understood\n")
}
