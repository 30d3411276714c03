//! The lines of open sessions: their versions, and their bytes that are in no frame yet.
ghost use Rattle.std.specs.Prelude.{◌≡◌, OnOk};
ghost use Rattle.jsp_drive.specs.Line.{IsOpen};
ghost use Rattle.jsp_drive.specs.Lines.{AreLines, SetsLine, held, nothing, pending};

use crate::line::Line;
use jsp_types::NoMemory;
use std::alloc::Global;
use std::collections::HashMap;

/// The lines by session. A session that has none has nothing pending.
pub(crate) type Lines = HashMap<u64, Line>;

/// Takes a session's line out, or makes its first.
pub(crate) fn take_line(alloc: Global, lines: &mut Lines, session: u64) -> Line
    requires { AreLines lines.old }
    ensures line { IsOpen result }
    ensures held { held result ≡ pending lines.old session }
    ensures lines { SetsLine session nothing lines.old lines.new }
{
    match lines.remove(&session) {
        Some(line) => line,
        None => Line::new(alloc),
    }
}

/// Puts a session's line back.
pub(crate) fn put_line(lines: &mut Lines, session: u64, line: Line) -> Result<(), NoMemory>
    requires lines { AreLines lines.old }
    requires line { IsOpen line }
    ensures { OnOk result (SetsLine session (held line) lines.old lines.new) }
{
    lines.insert(session, line)?;
    Ok(())
}

/// Drops a session's line, and what is pending there.
pub(crate) fn drop_line(lines: &mut Lines, session: u64)
    requires { AreLines lines.old }
    ensures { SetsLine session nothing lines.old lines.new }
{
    lines.remove(&session);
}
