//! The lines of a script.
ghost use Rattle.std.specs.Prelude.{◌≤◌, ◌^◌, IfOk, IfErr, length};
ghost use Rattle.jsp_script.specs.Script.{lines_of, AreActsOf, FailsBy};

use crate::fault::ScriptFault;
use crate::script_line::{Line, read_line};
use jsp_drive::Act;
use std::alloc::Global;

/// The acts that a script's lines ask for, in order, or the first line that isn't understood.
pub(crate) fn read_acts(alloc: Global, text: &[u8]) -> Result<Vec<Act>, ScriptFault>
    requires { length text.now ≤ 2 ^ 24 }
    ensures acts { IfOk result (λ acts. AreActsOf (lines_of text.now) acts.items) }
    ensures fault { IfErr result (FailsBy (lines_of text.now)) }
{
    let mut acts = Vec::new(alloc);
    'lines: for (place, line) in text.split(|b| *b == b'\n').enumerate() {
        match read_line(alloc, line)? {
            Line::PassedOver => {}
            Line::Act(act) => acts.push(act)?,
            Line::NotUnderstood => return Err(ScriptFault::NotUnderstood(place as u64 + 1)),
        }
    }
    Ok(acts)
}
