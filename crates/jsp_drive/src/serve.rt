//! A session's frames are acted one after another.
ghost use Rattle.std.specs.Prelude.{◌≡◌, None, OnOk, IsTrue};
ghost use Rattle.jsp_model.specs.House.{is_input};
ghost use Rattle.jsp_drive.specs.Line.{IsOpen};
ghost use Rattle.jsp_drive.specs.Calls.{ActsOn, Serves};

use crate::line::{Line, Next};
use crate::stop::no_memory;
use jsp_model::{House, Input, Step};
use jsp_types::NoMemory;
use jsp_wire::Scratch;

/// Acts an input, and what follows from it by itself.
pub(crate) fn act_on<H: House>(
    house: &mut H,
    input: Input,
    steps: &mut Vec<Step>,
) -> Result<(), NoMemory>
    requires input { IsTrue (is_input input) }
    requires bound { H.bound_of house.old ≡ None }
    ensures bound { H.bound_of house.new ≡ H.bound_of house.old }
    ensures acts { OnOk result (ActsOn (H.view house.old) (H.view house.new) steps.old.items steps.new.items input) }
{
    match house.act(input, steps) {
        Ok(()) => Ok(()),
        Err(stopped) => Err(no_memory(stopped)),
    }
}

/// Acts what a session asks by its line, until the session closes.
pub(crate) fn serve<H: House>(
    house: &mut H,
    session: u64,
    line: &mut Line,
    scratch: &mut Scratch,
    steps: &mut Vec<Step>,
) -> Result<(), NoMemory>
    requires line { IsOpen line.old }
    requires bound { H.bound_of house.old ≡ None }
    ensures bound { H.bound_of house.new ≡ H.bound_of house.old }
    ensures serves { OnOk result (Serves session (H.view house.old) (H.view house.new) steps.old.items steps.new.items line.old line.new) }
{
    'frames: while house.is_open(session) {
        match line.next_with(scratch)? {
            Next::Input(input) => act_on(house, input.of_session(session), steps)?,
            Next::More | Next::Closed => return Ok(()),
        }
    }
    Ok(())
}
