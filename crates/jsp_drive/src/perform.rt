//! Makes the steps that an act asks for.
ghost use Rattle.std.specs.Prelude.{◌≡◌, None, OnOk};
ghost use Rattle.jsp_drive.specs.Lines.{AreLines};
ghost use Rattle.jsp_drive.specs.Calls.{MakesAct, Turns};
ghost use Rattle.jsp_drive.specs.declared.acts.Act.TheVariants as act_of;

use crate::acts::Act;
use crate::lines::{Lines, drop_line, put_line, take_line};
use crate::serve::{act_on, serve};
use crate::stop::no_memory;
use jsp_model::{House, Input, Step};
use jsp_types::NoMemory;
use jsp_wire::Scratch;
use std::alloc::Global;

/// Makes the steps of an act. What they say isn't handed out yet.
pub(crate) fn perform<H: House>(
    alloc: Global,
    house: &mut H,
    lines: &mut Lines,
    scratch: &mut Scratch,
    act: &Act,
    steps: &mut Vec<Step>,
) -> Result<(), NoMemory>
    requires lines { AreLines lines.old }
    requires bound { H.bound_of house.old ≡ None }
    ensures bound { H.bound_of house.new ≡ H.bound_of house.old }
    ensures performs { OnOk result (MakesAct act.now (H.view house.old) (H.view house.new) steps.old.items steps.new.items lines.old lines.new) }
{
    match act {
        Act::Open { session } => act_on(house, Input::Open { session: *session }, steps),
        Act::Piece { session, bytes } => piece(
            alloc, house, lines, scratch, *session, bytes, steps,
        ),
        Act::Shut { session } => shut(house, lines, *session, steps),
        Act::Clock { time } => act_on(house, Input::Clock { time: *time }, steps),
        Act::Settle => settle(house, steps),
    }
}

fn piece<H: House>(
    alloc: Global,
    house: &mut H,
    lines: &mut Lines,
    scratch: &mut Scratch,
    session: u64,
    bytes: &Vec<u8>,
    steps: &mut Vec<Step>,
) -> Result<(), NoMemory>
    requires lines { AreLines lines.old }
    requires bound { H.bound_of house.old ≡ None }
    ensures bound { H.bound_of house.new ≡ H.bound_of house.old }
    ensures performs { OnOk result (MakesAct (act_of.Piece session bytes.now) (H.view house.old) (H.view house.new) steps.old.items steps.new.items lines.old lines.new) }
{
    if !house.is_open(session) {
        return Ok(());
    }
    let mut line = take_line(alloc, lines, session);
    line.feed(bytes.as_slice())?;
    serve(house, session, &mut line, scratch, steps)?;
    if house.is_open(session) {
        put_line(lines, session, line)?;
    }
    Ok(())
}

fn shut<H: House>(
    house: &mut H,
    lines: &mut Lines,
    session: u64,
    steps: &mut Vec<Step>,
) -> Result<(), NoMemory>
    requires { AreLines lines.old }
    ensures bound { H.bound_of house.new ≡ H.bound_of house.old }
    ensures performs { OnOk result (MakesAct (act_of.Shut session) (H.view house.old) (H.view house.new) steps.old.items steps.new.items lines.old lines.new) }
{
    steps.reserve(1)?;
    drop_line(lines, session);
    house.shut(session, steps);
    Ok(())
}

fn settle<H: House>(house: &mut H, steps: &mut Vec<Step>) -> Result<(), NoMemory>
    requires bound { H.bound_of house.old ≡ None }
    ensures bound { H.bound_of house.new ≡ H.bound_of house.old }
    ensures turns { OnOk result (Turns (H.view house.old) (H.view house.new) steps.old.items steps.new.items) }
{
    match house.settle(steps) {
        Ok(_) => Ok(()),
        Err(stopped) => Err(no_memory(stopped)),
    }
}
