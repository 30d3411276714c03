//! Runs the acts.
ghost use Rattle.std.specs.Prelude.{◌≡◌, ℕ, None, flat_map, IfOk};
ghost use Rattle.jsp_model.specs.Lookup.{empty};
ghost use Rattle.jsp_model.specs.Runs.{IsRun, said_to};
ghost use Rattle.jsp_laws.specs.Runs.{LawsOfRuns};
ghost use Rattle.jsp_drive.specs.Heard.{framed};
ghost use Rattle.jsp_drive.specs.Streams.{AskByStreams};
ghost use Rattle.jsp_drive.specs.Tie.{IsTied, bytes_to};

use crate::acts::{Act, Driven};
use crate::perform::perform;
use crate::send::send_all;
use jsp_model::{Config, House};
use jsp_types::NoMemory;
use jsp_wire::Scratch;
use std::alloc::Global;
use std::collections::HashMap;

/// Runs acts on an empty house of this config, whose log has no bound. After each act all answers
/// are handed out, by session number.
///
/// `NoMemory` is answered only where a growth was refused, here or in the house; the house is gone
/// then, and so is what was made.
pub fn drive<H: House>(
    alloc: Global,
    house: H,
    config: &Config,
    acts: &[Act],
) -> Result<Driven, NoMemory>
    requires view { H.view house ≡ empty config.now }
    requires bound { H.bound_of house ≡ None }
    // The steps are one legal run from the empty state.
    ensures run { IfOk result (λ d. IsRun (empty config.now) d.steps.items) }
    // So all laws of runs hold in them: no row is given to two takes, unless the first was aborted;
    // each transaction ends once, and in all its spaces; events are numbered 1, 2, 3; and so on.
    ensures laws { IfOk result (λ d. LawsOfRuns (empty config.now) d.steps.items) }
    // They are cut into a part for each act, which belongs to it, and so is what is sent.
    ensures tied { IfOk result (λ d. IsTied config.now acts.now d.steps.items d.sent.items) }
    // Each session asks by its whole stream, in whatever pieces it came.
    ensures streams { IfOk result (λ d. AskByStreams config.now acts.now d.steps.items d.sent.items) }
    // The bytes sent to each session are the frames of what the run says to it.
    ensures bytes { IfOk result (λ d. (s : ℕ) → bytes_to s d.sent.items ≡ flat_map framed (said_to s (empty config.now) d.steps.items)) }
{
    drive_all(alloc, house, config, acts)
}

fn drive_all<H: House>(
    alloc: Global,
    house: H,
    config: &Config,
    acts: &[Act],
) -> Result<Driven, NoMemory>
    requires view { H.view house ≡ empty config.now }
    requires bound { H.bound_of house ≡ None }
    ensures { IfOk result (λ d. IsTied config.now acts.now d.steps.items d.sent.items) }
{
    let mut house = house;
    let mut lines = HashMap::new(alloc);
    let mut scratch = Scratch::new(alloc);
    let mut steps = Vec::new(alloc);
    let mut sent = Vec::new(alloc);
    for (n, act) in acts.iter().enumerate() {
        perform(alloc, &mut house, &mut lines, &mut scratch, act, &mut steps)?;
        send_all(alloc, &mut house, n, &mut steps, &mut sent)?;
    }
    Ok(Driven { sent, steps })
}
