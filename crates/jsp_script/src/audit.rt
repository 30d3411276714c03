//! A run is replayed, and what it says is compared with what was sent.
ghost use Rattle.std.specs.Prelude.{IfErr, IfOk, OnOk};
ghost use Rattle.jsp_model.specs.Lookup.{empty};
ghost use Rattle.jsp_model.specs.Runs.{IsRun, said_in};
ghost use Rattle.jsp_script.specs.Audit.{Has, IsHistory, frames_to, AuditFails, ReplayFails};

use crate::fault::ScriptFault;
use crate::streams::{Streams, streams_said, streams_sent};
use jsp_drive::Sent;
use jsp_machine::{ReplayFault, replay};
use jsp_model::{Config, Step};
use std::alloc::Global;

/// Replays the steps from the empty state of a config, and compares what they say with what was
/// sent, session by session. The seed is for the replay.
pub(crate) fn audit(
    alloc: Global,
    config: &Config,
    steps: &[Step],
    sent: &[Sent],
    seed: u64,
) -> Result<(), ScriptFault>
    ensures history { OnOk result (IsHistory config.now steps.now sent.now) }
    ensures fault { IfErr result (AuditFails config.now steps.now sent.now) }
{
    let said = said_by(alloc, config, steps, seed)?;
    let sent = streams_sent(alloc, sent)?;
    if sent == said {
        Ok(())
    } else {
        Err(ScriptFault::DoesNotReplay)
    }
}

/// The frames of what the steps say to each session.
fn said_by(
    alloc: Global,
    config: &Config,
    steps: &[Step],
    seed: u64,
) -> Result<Streams, ScriptFault>
    ensures run { OnOk result (IsRun (empty config.now) steps.now) }
    ensures frames { IfOk result (λ said. Has said (λ s. frames_to s (said_in (empty config.now) steps.now))) }
    ensures fault { IfErr result (ReplayFails config.now steps.now) }
{
    match replay(alloc, config, steps, seed) {
        Ok(replayed) => match streams_said(alloc, replayed.said.as_slice()) {
            Ok(said) => Ok(said),
            Err(_) => Err(ScriptFault::NoMemory),
        },
        Err(ReplayFault::Illegal(_)) => Err(ScriptFault::DoesNotReplay),
        Err(ReplayFault::NoMemory) => Err(ScriptFault::NoMemory),
    }
}
