//! The end of a history.
ghost use Rattle.std.specs.Prelude.{◌≡◌, ◌≢◌, List, true, false, length, filter, map, IfOk, IfErr, IsPermutation, OnOk};
ghost use Rattle.jsp_model.specs.declared.step.Step.{Step};
ghost use Rattle.jsp_closing.specs.declared.closed.LineReport.{LineReport};
ghost use Rattle.jsp_closing.specs.Faults.{Denies};
ghost use Rattle.jsp_closing.specs.Within.{AreTold};
ghost use Rattle.jsp_closing.specs.Asking.{HaveGiven, unasked_in};
ghost use Rattle.jsp_closing.specs.Checked.{AreRight};
ghost use Rattle.jsp_closing.specs.Closing.{Closes, IsNotWhole, IsOf, IsWhole, RestsAfter, opens};

use crate::asked::{ask_again, feed_lines};
use crate::closed::{Closed, Fault, LineReport, RunFault};
use crate::leaving::check_lines;
use crate::resting::is_at_rest;
use crate::written::check_written;
use jsp_drive::{Era, Line};
use jsp_machine::{Replayed, replay};
use jsp_model::{Config, Step};
use std::alloc::Global;

/// The history that has ended, which its lines show to be right where no era was sealed. They may
/// come in any order, and there is one for each session. What those ask that aren't whole is taken
/// as the history has it. The seed is for the replay, and whoever wrote to the lines shouldn't know
/// it.
///
/// The answer is `Audit` only where they don't: no steps that are the history's but for what is
/// asked in them, and no order of the lines, are whole. It is `NoMemory` where a growth was
/// refused.
pub fn close(
    alloc: Global,
    config: &Config,
    era: Era,
    lines: Vec<LineReport>,
    seed: u64,
) -> Result<Closed, RunFault>
    requires { RestsAfter config.now era }
    ensures ok { IfOk result (Closes config.now) }
    ensures same { IfOk result (IsOf era lines.items) }
    ensures err { IfErr result (IsNotWhole config.now era lines.items) }
{
    let Era { steps, is_sealed } = era;
    if is_sealed {
        return Ok(Closed::Sealed { steps });
    }
    match close_whole(alloc, config, steps, lines, seed) {
        Ok(Whole { steps, lines }) => Ok(Closed::Whole { steps, lines }),
        Err(Fault::NoMemory) => Err(RunFault::NoMemory),
        Err(Fault::Differs) => Err(RunFault::Audit),
    }
}

// A whole history, with what is asked in it as the lines say it that are whole, and all by session.
#[derive(Drop)]
pub(crate) struct Whole {
    pub(crate) steps: Vec<Step>,
    pub(crate) lines: Vec<LineReport>,
}

pub(crate) fn close_whole(
    alloc: Global,
    config: &Config,
    steps: Vec<Step>,
    reports: Vec<LineReport>,
    seed: u64,
) -> Result<Whole, Fault>
    ensures whole { IfOk result (λ whole. IsWhole config.now whole.steps.items whole.lines.items) }
    ensures lines { IfOk result (λ whole. IsPermutation reports.items whole.lines.items) }
    ensures steps { IfOk result (λ whole. map (unasked_in whole.lines.items) whole.steps.items ≡ map (unasked_in whole.lines.items) steps.items) }
    ensures err { IfErr result (λ e. (history : List Step) (lines : List LineReport) → IsPermutation reports.items lines
        → map (unasked_in lines) history ≡ map (unasked_in lines) steps.items → Denies e (IsWhole config.now history lines)) }
{
    let mut reports = reports;
    reports.sort_by_key(|report| report.session)?;
    let mut lines = feed_lines(alloc, reports.as_slice())?;
    let steps = ask_again(alloc, reports.as_slice(), &mut lines, steps)?;
    check_whole(
        alloc,
        config,
        steps.as_slice(),
        reports.as_slice(),
        &mut lines,
        seed,
    )?;
    Ok(Whole {
        steps,
        lines: reports,
    })
}

// Replays the steps, and compares them with the lines. Those that are whole have given what is
// asked.
fn check_whole(
    alloc: Global,
    config: &Config,
    steps: &[Step],
    reports: &[LineReport],
    lines: &mut Vec<Line>,
    seed: u64,
) -> Result<(), Fault>
    requires { HaveGiven reports.now lines.old.items steps.now }
    ensures ok { OnOk result (IsWhole config.now steps.now reports.now) }
    ensures err { IfErr result (λ e. Denies e (IsWhole config.now steps.now reports.now)) }
{
    let replayed = replay(alloc, config, steps, seed)?;
    check_replayed(alloc, &replayed, steps, reports, lines)
}

fn check_replayed(
    alloc: Global,
    replayed: &Replayed,
    steps: &[Step],
    reports: &[LineReport],
    lines: &mut Vec<Line>,
) -> Result<(), Fault>
    requires { HaveGiven reports.now lines.old.items steps.now }
    ensures ok { OnOk result (AreRight steps.now reports.now replayed.now.image replayed.now.said.items) }
    ensures err { IfErr result (λ e. AreTold (length reports.now) replayed.now.said.items
        → Denies e (AreRight steps.now reports.now replayed.now.image replayed.now.said.items)) }
{
    let state = replayed.image.state();
    if !is_at_rest(&replayed.image) || state.last_session != reports.len() as u64 {
        return Err(Fault::Differs);
    }
    check_lines(alloc, state, steps, reports, lines)?;
    check_written(alloc, reports, replayed.said.as_slice())?;
    if !are_opened(steps, reports.len()) {
        return Err(Fault::Differs);
    }
    Ok(())
}

// Whether so many sessions were opened.
fn are_opened(steps: &[Step], count: usize) -> bool
    ensures so { result ≡ true → length (filter opens steps.now) ≡ count }
    ensures not_so { result ≡ false → length (filter opens steps.now) ≢ count }
{
    let mut left = count;
    for step in steps {
        if is_opening(step) {
            if left == 0 {
                return false;
            }
            left -= 1;
        }
    }
    left == 0
}

fn is_opening(step: &Step) -> bool
    ensures { result ≡ opens step.now }
{
    matches!(step, Step::Open { .. })
}
