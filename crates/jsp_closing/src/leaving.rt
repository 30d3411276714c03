//! What the lines of a history leave unasked.
ghost use Rattle.std.specs.Prelude.{◌≡◌, ◌≢◌, ◌++◌, ℕ, Bool, List, [], true, false, length, replicate, IfOk, IfErr, OnOk};
ghost use Rattle.jsp_model.specs.declared.step.Step.{Step};
ghost use Rattle.jsp_drive.specs.Streams.{requests_of};
ghost use Rattle.jsp_drive.specs.Giving.{Gave, GaveAll};
ghost use Rattle.jsp_closing.specs.Faults.{Denies};
ghost use Rattle.jsp_closing.specs.Lines.{was_shut, MayEnd};
ghost use Rattle.jsp_closing.specs.Asking.{HaveGiven, SaysMore};
ghost use Rattle.jsp_closing.specs.Leaving.{AllAsk, Marks, MayAsk, MayLeave, TellShut};

use crate::closed::{Fault, LineReport};
use jsp_core::Core;
use jsp_drive::{Ended, Line, Next};
use jsp_machine::is_open;
use jsp_model::Step;
use jsp_types::NoMemory;
use std::alloc::Global;

/// Compares what is left on the lines that are whole with the state in which the steps end. They
/// have given what is asked in the steps.
pub(crate) fn check_lines(
    alloc: Global,
    state: &Core,
    steps: &[Step],
    reports: &[LineReport],
    lines: &mut Vec<Line>,
) -> Result<(), Fault>
    requires { HaveGiven reports.now lines.old.items steps.now }
    ensures ok { OnOk result (AllAsk steps.now state.now reports.now) }
    ensures err { IfErr result (λ e. Denies e (AllAsk steps.now state.now reports.now)) }
{
    let shut = shut_sessions(alloc, reports.len(), steps)?;
    for i in 0..reports.len() {
        check_line(state, i as u64 + 1, shut[i], &reports[i], &mut lines[i])?;
    }
    Ok(())
}

// One line, which has given what its session asks in the steps, if it is whole.
fn check_line(
    state: &Core,
    session: u64,
    shut: bool,
    report: &LineReport,
    line: &mut Line,
) -> Result<(), Fault>
    ensures ok { OnOk result ((steps : List Step) → shut ≡ was_shut session steps
        → (report.now.is_whole ≡ true → Gave session report.now.read.items (requests_of session steps) line.old)
        → MayAsk session steps state.now report.now) }
    ensures err { IfErr result (λ e. (steps : List Step) → shut ≡ was_shut session steps
        → (report.now.is_whole ≡ true → Gave session report.now.read.items (requests_of session steps) line.old)
        → Denies e (MayAsk session steps state.now report.now)) }
{
    if report.session != session {
        return Err(Fault::Differs);
    }
    if !report.is_whole {
        return Ok(());
    }
    if !is_noted_truly(report.shut_by_house, shut)
        || !may_end(report.ended, report.write_failed, report.shut_by_house)
    {
        return Err(Fault::Differs);
    }
    let more = says_more(line, report.read.as_slice())?;
    if !may_leave(state, session, shut, report, more) {
        return Err(Fault::Differs);
    }
    Ok(())
}

// Whether a line may say more than what was asked, or doesn't.
fn may_leave(state: &Core, session: u64, shut: bool, report: &LineReport, more: bool) -> bool
    ensures so { result ≡ true → MayLeave session shut state.now report.now more }
    ensures not_so { result ≡ false → MayLeave session shut state.now report.now more → ⊥ }
{
    if !more || report.write_failed {
        return true;
    }
    if shut {
        matches!(report.ended, Ended::Cut) && report.shut_by_house
    } else {
        !is_open(state, session)
    }
}

// Whether a session was shut of which it is noted that the house shut it.
fn is_noted_truly(by_house: bool, shut: bool) -> bool
    ensures so { result ≡ true → by_house ≡ true → shut ≡ true }
    ensures not_so { result ≡ false → (by_house ≡ true) × (shut ≡ false) }
{
    !by_house || shut
}

fn may_end(ended: Ended, write_failed: bool, by_house: bool) -> bool
    ensures so { result ≡ true → MayEnd ended write_failed by_house }
    ensures not_so { result ≡ false → MayEnd ended write_failed by_house → ⊥ }
{
    match ended {
        Ended::Stopped => false,
        Ended::Cut => write_failed || by_house,
        Ended::End | Ended::Failed | Ended::Bound | Ended::Closing => true,
    }
}

// Whether the bytes that the line was fed say more than what it gave.
fn says_more(line: &mut Line, read: &[u8]) -> Result<bool, NoMemory>
    ensures says { IfOk result (λ more. (s : ℕ) (asked : List Step) → Gave s read.now asked line.old
        → SaysMore s read.now asked more) }
    ensures only { IfOk result (λ more. (s : ℕ) (asked left : List Step) (too_long : Bool) → Gave s read.now asked line.old
        → GaveAll s read.now (asked ++ left) too_long → more ≡ true → left ≢ []) }
{
    match line.next()? {
        Next::Input(input) => {
            drop(input);
            Ok(true)
        }
        Next::More => Ok(false),
        Next::Closed => Ok(false),
    }
}

// Of the sessions up to this number, whether somebody shut them.
fn shut_sessions(alloc: Global, count: usize, steps: &[Step]) -> Result<Vec<bool>, NoMemory>
    ensures count { IfOk result (λ flags. length flags.items ≡ count) }
    ensures tell { IfOk result (λ flags. TellShut flags.items steps.now) }
{
    let mut flags = unset(alloc, count)?;
    for step in steps {
        if let Step::Shut { session } = step {
            mark(&mut flags, *session);
        }
    }
    Ok(flags)
}

fn unset(alloc: Global, count: usize) -> Result<Vec<bool>, NoMemory>
    ensures { IfOk result (λ flags. flags.items ≡ replicate count false) }
{
    vec![in alloc; false; count]
}

fn mark(flags: &mut Vec<bool>, session: u64)
    ensures { Marks session flags.old.items flags.new.items }
{
    if 0 < session && session <= flags.len() as u64 {
        flags[session as usize - 1] = true;
    }
}
