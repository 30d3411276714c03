//! What a history's sessions ask, read again from the bytes of their lines.
ghost use Rattle.std.specs.Prelude.{◌≡◌, ◌++◌, ◌∷◌, ℕ, List, [], None, map, IfOk, IfErr, OnOk};
ghost use Rattle.jsp_reply.specs.declared.refusal.Refusal.TheVariants.{TooLong};
ghost use Rattle.jsp_model.specs.declared.step.Step.{Step};
ghost use Rattle.jsp_model.specs.declared.step.Step.TheVariants as step;
ghost use Rattle.jsp_model.specs.House.{step_of};
ghost use Rattle.jsp_drive.specs.Line.{input_of};
ghost use Rattle.jsp_drive.specs.Giving.{Gave};
ghost use Rattle.jsp_closing.specs.Faults.{Denies};
ghost use Rattle.jsp_closing.specs.Asking.{HaveGiven, GivesInput, GiveStep, HasNext, CanGive, CanAsk, CanBe, anything, asks_short, has_short_line, unasked, unasked_in};

use crate::closed::{Fault, LineReport};
use jsp_drive::{Line, LineInput, Next};
use jsp_model::Step;
use jsp_types::{Items, NoMemory};
use jsp_wire::Scratch;
use std::alloc::Global;

/// The lines of these reports, each fed all its bytes.
pub(crate) fn feed_lines(alloc: Global, reports: &[LineReport]) -> Result<Vec<Line>, NoMemory>
    ensures { IfOk result (λ lines. HaveGiven reports.now lines.items []) }
{
    let mut lines = Vec::new(alloc);
    for report in reports {
        let line = feed_line(alloc, report.read.as_slice())?;
        lines.push(line)?;
    }
    Ok(lines)
}

fn feed_line(alloc: Global, bytes: &[u8]) -> Result<Line, NoMemory>
    ensures { IfOk result (λ line. (s : ℕ) → Gave s bytes.now [] line) }
{
    let mut line = Line::new(alloc);
    line.feed(bytes)?;
    Ok(line)
}

/// The steps, with what the lines give in the place of each request and fault of a session whose
/// line is whole. Those of the others stay.
pub(crate) fn ask_again(
    alloc: Global,
    reports: &[LineReport],
    lines: &mut Vec<Line>,
    steps: Vec<Step>,
) -> Result<Vec<Step>, Fault>
    requires { HaveGiven reports.now lines.old.items [] }
    ensures gave { IfOk result (λ asked. HaveGiven reports.now lines.new.items asked.items) }
    ensures same { IfOk result (λ asked. map (unasked_in reports.now) asked.items ≡ map (unasked_in reports.now) steps.items) }
    // No other history can be that of the lines, and where they differ none can.
    ensures only { IfOk result (λ asked. (history : List Step) → CanBe reports.now history steps.items → history ≡ asked.items) }
    ensures err { IfErr result (λ e. Denies e ((history : List Step) × CanBe reports.now history steps.items)) }
{
    let mut scratch = Scratch::new(alloc);
    let mut asked = Vec::new(alloc);
    for step in steps {
        let again = next_step(reports, lines, &mut scratch, step)?;
        add_step(&mut asked, again)?;
    }
    Ok(asked)
}

// The step, with what is asked in it by a session whose line is whole as that gives it.
fn next_step(
    reports: &[LineReport],
    lines: &mut Vec<Line>,
    scratch: &mut Scratch,
    step: Step,
) -> Result<Step, Fault>
    ensures gave { IfOk result (λ again. (steps : List Step) → HaveGiven reports.now lines.old.items steps
        → HaveGiven reports.now lines.new.items (steps ++ again ∷ [])) }
    ensures same { IfOk result (λ again. unasked_in reports.now again ≡ unasked_in reports.now step) }
    ensures only { IfOk result (λ again. (wanted : Step) → CanAsk reports.now lines.old.items wanted step → wanted ≡ again) }
    ensures err { IfErr result (λ e. Denies e ((wanted : Step) × CanAsk reports.now lines.old.items wanted step)) }
{
    if asks_short(reports, &step) {
        return Ok(step);
    }
    step_again(lines, scratch, step)
}

// Whether a session asks by the step whose line isn't whole.
fn asks_short(reports: &[LineReport], step: &Step) -> bool
    ensures { result ≡ asks_short reports.now step.now }
{
    match step {
        Step::Ask { session, .. } => has_short_line(reports, *session),
        Step::Fault { session, .. } => has_short_line(reports, *session),
        _ => false,
    }
}

// Whether the session's line isn't whole.
fn has_short_line(reports: &[LineReport], session: u64) -> bool
    ensures { result ≡ has_short_line reports.now session }
{
    if session == 0 {
        return false;
    }
    let place = session as usize - 1;
    if place >= reports.len() {
        return false;
    }
    !reports[place].is_whole
}

fn add_step(steps: &mut Vec<Step>, step: Step) -> Result<(), NoMemory>
    ensures { OnOk result (steps.new.items ≡ steps.old.items ++ step ∷ []) }
{
    steps.push(step)?;
    Ok(())
}

// The step, or where a session asks in it the same with what the session's line gives.
fn step_again(lines: &mut Vec<Line>, scratch: &mut Scratch, step: Step) -> Result<Step, Fault>
    ensures gave { IfOk result (λ again. GiveStep again lines.old.items lines.new.items) }
    ensures same { IfOk result (λ again. unasked again ≡ unasked step) }
    ensures only { IfOk result (λ again. (wanted : Step) → CanGive lines.old.items wanted step → wanted ≡ again) }
    ensures err { IfErr result (λ e. Denies e ((wanted : Step) × CanGive lines.old.items wanted step)) }
{
    match step {
        Step::Ask {
            session,
            asked,
            rows,
        } => {
            drop(asked);
            request_again(lines, scratch, session, rows)
        }
        Step::Fault { session, .. } => fault_again(lines, scratch, session),
        other => Ok(other),
    }
}

// A request of the session, as its line gives it.
fn request_again(
    lines: &mut Vec<Line>,
    scratch: &mut Scratch,
    session: u64,
    rows: Items<u64>,
) -> Result<Step, Fault>
    ensures gave { IfOk result (λ again. GiveStep again lines.old.items lines.new.items) }
    ensures same { IfOk result (λ again. unasked again ≡ step.Ask session anything rows) }
    ensures only { IfOk result (λ again. (wanted : Step) → CanGive lines.old.items wanted (step.Ask session anything rows) → wanted ≡ again) }
    ensures err { IfErr result (λ e. Denies e ((wanted : Step) × CanGive lines.old.items wanted (step.Ask session anything rows))) }
{
    match next_input(lines, scratch, session)? {
        LineInput::Ask(asked) => Ok(Step::Ask {
            session,
            asked,
            rows,
        }),
        LineInput::Fault(_, _) => Err(Fault::Differs),
    }
}

// A fault of the session, as its line gives it.
fn fault_again(lines: &mut Vec<Line>, scratch: &mut Scratch, session: u64) -> Result<Step, Fault>
    ensures gave { IfOk result (λ again. GiveStep again lines.old.items lines.new.items) }
    ensures same { IfOk result (λ again. unasked again ≡ step.Fault session None TooLong) }
    ensures only { IfOk result (λ again. (wanted : Step) → CanGive lines.old.items wanted (step.Fault session None TooLong) → wanted ≡ again) }
    ensures err { IfErr result (λ e. Denies e ((wanted : Step) × CanGive lines.old.items wanted (step.Fault session None TooLong))) }
{
    match next_input(lines, scratch, session)? {
        LineInput::Fault(id, refusal) => Ok(Step::Fault {
            session,
            id,
            refusal,
        }),
        LineInput::Ask(asked) => {
            drop(asked);
            Err(Fault::Differs)
        }
    }
}

// What the session's line gives next.
fn next_input(
    lines: &mut Vec<Line>,
    scratch: &mut Scratch,
    session: u64,
) -> Result<LineInput, Fault>
    ensures gives { IfOk result (GivesInput session lines.old.items lines.new.items) }
    ensures only { IfOk result (λ x. (asked : Step) → HasNext session lines.old.items asked → step_of (input_of session x) ≡ asked) }
    ensures err { IfErr result (λ e. Denies e ((asked : Step) × HasNext session lines.old.items asked)) }
{
    if session == 0 || session > lines.len() as u64 {
        return Err(Fault::Differs);
    }
    match lines[session as usize - 1].next_with(scratch)? {
        Next::Input(input) => Ok(input),
        Next::More | Next::Closed => Err(Fault::Differs),
    }
}
