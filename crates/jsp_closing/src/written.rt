//! What lines were written, compared with the frames of what was said to their sessions.
ghost use Rattle.std.specs.Prelude.{◌≡◌, ◌≢◌, ◌++◌, ℕ, List, [], ◌∷◌, true, false, length, replicate, IfOk, IfErr, OnOk};
ghost use Rattle.jsp_reply.specs.declared.reply.Reply.{Reply};
ghost use Rattle.jsp_model.specs.Answers.{Saying};
ghost use Rattle.jsp_drive.specs.Heard.{framed};
ghost use Rattle.jsp_closing.specs.Faults.{Denies};
ghost use Rattle.jsp_closing.specs.Within.{AreTold, IsWithin};
ghost use Rattle.jsp_closing.specs.Writing.{AreBytesOf, Matches, AreMatched, AreWritten};

use crate::closed::{Fault, LineReport};
use jsp_drive::encode;
use jsp_reply::Said;
use jsp_types::NoMemory;
use std::alloc::Global;

/// Compares the bytes written to each line that is whole with what was said to its session.
pub(crate) fn check_written(
    alloc: Global,
    reports: &[LineReport],
    said: &[(u64, Said)],
) -> Result<(), Fault>
    ensures ok { OnOk result (AreWritten reports.now said.now) }
    ensures err { IfErr result (λ e. Denies e (AreTold (length reports.now) said.now × AreWritten reports.now said.now)) }
{
    let matched = match_all(alloc, reports, said)?;
    for (i, report) in reports.iter().enumerate() {
        if !is_matched(report, matched[i]) {
            return Err(Fault::Differs);
        }
    }
    Ok(())
}

// Whether so many bytes are all that were written to the line, or it isn't whole.
fn is_matched(report: &LineReport, matched: usize) -> bool
    ensures so { result ≡ true → report.now.is_whole ≡ true → matched ≡ length report.now.written.items }
    ensures not_so { result ≡ false → (report.now.is_whole ≡ true) × (matched ≢ length report.now.written.items) }
{
    !report.is_whole || matched == report.written.len()
}

// How many bytes of each line that is whole the frames match.
fn match_all(
    alloc: Global,
    reports: &[LineReport],
    said: &[(u64, Said)],
) -> Result<Vec<usize>, Fault>
    ensures ok { IfOk result (λ matched. AreMatched reports.now matched.items said.now) }
    ensures err { IfErr result (λ e. Denies e (AreTold (length reports.now) said.now × AreWritten reports.now said.now)) }
{
    let mut matched = none_matched(alloc, reports.len())?;
    for (session, answer) in said {
        let frame = encode(alloc, answer)?;
        match_frame(reports, &mut matched, *session, frame.as_slice())?;
    }
    Ok(matched)
}

fn none_matched(alloc: Global, count: usize) -> Result<Vec<usize>, NoMemory>
    ensures { IfOk result (λ matched. matched.items ≡ replicate count 0) }
{
    vec![in alloc; 0; count]
}

// Matches the frame of an answer to a session, behind those before it.
fn match_frame(
    reports: &[LineReport],
    matched: &mut Vec<usize>,
    session: u64,
    frame: &[u8],
) -> Result<(), Fault>
    ensures ok { OnOk result ((said : List Saying) (answer : Reply) → frame.now ≡ framed answer
        → AreMatched reports.now matched.old.items said
        → AreMatched reports.now matched.new.items (said ++ (session, answer) ∷ [])) }
    ensures err { IfErr result (λ e. (said more : List Saying) (answer : Reply) → frame.now ≡ framed answer
        → AreMatched reports.now matched.old.items said
        → Denies e (IsWithin (length reports.now) session × AreWritten reports.now (said ++ (session, answer) ∷ more))) }
{
    let count = reports.len().min(matched.len()) as u64;
    if session == 0 || session > count {
        return Err(Fault::Differs);
    }
    let place = session as usize - 1;
    let from = matched[place];
    matched[place] = match_bytes(&reports[place], from, frame)?;
    Ok(())
}

// Matches a frame with what was written from this place on, and answers the place behind it. Of a
// line that isn't whole nothing is matched.
fn match_bytes(report: &LineReport, from: usize, frame: &[u8]) -> Result<usize, Fault>
    ensures ok { IfOk result (λ behind. (all : List ℕ) → report.now.is_whole ≡ true
        → Matches report.now.write_failed report.now.written.items all from
        → Matches report.now.write_failed report.now.written.items (all ++ frame.now) behind) }
    ensures err { IfErr result (λ e. (report.now.is_whole ≡ true) × ((all more : List ℕ)
        → Matches report.now.write_failed report.now.written.items all from
        → Denies e (AreBytesOf report.now.write_failed report.now.written.items (all ++ (frame.now ++ more))))) }
{
    if !report.is_whole {
        return Ok(from);
    }
    let written = report.written.as_slice();
    if written.len() < from {
        return Err(Fault::Differs);
    }
    let rest = &written[from..];
    let count = rest.len().min(frame.len());
    if rest[..count] != frame[..count] {
        return Err(Fault::Differs);
    }
    if count < frame.len() && !report.write_failed {
        return Err(Fault::Differs);
    }
    Ok(from + count)
}
