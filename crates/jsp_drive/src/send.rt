//! What was said is handed out and sent.
ghost use Rattle.std.specs.Prelude.{◌≡◌, ◌++◌, None, map, IfOk, OnOk, IsTrue};
ghost use Rattle.jsp_model.specs.Limits.{are_outboxes};
ghost use Rattle.jsp_model.proofs.Outboxes.{are_above};
ghost use Rattle.jsp_drive.specs.Heard.{framed};
ghost use Rattle.jsp_drive.specs.Tie.{frame_for};
ghost use Rattle.jsp_drive.specs.Calls.{Sends};

use crate::acts::Sent;
use crate::stop::no_memory;
use jsp_frame::frame;
use jsp_model::{House, Step};
use jsp_reply::{Said, text};
use jsp_types::{Items, NoMemory};
use std::alloc::Global;

/// The frame of an answer or an event: the length of its text in 4 bytes, big-endian, and its text.
pub fn encode(alloc: Global, said: &Said) -> Result<Vec<u8>, NoMemory>
    ensures { IfOk result (λ frame. frame.items ≡ framed said.now) }
{
    let text = text(alloc, said)?;
    frame(alloc, text.as_slice())
}

/// Sends a session's answers.
fn send_to(
    alloc: Global,
    act: usize,
    session: u64,
    answers: &[Said],
    sent: &mut Vec<Sent>,
) -> Result<(), NoMemory>
    ensures { OnOk result (sent.new.items ≡ sent.old.items ++ map (frame_for act session) answers.now) }
{
    for said in answers {
        let frame = Items::from_vec(encode(alloc, said)?);
        sent.push(Sent {
            act,
            session,
            frame,
        })?;
    }
    Ok(())
}

/// Hands all that waits out, by session number, and sends it.
pub(crate) fn send_all<H: House>(
    alloc: Global,
    house: &mut H,
    act: usize,
    steps: &mut Vec<Step>,
    sent: &mut Vec<Sent>,
) -> Result<(), NoMemory>
    requires rising { IsTrue (are_outboxes (H.view house.old).outboxes) }
    requires from_one { IsTrue (are_above 0 (H.view house.old).outboxes) }
    requires bound { H.bound_of house.old ≡ None }
    ensures bound { H.bound_of house.new ≡ H.bound_of house.old }
    ensures sends { OnOk result (Sends act (H.view house.old) (H.view house.new) steps.old.items steps.new.items sent.old.items sent.new.items) }
{
    'sessions: while let Some(session) = house.next_waiting(0) {
        match house.hand_out(session, u64::MAX, steps) {
            Ok(answers) => send_to(alloc, act, session, answers.as_slice(), sent)?,
            Err(stopped) => return Err(no_memory(stopped)),
        }
    }
    Ok(())
}
