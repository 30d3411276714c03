//! What is taken is written; and the second thread of a line.
use crate::answer_writer::{AnswerWriter, Health, Sent, Start};
use crate::floor::Call;
use crate::gate::Gate;
use crate::hangup::Hangup;
use crate::shared::Shared;
use crate::slot::Slot;
use jsp_kept::InParts;
use jsp_model::Why;
use std::io::Write;
use std::sync::ledger::Ledger;
use std::sync::{Mutex, Wait};
use std::time::Clock;

impl<H: InParts, A: Ledger, O: Ledger, G: Gate, C, T: Wait + Clock> Shared<'_, H, A, O, G, C, T> {
    /// Tells the gate what was written, with no lock held, and shuts the session of a broken line.
    pub(crate) fn tell(&self, session: u64, sent: Sent) {
        if sent.health != Health::Sound {
            self.floor.shut(self.rt, session);
        }
        for nth in sent.above..sent.last {
            self.gate.written(session, nth + 1);
        }
    }

    /// Has the connection ended of a session that was shut, where one was.
    pub(crate) fn cut(&self, session: Option<u64>) {
        if let Some(session) = session {
            self.gate.cut(session);
        }
    }

    /// Writes what the line has taken.
    pub(crate) fn send<W: Write, S: Start>(
        &self,
        answers: &Mutex<AnswerWriter<O, W, S>>,
        session: u64,
    ) {
        let sent = answers.lock(self.rt).flush();
        self.tell(session, sent);
    }

    /// Takes what waits for the line, until nothing does, and writes it.
    pub(crate) fn drain<W: Write, S: Start>(
        &self,
        answers: &Mutex<AnswerWriter<O, W, S>>,
        session: u64,
    ) -> Result<(), Why> {
        for _ in self.rt.forever() {
            let taken = answers.lock(self.rt).take(self.rt, self.floor);
            self.send(answers, session);
            match taken {
                Ok(true) => {}
                Ok(false) => break,
                Err(stopped) => return Err(stopped.why),
            }
        }
        Ok(())
    }

    /// Writes what others' acts cause for the line, until its session is closed and nothing waits.
    /// Then the connection is ended: whatever closed the session, nobody waits for more at either
    /// end. At the first seal what the line keeps is dropped.
    pub(crate) fn answer_all<W: Write, S: Start, X: Hangup>(
        &self,
        answers: &Mutex<AnswerWriter<O, W, S>>,
        hangup: &X,
        slot: Option<&Slot>,
        session: u64,
    ) -> Option<Why> {
        let mut stopped = None;
        let mut is_told = false;
        for _ in self.rt.forever() {
            let call = self.floor.wait_for(self.rt, session, is_told);
            if let Call::Sealed(sealed) = call {
                is_told = true;
                if let Some(slot) = slot {
                    slot.clear(self.rt, sealed);
                }
            }
            if let Err(why) = self.drain(answers, session) {
                self.floor.shut(self.rt, session);
                stopped = Some(why);
                break;
            }
            if call == Call::Closed {
                break;
            }
        }
        hangup.hang_up();
        stopped
    }
}
