//! The turns of transactions that vote: by the worker that settles, and by the thread whose act
//! began a vote.
use crate::answer_writer::{AnswerWriter, Start};
use crate::gate::{Clock, Gate};
use crate::shared::Shared;
use jsp_kept::{InParts, MOST_OLD};
use jsp_model::{Settled, Why};
use std::io::Write;
use std::sync::ledger::Ledger;
use std::sync::{Mutex, Wait};
use std::time;

/// How many turns a line takes at once: those of a transaction that joined 64 spaces, and of
/// another one.
const TURNS: u32 = 130;

impl<H: InParts, A: Ledger, O: Ledger, G: Gate, C: Clock, T: Wait + time::Clock> Shared<
    '_,
    H,
    A,
    O,
    G,
    C,
    T,
> {
    /// Settles in turns until all lines have ended and nothing is to settle. While lines live, a
    /// turn that finds no memory is taken again. Meanwhile it counts where that is wanted, and
    /// tells the lines of the first seal.
    pub fn settle_worker(&self) -> Option<Why> {
        let mut old = Vec::new(self.alloc);
        for _ in self.rt.forever() {
            self.count_where_wanted();
            if self.floor.tell_of_seal(self.rt) {
                self.gate.sealed();
            }
            // Without memory for it no steps are freed.
            let _ = old.reserve(MOST_OLD);
            let turned = self.floor.settle(self.rt, self.clock.now(), None, &mut old);
            old.clear();
            self.cut(turned.shut);
            match turned.settled {
                Ok(Some(Settled::Idle)) if turned.ended => break,
                Ok(Some(Settled::Idle)) => self.floor.rest(self.rt, false),
                Ok(Some(_)) => {}
                Ok(None) => self.floor.give_way(self.rt),
                Err(stopped) if turned.ended || stopped.why != Why::NoMemory => {
                    return Some(stopped.why);
                }
                Err(_) => self.floor.rest(self.rt, true),
            }
        }
        None
    }

    // Where there is no memory to count, it is tried again.
    fn count_where_wanted(&self) {
        if self.gate.wants_counts() {
            if let Ok(counts) = self.floor.count(self.rt, self.alloc) {
                self.gate.counted(counts);
            }
        }
    }

    /// Takes the turns of transactions that vote, each in a hold of its own, until none does, and
    /// writes to the line of the session what they say to it. What is left after many turns, or
    /// where one is stopped, is the settling worker's.
    pub(crate) fn take_turns<W: Write, S: Start>(
        &self,
        answers: &Mutex<AnswerWriter<O, W, S>>,
        session: u64,
    ) -> Result<(), Why> {
        let mut none = Vec::new(self.alloc);
        for _ in 0..TURNS {
            let turned = self
                .floor
                .settle(self.rt, self.clock.now(), Some(session), &mut none);
            self.cut(turned.shut);
            match turned.settled {
                Ok(Some(_)) => {}
                Ok(None) => self.floor.give_way(self.rt),
                Err(_) => break,
            }
            if !turned.is_voting {
                return self.drain(answers, session);
            }
        }
        self.floor.call_worker();
        self.drain(answers, session)
    }
}
