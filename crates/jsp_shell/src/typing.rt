//! The thread that reads the input.
use crate::behind::Behind;
use crate::fault::{NotSent, ShellFault};
use crate::input::Lines;
use crate::session::{Exit, Session, Taken};
use jsp_forms::LineFault;
use std::io::Read;
use std::sync::{Arc, Wait};

/// Reads requests, and sends them.
#[derive(Drop)]
pub struct Typing {
    pub(crate) session: Arc<Session>,
}

impl Typing {
    /// Sends what the lines of the input ask, until it ends, and tells of those that stand behind
    /// one that leaves the session. Nobody needs to wait for it: once the session is left, or the
    /// connection breaks, nothing is asked any more.
    pub fn run<R: Wait, I: Read + Drop>(self, rt: &R, input: I) {
        let read = self.read_all(rt, input);
        if let Err(fault) = read.and_then(|()| self.session.end_input(rt)) {
            self.session.fail(rt, fault);
        }
    }

    fn read_all<R: Wait, I: Read + Drop>(&self, rt: &R, input: I) -> Result<(), ShellFault> {
        let Ok(mut lines) = Lines::new(self.session.alloc, input) else {
            return Err(ShellFault::NoMemory);
        };
        for _ in rt.forever() {
            match lines.next() {
                Ok(Some(line)) => {
                    self.session.end_typed(rt);
                    match self.session.take_line(rt, lines.number(), line.as_slice())? {
                        Taken::Done => self.session.prompt(rt)?,
                        Taken::Asked(frame) => self.session.send_asked(rt, frame.as_slice()),
                        Taken::Left(exit) => return self.leave(rt, lines, exit),
                    }
                }
                Ok(None) => return Ok(()),
                Err(fault) => {
                    let goes_on = matches!(fault, NotSent::NotUnderstood(LineFault::TooLong));
                    self.session.end_typed(rt);
                    self.session.refuse(rt, lines.number(), fault)?;
                    if !goes_on {
                        return Ok(());
                    }
                    self.session.prompt(rt)?;
                }
            }
        }
        Ok(())
    }

    /// Leaves the session. Of the lines behind that those that were read with it are told before:
    /// so they are told whenever the server answers. The others are told until then.
    fn leave<R: Wait, I: Read + Drop>(
        &self,
        rt: &R,
        mut lines: Lines<I>,
        exit: Exit,
    ) -> Result<(), ShellFault> {
        let left_by = exit.word();
        let mut behind = Behind::new(lines.number());
        if lines.is_ahead() {
            self.tell_piece(rt, &mut lines, &mut behind, left_by)?;
        }
        match exit {
            Exit::Bye(frame) => self.session.send(frame.as_slice()),
            Exit::Quit => self.session.end_input(rt)?,
        }
        for _ in rt.forever() {
            if !self.tell_piece(rt, &mut lines, &mut behind, left_by)? {
                break;
            }
        }
        Ok(())
    }

    /// Tells of the lines that begin in the next piece of the input, and answers whether more may
    /// be told.
    fn tell_piece<R: Wait, I: Read + Drop>(
        &self,
        rt: &R,
        lines: &mut Lines<I>,
        behind: &mut Behind,
        left_by: &'static str,
    ) -> Result<bool, ShellFault> {
        let Some(piece) = lines.piece() else {
            return Ok(false);
        };
        for byte in piece {
            if let Some(number) = behind.next(*byte) {
                if !self.session.refuse_left(rt, number, left_by)? {
                    return Ok(false);
                }
            }
        }
        let passed = piece.len();
        lines.pass(passed);
        Ok(true)
    }
}
