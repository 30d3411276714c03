//! The acts of a script, each made again until its own step is made.
ghost use Rattle.std.specs.Prelude.{IfOk, IsTrue};
ghost use Rattle.jsp_drive.specs.Line.{is_line_input};

use crate::calls::Calls;
use crate::fault::Fault;
use crate::lines::{Act, is_passed_over, read_act};
use jsp_drive::LineInput;
use jsp_model::{Stopped, Why};
use jsp_reply::{Refusal, Said, text};
use jsp_types::NoMemory;
use jsp_wire::{Ask, Version, WireFault, read_ask_in};
use std::alloc::Global;
use std::str;

/// How often what finds no memory is tried.
const TRIES: u32 = 64;

/// How many sessions a script may have, from 0 on.
const SESSIONS: usize = 128;

/// What came of a script.
#[derive(Drop)]
pub(crate) struct Run {
    pub(crate) printed: Vec<u8>,
    /// How many calls were stopped without their own step, and how many with it.
    pub(crate) unmade: u64,
    pub(crate) made: u64,
}

#[derive(Drop)]
struct Runner<C: Calls> {
    alloc: Global,
    calls: C,
    versions: [Version; SESSIONS],
    done: Run,
}

/// Runs the script, and answers what it prints.
pub(crate) fn run_script<C: Calls>(alloc: Global, calls: C, script: &[u8]) -> Result<Run, Fault> {
    let Ok(text) = str::from_utf8(script) else {
        return Err(Fault::NotBegun);
    };
    let mut runner = Runner {
        alloc,
        calls,
        versions: [Version::One; SESSIONS],
        done: Run {
            printed: Vec::new(alloc),
            unmade: 0,
            made: 0,
        },
    };
    for (place, line) in text.split('\n').enumerate() {
        if !is_passed_over(line) {
            let Some(act) = read_act(line) else {
                return Err(Fault::NotUnderstood(place as u64));
            };
            runner.act(act)?;
            runner.print_all()?;
        }
    }
    Ok(runner.done)
}

impl<C: Calls> Runner<C> {
    /// Makes the act's call until its own step is made, and then what it left.
    fn act(&mut self, act: Act<'_>) -> Result<(), Fault> {
        for _ in 0..TRIES {
            match self.call(act)? {
                Ok(()) => return Ok(()),
                Err(stopped) => {
                    self.see(stopped)?;
                    if stopped.done {
                        self.done.made = self.done.made.saturating_add(1);
                        return self.finish();
                    }
                    self.done.unmade = self.done.unmade.saturating_add(1);
                }
            }
        }
        Err(Fault::NoMemory)
    }

    /// The act's call, once.
    fn call(&mut self, act: Act<'_>) -> Result<Result<(), Stopped>, Fault> {
        Ok(match act {
            Act::Open { session } => self.calls.open(session),
            Act::Send { session, payload } => self.hear(session, payload)?,
            Act::Shut { session } => self.calls.shut(session),
            Act::Clock { time } => self.calls.clock(time),
            Act::Settle => self.calls.settle(),
        })
    }

    /// What a payload asks, once.
    fn hear(&mut self, session: u64, payload: &str) -> Result<Result<(), Stopped>, Fault> {
        let Some(version) = self.versions.get_mut(session as usize) else {
            return Err(Fault::NotBegun);
        };
        let given = read(self.alloc, *version, payload)?;
        let next = version_behind(&given, *version);
        let outcome = self.calls.hear(session, given);
        match outcome {
            Ok(()) => *version = next,
            Err(stopped) if stopped.done => *version = next,
            Err(_) => {}
        }
        Ok(outcome)
    }

    /// Makes what a stopped call left.
    fn finish(&mut self) -> Result<(), Fault> {
        for _ in 0..TRIES {
            match self.calls.finish() {
                Ok(()) => return Ok(()),
                Err(stopped) => self.see(stopped)?,
            }
        }
        Err(Fault::NoMemory)
    }

    /// Fails where a call was stopped otherwise than for want of memory, or the steps so far are no
    /// run.
    fn see(&self, stopped: Stopped) -> Result<(), Fault> {
        if stopped.why != Why::NoMemory {
            return Err(Fault::Otherwise);
        }
        for _ in 0..TRIES {
            match self.calls.is_run() {
                Some(true) => return Ok(()),
                Some(false) => return Err(Fault::NoRun),
                None => {}
            }
        }
        Err(Fault::NoMemory)
    }

    /// Prints all that waits, by session number.
    fn print_all(&mut self) -> Result<(), Fault> {
        let mut session = 0;
        for _ in 0..SESSIONS {
            let Some(next) = self.calls.next_waiting(session) else {
                return Ok(());
            };
            session = next;
            let answers = self.hand_out(session)?;
            for said in answers.as_slice() {
                self.print(session, said)?;
            }
        }
        Ok(())
    }

    fn hand_out(&mut self, session: u64) -> Result<Vec<Said>, Fault> {
        for _ in 0..TRIES {
            match self.calls.hand_out(session) {
                Ok(answers) => return Ok(answers),
                Err(stopped) => self.see(stopped)?,
            }
        }
        Err(Fault::NoMemory)
    }

    fn print(&mut self, session: u64, said: &Said) -> Result<(), Fault> {
        for _ in 0..TRIES {
            if let Ok(line) = line(self.alloc, session, said) {
                if self.done.printed.extend_from_slice(line.as_slice()).is_ok() {
                    return Ok(());
                }
            }
        }
        Err(Fault::NoMemory)
    }
}

/// What is printed of an answer.
fn line(alloc: Global, session: u64, said: &Said) -> Result<Vec<u8>, NoMemory> {
    let number = format!(in alloc; "{session} ")?;
    let mut line = Vec::from_slice(alloc, number.as_str().as_bytes())?;
    line.extend_from_slice(text(alloc, said)?.as_slice())?;
    line.push(b'\n')?;
    Ok(line)
}

/// What a payload is on a line of this version.
fn read(alloc: Global, version: Version, payload: &str) -> Result<LineInput, Fault>
    ensures { IfOk result (λ given. IsTrue (is_line_input given)) }
{
    for _ in 0..TRIES {
        match read_ask_in(alloc, version, payload.as_bytes()) {
            Ok(asked) => return Ok(LineInput::Ask(asked)),
            Err(WireFault::BadJson) => return Ok(LineInput::Fault(None, Refusal::BadJson)),
            Err(WireFault::BadRequest { id }) => {
                return Ok(LineInput::Fault(id, Refusal::BadRequest));
            }
            Err(WireFault::NoMemory) => {}
        }
    }
    Err(Fault::NoMemory)
}

/// The version of the line behind it.
fn version_behind(given: &LineInput, version: Version) -> Version {
    match given {
        LineInput::Ask(asked) => match asked.ask() {
            Ask::Hello { version } => *version,
            _ => version,
        },
        LineInput::Fault(_, _) => version,
    }
}
