//! A house alone, and all steps that it made.
use crate::calls::Calls;
use jsp_drive::LineInput;
use jsp_house::{ReplayFault, replay};
use jsp_model::{Config, House, Input, Step, Stopped, Why};
use jsp_reply::Said;
use std::alloc::Global;

/// A house, and all steps that it made.
#[derive(Drop)]
pub(crate) struct Bare<H: House> {
    alloc: Global,
    config: Config,
    house: H,
    log: Vec<Step>,
}

impl<H: House> Bare<H> {
    pub(crate) fn new(alloc: Global, config: Config, house: H) -> Bare<H> {
        Bare {
            alloc,
            config,
            house,
            log: Vec::new(alloc),
        }
    }
}

impl<H: House> Calls for Bare<H> {
    fn open(&mut self, session: u64) -> Result<(), Stopped> {
        self.house.act(Input::Open { session }, &mut self.log)
    }

    fn hear(&mut self, session: u64, given: LineInput) -> Result<(), Stopped> {
        self.house.act(given.of_session(session), &mut self.log)
    }

    fn shut(&mut self, session: u64) -> Result<(), Stopped> {
        match self.log.reserve(1) {
            Ok(()) => {
                self.house.shut(session, &mut self.log);
                Ok(())
            }
            Err(_) => Err(Stopped {
                why: Why::NoMemory,
                done: false,
            }),
        }
    }

    fn clock(&mut self, time: u64) -> Result<(), Stopped> {
        self.house.act(Input::Clock { time }, &mut self.log)
    }

    fn settle(&mut self) -> Result<(), Stopped> {
        match self.house.settle(&mut self.log) {
            Ok(_) => Ok(()),
            Err(stopped) => Err(stopped),
        }
    }

    fn finish(&mut self) -> Result<(), Stopped> {
        self.house.finish(&mut self.log)
    }

    fn next_waiting(&self, after: u64) -> Option<u64> {
        self.house.next_waiting(after)
    }

    fn hand_out(&mut self, session: u64) -> Result<Vec<Said>, Stopped> {
        self.house.hand_out(session, u64::MAX, &mut self.log)
    }

    fn is_run(&self) -> Option<bool> {
        match replay(self.alloc, &self.config, self.log.as_slice(), 0) {
            Ok(_) => Some(true),
            Err(ReplayFault::Illegal(_)) => Some(false),
            Err(ReplayFault::NoMemory) => None,
        }
    }
}
