//! A house that keeps its history in eras, and the seats of its sessions.
ghost use Rattle.std.specs.Prelude.{◌≡◌, ◌≤◌, ◌+◌, ◌^◌};
ghost use Rattle.jsp_model.specs.Lookup.{empty};

use crate::calls::Calls;
use crate::fault::Fault;
use jsp_drive::LineInput;
use jsp_house::Hall;
use jsp_kept::{AskSeat, Kept, OutSeat};
use jsp_model::{Config, Stopped, Why};
use jsp_reply::Said;
use std::alloc::Global;
use std::sync::ledger::{Blank, Ledger};

/// A house that keeps its history in eras, and the seats of its sessions, by their numbers.
#[derive(Drop)]
pub(crate) struct InEras<A: Ledger, O: Ledger> {
    kept: Kept<Hall, A, O>,
    seats: Vec<(AskSeat<A>, OutSeat<O>)>,
}

const WANTING: Stopped = Stopped {
    why: Why::NoMemory,
    done: false,
};

/// An empty house, in eras of so many steps.
pub(crate) fn begin<A: Ledger, O: Ledger>(
    alloc: Global,
    house: Hall,
    config: &Config,
    era: u64,
    asks: Blank,
    outs: Blank,
) -> Result<InEras<A, O>, Fault>
    requires house { house.image ≡ empty config.now }
    requires era { (1 ≤ era) × (era ≤ 16777216) }
    requires asks { (asks.name ≡ A.name) × (asks.parts ≡ A.parts) × (A.parts ≡ 2 ^ 31 + 1) }
    requires outs { (outs.name ≡ O.name) × (outs.parts ≡ O.parts) × (O.parts ≡ 2 ^ 31 + 1) }
{
    Ok(InEras {
        kept: Kept::<Hall, A, O>::new(alloc, house, config, era, asks, outs)?,
        seats: Vec::new(alloc),
    })
}

/// The place of a session's seats.
fn place_of(session: u64) -> Option<usize> {
    Some(session.checked_sub(1)? as usize)
}

impl<A: Ledger, O: Ledger> Calls for InEras<A, O> {
    // Sessions are numbered from 1 on here: a script that skips a number is answered otherwise.
    fn open(&mut self, _session: u64) -> Result<(), Stopped> {
        match self.seats.reserve(1) {
            Ok(()) => {
                let seat = self.kept.begin()?;
                self.seats.push(seat.split()).unwrap();
                Ok(())
            }
            Err(_) => Err(WANTING),
        }
    }

    fn hear(&mut self, session: u64, given: LineInput) -> Result<(), Stopped> {
        let Some(place) = place_of(session) else {
            return Ok(());
        };
        match self.seats.get_mut(place) {
            Some((asks, _)) => self.kept.act(asks, given),
            None => Ok(()),
        }
    }

    fn shut(&mut self, session: u64) -> Result<(), Stopped> {
        self.kept.shut(session);
        Ok(())
    }

    fn clock(&mut self, time: u64) -> Result<(), Stopped> {
        self.kept.clock(time)
    }

    fn settle(&mut self) -> Result<(), Stopped> {
        match self.kept.settle() {
            Ok(_) => Ok(()),
            Err(stopped) => Err(stopped),
        }
    }

    fn finish(&mut self) -> Result<(), Stopped> {
        self.kept.finish()
    }

    fn next_waiting(&self, after: u64) -> Option<u64> {
        self.kept.next_waiting(after)
    }

    fn hand_out(&mut self, session: u64) -> Result<Vec<Said>, Stopped> {
        let Some(place) = place_of(session) else {
            return Err(WANTING);
        };
        match self.seats.get_mut(place) {
            Some((_, outs)) => self.kept.hand_out(outs, u64::MAX),
            None => Err(WANTING),
        }
    }

    // That they are a run its type keeps.
    fn is_run(&self) -> Option<bool> {
        Some(true)
    }
}
