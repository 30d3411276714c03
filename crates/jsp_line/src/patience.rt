//! How long an answer waits for memory.
use crate::floor::Floor;
use jsp_kept::InParts;
use std::sync::Wait;
use std::sync::ledger::Ledger;
use std::thread;
use std::time::{Clock, Duration};

/// How often memory is asked for again once the session is closed.
const TRIES: u64 = 100;

/// After how many milliseconds it is asked for again.
const PAUSE: u64 = 50;

/// For whom memory is asked again. What is answered was done and can't be done again, so it is
/// asked for as long as the session is open; and where that is closed, so that nobody shuts it any
/// more, for five seconds.
#[derive(Drop)]
pub(crate) struct Patience<'a, H: InParts, A: Ledger, O: Ledger, T> {
    pub(crate) rt: &'a T,
    floor: &'a Floor<H, A, O>,
    session: u64,
    left: u64,
}

impl<'a, H: InParts, A: Ledger, O: Ledger, T: Wait + Clock> Patience<'a, H, A, O, T> {
    pub(crate) fn new(rt: &'a T, floor: &'a Floor<H, A, O>, session: u64) -> Self {
        Patience {
            rt,
            floor,
            session,
            left: TRIES,
        }
    }

    /// Pauses, and says whether memory is to be asked for again. No lock of the house is held.
    pub(crate) fn lasts(&mut self) -> bool {
        if !self.floor.is_open(self.rt, self.session) {
            if self.left == 0 {
                return false;
            }
            self.left -= 1;
        }
        thread::sleep(self.rt, Duration::from_millis(PAUSE));
        true
    }
}
