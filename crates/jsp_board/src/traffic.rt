//! Which connections a server has, and how many it had.
use crate::activity::Activity;
use jsp_status::{ConnectionCounts, ConnectionStatus};
use std::alloc::{AllocError, Global};
use std::sync::{Arc, Mutex, Wait};
use std::time::Clock;

/// How many connections a status lists at most: those that are open longest.
const MOST_LISTED: usize = 256;

/// Which connections a server has, how many it had, and how many it may have at once.
#[derive(Drop)]
pub struct Traffic {
    limit: u64,
    tally: Mutex<Tally>,
}

#[derive(Drop)]
struct Tally {
    /// All that were opened so far.
    total: u64,
    /// The most that were open at once.
    peak: u64,
    open: u64,
    /// Those that are open, in the order in which they were opened, as far as there was memory.
    list: Vec<Arc<Activity>>,
}

impl Traffic {
    pub fn new(alloc: Global, limit: u64) -> Traffic {
        Traffic {
            limit,
            tally: Mutex::new(Tally {
                total: 0,
                peak: 0,
                open: 0,
                list: Vec::new(alloc),
            }),
        }
    }

    /// One was opened. Where there is no memory for it, it is counted and not listed.
    pub fn open<T: Wait>(&self, rt: &T, activity: &Arc<Activity>) {
        let mut tally = self.tally.lock(rt);
        tally.open = tally.open.saturating_add(1);
        tally.total = tally.total.saturating_add(1);
        tally.peak = tally.peak.max(tally.open);
        if let Ok(activity) = Arc::try_clone(activity) {
            let _ = tally.list.push(activity);
        }
    }

    /// One that was opened has ended, which had this session.
    pub fn end<T: Wait>(&self, rt: &T, session: u64) {
        let mut tally = self.tally.lock(rt);
        tally.open = tally.open.saturating_sub(1);
        tally.list.retain(|activity| activity.session() != session);
    }

    /// The counts where so many are served. One that has just come or gone may be counted here and
    /// not there, or the other way round.
    pub(crate) fn counts<T: Wait>(&self, rt: &T, served: u64) -> ConnectionCounts {
        let tally = self.tally.lock(rt);
        let peak = tally.peak.max(served);
        ConnectionCounts {
            open: served,
            total: tally.total.max(peak),
            peak,
            limit: self.limit,
        }
    }

    /// Those that are open, the first of them where they are very many.
    pub(crate) fn list<T: Wait + Clock>(
        &self,
        rt: &T,
        alloc: Global,
    ) -> Result<Vec<ConnectionStatus>, AllocError> {
        let tally = self.tally.lock(rt);
        let mut list = Vec::new(alloc);
        for activity in tally.list.iter().take(MOST_LISTED) {
            list.push(activity.to_status(rt, alloc)?)?;
        }
        Ok(list)
    }
}
