//! Where a server's status is asked for, and put.
use crate::counted::{refusals_of, spaces_of};
use crate::history::History;
use crate::traffic::Traffic;
use jsp_line::Counts;
use jsp_model::{Config, MOST_ROWS};
use jsp_status::{Chart, Rates, Status};
use std::alloc::{AllocError, Global};
use std::mem;
use std::sync::atomic::{AtomicBool, AtomicU64, Ordering};
use std::sync::{Condvar, Mutex, Wait};
use std::time::{Clock, Duration};

/// How long, in milliseconds, a status is waited for.
const PATIENCE: u64 = 1000;

/// After how many milliseconds a sample is taken, whether somebody looks or not.
const STEP: u64 = 5000;

/// Where a server's status is asked for, and put by the thread that settles, and what that noted of
/// the last five minutes. No other lock is taken under its own.
#[derive(Drop)]
pub struct Board {
    history: Mutex<History>,
    /// When the next sample is to be taken, in milliseconds after the server began.
    due: AtomicU64,
    is_wanted: AtomicBool,
    status: Mutex<Option<Status>>,
    /// Signalled when a status was put.
    put: Condvar,
}

/// The server whose status it is.
#[derive(Drop)]
pub struct Origin<'a> {
    pub version: &'a str,
    pub config: &'a Config,
    pub traffic: &'a Traffic,
}

impl Board {
    pub fn new(alloc: Global) -> Board {
        Board {
            history: Mutex::new(History::new(alloc)),
            due: AtomicU64::new(STEP),
            is_wanted: AtomicBool::new(false),
            status: Mutex::new(None),
            put: Condvar::new(),
        }
    }

    /// Whether what is counted at this time is to be noted: somebody looks, or a sample is due.
    pub fn wants_counts(&self, time: u64) -> bool {
        self.is_wanted() || self.is_due(time)
    }

    /// Notes what was counted at this time, in milliseconds after the server began, and puts a
    /// status for whoever looks. Where there is no memory, it is left out.
    pub fn note<T: Wait + Clock>(
        &self,
        rt: &T,
        alloc: Global,
        origin: &Origin<'_>,
        time: u64,
        counts: &Counts,
    ) {
        if self.is_due(time) {
            self.due.store(time.saturating_add(STEP), Ordering::SeqCst);
            let _ = self.history.lock(rt).add(alloc, time, counts);
        }
        if self.is_wanted() {
            let status = self.status(rt, alloc, origin, time, counts);
            self.put(rt, status.ok());
        }
    }

    fn is_wanted(&self) -> bool {
        self.is_wanted.load(Ordering::SeqCst)
    }

    fn is_due(&self, time: u64) -> bool {
        self.due.load(Ordering::SeqCst) <= time
    }

    /// The status that counts make, which were taken at this time. Whoever shows it adds the
    /// memory, which costs a file to read.
    fn status<T: Wait + Clock>(
        &self,
        rt: &T,
        alloc: Global,
        origin: &Origin<'_>,
        time: u64,
        counts: &Counts,
    ) -> Result<Status, AllocError> {
        let (rates, charts) = self.recent(rt, alloc, origin.config, time, counts)?;
        Ok(Status {
            version: String::from_str(alloc, origin.version)?,
            uptime_ms: time,
            era: counts.seals.saturating_add(1),
            seals: counts.seals,
            memory: None,
            connections: origin.traffic.counts(rt, counts.lines),
            requests: counts.requests,
            answers: counts.answers,
            rates,
            refusals: refusals_of(alloc, counts)?,
            living: counts.transactions.living,
            voting: counts.transactions.voting,
            rows_limit: MOST_ROWS as u64,
            spaces: spaces_of(alloc, origin.config, counts)?,
            connection_list: origin.traffic.list(rt, alloc)?,
            charts,
        })
    }

    /// The rates of the last ten seconds and what is drawn of the last five minutes, where so much
    /// was counted at this time.
    fn recent<T: Wait>(
        &self,
        rt: &T,
        alloc: Global,
        config: &Config,
        time: u64,
        counts: &Counts,
    ) -> Result<(Rates, Vec<Chart>), AllocError> {
        let history = self.history.lock(rt);
        let charts = history.charts(alloc, config, time)?;
        Ok((history.rates(time, counts), charts))
    }

    /// Puts a status, if there is memory for one.
    fn put<T: Wait>(&self, rt: &T, status: Option<Status>) {
        let mut place = self.status.lock(rt);
        *place = status;
        self.is_wanted.store(false, Ordering::SeqCst);
        self.put.notify_all();
    }

    /// Asks for a status, and waits for it. None where it doesn't come, as at a server's end.
    pub(crate) fn ask<T: Wait + Clock>(&self, rt: &T) -> Option<Status> {
        let mut place = self.status.lock(rt);
        // One that came too late for who asked for it is old by now.
        *place = None;
        self.is_wanted.store(true, Ordering::SeqCst);
        let (mut place, _timed_out) = self.put.wait_timeout_while(
            rt,
            place,
            Duration::from_millis(PATIENCE),
            |_: &mut Option<Status>| self.is_wanted(),
        );
        mem::replace(&mut *place, None)
    }
}
