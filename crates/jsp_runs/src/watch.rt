//! Sees what each line is sent, and lets others wait for it.
use jsp_floor::{Clock, Counts, Gate};
use std::alloc::Global;
use std::sync::atomic::{AtomicBool, AtomicU64, Ordering};
use std::sync::{Mutex, Wait};
use std::test::Fail;
use std::time::Duration;
use std::{thread, time};

// How often somebody who waits looks whether it has come, a millisecond each.
const TURNS: u32 = 100_000;

// An answer of a session, by its place among the session's answers.
#[derive(Clone, Copy)]
pub(crate) struct Answer {
    pub(crate) session: u64,
    pub(crate) nth: u64,
}

// A frame of a session that isn't acted until an answer was written.
#[derive(Clone, Copy)]
pub(crate) struct Held {
    pub(crate) session: u64,
    pub(crate) nth: u64,
    pub(crate) until: Answer,
}

// What happened on a line so far.
#[derive(Drop)]
pub(crate) struct Seen {
    pub(crate) answers: AtomicU64,
    pub(crate) written: Mutex<Vec<u8>>,
}

// Sees what each line is sent, and lets others wait for it.
#[derive(Drop)]
pub(crate) struct Watch<'a, T> {
    pub(crate) rt: &'a T,
    pub(crate) held: &'a [Held],
    pub(crate) lines: Vec<Seen>,
    // Somebody waited in vain.
    pub(crate) is_late: AtomicBool,
}

impl<T: time::Clock> Watch<'_, T> {
    pub(crate) fn line(&self, session: u64) -> Option<&Seen> {
        self.lines.get(session as usize)
    }

    pub(crate) fn has(&self, answer: Answer) -> bool {
        match self.line(answer.session) {
            Some(line) => answer.nth <= line.answers.load(Ordering::SeqCst),
            None => false,
        }
    }

    pub(crate) fn wait_for(&self, answer: Option<Answer>) {
        let Some(answer) = answer else {
            return;
        };
        for _ in 0..TURNS {
            if self.has(answer) {
                return;
            }
            thread::sleep(self.rt, Duration::from_millis(1));
        }
        self.is_late.store(true, Ordering::SeqCst);
    }
}

impl<T: time::Clock> Gate for Watch<'_, T> {
    fn before(&self, session: u64, nth: u64) {
        for held in self.held {
            if held.session == session && held.nth == nth {
                self.wait_for(Some(held.until));
            }
        }
    }

    fn written(&self, session: u64, nth: u64) {
        if let Some(line) = self.line(session) {
            line.answers.store(nth, Ordering::SeqCst);
        }
    }

    fn cut(&self, _session: u64) {}

    fn sealed(&self) {}

    fn wants_counts(&self) -> bool {
        false
    }

    fn counted(&self, _counts: Counts) {}
}

// Reads 0 until an answer was written, and then 1000.
#[derive(Drop)]
pub(crate) struct Dial<'w, 'a, T> {
    pub(crate) watch: &'w Watch<'a, T>,
    pub(crate) noon: Option<Answer>,
}

impl<T: time::Clock> Clock for Dial<'_, '_, T> {
    fn now(&self) -> u64 {
        match self.noon {
            Some(noon) if self.watch.has(noon) => 1000,
            _ => 0,
        }
    }
}

pub(crate) fn watch_of<'a, T>(
    rt: &'a T,
    alloc: Global,
    held: &'a [Held],
) -> Result<Watch<'a, T>, Fail> {
    let mut lines = Vec::new(alloc);
    for _ in 0..9 {
        lines.push(Seen {
            answers: AtomicU64::new(0),
            written: Mutex::new(Vec::new(alloc)),
        })?;
    }
    Ok(Watch {
        rt,
        held,
        lines,
        is_late: AtomicBool::new(false),
    })
}
