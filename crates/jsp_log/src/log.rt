//! A server's log: a line on standard error for each thing that happens.
use crate::notice::{Level, Notice};
use jiff::Timestamp;
use std::alloc::Global;
use std::sync::{Condvar, Mutex, Wait};
use std::time::{Clock, Duration};
use std::{fmt, mem};

/// How many lines it has in a second at most. Further ones are counted, and the next line is behind
/// one that says how many they were.
const MOST_LINES: u32 = 200;

/// How a log is written.
#[derive(Clone, Copy, Debug, PartialEq, Eq)]
pub enum LogFormat {
    /// The time, and words.
    Text,
    /// An object for each line.
    Json,
}

/// How many lines wait at most to be written.
const MOST_WAITING: usize = 1024;

/// How long, in milliseconds, the last lines are waited for at a server's end.
const PATIENCE: u64 = 1000;

/// A server's log. All of its threads say what happens, and one of them writes that, so that nobody
/// else waits for whoever reads it. A line that can't be written is lost.
#[derive(Drop)]
pub struct ServerLog {
    alloc: Global,
    /// How it is written, if it is.
    format: Option<LogFormat>,
    /// Whether only what is wrong is told.
    is_quiet: bool,
    unwritten: Mutex<Unwritten>,
    /// Signalled when a line waits, and when those that waited are written.
    changed: Condvar,
}

/// What is still to be written.
#[derive(Drop)]
struct Unwritten {
    pace: Pace,
    lines: Vec<Line>,
    /// Whether lines are being written that were taken from here.
    is_writing: bool,
}

/// How many lines there were lately.
#[derive(Clone, Copy)]
struct Pace {
    /// In which second, after 1970 began.
    second: i64,
    count: u32,
    /// How many were left out since the last that wasn't.
    left_out: u64,
}

/// A line: what it says, and when, in milliseconds after 1970 began.
#[derive(Drop)]
struct Line {
    time: i64,
    format: LogFormat,
    notice: Notice,
}

impl ServerLog {
    /// A log on the system's standard error, or none. One that is quiet has only what is wrong.
    pub fn new(alloc: Global, format: Option<LogFormat>, is_quiet: bool) -> ServerLog {
        ServerLog {
            alloc,
            format,
            is_quiet,
            unwritten: Mutex::new(Unwritten {
                pace: Pace {
                    second: 0,
                    count: 0,
                    left_out: 0,
                },
                lines: Vec::new(alloc),
                is_writing: false,
            }),
            changed: Condvar::new(),
        }
    }

    /// Whether anything is ever to be written.
    pub fn is_on(&self) -> bool {
        self.format.is_some()
    }

    /// Has a line written, unless there were too many lately, or too many wait.
    pub fn write<T: Clock + Wait>(&self, rt: &T, notice: Notice) {
        if self.is_quiet && notice.level() == Level::Info {
            return;
        }
        if let Some(format) = self.format {
            let mut unwritten = self.unwritten.lock(rt);
            // The time is read in the lock, so that times rise.
            unwritten.add(Line {
                time: now(rt),
                format,
                notice,
            });
            self.changed.notify_all();
        }
    }

    /// Writes what there is to be written, for as long as the program runs. One thread does.
    pub fn write_on<T: Eprint + Wait>(&self, rt: &T) {
        for _ in rt.forever() {
            for line in self.next_lines(rt) {
                // Where it can't be written there is nobody to tell.
                let _ = rt.eprintln(line);
            }
            self.unwritten.lock(rt).is_writing = false;
            self.changed.notify_all();
        }
    }

    /// The lines that wait, once there is one.
    fn next_lines<T: Wait>(&self, rt: &T) -> Vec<Line> {
        let unwritten = self.unwritten.lock(rt);
        let mut unwritten = self.changed.wait_while(
            rt,
            unwritten,
            |unwritten: &mut Unwritten| unwritten.lines.is_empty(),
        );
        unwritten.is_writing = true;
        mem::replace(&mut unwritten.lines, Vec::new(self.alloc))
    }

    /// Waits until all is written, a moment at the longest.
    pub fn finish<T: Clock + Wait>(&self, rt: &T) {
        let unwritten = self.unwritten.lock(rt);
        let _done = self.changed.wait_timeout_while(
            rt,
            unwritten,
            Duration::from_millis(PATIENCE),
            |unwritten: &mut Unwritten| unwritten.is_writing || !unwritten.lines.is_empty(),
        );
    }
}

/// How many milliseconds it is after 1970 began, or 0 where the clock can't be read.
fn now<T: Clock>(rt: &T) -> i64 {
    match Timestamp::now(rt) {
        Ok(time) => time.as_millisecond(),
        Err(_) => 0,
    }
}

impl Unwritten {
    /// Adds a line, and before it one that says how many were left out, where some were.
    fn add(&mut self, line: Line) {
        let Some(count) = self.pace.next_in(line.time / 1000) else {
            return;
        };
        let left_out = Line {
            time: line.time,
            format: line.format,
            notice: Notice::LeftOut { count },
        };
        if self.lines.len() >= MOST_WAITING || self.lines.reserve(2).is_err() {
            self.pace.left_out = count.saturating_add(1);
            return;
        }
        if count > 0 {
            let _ = self.lines.push(left_out);
        }
        let _ = self.lines.push(line);
    }
}

impl Pace {
    /// Whether a line may be written in this second, and how many were left out before it.
    fn next_in(&mut self, second: i64) -> Option<u64> {
        if self.second != second {
            self.second = second;
            self.count = 0;
        }
        if self.count >= MOST_LINES {
            self.left_out = self.left_out.saturating_add(1);
            return None;
        }
        self.count += 1;
        Some(mem::replace(&mut self.left_out, 0))
    }
}

impl Line {
    /// The time as RFC 3339 writes it.
    fn write_time<W: fmt::Write>(&self, f: &mut fmt::Formatter<W>) -> fmt::Result {
        match Timestamp::from_millisecond(self.time) {
            Ok(time) => write!(f, "{time}"),
            Err(_) => f.write_str("-"),
        }
    }

    fn write_json<W: fmt::Write>(&self, f: &mut fmt::Formatter<W>) -> fmt::Result {
        f.write_str("{\"time\":\"")?;
        self.write_time(f)?;
        write!(
            f,
            "\",\"level\":\"{}\",\"what\":\"{}\"",
            self.notice.level(),
            self.notice.name()
        )?;
        match self.notice {
            Notice::Opened {
                connection,
                address,
            } => write!(f, ",\"connection\":{connection},\"address\":\"{address}\"")?,
            Notice::Ended {
                connection,
                address,
                requests,
                why,
            } => write!(
                f,
                ",\"connection\":{connection},\"address\":\"{address}\",\"requests\":{requests},\"why\":\"{}\"",
                why.name()
            )?,
            Notice::Refused { address, why } => {
                write!(f, ",\"address\":\"{address}\",\"why\":\"{}\"", why.name())?
            }
            Notice::Sealed => {}
            Notice::Unaccepted { error } => write!(f, ",\"error\":{error}")?,
            Notice::LeftOut { count } => write!(f, ",\"count\":{count}")?,
        }
        f.write_str("}")
    }
}

impl fmt::Display for Line {
    fn fmt<W: fmt::Write>(&self, f: &mut fmt::Formatter<W>) -> fmt::Result {
        match self.format {
            LogFormat::Text => {
                self.write_time(f)?;
                write!(f, " {}", self.notice)
            }
            LogFormat::Json => self.write_json(f),
        }
    }
}
