//! A script of requests, as the text of a script.
use std::alloc::{AllocError, Global};

/// An hour, the longest lease, in milliseconds.
pub(crate) const HOUR: u64 = 3_600_000;

/// The text of a script, and the numbers that the server gives while it runs.
#[derive(Drop)]
pub(crate) struct ScriptText {
    pub(crate) text: String,
    /// How many requests each session made, by its number less 1.
    asked: Vec<u64>,
    /// The last number that was given to what is stored, granted or waits.
    last: u64,
    time: u64,
}

impl ScriptText {
    pub(crate) fn new(alloc: Global) -> ScriptText {
        ScriptText {
            text: String::new(alloc),
            asked: Vec::new(alloc),
            last: 0,
            time: 0,
        }
    }

    /// Opens a session, and answers its number.
    pub(crate) fn open(&mut self) -> Result<u64, AllocError> {
        self.asked.push(0)?;
        let session = self.asked.len() as u64;
        writeln!(self.text, "open {session}")?;
        Ok(session)
    }

    /// Begins a request of a session, which is an object's members and `end`.
    pub(crate) fn ask(&mut self, session: u64) -> Result<(), AllocError> {
        let id = self.next_id(session);
        write!(self.text, "send {session} {{\"id\":{id},")?;
        Ok(())
    }

    /// Ends a request.
    pub(crate) fn end(&mut self) -> Result<(), AllocError> {
        self.text.push_str("}\n")
    }

    /// Ends a request for which the server gives the next number, and answers that.
    pub(crate) fn end_numbered(&mut self) -> Result<u64, AllocError> {
        self.end()?;
        self.last = self.last.saturating_add(1);
        Ok(self.last)
    }

    /// So many numbers more are given.
    pub(crate) fn give(&mut self, numbers: u64) {
        self.last = self.last.saturating_add(numbers);
    }

    /// The last number that was given.
    pub(crate) fn last(&self) -> u64 {
        self.last
    }

    /// A request that says nothing but this.
    pub(crate) fn say(&mut self, session: u64, members: &str) -> Result<(), AllocError> {
        self.ask(session)?;
        self.text.push_str(members)?;
        self.end()
    }

    /// Begins a transaction, and answers its number.
    pub(crate) fn begin(&mut self, session: u64, lease: u64) -> Result<u64, AllocError> {
        self.ask(session)?;
        write!(self.text, "\"op\":\"txn\",\"lease\":{lease}")?;
        self.end_numbered()
    }

    /// Commits a transaction that used so many spaces.
    pub(crate) fn commit(&mut self, session: u64, txn: u64, spaces: u32) -> Result<(), AllocError> {
        self.ask(session)?;
        write!(self.text, "\"op\":\"commit\",\"txn\":{txn}")?;
        self.end()?;
        for _ in 0..=spaces {
            self.text.push_str("settle\n")?;
        }
        Ok(())
    }

    /// The clock goes on by so many milliseconds.
    pub(crate) fn pass(&mut self, milliseconds: u64) -> Result<(), AllocError> {
        self.time = self.time.saturating_add(milliseconds);
        let time = self.time;
        writeln!(self.text, "clock {time}")?;
        Ok(())
    }

    fn next_id(&mut self, session: u64) -> u64 {
        let Some(place) = session.checked_sub(1) else {
            return 0;
        };
        match self.asked.get_mut(place as usize) {
            Some(asked) => {
                *asked = asked.saturating_add(1);
                *asked
            }
            None => 0,
        }
    }
}
