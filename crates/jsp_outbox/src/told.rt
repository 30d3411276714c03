//! Which sessions were told something lately.
ghost use Rattle.std.specs.Prelude.{IsTrue};
ghost use Rattle.jsp_model.specs.Limits.{are_outboxes};

use crate::find::next_after;
use crate::queue::Queue;
use std::alloc::Global;

/// How many are noted one by one.
const MOST: usize = 1024;

/// The sessions that were told something since they were asked for. More than a few aren't noted,
/// nor where memory is refused: then it is each that has an outbox, from the first one on.
#[derive(Drop)]
pub(crate) struct Told {
    noted: Vec<u64>,
    /// Behind which session all that have an outbox are to be named, if they are.
    after: Option<u64>,
}

impl Told {
    /// None.
    pub(crate) fn new(alloc: Global) -> Self {
        Told {
            noted: Vec::new(alloc),
            after: None,
        }
    }

    /// Each that has an outbox.
    pub(crate) fn all(alloc: Global) -> Self {
        Told {
            noted: Vec::new(alloc),
            after: Some(0),
        }
    }

    /// Notes a session, which was told something.
    pub(crate) fn note(&mut self, session: u64) {
        if self.noted.as_slice().last() == Some(&session) {
            return;
        }
        if self.noted.len() >= MOST || self.noted.push(session).is_err() {
            self.noted.clear();
            self.after = Some(0);
        }
    }

    /// One of them, which then isn't any more. It may have no outbox by now.
    pub(crate) fn next(&mut self, queues: &[Queue]) -> Option<u64>
        requires { IsTrue (are_outboxes queues.now) }
    {
        if let Some(after) = self.after {
            self.after = next_after(queues, after);
            if self.after.is_some() {
                return self.after;
            }
        }
        self.noted.pop()
    }
}
