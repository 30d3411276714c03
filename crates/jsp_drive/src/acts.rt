//! What is driven, and what comes of it.
ghost use Rattle.std.specs.Prelude.{◌≡◌, IfOk};
ghost use Rattle.jsp_drive.specs.Tie.{bytes_to};

use jsp_model::Step;
use jsp_types::{Items, NoMemory};
use std::alloc::Global;

/// What happens to a house from outside. Sessions go by the numbers that their acts give them.
#[derive(Drop)]
pub enum Act {
    /// A session is opened. Passed over where its number isn't above all earlier ones and from 1
    /// to 2^31.
    Open { session: u64 },
    /// A session's next bytes, of any length. Passed over where the session isn't open.
    Piece { session: u64, bytes: Vec<u8> },
    /// A session is closed. Passed over where the session isn't open.
    Shut { session: u64 },
    /// A reading of the clock, in milliseconds.
    Clock { time: u64 },
    /// A settle turn: the next vote or the decision of the transaction whose commit was asked
    /// first. Where none votes, the first space that isn't quiet, in the configured order, is made
    /// quiet.
    Settle,
}

/// A frame that is sent to a session at an act. Acts are counted from 0.
#[derive(Drop)]
pub struct Sent {
    pub act: usize,
    pub session: u64,
    pub frame: Items<u8>,
}

/// All that was sent, act by act, and the steps that were made.
#[derive(Drop)]
pub struct Driven {
    pub sent: Vec<Sent>,
    pub steps: Vec<Step>,
}

impl Driven {
    /// The bytes that a session was sent: its frames, joined.
    pub fn bytes_of(&self, alloc: Global, session: u64) -> Result<Vec<u8>, NoMemory>
        ensures { IfOk result (λ v. v.items ≡ bytes_to session self.now.sent.items) }
    {
        let mut bytes = Vec::new(alloc);
        for sent in &self.sent {
            if sent.session == session {
                bytes.extend_from_slice(sent.frame.as_slice())?;
            }
        }
        Ok(bytes)
    }
}
