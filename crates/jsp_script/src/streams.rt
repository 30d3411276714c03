//! Bytes, gathered by session.
ghost use Rattle.std.specs.Prelude.{◌≡◌, ◌++◌, ◌==◌, ℕ, List, [], if◌then◌else◌, IfOk, OnOk};
ghost use Rattle.jsp_drive.specs.Tie.{bytes_to};
ghost use Rattle.jsp_script.specs.Audit.{Has, frames_to};

use jsp_drive::{Sent, encode};
use jsp_reply::Said;
use jsp_types::NoMemory;
use std::alloc::Global;
use std::collections::HashMap;
use std::marker::Model;

/// A session's bytes, which contracts see as a list.
#[derive(Drop)]
pub(crate) struct Stream {
    bytes: Vec<u8>,
}

impl Model for Stream {
    ghost use Rattle.std.specs.Prelude.{List, ℕ};

    ghost Value = { List ℕ };

    ghost view = { λ a. a.bytes.items };
}

impl PartialEq for Stream {
    ghost use Rattle.std.specs.Prelude.{nat_eq};
    ghost use Rattle.std.specs.Cmp.Lexicographic.{pointwise, nat_list_eq_equiv};
    ghost use Rattle.std.specs.Cmp.{partial_equiv_from_equiv};

    ghost eq = { pointwise nat_eq };

    ghost laws = { partial_equiv_from_equiv nat_list_eq_equiv };

    fn eq(&self, other: &Stream) -> bool {
        self.bytes.as_slice() == other.bytes.as_slice()
    }
}

/// The bytes of each session that has any.
pub(crate) type Streams = HashMap<u64, Stream>;

/// Adds bytes at the end of a session's.
fn add(alloc: Global, streams: &mut Streams, session: u64, bytes: &[u8]) -> Result<(), NoMemory>
    ensures { OnOk result ((before : ℕ → List ℕ) → Has streams.old before → Has streams.new (λ s. before s ++ (if session == s then bytes.now else []))) }
{
    if bytes.is_empty() {
        return Ok(());
    }
    let mut joined = match streams.remove(&session) {
        Some(stream) => stream.bytes,
        None => Vec::new(alloc),
    };
    joined.extend_from_slice(bytes)?;
    streams.insert(session, Stream { bytes: joined })?;
    Ok(())
}

/// What was sent to each session.
pub(crate) fn streams_sent(alloc: Global, sent: &[Sent]) -> Result<Streams, NoMemory>
    ensures { IfOk result (λ streams. Has streams (λ s. bytes_to s sent.now)) }
{
    let mut streams = HashMap::new(alloc);
    'sent: for one in sent {
        add(alloc, &mut streams, one.session, one.frame.as_slice())?;
    }
    Ok(streams)
}

/// The frames of what is said to each session.
pub(crate) fn streams_said(alloc: Global, said: &[(u64, Said)]) -> Result<Streams, NoMemory>
    ensures { IfOk result (λ streams. Has streams (λ s. frames_to s said.now)) }
{
    let mut streams = HashMap::new(alloc);
    'said: for (session, answer) in said {
        let frame = encode(alloc, answer)?;
        add(alloc, &mut streams, *session, frame.as_slice())?;
    }
    Ok(streams)
}
