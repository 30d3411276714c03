//! The answer to what a connection has said so far.
ghost use Rattle.std.specs.Prelude.{◌≡◌, ◌≢◌, Option, List, ℕ, [], Some, IfOk, IfSome};
ghost use Rattle.http_server.specs.History.{History, IsDone};
ghost use Rattle.jsp_status.specs.Answer.{Answers};
ghost use Rattle.jsp_status.specs.declared.connection.TheConstants.{LIMITS};

use crate::connection::serve;
use crate::status::Status;
use http_server::State;
use std::alloc::Global;
use std::hash::RandomState;
use std::io;
use std::io::{ErrorKind, Read};

/// What a connection has said so far. Unless that is all, a read past it fails.
#[derive(Drop)]
struct SoFar<'a> {
    rest: &'a [u8],
    is_all: bool,
}

impl Read for SoFar<'_> {
    ghost use Rattle.std.specs.Prelude.{Some};

    ghost remaining = { λ s. Some s.rest.now };

    fn read(&mut self, buf: &mut [u8]) -> io::Result<usize> {
        if self.rest.is_empty() && !self.is_all {
            return Err(ErrorKind::WouldBlock.into());
        }
        self.rest.read(buf)
    }
}

/// The whole answer to a connection that has said this so far, and says no more where this is all.
/// None where more is to come first.
///
/// The answers are those of `serve`. An `Err` is for memory.
pub fn answer_so_far(
    alloc: Global,
    keys: RandomState,
    status: &Status,
    said: &[u8],
    is_all: bool,
) -> io::Result<Option<Vec<u8>>>
    ensures { IfOk result (λ found. IfSome found (λ answer. (h : History) × (unread : Option (List ℕ))
        × Answers LIMITS status.now (Some said.now) unread (Some []) (Some answer.items) h
        × IsDone h × (h.state ≢ State.Aborted))) }
{
    let mut reader = SoFar { rest: said, is_all };
    let mut answer = Vec::new(alloc);
    match serve(alloc, keys, status, &mut reader, &mut answer) {
        Ok(()) => Ok(Some(answer)),
        Err(error) if error.kind() == ErrorKind::WouldBlock => Ok(None),
        Err(error) => Err(error),
    }
}
