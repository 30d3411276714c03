//! A connection that asks for the status.
ghost use Rattle.std.specs.Prelude.{◌≢◌, OnOk};
ghost use Rattle.http_server.specs.History.{History, IsDone};
ghost use Rattle.jsp_status.specs.Answer.{Answers};

use crate::answer::Pages;
use crate::status::Status;
use http_server::{Config, Connection, State};
use http1::Limits;
use std::alloc::Global;
use std::hash::RandomState;
use std::io;
use std::io::{ErrorKind, Read, Write};

/// A request for the status is short, and has no body.
pub(crate) const LIMITS: Config = Config {
    limits: Limits {
        max_head_len: 16 * 1024,
        max_extensions_len: 16,
        max_trailers_len: 16,
    },
    max_body_len: 16,
    max_pending: 64 * 1024,
    read_size: 4 * 1024,
};

/// Answers a connection over HTTP, and says that it is then to be closed.
///
/// `GET /` is answered with the page, `GET /status.json` with the JSON, `GET /metrics` with the
/// metrics, another path with 404, another method with 405, and what isn't HTTP with 400. An `Err`
/// is for memory, and for a reader or writer that fails.
pub fn serve<R: Read, W: Write>(
    alloc: Global,
    keys: RandomState,
    status: &Status,
    reader: &mut R,
    writer: &mut W,
) -> io::Result<()>
    ensures { (h : History)
        × Answers LIMITS status.now (R.remaining reader.old) (R.remaining reader.new)
        (W.contents writer.old) (W.contents writer.new) h
        × OnOk result (IsDone h × (h.state ≢ State.Aborted)) }
{
    let mut connection = Connection::new(alloc, keys, LIMITS);
    let mut pages = Pages { alloc, status };
    let done = http_server::serve(&mut connection, &mut pages, reader, writer);
    match connection.state() {
        State::Aborted => Err(ErrorKind::OutOfMemory.into()),
        _ => done,
    }
}
