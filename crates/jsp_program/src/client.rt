//! `jsp client`: requests of a server over TCP.
use crate::Streams;
use crate::arguments::{ADDRESS, MUST, REQUEST, STATUS};
use crate::fault::Fault;
use clap::ArgMatches;
use jsp_shell::{Client, Options, Typing, show_help};
use jsp_status::{AskFault, ask};
use std::alloc::{AllocError, Global};
use std::io::IsTerminal;
use std::net::{Net, TcpStream};
use std::process::ExitCode;
use std::sync::Wait;

/// What stands in place of an address where it is asked how requests are written.
const HELP: &str = "help";

/// Tells how requests are written, where that is asked in place of a server.
pub(crate) fn help(
    alloc: Global,
    given: &ArgMatches<'_>,
    streams: &Streams,
) -> Result<Option<ExitCode>, Fault> {
    if given.get_str(ADDRESS) != Some(HELP) {
        return Ok(None);
    }
    let words = given.get_strs(REQUEST).unwrap_or_default();
    let mut line = String::from_str(alloc, HELP)?;
    push_words(&mut line, words)?;
    let refused = show_help(alloc, line.as_str(), streams.out, streams.faults)?;
    Ok(Some(ExitCode::from(refused.status())))
}

/// Prints a server's status, where that is asked for in place of a session.
pub(crate) fn status<R: AllocGlobal + Print + Net<Stream = TcpStream>>(
    rt: &R,
    given: &ArgMatches<'_>,
) -> Result<Option<ExitCode>, Fault> {
    if !given.get_flag(STATUS) {
        return Ok(None);
    }
    let address = given.get_str(ADDRESS).unwrap_or_default();
    let stream = match TcpStream::connect(rt, address) {
        Ok(stream) => stream,
        Err(error) => return Err(Fault::Ask(AskFault::Broken(error))),
    };
    let text = ask(rt.alloc(), stream)?;
    match println!(rt; "{text}") {
        Ok(()) => Ok(Some(ExitCode::SUCCESS)),
        Err(_) => Err(Fault::Write),
    }
}

/// Appends words with a blank before each.
fn push_words(line: &mut String, words: &[&str]) -> Result<(), AllocError> {
    for word in words {
        line.push(' ')?;
        line.push_str(word)?;
    }
    Ok(())
}

/// A client that is connected.
#[derive(Drop)]
pub(crate) struct Shell {
    client: Client,
    /// The one request that it makes, where it doesn't read them.
    request: Option<String>,
}

impl Shell {
    /// Connects where it is told.
    pub(crate) fn connect<R: AllocGlobal + Net<Stream = TcpStream>>(
        rt: &R,
        given: &ArgMatches<'_>,
        streams: &Streams,
    ) -> Result<Shell, Fault> {
        let address = given.get_str(ADDRESS).unwrap_or_default();
        let request = match given.get_strs(REQUEST) {
            Some(words) => {
                let mut request = String::new(rt.alloc());
                push_words(&mut request, words)?;
                Some(request)
            }
            None => None,
        };
        let is_typed = request.is_none() && streams.input.is_terminal();
        let options = Options {
            must_find: given.get_flag(MUST),
            is_typed,
            has_prompt: is_typed && streams.out.is_terminal(),
        };
        let client = Client::connect(rt, address, options, streams.out, streams.faults)?;
        Ok(Shell { client, request })
    }

    /// What reads standard input, where it is to be read.
    pub(crate) fn typing(&self) -> Result<Option<Typing>, Fault> {
        match self.request {
            Some(_) => Ok(None),
            None => Ok(Some(self.client.typing()?)),
        }
    }

    /// Makes the one request, or those that are read meanwhile, and prints what the server says.
    pub(crate) fn run<R: Wait>(self, rt: &R) -> Result<ExitCode, Fault> {
        let Shell { client, request } = self;
        if let Some(request) = request {
            client.ask(rt, request.as_str())?;
        }
        Ok(ExitCode::from(client.run(rt)?.status()))
    }
}
