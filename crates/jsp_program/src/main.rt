//! The command `jsp`: reads its arguments and hands the work to jsp_script and jsp_serve.
//!
//! `jsp script NAME..` runs the script on standard input over the spaces NAME.. and prints each
//! answer; with `--audit` it replays the run first, and compares it with what was sent, and with
//! `--scan` it looks at each entry in every search. `jsp listen ADDR NAME..` serves clients over
//! TCP. Both end with status 0, also after help, with 2 where the arguments or the standard streams
//! can't be used, with 3 where a server's history differs from what its lines read and wrote, and
//! else with 1 after the first fault met, which is told on standard error. `jsp client ADDR` makes
//! requests of a server, and ends with 1 where one was refused too; `jsp client --status ADDR`
//! prints what a server shows.
#![tactic(auto)]

mod arguments;
mod client;
mod fault;
mod listen;
mod room;
mod script;
mod spaces;
mod standard;

use arguments::{CLIENT, LISTEN, command};
use clap::ArgMatches;
use clap::error::{Error, ErrorKind};
use client::{Shell, help, status};
use fault::Fault;
use jsp_shell::Typing;
use listen::{End, LogWriter, Server, Window};
use script::Script;
use spaces::config;
use standard::open_standard;
use std::env::Env;
use std::fs::{File, Files};
use std::io::{self, Stderr, Stdin, Stdout};
use std::net::{Net, TcpListener, TcpStream};
use std::process::ExitCode;
use std::random::RandomSource;
use std::sync::Wait;
use std::thread::{self, Threads};
use std::time::Clock;

/// What a script or a client reads and writes.
#[derive(Drop)]
struct Streams {
    input: Stdin,
    out: Stdout,
    faults: Stderr,
}

/// What the arguments ask for.
#[derive(Drop)]
enum Job {
    /// Help, or what is wrong with the arguments, which has been told: this status.
    Told(ExitCode),
    Script(Script),
    Listen(Server),
    Client(Shell),
}

/// What runs beside a job, in a thread of its own.
#[derive(Drop)]
enum Background {
    End(End, Stdin),
    Typing(Typing, Stdin),
    Window(Window),
    LogWriter(LogWriter),
}

fn main(rt: HostRuntime) -> ExitCode {
    let streams = Streams {
        input: rt.stdin(),
        out: rt.stdout(),
        faults: rt.stderr(),
    };
    let done = match open_standard(&rt).and_then(|()| read_job(&rt, &streams)) {
        Ok(job) => match job.background(&rt, streams.input) {
            Ok(background) => {
                let mut begun = Ok(());
                // Nobody waits for these threads: what they are for may end before.
                for task in background {
                    let fault = task.fault();
                    begun = begun.and(match rt.clone() {
                        Ok(system) => match thread::spawn(&rt, move || task.run(&system)) {
                            Ok(_) => Ok(()),
                            Err(_) => Err(fault),
                        },
                        Err(_) => Err(Fault::NoMemory),
                    });
                }
                match begun {
                    Ok(()) => job.run(&rt, streams),
                    Err(fault) => Err(fault),
                }
            }
            Err(fault) => Err(fault),
        },
        Err(fault) => Err(fault),
    };
    match done {
        Ok(status) => status,
        Err(fault) => {
            // There is nobody left to tell that this can't be told.
            let _ = eprintln!(rt; "jsp: {fault}");
            fault.status()
        }
    }
}

impl Job {
    /// What is to run beside it, as what reads standard input meanwhile.
    fn background<R: AllocGlobal + Files<File = File>>(
        &self,
        rt: &R,
        input: Stdin,
    ) -> Result<Vec<Background>, Fault> {
        let mut background = Vec::new(rt.alloc());
        match self {
            Job::Told(_) | Job::Script(_) => {}
            Job::Listen(server) => {
                if let Some(end) = server.end(rt)? {
                    background.push(Background::End(end, input))?;
                }
                if let Some(window) = server.window()? {
                    background.push(Background::Window(window))?;
                }
                if let Some(writer) = server.log_writer()? {
                    background.push(Background::LogWriter(writer))?;
                }
            }
            Job::Client(shell) => {
                if let Some(typing) = shell.typing()? {
                    background.push(Background::Typing(typing, input))?;
                }
            }
        }
        Ok(background)
    }

    fn run<R: AllocGlobal + Print + Eprint + Clock + Files<File = File> + Threads + Wait + Sync>(
        self,
        rt: &R,
        streams: Streams,
    ) -> Result<ExitCode, Fault> {
        match self {
            Job::Told(status) => Ok(status),
            Job::Script(script) => Ok(script.run(rt.alloc(), streams)),
            Job::Listen(server) => server.serve(rt),
            Job::Client(shell) => shell.run(rt),
        }
    }
}

impl Background {
    fn run<
        R: AllocGlobal
            + Clock
            + Eprint
            + Files<File = File>
            + Net<Stream = TcpStream>
            + RandomSource
            + Wait,
    >(self, rt: &R) {
        match self {
            Background::End(end, input) => end.come(rt, input),
            Background::Typing(typing, input) => typing.run(rt, input),
            Background::Window(window) => window.show(rt),
            Background::LogWriter(writer) => writer.run(rt),
        }
    }

    /// What is wrong where there is no thread for it.
    fn fault(&self) -> Fault {
        match self {
            Background::End(..) | Background::Typing(..) => Fault::Spawn,
            Background::Window(_) => Fault::SpawnShow,
            Background::LogWriter(_) => Fault::SpawnLog,
        }
    }
}

/// What the arguments ask for. A server listens by then.
fn read_job<
    R: AllocGlobal
        + Env
        + Print
        + Eprint
        + Net<Listener = TcpListener, Stream = TcpStream>
        + RandomSource,
>(rt: &R, streams: &Streams) -> Result<Job, Fault> {
    let alloc = rt.alloc();
    let words = words(rt)?;
    let matches = match command(alloc)?.try_get_matches_from(words.as_slice()) {
        Ok(matches) => matches,
        Err(error) => return Ok(Job::Told(explain(rt, &error)?)),
    };
    let Some((kind, given)) = matches.subcommand() else {
        return Err(Fault::Arguments);
    };
    if kind == CLIENT {
        let told = match help(alloc, given, streams)? {
            Some(told) => Some(told),
            None => status(rt, given)?,
        };
        return match told {
            Some(status) => Ok(Job::Told(status)),
            None => Ok(Job::Client(Shell::connect(rt, given, streams)?)),
        };
    }
    let config = config(alloc, given)?;
    match kind {
        LISTEN => Ok(Job::Listen(Server::listen(rt, config, given)?)),
        _ => Ok(Job::Script(Script::new(rt, config, given))),
    }
}

/// The arguments, which begin with the program's name.
fn words<R: AllocGlobal + Env>(rt: &R) -> Result<Vec<String>, Fault> {
    match std::env::args(rt) {
        Ok(words) => Ok(words.collect(rt.alloc())?),
        Err(error) if matches!(error.kind(), io::ErrorKind::OutOfMemory) => Err(Fault::NoMemory),
        Err(_) => Err(Fault::Arguments),
    }
}

/// Shows help, or what is wrong with the arguments.
fn explain<R: Print + Eprint>(rt: &R, error: &Error) -> Result<ExitCode, Fault> {
    if matches!(error.kind(), ErrorKind::OutOfMemory) {
        return Err(Fault::NoMemory);
    }
    match error.print(rt) {
        Ok(()) => Ok(ExitCode::from(error.exit_code() as u8)),
        Err(_) => Err(Fault::Write),
    }
}
