//! `jsp listen`: a server over TCP.
ghost use Rattle.std.specs.Prelude.{◌≤◌};

use crate::arguments::{
    ADDRESS, BACKLOG, BACKLOG_BYTES, CONNECTIONS, ERA, ERA_BYTES, IDLE, JSON, LINES, LOG,
    LONGEST_ERA, MOST_LINES, OFF, QUIET, STATUS, UNTIL_INPUT, USUAL_BACKLOG, USUAL_BACKLOG_BYTES,
    USUAL_CONNECTIONS, USUAL_ERA, USUAL_ERA_BYTES, VERSION,
};
use crate::fault::Fault;
use crate::room::find_room;
use crate::standard::open_null_device;
use clap::ArgMatches;
use jsp_house::Seeds;
use jsp_model::Config;
use jsp_serve::{
    Board, Bounds, Closed, LineReport, LogFormat, ServerLog, Service, Stop, serve, show_status,
};
use std::fs::{File, Files};
use std::io::{self, ErrorKind, Read, Stdin, Write};
use std::net::{Net, SocketAddr, TcpListener, TcpStream};
use std::process::ExitCode;
use std::random::RandomSource;
use std::sync::{Arc, Wait};
use std::thread::{self, Threads};
use std::time::{Clock, Duration};

/// After how many milliseconds the connection that ends a server is tried again.
const PAUSE: u64 = 50;

/// How many sessions are named at most.
const NAMED: usize = 16;

/// A server that listens.
#[derive(Drop)]
pub(crate) struct Server {
    listener: TcpListener,
    config: Config,
    service: Service,
    /// Whether its seeds are numbers that nobody can know.
    has_random_seeds: bool,
    stop: Arc<Stop>,
    /// Whether standard input ends it.
    until_input: bool,
    /// What shows its status, if anything is to.
    window: Option<Window>,
    log: Arc<ServerLog>,
    ghost within: { (1 ≤ service.bounds.era) × (service.bounds.era ≤ 16777216) },
}

/// Where a server shows its status.
#[derive(Drop)]
pub(crate) struct Window {
    listener: Arc<TcpListener>,
    board: Arc<Board>,
}

/// What writes a server's log.
#[derive(Drop)]
pub(crate) struct LogWriter {
    log: Arc<ServerLog>,
}

impl LogWriter {
    /// Writes it for as long as the program runs.
    pub(crate) fn run<R: Eprint + Wait>(self, rt: &R) {
        self.log.write_on(rt);
    }
}

/// How a server is ended in order from outside.
#[derive(Drop)]
pub(crate) struct End {
    address: SocketAddr,
    stop: Arc<Stop>,
    /// What keeps a descriptor for the connection that wakes the server, which may have none left
    /// by then.
    kept: File,
}

impl Server {
    /// Listens where it is told.
    pub(crate) fn listen<
        R: AllocGlobal + Net<Listener = TcpListener, Stream = TcpStream> + RandomSource,
    >(rt: &R, config: Config, given: &ArgMatches<'_>) -> Result<Server, Fault> {
        let address = given.get_str(ADDRESS).unwrap_or_default();
        let listener = match TcpListener::bind(rt, address) {
            Ok(listener) => listener,
            Err(error) => return Err(Fault::Listen(error)),
        };
        let Ok(stop) = Arc::new(rt.alloc(), Stop::new()) else {
            return Err(Fault::NoMemory);
        };
        let log = ServerLog::new(rt.alloc(), log_format(given), given.get_flag(QUIET));
        let Ok(log) = Arc::new(rt.alloc(), log) else {
            return Err(Fault::NoMemory);
        };
        let seeds = Seeds::random(rt);
        Ok(Server {
            listener,
            config,
            service: service(given, seeds.unwrap_or(Seeds::known())),
            has_random_seeds: seeds.is_some(),
            stop,
            until_input: given.get_flag(UNTIL_INPUT),
            window: Window::open(rt, given)?,
            log,
        })
    }

    /// How standard input ends it, where it is to.
    pub(crate) fn end<R: Files<File = File>>(&self, rt: &R) -> Result<Option<End>, Fault> {
        if !self.until_input {
            return Ok(None);
        }
        let address = match self.listener.local_addr() {
            Ok(address) => address,
            Err(error) => return Err(Fault::Listen(error)),
        };
        let kept = match open_null_device(rt) {
            Ok(kept) => kept,
            Err(error) => return Err(Fault::Listen(error)),
        };
        let stop = Arc::try_clone(&self.stop)?;
        Ok(Some(End {
            address,
            stop,
            kept,
        }))
    }

    /// What shows its status, where it is to be shown.
    pub(crate) fn window(&self) -> Result<Option<Window>, Fault> {
        match &self.window {
            Some(window) => Ok(Some(window.share()?)),
            None => Ok(None),
        }
    }

    /// What writes its log, where it has one.
    pub(crate) fn log_writer(&self) -> Result<Option<LogWriter>, Fault> {
        if !self.log.is_on() {
            return Ok(None);
        }
        let log = Arc::try_clone(&self.log)?;
        Ok(Some(LogWriter { log }))
    }

    /// Says where it listens, and serves. At its end it says on standard error what was compared.
    /// The status is 1 where a line wasn't, for want of memory.
    pub(crate) fn serve<
        R: AllocGlobal + Print + Eprint + Clock + Files<File = File> + Threads + Wait + Sync,
    >(self, rt: &R) -> Result<ExitCode, Fault> {
        let Server {
            listener,
            config,
            service,
            has_random_seeds,
            stop,
            until_input: _,
            window,
            log,
        } = self;
        find_room(rt)?;
        if !has_random_seeds && say_seeds(rt).is_err() {
            return Err(Fault::Write);
        }
        if say_where(rt, &listener, &window).is_err() {
            return Err(Fault::Write);
        }
        let board = window.as_ref().map(|window| &*window.board);
        let closed = serve(
            rt,
            rt.alloc(),
            listener,
            &config,
            service,
            &*stop,
            VERSION,
            board,
            &*log,
        )?;
        if log.is_on() {
            log.finish(rt);
        }
        if say_compared(rt, &closed).is_err() {
            return Err(Fault::Write);
        }
        Ok(if is_compared(&closed) {
            ExitCode::SUCCESS
        } else {
            ExitCode::FAILURE
        })
    }
}

impl Window {
    /// Listens where the status is to be shown, if it is.
    fn open<R: AllocGlobal + Net<Listener = TcpListener, Stream = TcpStream>>(
        rt: &R,
        given: &ArgMatches<'_>,
    ) -> Result<Option<Window>, Fault> {
        let Some(address) = given.get_str(STATUS) else {
            return Ok(None);
        };
        let listener = match TcpListener::bind(rt, address) {
            Ok(listener) => listener,
            Err(error) => return Err(Fault::Show(error)),
        };
        let Ok(listener) = Arc::new(rt.alloc(), listener) else {
            return Err(Fault::NoMemory);
        };
        let Ok(board) = Arc::new(rt.alloc(), Board::new(rt.alloc())) else {
            return Err(Fault::NoMemory);
        };
        Ok(Some(Window { listener, board }))
    }

    fn share(&self) -> Result<Window, Fault> {
        Ok(Window {
            listener: Arc::try_clone(&self.listener)?,
            board: Arc::try_clone(&self.board)?,
        })
    }

    /// Shows the status to all who connect.
    pub(crate) fn show<R: AllocGlobal + Clock + Files<File = File> + RandomSource + Wait>(
        self,
        rt: &R,
    ) {
        show_status(rt, rt.alloc(), &*self.listener, &*self.board);
    }
}

impl End {
    /// Waits for a line of the input or its end, and stops the server, which a connection wakes.
    pub(crate) fn come<R: Clock + Net<Stream = TcpStream> + Wait>(self, rt: &R, input: Stdin) {
        let End {
            address,
            stop,
            kept,
        } = self;
        wait_for_line(rt, input);
        stop.ask();
        if TcpStream::connect(rt, address).is_ok() {
            return;
        }
        // Where no descriptor is left, a server that asks for one again and again sees by itself
        // that it is to stop, and would else take the one that is kept. One that waits for a
        // connection has its own.
        thread::sleep(rt, Duration::from_millis(4 * PAUSE));
        drop(kept);
        for _ in rt.forever() {
            if TcpStream::connect(rt, address).is_ok() {
                return;
            }
            thread::sleep(rt, Duration::from_millis(PAUSE));
        }
    }
}

/// How its log is to be written, if it is to have one.
fn log_format(given: &ArgMatches<'_>) -> Option<LogFormat> {
    match given.get_str(LOG) {
        Some(OFF) => None,
        Some(JSON) => Some(LogFormat::Json),
        _ => Some(LogFormat::Text),
    }
}

/// How it is to serve.
fn service(given: &ArgMatches<'_>, seeds: Seeds) -> Service
    ensures { (1 ≤ result.bounds.era) × (result.bounds.era ≤ 16777216) }
{
    let number = |id: &str, usual: u64| given.get_one::<u64>(id).unwrap_or(usual);
    Service {
        lines: number(LINES, MOST_LINES),
        idle: given.get_one::<u64>(IDLE).map(Duration::from_secs),
        bounds: Bounds {
            lines: number(CONNECTIONS, USUAL_CONNECTIONS) as usize,
            era: number(ERA, USUAL_ERA).clamp(1, LONGEST_ERA),
            era_bytes: number(ERA_BYTES, USUAL_ERA_BYTES),
            backlog: number(BACKLOG, USUAL_BACKLOG),
            backlog_bytes: number(BACKLOG_BYTES, USUAL_BACKLOG_BYTES),
        },
        seeds,
    }
}

/// Reads until a line's end, or as far as can be read.
fn wait_for_line<R: Wait>(rt: &R, input: Stdin) {
    let mut input = input;
    let mut byte = [0];
    for _ in rt.forever() {
        match input.read(&mut byte) {
            Ok(1) if byte[0] != b'\n' => {}
            Err(error) if error.kind() == ErrorKind::Interrupted => {}
            _ => return,
        }
    }
}

/// Says that its seeds are known, so that clients can slow one another down.
fn say_seeds(rt: &impl Eprint) -> io::Result<()> {
    eprintln!(rt;
        "jsp: no random number can be had: clients can choose texts that are slow to find"
    )
}

/// Says where it listens: the address that was bound, with the port that was found.
fn say_where(rt: &impl Print, listener: &TcpListener, window: &Option<Window>) -> io::Result<()> {
    println!(rt; "listening {}", listener.local_addr()?)?;
    if let Some(window) = window {
        println!(rt; "status {}", window.listener.local_addr()?)?;
    }
    io::writer(rt).flush()
}

/// Whether nothing is left that memory was wanting to compare.
fn is_compared(closed: &Closed) -> bool {
    match closed {
        Closed::Whole { lines, .. } => lines.iter().all(|line| line.is_whole),
        Closed::Sealed { .. } => true,
    }
}

/// Says what of the history was compared with what the lines read and wrote, and what wasn't, and
/// to whom not all was written.
fn say_compared(rt: &impl Eprint, closed: &Closed) -> io::Result<()> {
    match closed {
        Closed::Whole { lines, .. } => {
            let lines = lines.as_slice();
            let count = lines.iter().filter(|line| line.is_whole).count();
            eprintln!(rt; "jsp: compared {count} lines")?;
            say_sessions(
                rt,
                "not compared, since memory was short",
                lines,
                Fate::Short,
            )?;
            say_sessions(rt, "cut short", lines, Fate::Cut)
        }
        Closed::Sealed { .. } => eprintln!(rt; "jsp: not compared: an era was sealed"),
    }
}

/// What became of a line.
#[derive(Clone, Copy, PartialEq, Eq)]
enum Fate {
    /// All that was said to it was written.
    Written,
    /// Its client broke off, or didn't read.
    Cut,
    /// Memory was wanting, so that it wasn't compared.
    Short,
}

fn fate_of(line: &LineReport) -> Fate {
    if !line.is_whole {
        return Fate::Short;
    }
    if line.write_failed {
        Fate::Cut
    } else {
        Fate::Written
    }
}

/// Names the sessions of the lines of which this became, if there are any, and says what it is.
fn say_sessions(rt: &impl Eprint, what: &str, lines: &[LineReport], fate: Fate) -> io::Result<()> {
    let count = lines.iter().filter(|line| fate_of(line) == fate).count();
    if count == 0 {
        return Ok(());
    }
    eprint!(rt; "jsp: {what}: session")?;
    let named = lines
        .iter()
        .filter(|line| fate_of(line) == fate)
        .take(NAMED);
    for (place, line) in named.enumerate() {
        if place > 0 {
            eprint!(rt; ",")?;
        }
        eprint!(rt; " {}", line.session)?;
    }
    if count > NAMED {
        eprint!(rt; " and {} more", count - NAMED)?;
    }
    eprintln!(rt; "")
}
