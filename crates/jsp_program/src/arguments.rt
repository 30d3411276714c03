//! What the command line may say.
use clap::builder::ValueParser;
use clap::{Arg, ArgAction, Command};
use std::alloc::{AllocError, Global};

/// The version, as CHANGELOG.md has it.
pub(crate) const VERSION: &str = "0.1.0";

/// The subcommand that serves clients.
pub(crate) const LISTEN: &str = "listen";

/// The subcommand that is a client.
pub(crate) const CLIENT: &str = "client";

/// The id of the one request of a client, in words.
pub(crate) const REQUEST: &str = "REQUEST";

/// The id of the flag by which a search is to find an entry.
pub(crate) const MUST: &str = "must";

/// The id of the spaces' names.
pub(crate) const NAMES: &str = "NAME";

/// The id of the flag that asks for a replay.
pub(crate) const AUDIT: &str = "audit";

/// The id of the flag that asks for rows to be looked at one by one.
pub(crate) const SCAN: &str = "scan";

/// The id of the address to listen on, or to connect to.
pub(crate) const ADDRESS: &str = "ADDR";

/// The id of the number of connections to serve.
pub(crate) const LINES: &str = "lines";

/// The id of the length of an era.
pub(crate) const ERA: &str = "era";

/// The id of the number of connections to serve at once.
pub(crate) const CONNECTIONS: &str = "connections";

/// The id of the time after which an idle connection is closed.
pub(crate) const IDLE: &str = "idle";

/// The id of the flag that has standard input end the server.
pub(crate) const UNTIL_INPUT: &str = "until-input";

/// The id of the address at which the status is shown, and of the flag that asks for one.
pub(crate) const STATUS: &str = "status";

/// The id of how the log is written, and what it may say.
pub(crate) const LOG: &str = "log";

pub(crate) const JSON: &str = "json";

pub(crate) const OFF: &str = "off";

const LOG_FORMATS: &[&str] = &["text", JSON, OFF];

/// The id of the flag that leaves only what is wrong in the log.
pub(crate) const QUIET: &str = "quiet";

/// The id of the most bytes of an era.
pub(crate) const ERA_BYTES: &str = "era-bytes";

/// The most bytes of an era, a tebibyte, and how many they are where it isn't told, 64 MiB.
pub(crate) const MOST_ERA_BYTES: u64 = 1 << 40;

pub(crate) const USUAL_ERA_BYTES: u64 = 1 << 26;

/// The id of how many answers may wait for a client.
pub(crate) const BACKLOG: &str = "backlog";

/// The most answers that may wait for a client, and how many they are where it isn't told.
pub(crate) const MOST_BACKLOG: u64 = 1 << 32;

pub(crate) const USUAL_BACKLOG: u64 = 65_536;

/// The id of how much memory they may take.
pub(crate) const BACKLOG_BYTES: &str = "backlog-bytes";

/// The most bytes of memory that they may take, a tebibyte, and how many where it isn't told, 16
/// MiB.
pub(crate) const MOST_BACKLOG_BYTES: u64 = 1 << 40;

pub(crate) const USUAL_BACKLOG_BYTES: u64 = 1 << 24;

/// The most connections at once, and how many they are where it isn't told.
pub(crate) const MOST_CONNECTIONS: u64 = 4096;

pub(crate) const USUAL_CONNECTIONS: u64 = 256;

/// The longest time that a connection may be idle, in seconds: a year.
pub(crate) const LONGEST_IDLE: u64 = 31_536_000;

/// The most connections that one run serves, which is what it serves where it isn't told.
pub(crate) const MOST_LINES: u64 = 1_000_000_000;

/// The longest era, in steps.
pub(crate) const LONGEST_ERA: u64 = 16_777_216;

/// The length of an era where it isn't told: some 40 MB of history, where requests
/// are short.
pub(crate) const USUAL_ERA: u64 = 131_072;

/// The command's arguments, with their help.
pub(crate) fn command<'a>(alloc: Global) -> Result<Command<'a>, AllocError> {
    Command::new(alloc, "jsp")
        .bin_name("jsp")?
        .about("Shared spaces of typed entries: JavaSpaces, proved from bytes to bytes")
        .version(VERSION)
        .subcommand_required(true)
        .arg_required_else_help(false)
        .subcommand(script(alloc)?)?
        .subcommand(listen(alloc)?)?
        .subcommand(client(alloc)?)
}

fn script<'a>(alloc: Global) -> Result<Command<'a>, AllocError> {
    let audit = Arg::new(alloc, AUDIT)
        .long(AUDIT)
        .help("Replays the run before anything is printed, and compares it with what was sent")
        .action(ArgAction::SetTrue);
    let scan = Arg::new(alloc, SCAN)
        .long(SCAN)
        .help("Looks at each entry in every search, which is slower and answers the same")
        .action(ArgAction::SetTrue);
    Command::new(alloc, "script")
        .about("Runs the script on standard input and prints each answer")
        .arg(audit)?
        .arg(scan)?
        .arg(names(alloc))
}

fn listen<'a>(alloc: Global) -> Result<Command<'a>, AllocError> {
    let lines = Arg::new(alloc, LINES)
        .long(LINES)
        .value_name("N")
        .help("Ends when so many connections have ended [default: 1000000000]")
        .value_parser(ValueParser::unsigned(1, MOST_LINES));
    let connections = Arg::new(alloc, CONNECTIONS)
        .long(CONNECTIONS)
        .value_name("N")
        .help(
            "How many connections it serves at once; one more takes the place of a silent one, or is closed [default: 256]",
        )
        .value_parser(ValueParser::unsigned(1, MOST_CONNECTIONS));
    let idle = Arg::new(alloc, IDLE)
        .long(IDLE)
        .value_name("SECONDS")
        .help("Closes a connection that makes no whole request for so long [default: never]")
        .value_parser(ValueParser::unsigned(1, LONGEST_IDLE));
    let until_input = Arg::new(alloc, UNTIL_INPUT)
        .long(UNTIL_INPUT)
        .help("Ends in order once standard input has a line or ends")
        .action(ArgAction::SetTrue);
    let status = Arg::new(alloc, STATUS).long(STATUS).value_name("ADDR").help(
        "Shows its status there: to a browser, at /status.json, and at /metrics [default: nowhere]",
    );
    let address = Arg::new(alloc, ADDRESS)
        .help(
            "Where to listen, as 127.0.0.1:7070; port 0 takes a free one. Whoever reaches it may do everything",
        )
        .required(true);
    let command = Command::new(alloc, LISTEN)
        .about("Serves clients over TCP, and says where once it listens")
        .arg(lines)?
        .arg(connections)?
        .arg(idle)?;
    let command = keeping(alloc, command)?;
    logging(alloc, command)?
        .arg(until_input)?
        .arg(status)?
        .arg(address)?
        .arg(names(alloc))
}

/// The command with the options that say how much it keeps at most.
fn keeping<'a>(alloc: Global, command: Command<'a>) -> Result<Command<'a>, AllocError> {
    let era = Arg::new(alloc, ERA)
        .long(ERA)
        .value_name("STEPS")
        .help(
            "How many steps of its history it keeps at most, some 300 bytes each [default: 131072]",
        )
        .value_parser(ValueParser::unsigned(1, LONGEST_ERA));
    let era_bytes = Arg::new(alloc, ERA_BYTES)
        .long(ERA_BYTES)
        .value_name("BYTES")
        .help("How many bytes of requests and answers it keeps at most [default: 67108864]")
        .value_parser(ValueParser::unsigned(1, MOST_ERA_BYTES));
    let backlog = Arg::new(alloc, BACKLOG)
        .long(BACKLOG)
        .value_name("N")
        .help("Closes a connection for which more answers and events wait, unread [default: 65536]")
        .value_parser(ValueParser::unsigned(1, MOST_BACKLOG));
    let backlog_bytes = Arg::new(alloc, BACKLOG_BYTES)
        .long(BACKLOG_BYTES)
        .value_name("BYTES")
        .help("The same where these take more memory, about [default: 16777216]")
        .value_parser(ValueParser::unsigned(1, MOST_BACKLOG_BYTES));
    command
        .arg(era)?
        .arg(era_bytes)?
        .arg(backlog)?
        .arg(backlog_bytes)
}

/// The command with the options of its log.
fn logging<'a>(alloc: Global, command: Command<'a>) -> Result<Command<'a>, AllocError> {
    let log = Arg::new(alloc, LOG)
        .long(LOG)
        .value_name("FORMAT")
        .help("How it says on standard error what happens: text, json or off [default: text]")
        .value_parser(LOG_FORMATS)
        .hide_possible_values(true);
    let quiet = Arg::new(alloc, QUIET)
        .long(QUIET)
        .help("Says there only what is wrong")
        .action(ArgAction::SetTrue);
    command.arg(log)?.arg(quiet)
}

fn client<'a>(alloc: Global) -> Result<Command<'a>, AllocError> {
    let must = Arg::new(alloc, MUST)
        .long(MUST)
        .help("Ends with status 1 where a read or a take finds no entry, too")
        .action(ArgAction::SetTrue);
    let status = Arg::new(alloc, STATUS)
        .long(STATUS)
        .help("Prints the status that is shown at the address, as `jsp listen --status` has it")
        .action(ArgAction::SetTrue);
    let address = Arg::new(alloc, ADDRESS)
        .help("The server, as 127.0.0.1:7070; or `help`, with an operation or without")
        .required(true);
    let request = Arg::new(alloc, REQUEST)
        .help("The one request that is made, in place of those on standard input, as: take a Job")
        .action(ArgAction::Append)
        .num_args(1..)
        .trailing_var_arg(true);
    Command::new(alloc, CLIENT)
        .about("Makes the requests on standard input, a line each, and prints what the server says")
        .arg(must)?
        .arg(status)?
        .arg(address)?
        .arg(request)
}

fn names<'a>(alloc: Global) -> Arg<'a> {
    Arg::new(alloc, NAMES)
        .help("The spaces: 1 to 64 names of 1 to 64 letters, digits, '_', '.' or '$'")
        .required(true)
        .action(ArgAction::Append)
        .num_args(1..)
}
