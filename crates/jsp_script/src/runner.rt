//! A script from its text to what is printed.
ghost use Rattle.std.specs.Prelude.{◌≡◌, ◌≤◌, ◌^◌, None, IfOk, IfErr, IfSome, OnOk, OnErr, length};
ghost use Rattle.std.specs.Io.KnownBytes.{Appends, Keeps};
ghost use Rattle.jsp_model.specs.Lookup.{empty};
ghost use Rattle.jsp_script.specs.Script.{lines_of, FailsBy};
ghost use Rattle.jsp_script.specs.Print.{Prints, Wrote, IsRefused};
ghost use Rattle.jsp_script.specs.Faults.{AppendsSome, Fails, ReadsNone, StopsBy};
ghost use Rattle.jsp_script.specs.declared.fault.ScriptFault.TheVariants as fault;

use crate::audit::audit;
use crate::fault::ScriptFault;
use crate::lines::read_acts;
use crate::output::{tell, write_bytes};
use crate::print::printed;
use jsp_drive::drive;
use jsp_model::{Config, House};
use jsp_types::NoMemory;
use std::alloc::Global;
use std::io::{ErrorKind, Read, Write};
use std::process::ExitCode;

/// The longest script, in bytes.
const LONGEST: u64 = 16_777_216;

/// How a script ended.
#[derive(Clone, Copy, Debug, PartialEq, Eq)]
pub enum Status {
    /// All was run and printed.
    Done,
    /// It ended at the first fault met.
    Failed,
}

/// What came of a script.
#[derive(Clone, Copy, Debug, PartialEq, Eq)]
pub struct Ending {
    pub status: Status,
    /// Whether all that was to be told of a fault was told. The writer that it is told on may fail
    /// too.
    pub is_told: bool,
}

impl From<Status> for ExitCode {
    ghost use Rattle.std.specs.Process.{exit_status};
    ghost use Rattle.jsp_script.specs.Exit.{exit_of};

    ghost from_gives = { λ status code. exit_status code ≡ exit_of status };

    fn from(status: Status) -> ExitCode {
        match status {
            Status::Done => ExitCode::SUCCESS,
            Status::Failed => ExitCode::from(1),
        }
    }
}

/// Runs the script that `reader` gives, at most 16,777,216 bytes, over an empty house of the spaces
/// of `config`. Where memory for the house was refused, that is told in its turn. Where a replay
/// has a seed, the run is replayed with keys of that seed before anything is written, and compared
/// with what was sent; that takes time and memory, and changes nothing of what is promised.
///
/// A line is `open c`, `send c JSON`, `hex c HEX` or `shut c`: c is the decimal number of a
/// session, below 2^64, one blank stands between parts, JSON is the rest of the line, and HEX is
/// one or more pairs of hex digits. Or it is `clock t`, a reading in milliseconds, or `settle`, a
/// turn of the house. Empty lines and lines that begin with `#` are passed over. For each answer `c
/// JSON` is written to `out`, line by line in the order in which the answers are given. The first
/// fault met is told on `faults` by one line. Where a line isn't understood or the input is too
/// long, nothing is run. (This profile's own.)
pub fn script<H: House, R: Read, W: Write, F: Write>(
    alloc: Global,
    house: Result<H, NoMemory>,
    config: &Config,
    replay: Option<u64>,
    reader: &mut R,
    out: &mut W,
    faults: &mut F,
) -> Ending
    requires empty { IfOk house (λ h. H.view h ≡ empty config.now) }
    requires unbound { IfOk house (λ h. H.bound_of h ≡ None) }
    ensures refused { IfSome (R.remaining reader.old) (λ text. IsRefused text → (result.status ≡ Status.Failed) × Keeps (W.contents out.old) (W.contents out.new)) }
    ensures done { result.status ≡ Status.Done → IfSome (R.remaining reader.old) (λ text. Wrote config.now text (W.contents out.old) (W.contents out.new)) }
    // No fault is told where all was done.
    ensures quiet { result.status ≡ Status.Done → Keeps (F.contents faults.old) (F.contents faults.new) }
    // A fault that applies is told by one line, where the script failed.
    ensures failed { result.status ≡ Status.Failed → Fails config.now (R.remaining reader.old) (W.contents out.old) (W.contents out.new) (F.contents faults.old) (F.contents faults.new) result.is_told }
{
    match run_script(alloc, house, config, replay, reader, out) {
        Ok(()) => Ending {
            status: Status::Done,
            is_told: true,
        },
        Err(fault) => Ending {
            status: Status::Failed,
            is_told: tell(faults, fault),
        },
    }
}

fn run_script<H: House, R: Read, W: Write>(
    alloc: Global,
    house: Result<H, NoMemory>,
    config: &Config,
    replay: Option<u64>,
    reader: &mut R,
    out: &mut W,
) -> Result<(), ScriptFault>
    requires empty { IfOk house (λ h. H.view h ≡ empty config.now) }
    requires unbound { IfOk house (λ h. H.bound_of h ≡ None) }
    ensures ok { OnOk result (IfSome (R.remaining reader.old) (λ text. Wrote config.now text (W.contents out.old) (W.contents out.new))) }
    ensures err { OnErr result (IfSome (R.remaining reader.old) (λ text. IsRefused text → Keeps (W.contents out.old) (W.contents out.new))) }
    ensures stops { IfErr result (StopsBy config.now (R.remaining reader.old) (W.contents out.old) (W.contents out.new)) }
{
    let text = read_text(alloc, reader)?;
    let printed = answers(alloc, house, config, replay, text.as_slice())?;
    write_text(out, printed.as_slice())
}

/// The lines that a script of this text prints.
fn answers<H: House>(
    alloc: Global,
    house: Result<H, NoMemory>,
    config: &Config,
    replay: Option<u64>,
    text: &[u8],
) -> Result<Vec<u8>, ScriptFault>
    requires within { length text.now ≤ 2 ^ 24 }
    requires empty { IfOk house (λ h. H.view h ≡ empty config.now) }
    requires unbound { IfOk house (λ h. H.bound_of h ≡ None) }
    ensures prints { IfOk result (λ printed. Prints config.now text.now printed.items) }
    ensures fault { IfErr result (FailsBy (lines_of text.now)) }
{
    let acts = read_acts(alloc, text)?;
    let driven = drive(alloc, house?, config, acts.as_slice())?;
    if let Some(seed) = replay {
        audit(
            alloc,
            config,
            driven.steps.as_slice(),
            driven.sent.as_slice(),
            seed,
        )?;
    }
    Ok(printed(alloc, driven.sent.as_slice())?)
}

fn read_text<R: Read>(alloc: Global, reader: &mut R) -> Result<Vec<u8>, ScriptFault>
    ensures within { IfOk result (λ text. length text.items ≤ 2 ^ 24) }
    ensures bytes { IfOk result (λ text. IfSome (R.remaining reader.old) (λ all. text.items ≡ all)) }
    ensures none { IfErr result (ReadsNone (R.remaining reader.old)) }
{
    let mut text = Vec::new(alloc);
    // One byte more than a script may have shows that it has too many.
    match reader.take(LONGEST + 1).read_to_end(&mut text) {
        Ok(_) if text.len() as u64 > LONGEST => Err(ScriptFault::TooLong),
        Ok(_) => Ok(text),
        Err(error) if error.kind() == ErrorKind::OutOfMemory => Err(ScriptFault::NoMemory),
        Err(_) => Err(ScriptFault::CannotRead),
    }
}

fn write_text<W: Write>(out: &mut W, text: &[u8]) -> Result<(), ScriptFault>
    ensures ok { OnOk result (Appends (W.contents out.old) (W.contents out.new) text.now) }
    ensures err { OnErr result (AppendsSome (W.contents out.old) (W.contents out.new) text.now) }
    ensures fault { IfErr result (λ e. e ≡ fault.CannotWrite) }
{
    if !write_bytes(out, text) || out.flush().is_err() {
        return Err(ScriptFault::CannotWrite);
    }
    Ok(())
}
