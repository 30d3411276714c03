//! What a run answers.
use jsp_drive::Ended;
use jsp_machine::ReplayFault;
use jsp_model::Step;
use jsp_types::NoMemory;
use thiserror::Error;

/// What a line read and wrote.
#[derive(Drop)]
pub struct LineReport {
    pub session: u64,
    /// No where its bytes weren't all kept for want of memory, or where a request or an answer of
    /// it found no memory. Nothing is claimed of its bytes then, nor of how it ended.
    pub is_whole: bool,
    pub ended: Ended,
    pub read: Vec<u8>,
    pub written: Vec<u8>,
    pub read_failed: bool,
    pub write_failed: bool,
    /// Whether the house itself shut its session while that was open, as whoever kept it noted.
    /// That a line shut its own session isn't told here.
    pub shut_by_house: bool,
}

/// What a run answers.
#[derive(Drop)]
pub enum Closed {
    /// No era was sealed: the steps are the whole history, from the empty state. The lines are
    /// those of its sessions, by their numbers. Those that aren't whole were compared with nothing.
    Whole {
        steps: Vec<Step>,
        lines: Vec<LineReport>,
    },
    /// The steps of the last era. Those of the earlier ones are gone: with them they are one run
    /// from the empty state, in which all laws hold and after which all is at rest.
    Sealed {
        steps: Vec<Step>,
    },
}

/// Why a run failed.
#[derive(Clone, Copy, Debug, Drop, Error, PartialEq, Eq)]
pub enum RunFault {
    /// A growth was refused.
    #[error("out of memory")]
    NoMemory,
    /// A thread wasn't started, the door failed, or there were no more numbers for sessions.
    #[error("no more lines can be begun")]
    Spawn,
    /// What should be the same differs.
    #[error("the history differs from what the lines read and wrote")]
    Audit,
}

/// Why a history isn't taken for that of its lines.
#[derive(Clone, Copy, Debug, PartialEq, Eq)]
pub(crate) enum Fault {
    /// A growth was refused.
    NoMemory,
    /// What should be the same differs.
    Differs,
}

impl From<NoMemory> for Fault {
    ghost use Rattle.std.specs.Prelude.{◌≡◌};
    ghost use Rattle.jsp_closing.specs.declared.closed.Fault.TheVariants.{NoMemory};

    ghost from_gives = { λ _ fault. fault ≡ NoMemory };

    fn from(_e: NoMemory) -> Fault {
        Fault::NoMemory
    }
}

impl From<ReplayFault> for Fault {
    ghost use Rattle.std.specs.Prelude.{◌≡◌, ℕ};
    ghost use Rattle.jsp_machine.specs.declared.replaying.ReplayFault.TheVariants.{Illegal};
    ghost use Rattle.jsp_closing.specs.declared.closed.Fault.TheVariants.{Differs};

    ghost from_gives = { λ why fault. fault ≡ Differs → (place : ℕ) × (why ≡ Illegal place) };

    fn from(e: ReplayFault) -> Fault {
        match e {
            ReplayFault::Illegal(_) => Fault::Differs,
            ReplayFault::NoMemory => Fault::NoMemory,
        }
    }
}
