//! Running a list of steps.
ghost use Rattle.std.specs.Prelude.{◌≡◌, ◌++◌, true, IsTrue, IfOk, IfErr, OnOk};
ghost use Rattle.jsp_model.specs.Lookup.{empty};
ghost use Rattle.jsp_model.specs.Answers.{said as said_by};
ghost use Rattle.jsp_model.specs.Steps.{is_legal as legal, next};
ghost use Rattle.jsp_model.specs.Runs.{IsRun, state_after, said_in, first_illegal};
ghost use Rattle.jsp_laws.specs.Runs.{LawsOfRuns};
ghost use Rattle.jsp_machine.specs.Judging.{judged_in};
ghost use Rattle.jsp_machine.specs.Replay.{FailsAt, StopsAt};

use crate::applying::apply_judged;
use crate::emptiness::empty_image;
use crate::judging::judge_in;
use crate::legal::is_legal_judged;
use crate::saying::said_judged;
use jsp_core::{Keeping, LiveImage};
use jsp_model::{Config, Image, Step};
use jsp_reply::Said;
use jsp_requests::Judged;
use jsp_types::NoMemory;
use std::alloc::Global;
use thiserror::Error;

/// The state after a run, and all that its steps say, in order, each to its session.
#[derive(Drop)]
pub struct Replayed {
    pub image: LiveImage,
    pub said: Vec<(u64, Said)>,
}

/// Why a list of steps isn't replayed.
#[derive(Debug, Drop, Error)]
pub enum ReplayFault {
    /// The place, from 0, of the first step that isn't legal where it stands.
    #[error("step {0} isn't legal")]
    Illegal(usize),
    #[error("out of memory")]
    NoMemory,
}

impl From<NoMemory> for ReplayFault {
    ghost use Rattle.std.specs.Prelude.{◌≡◌};
    ghost use Rattle.jsp_machine.specs.declared.replaying.ReplayFault.TheVariants.{NoMemory};

    ghost from_gives = { λ _ e. e ≡ NoMemory };

    fn from(_e: NoMemory) -> ReplayFault {
        ReplayFault::NoMemory
    }
}

/// Runs the steps from the empty state of a config. The seed is for the keys by which things are
/// found, and who chose what the steps write shouldn't know it: no answer depends on it, but time
/// does.
///
/// Ok exactly where they are a run, want of memory apart.
pub fn replay(
    alloc: Global,
    config: &Config,
    steps: &[Step],
    seed: u64,
) -> Result<Replayed, ReplayFault>
    ensures run { OnOk result (IsRun (empty config.now) steps.now) }
    // So all laws of runs hold in what is accepted: no row is given to two takes, unless the first
    // was aborted; each transaction ends once, and in all its spaces; and so on.
    ensures laws { OnOk result (LawsOfRuns (empty config.now) steps.now) }
    ensures image { IfOk result (λ r. r.image ≡ state_after (empty config.now) steps.now) }
    ensures said { IfOk result (λ r. r.said.items ≡ said_in (empty config.now) steps.now) }
    ensures illegal { IfErr result (λ e. FailsAt e (first_illegal (empty config.now) steps.now)) }
{
    let base = empty_image(alloc, config)?;
    replay_from(alloc, &base, steps, seed)
}

/// Runs the steps from a state, with a seed as above.
///
/// Ok exactly where they are a run from it, want of memory apart.
pub fn replay_from(
    alloc: Global,
    base: &Image,
    steps: &[Step],
    seed: u64,
) -> Result<Replayed, ReplayFault>
    ensures run { OnOk result (IsRun base.now steps.now) }
    ensures image { IfOk result (λ r. r.image ≡ state_after base.now steps.now) }
    ensures said { IfOk result (λ r. r.said.items ≡ said_in base.now steps.now) }
    ensures illegal { IfErr result (λ e. FailsAt e (first_illegal base.now steps.now)) }
{
    let mut image = LiveImage::of(alloc, base.copy(alloc)?, Keeping::Hinted { seed })?;
    let said = run_steps(alloc, &mut image, steps)?;
    Ok(Replayed { image, said })
}

/// Runs the steps, and answers what they say.
fn run_steps(
    alloc: Global,
    image: &mut LiveImage,
    steps: &[Step],
) -> Result<Vec<(u64, Said)>, ReplayFault>
    ensures run { OnOk result (IsRun image.old steps.now) }
    ensures image { OnOk result (image.new ≡ state_after image.old steps.now) }
    ensures said { IfOk result (λ told. told.items ≡ said_in image.old steps.now) }
    ensures illegal { IfErr result (λ e. FailsAt e (first_illegal image.old steps.now)) }
{
    let mut told = Vec::new(alloc);
    for (place, step) in steps.iter().enumerate() {
        let judged = judge_in(alloc, image.state(), step)?;
        check_step(alloc, image, step, &judged, place)?;
        make_step(alloc, image, &mut told, step, judged)?;
    }
    Ok(told)
}

/// Fails with the step's place where it isn't legal.
fn check_step(
    alloc: Global,
    image: &LiveImage,
    step: &Step,
    judged: &Judged,
    place: usize,
) -> Result<(), ReplayFault>
    requires { judged.now ≡ judged_in image.now step.now }
    ensures ok { OnOk result (legal image.now step.now ≡ true) }
    ensures err { IfErr result (λ e. StopsAt e place (legal image.now step.now)) }
{
    if is_legal_judged(alloc, image, step, judged)? {
        Ok(())
    } else {
        Err(ReplayFault::Illegal(place))
    }
}

/// Makes a legal step, and adds what it says.
fn make_step(
    alloc: Global,
    image: &mut LiveImage,
    told: &mut Vec<(u64, Said)>,
    step: &Step,
    judged: Judged,
) -> Result<(), NoMemory>
    requires legal { IsTrue (legal image.old step.now) }
    requires judged { judged ≡ judged_in image.old step.now }
    ensures made { OnOk result (image.new ≡ next image.old step.now) }
    ensures told { OnOk result (told.new.items ≡ told.old.items ++ said_by image.old step.now) }
{
    let mut sayings = said_judged(alloc, image, step, &judged)?;
    told.append(&mut sayings)?;
    apply_judged(alloc, image, step, judged)?;
    // No space is to be looked through because of what was decided before.
    image.apply_all();
    Ok(())
}
