//! Histories: which steps are a run, where an era ends, and what a call that was stopped leaves.
//! The steps were worked out by the rules of the profile.
ghost use Rattle.std.specs.Prelude.{◌≡◌, ◌≤◌, ◌+◌, ◌^◌};
ghost use Rattle.jsp_model.specs.Lookup.{empty};

use crate::spaces::{asked, not_stopped, two_spaces};
use jsp_drive::Era;
use jsp_house::{Hall, ReplayFault, replay};
use jsp_kept::{AskSeat, Kept, LineInput, OutSeat};
use jsp_model::{Config, House, Input, Step, Stopped, Why};
use jsp_reply::{Reply, Said};
use jsp_types::Items;
use std::alloc::Global;
use std::marker::Brand;
use std::sync::ledger::{Blank, Ledger};
use std::test::Fail;

const PARTS: u64 = (1 << 31) + 1;

const DECLARE: &str = r#"{"id":1,"op":"declare","class":"Job","fields":{"k":"int"}}"#;

const WRITE: &str =
    r#"{"id":2,"op":"write","space":"a","entry":{"class":"Job","fields":{"k":1}},"lease":50}"#;

const WRITE_ANOTHER: &str =
    r#"{"id":3,"op":"write","space":"a","entry":{"class":"Job","fields":{"k":2}},"lease":60}"#;

const TAKE: &str =
    r#"{"id":4,"op":"take","space":"a","template":{"class":"Job","fields":{"k":1}},"timeout":0}"#;

fn name(step: &Step) -> &'static str {
    match step {
        Step::Open { .. } => "open",
        Step::Shut { .. } => "shut",
        Step::Clock { .. } => "clock",
        Step::Ask { .. } => "ask",
        Step::Fault { .. } => "fault",
        Step::Grant { .. } => "grant",
        Step::Empty { .. } => "empty",
        Step::Tell { .. } => "tell",
        Step::Due { .. } => "due",
        Step::Vote { .. } => "vote",
        Step::Decide { .. } => "decide",
        Step::HandOut { .. } => "hand out",
    }
}

// Whether these are the steps, by their names.
fn are(steps: &[Step], names: &[&str]) -> bool {
    if steps.len() != names.len() {
        return false;
    }
    for (step, wanted) in steps.iter().zip(names.iter()) {
        if name(step) != *wanted {
            return false;
        }
    }
    true
}

// What ends first of what a step ends.
fn ended(step: Option<&Step>) -> Option<u64> {
    match step {
        Some(Step::Due { item }) => Some(item.number),
        _ => None,
    }
}

fn open<H: House>(house: &mut H, log: &mut Vec<Step>) -> Result<(), Fail> {
    not_stopped(house.act(Input::Open { session: 1 }, log))
}

fn ask<H: House>(
    alloc: Global,
    house: &mut H,
    payload: &str,
    log: &mut Vec<Step>,
) -> Result<(), Fail> {
    let asked = asked(alloc, payload)?;
    not_stopped(house.act(Input::Ask { session: 1, asked }, log))
}

// Declares, writes and takes. Each answer is handed out before the next request.
fn write_and_take<H: House>(alloc: Global, house: &mut H, log: &mut Vec<Step>) -> Result<(), Fail> {
    open(house, log)?;
    for payload in [DECLARE, WRITE, TAKE] {
        ask(alloc, house, payload, log)?;
        not_stopped(house.hand_out(1, 1, log))?;
    }
    Ok(())
}

// The place of the first step that is illegal, if there is one.
fn illegal(alloc: Global, config: &Config, steps: &[Step]) -> Result<Option<u64>, Fail> {
    match replay(alloc, config, steps, 0) {
        Ok(_) => Ok(None),
        Err(ReplayFault::Illegal(place)) => Ok(Some(place as u64)),
        Err(ReplayFault::NoMemory) => Err(Fail::new("no memory")),
    }
}

// The take, as if it was given nothing.
fn take_of_nothing(alloc: Global) -> Result<Step, Fail> {
    let asked = asked(alloc, TAKE)?;
    Ok(Step::Ask {
        session: 1,
        asked,
        rows: Items::new(alloc),
    })
}

fn give_nothing(alloc: Global, log: &mut Vec<Step>) -> Result<(), Fail> {
    let nothing = take_of_nothing(alloc)?;
    if let Some(taken) = log.get_mut(5) {
        *taken = nothing;
    }
    Ok(())
}

// Whether a take is a step with its row, and is illegal without it.
fn is_with_its_row<H: House>(
    alloc: Global,
    house: &mut H,
    config: &Config,
    log: &mut Vec<Step>,
) -> Result<bool, Fail> {
    write_and_take(alloc, house, log)?;
    let names = [
        "open", "ask", "hand out", "ask", "hand out", "ask", "hand out",
    ];
    let is_named_so = are(log.as_slice(), &names);
    let whole = illegal(alloc, config, log.as_slice())?;
    give_nothing(alloc, log)?;
    let changed = illegal(alloc, config, log.as_slice())?;
    Ok(is_named_so && whole.is_none() && changed == Some(5))
}

#[test]
fn a_take_is_a_step_with_its_row_alone(rt: HostRuntime) -> Result<(), Fail> {
    let alloc = rt.alloc();
    let config = two_spaces(alloc)?;
    let mut hall = Hall::new(alloc, &config, 7)?;
    let mut log = Vec::new(alloc);
    let is_so = is_with_its_row(alloc, &mut hall, &config, &mut log);
    drop(hall);
    drop(log);
    assert!(rt; is_so?);
    Ok(())
}

#[test]
fn no_steps_are_a_run_that_says_nothing(rt: HostRuntime) -> Result<(), Fail> {
    let alloc = rt.alloc();
    let Ok(replayed) = replay(alloc, &two_spaces(alloc)?, &[], 0) else {
        return Err(Fail::new("no run"));
    };
    let is_silent = replayed.said.is_empty();
    drop(replayed);
    assert!(rt; is_silent);
    Ok(())
}

// What a call that reads 100 is stopped for.
fn read_clock<H: House>(house: &mut H, log: &mut Vec<Step>) -> Option<Stopped> {
    house.act(Input::Clock { time: 100 }, log).err()
}

// Whether what a call left is made before the next one's step. The log is full behind the first of
// two entries whose leases are over.
fn is_made_before_the_next<H: House>(
    alloc: Global,
    house: &mut H,
    log: &mut Vec<Step>,
) -> Result<bool, Fail> {
    open(house, log)?;
    for payload in [DECLARE, WRITE, WRITE_ANOTHER] {
        ask(alloc, house, payload, log)?;
    }
    log.clear();
    house.bound(2);
    let full = Stopped {
        why: Why::EraFull,
        done: true,
    };
    let is_stopped = read_clock(house, log) == Some(full)
        && are(log.as_slice(), &["clock", "due"])
        && ended(log.get(1)) == Some(1);
    log.clear();
    let goes_on = read_clock(house, log).is_none()
        && are(log.as_slice(), &["due", "clock"])
        && ended(log.get(0)) == Some(2);
    Ok(is_stopped && goes_on)
}

#[test]
fn what_a_stopped_call_left_is_made_before_the_next_one(rt: HostRuntime) -> Result<(), Fail> {
    let alloc = rt.alloc();
    let mut hall = Hall::new(alloc, &two_spaces(alloc)?, 7)?;
    let mut log = Vec::new(alloc);
    let is_so = is_made_before_the_next(alloc, &mut hall, &mut log);
    drop(hall);
    drop(log);
    assert!(rt; is_so?);
    Ok(())
}

// A history in eras of so many steps, and its first session's seats.
#[derive(Drop)]
struct Begun<H: House, A: Ledger, O: Ledger> {
    kept: Kept<H, A, O>,
    asks: AskSeat<A>,
    outs: OutSeat<O>,
}

impl<H: House, A: Ledger, O: Ledger> Begun<H, A, O> {
    fn ask(&mut self, alloc: Global, payload: &str) -> Result<(), Fail> {
        let given = LineInput::Ask(asked(alloc, payload)?);
        not_stopped(self.kept.act(&mut self.asks, given))
    }

    fn hand_out(&mut self) -> Result<Vec<Said>, Fail> {
        self.kept
            .hand_out(&mut self.outs, 1)
            .map_err(|_| Fail::new("stopped"))
    }

    // Hands two answers out, and closes the session. Answers what was handed out last.
    fn hand_out_two(&mut self, alloc: Global) -> Result<Vec<Said>, Fail> {
        self.ask(alloc, DECLARE)?;
        self.hand_out()?;
        self.ask(alloc, WRITE)?;
        let answers = self.hand_out()?;
        self.kept.shut(1);
        Ok(answers)
    }

    // Ends two leases at a reading of the clock.
    fn end_two(&mut self, alloc: Global) -> Result<(), Fail> {
        for payload in [DECLARE, WRITE, WRITE_ANOTHER] {
            self.ask(alloc, payload)?;
        }
        not_stopped(self.kept.clock(100))
    }
}

fn begin<H: House, A: Ledger, O: Ledger>(
    alloc: Global,
    house: H,
    config: &Config,
    era: u64,
    asks: Blank,
    outs: Blank,
) -> Result<Begun<H, A, O>, Fail>
    requires house { H.view house ≡ empty config.now }
    requires era { (1 ≤ era) × (era ≤ 16777216) }
    requires asks { (asks.name ≡ A.name) × (asks.parts ≡ A.parts) × (A.parts ≡ 2 ^ 31 + 1) }
    requires outs { (outs.name ≡ O.name) × (outs.parts ≡ O.parts) × (O.parts ≡ 2 ^ 31 + 1) }
{
    let mut kept = Kept::<H, A, O>::new(alloc, house, config, era, asks, outs)?;
    let Ok(seat) = kept.begin() else {
        return Err(Fail::new("no session"));
    };
    let (asks, outs) = seat.split();
    Ok(Begun { kept, asks, outs })
}

// Eras of four steps. Answers what was handed out last, and the last era.
fn hand_out_in_eras_of_four<H: House, A: Ledger, O: Ledger>(
    alloc: Global,
    house: H,
    config: &Config,
    asks: Blank,
    outs: Blank,
) -> Result<(Vec<Said>, Era), Fail>
    requires house { H.view house ≡ empty config.now }
    requires asks { (asks.name ≡ A.name) × (asks.parts ≡ A.parts) × (A.parts ≡ 2 ^ 31 + 1) }
    requires outs { (outs.name ≡ O.name) × (outs.parts ≡ O.parts) × (O.parts ≡ 2 ^ 31 + 1) }
{
    let mut begun = begin::<H, A, O>(alloc, house, config, 4, asks, outs)?;
    let answers = begun.hand_out_two(alloc)?;
    Ok((answers, begun.kept.into_era()))
}

// Whether the first of these is the lease of the entry that was written.
fn is_leased(answers: &[Said]) -> bool {
    match answers.first() {
        Some(answer) => matches!(
            answer.reply(),
            Reply::Leased {
                id: 2,
                lease: 1,
                ms: 50
            }
        ),
        None => false,
    }
}

#[test]
fn a_full_era_gives_way_before_a_call(rt: HostRuntime) -> Result<(), Fail> {
    let alloc = rt.alloc();
    let config = two_spaces(alloc)?;
    let hall = Hall::new(alloc, &config, 7)?;
    let (answers, era) = hand_out_in_eras_of_four::<_, Brand, Brand>(
        alloc,
        hall,
        &config,
        Blank::new(PARTS),
        Blank::new(PARTS),
    )?;
    let is_answered = is_leased(answers.as_slice());
    drop(answers);
    let has_given_way = era.is_sealed && are(era.steps.as_slice(), &["hand out", "shut"]);
    drop(era);
    assert!(rt; is_answered);
    assert!(rt; has_given_way);
    Ok(())
}

// Eras of five steps, so that one is full behind the reading. Answers the last era.
fn end_leases_in_eras_of_five<H: House, A: Ledger, O: Ledger>(
    alloc: Global,
    house: H,
    config: &Config,
    asks: Blank,
    outs: Blank,
) -> Result<Era, Fail>
    requires house { H.view house ≡ empty config.now }
    requires asks { (asks.name ≡ A.name) × (asks.parts ≡ A.parts) × (A.parts ≡ 2 ^ 31 + 1) }
    requires outs { (outs.name ≡ O.name) × (outs.parts ≡ O.parts) × (O.parts ≡ 2 ^ 31 + 1) }
{
    let mut begun = begin::<H, A, O>(alloc, house, config, 5, asks, outs)?;
    begun.end_two(alloc)?;
    Ok(begun.kept.into_era())
}

#[test]
fn a_full_era_gives_way_between_the_steps_of_a_call(rt: HostRuntime) -> Result<(), Fail> {
    let alloc = rt.alloc();
    let config = two_spaces(alloc)?;
    let hall = Hall::new(alloc, &config, 7)?;
    let era = end_leases_in_eras_of_five::<_, Brand, Brand>(
        alloc,
        hall,
        &config,
        Blank::new(PARTS),
        Blank::new(PARTS),
    )?;
    let has_given_way = era.is_sealed && are(era.steps.as_slice(), &["due", "due"]);
    drop(era);
    assert!(rt; has_given_way);
    Ok(())
}
