//! When a space applies what was decided, which no answer tells. The counts were worked out by the
//! rules of the profile: a decision touches no space, and a space applies it before it is touched
//! next.
//!
//! Whoever owns a hall or steps drops them wherever it may fail, and each of these drops is proved.
//! So a test drops them before it looks at anything, and all else borrows them and holds for any
//! house.
use crate::spaces::{asked, not_stopped, two_spaces};
use jsp_beside::InParts;
use jsp_house::Hall;
use jsp_model::{House, Input, Step};
use std::alloc::Global;
use std::test::Fail;

/// How many decisions the spaces a and b haven't applied.
type Pending = (u64, u64);

/// A house that says how many decisions its spaces haven't applied.
trait Counted: House {
    fn counts(&self) -> Pending;
}

impl Counted for Hall {
    fn counts(&self) -> Pending {
        (self.pending(0), self.pending(1))
    }
}

fn ask<H: House>(
    alloc: Global,
    house: &mut H,
    session: u64,
    payload: &str,
    log: &mut Vec<Step>,
) -> Result<(), Fail> {
    let asked = asked(alloc, payload)?;
    not_stopped(house.act(Input::Ask { session, asked }, log))
}

fn ask_all<H: House>(
    alloc: Global,
    house: &mut H,
    payloads: &[&str],
    log: &mut Vec<Step>,
) -> Result<(), Fail> {
    for payload in payloads {
        ask(alloc, house, 1, payload, log)?;
    }
    Ok(())
}

fn settle<H: House>(house: &mut H, turns: u32, log: &mut Vec<Step>) -> Result<(), Fail> {
    for _turn in 0..turns {
        not_stopped(house.settle(log))?;
    }
    Ok(())
}

/// Two sessions, and Job with k.
fn begin<H: House>(alloc: Global, house: &mut H, log: &mut Vec<Step>) -> Result<(), Fail> {
    not_stopped(house.act(Input::Open { session: 1 }, log))?;
    not_stopped(house.act(Input::Open { session: 2 }, log))?;
    let declare = r#"{"id":1,"op":"declare","class":"Job","fields":{"k":"int"}}"#;
    ask(alloc, house, 1, declare, log)
}

/// What is pending once a commit over both spaces is voted for, once it is decided, and behind a
/// read in each space.
fn commit_and_read<H: Counted>(
    alloc: Global,
    house: &mut H,
    log: &mut Vec<Step>,
) -> Result<[Pending; 4], Fail> {
    let requests = [
        r#"{"id":2,"op":"txn","lease":1000}"#,
        r#"{"id":3,"op":"write","space":"a","entry":{"class":"Job","fields":{"k":1}},"lease":1000,"txn":1}"#,
        r#"{"id":4,"op":"write","space":"b","entry":{"class":"Job","fields":{"k":2}},"lease":1000,"txn":1}"#,
        r#"{"id":5,"op":"commit","txn":1}"#,
    ];
    ask_all(alloc, house, &requests, log)?;
    settle(house, 2, log)?;
    let voted = house.counts();
    settle(house, 1, log)?;
    let decided = house.counts();
    let read =
        r#"{"id":3,"op":"read","space":"b","template":{"class":"Job","fields":{}},"timeout":0}"#;
    ask(alloc, house, 2, read, log)?;
    let read_in_b = house.counts();
    let read =
        r#"{"id":4,"op":"read","space":"a","template":{"class":"Job","fields":{}},"timeout":0}"#;
    ask(alloc, house, 2, read, log)?;
    Ok([voted, decided, read_in_b, house.counts()])
}

/// What is pending once a transaction is decided that wrote in a and read in b, which so voted that
/// nothing changed, and behind a turn that looks which space isn't quiet.
fn commit_and_settle<H: Counted>(
    alloc: Global,
    house: &mut H,
    log: &mut Vec<Step>,
) -> Result<[Pending; 2], Fail> {
    let requests = [
        r#"{"id":6,"op":"txn","lease":1000}"#,
        r#"{"id":7,"op":"write","space":"a","entry":{"class":"Job","fields":{"k":3}},"lease":1000,"txn":4}"#,
        r#"{"id":8,"op":"read","space":"b","template":{"class":"Job","fields":{}},"txn":4,"timeout":0}"#,
        r#"{"id":9,"op":"commit","txn":4}"#,
    ];
    ask_all(alloc, house, &requests, log)?;
    settle(house, 3, log)?;
    let decided = house.counts();
    settle(house, 1, log)?;
    Ok([decided, house.counts()])
}

/// What is pending once a space of so many entries is reset.
fn write_and_reset<H: Counted>(
    alloc: Global,
    house: &mut H,
    count: u64,
    log: &mut Vec<Step>,
) -> Result<Pending, Fail> {
    for number in 0..count {
        let write = format!(in alloc;
            r#"{{"id":10,"op":"write","space":"a","entry":{{"class":"Job","fields":{{"k":{number}}}}},"lease":1000}}"#
        )?;
        ask(alloc, house, 1, &write, log)?;
    }
    ask(
        alloc,
        house,
        1,
        r#"{"id":11,"op":"reset","space":"a"}"#,
        log,
    )?;
    Ok(house.counts())
}

/// How many parts it takes until all is applied, of so many at most.
fn parts_left<H: InParts>(house: &mut H, most: u32) -> u32 {
    for parts in 0..most {
        if house.apply_before_turn() {
            return parts;
        }
    }
    most
}

fn play<H: Counted>(
    alloc: Global,
    house: &mut H,
    log: &mut Vec<Step>,
) -> Result<([Pending; 4], [Pending; 2]), Fail> {
    begin(alloc, house, log)?;
    let read = commit_and_read(alloc, house, log)?;
    let settled = commit_and_settle(alloc, house, log)?;
    Ok((read, settled))
}

#[test]
fn a_space_applies_what_was_decided_before_it_is_touched(rt: HostRuntime) -> Result<(), Fail> {
    let alloc = rt.alloc();
    let mut hall = Hall::new(alloc, &two_spaces(alloc)?, 7)?;
    let mut log = Vec::new(alloc);
    let played = play(alloc, &mut hall, &mut log);
    drop(hall);
    drop(log);
    let (read, settled) = played?;
    assert_eq!(rt; read, [(0, 0), (1, 1), (1, 0), (0, 0)]);
    assert_eq!(rt; settled, [(1, 0), (0, 0)]);
    Ok(())
}

/// What is pending once a space of 300 entries is reset, how many parts it takes until all is
/// applied, and what is pending then.
fn reset_in_parts<H: Counted + InParts>(
    alloc: Global,
    house: &mut H,
    log: &mut Vec<Step>,
) -> Result<(Pending, u32, Pending), Fail> {
    begin(alloc, house, log)?;
    let reset = write_and_reset(alloc, house, 300, log)?;
    let parts = parts_left(house, 9);
    Ok((reset, parts, house.counts()))
}

/// A part lets 128 rows go at most.
#[test]
fn entries_of_a_space_that_was_reset_go_in_parts(rt: HostRuntime) -> Result<(), Fail> {
    let alloc = rt.alloc();
    let mut hall = Hall::new(alloc, &two_spaces(alloc)?, 7)?;
    let mut log = Vec::new(alloc);
    let reset = reset_in_parts(alloc, &mut hall, &mut log);
    drop(hall);
    drop(log);
    assert_eq!(rt; reset?, ((1, 0), 2, (0, 0)));
    Ok(())
}
