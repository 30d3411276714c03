//! That registrations are told what a commit tells them once they hear it: no contract says more of
//! that than that it makes no difference.
//!
//! A test drops its registrations before it looks at what was seen of them, so that their drop is
//! proved at one of its exits and not at all.
use jsp_model::{Registration, Row};
use jsp_notify::Registrations;
use jsp_types::{Classes, Entry, Items, Template, Text};
use std::alloc::Global;
use std::ops::RangeInclusive;
use std::test::Fail;

/// A registration for any entry of a space.
fn listener(alloc: Global, number: u64, space: u64) -> Result<Registration, Fail> {
    Ok(Registration {
        number,
        space,
        template: Template::Any,
        transaction: None,
        session: 1,
        handback: Text::from_str(alloc, "")?,
        end: 1000,
        sequence: 0,
        owed: Items::new(alloc),
    })
}

/// An entry of a space.
fn row(alloc: Global, number: u64, space: u64) -> Result<Row, Fail> {
    Ok(Row {
        number,
        space,
        entry: Entry {
            class: Text::from_str(alloc, "Job")?,
            fields: Items::new(alloc),
        },
        end: 1000,
        writer: None,
        readers: Items::new(alloc),
        taker: None,
    })
}

/// Registers for any entry of the space, under these numbers.
fn listen(
    alloc: Global,
    registrations: &mut Registrations,
    numbers: RangeInclusive<u64>,
    space: u64,
) -> Result<(), Fail> {
    for number in numbers {
        registrations.push(listener(alloc, number, space)?)?;
    }
    Ok(())
}

/// Records that these entries were published, each a number and a space.
fn publish(
    alloc: Global,
    registrations: &mut Registrations,
    entries: &[(u64, u64)],
) -> Result<(), Fail> {
    let mut published = Items::new(alloc);
    for (number, space) in entries {
        published.push(row(alloc, *number, *space)?)?;
    }
    registrations.record(&Classes::new(alloc), published)?;
    Ok(())
}

fn is_told_where_heard(alloc: Global, registrations: &mut Registrations) -> Result<bool, Fail> {
    listen(alloc, registrations, 1..=1, 0)?;
    publish(alloc, registrations, &[(2, 0)])?;
    let is_owed = registrations.has_news() && registrations.next_owed(0) == Some(1);
    registrations.hear_in(0);
    Ok(is_owed && !registrations.has_news() && registrations.next_owed(0) == Some(1))
}

#[test]
fn news_is_told_where_it_is_heard(rt: HostRuntime) -> Result<(), Fail> {
    let alloc = rt.alloc();
    let mut registrations = Registrations::new(alloc, 0);
    let is_so = is_told_where_heard(alloc, &mut registrations);
    drop(registrations);
    assert!(rt; is_so?);
    Ok(())
}

fn hears_alone(alloc: Global, registrations: &mut Registrations) -> Result<bool, Fail> {
    listen(alloc, registrations, 1..=1, 0)?;
    listen(alloc, registrations, 2..=2, 1)?;
    publish(alloc, registrations, &[(3, 0), (4, 1)])?;
    registrations.hear_in(1);
    let is_second_owed = registrations.has_news() && registrations.next_owed(1) == Some(2);
    registrations.remove(2);
    registrations.hear_in(1);
    let is_none_owed = registrations.next_owed(1).is_none() && registrations.has_news();
    let is_first_owed = registrations.next_owed(0) == Some(1);
    registrations.hear_in(0);
    Ok(is_second_owed && is_none_owed && is_first_owed && !registrations.has_news())
}

#[test]
fn one_space_hears_without_the_other(rt: HostRuntime) -> Result<(), Fail> {
    let alloc = rt.alloc();
    let mut registrations = Registrations::new(alloc, 0);
    let is_so = hears_alone(alloc, &mut registrations);
    drop(registrations);
    assert!(rt; is_so?);
    Ok(())
}

fn hear_a_row_at_a_time(alloc: Global, registrations: &mut Registrations) -> Result<bool, Fail> {
    listen(alloc, registrations, 1..=100, 0)?;
    publish(alloc, registrations, &[(101, 0), (102, 0)])?;
    registrations.hear_in(0);
    registrations.hear_in(0);
    if !registrations.has_news() {
        return Ok(false);
    }
    for number in 1..100 {
        if registrations.next_owed(0) != Some(number) {
            return Ok(false);
        }
        registrations.remove(number);
    }
    listen(alloc, registrations, 103..=103, 0)?;
    let is_last_owed = registrations.is_owed(100) && !registrations.is_owed(103);
    registrations.remove(100);
    registrations.hear_in(0);
    Ok(is_last_owed && !registrations.has_news() && registrations.next_owed(0).is_none())
}

#[test]
fn many_hear_a_row_at_a_time(rt: HostRuntime) -> Result<(), Fail> {
    let alloc = rt.alloc();
    let mut registrations = Registrations::new(alloc, 0);
    let is_so = hear_a_row_at_a_time(alloc, &mut registrations);
    drop(registrations);
    assert!(rt; is_so?);
    Ok(())
}

fn hear_a_row_in_parts(alloc: Global, registrations: &mut Registrations) -> Result<bool, Fail> {
    listen(alloc, registrations, 1..=600, 0)?;
    publish(alloc, registrations, &[(601, 0)])?;
    for number in 1..600 {
        registrations.hear_in(0);
        let is_untold = number > 500 || registrations.has_news();
        if !is_untold || registrations.next_owed(0) != Some(number) {
            return Ok(false);
        }
        registrations.remove(number);
    }
    listen(alloc, registrations, 602..=602, 0)?;
    registrations.hear_in(0);
    let is_told = !registrations.has_news();
    Ok(is_told && registrations.is_owed(600) && !registrations.is_owed(602))
}

#[test]
fn very_many_hear_a_row_in_parts(rt: HostRuntime) -> Result<(), Fail> {
    let alloc = rt.alloc();
    let mut registrations = Registrations::new(alloc, 0);
    let is_so = hear_a_row_in_parts(alloc, &mut registrations);
    drop(registrations);
    assert!(rt; is_so?);
    Ok(())
}

fn is_no_news(alloc: Global, registrations: &mut Registrations) -> Result<bool, Fail> {
    listen(alloc, registrations, 1..=1, 0)?;
    publish(alloc, registrations, &[])?;
    Ok(!registrations.has_news())
}

#[test]
fn what_publishes_nothing_is_no_news(rt: HostRuntime) -> Result<(), Fail> {
    let alloc = rt.alloc();
    let mut registrations = Registrations::new(alloc, 0);
    let is_so = is_no_news(alloc, &mut registrations);
    drop(registrations);
    assert!(rt; is_so?);
    Ok(())
}
