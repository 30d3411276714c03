//! Telling registrations what was recorded, in one space after another.
ghost use Rattle.std.specs.Prelude.{◌≡◌, ◌<◌, ◌≤◌, ◌==◌, ◌&&◌, ℕ, true, false, map, length, take, get_or, IfOk, OnOk};
ghost use Rattle.std.specs.List.{list_all, list_any};
ghost use Rattle.jsp_notify.specs.declared.news.News.{News as OfNews};
ghost use Rattle.jsp_notify.specs.News.{all_told, hearing, is_behind, is_told as told_in, still_to_tell};

use crate::heard::Heard;
use crate::news::News;
use crate::registration_keys::Behind;
use jsp_model::Row;
use jsp_types::{Items, NoMemory};
use std::alloc::Global;

/// Up to how many registrations hear many rows at once.
const FEW: usize = 16;

/// Up to how many hear some.
const SOME: usize = 64;

/// How many registrations, where they are more, are told a row at once.
const MOST_LISTENERS: usize = 512;

/// How many rows that hardly any of these wants are gone through at once.
const MOST_PARTS: usize = 256;

/// Tells the registrations of a space some of what they haven't heard, so that one of them is owed
/// an event if any has one to come; nothing where one is. Where memory is refused the rest isn't
/// told.
pub(crate) fn tell_some(heard: &mut Heard, news: &mut Items<News>, space: u64)
    ensures { map (hearing news.new) heard.new ≡ map (hearing news.old) heard.old }
{
    if heard.first_owed(space).is_some() {
        return;
    }
    if heard.has_at_least(SOME + 1) {
        tell_a_few(heard, news, space);
    } else {
        tell_rows(heard, news, space);
    }
    drop_told(heard, news);
}

/// Tells some of very many registrations the next row, until one is owed an event.
fn tell_a_few(heard: &mut Heard, news: &mut Items<News>, space: u64)
    ensures { map (hearing news.new) heard.new ≡ map (hearing news.old) heard.old }
{
    'parts: for _ in 0..MOST_PARTS {
        if heard.first_owed(space).is_some() || !has_told_a_few(heard, news, space) {
            break 'parts;
        }
    }
}

/// Tells so many registrations the next row, if there is one, and memory for it.
fn has_told_a_few(heard: &mut Heard, news: &mut Items<News>, space: u64) -> bool
    ensures { map (hearing news.new) heard.new ≡ map (hearing news.old) heard.old }
{
    match tell_part(heard, news, space) {
        Ok(is_told) => is_told,
        Err(_) => false,
    }
}

/// Tells so many registrations of a space the next row that they haven't heard, if there is one.
fn tell_part(heard: &mut Heard, news: &mut Items<News>, space: u64) -> Result<bool, NoMemory>
    ensures { map (hearing news.new) heard.new ≡ map (hearing news.old) heard.old }
{
    let place = first_untold(news.as_slice(), space);
    if place >= news.as_slice().len() {
        return Ok(false);
    }
    match news.as_slice()[place].bound_of(heard, space, MOST_LISTENERS)? {
        None => news.items[place].tell_next(heard, space)?,
        Some(below) => news.items[place].tell_below(heard, space, below)?,
    }
    Ok(true)
}

/// How many rows are told at once, so that this takes about as long for some as for few.
fn rows_at_once(heard: &Heard) -> usize {
    if heard.has_at_least(FEW + 1) { 16 } else { 64 }
}

/// Tells several rows, each to all registrations of the space, which are few.
fn tell_rows(heard: &mut Heard, news: &mut Items<News>, space: u64)
    ensures { map (hearing news.new) heard.new ≡ map (hearing news.old) heard.old }
{
    let most = rows_at_once(heard);
    let mut count = 0;
    'rows: while count < most || heard.first_owed(space).is_none() {
        if !has_told_next(heard, news, space) {
            break 'rows;
        }
        count = count.saturating_add(1);
    }
}

/// Tells the next row, if there is one, and memory for it.
fn has_told_next(heard: &mut Heard, news: &mut Items<News>, space: u64) -> bool
    ensures same { map (hearing news.new) heard.new ≡ map (hearing news.old) heard.old }
    ensures fewer { result ≡ true → still_to_tell news.new space < still_to_tell news.old space }
{
    match tell_next(heard, news, space) {
        Ok(is_told) => is_told,
        Err(_) => false,
    }
}

/// Tells the registrations of a space all that they haven't heard.
///
/// # Errors
///
/// Where memory is refused the rest isn't told.
pub(crate) fn tell_all_in(
    heard: &mut Heard,
    news: &mut Items<News>,
    space: u64,
) -> Result<(), NoMemory>
    ensures same { map (hearing news.new) heard.new ≡ map (hearing news.old) heard.old }
    ensures all { OnOk result (all_told news.new space ≡ true) }
    ensures keeps { (k : ℕ) → all_told news.old k ≡ true → all_told news.new k ≡ true }
{
    'rows: while tell_next(heard, news, space)? {}
    Ok(())
}

/// Tells the registration of this number all that it hasn't heard, where it is owed nothing that it
/// has.
///
/// # Errors
///
/// Where memory is refused the rest isn't told.
pub(crate) fn tell_before(
    alloc: Global,
    heard: &mut Heard,
    news: &mut Items<News>,
    number: u64,
) -> Result<(), NoMemory>
    ensures same { map (hearing news.new) heard.new ≡ map (hearing news.old) heard.old }
    ensures ready { OnOk result (list_any (λ r. r.number == number && is_behind news.new r) heard.new ≡ false) }
{
    if heard.any_of(
        number,
        &Behind {
            news: news.as_slice(),
        },
    ) {
        let spaces = heard.spaces_of(alloc, number)?;
        tell_spaces(heard, news, spaces.as_slice())?;
    }
    Ok(())
}

/// Tells the registrations of these spaces all that they haven't heard.
fn tell_spaces(heard: &mut Heard, news: &mut Items<News>, spaces: &[u64]) -> Result<(), NoMemory>
    ensures same { map (hearing news.new) heard.new ≡ map (hearing news.old) heard.old }
    ensures all { OnOk result (list_all (all_told news.new) spaces.now ≡ true) }
{
    'spaces: for space in spaces {
        tell_all_in(heard, news, *space)?;
    }
    Ok(())
}

/// The same of the spaces of these rows.
pub(crate) fn tell_spaces_of(
    heard: &mut Heard,
    news: &mut Items<News>,
    rows: &[Row],
) -> Result<(), NoMemory>
    ensures same { map (hearing news.new) heard.new ≡ map (hearing news.old) heard.old }
    ensures all { OnOk result (list_all (λ row. all_told news.new row.space) rows.now ≡ true) }
{
    'rows: for row in rows {
        tell_all_in(heard, news, row.space)?;
    }
    Ok(())
}

/// Tells the registrations of a space the next row that they haven't heard, if there is one.
fn tell_next(heard: &mut Heard, news: &mut Items<News>, space: u64) -> Result<bool, NoMemory>
    ensures same { map (hearing news.new) heard.new ≡ map (hearing news.old) heard.old }
    ensures fewer { IfOk result (λ told. told ≡ true → still_to_tell news.new space < still_to_tell news.old space) }
    ensures all { IfOk result (λ told. told ≡ false → all_told news.new space ≡ true) }
    ensures keeps { (k : ℕ) → all_told news.old k ≡ true → all_told news.new k ≡ true }
{
    let place = first_untold(news.as_slice(), space);
    if place >= news.as_slice().len() {
        return Ok(false);
    }
    news.items[place].tell_next(heard, space)?;
    Ok(true)
}

/// Where the first news stands of which a row is left for the space, or how many there are.
fn first_untold(news: &[News], space: u64) -> usize
    ensures within { result ≤ length news.now }
    ensures before { all_told (take result news.now) space ≡ true }
    ensures there { (d : OfNews) → result < length news.now → told_in space (get_or news.now result d) ≡ false }
{
    let mut place = 0;
    'news: while place < news.len() && news[place].is_told(space) {
        place += 1;
    }
    place
}

/// Whether the registrations of a space are told all.
pub(crate) fn is_all_told(news: &[News], space: u64) -> bool
    ensures { result ≡ all_told news.now space }
{
    news.iter().all(|one| one.is_told(space))
}

/// Drops the earliest while it is told everywhere.
fn drop_told(heard: &Heard, news: &mut Items<News>)
    ensures { map (hearing news.new) heard.now ≡ map (hearing news.old) heard.now }
{
    'news: while !news.as_slice().is_empty() {
        if !news.as_slice()[0].is_told_everywhere() {
            break 'news;
        }
        let _told = news.items.remove(0);
    }
}
