//! Match sets: opening one, turning its pages, closing it (JavaSpaces contents; pages are this
//! profile's own).
ghost use Rattle.std.specs.Prelude.{◌≡◌, ◌≤◌, ◌+◌, ◌^◌, ◌==◌, ◌&&◌, ◌++◌, ◌∷◌, [], map, filter, find, position, take, length, nat_le, option_copied, None, OnOk, OnErr, IfOk, IsTrue};
ghost use Rattle.std.specs.List.{last_or};
ghost use Rattle.jsp_types.specs.Tests.{first_that};
ghost use Rattle.jsp_wire.specs.declared.ask.Ask.TheVariants as ask;
ghost use Rattle.jsp_reply.specs.declared.reply.Reply.TheVariants as says;
ghost use Rattle.jsp_model.specs.Lookup.{update, set_of as set_numbered, named as number_named};
ghost use Rattle.jsp_model.specs.Limits.{are_rising};
ghost use Rattle.jsp_model.specs.Refusals.{own_tests, set_tests, own_set as own};
ghost use Rattle.jsp_model.specs.Changes.{open_set, rest_of_set, page_of as page, is_last_page as is_last, turn_page as turned, close_set as closed};
ghost use Rattle.jsp_grants.specs.Paging.{opened, with_set, with_cursor};
ghost use Rattle.jsp_model.specs.declared.limits.TheConstants.{LAST_NUMBER, LAST_TIME, MOST_SETS};

use crate::granting::{LeaseAsked, refuse_grant};
use jsp_core::Core;
use jsp_lease::ms_of;
use jsp_model::{MOST_SETS, MatchSet, Rank};
use jsp_reply::{Refusal, Reply};
use jsp_state::{caller_of, named, place_of, template_of};
use jsp_transactions::{join, leave, remove};
use jsp_types::{Items, NoMemory};
use jsp_wire::Contents;
use std::alloc::Global;

/// Why a match set isn't opened, or nothing where it is.
pub fn refuse_contents(state: &Core, session: u64, id: u64, contents: &Contents) -> Option<Refusal>
    ensures { result ≡ first_that (own_tests state.now session id (ask.Contents contents.now)) }
{
    let asked = LeaseAsked {
        space: contents.space.as_str(),
        template: &contents.template,
        lease: contents.lease,
        txn: contents.txn,
    };
    refuse_grant(state, &asked, is_full(state))
}

fn is_full(state: &Core) -> bool
    ensures { result ≡ nat_le MOST_SETS (length state.now.sets) }
{
    state.sets.has_at_least(MOST_SETS)
}

/// Opens a match set, whole or not at all. The space joins its transaction.
pub fn accept_contents(
    alloc: Global,
    state: &mut Core,
    session: u64,
    id: u64,
    contents: &Contents,
) -> Result<(), NoMemory>
    requires time { state.old.time ≤ LAST_TIME }
    requires numbers { state.old.next_number ≤ LAST_NUMBER + 1 }
    requires accepted { first_that (own_tests state.old session id (ask.Contents contents.now)) ≡ None }
    ensures ok { OnOk result (state.new ≡ open_set state.old session contents.now) }
    ensures err { OnErr result (state.new ≡ state.old) }
{
    let set = new_set(alloc, state, session, id, contents)?;
    let joining = join(state, set.transaction, set.space)?;
    match add(state, set) {
        Ok(()) => Ok(()),
        Err(e) => {
            leave(state, joining);
            Err(e)
        }
    }
}

fn new_set(
    alloc: Global,
    state: &Core,
    session: u64,
    id: u64,
    contents: &Contents,
) -> Result<MatchSet, NoMemory>
    requires time { state.now.time ≤ LAST_TIME }
    requires accepted { first_that (own_tests state.now session id (ask.Contents contents.now)) ≡ None }
    ensures { IfOk result (λ m. m ≡ opened state.now session contents.now) }
{
    let template = template_of(alloc, &state.classes, &contents.template)?;
    Ok(MatchSet {
        number: state.next_number,
        session,
        space: place_of(state, contents.space.as_str()),
        template,
        transaction: caller_of(contents.txn),
        end: state.time + ms_of(contents.lease),
        cursor: 0,
    })
}

fn add(state: &mut Core, set: MatchSet) -> Result<(), NoMemory>
    requires { state.old.next_number ≤ LAST_NUMBER + 1 }
    ensures ok { OnOk result (state.new ≡ with_set state.old set) }
    ensures err { OnErr result (state.new ≡ state.old) }
{
    state.sets.push(set)?;
    state.next_number += 1;
    Ok(())
}

/// Why a match set is neither read nor closed: it isn't the session's own.
pub fn refuse_set(state: &Core, session: u64, set: &i64) -> Option<Refusal>
    ensures { result ≡ first_that (set_tests state.now session set.now) }
{
    if own_set(state, session, set).is_none() {
        return Some(Refusal::UnknownLease);
    }
    None
}

fn own_set<'a>(state: &'a Core, session: u64, set: &i64) -> Option<&'a MatchSet>
    ensures { option_copied result ≡ own state.now session set.now }
{
    let number = named(*set);
    state.sets.get_own(session, number)
}

fn set_of(state: &Core, number: u64) -> Option<&MatchSet>
    ensures { option_copied result ≡ set_numbered state.now number }
{
    state.sets.get(number)
}

/// The entries of the next page, at most so many, and whether none is left beyond it.
pub fn answer_next(
    alloc: Global,
    state: &Core,
    id: u64,
    number: u64,
    most: u64,
) -> Result<Reply, NoMemory>
    ensures { IfOk result (λ r. r ≡ says.Page id (is_last state.now number most) (map (λ row. row.entry) (page state.now number most))) }
{
    match set_of(state, number) {
        None => Ok(Reply::Page {
            id,
            end: true,
            entries: Items::new(alloc),
        }),
        Some(set) => page_reply(alloc, state, id, set, most),
    }
}

fn page_reply(
    alloc: Global,
    state: &Core,
    id: u64,
    set: &MatchSet,
    most: u64,
) -> Result<Reply, NoMemory>
    ensures { IfOk result (λ r. r ≡ says.Page id (nat_le (length (rest_of_set state.now set.now)) most) (map (λ row. row.entry) (take most (rest_of_set state.now set.now)))) }
{
    let rows = &state.rows;
    let more = rows.shows_more(&state.classes, set, most as usize);
    let entries = rows.entries_shown(alloc, &state.classes, set, most as usize)?;
    Ok(Reply::Page {
        id,
        end: !more,
        entries,
    })
}

/// The cursor of a set goes to the last row of its next page, if that has any.
pub fn turn_page(state: &mut Core, set: &i64, most: &u64)
    ensures { state.new ≡ turned state.old (number_named set.now) most.now }
{
    let number = number_of(set);
    let last = last_of_page(state, number, *most);
    turn_to(state, number, last);
}

fn number_of(set: &i64) -> u64
    ensures { result ≡ number_named set.now }
{
    named(*set)
}

fn turn_to(state: &mut Core, number: u64, last: Option<u64>)
    ensures { state.new ≡ with_cursor state.old number last }
{
    let sets = &mut state.sets;
    sets.turn(number, last);
}

fn last_of_page(state: &Core, number: u64, most: u64) -> Option<u64>
    ensures { result ≡ last_or None (map (λ row. row.number) (page state.now number most)) }
{
    match set_of(state, number) {
        None => None,
        Some(set) => state.rows.last_shown(&state.classes, set, most as usize),
    }
}

/// Closes a match set.
pub fn close_set(state: &mut Core, number: u64)
    ensures { state.new ≡ closed state.old number }
{
    remove(state, Rank::MatchSet, number);
}
