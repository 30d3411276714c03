//! The registrations. Contracts see them as a list, in the order in which they were made.
ghost use Rattle.std.specs.Prelude.{◌≡◌, ◌==◌, ◌&&◌, ◌||◌, ◌++◌, ◌∷◌, ◌^◌, ◌+◌, ℕ, List, [], None, false, not, nat_le, nat_lt, map, filter, find, length, option_copied, option_map, IfOk, OnOk, OnErr, IfSome, IfNone, true, IsTrue};
ghost use Rattle.std.specs.List.{list_any, list_all};
ghost use Rattle.std.specs.Borrow.{LendsIfOk, sem};
ghost use Rattle.std.specs.Option.{option_map_or};
ghost use Rattle.jsp_lease.specs.Due.{first_item, over_by};
ghost use Rattle.jsp_model.specs.declared.state.Registration.{Registration as OfRegistration};
ghost use Rattle.jsp_model.specs.Lookup.{update, is_caller as calls};
ghost use Rattle.jsp_table.specs.Counts.{count_of};
ghost use Rattle.jsp_notify.specs.Hearing.{all_of, have_heard};
ghost use Rattle.jsp_notify.specs.contracts.listeners.Listeners.{the_row as listeners_row};
ghost use Rattle.jsp_notify.specs.contracts.registrations.Registrations.{the_row};
ghost use Rattle.jsp_notify.specs.News.{hearing, without_owed};
ghost use Rattle.jsp_notify.specs.Owing.{owed as with_owed};
ghost use Rattle.jsp_notify.specs.Registered.{registration_end, registration_ending, told_once};

use crate::heard::Heard;
use crate::listeners::Listeners;
use crate::news::News;
use crate::registration_keys::{OfSession, OwedAfter, is_owed_after};
use crate::untold::{is_all_told, tell_all_in, tell_before, tell_some, tell_spaces_of};
use jsp_model::{Item, Registration, Row};
use jsp_table::Test;
use jsp_types::{Classes, Items, NoMemory};
use std::alloc::Global;
use std::marker::Model;

/// The registrations. What a commit tells them is recorded with it, and told space by space before
/// anything else is told there: each is owed in the order of what is done. Contracts see each with
/// all that it is owed.
#[derive(Drop)]
pub struct Registrations {
    listeners: Listeners,
}

impl Model for Registrations {
    ghost use Rattle.std.specs.Prelude.{List};
    ghost use Rattle.jsp_model.specs.declared.state.Registration.{Registration};
    ghost use Rattle.jsp_notify.specs.Hearing.{all_of};

    ghost Value = { List Registration };

    ghost view = { λ a. all_of a.listeners };
}

impl Registrations {
    /// These registrations, which are looked at one by one.
    pub fn scanned(alloc: Global, registrations: Items<Registration>) -> Self
        ensures { result ≡ registrations }
    {
        Registrations::with(alloc, Heard::scanned(alloc, registrations))
    }

    /// No registrations; they will be found by hints. The keys come from the seed, which clients
    /// aren't to know.
    pub fn new(alloc: Global, seed: u64) -> Self
        ensures { result ≡ [] }
    {
        Registrations::with(alloc, Heard::new(alloc, seed))
    }

    /// These registrations, found by hints.
    pub fn of(
        alloc: Global,
        registrations: Items<Registration>,
        seed: u64,
    ) -> Result<Self, NoMemory>
        ensures { IfOk result (λ rs. rs ≡ registrations) }
    {
        let heard = Heard::of(alloc, registrations, seed)?;
        Ok(Registrations::with(alloc, heard))
    }

    #[tactic(auto, using(crate::proofs::Hearing::all_heard))]
    fn with(alloc: Global, heard: Heard) -> Self
        ensures { result ≡ heard }
    {
        let listeners = Listeners {
            alloc,
            heard,
            news: Items::new(alloc),
        };
        Registrations { listeners }
    }

    /// A plain copy of these registrations.
    pub fn to_items(&self) -> Result<Items<Registration>, NoMemory>
        ensures { IfOk result (λ c. c ≡ self.now) }
    {
        let mut copies = self.listeners.heard.to_items()?;
        tell_copies(&mut copies.items, self.listeners.news.as_slice())?;
        Ok(copies)
    }

    // ---- what a commit tells

    /// Each registration is owed those of the rows, which a commit publishes, that are news to it,
    /// in their order and after all that it is owed: in its space, and as its template matches.
    /// That is recorded, in the time that a copy of the classes takes, and told later.
    ///
    /// An event is told for each entry that becomes visible (JavaSpaces notify). That one is told
    /// for each row, in the order of the rows, is this profile's own.
    ///
    /// # Errors
    ///
    /// Where memory is refused no registration is owed more than before.
    pub fn record(&mut self, classes: &Classes, published: Items<Row>) -> Result<(), NoMemory>
        ensures ok { OnOk result (self.new ≡ map (with_owed classes.now None published) self.old) }
        ensures err { OnErr result (self.new ≡ self.old) }
    {
        if published.as_slice().is_empty() {
            return Ok(());
        }
        let news = News::of(self.listeners.alloc, classes, None, published)?;
        self.record_news(news)
    }

    fn record_news(&mut self, news: News) -> Result<(), NoMemory>
        requires untold { (space : ℕ) → count_of news.told space ≡ 0 }
        requires unreached { (space : ℕ) → count_of news.reached space ≡ 0 }
        ensures ok { OnOk result (self.new ≡ map (with_owed news.classes news.caller news.rows) self.old) }
        ensures err { OnErr result (self.new ≡ self.old) }
    {
        self.listeners.news.push(news)?;
        Ok(())
    }

    /// Whether anything that commits tell isn't told yet.
    pub fn has_news(&self) -> bool {
        !self.listeners.news.as_slice().is_empty()
    }

    /// The registrations of a space are told some of what commits tell them, so that one of them is
    /// owed an event if any has one to come, as far as there is memory for it. Nothing where one
    /// is.
    pub fn hear_in(&mut self, space: u64)
        ensures { self.new ≡ self.old }
    {
        tell_some(&mut self.listeners.heard, &mut self.listeners.news, space);
    }

    /// The registrations, to be owed these rows. Those of the rows' spaces have heard all that
    /// commits tell.
    ///
    /// # Errors
    ///
    /// Where memory is refused for what commits told before.
    pub fn listeners_for(&mut self, rows: &[Row]) -> Result<&mut Listeners, NoMemory>
        ensures* lends { sem 𝓛 (LendsIfOk the_row listeners_row self.entry result all_of self.old) }
        ensures all { IfOk result (λ listeners. all_of listeners.now ≡ self.old) }
        ensures heard { IfOk result (λ listeners. have_heard listeners.now rows.now ≡ true) }
    {
        tell_spaces_of(&mut self.listeners.heard, &mut self.listeners.news, rows)?;
        Ok(&mut self.listeners)
    }

    // ---- add

    /// Adds a registration at the end, whole or not at all. It hears nothing of what commits told
    /// before.
    pub fn push(&mut self, registration: Registration) -> Result<(), NoMemory>
        ensures ok { OnOk result (self.new ≡ self.old ++ registration ∷ []) }
        ensures err { OnErr result (self.new ≡ self.old) }
    {
        // So that it hears nothing of it.
        let space = registration.space;
        tell_all_in(&mut self.listeners.heard, &mut self.listeners.news, space)?;
        self.listeners.heard.push(registration)?;
        Ok(())
    }

    // ---- leave out. Nothing here takes memory.

    /// The registration of this number goes.
    pub fn remove(&mut self, number: u64)
        ensures { self.new ≡ filter (λ r. not (r.number == number)) self.old }
    {
        self.listeners.heard.remove(number);
    }

    /// The registrations of a session go.
    pub fn remove_of(&mut self, session: u64)
        ensures { self.new ≡ filter (λ r. not (r.session == session)) self.old }
    {
        self.listeners.heard.remove_of(session);
    }

    /// The registrations under a transaction go.
    pub fn remove_under(&mut self, x: u64)
        ensures { self.new ≡ filter (λ r. not (calls r.transaction x)) self.old }
    {
        self.listeners.heard.remove_under(x);
    }

    /// The registrations at a space go.
    pub fn clear(&mut self, space: u64)
        ensures { self.new ≡ filter (λ r. not (r.space == space)) self.old }
    {
        self.listeners.heard.clear(space);
    }

    // ---- change in place

    /// The next event of a registration is told: it is owed one less, and its sequence number rises
    /// by one.
    ///
    /// # Errors
    ///
    /// Where memory is refused for what commits told before, nothing is told.
    pub fn tell(&mut self, number: u64) -> Result<(), NoMemory>
        requires { IsTrue (list_all (λ r. nat_le (r.sequence + 1) (2 ^ 63)) self.old) }
        ensures ok { OnOk result (self.new ≡ update (λ r. r.number == number) told_once self.old) }
        ensures err { OnErr result (self.new ≡ self.old) }
    {
        tell_before(
            self.listeners.alloc,
            &mut self.listeners.heard,
            &mut self.listeners.news,
            number,
        )?;
        self.listeners.heard.tell(number);
        Ok(())
    }

    /// The registration of this number ends then. Takes no memory.
    pub fn extend(&mut self, number: u64, end: u64)
        ensures { self.new ≡ map (registration_ending number end) self.old }
    {
        self.listeners.heard.extend(number, end);
    }

    // ---- find. Nothing here takes memory but what answers in a list.

    /// Whether there is none.
    pub fn is_empty(&self) -> bool
        ensures { result ≡ (length self.now == 0) }
    {
        self.listeners.heard.is_empty()
    }

    /// Whether there are so many.
    pub fn has_at_least(&self, count: usize) -> bool
        ensures { result ≡ nat_le count (length self.now) }
    {
        self.listeners.heard.has_at_least(count)
    }

    /// How many there are at a space.
    pub fn count_in(&self, space: u64) -> usize
        ensures { result ≡ length (filter (λ r. r.space == space) self.now) }
    {
        self.listeners.heard.count_in(space)
    }

    /// Whether a session has one.
    pub fn has_any_of(&self, session: u64) -> bool
        ensures { result ≡ list_any (λ r. r.session == session) self.now }
    {
        self.listeners
            .heard
            .first_number(&OfSession { session })
            .is_some()
    }

    /// The registration of this number, but for what it is owed.
    pub fn get(&self, number: u64) -> Option<&Registration>
        ensures { option_map without_owed (option_copied result) ≡ option_map without_owed (find (λ r. r.number == number) self.now) }
    {
        self.listeners.heard.get(number)
    }

    /// Whether a registration has this number.
    pub fn has(&self, number: u64) -> bool
        ensures { result ≡ list_any (λ r. r.number == number) self.now }
    {
        self.listeners.heard.has(number)
    }

    /// Whether a registration of this number passes a test, which doesn't ask what it is owed.
    pub fn any_of<P: Test<Registration>>(&self, number: u64, test: &P) -> bool
        requires { (owed : List ℕ) (r : OfRegistration) → P.is_passed test.now (record r { owed = owed }) ≡ P.is_passed test.now r }
        ensures { result ≡ list_any (λ r. r.number == number && P.is_passed test.now r) self.now }
    {
        self.listeners.heard.any_of(number, test)
    }

    /// Whether the registration of this number is owed an event.
    pub fn is_owed(&self, number: u64) -> bool
        ensures { result ≡ option_map_or (λ r. nat_lt 0 (length r.owed)) (find (λ r. r.number == number) self.now) false }
    {
        match self.listeners.heard.get(number) {
            None => false,
            Some(registration) => is_owed_after(self.listeners.news.as_slice(), registration),
        }
    }

    /// Whether no registration of the space is owed an event.
    pub fn none_is_owed(&self, space: u64) -> bool
        ensures { result ≡ list_all (λ r. not (r.space == space) || length r.owed == 0) self.now }
    {
        self.next_owed(space).is_none()
    }

    /// The number of a registration of the space that is owed an event: the first of those that
    /// have heard of theirs. Only where none of them has, and the space hasn't heard all, all of
    /// them are looked at.
    pub fn next_owed(&self, space: u64) -> Option<u64>
        ensures some { IfSome result (λ n. list_any (λ r. r.number == n && (r.space == space && not (length r.owed == 0))) self.now ≡ true) }
        ensures none { IfNone result (list_all (λ r. not (r.space == space) || length r.owed == 0) self.now ≡ true) }
    {
        let found = first_owed(&self.listeners.heard, space);
        if found.is_some() {
            return found;
        }
        let news = self.listeners.news.as_slice();
        if is_all_told(news, space) {
            return None;
        }
        self.listeners
            .heard
            .first_number(&OwedAfter { news, space })
    }

    /// The registration whose end has come and comes first, as an item.
    pub fn due(&self, time: u64) -> Option<Item>
        ensures { result ≡ first_item (over_by time (map registration_end self.now)) }
    {
        self.listeners.heard.due(time)
    }

    /// The spaces of the registrations of this number.
    pub fn spaces_of(&self, alloc: Global, number: u64) -> Result<Vec<u64>, NoMemory>
        ensures { IfOk result (λ v. v.items ≡ map (λ r. r.space) (filter (λ r. r.number == number) self.now)) }
    {
        self.listeners.heard.spaces_of(alloc, number)
    }
}

/// The number of the first registration of the space that is owed an event.
fn first_owed(heard: &Heard, space: u64) -> Option<u64>
    ensures { result ≡ option_map (λ (r : OfRegistration). r.number) (find (λ r. r.space == space && not (length r.owed == 0)) heard.now) }
{
    match heard.first_owed(space) {
        None => None,
        Some(registration) => Some(registration.number),
    }
}

/// Each copy is owed what commits tell.
fn tell_copies(copies: &mut [Registration], news: &[News]) -> Result<(), NoMemory>
    ensures { OnOk result (copies.new ≡ map (hearing news.now) copies.old) }
{
    'copies: for place in 0..copies.len() {
        tell_copy(&mut copies[place], news)?;
    }
    Ok(())
}

fn tell_copy(copy: &mut Registration, news: &[News]) -> Result<(), NoMemory>
    ensures { OnOk result (copy.new ≡ hearing news.now copy.old) }
{
    'news: for one in news {
        one.tell_copy(copy)?;
    }
    Ok(())
}
