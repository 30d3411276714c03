//! What is asked of registrations, and under which keys they are found.
ghost use Rattle.std.specs.Prelude.{ℕ, List, ◌==◌, ◌&&◌, [], ◌∷◌, ◌≡◌, not, length};
ghost use Rattle.std.specs.List.{list_any};
ghost use Rattle.jsp_types.specs.declared.class.Class.{Class};
ghost use Rattle.jsp_types.specs.declared.entry.Entry.{Entry as OfEntry};
ghost use Rattle.jsp_model.specs.Lookup.{is_caller as calls};
ghost use Rattle.jsp_keys.specs.Keys.{session_key, transaction_key, space_key};
ghost use Rattle.jsp_notify.specs.News.{hearing, is_behind, untold};
ghost use Rattle.jsp_notify.specs.Owing.{is_news as has_news, is_within as within};

use crate::news::News;
use crate::owing::{Range, is_news};
use crate::untold::is_all_told;
use jsp_keyed::Keys;
use jsp_keys::{ByEntry, key_of_session, key_of_space, key_of_transaction};
use jsp_model::{Registration, Row};
use jsp_sight::is_caller;
use jsp_table::Test;
use jsp_types::{Classes, Entry};

/// Whether it is a session's.
#[derive(Drop)]
pub(crate) struct OfSession {
    pub(crate) session: u64,
}

impl Test<Registration> for OfSession {
    ghost is_passed = { λ t r. r.session == t.session };

    fn passes(&self, registration: &Registration) -> bool {
        registration.session == self.session
    }
}

impl Keys for OfSession {
    ghost sought = { λ t seed. session_key seed t.session ∷ [] };

    fn sought_count(&self, _seed: u64) -> usize {
        1
    }

    fn sought_key(&self, seed: u64, _place: usize) -> u64 {
        key_of_session(seed, self.session)
    }
}

/// Whether it is under a transaction.
#[derive(Drop)]
pub(crate) struct Under {
    pub(crate) transaction: u64,
}

impl Test<Registration> for Under {
    ghost is_passed = { λ t r. calls r.transaction t.transaction };

    fn passes(&self, registration: &Registration) -> bool {
        is_caller(registration.transaction, self.transaction)
    }
}

impl Keys for Under {
    ghost sought = { λ t seed. transaction_key seed t.transaction ∷ [] };

    fn sought_count(&self, _seed: u64) -> usize {
        1
    }

    fn sought_key(&self, seed: u64, _place: usize) -> u64 {
        key_of_transaction(seed, self.transaction)
    }
}

/// Whether it is at a space.
#[derive(Drop)]
pub(crate) struct At {
    pub(crate) space: u64,
}

impl Test<Registration> for At {
    ghost is_passed = { λ t r. r.space == t.space };

    fn passes(&self, registration: &Registration) -> bool {
        registration.space == self.space
    }
}

impl Keys for At {
    ghost sought = { λ t seed. space_key seed t.space ∷ [] };

    fn sought_count(&self, _seed: u64) -> usize {
        1
    }

    fn sought_key(&self, seed: u64, _place: usize) -> u64 {
        key_of_space(seed, self.space)
    }
}

/// Whether it is at a space and owed an event.
#[derive(Drop)]
pub(crate) struct OwedAt {
    pub(crate) space: u64,
}

impl Test<Registration> for OwedAt {
    ghost is_passed = { λ t r. r.space == t.space && not (length r.owed == 0) };

    fn passes(&self, registration: &Registration) -> bool {
        registration.space == self.space && !registration.owed.as_slice().is_empty()
    }
}

/// Whether it is at a space and owed an event, once it has heard what commits tell.
#[derive(Drop)]
pub(crate) struct OwedAfter<'a> {
    pub(crate) news: &'a [News],
    pub(crate) space: u64,
}

impl<'a> Test<Registration> for OwedAfter<'a> {
    ghost is_passed = { λ t r. r.space == t.space && not (length (hearing t.news.now r).owed == 0) };

    fn passes(&self, registration: &Registration) -> bool {
        registration.space == self.space && is_owed_after(self.news, registration)
    }
}

impl<'a> Keys for OwedAfter<'a> {
    ghost sought = { λ t seed. space_key seed t.space ∷ [] };

    fn sought_count(&self, _seed: u64) -> usize {
        1
    }

    fn sought_key(&self, seed: u64, _place: usize) -> u64 {
        key_of_space(seed, self.space)
    }
}

/// Whether it is owed an event, once it has heard what commits tell.
pub(crate) fn is_owed_after(news: &[News], registration: &Registration) -> bool
    ensures { result ≡ not (length (hearing news.now registration.now).owed == 0) }
{
    !registration.owed.as_slice().is_empty() || is_any_for(news, registration)
}

fn is_any_for(news: &[News], registration: &Registration) -> bool
    ensures { result ≡ list_any (λ n. list_any (has_news n.classes n.caller registration.now) (untold n registration.now)) news.now }
{
    news.iter().any(|one| one.is_for(registration))
}

/// Whether it is owed nothing that it has heard of, and its space hasn't heard all.
#[derive(Drop)]
pub(crate) struct Behind<'a> {
    pub(crate) news: &'a [News],
}

impl<'a> Test<Registration> for Behind<'a> {
    ghost is_passed = { λ t r. is_behind t.news.now r };

    fn passes(&self, registration: &Registration) -> bool {
        registration.owed.as_slice().is_empty() && !is_all_told(self.news, registration.space)
    }
}

/// Whether a row that the caller wrote is news to it.
#[derive(Drop)]
pub(crate) struct Hears<'a> {
    pub(crate) classes: &'a Classes,
    pub(crate) row: &'a Row,
    pub(crate) caller: Option<u64>,
}

impl<'a> Test<Registration> for Hears<'a> {
    ghost is_passed = { λ t r. has_news t.classes.now t.caller r t.row.now };

    fn passes(&self, registration: &Registration) -> bool {
        is_news(self.classes, self.caller, registration, self.row)
    }
}

/// Whether a row is news to it, and its number is of the range.
#[derive(Drop)]
pub(crate) struct HearsWithin<'a> {
    pub(crate) news: Hears<'a>,
    pub(crate) range: Range,
}

impl<'a> Test<Registration> for HearsWithin<'a> {
    ghost is_passed = { λ t r. within t.range.from t.range.below r && has_news t.news.classes.now t.news.caller r t.news.row.now };

    fn passes(&self, registration: &Registration) -> bool {
        self.range.has(registration) && self.news.passes(registration)
    }
}

impl<'a> ByEntry for HearsWithin<'a> {
    ghost classes_of = { λ t. t.news.classes.now };

    ghost space_of = { λ t. t.news.row.now.space };

    ghost entry_of = { λ t. t.news.row.now.entry };

    fn classes(&self) -> &Classes {
        self.news.classes
    }

    fn space(&self) -> u64 {
        self.news.row.space
    }

    fn entry(&self) -> &Entry {
        &self.news.row.entry
    }
}

impl<'a> ByEntry for Hears<'a> {
    ghost classes_of = { λ t. t.classes.now };

    ghost space_of = { λ t. t.row.now.space };

    ghost entry_of = { λ t. t.row.now.entry };

    fn classes(&self) -> &Classes {
        self.classes
    }

    fn space(&self) -> u64 {
        self.row.space
    }

    fn entry(&self) -> &Entry {
        &self.row.entry
    }
}
