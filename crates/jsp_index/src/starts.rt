//! Up to where the rows that have a key are held by transactions, by key.
ghost use Rattle.std.specs.Prelude.{◌≡◌, ◌==◌, ◌<◌, ◌≤◌, ℕ, if◌then◌else◌, OnOk, OnErr};
ghost use Rattle.std.specs.Bool.{OnTrue};
ghost use Rattle.jsp_index.specs.declared.starts.Unseen.{Unseen as OfUnseen};
ghost use Rattle.jsp_index.specs.Starts.{number_at, start_at};
ghost use Rattle.jsp_index.specs.Passed.{is_open};

use crate::NoMemory;
use crate::row_tests::{Free, Public, Untaken};
use jsp_model::Row;
use jsp_table::Test;
use std::collections::HashMap;

/// Rows that a search can't have.
#[derive(Clone, Copy, Debug, PartialEq, Eq)]
pub(crate) enum Unseen {
    /// There are none.
    Nothing,
    /// Those that a transaction took.
    Taken,
    /// Those that a transaction wrote or took.
    Hidden,
    /// Those that a transaction wrote, took or read.
    Held,
}

impl Unseen {
    /// Whether the row isn't one of them.
    pub(crate) fn leaves(&self, row: &Row) -> bool
        ensures { result ≡ is_open self.now row.now }
    {
        match self {
            Unseen::Nothing => true,
            Unseen::Taken => Untaken {}.passes(row),
            Unseen::Hidden => Public {}.passes(row),
            Unseen::Held => Free {}.passes(row),
        }
    }
}

/// The number up to which all rows that have a key are taken, hidden and held.
#[derive(Clone, Copy, Debug, PartialEq, Eq)]
pub(crate) struct ListStart {
    pub(crate) taken: u64,
    pub(crate) hidden: u64,
    pub(crate) held: u64,
}

impl ListStart {
    /// Whether all three are one number.
    pub(crate) fn are_equal(&self) -> bool {
        self.taken == self.hidden && self.hidden == self.held
    }

    /// The number up to which no row is seen.
    pub(crate) fn number(&self, unseen: Unseen) -> u64
        ensures { result ≡ number_at unseen self.now }
    {
        match unseen {
            Unseen::Nothing => 0,
            Unseen::Taken => self.taken,
            Unseen::Hidden => self.hidden,
            Unseen::Held => self.held,
        }
    }
}

/// The start of each key, 0 where there is none.
pub(crate) type Starts = HashMap<u64, ListStart>;

/// Whether each key starts at 0.
pub(crate) fn has_none(starts: &Starts) -> bool
    ensures { OnTrue result ((u : OfUnseen) (k : ℕ) → start_at u starts.now k ≡ 0) }
{
    starts.len() == 0
}

/// The start of a key.
pub(crate) fn start_of(starts: &Starts, key: u64) -> ListStart
    ensures { (u : OfUnseen) → number_at u result ≡ start_at u starts.now key }
{
    match starts.get(&key) {
        Some(start) => *start,
        None => ListStart {
            taken: 0,
            hidden: 0,
            held: 0,
        },
    }
}

/// A key starts there from here on. Where memory is refused all stays as it was.
pub(crate) fn set_start(starts: &mut Starts, key: u64, start: ListStart) -> Result<(), NoMemory>
    ensures ok { OnOk result ((u : OfUnseen) (k : ℕ) → start_at u starts.new k ≡ (if k == key then number_at u start else start_at u starts.old k)) }
    ensures err { OnErr result ((u : OfUnseen) (k : ℕ) → start_at u starts.new k ≡ start_at u starts.old k) }
{
    starts.insert(key, start)?;
    Ok(())
}

/// A key starts below a number from here on. Takes no memory.
pub(crate) fn lower_start(starts: &mut Starts, key: u64, number: u64)
    requires { 0 < number }
    ensures down { (u : OfUnseen) (k : ℕ) → start_at u starts.new k ≤ start_at u starts.old k }
    ensures below { (u : OfUnseen) → start_at u starts.new key < number }
{
    if let Some(start) = starts.get_mut(&key) {
        let last = number - 1;
        *start = ListStart {
            taken: start.taken.min(last),
            hidden: start.hidden.min(last),
            held: start.held.min(last),
        };
    }
}

/// A key starts at 0 from here on. Takes no memory.
pub(crate) fn drop_start(starts: &mut Starts, key: u64)
    ensures { (u : OfUnseen) (k : ℕ) → start_at u starts.new k ≤ start_at u starts.old k }
{
    starts.remove(&key);
}
