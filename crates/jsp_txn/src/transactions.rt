//! The transactions. Contracts see them as a list, in the order in which they began.
ghost use Rattle.std.specs.Prelude.{◌≡◌, ◌==◌, ◌&&◌, ◌++◌, ◌∷◌, [], not, nat_le, map, filter, find, length, option_copied, IfOk, OnOk, OnErr};
ghost use Rattle.std.specs.List.{list_any};
ghost use Rattle.jsp_lease.specs.Due.{first_item, over_by};
ghost use Rattle.jsp_model.specs.Lookup.{update};
ghost use Rattle.jsp_txn.specs.Joining.{with_joined, without_last};
ghost use Rattle.jsp_txn.specs.Voting.{voting};
ghost use Rattle.jsp_txn.specs.Ending.{transaction_end, transaction_ending};

use crate::by_number::ByNumber;
use crate::transaction_changes::{CastVote, EndAt, Join, Leave};
use jsp_lease::Item;
use jsp_list::IndexedList;
use jsp_model::{Joined, Transaction, Vote};
use jsp_table::Test;
use jsp_types::{Items, NoMemory};
use std::alloc::Global;
use std::marker::Model;

/// The transactions that aren't decided.
#[derive(Drop)]
pub struct Transactions {
    list: IndexedList<Transaction, ByNumber>,
}

impl Model for Transactions {
    ghost use Rattle.std.specs.Prelude.{List};
    ghost use Rattle.jsp_model.specs.declared.state.Transaction.{Transaction};

    ghost Value = { List Transaction };

    ghost view = { λ t. t.list };
}

impl Transactions {
    /// These transactions, which are looked at one by one.
    pub fn scanned(alloc: Global, transactions: Items<Transaction>) -> Self
        ensures { result ≡ transactions }
    {
        Transactions {
            list: IndexedList::scanned(alloc, transactions),
        }
    }

    /// No transactions; they will be found by hints. The hints' keys come from the seed, which
    /// clients aren't to know.
    pub fn new(alloc: Global, seed: u64) -> Self
        ensures { result ≡ [] }
    {
        Transactions {
            list: IndexedList::new(alloc, seed),
        }
    }

    /// These transactions, found by hints.
    ///
    /// # Errors
    ///
    /// `NoMemory` where memory is refused.
    pub fn of(alloc: Global, transactions: Items<Transaction>, seed: u64) -> Result<Self, NoMemory>
        ensures { IfOk result (λ t. t ≡ transactions) }
    {
        let list = IndexedList::of(alloc, transactions, seed)?;
        Ok(Transactions { list })
    }

    /// A plain copy of these transactions.
    ///
    /// # Errors
    ///
    /// `NoMemory` where memory is refused.
    pub fn to_items(&self) -> Result<Items<Transaction>, NoMemory>
        ensures { IfOk result (λ c. c ≡ self.now) }
    {
        self.list.to_items()
    }

    // ---- add

    /// Adds a transaction at the end, whole or not at all.
    ///
    /// # Errors
    ///
    /// Where memory is refused the transactions are as they were.
    pub fn push(&mut self, transaction: Transaction) -> Result<(), NoMemory>
        ensures ok { OnOk result (self.new ≡ self.old ++ transaction ∷ []) }
        ensures err { OnErr result (self.new ≡ self.old) }
    {
        self.list.push(transaction)
    }

    // ---- leave out

    /// The transaction of this number goes. Takes no memory.
    pub fn remove(&mut self, number: u64)
        ensures { self.new ≡ filter (λ t. not (t.number == number)) self.old }
    {
        self.list.remove(number);
    }

    // ---- change in place

    /// A space joins the transaction of this number, with its crash count (Jini Transactions).
    ///
    /// # Errors
    ///
    /// Where memory is refused the transactions are as they were.
    pub fn join(&mut self, x: u64, joined: Joined) -> Result<(), NoMemory>
        ensures ok { OnOk result (self.new ≡ update (λ t. t.number == x) (with_joined joined) self.old) }
        ensures err { OnErr result (self.new ≡ self.old) }
    {
        self.list.try_change(x, &Join { joined }, &Leave {})
    }

    /// The space that joined the transaction of this number last leaves it, which takes a join
    /// back. Takes no memory.
    pub fn leave(&mut self, x: u64)
        ensures { self.new ≡ update (λ t. t.number == x) without_last self.old }
    {
        self.list.change(x, &Leave {});
    }

    /// The space votes, if it joined the transaction of this number (Jini Transactions). Takes no
    /// memory.
    pub fn vote(&mut self, x: u64, space: u64, vote: Vote)
        ensures { self.new ≡ map (voting x space vote) self.old }
    {
        self.list.change(x, &CastVote { space, vote });
    }

    /// The lease of the transaction of this number ends then, in milliseconds of house time (Jini
    /// Leasing). Takes no memory.
    pub fn extend(&mut self, number: u64, end: u64)
        ensures { self.new ≡ map (transaction_ending number end) self.old }
    {
        self.list.set_end(number, end, &EndAt { end });
    }

    // ---- find. Nothing here takes memory.

    /// The transaction of this number.
    pub fn get(&self, x: u64) -> Option<&Transaction>
        ensures { option_copied result ≡ find (λ t. t.number == x) self.now }
    {
        self.list.get(x)
    }

    /// Whether there are so many.
    pub fn has_at_least(&self, count: usize) -> bool
        ensures { result ≡ nat_le count (length self.now) }
    {
        self.list.has_at_least(count)
    }

    /// How many there are.
    pub fn len(&self) -> usize
        ensures { result ≡ length self.now }
    {
        self.list.len()
    }

    /// Whether the transaction of this number passes a test.
    pub fn any_of<P: Test<Transaction>>(&self, number: u64, test: &P) -> bool
        ensures { result ≡ list_any (λ t. t.number == number && P.is_passed test.now t) self.now }
    {
        self.list.any_of(number, test)
    }

    /// Whether one passes a test. Each is looked at.
    pub fn any<P: Test<Transaction>>(&self, test: &P) -> bool
        ensures { result ≡ list_any (P.is_passed test.now) self.now }
    {
        self.list.any(test)
    }

    /// The transaction whose end has come by this time, in milliseconds of house time, and comes
    /// first, as an item.
    pub fn due(&self, time: u64) -> Option<Item>
        ensures { result ≡ first_item (over_by time (map transaction_end self.now)) }
    {
        self.list.due(time)
    }

    /// The same of those that pass a test. Each is looked at.
    pub fn due_of<P: Test<Transaction>>(&self, time: u64, test: &P) -> Option<Item>
        ensures { result ≡ first_item (over_by time (map transaction_end (filter (P.is_passed test.now) self.now))) }
    {
        self.list.due_of(time, test)
    }
}
