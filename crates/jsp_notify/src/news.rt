//! What registrations are to be told: recorded with the decision, and told space by space, a row at
//! a time.
ghost use Rattle.std.specs.Prelude.{◌≡◌, ◌==◌, ◌<◌, ◌+◌, ◌≤◌, ◌^◌, ℕ, if◌then◌else◌, nat_lt, map, length, take, drop, None, Some, OnOk, OnErr, IfOk, IfSome};
ghost use Rattle.std.specs.List.{list_any, list_all};
ghost use Rattle.jsp_table.specs.Counts.{count_of as counted, HasCount};
ghost use Rattle.jsp_notify.specs.Owing.{is_news as has_news, owed as with_owed};
ghost use Rattle.jsp_notify.specs.News.{hearing, is_told, numbers_untold, owed_in, told_next, untold};
ghost use Rattle.jsp_model.specs.declared.state.Registration.{Registration as OfRegistration};

use crate::heard::Heard;
use crate::owing::{Range, is_news, owe};
use jsp_model::{Registration, Row};
use jsp_table::{Counts, count_of, count_one_more, drop_count, make_room_for_count};
use jsp_types::{Classes, Items, NoMemory};
use std::alloc::Global;
use std::collections::HashMap;

/// The rows that a commit or a batch of writes brought, with the classes that were declared then.
/// The registrations of a space are told so many of them.
#[derive(Drop)]
pub(crate) struct News {
    classes: Classes,
    caller: Option<u64>,
    rows: Items<Row>,
    told: Counts,
    /// The registrations of a space whose numbers are below this one are told the next row too.
    reached: Counts,
}

impl News {
    /// The rows that a caller wrote, of which none is told.
    pub(crate) fn of(
        alloc: Global,
        classes: &Classes,
        caller: Option<u64>,
        rows: Items<Row>,
    ) -> Result<Self, NoMemory>
        ensures classes { IfOk result (λ n. n.classes ≡ classes.now) }
        ensures caller { IfOk result (λ n. n.caller ≡ caller) }
        ensures rows { IfOk result (λ n. n.rows ≡ rows) }
        ensures untold { IfOk result (λ n. (space : ℕ) → counted n.told space ≡ 0) }
        ensures unreached { IfOk result (λ n. (space : ℕ) → counted n.reached space ≡ 0) }
    {
        Ok(News {
            classes: classes.clone()?,
            caller,
            rows,
            told: HashMap::new(alloc),
            reached: HashMap::new(alloc),
        })
    }

    /// The rows that the registration hasn't been told of.
    fn untold(&self, registration: &Registration) -> &[Row]
        ensures { result.now ≡ untold self.now registration.now }
    {
        let rows = self.left_in(registration.space);
        if self.has_reached(registration) {
            behind_first(rows)
        } else {
            rows
        }
    }

    /// Those that some of the registrations of a space haven't been told of.
    fn left_in(&self, space: u64) -> &[Row]
        ensures { result.now ≡ drop (counted self.now.told space) self.now.rows }
    {
        let rows = self.rows.as_slice();
        &rows[count_of(&self.told, space).min(rows.len())..]
    }

    /// Whether the registration was told the first of these.
    fn has_reached(&self, registration: &Registration) -> bool
        ensures { result ≡ nat_lt registration.now.number (counted self.now.reached registration.now.space) }
    {
        registration.number < count_of(&self.reached, registration.space) as u64
    }

    /// Whether the registrations of a space are told each row.
    pub(crate) fn is_told(&self, space: u64) -> bool
        ensures { result ≡ is_told space self.now }
    {
        self.rows.as_slice().len() <= count_of(&self.told, space)
    }

    /// Whether those of each space are that has a row.
    pub(crate) fn is_told_everywhere(&self) -> bool
        ensures { result ≡ list_all (λ row. is_told row.space self.now) self.now.rows }
    {
        let rows = self.rows.as_slice();
        rows.iter().all(|row| self.is_told(row.space))
    }

    /// Whether a row that it hasn't been told of is news to the registration.
    pub(crate) fn is_for(&self, registration: &Registration) -> bool
        ensures { result ≡ list_any (has_news self.now.classes self.now.caller registration.now) (untold self.now registration.now) }
    {
        let rows = self.untold(registration);
        rows.iter().any(|row| is_news(&self.classes, self.caller, registration, row))
    }

    /// The registration is owed the rows that it hasn't been told of and that are news to it.
    pub(crate) fn tell_copy(&self, registration: &mut Registration) -> Result<(), NoMemory>
        ensures { OnOk result (registration.new ≡ with_owed self.now.classes self.now.caller (untold self.now registration.old) registration.old) }
    {
        let rows = self.untold(registration);
        owe(&self.classes, registration, rows, self.caller)
    }

    /// Tells the registrations of a space the next row, but those that were told it.
    pub(crate) fn tell_next(&mut self, heard: &mut Heard, space: u64) -> Result<(), NoMemory>
        requires { counted self.old.told space < length self.old.rows }
        ensures rest { self.new ≡ record self.old { told = self.new.told; reached = self.new.reached } }
        ensures told { OnOk result (heard.new ≡ map (told_next self.old space None) heard.old) }
        ensures one_more { OnOk result ((k : ℕ) → counted self.new.told k ≡ (if k == space then counted self.old.told k + 1 else counted self.old.told k)) }
        ensures anew { OnOk result ((k : ℕ) → counted self.new.reached k ≡ (if k == space then 0 else counted self.old.reached k)) }
        ensures stays { OnErr result (heard.new ≡ heard.old) }
        ensures no_more { OnErr result ((k : ℕ) → counted self.new.told k ≡ counted self.old.told k) }
        ensures no_further { OnErr result ((k : ℕ) → counted self.new.reached k ≡ counted self.old.reached k) }
    {
        let next = count_of(&self.told, space);
        make_room_for_count(&mut self.told, space)?;
        self.owe_row(heard, space, next, None)?;
        count_one_more(&mut self.told, space);
        drop_count(&mut self.reached, space);
        Ok(())
    }

    /// Tells those of them whose numbers are below this one.
    pub(crate) fn tell_below(
        &mut self,
        heard: &mut Heard,
        space: u64,
        below: u64,
    ) -> Result<(), NoMemory>
        requires next { counted self.old.told space < length self.old.rows }
        requires further { counted self.old.reached space ≤ below }
        ensures rest { self.new ≡ record self.old { reached = self.new.reached } }
        ensures told { OnOk result (heard.new ≡ map (told_next self.old space (Some below)) heard.old) }
        ensures reached { OnOk result ((k : ℕ) → counted self.new.reached k ≡ (if k == space then below else counted self.old.reached k)) }
        ensures stays { OnErr result (heard.new ≡ heard.old) }
        ensures no_further { OnErr result ((k : ℕ) → counted self.new.reached k ≡ counted self.old.reached k) }
    {
        let next = count_of(&self.told, space);
        make_room_for_count(&mut self.reached, space)?;
        self.owe_row(heard, space, next, Some(below))?;
        reach(&mut self.reached, space, below);
        Ok(())
    }

    /// A number below which so many registrations of a space or fewer, of those that weren't told
    /// the next row, are to be told it; nothing where no more are left.
    pub(crate) fn bound_of(
        &self,
        heard: &Heard,
        space: u64,
        most: usize,
    ) -> Result<Option<u64>, NoMemory>
        requires { counted self.now.told space < length self.now.rows }
        ensures { IfOk result (λ below. IfSome below (λ b. counted self.now.reached space ≤ b)) }
    {
        let rows = self.rows.as_slice();
        let row = &rows[count_of(&self.told, space)];
        if row.space != space {
            return Ok(None);
        }
        let from = count_of(&self.reached, space) as u64;
        heard.bound_of(&self.classes, row, self.caller, from, most)
    }

    /// The registrations of a space that weren't told the next row, up to a number, are owed this
    /// row, where it is there.
    fn owe_row(
        &self,
        heard: &mut Heard,
        space: u64,
        place: usize,
        below: Option<u64>,
    ) -> Result<(), NoMemory>
        requires { place < length self.now.rows }
        ensures ok { OnOk result (heard.new ≡ map (owed_in self.now (take 1 (drop place self.now.rows)) space (counted self.now.reached space) below) heard.old) }
        ensures err { OnErr result (heard.new ≡ heard.old) }
        ensures fits { length self.now.rows < 2 ^ 63 }
    {
        let rows = self.rows.as_slice();
        let row = &rows[place];
        if row.space != space {
            return Ok(());
        }
        let from = count_of(&self.reached, space) as u64;
        heard.owe_within(&self.classes, row, self.caller, Range { from, below })?;
        Ok(())
    }
}

fn behind_first(rows: &[Row]) -> &[Row]
    ensures { result.now ≡ drop 1 rows.now }
{
    &rows[1.min(rows.len())..]
}

/// The number up to which the registrations of a space were told a row, for which there is room.
fn reach(reached: &mut Counts, space: u64, below: u64)
    requires { HasCount reached.old space }
    ensures { (k : ℕ) → counted reached.new k ≡ (if k == space then below else counted reached.old k) }
{
    if let Some(number) = reached.get_mut(&space) {
        *number = below as usize;
    }
}
