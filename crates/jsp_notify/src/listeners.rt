//! Registrations that are lent, to be owed rows.
ghost use Rattle.std.specs.Prelude.{◌≡◌, ◌-◌, map, length, take, IfOk, OnOk, OnErr};
ghost use Rattle.jsp_notify.specs.Hearing.{all_of};
ghost use Rattle.jsp_notify.specs.Owing.{owed};

use crate::heard::Heard;
use crate::news::News;
use jsp_model::Row;
use jsp_types::{Classes, Items, NoMemory};
use std::alloc::Global;

/// How many rows in all registrations are told at once.
const MOST_TOLD: usize = 1024;

/// The registrations, with what they haven't heard yet.
#[derive(Drop)]
pub struct Listeners {
    pub(crate) alloc: Global,
    /// The registrations, each with what it has heard of.
    pub heard: Heard,
    pub(crate) news: Items<News>,
}

impl Listeners {
    /// Whether so many rows might be told to very many. One row is told at once.
    pub fn are_many_for(&self, rows: usize) -> bool {
        rows > 1 && self.heard.has_at_least(MOST_TOLD / rows + 1)
    }

    /// Each registration is owed those of the rows, written by the caller, that are news to it,
    /// after all that it is owed. That is recorded, and told later; `forget_last` takes it back.
    ///
    /// # Errors
    ///
    /// Where memory is refused no registration is owed more than before.
    pub fn record(
        &mut self,
        classes: &Classes,
        rows: &[Row],
        caller: Option<u64>,
    ) -> Result<(), NoMemory>
        ensures heard { self.new.heard ≡ self.old.heard }
        ensures ok { OnOk result (all_of self.new ≡ map (owed classes.now caller rows.now) (all_of self.old)) }
        ensures last { OnOk result (take (length self.new.news - 1) self.new.news ≡ self.old.news) }
        ensures err { OnErr result (self.new.news ≡ self.old.news) }
    {
        let copies = copies_of(self.alloc, rows)?;
        let news = News::of(self.alloc, classes, caller, copies)?;
        self.news.push(news)?;
        Ok(())
    }

    /// What was recorded last is forgotten. Takes no memory.
    pub fn forget_last(&mut self)
        ensures heard { self.new.heard ≡ self.old.heard }
        ensures news { self.new.news ≡ take (length self.old.news - 1) self.old.news }
    {
        let _last = self.news.items.pop();
    }
}

fn copies_of(alloc: Global, rows: &[Row]) -> Result<Items<Row>, NoMemory>
    ensures { IfOk result (λ c. c ≡ rows.now) }
{
    let mut copies = Items::new(alloc);
    'rows: for row in rows {
        copies.push(copy_of(row)?)?;
    }
    Ok(copies)
}

fn copy_of(row: &Row) -> Result<Row, NoMemory>
    ensures { IfOk result (λ c. c ≡ row.now) }
{
    row.clone()
}
