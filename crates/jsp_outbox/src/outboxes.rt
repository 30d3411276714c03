//! The outboxes of all sessions. Contracts see them as a list, by rising session number, none
//! empty.
ghost use Rattle.std.specs.Prelude.{◌≡◌, [], nat_lt, length, take, find, fold, option_map, IfOk, OnOk, OnErr, IsTrue};
ghost use Rattle.jsp_model.specs.Outboxes.{post as posted, hand_out as handed_out};
ghost use Rattle.jsp_model.specs.Limits.{are_outboxes};
ghost use Rattle.jsp_outbox.specs.Outboxes.{before, before_all, answers_for};

use crate::copy::{outboxes_of, queues_of};
use crate::post::{Posted, post, take_back};
use crate::queue::Queue;
use crate::told::Told;
use crate::{find, hand_out};
use jsp_model::Outbox;
use jsp_reply::Said;
use jsp_types::{Items, NoMemory};
use std::alloc::Global;
use std::marker::Model;

/// What was said to the sessions and isn't handed out yet.
#[derive(Drop)]
pub struct Outboxes {
    queues: Vec<Queue>,
    told: Told,
}

impl Model for Outboxes {
    ghost use Rattle.std.specs.Prelude.{List, IsTrue};
    ghost use Rattle.jsp_model.specs.declared.state.Outbox.{Outbox};
    ghost use Rattle.jsp_model.specs.Limits.{are_outboxes};

    ghost Value = { List Outbox };

    ghost view = { λ a. a.queues.items };

    ghost invariant = { λ a. IsTrue (are_outboxes a.queues.items) };
}

impl Outboxes {
    /// No outboxes.
    pub fn new(alloc: Global) -> Self
        ensures { result ≡ [] }
    {
        Outboxes {
            queues: Vec::new(alloc),
            told: Told::new(alloc),
        }
    }

    /// These outboxes. Takes memory for one place each, and leaves their answers where they are.
    pub fn of(outboxes: Items<Outbox>) -> Result<Outboxes, NoMemory>
        requires { IsTrue (are_outboxes outboxes) }
        ensures { IfOk result (λ c. c ≡ outboxes) }
    {
        let queues = queues_of(outboxes)?;
        let told = Told::all(*queues.allocator());
        Ok(Outboxes { queues, told })
    }

    /// A plain copy of these outboxes.
    pub fn to_items(&self, alloc: Global) -> Result<Items<Outbox>, NoMemory>
        ensures { IfOk result (λ c. c ≡ self.now) }
    {
        outboxes_of(alloc, self.queues.as_slice())
    }

    // ---- post, and take back

    /// Adds an answer at the end of a session's outbox, whole or not at all.
    pub fn post(&mut self, alloc: Global, session: u64, said: Said) -> Result<Posted, NoMemory>
        ensures ok { IfOk result (λ p. (self.new ≡ posted self.old (session, said)) × (before p self.new ≡ self.old)) }
        ensures err { OnErr result (self.new ≡ self.old) }
    {
        let posted = post(alloc, &mut self.queues, session, said)?;
        self.told.note(session);
        Ok(posted)
    }

    /// Takes back the answer that was posted last. Takes no memory.
    pub fn take_back(&mut self, posted: Posted)
        ensures { self.new ≡ before posted self.old }
    {
        take_back(&mut self.queues, posted);
    }

    /// Posts what is said, in its order, whole or not at all, and answers where it was posted.
    pub fn post_all(
        &mut self,
        alloc: Global,
        sayings: Vec<(u64, Said)>,
    ) -> Result<Vec<Posted>, NoMemory>
        ensures ok { OnOk result (self.new ≡ fold posted self.old sayings.items) }
        ensures back { IfOk result (λ ps. before_all ps.items self.new ≡ self.old) }
        ensures err { OnErr result (self.new ≡ self.old) }
    {
        let mut posts = Vec::new(alloc);
        let mut rest = sayings.into_iter();
        'sayings: while let Some((session, said)) = rest.next() {
            if let Err(e) = self.post_and_note(alloc, &mut posts, session, said) {
                self.take_all_back(posts);
                return Err(e);
            }
        }
        Ok(posts)
    }

    /// Posts an answer and notes where, whole or not at all.
    fn post_and_note(
        &mut self,
        alloc: Global,
        posts: &mut Vec<Posted>,
        session: u64,
        said: Said,
    ) -> Result<(), NoMemory>
        ensures ok { OnOk result (self.new ≡ posted self.old (session, said)) }
        ensures back { before_all posts.new.items self.new ≡ before_all posts.old.items self.old }
    {
        let here = self.post(alloc, session, said)?;
        match posts.push(here) {
            Ok(()) => Ok(()),
            Err(_) => {
                self.take_back(here);
                Err(NoMemory)
            }
        }
    }

    /// Takes back the answers that were posted last, the last one first. Takes no memory.
    pub fn take_all_back(&mut self, mut posts: Vec<Posted>)
        ensures { self.new ≡ before_all posts.items self.old }
    {
        'posts: while let Some(here) = posts.pop() {
            self.take_back(here);
        }
    }

    // ---- hand out

    /// Hands out the first answers of a session, so many of those that are there, whole or not at
    /// all. Takes no memory where these are all.
    pub fn hand_out(
        &mut self,
        alloc: Global,
        session: u64,
        count: usize,
    ) -> Result<Vec<Said>, NoMemory>
        ensures answers { IfOk result (λ v. v.items ≡ take count (answers_for session self.old)) }
        ensures ok { OnOk result (self.new ≡ handed_out session count self.old) }
        ensures err { OnErr result (self.new ≡ self.old) }
    {
        hand_out::hand_out(alloc, &mut self.queues, session, count)
    }

    // ---- find

    /// A session that was told something since it was named here, while there is one. Where very
    /// many were, each that has an outbox is named. It may have none by now. Nothing else changes.
    pub fn next_told(&mut self) -> Option<u64>
        ensures { self.new ≡ self.old }
    {
        self.told.next(self.queues.as_slice())
    }

    /// How many answers wait for the session.
    pub fn waiting(&self, session: u64) -> u64
        ensures { result ≡ length (answers_for session self.now) }
    {
        find::waiting(self.queues.as_slice(), session)
    }

    /// About how many bytes of memory the answers take that wait for the session. No clause says
    /// it.
    pub fn weight(&self, session: u64) -> u64 {
        find::weight(self.queues.as_slice(), session)
    }

    /// The least session above this number that has an outbox.
    pub fn next_after(&self, session: u64) -> Option<u64>
        ensures { result ≡ option_map (λ b. b.session) (find (λ b. nat_lt session b.session) self.now) }
    {
        find::next_after(self.queues.as_slice(), session)
    }
}
