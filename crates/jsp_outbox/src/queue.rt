//! One outbox.
ghost use Rattle.std.specs.Prelude.{◌≡◌, ◌≤◌, ◌++◌, [], ◌∷◌, length, take, drop, IfOk, OnOk, OnErr};
ghost use Rattle.jsp_outbox.specs.Outboxes.{with_answer, without_last, later_answers};

use crate::weight::{weight_of, weight_of_all, weight_of_some};
use jsp_model::Outbox;
use jsp_reply::Said;
use jsp_types::{Items, NoMemory};
use std::alloc::Global;
use std::collections::VecDeque;
use std::marker::Model;

/// What waits for a session, as a queue. Contracts see it as the outbox.
#[derive(Drop)]
pub(crate) struct Queue {
    session: u64,
    answers: VecDeque<Said>,
    /// About how many bytes of memory they take.
    weight: u64,
}

impl Model for Queue {
    ghost use Rattle.jsp_model.specs.declared.state.Outbox.{Outbox};

    ghost Value = { Outbox };

    ghost view = { λ q. record { session = q.session; answers = q.answers.items } };
}

impl Queue {
    /// A queue with one answer in it.
    pub(crate) fn open(alloc: Global, session: u64, said: Said) -> Result<Queue, NoMemory>
        ensures { IfOk result (λ q. q ≡ record { session = session; answers = said ∷ [] }) }
    {
        let weight = weight_of(&said);
        let mut answers = VecDeque::new(alloc);
        answers.push_back(said)?;
        Ok(Queue {
            session,
            answers,
            weight,
        })
    }

    /// The queue of an outbox. Takes no memory.
    pub(crate) fn of(outbox: Outbox) -> Queue
        ensures { result ≡ outbox }
    {
        let Outbox { session, answers } = outbox;
        let answers = answers.into_vec();
        let weight = weight_of_all(answers.as_slice());
        Queue {
            session,
            answers: VecDeque::from_vec(answers),
            weight,
        }
    }

    /// A copy, as an outbox.
    pub(crate) fn to_outbox(&self, alloc: Global) -> Result<Outbox, NoMemory>
        ensures { IfOk result (λ b. b ≡ self.now) }
    {
        let (front, back) = self.answers.as_slices();
        let mut answers = Items::new(alloc);
        append_copies(&mut answers, front)?;
        append_copies(&mut answers, back)?;
        Ok(Outbox {
            session: self.session,
            answers,
        })
    }

    pub(crate) fn session(&self) -> u64
        ensures { result ≡ self.now.session }
    {
        self.session
    }

    /// How many answers wait.
    pub(crate) fn len(&self) -> usize
        ensures { result ≡ length self.now.answers }
    {
        self.answers.len()
    }

    /// About how many bytes of memory they take.
    pub(crate) fn weight(&self) -> u64 {
        self.weight
    }

    /// Adds an answer at the end, whole or not at all.
    pub(crate) fn push(&mut self, said: Said) -> Result<(), NoMemory>
        ensures ok { OnOk result (self.new ≡ with_answer self.old said) }
        ensures err { OnErr result (self.new ≡ self.old) }
    {
        let weight = weight_of(&said);
        self.answers.push_back(said)?;
        self.weight = self.weight.saturating_add(weight);
        Ok(())
    }

    /// Takes the last answer back.
    pub(crate) fn pop(&mut self)
        ensures { self.new ≡ without_last self.old }
    {
        let said = self.answers.pop_back();
        self.weight = self.weight.saturating_sub(weight_of_some(&said));
    }

    /// Takes so many answers from the front, whole or not at all.
    pub(crate) fn take_front(&mut self, alloc: Global, count: usize) -> Result<Vec<Said>, NoMemory>
        requires { count ≤ length self.old.answers }
        ensures ok { IfOk result (λ v. (v.items ≡ take count self.old.answers) × (self.new ≡ later_answers self.old count)) }
        ensures err { OnErr result (self.new ≡ self.old) }
    {
        let taken = take_front(alloc, &mut self.answers, count)?;
        let weight = weight_of_all(taken.as_slice());
        self.weight = self.weight.saturating_sub(weight);
        Ok(taken)
    }

    /// All answers.
    pub(crate) fn into_answers(self) -> Vec<Said>
        ensures { result.items ≡ self.answers }
    {
        let Queue {
            session: _,
            answers,
            weight: _,
        } = self;
        answers.into_vec()
    }
}

fn take_front(
    alloc: Global,
    answers: &mut VecDeque<Said>,
    count: usize,
) -> Result<Vec<Said>, NoMemory>
    requires { count ≤ length answers.old.items }
    ensures ok { IfOk result (λ v. (v.items ≡ take count answers.old.items) × (answers.new.items ≡ drop count answers.old.items)) }
    ensures err { OnErr result (answers.new.items ≡ answers.old.items) }
{
    let mut taken = Vec::with_capacity(alloc, count)?;
    'answers: for _ in 0..count {
        if let Some(said) = answers.pop_front() {
            taken.push_reserved(said);
        }
    }
    Ok(taken)
}

fn append_copies(copies: &mut Items<Said>, answers: &[Said]) -> Result<(), NoMemory>
    ensures { OnOk result (copies.new ≡ copies.old ++ answers.now) }
{
    for said in answers {
        copies.push(copy_said(said)?)?;
    }
    Ok(())
}

fn copy_said(said: &Said) -> Result<Said, NoMemory>
    ensures { IfOk result (λ c. c ≡ said.now) }
{
    said.clone()
}
