//! A state that is worked on, with the limits of the profile in its type.
ghost use Rattle.std.specs.Prelude.{◌≡◌, IfOk};
ghost use Rattle.jsp_model.specs.Limits.{IsWithinLimits};
ghost use Rattle.jsp_quiet.specs.Steady.{IsSteady};

use crate::{Core, Offers};
use jsp_model::Image;
use jsp_store::Keeping;
use jsp_types::NoMemory;
use std::alloc::Global;
use std::marker::Model;

/// A state within its limits, to be searched and changed. Contracts see it as the state. No waiting
/// request may be given a row that isn't on offer, and those that wait for a conflict to end, and
/// for which there is none, are among those that are stirred. Where it says so the state is steady,
/// as each is to which a run from an empty one leads: then a declaration changes nothing for those
/// who wait.
///
/// Whoever changes the state shows all four again.
#[derive(Drop)]
pub struct LiveImage {
    pub state: Core,
    pub offers: Offers,
    pub stirred: Offers,
    pub is_steady: bool,
}

impl Model for LiveImage {
    ghost use Rattle.jsp_model.specs.declared.state.State.{State};
    ghost use Rattle.jsp_model.specs.Limits.{IsWithinLimits};
    ghost use Rattle.jsp_quiet.specs.Steady.{IsSteady};
    ghost use Rattle.std.specs.Prelude.{◌≡◌, true, IsTrue};
    ghost use Rattle.jsp_core.specs.Offering.{are_offered, are_stirred};

    ghost Value = { State };

    ghost view = { λ a. a.state };

    ghost invariant = { λ a. IsWithinLimits a.state × IsTrue (are_offered a.offers a.state) × IsTrue (are_stirred a.stirred a.state) × (a.is_steady ≡ true → IsSteady a.state) };
}

impl LiveImage {
    /// The state of this image, whose rows are kept so.
    pub fn of(alloc: Global, image: Image, keeping: Keeping) -> Result<LiveImage, NoMemory>
        ensures { IfOk result (λ i. i ≡ image) }
    {
        let Image { state } = image;
        let state = Core::of(alloc, state, keeping)?;
        Ok(LiveImage {
            state,
            offers: Offers::any(alloc),
            stirred: Offers::any(alloc),
            is_steady: false,
        })
    }

    /// The same, of which it is known that it is steady.
    pub fn known_steady(self) -> LiveImage
        requires { IsSteady self }
        ensures { result ≡ self }
    {
        LiveImage {
            state: self.state,
            offers: self.offers,
            stirred: self.stirred,
            is_steady: true,
        }
    }

    /// The image of it, kept plain.
    pub fn to_image(&self, alloc: Global) -> Result<Image, NoMemory>
        ensures { IfOk result (λ i. i ≡ self.now) }
    {
        let state = self.state.to_state(alloc)?;
        Ok(Image { state })
    }

    /// The state.
    pub fn state(&self) -> &Core
        ensures state { result.now ≡ self.now }
        ensures limits { IsWithinLimits self.now }
    {
        &self.state
    }

    /// A session that was told something since it was named here, while there is one. Nothing else
    /// changes.
    pub fn next_told(&mut self) -> Option<u64>
        ensures { self.new ≡ self.old }
    {
        next_told(&mut self.state)
    }

    /// Whether any space has a decision that it hasn't applied, or any registration is to be told
    /// what a commit tells it.
    pub fn has_pending(&self) -> bool {
        self.state.rows.has_pending() || self.state.registrations.has_news()
    }

    /// The space applies the decisions that it hasn't applied, and where none of its registrations
    /// is owed an event, they are told some of what commits tell them, as far as there is memory
    /// for it.
    pub fn apply_in(&mut self, space: u64)
        ensures { self.new ≡ self.old }
    {
        apply_in(&mut self.state, space);
    }

    /// The same, but rows of a space that was reset stay as they are: none of them is found anyway.
    pub fn apply_unless_cleared(&mut self, space: u64)
        ensures { self.new ≡ self.old }
    {
        apply_unless_cleared(&mut self.state, space);
    }

    /// Whether the space has a decision that it hasn't applied.
    pub fn has_unapplied(&self, space: u64) -> bool {
        self.state.rows.pending(space) > 0
    }

    /// The space applies some of the decisions that it hasn't applied, in a time that doesn't grow
    /// with how many rows they change. Whether it has applied all. Takes no memory.
    pub fn apply_part(&mut self, space: u64) -> bool
        ensures { self.new ≡ self.old }
    {
        apply_part(&mut self.state, space)
    }

    /// The space of a row that ends by then and comes first applies some of them. Whether it has
    /// none to apply. Takes no memory.
    pub fn apply_due_part(&mut self, time: u64) -> bool
        ensures { self.new ≡ self.old }
    {
        apply_due_part(&mut self.state, time)
    }

    /// The spaces apply theirs in which a row ends that is first to end. Takes no memory.
    pub fn apply_due(&mut self)
        ensures { self.new ≡ self.old }
    {
        apply_due(&mut self.state);
    }

    /// All spaces do so.
    pub fn apply_all(&mut self)
        ensures { self.new ≡ self.old }
    {
        apply_all(&mut self.state);
    }
}

fn next_told(state: &mut Core) -> Option<u64>
    ensures { state.new ≡ state.old }
{
    let outboxes = &mut state.outboxes;
    outboxes.next_told()
}

fn apply_in(state: &mut Core, space: u64)
    ensures { state.new ≡ state.old }
{
    hear_in(state, space);
    let rows = &mut state.rows;
    rows.apply_in(space);
}

fn apply_unless_cleared(state: &mut Core, space: u64)
    ensures { state.new ≡ state.old }
{
    hear_in(state, space);
    let rows = &mut state.rows;
    rows.apply_unless_cleared(space);
}

fn apply_part(state: &mut Core, space: u64) -> bool
    ensures { state.new ≡ state.old }
{
    let rows = &mut state.rows;
    rows.apply_part(space)
}

fn apply_due_part(state: &mut Core, time: u64) -> bool
    ensures { state.new ≡ state.old }
{
    let rows = &mut state.rows;
    rows.apply_due_part(time)
}

fn apply_due(state: &mut Core)
    ensures { state.new ≡ state.old }
{
    let time = state.time;
    let rows = &mut state.rows;
    rows.apply_due(time);
}

fn apply_all(state: &mut Core)
    ensures { state.new ≡ state.old }
{
    let count = state.spaces.as_slice().len() as u64;
    'spaces: for space in 0..count {
        hear_in(state, space);
    }
    let rows = &mut state.rows;
    rows.apply_all();
}

fn hear_in(state: &mut Core, space: u64)
    ensures { state.new ≡ state.old }
{
    let registrations = &mut state.registrations;
    registrations.hear_in(space);
}
