//! What a request finds in a state. Nothing here takes memory.
ghost use Rattle.std.specs.Prelude.{◌≡◌, ◌==◌, ◌&&◌, not, length};
ghost use Rattle.jsp_model.specs.Sight.{available, is_if as waits_for_conflict, has_conflict as held_up};
ghost use Rattle.jsp_model.specs.Quiet.{must_wait as waits};

use jsp_core::Core;
use jsp_model::Blocked;
use jsp_sight::is_if;
use jsp_table::Test;

/// Whether the request has to wait: there is no row for it, and if it waits for a conflict alone
/// there is one (when it waits is this profile's own).
pub fn must_wait(state: &Core, blocked: &Blocked) -> bool
    ensures { result ≡ waits state.now blocked.now }
{
    has_none(state, blocked) && (!is_if(blocked.form) || has_conflict(state, blocked))
}

/// Whether there is no row that the request may be given.
pub fn has_none(state: &Core, blocked: &Blocked) -> bool
    ensures { result ≡ (length (available state.now blocked.now) == 0) }
{
    state.rows.has_none(&state.classes, blocked)
}

/// Whether a row that the request wants is in conflict: another transaction took it or, for a take,
/// read it.
pub fn has_conflict(state: &Core, blocked: &Blocked) -> bool
    ensures { result ≡ held_up state.now blocked.now }
{
    state.rows.has_conflict(&state.classes, blocked)
}

/// Whether a request has to wait no longer.
#[derive(Drop)]
pub(crate) struct Answerable<'a> {
    pub(crate) state: &'a Core,
}

impl<'a> Test<Blocked> for Answerable<'a> {
    ghost is_passed = { λ s b. not (waits s.state.now b) };

    fn passes(&self, blocked: &Blocked) -> bool {
        !must_wait(self.state, blocked)
    }
}

/// Whether a request waits for a conflict to end, and none holds it up.
#[derive(Drop)]
pub(crate) struct LetGo<'a> {
    pub(crate) state: &'a Core,
}

impl<'a> Test<Blocked> for LetGo<'a> {
    ghost is_passed = { λ s b. waits_for_conflict b.form && not (held_up s.state.now b) };

    fn passes(&self, blocked: &Blocked) -> bool {
        is_if(blocked.form) && !has_conflict(self.state, blocked)
    }
}

/// Whether there is a row that a request may be given.
#[derive(Drop)]
pub(crate) struct Grantable<'a> {
    pub(crate) state: &'a Core,
}

impl<'a> Test<Blocked> for Grantable<'a> {
    ghost is_passed = { λ s b. not (length (available s.state.now b) == 0) };

    fn passes(&self, blocked: &Blocked) -> bool {
        !has_none(self.state, blocked)
    }
}
