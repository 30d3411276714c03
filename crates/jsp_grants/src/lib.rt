//! What is granted a lease for a template: registrations for events, and match sets.
//!
//! Both are asked for at a space, with a template and a lease, and both have a limit of how many
//! there may be (`granting`). Each function's contract is its definition in jsp_model: why a
//! request is refused is the first test that applies, what it changes is made whole or not at all,
//! and a page of a match set has the rows and the end that `page_of` and `is_last_page` say. `tell`
//! tells a registration's next event. That the request wasn't refused is the condition of all that
//! accepts it.
#![tactic(auto)]

mod granting;
mod match_set;
mod registration;

pub use match_set::{
    accept_contents, answer_next, close_set, refuse_contents, refuse_set, turn_page,
};
pub use registration::{accept_notify, refuse_notify, tell};
