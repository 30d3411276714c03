//! What was said to the sessions and isn't handed out yet, as a program keeps it.
//!
//! Contracts see an `Outboxes` as the list of the definitions: one outbox for each session that has
//! answers waiting, by rising session number, none of them empty. That it is one (`are_outboxes` of
//! jsp_model) is in the type, so no caller shows it. Each outbox is a queue, and a session's is
//! found by binary search. So to hand out answers costs what is handed out, however many wait.
//!
//! `next_told` names the sessions that were told something lately, so that who is to be woken is
//! found without a look at all who have answers waiting. That it leaves none out is tested, not
//! proved, and so is `weight`, about how much memory takes what waits for a session.
//!
//! Posting is whole or not at all and answers where it was, by which it is taken back. Only
//! posting, handing out a part of an outbox, and copies take memory.
#![tactic(auto)]

mod copy;
mod find;
mod hand_out;
mod outboxes;
mod post;
mod queue;
mod told;
mod weight;

pub use outboxes::Outboxes;
pub use post::Posted;
