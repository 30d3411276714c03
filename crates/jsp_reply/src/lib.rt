//! What is said to a session, and its exact text.
//!
//! A reply is an answer or an event, and a `Said` is a reply within its limits. `text` writes the
//! one text of a `Said`: compact JSON with its keys in byte order, as `specs/Text.antt` has it form
//! by form. By the limits of a `Said` (`specs/Limits.antt`) that text is shorter than the limit of
//! a frame, so no test of its length is needed. The forms, the refusals and their numbers are this
//! profile's own.
#![tactic(auto)]

mod leases;
mod members;
mod pairs;
mod refusal;
mod reply;
mod reply_text;
mod said;
mod shown;

pub use refusal::Refusal;
pub use reply::{LeaseAnswer, LeaseOutcome, Reply, TxnState};
pub use reply_text::text;
pub use said::Said;
