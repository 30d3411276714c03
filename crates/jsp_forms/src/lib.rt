//! Lines that people type, and the requests that they mean.
//!
//! A line is a request in the protocol's JSON without its id, or in a short form, as `take a Job
//! k=1 timeout=5000` (`form.rt` has the forms): [`read_line`] says what it asks, or why it isn't
//! understood. A [`Request`] becomes a payload under an id. [`Classes`] knows the classes that were
//! declared, and finds what of a request doesn't fit them: in a short form a field that its class
//! hasn't is mostly a slip of the pen.
//!
//! A payload keeps the limit of a frame: that is proved. What a line means, and what help says, is
//! tested.
#![tactic(auto)]

mod class;
mod fault;
mod form;
mod help;
mod input_line;
mod json;
mod meant;
mod misfit;
mod request;
mod short;
mod word;

pub use class::{Classes, Declaration};
pub use fault::LineFault;
pub use form::Purpose;
pub use input_line::{Line, read_line};
pub use misfit::Misfit;
pub use request::{MOST_BYTES, Request};
