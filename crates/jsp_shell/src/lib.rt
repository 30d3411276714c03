//! A shell for people and scripts: lines of text become requests, and what the server says becomes
//! lines.
//!
//! Each line of the input is a request in the protocol's JSON without its id, or in a short form
//! that can be typed, as `take a Job k=1 timeout=5000` (`form.rt` has the forms). What is said by
//! the server is printed as it comes, a line each. [`Client`] reads the connection, and [`Typing`]
//! reads the input in another thread, so that an event is printed while nobody types.
//!
//! A session ends well only where nothing was refused (`specs/Refused.antt`), and a line that is
//! printed or told is what was said with control characters escaped, and a line's end
//! (`specs/Printed.antt`): that is proved. All else about what is sent and printed is tested.
#![tactic(auto)]

mod advice;
mod behind;
mod client;
mod fault;
mod input;
mod listing;
mod offline;
mod open;
mod options;
mod print;
mod refused;
mod screen;
mod session;
mod session_state;
mod typing;

pub use client::Client;
pub use fault::ShellFault;
pub use offline::show_help;
pub use options::Options;
pub use refused::Refused;
pub use typing::Typing;
