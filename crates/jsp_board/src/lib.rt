//! What a server shows of itself, to whoever looks: its status over HTTP.
//!
//! A [`Board`] is where the thread that shows it, [`show_status`], asks for a status, and where the
//! thread that settles puts one and notes what was counted of the last five minutes. [`Traffic`]
//! knows the connections. No contract speaks of these; what is made of a status is proved in
//! jsp_status.
#![tactic(auto)]

mod activity;
mod board;
mod counted;
mod history;
mod memory;
mod refusals;
mod show;
mod traffic;
mod visit;

pub use activity::Activity;
pub use board::{Board, Origin};
pub use show::show_status;
pub use traffic::Traffic;
