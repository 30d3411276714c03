//! A server: each connection of a listener is a line of one house (jsp_floor).
//!
//! `serve` accepts connections until it is stopped, gives each a line on a thread of its own, and
//! the house its turns. What is answered is what `run_house` of jsp_floor says; here are the
//! sockets, and how long a connection may be idle (`idle.rt`). What the server says of its
//! connections is in jsp_log, and what it shows of itself in jsp_board.
#![tactic(auto)]

mod connections;
mod frames;
mod idle;
mod link;
mod server;
mod stop;

pub use jsp_board::{Board, show_status};
pub use jsp_floor::{Bounds, Closed, LineReport, RunFault};
pub use jsp_log::{LogFormat, ServerLog};
pub use server::{Service, serve};
pub use stop::Stop;
