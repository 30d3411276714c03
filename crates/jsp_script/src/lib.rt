//! Scripts of requests.
//!
//! `script` runs a script: lines that open a session, send it a payload or bytes, shut it, read the
//! clock, or give the house a turn. It reads them all, drives an empty house by them (jsp_drive),
//! and prints each frame that is sent as a line of its own. Its contract reaches from the script's
//! bytes to the printed ones, over any house, and any reader and writer that say which bytes they
//! hold: the acts are those that the lines ask for (`specs/Script.antt`), and what is written are
//! the lines of one legal run that belongs to these acts (`specs/Print.antt`). A script that is too
//! long or has a line that isn't understood is refused whole, and nothing is written. One line
//! tells why a script failed, and none is written where it didn't (`specs/Faults.antt`). Where it
//! is asked to, it replays the run before it prints, and compares what that says with what was
//! sent; that they never differ is proved.
#![tactic(auto)]

mod audit;
mod fault;
mod lines;
mod output;
mod print;
mod runner;
mod script_line;
mod streams;

pub use runner::{Ending, Status, script};
