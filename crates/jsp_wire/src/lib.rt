//! Requests, as payloads write them.
//!
//! A payload is read as JSON, and the JSON as a request: an id, an operation and the operation's
//! own keys. `read_ask_in` gives the request, or the one fault that the payload is, with its id
//! where it has one, on a line of either version of the protocol; `read_ask` does on one of version
//! 1, as each line is at first. Their contract is exact both ways, memory apart:
//! `specs/Reading.antt` says what a payload is, `specs/Operations.antt` which operations a version
//! has and which keys each has, and `specs/Limits.antt` which limits a request keeps. An `Asked`
//! holds these in its type.
#![tactic(auto)]

mod added;
mod adding;
mod ask;
mod asked;
mod fault;
mod field;
mod limits;
mod list;
mod members;
mod number;
mod parse;
mod read;
mod tree;

pub use ask::{
    Ask, Contents, Declare, Notify, Request, Search, TakeMany, Version, Write, WriteAll,
};
pub use asked::Asked;
pub use fault::WireFault;
pub use json::Scratch;
pub use read::{read_ask, read_ask_in, read_ask_with};
