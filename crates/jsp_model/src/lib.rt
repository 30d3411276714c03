//! The abstract spaces: their state, their steps, and what a house that keeps them promises.
//!
//! A house is a state machine. `State` is plain lists; `Step` has every free choice in it; the
//! definitions in `specs/` say which steps are legal in a state (`Steps`), why a request is refused
//! (`Refusals`), what a step changes (`Changes`) and says (`Answers`), what is due (`Due`), what a
//! step touches and when a space is quiet (`Touches`, `Quiet`). A run is a list of steps, each
//! legal where it stands (`Runs`). `House` is the contract of whatever keeps such a state
//! (`specs/House`), and `Backlog` of one that counts what stands in it. `Image` is a state with the
//! limits of the profile in its type, `Config` the names of the spaces. docs/SPECIFICATION.md tells
//! the machine in plain words.
#![tactic(auto)]

mod backlog;
mod config;
mod house;
mod image;
mod limits;
mod state;
mod step;

pub use backlog::{Backlog, SpaceCounts, TransactionCounts};
pub use config::Config;
pub use house::{House, Input, Settled, Stopped, Why};
pub use image::Image;
pub use jsp_lease::{Item, Rank};
pub use limits::{
    LAST_CRASH_COUNT, LAST_NUMBER, LAST_SESSION, LAST_TIME, MOST_REGISTRATIONS, MOST_ROWS,
    MOST_SETS, MOST_SPACES, MOST_TRANSACTIONS, MOST_WAITING, NEVER,
};
pub use state::{
    Blocked, Commit, Form, Joined, MatchSet, Outbox, Registration, Row, Session, Space, State,
    Transaction, Vote,
};
pub use step::Step;
