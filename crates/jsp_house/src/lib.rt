//! A house, however its rows are found.
//!
//! A house keeps the state of the abstract spaces as a `LiveImage`, whose rows are looked at one by
//! one (`RowsHouse`) or found by what requests ask for (`Hall`). The two make the same choices by
//! the same code, so they answer alike, byte for byte; what stands in the space of a `Hall` mostly
//! costs a request nothing that doesn't ask for it (docs/PERF.md says where it still does). It
//! chooses steps and makes them through jsp_machine, so each of its calls is a legal run: that is
//! the contract `House` of jsp_model, which it meets. A call first finishes what an earlier one
//! left and quiets the spaces that its own step touches, then makes that step, and then all that
//! follows from it by itself (`finishing.rt`). A call beside what is owed (`InParts`) leaves that
//! aside, and does so with what is due and touched alone. Of several rows that a request may be
//! given it gives those with the least numbers. A space is made quiet by grants in arrival order,
//! then by answers that there is nothing, then by events.
#![tactic(auto)]

mod acting;
mod ahead;
mod answering;
mod applying;
mod choosing;
mod clock;
mod finishing;
mod making;
mod owing;
mod performing;
mod quieting;
mod seeds;
mod settling;
mod state_house;
mod to_come;
mod unquiet;

pub use seeds::Seeds;
pub use state_house::{Hall, RowsHouse, StateHouse};

// What is asked of a history beside a house, so that its callers name one crate.
pub use jsp_machine::{ReplayFault, replay};
