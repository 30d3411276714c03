//! Calls of a house beside what earlier calls left to be made.
//!
//! A call of `House` that its log's bound stops leaves spaces that aren't quiet, and the next call
//! begins with them. Where many wait, none of them should wait for all that one act causes. So a
//! house whose acts are made in parts acts beside what is left: an input is acted where nothing is
//! due and the spaces that its own step touches are quiet, whatever else is owed. What such a call
//! promises is what `House` promises of a house that owes nothing (`specs/Beside.antt`); what was
//! owed is owed still.
#![tactic(auto)]

mod in_parts;

pub use in_parts::InParts;
