//! What no contract of a house says: when a space applies what was decided, and that a history over
//! several eras is the one that was made.
//!
//! A crate that has tests is proved once more with them. So these stand above all that they call,
//! and call public items alone.
#![tactic(auto)]

#[cfg(test)]
mod decisions;
#[cfg(test)]
mod histories;
#[cfg(test)]
mod spaces;
