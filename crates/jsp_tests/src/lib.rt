//! What no contract of the crates below the house says: that calls which take memory succeed where
//! there is memory, what JSON and HTTP are by texts from elsewhere, how readers and writers fail,
//! when news is told, and who is woken.
//!
//! A crate that has tests is proved once more with them. So these stand above all that they call,
//! and call public items alone.
#![tactic(auto)]

#[cfg(test)]
mod copies;
#[cfg(test)]
mod frames;
#[cfg(test)]
mod leases;
#[cfg(test)]
mod news;
#[cfg(test)]
mod outboxes;
#[cfg(test)]
mod pages;
#[cfg(test)]
mod requests;
