//! What those who serve a floor share.
use crate::floor::Floor;
use jsp_kept::InParts;
use std::alloc::Global;
use std::sync::ledger::Ledger;

/// What all threads of a run are given: the floor, what tells the time, and what is called at each
/// frame and answer.
#[derive(Drop)]
pub struct Shared<'a, H: InParts, A: Ledger, O: Ledger, G, C, T> {
    pub rt: &'a T,
    pub alloc: Global,
    pub floor: &'a Floor<H, A, O>,
    pub gate: &'a G,
    pub clock: &'a C,
}
