//! A part of a history. Whoever keeps a long one seals it now and then: what was done goes, and a
//! new era begins.
use jsp_model::Step;

/// An era that is over.
#[derive(Drop)]
pub struct Era {
    pub steps: Vec<Step>,
    /// Whether an era was sealed before it. Where none was, its steps are the whole history.
    pub is_sealed: bool,
}
