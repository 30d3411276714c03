//! How a client is used.

/// How a client is used.
#[derive(Clone, Copy)]
pub struct Options {
    /// Whether a read or a take that finds no entry counts as refused.
    pub must_find: bool,
    /// Whether a person types the lines, who is told what is waited for at their end.
    pub is_typed: bool,
    /// Whether a prompt is shown.
    pub has_prompt: bool,
}
