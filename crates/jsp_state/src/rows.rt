//! Rows of a space, and the entries of rows.
ghost use Rattle.std.specs.Prelude.{◌≡◌, IfOk};
ghost use Rattle.jsp_model.specs.Refusals.{rows_in as count_in};
ghost use Rattle.jsp_model.specs.Answers.{entries_of as entries_at};

use jsp_core::Core;
use jsp_types::{Entry, Items, NoMemory};
use std::alloc::Global;

/// How many rows a space has, hidden and taken ones too.
pub fn rows_in(state: &Core, space: u64) -> usize
    ensures { result ≡ count_in state.now space }
{
    state.rows.count_in(space)
}

/// The entries of the rows of these numbers, by rising number.
pub fn entries_of(alloc: Global, state: &Core, numbers: &[u64]) -> Result<Items<Entry>, NoMemory>
    ensures { IfOk result (λ es. es ≡ entries_at state.now numbers.now) }
{
    state.rows.entries_of(alloc, numbers)
}
