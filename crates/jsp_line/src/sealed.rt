//! What shows that an era was sealed.
ghost use Rattle.std.specs.Prelude.{◌≡◌, true, false, IfSome, IfNone};

use jsp_kept::{InParts, Kept};
use std::sync::ledger::Ledger;

/// Shows that an era of a history was sealed, so that nobody asks for what its lines read and
/// wrote. Only such a history gives one; who was shown it hands it on.
#[derive(Clone, Copy, Debug, PartialEq, Eq)]
pub struct Sealed {
    by_history: (),
}

impl Sealed {
    /// What the history shows.
    pub(crate) fn of<H: InParts, A: Ledger, O: Ledger>(kept: &Kept<H, A, O>) -> Option<Sealed>
        ensures some { IfSome result (λ sealed. kept.now.is_sealed ≡ true) }
        ensures none { IfNone result (kept.now.is_sealed ≡ false) }
    {
        if kept.is_sealed() {
            Some(Sealed { by_history: () })
        } else {
            None
        }
    }
}
