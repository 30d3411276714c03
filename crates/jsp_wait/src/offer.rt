//! Rows on offer, and who may be given one.
ghost use Rattle.std.specs.Prelude.{◌≡◌, ℕ, Bool, List, Option, option_copied, option_map};
ghost use Rattle.jsp_types.specs.declared.class.Class.{Class as OfClass};
ghost use Rattle.jsp_model.specs.declared.state.Row.{Row as OfRow};
ghost use Rattle.jsp_model.specs.declared.state.Blocked.{Blocked as OfBlocked};
ghost use Rattle.jsp_sight.specs.Rows.{unmarked};

use jsp_model::{Blocked, Row};
use jsp_types::Classes;

/// Rows by number, and who may be given one.
pub trait Offer {
    ghost classes_of: { Self → List OfClass };

    ghost row_of: { Self → ℕ → Option OfRow };

    ghost is_taker: { Self → ℕ → OfBlocked → Bool };

    ghost is_freed: { Self → OfBlocked → Bool };

    /// The declared classes.
    fn classes(&self) -> &Classes
        ensures { result.now ≡ classes_of self.now };

    /// The row of a number, whose marks may be older.
    fn row(&self, number: u64) -> Option<&Row>
        ensures { option_map unmarked (option_copied result) ≡ row_of self.now number };

    /// Whether a request may be given the row of a number.
    fn takes(&self, number: u64, request: &Blocked) -> bool
        ensures { result ≡ is_taker self.now number request.now };

    /// Whether no conflict holds a request up.
    fn frees(&self, request: &Blocked) -> bool
        ensures { result ≡ is_freed self.now request.now };
}
