//! What becomes of a match set: its page is turned, or its lease renewed.
ghost use Rattle.std.specs.Prelude.{◌≡◌};
ghost use Rattle.jsp_wait.specs.Sets.{to_cursor};

use jsp_model::MatchSet;
use jsp_table::Change;

/// Its cursor goes to the row that was shown last, if one was.
#[derive(Drop)]
pub(crate) struct Turn {
    pub(crate) last: Option<u64>,
}

impl Change<MatchSet> for Turn {
    ghost changed = { λ t m. to_cursor t.last m };

    fn change(&self, set: &mut MatchSet) {
        set_cursor(set, self.last);
    }
}

fn set_cursor(set: &mut MatchSet, last: Option<u64>)
    ensures { set.new ≡ to_cursor last set.old }
{
    if let Some(number) = last {
        set.cursor = number;
    }
}

/// Its lease ends then.
#[derive(Drop)]
pub(crate) struct SetEndAt {
    pub(crate) end: u64,
}

impl Change<MatchSet> for SetEndAt {
    ghost changed = { λ e m. record m { end = e.end } };

    fn change(&self, set: &mut MatchSet) {
        set.end = self.end;
    }
}
