//! The first row that two lists name.
ghost use Rattle.std.specs.Prelude.{◌≡◌, option_copied, Bool};
ghost use Rattle.jsp_model.specs.declared.state.Row.{Row as OfRow};
ghost use Rattle.jsp_table.specs.Finding.{AreNamed};
ghost use Rattle.jsp_index.specs.Finding.{number as number_of, is_next, IsLeast};
ghost use Rattle.jsp_index.specs.Own.{AreAmong, AreWithin};

use crate::by_number::RowsByNumber;
use crate::own::passes;
use crate::row_tests::is_within;
use jsp_model::Row;
use jsp_table::{Numbers, Test};

/// The first row above a number that both lists name and that passes the test, which only rows pass
/// that the second names, and none above the last number. Each list is gone through from where the
/// other goes on.
pub(crate) fn first_in_both<'a, P: Test<Row>>(
    rows: &'a RowsByNumber,
    numbers: &Numbers,
    own: &Numbers,
    after: u64,
    last: Option<u64>,
    test: &P,
) -> Option<&'a Row>
    requires within { AreWithin last (P.is_passed test.now) rows.now }
    requires among { AreAmong own.now (P.is_passed test.now) rows.now }
    ensures { (kind : OfRow → Bool) → AreNamed number_of kind numbers.now rows.now → IsLeast (is_next (P.is_passed test.now) after) kind rows.now (option_copied result) }
{
    // Which says that the numbers rise.
    let _ = rows.places();
    let mut before = after;
    'numbers: while let Some(number) = own.next_above(before) {
        if !is_within(last, number) {
            return None;
        }
        let Some(next) = numbers.next_above(number - 1) else {
            return None;
        };
        if next == number {
            let found = rows.get(number);
            if passes(found, test) {
                return found;
            }
            before = number;
        } else {
            before = next - 1;
        }
    }
    None
}
