//! The first row that a transaction may have that holds many.
//!
//! Its own and what nobody holds may both stand anywhere, and each may be many that don't pass. So
//! both are looked for in one stretch of numbers after another, each longer than the one before: no
//! more is looked at than some times what stands before the row that is found.
ghost use Rattle.std.specs.Prelude.{◌≡◌, ◌&&◌, true, find, option_copied, Some, if◌then◌else◌};
ghost use Rattle.std.specs.Option.{option_map_or};
ghost use Rattle.jsp_model.specs.declared.state.Row.{Row as OfRow};
ghost use Rattle.jsp_table.specs.Numbers.{contains};
ghost use Rattle.jsp_index.specs.declared.starts.Unseen.TheVariants.{Held, Hidden};
ghost use Rattle.jsp_index.specs.Finding.{is_next, is_asked};
ghost use Rattle.jsp_index.specs.Numbered.{AreNumbered};
ghost use Rattle.jsp_index.specs.Own.{is_within, AreWithin};
ghost use Rattle.jsp_index.specs.Passed.{may_have, is_had, AreOpenOr};

use crate::HintedRows;
use crate::by_number::ByNumber;
use crate::own::{number_of, passed_to, unseen_by_strangers};
use crate::row_tests::{Among, Open, Within};
use crate::searching::Behind;
use crate::starts::Unseen;
use crate::walking::Sought;
use jsp_keyed::lesser;
use jsp_model::Row;
use jsp_table::{Numbers, Test};

/// How many numbers the first stretch has.
const SHORTEST: u64 = 1_024;

/// How many times longer each is than the one before.
const GROWTH: u64 = 8;

impl HintedRows {
    /// The first row above a number that passes the test, which only rows pass that are sought.
    /// These are the numbers of the rows that the transaction holds.
    pub(crate) fn first_of_stretches<P: Test<Row>>(
        &self,
        sought: &Sought,
        own: &Numbers,
        after: u64,
        test: &P,
    ) -> Option<&Row>
        requires asked { (r : OfRow) → P.is_passed test.now r ≡ true → is_asked sought.now.classes.now sought.now.space sought.now.templates.now r ≡ true }
        requires had { (r : OfRow) → P.is_passed test.now r ≡ true → may_have sought.now.takes sought.now.transaction r ≡ true }
        requires opens { AreOpenOr (if sought.now.takes then Held else Hidden) own.now (is_had sought.now.space sought.now.takes sought.now.transaction) self.now }
        ensures found { option_copied result ≡ find (is_next (P.is_passed test.now) after) self.now }
        ensures numbered { AreNumbered self.now }
    {
        let mut from = after;
        let mut length = SHORTEST;
        'stretches: while let Some(last) = from.checked_add(length) {
            let found = self.first_of_stretch(sought, own, from, Some(last), test);
            if found.is_some() {
                return found;
            }
            from = passed_to(self.rows.keyed(), sought.space, last, None);
            length = length.saturating_mul(GROWTH);
        }
        self.first_of_stretch(sought, own, from, None, test)
    }

    /// The same, up to a last number, if there is one. The transaction's own are looked for first,
    /// and what nobody holds only up to the one that is found.
    fn first_of_stretch<P: Test<Row>>(
        &self,
        sought: &Sought,
        own: &Numbers,
        from: u64,
        last: Option<u64>,
        test: &P,
    ) -> Option<&Row>
        requires asked { (r : OfRow) → P.is_passed test.now r ≡ true → is_asked sought.now.classes.now sought.now.space sought.now.templates.now r ≡ true }
        requires had { (r : OfRow) → P.is_passed test.now r ≡ true → may_have sought.now.takes sought.now.transaction r ≡ true }
        requires opens { AreOpenOr (if sought.now.takes then Held else Hidden) own.now (is_had sought.now.space sought.now.takes sought.now.transaction) self.now }
        ensures found { option_copied result ≡ find (is_next (λ r. is_within last r.number && P.is_passed test.now r) from) self.now }
        ensures numbered { AreNumbered self.now }
    {
        let (classes, space, templates) = (sought.classes, sought.space, sought.templates);
        let test = &Within { last, test };
        let mine = self.first_of_many(sought, own, from, last, test);
        let unseen = unseen_by_strangers(sought.takes);
        let behind = Behind {
            number: from,
            unseen,
            last: number_or(mine, last),
            among: None,
        };
        let last = number_of(mine);
        let open = &Open { unseen, last, test };
        let open = self
            .rows
            .first_behind(classes, space, templates, &behind, open);
        lesser::<Row, ByNumber>(open, mine)
    }

    /// The first of these numbers' rows above a number that passes the test, which none above the
    /// last number passes.
    fn first_of_many<P: Test<Row>>(
        &self,
        sought: &Sought,
        own: &Numbers,
        from: u64,
        last: Option<u64>,
        test: &P,
    ) -> Option<&Row>
        requires asked { (r : OfRow) → P.is_passed test.now r ≡ true → is_asked sought.now.classes.now sought.now.space sought.now.templates.now r ≡ true }
        requires had { (r : OfRow) → P.is_passed test.now r ≡ true → may_have sought.now.takes sought.now.transaction r ≡ true }
        requires within { AreWithin last (P.is_passed test.now) self.now }
        ensures { option_copied result ≡ find (is_next (λ r. contains own.now r.number && P.is_passed test.now r) from) self.now }
    {
        let behind = Behind {
            number: from,
            unseen: Unseen::Taken,
            last,
            among: Some(own),
        };
        let test = &Among { numbers: own, test };
        self.rows.first_behind(
            sought.classes,
            sought.space,
            sought.templates,
            &behind,
            test,
        )
    }
}

/// The number of a row, or another where there is none.
fn number_or(row: Option<&Row>, other: Option<u64>) -> Option<u64>
    ensures { result ≡ option_map_or (λ r. Some r.number) (option_copied row.entry) other }
{
    match row {
        None => other,
        Some(row) => Some(row.number),
    }
}
