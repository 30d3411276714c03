//! The first row that who searches may have, also where it holds rows itself.
//!
//! Who holds nothing may have only rows that nobody holds, and those at the head of a list that
//! somebody holds aren't passed one by one. Who holds a few may have these too: they are looked at
//! first, and what nobody holds only up to the one that is found. Who holds many has both looked
//! for by stretches (`stretches.rt`).
ghost use Rattle.std.specs.Prelude.{◌≡◌, ◌==◌, ◌<◌, ◌≤◌, true, false, find, option_copied, option_map, Bool, Option, if◌then◌else◌, IfNone, IfSome};
ghost use Rattle.std.specs.Option.{option_map_or};
ghost use Rattle.std.specs.List.{AllByRecursion};
ghost use Rattle.jsp_model.specs.declared.state.Row.{Row as OfRow};
ghost use Rattle.jsp_table.specs.Numbers.{contains};
ghost use Rattle.jsp_index.specs.declared.starts.Unseen.TheVariants.{Held, Hidden};
ghost use Rattle.jsp_index.specs.Finding.{is_next, is_asked, IsLeast};
ghost use Rattle.jsp_index.specs.Numbered.{AreNumbered};
ghost use Rattle.jsp_index.specs.Own.{own_numbers, is_own, IsKept};
ghost use Rattle.jsp_index.specs.Passed.{may_have, is_had, AreOpen, AreOpenOr};

use crate::HintedRows;
use crate::by_number::{ByNumber, RowsByNumber};
use crate::holding::listed;
use crate::row_tests::{InSpace, Open};
use crate::searching::Behind;
use crate::starts::Unseen;
use crate::walking::Sought;
use jsp_keyed::lesser;
use jsp_model::Row;
use jsp_table::{Numbers, Test};

/// How many rows a transaction holds in a space at most that are looked at one by one.
const FEW: usize = 64;

/// What a transaction, or who is under none, may have of the rows of a space: those that aren't
/// unseen, and its own.
#[derive(Clone, Copy)]
pub(crate) struct Scope<'a> {
    /// The numbers of the rows that the transaction holds there, where they are few.
    pub(crate) own: Option<&'a Numbers>,
    /// The same, where they are many.
    pub(crate) many: Option<&'a Numbers>,
    pub(crate) unseen: Unseen,
}

impl HintedRows {
    /// The first row above a number that passes the test, which only rows pass that are sought.
    /// Takes no memory.
    pub(crate) fn first_sought<P: Test<Row>>(
        &self,
        sought: &Sought,
        after: u64,
        test: &P,
    ) -> Option<&Row>
        requires asked { (r : OfRow) → P.is_passed test.now r ≡ true → is_asked sought.now.classes.now sought.now.space sought.now.templates.now r ≡ true }
        requires had { (r : OfRow) → P.is_passed test.now r ≡ true → may_have sought.now.takes sought.now.transaction r ≡ true }
        ensures found { option_copied result ≡ find (is_next (P.is_passed test.now) after) self.now }
        ensures numbered { AreNumbered self.now }
    {
        let scope = self.scope(sought);
        let own = self.first_own(sought, &scope, after, test);
        self.first_beside(sought, &scope, own, after, test)
    }

    /// The first of the transaction's own rows above a number that passes the test, where they are
    /// few.
    pub(crate) fn first_own<P: Test<Row>>(
        &self,
        sought: &Sought,
        scope: &Scope,
        after: u64,
        test: &P,
    ) -> Option<&Row>
        requires { (r : OfRow) → P.is_passed test.now r ≡ true → is_asked sought.now.classes.now sought.now.space sought.now.templates.now r ≡ true }
        ensures { IsLeast (is_next (P.is_passed test.now) after) (is_own (option_copied scope.now.own)) self.now (option_copied result) }
    {
        match scope.own {
            None => None,
            Some(own) => first_of_own(self.rows.keyed(), sought.space, own, after, test),
        }
    }

    /// The same, where one is kept: it is looked for again only once the one kept isn't above the
    /// number.
    pub(crate) fn next_own<'a, P: Test<Row>>(
        &'a self,
        sought: &Sought,
        scope: &Scope,
        kept: Option<&'a Row>,
        after: u64,
        test: &P,
    ) -> Option<&'a Row>
        requires asked { (r : OfRow) → P.is_passed test.now r ≡ true → is_asked sought.now.classes.now sought.now.space sought.now.templates.now r ≡ true }
        requires kept { IsKept (P.is_passed test.now) (is_own (option_copied scope.now.own)) after self.now (option_copied kept) }
        ensures { IsLeast (is_next (P.is_passed test.now) after) (is_own (option_copied scope.now.own)) self.now (option_copied result) }
    {
        let Some(row) = kept else {
            return None;
        };
        if after < row.number {
            return kept;
        }
        self.first_own(sought, scope, after, test)
    }

    /// The first row above a number that passes the test, which only rows pass that are sought,
    /// beside the first of the transaction's own. No row above that one is tested.
    pub(crate) fn first_beside<'a, P: Test<Row>>(
        &'a self,
        sought: &Sought,
        scope: &Scope,
        own: Option<&'a Row>,
        after: u64,
        test: &P,
    ) -> Option<&'a Row>
        requires asked { (r : OfRow) → P.is_passed test.now r ≡ true → is_asked sought.now.classes.now sought.now.space sought.now.templates.now r ≡ true }
        requires had { (r : OfRow) → P.is_passed test.now r ≡ true → may_have sought.now.takes sought.now.transaction r ≡ true }
        requires opens { AreOpenOr scope.now.unseen (own_numbers (option_copied scope.now.own)) (is_had sought.now.space sought.now.takes sought.now.transaction) self.now }
        requires many { IfSome (option_copied scope.now.many) (λ own. AreOpenOr (if sought.now.takes then Held else Hidden) own (is_had sought.now.space sought.now.takes sought.now.transaction) self.now) }
        requires least { IsLeast (is_next (P.is_passed test.now) after) (is_own (option_copied scope.now.own)) self.now (option_copied own) }
        ensures found { option_copied result ≡ find (is_next (P.is_passed test.now) after) self.now }
        ensures numbered { AreNumbered self.now }
    {
        let (classes, space, templates) = (sought.classes, sought.space, sought.templates);
        let (number, unseen) = (after, scope.unseen);
        if let Some(own) = scope.many {
            return self.first_of_stretches(sought, own, after, test);
        }
        let Some(_) = scope.own else {
            let behind = Behind {
                number,
                unseen,
                last: None,
                among: None,
            };
            return self
                .rows
                .first_behind(classes, space, templates, &behind, test);
        };
        let last = number_of(own);
        let behind = Behind {
            number,
            unseen,
            last,
            among: None,
        };
        let test = &Open { unseen, last, test };
        let open = self
            .rows
            .first_behind(classes, space, templates, &behind, test);
        lesser::<Row, ByNumber>(open, own)
    }

    /// What who searches may have of the rows of a space.
    pub(crate) fn scope(&self, sought: &Sought) -> Scope<'_>
        ensures opens { AreOpenOr result.unseen (own_numbers (option_copied result.own)) (is_had sought.now.space sought.now.takes sought.now.transaction) self.now }
        ensures many { IfSome (option_copied result.many) (λ own. AreOpenOr (if sought.now.takes then Held else Hidden) own (is_had sought.now.space sought.now.takes sought.now.transaction) self.now) }
    {
        match self.held(sought.transaction, sought.space) {
            None => Scope {
                own: None,
                many: None,
                unseen: unseen_by_strangers(sought.takes),
            },
            Some(own) if own.len() <= FEW => Scope {
                own: Some(own),
                many: None,
                unseen: unseen_by_strangers(sought.takes),
            },
            Some(own) => Scope {
                own: None,
                many: Some(own),
                unseen: Unseen::Taken,
            },
        }
    }

    /// The numbers of the rows that a transaction holds in a space, if it holds some. What it may
    /// have there beside these nobody holds.
    fn held(&self, transaction: Option<u64>, space: u64) -> Option<&Numbers>
        ensures some { IfSome (option_copied result) (λ own. (takes : Bool) → AreOpenOr (if takes then Held else Hidden) own (is_had space takes transaction) self.now) }
        ensures none { IfNone result ((takes : Bool) → AreOpen (if takes then Held else Hidden) (is_had space takes transaction) self.now) }
    {
        match transaction {
            None => None,
            Some(x) => listed(&self.holders, x, space),
        }
    }
}

/// The rows that who holds none can't take or read.
pub(crate) fn unseen_by_strangers(takes: bool) -> Unseen
    ensures { result ≡ (if takes then Held else Hidden) }
{
    if takes { Unseen::Held } else { Unseen::Hidden }
}

/// The number of a row, if there is one.
pub(crate) fn number_of(row: Option<&Row>) -> Option<u64>
    ensures { result ≡ option_map (λ r. r.number) (option_copied row.entry) }
{
    match row {
        None => None,
        Some(row) => Some(row.number),
    }
}

/// The first row above a number that is one of these and passes the test, which only rows of the
/// space pass.
fn first_of_own<'a, P: Test<Row>>(
    rows: &'a RowsByNumber,
    space: u64,
    own: &Numbers,
    after: u64,
    test: &P,
) -> Option<&'a Row>
    requires { (r : OfRow) → P.is_passed test.now r ≡ true → (r.space == space) ≡ true }
    ensures { IsLeast (is_next (P.is_passed test.now) after) (λ r. contains own.now r.number) rows.now (option_copied result) }
{
    // Which says that the numbers rise.
    let _ = rows.places();
    let mut last = after;
    'numbers: while let Some(number) = own.next_above(last) {
        let found = rows.get(number);
        if passes(found, test) {
            return found;
        }
        last = passed_to(rows, space, number, found);
    }
    None
}

/// Whether there is a row, and it passes the test.
pub(crate) fn passes<P: Test<Row>>(row: Option<&Row>, test: &P) -> bool
    ensures { result ≡ option_map_or (P.is_passed test.now) (option_copied row.entry) false }
{
    match row {
        None => false,
        Some(row) => test.passes(row),
    }
}

/// Up to where no row of a space follows a number. Behind a row of another space, or none, the
/// numbers of that space are passed together.
pub(crate) fn passed_to(rows: &RowsByNumber, space: u64, number: u64, row: Option<&Row>) -> u64
    ensures up { number ≤ result }
    ensures none { AllByRecursion (λ r. (r.space == space) ≡ true → number < r.number → result < r.number) rows.now }
{
    if is_in(space, row) {
        return number;
    }
    match rows.numbers_under(&InSpace { space }).next_above(number) {
        None => u64::MAX,
        Some(next) => next - 1,
    }
}

/// Whether there is a row, in a space.
fn is_in(space: u64, row: Option<&Row>) -> bool {
    match row {
        None => false,
        Some(row) => row.space == space,
    }
}
