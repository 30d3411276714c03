//! The first row that passes a test, among the lists of hints. Nothing here takes memory.
ghost use Rattle.std.specs.Prelude.{◌≡◌, ◌&&◌, true, bytes_eq, find, option_copied, Bool, Some, IfSome};
ghost use Rattle.std.specs.List.{AllByRecursion};
ghost use Rattle.jsp_model.specs.declared.state.Row.{Row as OfRow};
ghost use Rattle.jsp_types.specs.declared.entry.Template.TheVariants.{Like};
ghost use Rattle.jsp_table.specs.Finding.{AreNamed};
ghost use Rattle.jsp_index.specs.Finding.{number as number_of, is_next, is_asked, is_like, is_like_of, IsLeast};
ghost use Rattle.jsp_index.specs.Numbered.{AreNumbered};
ghost use Rattle.jsp_index.specs.Passed.{AreOpen, AreListed};
ghost use Rattle.jsp_index.specs.Own.{AreAmong, AreWithin};

use crate::both::first_in_both;
use crate::by_number::{ByNumber, RowsByNumber};
use crate::choosing::rarest_field;
use crate::keyed::{KeyedRows, Listed};
use crate::learning::{FEW, MANY};
use crate::row_tests::{InSpace, OrAbove};
use crate::seeing::seen_in;
use crate::seeking::{OfClass, OfField};
use crate::starts::Unseen;
use jsp_keyed::lesser;
use jsp_model::Row;
use jsp_table::{Numbers, Test};
use jsp_types::{Classes, Entry, Template, Text};

/// Behind which rows a search begins: those up to a number, and those at the head of a list that it
/// can't have. And the last number that it looks at, if there is one, and the numbers among which
/// it looks, if not among all.
#[derive(Drop)]
pub(crate) struct Behind<'a> {
    pub(crate) number: u64,
    pub(crate) unseen: Unseen,
    pub(crate) last: Option<u64>,
    pub(crate) among: Option<&'a Numbers>,
}

/// The first row above a number that is named and passes the test, which none above the last number
/// passes. Of those only the first is looked up, and none is tested.
fn first_up_to<'a, P: Test<Row>>(
    rows: &'a RowsByNumber,
    numbers: &Numbers,
    after: u64,
    last: u64,
    test: &P,
) -> Option<&'a Row>
    requires { AreWithin (Some last) (P.is_passed test.now) rows.now }
    ensures { (kind : OfRow → Bool) → AreNamed number_of kind numbers.now rows.now → IsLeast (is_next (P.is_passed test.now) after) kind rows.now (option_copied result) }
{
    let Some(row) = rows.first_named(numbers, after, &OrAbove { last, test }) else {
        return None;
    };
    if last < row.number {
        return None;
    }
    Some(row)
}

impl KeyedRows {
    /// The first row of a list that passes the test, where only rows pass that the list's start
    /// leaves.
    fn first_listed<P: Test<Row>>(&self, listed: &Listed, behind: &Behind, test: &P) -> Option<&Row>
        requires within { AreWithin behind.now.last (P.is_passed test.now) self.now }
        requires among { IfSome (option_copied behind.now.among) (λ own. AreAmong own (P.is_passed test.now) self.now) }
        ensures { (kind had : OfRow → Bool) → AreListed kind had listed.now.numbers.now listed.now.start self.now → AllByRecursion (λ r. P.is_passed test.now r ≡ true → had r ≡ true) self.now → IsLeast (is_next (P.is_passed test.now) behind.now.number) kind self.now (option_copied result) }
    {
        let after = behind.number.max(listed.start);
        if let Some(own) = behind.among {
            return first_in_both(&self.rows, listed.numbers, own, after, behind.last, test);
        }
        match behind.last {
            None => self.rows.first_named(listed.numbers, after, test),
            Some(last) => first_up_to(&self.rows, listed.numbers, after, last, test),
        }
    }

    /// The first row of the space and of the class that passes the test and is like the template.
    /// The list is looked up first, since to compare the class with the template's takes longer,
    /// and most classes may have no rows in the space.
    fn first_of_class<P: Test<Row>>(
        &self,
        classes: &Classes,
        space: u64,
        class: &str,
        like: &Entry,
        behind: &Behind,
        test: &P,
    ) -> Option<&Row>
        requires had { AreOpen behind.now.unseen (P.is_passed test.now) self.now }
        requires within { AreWithin behind.now.last (P.is_passed test.now) self.now }
        requires among { IfSome (option_copied behind.now.among) (λ own. AreAmong own (P.is_passed test.now) self.now) }
        ensures { IsLeast (is_next (P.is_passed test.now) behind.now.number) (λ r. is_like classes.now space (Like like.now) r && bytes_eq class.now r.entry.class) self.now (option_copied result) }
    {
        let listed = self.listed(&OfClass { space, class }, behind.unseen);
        if listed.numbers.is_empty() {
            return None;
        }
        if classes.is_sub(class, like.class.as_str()) {
            self.first_listed(&listed, behind, test)
        } else {
            None
        }
    }

    /// The first row of the space and of one of these classes that passes the test and is like the
    /// template.
    fn first_of_each<P: Test<Row>>(
        &self,
        classes: &Classes,
        space: u64,
        names: &[Text],
        like: &Entry,
        behind: &Behind,
        test: &P,
    ) -> Option<&Row>
        requires had { AreOpen behind.now.unseen (P.is_passed test.now) self.now }
        requires within { AreWithin behind.now.last (P.is_passed test.now) self.now }
        requires among { IfSome (option_copied behind.now.among) (λ own. AreAmong own (P.is_passed test.now) self.now) }
        ensures { IsLeast (is_next (P.is_passed test.now) behind.now.number) (is_like_of classes.now space like.now names.now) self.now (option_copied result) }
    {
        let mut first = None;
        'classes: for class in names {
            first = lesser::<Row, ByNumber>(
                first,
                self.first_of_class(classes, space, class.as_str(), like, behind, test),
            );
        }
        first
    }

    /// The first row of the space that passes the test and is like the template: it is looked for
    /// in the lists of the template's class and of those below it, or of those that were seen in
    /// the space where that are fewer.
    fn first_of_classes<P: Test<Row>>(
        &self,
        classes: &Classes,
        space: u64,
        like: &Entry,
        behind: &Behind,
        test: &P,
    ) -> Option<&Row>
        requires had { AreOpen behind.now.unseen (P.is_passed test.now) self.now }
        requires within { AreWithin behind.now.last (P.is_passed test.now) self.now }
        requires among { IfSome (option_copied behind.now.among) (λ own. AreAmong own (P.is_passed test.now) self.now) }
        ensures { IsLeast (is_next (P.is_passed test.now) behind.now.number) (is_like classes.now space (Like like.now)) self.now (option_copied result) }
    {
        let seen = seen_in(&self.seen, space);
        let class = like.class.as_str();
        let below = classes.below(class);
        if seen.len() <= below.len() {
            return self.first_of_each(classes, space, seen, like, behind, test);
        }
        lesser::<Row, ByNumber>(
            self.first_of_class(classes, space, class, like, behind, test),
            self.first_of_each(classes, space, below, like, behind, test),
        )
    }

    /// The first row of the space that passes the test and is like the template: it is looked for
    /// among those that have its values together, where that is learned and they are few.
    fn first_like<P: Test<Row>>(
        &self,
        classes: &Classes,
        space: u64,
        template: &Template,
        behind: &Behind,
        test: &P,
    ) -> Option<&Row>
        requires had { AreOpen behind.now.unseen (P.is_passed test.now) self.now }
        requires within { AreWithin behind.now.last (P.is_passed test.now) self.now }
        requires among { IfSome (option_copied behind.now.among) (λ own. AreAmong own (P.is_passed test.now) self.now) }
        ensures { IsLeast (is_next (P.is_passed test.now) behind.now.number) (is_like classes.now space template.now) self.now (option_copied result) }
    {
        match template {
            Template::Any => {
                let listed = self.listed(&InSpace { space }, behind.unseen);
                self.first_listed(&listed, behind, test)
            }
            Template::Like(like) => {
                // Which says that no number is 0.
                let _ = self.rows.places();
                match self.shapes.listed(self.seed, space, like) {
                    Some(numbers) if numbers.len() < MANY => {
                        let listed = Listed { numbers, start: 0 };
                        self.first_listed(&listed, behind, test)
                    }
                    _ => self.first_by_field(classes, space, like, behind, test),
                }
            }
        }
    }

    /// The first row of the space that passes the test and is like the template: it is looked for
    /// in the shortest list of a field's value or, where no field has one or its class is rarer, in
    /// those of classes.
    fn first_by_field<P: Test<Row>>(
        &self,
        classes: &Classes,
        space: u64,
        like: &Entry,
        behind: &Behind,
        test: &P,
    ) -> Option<&Row>
        requires had { AreOpen behind.now.unseen (P.is_passed test.now) self.now }
        requires within { AreWithin behind.now.last (P.is_passed test.now) self.now }
        requires among { IfSome (option_copied behind.now.among) (λ own. AreAmong own (P.is_passed test.now) self.now) }
        ensures { IsLeast (is_next (P.is_passed test.now) behind.now.number) (is_like classes.now space (Like like.now)) self.now (option_copied result) }
    {
        match rarest_field(&self.rows, like, space) {
            None => self.first_of_classes(classes, space, like, behind, test),
            Some(field) => {
                let listed = self.listed(&OfField { space, field }, behind.unseen);
                if self.has_fewer(classes, space, like.class.as_str(), listed.numbers.len()) {
                    return self.first_of_classes(classes, space, like, behind, test);
                }
                self.first_listed(&listed, behind, test)
            }
        }
    }

    /// Whether the space has fewer rows of a class that none is below, where many stand against it.
    fn has_fewer(&self, classes: &Classes, space: u64, class: &str, many: usize) -> bool {
        many > FEW
            && classes.below(class).is_empty()
            && self.rows.numbers_under(&OfClass { space, class }).len() < many
    }

    /// The first row that passes the test, which only rows of the space pass that are like one of
    /// the templates.
    pub(crate) fn first_behind<P: Test<Row>>(
        &self,
        classes: &Classes,
        space: u64,
        templates: &[Template],
        behind: &Behind,
        test: &P,
    ) -> Option<&Row>
        requires asked { (r : OfRow) → P.is_passed test.now r ≡ true → is_asked classes.now space templates.now r ≡ true }
        requires had { AreOpen behind.now.unseen (P.is_passed test.now) self.now }
        requires within { AreWithin behind.now.last (P.is_passed test.now) self.now }
        requires among { IfSome (option_copied behind.now.among) (λ own. AreAmong own (P.is_passed test.now) self.now) }
        ensures found { option_copied result ≡ find (is_next (P.is_passed test.now) behind.now.number) self.now }
        ensures numbered { AreNumbered self.now }
    {
        // Which says that the numbers rise.
        let _ = self.places();
        let mut first = None;
        'templates: for template in templates {
            first = lesser::<Row, ByNumber>(
                first,
                self.first_like(classes, space, template, behind, test),
            );
        }
        first
    }
}
