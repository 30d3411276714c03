//! What is learned of rows where searches look through many of them.
ghost use Rattle.std.specs.Prelude.{◌≡◌};

use crate::HintedRows;
use crate::keyed::KeyedRows;
use crate::seeking::OfField;
use crate::starts::Unseen;
use jsp_table::Numbers;
use jsp_types::{Text, Value};

/// How many numbers a list has at least that a search had better not look through.
pub(crate) const MANY: usize = 256;

/// How many rows a search may well look at.
pub(crate) const FEW: usize = 32;

/// Of so many rows that a search looks at, one is learned: that takes longer than to look at one.
const PER_LEARNED: usize = 4;

impl HintedRows {
    /// Rows of the space were searched for by a template of these fields, and the last that was
    /// found has this number. Where many had to be looked at, some of all are learned, the more the
    /// more these were, so that such ones are found sooner. Where memory is refused they aren't.
    pub fn learn(&mut self, space: u64, fields: &[(Text, Value)], last: Option<u64>)
        ensures { self.new ≡ self.old }
    {
        if has_several_values(fields) {
            self.rows.learn(space, fields, last);
        }
    }
}

impl KeyedRows {
    fn learn(&mut self, space: u64, fields: &[(Text, Value)], last: Option<u64>)
        ensures { self.new ≡ self.old }
    {
        if self.count_in(space) >= MANY && self.is_to_learn(space, fields, last) {
            let count = self.count_to_learn(space, fields, last);
            self.shapes
                .learn(self.alloc, self.seed, &self.rows, space, fields, count);
        }
    }

    /// How many rows are to be learned: none where all are.
    fn count_to_learn(&self, space: u64, fields: &[(Text, Value)], last: Option<u64>) -> usize {
        if self.shapes.has_learned(space, fields) {
            0
        } else {
            self.count_looked_at(space, fields, last) / PER_LEARNED
        }
    }

    /// How many rows a search for that number looks at at least, since it takes the list of one
    /// value.
    fn count_looked_at(&self, space: u64, fields: &[(Text, Value)], number: Option<u64>) -> usize {
        fields
            .iter()
            .filter(|field| !field.1.is_null())
            .map(|field| self.count_listed(space, field, number))
            .min()
            .unwrap_or(0)
    }

    /// How many rows of a value a search for that number looks at.
    fn count_listed(&self, space: u64, field: &(Text, Value), number: Option<u64>) -> usize {
        let listed = self.listed(&OfField { space, field }, Unseen::Held);
        count_before(listed.numbers, listed.start, number)
    }

    /// Whether the list of each value is long, and what was found isn't near where a search through
    /// one begins. How long they are is looked at first, since most templates have a value that is
    /// rare.
    fn is_to_learn(&self, space: u64, fields: &[(Text, Value)], last: Option<u64>) -> bool {
        fields
            .iter()
            .all(|field| field.1.is_null() || self.is_common(space, field))
            && fields.iter().all(|field| field.1.is_null() || self.is_far(space, field, last))
    }

    /// Whether the list of a value is long.
    fn is_common(&self, space: u64, field: &(Text, Value)) -> bool {
        let listed = self.listed(&OfField { space, field }, Unseen::Held);
        listed.numbers.len() >= MANY
    }

    /// Whether a number isn't near where a search through the list of a value begins.
    fn is_far(&self, space: u64, field: &(Text, Value), number: Option<u64>) -> bool {
        let listed = self.listed(&OfField { space, field }, Unseen::Held);
        !is_near(listed.numbers, listed.start, number)
    }
}

/// How many numbers of a list stand behind a start and before this one, or in the list where there
/// is none.
fn count_before(numbers: &Numbers, start: u64, number: Option<u64>) -> usize {
    let Some(number) = number else {
        return numbers.len();
    };
    let mut before = start;
    for count in 0..numbers.len() {
        match numbers.next_above(before) {
            Some(next) if next < number => before = next,
            _ => return count,
        }
    }
    numbers.len()
}

/// Whether a number is one of the first few of a list behind a start, or stands before them.
fn is_near(numbers: &Numbers, start: u64, number: Option<u64>) -> bool {
    let Some(number) = number else {
        return false;
    };
    let mut before = start;
    for _count in 0..FEW {
        match numbers.next_above(before) {
            Some(next) if next < number => before = next,
            _ => return true,
        }
    }
    false
}

fn has_several_values(fields: &[(Text, Value)]) -> bool {
    fields.iter().filter(|field| !field.1.is_null()).count() > 1
}
