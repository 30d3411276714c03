//! The field of a template whose list of hints is looked through.
ghost use Rattle.std.specs.Prelude.{◌≡◌, ◌⊎◌, List, Some, option_copied, IfSome};
ghost use Rattle.jsp_types.specs.declared.class.Class.{Class as OfClass};
ghost use Rattle.jsp_types.specs.declared.entry.Template.TheVariants.{Like};
ghost use Rattle.jsp_keys.specs.Keys.{field_key};
ghost use Rattle.jsp_keyed.specs.Finding.{HaveKey};
ghost use Rattle.jsp_index.specs.Keys.{row_keys};
ghost use Rattle.jsp_index.specs.Finding.{is_like};

use crate::by_number::RowsByNumber;
use crate::seeking::OfField;
use jsp_types::{Entry, Text, Value};

/// The field of a template that the fewest rows have the value of, as the lists say, if a field
/// isn't null. All rows that the template matches have its key.
pub(crate) fn rarest_field<'a>(
    rows: &RowsByNumber,
    like: &'a Entry,
    space: u64,
) -> Option<&'a (Text, Value)>
    ensures { IfSome (option_copied result) (λ field. (classes : List OfClass) → HaveKey row_keys (λ seed. field_key seed space field.0 field.1) (is_like classes space (Like like.now))) }
{
    let mut rarest = None;
    'fields: for field in like.fields.as_slice() {
        if !field.1.is_null() {
            rarest = Some(rarer(rows, space, rarest, field));
        }
    }
    rarest
}

/// The field of two that has the shorter list.
fn rarer<'a>(
    rows: &RowsByNumber,
    space: u64,
    other: Option<&'a (Text, Value)>,
    field: &'a (Text, Value),
) -> &'a (Text, Value)
    ensures { (option_copied other.entry ≡ Some result.now) ⊎ (result.now ≡ field.now) }
{
    match other {
        Some(other) if count_with(rows, space, other) <= count_with(rows, space, field) => other,
        _ => field,
    }
}

/// How many numbers the list of a field's value has.
fn count_with(rows: &RowsByNumber, space: u64, field: &(Text, Value)) -> usize {
    rows.numbers_under(&OfField { space, field }).len()
}
