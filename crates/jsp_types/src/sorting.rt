//! Fields in byte order of their names.
ghost use Rattle.std.specs.Prelude.{◌≡◌, length, take_while, OnOk, IfOk};
ghost use Rattle.std.specs.Cmp.Lexicographic.{slice_cmp};
ghost use Rattle.std.specs.Ordering.{nat_cmp, is_lt};
ghost use Rattle.jsp_types.specs.Classes.{in_order, sorted};

use crate::{Items, Kind, NoMemory, Text};
use std::alloc::Global;

/// How many fields come before the name.
fn count_before(fields: &[(Text, Kind)], name: &str) -> usize
    ensures { result
        ≡ length (take_while (λ f. is_lt (slice_cmp nat_cmp f.0 name.now)) fields.now) }
{
    fields
        .iter()
        .take_while(|field| field.0.as_str().cmp(name).is_lt())
        .count()
}

/// Puts a field before the first that isn't before it.
fn put_in_order(fields: &mut Vec<(Text, Kind)>, field: (Text, Kind)) -> Result<(), NoMemory>
    ensures { OnOk result (fields.new.items ≡ in_order field fields.old.items) }
{
    let place = count_before(fields.as_slice(), field.0.as_str());
    fields.insert(place, field)?;
    Ok(())
}

/// The fields in byte order of their names.
pub(crate) fn sorted(
    alloc: Global,
    fields: &[(Text, Kind)],
) -> Result<Items<(Text, Kind)>, NoMemory>
    ensures { IfOk result (λ ordered. ordered ≡ sorted fields.now) }
{
    let mut ordered = Vec::new(alloc);
    for field in fields.iter().rev() {
        put_in_order(&mut ordered, field.clone()?)?;
    }
    Ok(Items::from_vec(ordered))
}
