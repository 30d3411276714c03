//! Declarations, and why one is refused.
ghost use Rattle.std.specs.Prelude.{◌≡◌, false};
ghost use Rattle.std.specs.List.{list_all, list_any};
ghost use Rattle.jsp_types.specs.Classes.{is_name, has_name, parent_eq, fields_eq, is_ill_formed, inherited, line_above, class_fault};
ghost use Rattle.jsp_types.specs.Declaring.{are_alike, has_unknown_parent, is_past_limits, new_fault};

use crate::names::{are_distinct, has_name, is_name};
use crate::{Class, ClassFault, Classes, Kind, Text};

/// How many fields a class may have with the inherited.
pub const MOST_FIELDS: usize = 32;
/// How many may stand above a class.
const MOST_ABOVE: usize = 15;
/// How many classes may be declared.
const MOST_CLASSES: usize = 1024;

/// Whether each is named by a name.
fn have_names(fields: &[(Text, Kind)]) -> bool
    ensures { result ≡ list_all (λ f. is_name f.0) fields.now }
{
    fields.iter().all(|field| is_name(field.0.as_str()))
}

/// Whether it has more fields than a class may have, a name isn't one, or a field's stands twice.
/// How many there are is looked at first, so that no more than that are compared with one another.
fn is_ill_formed(class: &Class) -> bool
    ensures { result ≡ is_ill_formed class.now }
{
    let fields = class.fields.as_slice();
    !(fields.len() <= MOST_FIELDS
        && is_name(class.name.as_str())
        && have_names(fields)
        && are_distinct(fields))
}

/// Whether both are none, or both the same name.
fn is_same_parent(one: &Option<Text>, other: &Option<Text>) -> bool
    ensures { result ≡ parent_eq one.now other.now }
{
    match (one, other) {
        (None, None) => true,
        (Some(one), Some(other)) => one.is(other.as_str()),
        _ => false,
    }
}

/// Whether they are the same fields in the same order.
fn are_same_fields(one: &[(Text, Kind)], other: &[(Text, Kind)]) -> bool
    ensures { result ≡ fields_eq one.now other.now }
{
    let [first, rest @ ..] = one else {
        return other.is_empty();
    };
    let [other_first, other_rest @ ..] = other else {
        return false;
    };
    first.0.is(other_first.0.as_str())
        && first.1.is(other_first.1)
        && are_same_fields(rest, other_rest)
}

/// Whether they have one parent and the same fields.
fn are_alike(one: &Class, other: &Class) -> bool
    ensures { result ≡ are_alike one.now other.now }
{
    is_same_parent(&one.parent, &other.parent)
        && are_same_fields(one.fields.as_slice(), other.fields.as_slice())
}

/// Whether one of the names stands among the fields.
fn has_any_name(fields: &[(Text, Kind)], names: &[(Text, Kind)]) -> bool
    ensures { result ≡ list_any (λ f. has_name fields.now f.0) names.now }
{
    names.iter().any(|field| has_name(fields, field.0.as_str()))
}

impl Classes {
    /// The fields that the class inherits.
    pub(crate) fn inherited(&self, class: &Class) -> &[(Text, Kind)]
        ensures { result.now ≡ inherited self.now class.now }
    {
        match &class.parent {
            None => &[],
            Some(parent) => self.fields_of(parent.as_str()).unwrap_or(&[]),
        }
    }

    /// Whether the class has a parent that isn't declared.
    fn has_unknown_parent(&self, class: &Class) -> bool
        ensures { result ≡ has_unknown_parent self.now class.now }
    {
        match &class.parent {
            None => false,
            Some(parent) => self.known(parent.as_str()).is_none(),
        }
    }

    /// The names in the line above the class.
    pub(crate) fn line_above(&self, class: &Class) -> &[Text]
        requires { has_unknown_parent self.now class.now ≡ false }
        ensures { result.now ≡ line_above self.now class.now }
    {
        match &class.parent {
            None => &[],
            Some(parent) => match self.known(parent.as_str()) {
                None => &[],
                Some(known) => known.line.as_slice(),
            },
        }
    }

    /// Whether an inherited field stands again, or the depth or the fields are past the limit.
    fn is_past_limits(&self, class: &Class) -> bool
        requires { has_unknown_parent self.now class.now ≡ false }
        ensures { result ≡ is_past_limits self.now class.now }
    {
        let inherited = self.inherited(class);
        let own = class.fields.as_slice();
        has_any_name(own, inherited)
            || self.line_above(class).len() > MOST_ABOVE
            || inherited.len() + own.len() > MOST_FIELDS
    }

    /// Why a class of a new name is refused, its form apart.
    fn fault_of_new(&self, class: &Class) -> Option<ClassFault>
        ensures { result ≡ new_fault self.now class.now }
    {
        if self.has_unknown_parent(class) {
            return Some(ClassFault::UnknownParent);
        }
        if self.is_past_limits(class) {
            return Some(ClassFault::BadClass);
        }
        if self.len() >= MOST_CLASSES {
            return Some(ClassFault::TooMany);
        }
        None
    }

    /// Why the class is refused, the first fault that applies: a name of the class or of a field
    /// isn't one or stands twice (`BadClass`), the class is declared with another parent or other
    /// fields (`Differs`), its parent isn't declared (`UnknownParent`), it has an inherited field
    /// again, is more than 16 deep or has more than 32 fields with the inherited (`BadClass`), or
    /// 1,024 classes are declared (`TooMany`). A class that is declared alike isn't refused. Takes
    /// no memory.
    pub fn fault(&self, class: &Class) -> Option<ClassFault>
        ensures { result ≡ class_fault self.now class.now }
    {
        if is_ill_formed(class) {
            return Some(ClassFault::BadClass);
        }
        match self.known(class.name.as_str()) {
            None => self.fault_of_new(class),
            Some(known) if are_alike(&known.class, class) => None,
            Some(_) => Some(ClassFault::Differs),
        }
    }
}
