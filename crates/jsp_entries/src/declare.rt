//! Declaring a class.
ghost use Rattle.std.specs.Prelude.{◌≡◌, ◌∷◌, ◌++◌, [], IfOk, OnOk, OnErr, None, is_none};
ghost use Rattle.std.specs.List.{list_any};
ghost use Rattle.jsp_types.specs.Tests.{first_that};
ghost use Rattle.jsp_types.specs.Classes.{declared};
ghost use Rattle.jsp_model.specs.Requests.{class_asked as class_of, kinded as fields_with_kind};
ghost use Rattle.jsp_model.specs.Refusals.{declare_tests};
ghost use Rattle.jsp_entries.specs.Declaring.{refusal_of, after_declare};

use jsp_core::Core;
use jsp_reply::Refusal;
use jsp_types::{Class, ClassFault, Items, Kind, MOST_FIELDS, NoMemory, Text};
use jsp_wire::Declare;
use std::alloc::Global;

/// Why the declaration is refused, or nothing where it isn't (this profile's own).
pub fn refuse_declare(
    alloc: Global,
    state: &Core,
    declare: &Declare,
) -> Result<Option<Refusal>, NoMemory>
    ensures { IfOk result (λ r. r ≡ first_that (declare_tests state.now declare.now)) }
{
    let fields = declare.fields.as_slice();
    if lacks_kind(fields) {
        return Ok(Some(Refusal::BadClass));
    }
    // They aren't even copied where there are more than a class may have.
    if fields.len() > MOST_FIELDS {
        return Ok(Some(Refusal::BadClass));
    }
    let class = class_asked(alloc, declare)?;
    match state.classes.fault(&class) {
        None => Ok(None),
        Some(fault) => Ok(Some(class_refusal(fault))),
    }
}

/// Adds the class, unless it is declared alike already; whole or not at all.
pub fn accept_declare(alloc: Global, state: &mut Core, declare: &Declare) -> Result<(), NoMemory>
    requires { first_that (declare_tests state.old declare.now) ≡ None }
    ensures ok { OnOk result (state.new ≡ after_declare state.old declare.now) }
    ensures err { OnErr result (state.new ≡ state.old) }
{
    let class = class_asked(alloc, declare)?;
    state.classes.add(class)
}

/// The class that a request declares, without the fields whose kind is none.
fn class_asked(alloc: Global, declare: &Declare) -> Result<Class, NoMemory>
    ensures { IfOk result (λ c. c ≡ class_of declare.now) }
{
    let fields = kinded(alloc, declare.fields.as_slice())?;
    let parent = match &declare.parent {
        None => None,
        Some(parent) => Some(parent.as_str()),
    };
    Class::new(alloc, declare.class.as_str(), parent, fields.as_slice())
}

fn kinded(alloc: Global, fields: &[(Text, Option<Kind>)]) -> Result<Items<(Text, Kind)>, NoMemory>
    ensures { IfOk result (λ v. v ≡ fields_with_kind fields.now) }
{
    let mut found = Items::new(alloc);
    'fields: for field in fields {
        add_kinded(&mut found, field)?;
    }
    Ok(found)
}

fn add_kinded(found: &mut Items<(Text, Kind)>, field: &(Text, Option<Kind>)) -> Result<(), NoMemory>
    ensures { OnOk result (found.new ≡ found.old ++ fields_with_kind (field.now ∷ [])) }
{
    match field.1 {
        None => Ok(()),
        Some(kind) => {
            let name = field.0.clone()?;
            found.push((name, kind))?;
            Ok(())
        }
    }
}

fn lacks_kind(fields: &[(Text, Option<Kind>)]) -> bool
    ensures { result ≡ list_any (λ f. is_none f.1) fields.now }
{
    fields.iter().any(|field| field.1.is_none())
}

fn class_refusal(fault: ClassFault) -> Refusal
    ensures { result ≡ refusal_of fault }
{
    match fault {
        ClassFault::BadClass => Refusal::BadClass,
        ClassFault::Differs => Refusal::Differs,
        ClassFault::UnknownParent => Refusal::UnknownClass,
        ClassFault::TooMany => Refusal::TooMany,
    }
}
