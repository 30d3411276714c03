//! Entries and templates as requests write them, and as they are stored.
ghost use Rattle.std.specs.Prelude.{◌≡◌, ◌||◌, ◌++◌, ◌∷◌, [], map, None, IfOk, OnOk, option_copied, false};
ghost use Rattle.std.specs.List.{list_any};
ghost use Rattle.std.specs.Option.{option_map_or};
ghost use Rattle.jsp_types.specs.Tests.{first_that};
ghost use Rattle.jsp_types.specs.Matching.{is_unknown as lacks, is_bad as breaks, entry_fault as fault_of, template_of as template_asked, entry_of as entry_asked, template_fault};
ghost use Rattle.jsp_model.specs.Refusals.{entry_tests, template_tests};
ghost use Rattle.jsp_state.specs.Fitting.{AllFit};

use jsp_core::Core;
use jsp_reply::Refusal;
use jsp_types::{
    Classes, Entry, Items, NoMemory, Raw, Template, entry_fault, fill_entry, fill_template,
};
use std::alloc::Global;

/// Why these entries can't be written, if they can't: the class of one isn't declared, or else one
/// breaks a rule of its class.
pub fn entries_refusal(state: &Core, raws: &[Raw]) -> Option<Refusal>
    ensures { result ≡ first_that (entry_tests state.now raws.now) }
{
    // Most have no fault, so their classes are looked up once.
    if any_has_fault(&state.classes, raws) {
        if any_lacks_class(&state.classes, raws) {
            return Some(Refusal::UnknownClass);
        }
        return Some(Refusal::BadEntry);
    }
    None
}

fn any_lacks_class(classes: &Classes, raws: &[Raw]) -> bool
    ensures { result ≡ list_any (lacks classes.now) raws.now }
{
    raws.iter().any(|raw| lacks_class(classes, raw))
}

fn any_has_fault(classes: &Classes, raws: &[Raw]) -> bool
    ensures { result ≡ list_any (λ raw. lacks classes.now raw || breaks classes.now raw) raws.now }
{
    raws.iter().any(|raw| has_fault(classes, raw))
}

fn lacks_class(classes: &Classes, raw: &Raw) -> bool
    ensures { result ≡ lacks classes.now raw.now }
{
    classes.fields_of(raw.class.as_str()).is_none()
}

fn has_fault(classes: &Classes, raw: &Raw) -> bool
    ensures { result ≡ (lacks classes.now raw.now || breaks classes.now raw.now) }
{
    entry_fault(classes, raw).is_some()
}

/// Why these templates aren't any, if so, as for entries. The null template is one.
pub fn templates_refusal(state: &Core, templates: &[Option<Raw>]) -> Option<Refusal>
    ensures { result ≡ first_that (template_tests state.now templates.now) }
{
    if any_template_has_fault(&state.classes, templates) {
        if any_template_lacks_class(&state.classes, templates) {
            return Some(Refusal::UnknownClass);
        }
        return Some(Refusal::BadEntry);
    }
    None
}

fn any_template_lacks_class(classes: &Classes, templates: &[Option<Raw>]) -> bool
    ensures { result ≡ list_any (λ t. option_map_or (lacks classes.now) t false) templates.now }
{
    templates
        .iter()
        .any(|template| template_lacks_class(classes, template))
}

fn any_template_has_fault(classes: &Classes, templates: &[Option<Raw>]) -> bool
    ensures { result ≡ list_any (λ t. option_map_or (λ raw. lacks classes.now raw || breaks classes.now raw) t false) templates.now }
{
    templates
        .iter()
        .any(|template| template_has_fault(classes, template))
}

fn template_lacks_class(classes: &Classes, template: &Option<Raw>) -> bool
    ensures { result ≡ option_map_or (lacks classes.now) template.now false }
{
    match template {
        None => false,
        Some(raw) => lacks_class(classes, raw),
    }
}

fn template_has_fault(classes: &Classes, template: &Option<Raw>) -> bool
    ensures { result ≡ option_map_or (λ raw. lacks classes.now raw || breaks classes.now raw) template.now false }
{
    match template {
        None => false,
        Some(raw) => has_fault(classes, raw),
    }
}

/// The entry that a request writes which isn't refused.
pub fn entry_of(alloc: Global, classes: &Classes, raw: &Raw) -> Result<Entry, NoMemory>
    requires { fault_of classes.now raw.now ≡ None }
    ensures { IfOk result (λ e. e ≡ entry_asked classes.now raw.now) }
{
    fill_entry(alloc, classes, raw)
}

/// The templates of a request that isn't refused, in their order.
pub fn templates_of(
    alloc: Global,
    classes: &Classes,
    templates: &[Option<Raw>],
) -> Result<Items<Template>, NoMemory>
    requires { AllFit classes.now templates.now }
    ensures { IfOk result (λ ts. ts ≡ map (template_asked classes.now) templates.now) }
{
    let mut made = Items::new(alloc);
    'templates: for template in templates {
        made.push(template_of(alloc, classes, template)?)?;
    }
    Ok(made)
}

/// The template of a request that isn't refused.
pub fn template_of(
    alloc: Global,
    classes: &Classes,
    template: &Option<Raw>,
) -> Result<Template, NoMemory>
    requires { template_fault classes.now template.now ≡ None }
    ensures { IfOk result (λ t. t ≡ template_asked classes.now template.now) }
{
    fill_template(alloc, classes, template.as_ref())
}
