//! Copies can be made where there is memory. That a copy is the same is proved at the two functions
//! here.
ghost use Rattle.std.specs.Prelude.{◌≡◌, IfOk};

use jsp_types::{Classes, Items, Kind, NoMemory, Raw, Template, Text, Value, check_template};
use std::alloc::Global;
use std::test::Fail;

fn copy_of_classes(classes: &Classes) -> Result<Classes, NoMemory>
    ensures { IfOk result (λ copy. copy ≡ classes.now) }
{
    classes.clone()
}

fn copy_of_templates(templates: &Items<Template>) -> Result<Items<Template>, NoMemory>
    ensures { IfOk result (λ copy. copy ≡ templates.now) }
{
    templates.clone()
}

// Job with k.
fn jobs(alloc: Global) -> Result<Classes, Fail> {
    let mut fields = Items::new(alloc);
    fields.push((Text::from_str(alloc, "k")?, Kind::Int))?;
    let mut classes = Classes::new(alloc);
    classes.declare("Job", None, fields.as_slice())?;
    Ok(classes)
}

// The template of a Job whose k is 1.
fn first_job(alloc: Global, classes: &Classes) -> Result<Template, Fail> {
    let mut fields = Items::new(alloc);
    fields.push((Text::from_str(alloc, "k")?, Value::Int(1)))?;
    let class = Text::from_str(alloc, "Job")?;
    let raw = Raw { class, fields };
    Ok(check_template(alloc, classes, Some(&raw))?)
}

#[test]
fn classes_and_templates_are_copied(rt: HostRuntime) -> Result<(), Fail> {
    let alloc = rt.alloc();
    let classes = jobs(alloc)?;
    let mut templates = Items::new(alloc);
    templates.push(first_job(alloc, &classes)?)?;
    assert_eq!(rt; copy_of_classes(&classes)?.len(), 1);
    assert_eq!(rt; copy_of_templates(&templates)?.as_slice().len(), 1);
    Ok(())
}
