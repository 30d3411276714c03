//! A class added to the declared ones.
ghost use Rattle.std.specs.Prelude.{◌≡◌, ◌++◌, ◌∷◌, ◌⊎◌, None, Some, IfOk, IfErr, OnOk, OnErr, option_copied, option_map, find, bytes_eq, []};
ghost use Rattle.jsp_types.specs.Classes.{class_fault, class_of, declared};
ghost use Rattle.jsp_types.specs.Descendants.{IsNoted, Keeps};
ghost use Rattle.jsp_types.specs.NameMaps.{looked_up};
ghost use Rattle.jsp_types.specs.Places.{FindsAll};

use crate::descendants::Descendants;
use crate::known::Known;
use crate::places::Places;
use crate::shared::Shared;
use crate::{Class, Classes, DeclareError, Items, Kind, NoMemory, Text};
use std::alloc::Global;

/// The name and the names above it.
fn line_from(alloc: Global, name: &Text, above: &[Text]) -> Result<Items<Text>, NoMemory>
    ensures { IfOk result (λ line. line ≡ name.now ∷ above.now) }
{
    let mut line = Items::new(alloc);
    line.push(name.clone()?)?;
    for name in above {
        line.push(name.clone()?)?;
    }
    Ok(line)
}

/// Adds copies of the fields at the end.
fn append(fields: &mut Items<(Text, Kind)>, more: &[(Text, Kind)]) -> Result<(), NoMemory>
    ensures { OnOk result (fields.new ≡ fields.old ++ more.now) }
{
    for field in more {
        fields.push(field.clone()?)?;
    }
    Ok(())
}

/// The inherited fields and then a class's own.
fn joined(
    alloc: Global,
    inherited: &[(Text, Kind)],
    own: &[(Text, Kind)],
) -> Result<Items<(Text, Kind)>, NoMemory>
    ensures { IfOk result (λ fields. fields ≡ inherited.now ++ own.now) }
{
    let mut fields = Items::new(alloc);
    append(&mut fields, inherited)?;
    append(&mut fields, own)?;
    Ok(fields)
}

/// What is kept of the class.
fn known_of(
    alloc: Global,
    class: Class,
    line: Items<Text>,
    fields: Items<(Text, Kind)>,
) -> Result<Shared, NoMemory>
    ensures { IfOk result (λ k. k ≡ (record { class = class; line = line; fields = fields })) }
{
    Shared::new(
        alloc,
        Known {
            class,
            line,
            fields,
        },
    )
}

/// Keeps a class of a new name as the last, notes its place, and notes its name below each above
/// it. On `Err` no class more is kept.
fn keep(
    alloc: Global,
    known: &mut Items<Shared>,
    places: &mut Places,
    descendants: &mut Descendants,
    shared: Shared,
) -> Result<(), NoMemory>
    requires new { find (λ k. bytes_eq k.class.name shared.class.name) known.old ≡ None }
    requires found { FindsAll (looked_up places.old.shared) known.old }
    ensures ok { OnOk result (known.new ≡ known.old ++ shared ∷ []) }
    ensures err { OnErr result (known.new ≡ known.old) }
    ensures found { FindsAll (looked_up places.new.shared) known.new }
    ensures below { OnOk result (IsNoted (looked_up descendants.new.shared) shared.line) }
    ensures keeps { Keeps (looked_up descendants.old.shared) (looked_up descendants.new.shared) }
{
    // What is noted of a class does no harm where the class isn't kept then.
    let place = known.as_slice().len();
    places.note(alloc, shared.get().class.name.as_str(), place)?;
    descendants.note_line(alloc, shared.get().line.as_slice())?;
    known.push(shared)?;
    Ok(())
}

impl Classes {
    /// Adds a class that isn't refused, or none where it is declared alike already. On `Err`
    /// nothing is changed.
    pub fn add(&mut self, class: Class) -> Result<(), NoMemory>
        requires { class_fault self.old class ≡ None }
        ensures ok { OnOk result (self.new ≡ declared self.old class) }
        ensures err { OnErr result (self.new ≡ self.old) }
    {
        if self.known(class.name.as_str()).is_some() {
            return Ok(());
        }
        let line = line_from(self.alloc, &class.name, self.line_above(&class))?;
        let fields = joined(self.alloc, self.inherited(&class), class.fields.as_slice())?;
        let known = known_of(self.alloc, class, line, fields)?;
        keep(
            self.alloc,
            &mut self.known,
            &mut self.places,
            &mut self.descendants,
            known,
        )?;
        Ok(())
    }

    /// Declares the class of these fields, in whatever order they are given, or says why it is
    /// refused, as `fault` does (`DeclareError::Fault`). The same declaration again is `Ok`.
    /// `NoMemory` may come in place of any other answer. On `Err` nothing is changed.
    pub fn declare(
        &mut self,
        name: &str,
        parent: Option<&str>,
        fields: &[(Text, Kind)],
    ) -> Result<(), DeclareError>
        ensures accepted { let class = class_of name.now (option_copied parent.entry) fields.now in
            OnOk result (class_fault self.old class ≡ None) }
        ensures ok { let class = class_of name.now (option_copied parent.entry) fields.now in
            OnOk result (self.new ≡ declared self.old class) }
        ensures fault { let class = class_of name.now (option_copied parent.entry) fields.now in
            IfErr result
            (λ error. (error ≡ DeclareError.NoMemory)
            ⊎ (option_map DeclareError.Fault (class_fault self.old class) ≡ Some error)) }
        ensures err { OnErr result (self.new ≡ self.old) }
    {
        let class = Class::new(self.alloc, name, parent, fields)?;
        if let Some(fault) = self.fault(&class) {
            return Err(DeclareError::Fault(fault));
        }
        self.add(class)?;
        Ok(())
    }
}
