//! The empty state of a config.
ghost use Rattle.std.specs.Prelude.{◌≡◌, ◌++◌, ◌∷◌, [], IfOk, map};
ghost use Rattle.jsp_model.specs.Lookup.{empty};
ghost use Rattle.jsp_model.specs.declared.state.Space.{Space as PlainSpace};
ghost use Rattle.jsp_machine.specs.Spaces.{new_spaces};

use jsp_model::{Config, Image, Space, State};
use jsp_types::{Classes, Items, NoMemory, Text};
use std::alloc::Global;

/// The empty state of a config: nothing was done yet.
pub fn empty_image(alloc: Global, config: &Config) -> Result<Image, NoMemory>
    ensures { IfOk result (λ i. i ≡ empty config.now) }
{
    let spaces = spaces_of(alloc, config.spaces())?;
    let state = State {
        classes: Classes::new(alloc),
        spaces,
        sessions: Items::new(alloc),
        last_session: 0,
        time: 0,
        next_number: 1,
        rows: Items::new(alloc),
        registrations: Items::new(alloc),
        blocked: Items::new(alloc),
        transactions: Items::new(alloc),
        commits: Items::new(alloc),
        sets: Items::new(alloc),
        outboxes: Items::new(alloc),
    };
    Ok(Image { state })
}

fn spaces_of(alloc: Global, names: &[Text]) -> Result<Items<Space>, NoMemory>
    ensures { IfOk result (λ s. s ≡ new_spaces names.now) }
{
    let mut spaces = Items::new(alloc);
    for name in names {
        spaces.push(Space {
            name: name.clone()?,
            crash_count: 1,
        })?;
    }
    Ok(spaces)
}
