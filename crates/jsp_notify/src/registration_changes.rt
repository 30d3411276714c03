//! What becomes of a registration.
ghost use Rattle.std.specs.Prelude.{◌≡◌, ◌++◌, ◌∷◌, [], ◌+◌, ◌-◌, ◌^◌, min, drop, take, length};
ghost use Rattle.jsp_notify.specs.Owing.{owed_one, owed_less};
ghost use Rattle.jsp_notify.specs.Registered.{told_at_most};

use jsp_model::Registration;
use jsp_table::{Change, TryChange};
use jsp_types::NoMemory;

/// It is owed one row more.
#[derive(Drop)]
pub(crate) struct Owing {
    pub(crate) number: u64,
}

impl TryChange<Registration> for Owing {
    ghost changed = { λ o r. owed_one o.number r };

    fn try_change(&self, registration: &mut Registration) -> Result<(), NoMemory> {
        registration.owed.push(self.number)?;
        Ok(())
    }
}

/// It is owed what it was owed last no more.
#[derive(Drop)]
pub(crate) struct Forgiving {}

impl Change<Registration> for Forgiving {
    ghost changed = { λ _ r. owed_less r };

    fn change(&self, registration: &mut Registration) {
        let owed = &mut registration.owed;
        let _last = owed.items.pop();
    }
}

/// Its next event is told.
#[derive(Drop)]
pub(crate) struct Telling {}

impl Change<Registration> for Telling {
    ghost changed = { λ _ r. told_at_most r };

    fn change(&self, registration: &mut Registration) {
        let owed = &mut registration.owed;
        drop_first(&mut owed.items);
        registration.sequence = registration.sequence.saturating_add(1);
    }
}

fn drop_first(numbers: &mut Vec<u64>)
    ensures { numbers.new.items ≡ drop 1 numbers.old.items }
{
    if !numbers.is_empty() {
        let _first = numbers.remove(0);
    }
}

/// It ends then.
#[derive(Drop)]
pub(crate) struct Extension {
    pub(crate) end: u64,
}

impl Change<Registration> for Extension {
    ghost changed = { λ e r. record r { end = e.end } };

    fn change(&self, registration: &mut Registration) {
        registration.end = self.end;
    }
}
