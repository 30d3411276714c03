//! The spaces that are still to be made quiet.
ghost use Rattle.std.specs.Prelude.{◌≡◌, ◌++◌, [], not, false, filter, OnOk, IfErr, IsTrue};
ghost use Rattle.jsp_model.specs.declared.house.Why.TheVariants as why;
ghost use Rattle.jsp_model.specs.Lookup.{contains as has};
ghost use Rattle.jsp_model.specs.House.{Covers, OwesOnce};

use jsp_model::{Stopped, Why};
use jsp_state::contains;
use jsp_types::NoMemory;

/// Notes spaces as owed, each once.
pub(crate) fn owe(debt: &mut Vec<u64>, spaces: &[u64]) -> Result<(), NoMemory>
    ensures stay { Covers debt.new.items debt.old.items }
    ensures once { OwesOnce debt.old.items debt.new.items }
    ensures ok { OnOk result (Covers debt.new.items spaces.now) }
{
    for space in spaces {
        owe_one(debt, *space)?;
    }
    Ok(())
}

fn owe_one(debt: &mut Vec<u64>, space: u64) -> Result<(), NoMemory>
    ensures stay { Covers debt.new.items debt.old.items }
    ensures once { OwesOnce debt.old.items debt.new.items }
    ensures ok { OnOk result (IsTrue (has debt.new.items space)) }
{
    if !contains(debt.as_slice(), space) {
        debt.push(space)?;
    }
    Ok(())
}

/// Puts all that is owed in one list: what a call left that was made beside the rest comes behind
/// it.
pub(crate) fn join(debt: &mut Vec<u64>, latest: &mut Vec<u64>) -> Result<(), Stopped>
    ensures same { debt.new.items ++ latest.new.items ≡ debt.old.items ++ latest.old.items }
    ensures joined { OnOk result (latest.new.items ≡ []) }
    ensures err { IfErr result (λ e. e ≡ record { why = why.NoMemory; done = false }) }
{
    if latest.is_empty() {
        return Ok(());
    }
    if debt.extend_from_slice(latest.as_slice()).is_err() {
        return Err(Stopped {
            why: Why::NoMemory,
            done: false,
        });
    }
    latest.clear();
    Ok(())
}

/// Forgets of what was left what is owed already.
pub(crate) fn forget_owed(latest: &mut Vec<u64>, owed: &[u64])
    ensures { latest.new.items ≡ filter (λ p. not (has owed.now p)) latest.old.items }
{
    latest.retain(|space| !contains(owed, *space));
}
