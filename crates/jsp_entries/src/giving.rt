//! Giving rows to a request: a read marks them under its transaction, a take removes or marks them.
ghost use Rattle.std.specs.Prelude.{◌≡◌, ◌≤◌, ◌==◌, filter, map, not, length, position, false, IsTrue, OnOk, OnErr};
ghost use Rattle.jsp_model.specs.Lookup.{contains as has, update};
ghost use Rattle.jsp_model.specs.Sight.{is_take as takes};
ghost use Rattle.jsp_model.specs.Limits.{are_rising};
ghost use Rattle.jsp_entries.specs.Giving.{given_to, taken, removed, read, read_row};

use jsp_core::Core;
use jsp_model::Form;
use jsp_state::is_take;
use jsp_store::Rows;
use jsp_types::NoMemory;

/// Gives the rows to a request of this form and caller, whole or not at all. A take without a
/// transaction removes them, and one under a transaction marks them. A read is given one row at
/// most, which it marks under a transaction (JavaSpaces).
pub fn give(state: &mut Core, form: Form, caller: Option<u64>, rows: &[u64]) -> Result<(), NoMemory>
    requires rising { IsTrue (are_rising 0 state.old.next_number (map (λ r. r.number) state.old.rows)) }
    requires one { takes form ≡ false → length rows.now ≤ 1 }
    ensures ok { OnOk result (state.new ≡ given_to form caller rows.now state.old) }
    ensures err { OnErr result (state.new ≡ state.old) }
{
    match caller {
        None => {
            if is_take(form) {
                remove_all(state, rows);
            }
            Ok(())
        }
        Some(x) => {
            if is_take(form) {
                take_all(state, rows, x)
            } else {
                read_all(state, rows, x)
            }
        }
    }
}

fn remove_all(state: &mut Core, numbers: &[u64])
    ensures { state.new ≡ removed numbers.now state.old }
{
    let rows = &mut state.rows;
    rows.remove_all(numbers);
}

fn take_all(state: &mut Core, numbers: &[u64], x: u64) -> Result<(), NoMemory>
    ensures ok { OnOk result (state.new ≡ taken x numbers.now state.old) }
    ensures err { OnErr result (state.new ≡ state.old) }
{
    let rows = &mut state.rows;
    rows.take(numbers, x)
}

fn read_all(state: &mut Core, numbers: &[u64], x: u64) -> Result<(), NoMemory>
    requires rising { IsTrue (are_rising 0 state.old.next_number (map (λ r. r.number) state.old.rows)) }
    requires one { length numbers.now ≤ 1 }
    ensures ok { OnOk result (state.new ≡ read x numbers.now state.old) }
    ensures err { OnErr result (state.new ≡ state.old) }
{
    let below = state.next_number;
    let rows = &mut state.rows;
    read_rows(rows, below, numbers, x)
}

fn read_rows(rows: &mut Rows, below: u64, numbers: &[u64], x: u64) -> Result<(), NoMemory>
    requires rising { IsTrue (are_rising 0 below (map (λ r. r.number) rows.old)) }
    requires one { length numbers.now ≤ 1 }
    ensures ok { OnOk result (rows.new ≡ map (read_row x numbers.now) rows.old) }
    ensures err { OnErr result (rows.new ≡ rows.old) }
{
    match numbers {
        [] => Ok(()),
        [number, ..] => rows.read(below, *number, x),
    }
}
