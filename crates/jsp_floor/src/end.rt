//! The end of a history, once its lines have ended.
ghost use Rattle.std.specs.Prelude.{◌≡◌, Err, IfOk, IfSome, OnOk};
ghost use Rattle.jsp_closing.specs.Closing.{Closes, IsAtRest, RestsAfter};
ghost use Rattle.jsp_floor.specs.Doors.{ComeThrough};
ghost use Rattle.jsp_floor.specs.Ending.{EndsAs, Finishes, Settles};

use crate::door::Door;
use crate::served::{Served, fault_of};
use jsp_closing::{Closed, RunFault, close};
use jsp_drive::Era;
use jsp_kept::Kept;
use jsp_model::{Config, House, Settled, Why};
use std::alloc::Global;
use std::io::{Read, Write};
use std::sync::Wait;
use std::sync::ledger::Ledger;

/// What a run answers: a fault that was met, or else what its history is, compared with what its
/// lines read and wrote where no era was sealed. The seed is for that.
pub(crate) fn finish<
    H: House,
    A: Ledger,
    O: Ledger,
    R: Read + Drop,
    W: Write + Drop,
    X,
    D: Door<R, W, X>,
    T: Wait,
>(
    rt: &T,
    alloc: Global,
    config: &Config,
    kept: Kept<H, A, O>,
    served: Served<R, W, X, D>,
    seed: u64,
) -> Result<Closed, RunFault>
    ensures fault { IfSome served.fault (λ fault. result ≡ Err fault) }
    ensures closes { IfOk result (Closes config.now) }
    ensures finishes { IfOk result (Finishes kept served.reports) }
    ensures comes { IfOk result (ComeThrough D.gives R.remaining W.contents) }
{
    let Served {
        reports,
        fault,
        alloc: _,
        of: _,
    } = served;
    if let Some(fault) = fault {
        return Err(fault);
    }
    match end(rt, config, kept) {
        Ok(era) => close(alloc, config, era, reports, seed),
        Err(why) => Err(fault_of(why)),
    }
}

/// Settles what is left, and ends the history, which is that of a house of the config.
///
/// Of what a lock gives back only that is known that its type says. So that it is of this config is
/// looked at.
fn end<H: House, A: Ledger, O: Ledger, T: Wait>(
    rt: &T,
    config: &Config,
    kept: Kept<H, A, O>,
) -> Result<Era, Why>
    ensures rests { IfOk result (RestsAfter config.now) }
    ensures ends { IfOk result (EndsAs kept) }
{
    let mut kept = kept;
    settle_all(rt, &mut kept)?;
    if !kept.is_of(config) {
        return Err(Why::Audit);
    }
    kept.holds();
    Ok(kept.into_era())
}

// Settles until no transaction votes and every space is quiet.
fn settle_all<H: House, A: Ledger, O: Ledger, T: Wait>(
    rt: &T,
    kept: &mut Kept<H, A, O>,
) -> Result<(), Why>
    ensures settles { Settles kept.old kept.new }
    ensures rest { OnOk result (IsAtRest kept.new.state) }
{
    for _ in rt.forever() {
        match kept.settle() {
            Ok(Settled::Idle) if !kept.is_voting() => break,
            Ok(_) => {}
            Err(stopped) => return Err(stopped.why),
        }
    }
    Ok(())
}
