//! Calls of the house that make so many steps at most: its bound is set closer for the call.
ghost use Rattle.std.specs.Prelude.{◌≡◌, ◌≤◌, ◌+◌, ◌-◌, ◌⊎◌, [], Some, IfErr, IsTrue, OnOk, vec_len, vec_capacity};
ghost use Rattle.jsp_model.specs.declared.house.Why.TheVariants as why;
ghost use Rattle.jsp_model.specs.House.{Finishes, IsReady, KeepsBound, KeepsRoom, Settles, is_input};
ghost use Rattle.jsp_beside.specs.Beside.{ActsBeside, GoesBeside};
ghost use Rattle.jsp_kept.specs.Parts.{EndsPart, IsLong};

use jsp_beside::InParts;
use jsp_model::{House, Input, Settled, Step, Stopped, Why};

/// How long the log may get.
fn end_of_part(len: u64, most: u64, limit: u64) -> u64
    ensures within { result ≤ limit }
    ensures kept { len ≤ limit → len ≤ result }
    ensures few { result ≤ len + most }
    ensures long { (result ≡ len + most) ⊎ (result ≡ limit) }
{
    let end = len.saturating_add(most);
    end.min(limit)
}

/// Makes the house ready for the input, beside what it owes.
pub(crate) fn ready_within<H: InParts>(
    house: &mut H,
    input: &Input,
    most: u64,
    limit: u64,
    log: &mut Vec<Step>,
) -> Result<(), Why>
    requires bound { H.bound_of house.old ≡ Some limit }
    requires within { vec_len log.old ≤ limit }
    ensures goes { GoesBeside (H.view house.old) (H.view house.new) (H.debt house.old) (H.debt house.new) log.old.items log.new.items result }
    ensures ready { OnOk result (IsReady (H.view house.new) [] input.now) }
    ensures why { IfErr result EndsPart }
    ensures room { KeepsRoom (H.view house.old) (H.view house.new) (vec_capacity log.old - vec_len log.old) (vec_capacity log.new - vec_len log.new) }
    ensures keeps { KeepsBound (H.bound_of house.old) (H.bound_of house.new) (vec_len log.old) (vec_len log.new) }
    ensures few { vec_len log.new ≤ vec_len log.old + most }
    ensures long { IfErr result (λ w. w ≡ why.EraFull → IsLong (vec_len log.old) limit most (vec_len log.new)) }
{
    house.bound(end_of_part(log.len() as u64, most, limit));
    let result = house.make_ready_beside(input, log);
    house.bound(limit);
    result
}

/// Acts an input that the house was made ready for, beside what it owes.
pub(crate) fn act_within<H: InParts>(
    house: &mut H,
    input: Input,
    most: u64,
    limit: u64,
    log: &mut Vec<Step>,
) -> Result<(), Stopped>
    requires bound { H.bound_of house.old ≡ Some limit }
    requires within { vec_len log.old ≤ limit }
    requires input { IsTrue (is_input input) }
    requires ready { IsReady (H.view house.old) [] input }
    ensures acts { ActsBeside (H.view house.old) (H.view house.new) (H.debt house.old) (H.debt house.new) log.old.items log.new.items input result }
    ensures why { IfErr result (λ e. EndsPart e.why) }
    ensures room { KeepsRoom (H.view house.old) (H.view house.new) (vec_capacity log.old - vec_len log.old) (vec_capacity log.new - vec_len log.new) }
    ensures keeps { KeepsBound (H.bound_of house.old) (H.bound_of house.new) (vec_len log.old) (vec_len log.new) }
    ensures few { vec_len log.new ≤ vec_len log.old + most }
    ensures long { IfErr result (λ e. e.why ≡ why.EraFull → IsLong (vec_len log.old) limit most (vec_len log.new)) }
{
    house.bound(end_of_part(log.len() as u64, most, limit));
    let result = house.act_beside(input, log);
    house.bound(limit);
    result
}

/// Makes what the house owes, and what is due.
pub(crate) fn finish_within<H: House>(
    house: &mut H,
    most: u64,
    limit: u64,
    log: &mut Vec<Step>,
) -> Result<(), Stopped>
    requires bound { H.bound_of house.old ≡ Some limit }
    requires within { vec_len log.old ≤ limit }
    ensures finishes { Finishes (H.view house.old) (H.view house.new) (H.debt house.old) (H.debt house.new) log.old.items log.new.items result }
    ensures why { IfErr result (λ e. EndsPart e.why) }
    ensures room { KeepsRoom (H.view house.old) (H.view house.new) (vec_capacity log.old - vec_len log.old) (vec_capacity log.new - vec_len log.new) }
    ensures keeps { KeepsBound (H.bound_of house.old) (H.bound_of house.new) (vec_len log.old) (vec_len log.new) }
    ensures few { vec_len log.new ≤ vec_len log.old + most }
    ensures long { IfErr result (λ e. e.why ≡ why.EraFull → IsLong (vec_len log.old) limit most (vec_len log.new)) }
{
    house.bound(end_of_part(log.len() as u64, most, limit));
    let result = house.finish(log);
    house.bound(limit);
    result
}

/// Takes a settle turn.
pub(crate) fn settle_within<H: House>(
    house: &mut H,
    most: u64,
    limit: u64,
    log: &mut Vec<Step>,
) -> Result<Settled, Stopped>
    requires bound { H.bound_of house.old ≡ Some limit }
    requires within { vec_len log.old ≤ limit }
    ensures settles { Settles (H.view house.old) (H.view house.new) (H.debt house.old) (H.debt house.new) log.old.items log.new.items result }
    ensures why { IfErr result (λ e. EndsPart e.why) }
    ensures room { KeepsRoom (H.view house.old) (H.view house.new) (vec_capacity log.old - vec_len log.old) (vec_capacity log.new - vec_len log.new) }
    ensures keeps { KeepsBound (H.bound_of house.old) (H.bound_of house.new) (vec_len log.old) (vec_len log.new) }
    ensures few { vec_len log.new ≤ vec_len log.old + most }
    ensures long { IfErr result (λ e. e.why ≡ why.EraFull → IsLong (vec_len log.old) limit most (vec_len log.new)) }
{
    house.bound(end_of_part(log.len() as u64, most, limit));
    let result = house.settle(log);
    house.bound(limit);
    result
}
