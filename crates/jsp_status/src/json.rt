//! The status for programs.
ghost use Rattle.std.specs.Prelude.{◌≡◌, IfOk, Some, map, string_bytes};
ghost use Rattle.serde_json.specs.Read.{read};
ghost use Rattle.serde_json.specs.Written.{compact_text};
ghost use Rattle.serde_json.specs.View.{view};
ghost use Rattle.jsp_status.specs.Data.{connection_data, known_data, rates_data, refusal_data, space_data, status_data, transactions_data, usage_data};

use crate::status::{ConnectionStatus, Rates, RefusalCount, SpaceStatus, Status};
use serde_json::{Value as Json, json};
use std::alloc::{AllocError, Global};

/// The status as JSON, in one line.
#[tactic(auto, using(crate::proofs::Numbers::status_has_no_float, crate::proofs::Numbers::status_is_flat))]
pub fn to_json(alloc: Global, status: &Status) -> Result<String, AllocError>
    ensures text { IfOk result (λ s. string_bytes s ≡ compact_text (status_data status.now)) }
    ensures reads { IfOk result (λ s. read (string_bytes s) ≡ Some (status_data status.now)) }
{
    status_json(alloc, status)?.to_string(alloc)
}

fn status_json(alloc: Global, status: &Status) -> Result<Json, AllocError>
    ensures { IfOk result (λ v. view v ≡ status_data status.now) }
{
    let connections = Json::Array(connections_json(alloc, &status.connection_list)?);
    let refusals = Json::Array(refusals_json(alloc, &status.refusals)?);
    let spaces = Json::Array(spaces_json(alloc, &status.spaces)?);
    let transactions = transactions_json(alloc, status)?;
    let usage = usage_json(alloc, status)?;
    json!(in alloc; {
        "answers": status.answers,
        "connection_list": connections,
        "connections": status.connections.open,
        "era": status.era,
        "refusals": refusals,
        "requests": status.requests,
        "seals": status.seals,
        "spaces": spaces,
        "transactions": transactions,
        "uptime_ms": status.uptime_ms,
        "usage": usage,
        "version": &status.version
    })
}

fn transactions_json(alloc: Global, status: &Status) -> Result<Json, AllocError>
    ensures { IfOk result (λ v. view v ≡ transactions_data status.now) }
{
    json!(in alloc; {"living": status.living, "voting": status.voting})
}

fn usage_json(alloc: Global, status: &Status) -> Result<Json, AllocError>
    ensures { IfOk result (λ v. view v ≡ usage_data status.now) }
{
    let memory = known_json(alloc, status.memory)?;
    let rates = rates_json(alloc, &status.rates)?;
    json!(in alloc; {
        "connections_limit": status.connections.limit,
        "connections_peak": status.connections.peak,
        "connections_total": status.connections.total,
        "memory_bytes": memory,
        "per_10_seconds": rates,
        "rows_limit": status.rows_limit
    })
}

fn known_json(alloc: Global, number: Option<u64>) -> Result<Json, AllocError>
    ensures { IfOk result (λ v. view v ≡ known_data number) }
{
    match number {
        Some(number) => json!(in alloc; number),
        None => Ok(Json::Null),
    }
}

fn rates_json(alloc: Global, rates: &Rates) -> Result<Json, AllocError>
    ensures { IfOk result (λ v. view v ≡ rates_data rates.now) }
{
    json!(in alloc; {
        "answers": rates.answers,
        "refusals": rates.refusals,
        "requests": rates.requests
    })
}

fn refusals_json(alloc: Global, refusals: &[RefusalCount]) -> Result<Vec<Json>, AllocError>
    ensures { IfOk result (λ list. map view list.items ≡ map refusal_data refusals.now) }
{
    let mut list = Vec::new(alloc);
    'refusals: for refusal in refusals {
        list.push(refusal_json(alloc, refusal)?)?;
    }
    Ok(list)
}

fn refusal_json(alloc: Global, refusal: &RefusalCount) -> Result<Json, AllocError>
    ensures { IfOk result (λ v. view v ≡ refusal_data refusal.now) }
{
    json!(in alloc; {"count": refusal.count, "name": &refusal.name, "number": refusal.number})
}

fn connections_json(
    alloc: Global,
    connections: &[ConnectionStatus],
) -> Result<Vec<Json>, AllocError>
    ensures { IfOk result (λ list. map view list.items ≡ map connection_data connections.now) }
{
    let mut list = Vec::new(alloc);
    'connections: for connection in connections {
        list.push(connection_json(alloc, connection)?)?;
    }
    Ok(list)
}

fn connection_json(alloc: Global, connection: &ConnectionStatus) -> Result<Json, AllocError>
    ensures { IfOk result (λ v. view v ≡ connection_data connection.now) }
{
    json!(in alloc; {
        "address": &connection.address,
        "number": connection.number,
        "open_ms": connection.open_ms,
        "requests": connection.requests,
        "waiting": connection.waiting
    })
}

fn spaces_json(alloc: Global, spaces: &[SpaceStatus]) -> Result<Vec<Json>, AllocError>
    ensures { IfOk result (λ list. map view list.items ≡ map space_data spaces.now) }
{
    let mut list = Vec::new(alloc);
    'spaces: for space in spaces {
        list.push(space_json(alloc, space)?)?;
    }
    Ok(list)
}

fn space_json(alloc: Global, space: &SpaceStatus) -> Result<Json, AllocError>
    ensures { IfOk result (λ v. view v ≡ space_data space.now) }
{
    json!(in alloc; {
        "match_sets": space.match_sets,
        "name": &space.name,
        "registrations": space.registrations,
        "rows": space.rows,
        "waiting": space.waiting
    })
}
