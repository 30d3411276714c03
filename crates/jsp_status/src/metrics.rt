//! The status for Prometheus, in version 0.0.4 of its text format.
ghost use Rattle.std.specs.Prelude.{◌≡◌, ◌++◌, IfOk, OnOk};
ghost use Rattle.std.specs.List.{flat_map};
ghost use Rattle.jsp_status.specs.Metrics.{connection_metrics, count_in, house_metrics, metrics_of, process_metrics, refusal_sample, space_metrics, space_sample};

use crate::metric::Metric;
use crate::sample::{push_head, push_known, push_labelled, push_metric, push_numbered};
use crate::status::{RefusalCount, SpaceStatus, Status};
use std::alloc::{AllocError, Global};

/// The status as metrics.
pub fn to_metrics(alloc: Global, status: &Status) -> Result<Vec<u8>, AllocError>
    ensures { IfOk result (λ text. text.items ≡ metrics_of status.now) }
{
    let mut text = Vec::new(alloc);
    push_process(alloc, &mut text, status)?;
    push_connections(alloc, &mut text, status)?;
    push_house(alloc, &mut text, status)?;
    push_head(&mut text, Metric::Refusals)?;
    push_refusals(alloc, &mut text, &status.refusals)?;
    push_spaces(alloc, &mut text, &status.spaces)?;
    Ok(text)
}

fn push_process(alloc: Global, text: &mut Vec<u8>, status: &Status) -> Result<(), AllocError>
    ensures { OnOk result (text.new.items ≡ text.old.items ++ process_metrics status.now) }
{
    push_head(text, Metric::Info)?;
    push_labelled(alloc, text, Metric::Info, "version", &status.version, 1)?;
    push_metric(alloc, text, Metric::Uptime, status.uptime_ms / 1000)?;
    push_known(alloc, text, Metric::Memory, status.memory)?;
    push_metric(alloc, text, Metric::Era, status.era)?;
    push_metric(alloc, text, Metric::ErasEnded, status.seals)
}

fn push_connections(alloc: Global, text: &mut Vec<u8>, status: &Status) -> Result<(), AllocError>
    ensures { OnOk result (text.new.items ≡ text.old.items ++ connection_metrics status.now) }
{
    let counts = &status.connections;
    push_metric(alloc, text, Metric::Connections, counts.open)?;
    push_metric(alloc, text, Metric::ConnectionsOpened, counts.total)?;
    push_metric(alloc, text, Metric::ConnectionsPeak, counts.peak)?;
    push_metric(alloc, text, Metric::ConnectionsLimit, counts.limit)
}

fn push_house(alloc: Global, text: &mut Vec<u8>, status: &Status) -> Result<(), AllocError>
    ensures { OnOk result (text.new.items ≡ text.old.items ++ house_metrics status.now) }
{
    push_metric(alloc, text, Metric::Requests, status.requests)?;
    push_metric(alloc, text, Metric::Answers, status.answers)?;
    push_metric(alloc, text, Metric::Transactions, status.living)?;
    push_metric(alloc, text, Metric::TransactionsVoting, status.voting)?;
    push_metric(alloc, text, Metric::SpaceEntriesLimit, status.rows_limit)
}

fn push_refusals(
    alloc: Global,
    text: &mut Vec<u8>,
    refusals: &[RefusalCount],
) -> Result<(), AllocError>
    ensures { OnOk result (text.new.items ≡ text.old.items ++ flat_map refusal_sample refusals.now) }
{
    'refusals: for refusal in refusals {
        push_numbered(
            alloc,
            text,
            Metric::Refusals,
            refusal.number,
            &refusal.name,
            refusal.count,
        )?;
    }
    Ok(())
}

fn push_spaces(alloc: Global, text: &mut Vec<u8>, spaces: &[SpaceStatus]) -> Result<(), AllocError>
    ensures { OnOk result (text.new.items ≡ text.old.items ++ space_metrics spaces.now) }
{
    push_head(text, Metric::SpaceEntries)?;
    push_count(alloc, text, Metric::SpaceEntries, SpaceCount::Rows, spaces)?;
    push_head(text, Metric::SpaceWaiting)?;
    push_count(
        alloc,
        text,
        Metric::SpaceWaiting,
        SpaceCount::Waiting,
        spaces,
    )?;
    push_head(text, Metric::SpaceRegistrations)?;
    push_count(
        alloc,
        text,
        Metric::SpaceRegistrations,
        SpaceCount::Registrations,
        spaces,
    )?;
    push_head(text, Metric::SpaceMatchSets)?;
    push_count(
        alloc,
        text,
        Metric::SpaceMatchSets,
        SpaceCount::MatchSets,
        spaces,
    )
}

/// What is counted in a space.
#[derive(Clone, Copy)]
pub(crate) enum SpaceCount {
    Rows,
    Waiting,
    Registrations,
    MatchSets,
}

fn count_of(count: SpaceCount, space: &SpaceStatus) -> u64
    ensures { result ≡ count_in count space.now }
{
    match count {
        SpaceCount::Rows => space.rows,
        SpaceCount::Waiting => space.waiting,
        SpaceCount::Registrations => space.registrations,
        SpaceCount::MatchSets => space.match_sets,
    }
}

fn push_count(
    alloc: Global,
    text: &mut Vec<u8>,
    metric: Metric,
    count: SpaceCount,
    spaces: &[SpaceStatus],
) -> Result<(), AllocError>
    ensures { OnOk result (text.new.items ≡ text.old.items ++ flat_map (space_sample metric count) spaces.now) }
{
    'spaces: for space in spaces {
        let number = count_of(count, space);
        push_labelled(alloc, text, metric, "space", &space.name, number)?;
    }
    Ok(())
}
