//! The rows of the server's own numbers.
ghost use Rattle.std.specs.Prelude.{◌≡◌, ◌++◌, OnOk};
ghost use Rattle.jsp_status.specs.Page.{counts_text, house_text, most_text, opened_text, process_text, traffic_text};

use crate::status::{ConnectionCounts, Status};
use crate::table::Cell::{Known, Number, Tenths, Text};
use crate::table::push_row;
use std::alloc::{AllocError, Global};

/// Appends them all.
pub(crate) fn push_counts(
    alloc: Global,
    page: &mut Vec<u8>,
    status: &Status,
) -> Result<(), AllocError>
    ensures { OnOk result (page.new.items ≡ page.old.items ++ counts_text status.now) }
{
    push_process(alloc, page, status)?;
    push_opened(alloc, page, &status.connections)?;
    push_most(alloc, page, &status.connections)?;
    push_traffic(alloc, page, status)?;
    push_house(alloc, page, status)
}

fn push_process(alloc: Global, page: &mut Vec<u8>, status: &Status) -> Result<(), AllocError>
    ensures { OnOk result (page.new.items ≡ page.old.items ++ process_text status.now) }
{
    push_row(alloc, page, &[Text("version"), Text(&status.version)])?;
    push_row(
        alloc,
        page,
        &[Text("seconds up"), Number(status.uptime_ms / 1000)],
    )?;
    push_row(
        alloc,
        page,
        &[Text("bytes in memory"), Known(status.memory)],
    )?;
    push_row(alloc, page, &[Text("era"), Number(status.era)])?;
    push_row(alloc, page, &[Text("eras ended"), Number(status.seals)])
}

fn push_opened(
    alloc: Global,
    page: &mut Vec<u8>,
    counts: &ConnectionCounts,
) -> Result<(), AllocError>
    ensures { OnOk result (page.new.items ≡ page.old.items ++ opened_text counts.now) }
{
    let current = counts.open;
    push_row(alloc, page, &[Text("connections"), Number(current)])?;
    push_row(
        alloc,
        page,
        &[Text("connections so far"), Number(counts.total)],
    )
}

fn push_most(alloc: Global, page: &mut Vec<u8>, counts: &ConnectionCounts) -> Result<(), AllocError>
    ensures { OnOk result (page.new.items ≡ page.old.items ++ most_text counts.now) }
{
    push_row(
        alloc,
        page,
        &[Text("most connections at once"), Number(counts.peak)],
    )?;
    push_row(
        alloc,
        page,
        &[Text("connections, limit"), Number(counts.limit)],
    )
}

fn push_traffic(alloc: Global, page: &mut Vec<u8>, status: &Status) -> Result<(), AllocError>
    ensures { OnOk result (page.new.items ≡ page.old.items ++ traffic_text status.now) }
{
    let rates = &status.rates;
    push_row(alloc, page, &[Text("requests"), Number(status.requests)])?;
    push_row(alloc, page, &[Text("answers"), Number(status.answers)])?;
    push_row(
        alloc,
        page,
        &[Text("requests a second"), Tenths(rates.requests)],
    )?;
    push_row(
        alloc,
        page,
        &[Text("answers a second"), Tenths(rates.answers)],
    )?;
    push_row(
        alloc,
        page,
        &[Text("refusals a second"), Tenths(rates.refusals)],
    )
}

fn push_house(alloc: Global, page: &mut Vec<u8>, status: &Status) -> Result<(), AllocError>
    ensures { OnOk result (page.new.items ≡ page.old.items ++ house_text status.now) }
{
    push_row(alloc, page, &[Text("transactions"), Number(status.living)])?;
    push_row(
        alloc,
        page,
        &[Text("transactions voting"), Number(status.voting)],
    )?;
    push_row(
        alloc,
        page,
        &[Text("entries in a space, limit"), Number(status.rows_limit)],
    )
}
