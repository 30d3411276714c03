//! The status for a browser.
ghost use Rattle.std.specs.Prelude.{◌≡◌, ◌++◌, IfOk, OnOk};
ghost use Rattle.std.specs.List.{flat_map};
ghost use Rattle.jsp_status.specs.Chart.{chart_text};
ghost use Rattle.jsp_status.specs.Page.{connection_row, page_of, refusal_row, space_row};
ghost use Rattle.jsp_status.specs.Tags.{tags_in, tags_of};

use crate::chart::{Chart, push_chart};
use crate::counts::push_counts;
use crate::status::{ConnectionStatus, RefusalCount, SpaceStatus, Status};
use crate::table::Cell::{Number, Text};
use crate::table::push_row;
use std::alloc::{AllocError, Global};

/// The page down to the rows of its first table. It renews itself each second, and is light or dark
/// as the browser is.
const HEAD: &[u8] = b"<!DOCTYPE html>\n<html lang=\"en\">\n<head>\n<meta charset=\"utf-8\">\n\
    <meta name=\"viewport\" content=\"width=device-width, initial-scale=1\">\n\
    <meta http-equiv=\"refresh\" content=\"1\">\n<title>jsp</title>\n<style>\n\
    :root { color-scheme: light dark; --ink: #1a1a1a; --ground: #fff; --quiet: #5c5c5c; \
    --rule: #d0d0d0; --line: #0b62c4; }\n\
    @media (prefers-color-scheme: dark) {\n\
    :root { --ink: #e8e8e8; --ground: #161616; --quiet: #a6a6a6; --rule: #3c3c3c; \
    --line: #6cb2ff; }\n}\n\
    body { font-family: sans-serif; line-height: 1.3; margin: 1em auto; max-width: 60em; \
    padding: 0 1em; color: var(--ink); background: var(--ground); }\n\
    table { border-collapse: collapse; width: 100%; max-width: 40em; }\n\
    td, th { border-bottom: 1px solid var(--rule); padding: 0.3em 0 0.3em 0.6em; \
    text-align: right; font-variant-numeric: tabular-nums; }\n\
    th { color: var(--quiet); font-weight: normal; vertical-align: bottom; }\n\
    td:first-child, th:first-child { text-align: left; padding-left: 0; overflow-wrap: anywhere; \
    }\n\
    h2 { margin-top: 1.6em; }\n\
    div { display: grid; grid-template-columns: repeat(auto-fill, minmax(15em, 1fr)); gap: 1.2em; \
    }\n\
    figure { margin: 0; min-width: 0; }\n\
    figcaption { overflow-wrap: anywhere; }\n\
    svg { display: block; width: 100%; height: 60px; margin: 0.4em 0; \
    border-bottom: 1px solid var(--rule); overflow: visible; }\n\
    polyline { fill: none; stroke: var(--line); stroke-width: 1.5; \
    vector-effect: non-scaling-stroke; }\n\
    p { display: flex; justify-content: space-between; margin: 0; color: var(--quiet); \
    font-size: 0.8em; }\n\
    </style>\n</head>\n<body>\n<h1>jsp</h1>\n<table>\n";

/// Between the rows of the first table and those of refusals.
const REFUSALS: &[u8] = b"</table>\n<h2>Refusals</h2>\n<table>\n\
    <tr><th>name</th><th>number</th><th>answers</th></tr>\n";

/// Between the rows of refusals and those of spaces.
const SPACES: &[u8] = b"</table>\n<h2>Spaces</h2>\n<table>\n<tr><th>space</th><th>entries</th>\
    <th>waiting</th><th>registra&shy;tions</th><th>match sets</th></tr>\n";

/// Between the rows of spaces and those of connections.
const CONNECTIONS: &[u8] = b"</table>\n<h2>Connections</h2>\n<table>\n<tr><th>address</th>\
    <th>number</th><th>seconds open</th><th>requests</th><th>waiting</th></tr>\n";

/// Between the rows of connections and the charts.
const CHARTS: &[u8] = b"</table>\n<h2>The last five minutes</h2>\n<div>\n";

/// After the charts.
const FOOT: &[u8] = b"</div>\n</body>\n</html>\n";

/// The status as a page of HTML: a table of the server's numbers, one with a row for each refusal,
/// one with a row for each space, one with a row for each connection that is listed, and the
/// charts.
pub fn to_page(alloc: Global, status: &Status) -> Result<Vec<u8>, AllocError>
    ensures shown { IfOk result (λ page. page.items ≡ page_of status.now) }
    ensures tags { IfOk result (λ page. tags_in page.items ≡ tags_of status.now) }
{
    let mut page = Vec::from_slice(alloc, HEAD)?;
    push_counts(alloc, &mut page, status)?;
    page.extend_from_slice(REFUSALS)?;
    push_refusals(alloc, &mut page, &status.refusals)?;
    page.extend_from_slice(SPACES)?;
    push_spaces(alloc, &mut page, &status.spaces)?;
    page.extend_from_slice(CONNECTIONS)?;
    push_connections(alloc, &mut page, &status.connection_list)?;
    page.extend_from_slice(CHARTS)?;
    push_charts(alloc, &mut page, &status.charts)?;
    page.extend_from_slice(FOOT)?;
    Ok(page)
}

fn push_refusals(
    alloc: Global,
    page: &mut Vec<u8>,
    refusals: &[RefusalCount],
) -> Result<(), AllocError>
    ensures { OnOk result (page.new.items ≡ page.old.items ++ flat_map refusal_row refusals.now) }
{
    'refusals: for refusal in refusals {
        push_row(
            alloc,
            page,
            &[
                Text(&refusal.name),
                Number(refusal.number),
                Number(refusal.count),
            ],
        )?;
    }
    Ok(())
}

fn push_spaces(alloc: Global, page: &mut Vec<u8>, spaces: &[SpaceStatus]) -> Result<(), AllocError>
    ensures { OnOk result (page.new.items ≡ page.old.items ++ flat_map space_row spaces.now) }
{
    'spaces: for space in spaces {
        push_row(
            alloc,
            page,
            &[
                Text(&space.name),
                Number(space.rows),
                Number(space.waiting),
                Number(space.registrations),
                Number(space.match_sets),
            ],
        )?;
    }
    Ok(())
}

fn push_connections(
    alloc: Global,
    page: &mut Vec<u8>,
    connections: &[ConnectionStatus],
) -> Result<(), AllocError>
    ensures { OnOk result (page.new.items ≡ page.old.items ++ flat_map connection_row connections.now) }
{
    'connections: for connection in connections {
        push_row(
            alloc,
            page,
            &[
                Text(&connection.address),
                Number(connection.number),
                Number(connection.open_ms / 1000),
                Number(connection.requests),
                Number(connection.waiting),
            ],
        )?;
    }
    Ok(())
}

fn push_charts(alloc: Global, page: &mut Vec<u8>, charts: &[Chart]) -> Result<(), AllocError>
    ensures { OnOk result (page.new.items ≡ page.old.items ++ flat_map chart_text charts.now) }
{
    'charts: for chart in charts {
        push_chart(alloc, page, chart)?;
    }
    Ok(())
}
