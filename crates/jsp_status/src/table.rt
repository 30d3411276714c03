//! The rows of a table.
ghost use Rattle.std.specs.Prelude.{◌≡◌, ◌++◌, OnOk};
ghost use Rattle.jsp_status.specs.Table.{cell_text, content_of, known_text, row_of};

use crate::decimal::{push_decimal, push_tenths};
use crate::escape::push_escaped;
use std::alloc::{AllocError, Global};

/// What a cell shows.
#[derive(Clone, Copy)]
pub(crate) enum Cell<'a> {
    Text(&'a str),
    Number(u64),
    /// A number where it is known, and else nothing.
    Known(Option<u64>),
    /// A number of tenths.
    Tenths(u64),
}

/// Appends a row.
#[tactic(auto, unfolding(crate::specs::Table::row))]
pub(crate) fn push_row(
    alloc: Global,
    page: &mut Vec<u8>,
    cells: &[Cell<'_>],
) -> Result<(), AllocError>
    ensures { OnOk result (page.new.items ≡ page.old.items ++ row_of cells.now) }
{
    page.extend_from_slice(b"<tr>")?;
    'cells: for cell in cells {
        push_cell(alloc, page, cell)?;
    }
    page.extend_from_slice(b"</tr>\n")
}

fn push_cell(alloc: Global, page: &mut Vec<u8>, cell: &Cell<'_>) -> Result<(), AllocError>
    ensures { OnOk result (page.new.items ≡ page.old.items ++ cell_text (content_of cell.now)) }
{
    page.extend_from_slice(b"<td>")?;
    push_content(alloc, page, cell)?;
    page.extend_from_slice(b"</td>")
}

fn push_content(alloc: Global, page: &mut Vec<u8>, cell: &Cell<'_>) -> Result<(), AllocError>
    ensures { OnOk result (page.new.items ≡ page.old.items ++ content_of cell.now) }
{
    match cell {
        Cell::Text(text) => push_escaped(page, text),
        Cell::Number(number) => push_decimal(alloc, page, *number),
        Cell::Known(number) => push_known(alloc, page, *number),
        Cell::Tenths(number) => push_tenths(alloc, page, *number),
    }
}

fn push_known(alloc: Global, page: &mut Vec<u8>, number: Option<u64>) -> Result<(), AllocError>
    ensures { OnOk result (page.new.items ≡ page.old.items ++ known_text number) }
{
    match number {
        Some(number) => push_decimal(alloc, page, number),
        None => Ok(()),
    }
}
