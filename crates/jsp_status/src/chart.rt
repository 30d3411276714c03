//! Numbers of the last five minutes, drawn.
ghost use Rattle.std.specs.Prelude.{◌≡◌, ◌++◌, ◌-◌, ◌*◌, ◌/◌, max, OnOk};
ghost use Rattle.std.specs.List.{flat_map};
ghost use Rattle.jsp_status.specs.Chart.{amount_of, caption_text, chart_text, drawing_text, point_text};

use crate::decimal::{push_decimal, push_tenths};
use crate::escape::push_escaped;
use std::alloc::{AllocError, Global};

/// Numbers of the last five minutes, to be drawn as a line.
#[derive(Drop)]
pub struct Chart {
    pub name: String,
    pub scale: Scale,
    /// The value at the upper edge: the greatest, where all are to be seen.
    pub top: u64,
    pub points: Vec<Point>,
}

/// What a value counts.
#[derive(Clone, Copy, Debug, PartialEq, Eq)]
pub enum Scale {
    Ones,
    Tenths,
}

/// A value, and how many seconds old it is.
#[derive(Clone, Copy)]
pub struct Point {
    pub age: u64,
    pub value: u64,
}

/// Before the name of a chart.
pub(crate) const CAPTION: &[u8] = b"<figure>\n<figcaption>";

/// Between the name and the greatest value.
pub(crate) const GREATEST: &[u8] = b", at most ";

/// Between the greatest value and the points. The drawing is 300 wide, a second each, and 60 high.
pub(crate) const DRAWING: &[u8] =
    b"</figcaption>\n<svg viewBox=\"0 0 300 60\" preserveAspectRatio=\"none\" \
    role=\"img\"><polyline points=\"";

/// Behind the points.
pub(crate) const AXIS: &[u8] = b"\"/></svg>\n<p><span>5 minutes ago</span>\
    <span>now</span></p>\n</figure>\n";

/// Appends a chart.
pub(crate) fn push_chart(alloc: Global, page: &mut Vec<u8>, chart: &Chart) -> Result<(), AllocError>
    ensures { OnOk result (page.new.items ≡ page.old.items ++ chart_text chart.now) }
{
    push_caption(page, chart)?;
    push_amount(alloc, page, chart.scale, chart.top)?;
    push_drawing(alloc, page, chart)
}

#[tactic(auto, unfolding(crate::specs::Chart::caption_text))]
fn push_caption(page: &mut Vec<u8>, chart: &Chart) -> Result<(), AllocError>
    ensures { OnOk result (page.new.items ≡ page.old.items ++ caption_text chart.now) }
{
    page.extend_from_slice(CAPTION)?;
    push_escaped(page, &chart.name)?;
    page.extend_from_slice(GREATEST)
}

#[tactic(auto, unfolding(crate::specs::Chart::drawing_text))]
fn push_drawing(alloc: Global, page: &mut Vec<u8>, chart: &Chart) -> Result<(), AllocError>
    ensures { OnOk result (page.new.items ≡ page.old.items ++ drawing_text chart.now) }
{
    page.extend_from_slice(DRAWING)?;
    push_points(alloc, page, chart.top, &chart.points)?;
    page.extend_from_slice(AXIS)
}

fn push_amount(
    alloc: Global,
    page: &mut Vec<u8>,
    scale: Scale,
    value: u64,
) -> Result<(), AllocError>
    ensures { OnOk result (page.new.items ≡ page.old.items ++ amount_of scale value) }
{
    match scale {
        Scale::Ones => push_decimal(alloc, page, value),
        Scale::Tenths => push_tenths(alloc, page, value),
    }
}

fn push_points(
    alloc: Global,
    page: &mut Vec<u8>,
    top: u64,
    points: &[Point],
) -> Result<(), AllocError>
    ensures { OnOk result (page.new.items ≡ page.old.items ++ flat_map (point_text top) points.now) }
{
    'points: for point in points {
        push_point(alloc, page, top, point)?;
    }
    Ok(())
}

#[tactic(auto, unfolding(crate::specs::Chart::point_text))]
fn push_point(alloc: Global, page: &mut Vec<u8>, top: u64, point: &Point) -> Result<(), AllocError>
    ensures { OnOk result (page.new.items ≡ page.old.items ++ point_text top point.now) }
{
    push_decimal(alloc, page, 300u64.saturating_sub(point.age))?;
    page.extend_from_slice(b",")?;
    push_decimal(alloc, page, depth_of(top, point.value))?;
    page.extend_from_slice(b" ")
}

/// How far a value is below the upper edge.
fn depth_of(top: u64, value: u64) -> u64
    ensures { result ≡ 60 - value * 60 / max top 1 }
{
    let height = u128::from(value) * 60 / u128::from(top.max(1));
    60u128.saturating_sub(height) as u64
}
