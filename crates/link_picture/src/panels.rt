//! The three panels of a picture.

ghost use Rattle.std.specs.Prelude.{◌<◌, IfOk};

use crate::content::Content;
use crate::curves::Curve;
use crate::layout::{
    PANEL_HEIGHT, PANEL_LEFT, PANEL_WIDTH, RATE_BOTTOM, SHARE_BOTTOM, WAIT_BOTTOM,
};
use crate::looks::{LINK_LOOK, look_of};
use crate::points::{
    Point, rate_points, rate_y, share_points, share_y, time_x, wait_points, wait_x, wait_y,
};
use crate::scales::{RateScale, WaitScale, round_step};
use crate::settings::Settings;
use crate::svg::{Anchor, Look, Svg, Weight};
use crate::wording::{mark_rate_text, time_text};
use journal_core::Memory;
use std::alloc::Global;

/// The sign of "at most", as SVG writes it.
const AT_MOST: &str = "&#8804;";

/// The greatest width of a character of a name, in pixels.
const CHARACTER_WIDTH: u64 = 8;

/// How far to the right a text below a panel may reach.
const LOW_RIGHT: u64 = 700;

/// The half of a text below a panel is taken as so wide at least.
const LEAST_HALF: u64 = 32;

/// The least gap between two texts of an axis, in pixels.
const GAP: u64 = 4;

/// What the panels show, and on which scales.
#[derive(Clone, Copy)]
pub(crate) struct Show<'a> {
    /// Where memory comes from.
    pub alloc: Global,
    /// The lines.
    pub content: &'a Content,
    /// Whether there is another queue.
    pub has_fifo: bool,
    /// The settings of the run.
    pub settings: &'a Settings,
    /// The scale of delays.
    pub waits: WaitScale,
    /// The scale of rates.
    pub rates: RateScale,
}

/// A point.
pub(crate) fn at(x: u64, y: u64) -> Point {
    Point { x, y }
}

/// The frame of the first panel, with a text that no packet arrived.
pub(crate) fn empty_panel(svg: &mut Svg) -> Result<(), Memory> {
    svg.frame(WAIT_BOTTOM)?;
    let middle = at(
        PANEL_LEFT + PANEL_WIDTH / 2,
        WAIT_BOTTOM - PANEL_HEIGHT / 2 + 4,
    );
    svg.label(middle, Anchor::Middle, Weight::Name, "no packet arrived")
}

/// The title of a panel, and the name of its axis from the lower edge up, which is at the top of that axis.
fn caption(svg: &mut Svg, bottom: u64, text: &str, name: &str) -> Result<(), Memory> {
    let y = bottom.saturating_sub(PANEL_HEIGHT).saturating_sub(9);
    svg.label(at(PANEL_LEFT, y), Anchor::Start, Weight::Caption, text)?;
    let left = at(PANEL_LEFT.saturating_sub(7), y);
    svg.label(left, Anchor::End, Weight::Small, name)
}

/// The name of a panel's axis from left to right, below the end of that axis.
fn low_name(svg: &mut Svg, bottom: u64, name: &str) -> Result<(), Memory> {
    let place = at(PANEL_LEFT + PANEL_WIDTH, bottom.saturating_add(34));
    svg.label(place, Anchor::End, Weight::Small, name)
}

/// A text left of a panel, at that height.
fn left_text(svg: &mut Svg, y: u64, text: &str) -> Result<(), Memory> {
    let place = at(PANEL_LEFT.saturating_sub(7), y.saturating_add(4));
    svg.label(place, Anchor::End, Weight::Name, text)
}

/// The greatest width of a text, in pixels.
fn text_width(text: &str) -> u64 {
    let length = match text.strip_prefix(AT_MOST) {
        Some(rest) => rest.len().saturating_add(1),
        None => text.len(),
    };
    (length as u64).saturating_mul(CHARACTER_WIDTH)
}

/// Where a text of that width lies below a panel, and which point of it. One that would come near the legend ends there.
fn low_place(x: u64, width: u64) -> (u64, Anchor) {
    let half = (width / 2).max(LEAST_HALF);
    if x.saturating_add(half) > LOW_RIGHT {
        (x.saturating_add(4), Anchor::End)
    } else {
        (x, Anchor::Middle)
    }
}

/// A text below a panel, at that place.
fn low_text(svg: &mut Svg, x: u64, bottom: u64, text: &str) -> Result<(), Memory> {
    let (place, anchor) = low_place(x, text_width(text));
    let below = at(place, bottom.saturating_add(18));
    svg.label(below, anchor, Weight::Name, text)
}

/// The lines of times in a panel, from the start of the first bin on, their texts, and the axis's name with that start
/// unless it is 0.
fn time_lines(svg: &mut Svg, show: &Show<'_>, bottom: u64) -> Result<(), Memory> {
    let axis = &show.content.axis;
    let length = axis.count.saturating_sub(1).saturating_mul(axis.width);
    let step = round_step(length, 7);
    let mut time = 0u64;
    for _turn in 0..8 {
        if time <= length {
            let x = time_x(axis, time);
            svg.down(x, bottom)?;
            low_text(svg, x, bottom, time_text(show.alloc, time, step)?.as_str())?;
        }
        time = time.saturating_add(step);
    }
    let start = axis.first.saturating_mul(axis.width);
    if start == 0 {
        low_name(svg, bottom, "time")
    } else {
        let name = format!(in show.alloc; "time after {start} us")?;
        low_name(svg, bottom, &name)
    }
}

/// The text of a delay on a scale. The least one has all shorter delays too.
fn mark_text(show: &Show<'_>, wait: u64, place: usize) -> Result<String, Memory> {
    let text = time_text(show.alloc, wait, wait)?;
    if place == 0 {
        format!(in show.alloc; "{AT_MOST} {text}")
    } else {
        Ok(text)
    }
}

/// The panel of the longest delays.
pub(crate) fn wait_panel(svg: &mut Svg, show: &Show<'_>) -> Result<(), Memory> {
    let width = show.content.axis.width;
    let bin = time_text(show.alloc, width, width)?;
    let text = format!(in show.alloc; "Longest delay of packets sent, in each {bin}")?;
    caption(svg, WAIT_BOTTOM, &text, "delay")?;
    time_lines(svg, show, WAIT_BOTTOM)?;
    for (place, wait) in show.waits.marks(show.alloc)?.iter().enumerate() {
        let y = wait_y(&show.waits, *wait);
        svg.across(y)?;
        left_text(svg, y, mark_text(show, *wait, place)?.as_str())?;
    }
    svg.frame(WAIT_BOTTOM)?;
    wait_lines(svg, show, &show.content.scheduler, false)?;
    if show.has_fifo {
        wait_lines(svg, show, &show.content.fifo, true)?;
    }
    Ok(())
}

/// Which line of a queue is drawn at that place in their order, and how it looks. Each is drawn on those before it, which
/// show through its gaps: first that of all others, if there is one, and then the solid one of the first five-tuple.
fn drawn_at(show: &Show<'_>, place: usize, is_fifo: bool) -> (usize, Look) {
    let named = show.content.names.len();
    let line = if show.content.lines <= named {
        place
    } else if place == 0 {
        named
    } else {
        place - 1
    };
    (line, look_of(named, line, is_fifo))
}

/// The lines of a queue in the panel of the longest delays.
fn wait_lines(
    svg: &mut Svg,
    show: &Show<'_>,
    curves: &[Curve],
    is_fifo: bool,
) -> Result<(), Memory> {
    for place in 0..curves.len() {
        let (line, look) = drawn_at(show, place, is_fifo);
        if let Some(curve) = curves.get(line) {
            let axis = &show.content.axis;
            let points = wait_points(show.alloc, axis, &show.waits, curve.bins())?;
            broken_line(svg, show.alloc, look, &points)?;
        }
    }
    Ok(())
}

/// A line that is broken where there is no point.
fn broken_line(
    svg: &mut Svg,
    alloc: Global,
    look: Look,
    points: &[Option<Point>],
) -> Result<(), Memory> {
    let mut part = Vec::new(alloc);
    for point in points {
        match point {
            Some(point) => part.push(*point)?,
            None => {
                svg.line(look, &part)?;
                part.clear();
            }
        }
    }
    svg.line(look, &part)
}

/// Which marks have their texts below a panel: all of them, or every third if these would touch, or else every sixth.
fn turn_of_texts(show: &Show<'_>, marks: &[u64]) -> Result<usize, Memory>
    ensures { IfOk result (λ turn. 0 < turn) }
{
    if keep_apart(show, marks, 1)? {
        Ok(1)
    } else if keep_apart(show, marks, 3)? {
        Ok(3)
    } else {
        Ok(6)
    }
}

/// Whether the texts of every third mark, or of every mark by another such number, don't touch below a panel.
fn keep_apart(show: &Show<'_>, marks: &[u64], turn: usize) -> Result<bool, Memory>
    requires { 0 < turn }
{
    let mut end = 0u64;
    for (place, wait) in marks.iter().enumerate() {
        if place % turn == 0 {
            let width = text_width(&mark_text(show, *wait, place)?);
            let (from, upto) = low_extent(wait_x(&show.waits, *wait), width);
            if from < end {
                return Ok(false);
            }
            end = upto.saturating_add(GAP);
        }
    }
    Ok(true)
}

/// The first and the last pixel of a text below a panel that has that width.
fn low_extent(x: u64, width: u64) -> (u64, u64) {
    let (place, anchor) = low_place(x, width);
    let from = match anchor {
        Anchor::Start => place,
        Anchor::Middle => place.saturating_sub(width / 2),
        Anchor::End => place.saturating_sub(width),
    };
    (from, from.saturating_add(width))
}

/// The panel of the distribution of delays.
pub(crate) fn share_panel(svg: &mut Svg, show: &Show<'_>) -> Result<(), Memory> {
    let text = "Share of packets sent with at most that delay";
    caption(svg, SHARE_BOTTOM, text, "share")?;
    low_name(svg, SHARE_BOTTOM, "delay")?;
    let marks = show.waits.marks(show.alloc)?;
    let turn = turn_of_texts(show, &marks)?;
    for (place, wait) in marks.iter().enumerate() {
        let x = wait_x(&show.waits, *wait);
        svg.down(x, SHARE_BOTTOM)?;
        if place % turn == 0 {
            let text = mark_text(show, *wait, place)?;
            low_text(svg, x, SHARE_BOTTOM, &text)?;
        }
    }
    for percent in [0u64, 25, 50, 75, 100] {
        let y = share_y(percent);
        svg.across(y)?;
        left_text(svg, y, format!(in show.alloc; "{percent}%")?.as_str())?;
    }
    svg.frame(SHARE_BOTTOM)?;
    share_lines(svg, show, &show.content.scheduler, false)?;
    if show.has_fifo {
        share_lines(svg, show, &show.content.fifo, true)?;
    }
    Ok(())
}

/// The lines of a queue in the panel of the distribution.
fn share_lines(
    svg: &mut Svg,
    show: &Show<'_>,
    curves: &[Curve],
    is_fifo: bool,
) -> Result<(), Memory> {
    for place in 0..curves.len() {
        let (line, look) = drawn_at(show, place, is_fifo);
        if let Some(curve) = curves.get(line) {
            let points = share_points(show.alloc, &show.waits, curve.percentiles())?;
            svg.line(look, corners(show.alloc, &points)?.as_slice())?;
        }
    }
    Ok(())
}

/// The points without those that lie between two others on a line down or across.
fn corners(alloc: Global, points: &[Point]) -> Result<Vec<Point>, Memory> {
    let mut kept = Vec::new(alloc);
    for (place, point) in points.iter().enumerate() {
        let before = points.get(place.saturating_sub(1));
        let after = points.get(place.saturating_add(1));
        let is_between = match (before, after) {
            (Some(before), Some(after)) => {
                place > 0
                    && ((before.x == point.x && point.x == after.x)
                        || (before.y == point.y && point.y == after.y))
            }
            _ => false,
        };
        if !is_between {
            kept.push(*point)?;
        }
    }
    Ok(kept)
}

/// The panel of the throughput, with a line at the rate of the link.
pub(crate) fn rate_panel(svg: &mut Svg, show: &Show<'_>) -> Result<(), Memory> {
    let width = show.content.axis.width;
    let bin = time_text(show.alloc, width, width)?;
    let text = format!(in show.alloc; "Throughput, in each {bin}; dotted, the link's rate")?;
    caption(svg, RATE_BOTTOM, &text, "bit/s")?;
    time_lines(svg, show, RATE_BOTTOM)?;
    rate_lines(svg, show)?;
    svg.frame(RATE_BOTTOM)?;
    throughput(svg, show, &show.content.scheduler, false)?;
    if show.has_fifo {
        throughput(svg, show, &show.content.fifo, true)?;
    }
    let link = rate_y(&show.rates, u128::from(show.settings.rate));
    svg.level(link, LINK_LOOK)
}

/// The lines of rates and their texts. The least one has all lower rates too, and bins in which nothing was sent.
fn rate_lines(svg: &mut Svg, show: &Show<'_>) -> Result<(), Memory> {
    for (place, rate) in show.rates.marks(show.alloc)?.iter().enumerate() {
        let y = rate_y(&show.rates, u128::from(*rate));
        svg.across(y)?;
        let text = mark_rate_text(show.alloc, *rate)?;
        if place == 0 {
            let least = format!(in show.alloc; "{AT_MOST} {text}")?;
            left_text(svg, y, &least)?;
        } else {
            left_text(svg, y, &text)?;
        }
    }
    Ok(())
}

/// The lines of a queue in the panel of the throughput, each from the first bin in which it was sent to the last.
fn throughput(
    svg: &mut Svg,
    show: &Show<'_>,
    curves: &[Curve],
    is_fifo: bool,
) -> Result<(), Memory> {
    for place in 0..curves.len() {
        let (line, look) = drawn_at(show, place, is_fifo);
        if let Some(curve) = curves.get(line) {
            throughput_line(svg, show, look, curve)?;
        }
    }
    Ok(())
}

/// A line in the panel of the throughput.
fn throughput_line(
    svg: &mut Svg,
    show: &Show<'_>,
    look: Look,
    curve: &Curve,
) -> Result<(), Memory> {
    let axis = &show.content.axis;
    let points = rate_points(show.alloc, axis, &show.rates, curve.bins())?;
    let from = curve.bins().iter().position(|bin| bin.sent_bytes > 0);
    let last = curve.bins().iter().rposition(|bin| bin.sent_bytes > 0);
    if let (Some(from), Some(last)) = (from, last)
        && let Some(part) = points.get(from..last.saturating_add(1))
    {
        svg.line(look, part)?;
    }
    Ok(())
}
