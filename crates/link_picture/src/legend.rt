//! The legend of a picture: its five-tuples by name, with the delays, the drops and the marks of each.

use crate::curves::Curve;
use crate::layout::{PANEL_HEIGHT, WAIT_BOTTOM};
use crate::looks::{LINK_LOOK, look_of, queue_look};
use crate::panels::{Show, at};
use crate::svg::{Anchor, Look, Svg, Weight};
use crate::wording::{destination_text, rate_text, source_text, wait_text};
use journal_core::Memory;

/// The left edge of the legend, in pixels.
const LEFT: u64 = 708;

/// Where its texts start.
const TEXT_LEFT: u64 = 736;

/// How far the second row of a name is moved to the right.
const INDENT: u64 = 12;

/// The most characters that a row of a name has.
const ROW_LENGTH: usize = 34;

/// The most characters of a row of numbers that starts where the names do. A longer one starts at the left edge.
const SMALL_LENGTH: usize = 46;

/// From a row to the next.
const ROW: u64 = 16;

/// Draws the legend.
pub(crate) fn legend(svg: &mut Svg, show: &Show<'_>) -> Result<(), Memory> {
    let mut y = common_names(svg, show)?;
    for line in 0..show.content.lines {
        let below = line_names(svg, show, line, y)?;
        let look = look_of(show.content.names.len(), line, false);
        svg.sample(at(LEFT, y.saturating_sub(4)), look)?;
        y = numbers(svg, show, line, below)?.saturating_add(10);
    }
    Ok(())
}

/// What the lines of the queues look like, if there are two, and that of the link's rate. It returns the height of the
/// next row.
fn common_names(svg: &mut Svg, show: &Show<'_>) -> Result<u64, Memory> {
    let mut y = WAIT_BOTTOM - PANEL_HEIGHT + 6;
    if show.has_fifo {
        for (name, is_fifo) in [("fq_codel", false), ("fifo", true)] {
            y = common_name(svg, y, queue_look(is_fifo), name)?;
        }
    }
    let link = show.settings.rate;
    let rate = rate_text(show.alloc, link, link)?;
    let name = format!(in show.alloc; "the link's rate, {rate}")?;
    y = common_name(svg, y, LINK_LOOK, &name)?;
    Ok(y.saturating_add(10))
}

/// What lines of one kind look like. It returns the height of the next row.
fn common_name(svg: &mut Svg, y: u64, look: Look, name: &str) -> Result<u64, Memory> {
    svg.sample(at(LEFT, y.saturating_sub(4)), look)?;
    svg.label(at(TEXT_LEFT, y), Anchor::Start, Weight::Name, name)?;
    Ok(y.saturating_add(ROW))
}

/// The name of a line: where its packets come from, and where they go. It returns the height of the next row.
fn line_names(svg: &mut Svg, show: &Show<'_>, line: usize, y: u64) -> Result<u64, Memory> {
    let content = show.content;
    match (content.chosen.get(line), content.names.get(line)) {
        (Some(number), Some(tuple)) => {
            let source = source_text(show.alloc, *number, tuple)?;
            let destination = destination_text(show.alloc, tuple)?;
            let below = name_rows(svg, y, &source)?;
            name_rows(svg, below, &destination)
        }
        _ => {
            let others = content.others;
            let text = format!(in show.alloc; "others ({others})")?;
            name_rows(svg, y, &text)
        }
    }
}

/// A name, which goes on in a second row if it is too long for one. It returns the height of the next row.
fn name_rows(svg: &mut Svg, y: u64, name: &str) -> Result<u64, Memory> {
    let place = at(TEXT_LEFT, y);
    let below = y.saturating_add(ROW);
    let end = row_end(name.as_bytes());
    match (name.get(..end), name.get(end..)) {
        (Some(first), Some(rest)) if !rest.is_empty() => {
            svg.label(place, Anchor::Start, Weight::Name, first)?;
            let further = at(TEXT_LEFT + INDENT, below);
            svg.label(further, Anchor::Start, Weight::Name, rest)?;
            Ok(below.saturating_add(ROW))
        }
        _ => {
            svg.label(place, Anchor::Start, Weight::Name, name)?;
            Ok(below)
        }
    }
}

/// How many characters of a name its first row has: all that fit, or those up to the last space or colon that fits. The
/// two colons of an address stay together.
fn row_end(name: &[u8]) -> usize {
    let mut end = name.len();
    if end <= ROW_LENGTH {
        return end;
    }
    for place in 0..ROW_LENGTH {
        let next = place + 1;
        if let (Some(b' ' | b':'), Some(after)) = (name.get(place), name.get(next))
            && *after != b':'
        {
            end = next;
        }
    }
    end
}

/// The delays, drops and marks of a line of both queues. It returns the height of the next row.
fn numbers(svg: &mut Svg, show: &Show<'_>, line: usize, top: u64) -> Result<u64, Memory> {
    let mut y = top;
    if let Some(curve) = show.content.scheduler.get(line) {
        let delays = delays_text(show, curve)?;
        let text = format!(in show.alloc; "fq_codel: {delays}")?;
        y = small_row(svg, y, &text)?;
        let counts = curve.counts();
        let (codel, overflow) = (counts.codel_drops, counts.overflow_drops);
        let marks = counts.marks;
        let text = format!(in show.alloc;
            "drops: {codel} CoDel, {overflow} overflow; CE: {marks}"
        )?;
        y = small_row(svg, y, &text)?;
    }
    if show.has_fifo
        && let Some(curve) = show.content.fifo.get(line)
    {
        let delays = delays_text(show, curve)?;
        let drops = curve.counts().overflow_drops;
        let text = format!(in show.alloc; "fifo: {delays}, {drops} drops")?;
        y = small_row(svg, y, &text)?;
    }
    Ok(y)
}

/// The median and the 99th percentile of the delays of a line.
fn delays_text(show: &Show<'_>, curve: &Curve) -> Result<String, Memory> {
    match (curve.percentiles().get(50), curve.percentiles().get(99)) {
        (Some(median), Some(late)) => {
            let median = wait_text(show.alloc, *median)?;
            let late = wait_text(show.alloc, *late)?;
            format!(in show.alloc; "p50 {median}, p99 {late}")
        }
        _ => format!(in show.alloc; "none sent"),
    }
}

/// A row of numbers. It returns the height of the next row.
fn small_row(svg: &mut Svg, y: u64, text: &str) -> Result<u64, Memory> {
    let left = if text.len() > SMALL_LENGTH {
        LEFT
    } else {
        TEXT_LEFT
    };
    svg.label(at(left, y), Anchor::Start, Weight::Small, text)?;
    Ok(y.saturating_add(ROW))
}
