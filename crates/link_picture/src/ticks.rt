//! The rows of ticks below the panels of a picture: in which bins packets were dropped, by cause, or marked.

use crate::counts::Counts;
use crate::curves::Curve;
use crate::layout::{PANEL_LEFT, TICKS_TOP};
use crate::looks::color;
use crate::panels::{Show, at};
use crate::points::bin_x;
use crate::svg::{Anchor, Svg, Weight};
use journal_core::Memory;

/// From a row of ticks to the next.
const ROW: u64 = 26;

/// From a five-tuple's ticks to the next one's, in a row.
const STEP: u64 = 3;

/// From the top of a row to the line below its ticks.
const LINE: u64 = 23;

/// What a row of ticks shows.
#[derive(Clone, Copy, Debug, PartialEq, Eq)]
enum Outcome {
    /// Drops by CoDel.
    CodelDrop,
    /// Drops because a queue was full.
    OverflowDrop,
    /// Marks.
    Mark,
}

impl Outcome {
    /// How many packets had it.
    fn count(self, counts: Counts) -> u64 {
        match self {
            Outcome::CodelDrop => counts.codel_drops,
            Outcome::OverflowDrop => counts.overflow_drops,
            Outcome::Mark => counts.marks,
        }
    }
}

/// Draws all rows, with their title.
pub(crate) fn tick_rows(svg: &mut Svg, show: &Show<'_>) -> Result<(), Memory> {
    let title = at(PANEL_LEFT, TICKS_TOP - 8);
    let text = "Drops and CE marks: a tick in each bin that has some";
    svg.label(title, Anchor::Start, Weight::Caption, text)?;
    let mut top = TICKS_TOP;
    for (name, outcome) in [
        ("CoDel drops", Outcome::CodelDrop),
        ("overflow", Outcome::OverflowDrop),
        ("CE marks", Outcome::Mark),
    ] {
        tick_row(svg, show, &show.content.scheduler, (name, outcome), top)?;
        top = top.saturating_add(ROW);
    }
    if show.has_fifo {
        let row = ("fifo drops", Outcome::OverflowDrop);
        tick_row(svg, show, &show.content.fifo, row, top)?;
    }
    Ok(())
}

/// A row of a queue's ticks, with its name. The ticks of each five-tuple are below those of the one before.
fn tick_row(
    svg: &mut Svg,
    show: &Show<'_>,
    curves: &[Curve],
    (name, outcome): (&str, Outcome),
    top: u64,
) -> Result<(), Memory> {
    let place = at(PANEL_LEFT.saturating_sub(7), top.saturating_add(14));
    svg.label(place, Anchor::End, Weight::Small, name)?;
    svg.across(top.saturating_add(LINE))?;
    let mut y = top;
    for (line, curve) in curves.iter().enumerate() {
        let color = color(if line < show.content.names.len() {
            line
        } else {
            usize::MAX
        });
        for (place, bin) in curve.bins().iter().enumerate() {
            if outcome.count(bin.counts) > 0 {
                let x = bin_x(show.content.axis.count, place as u64);
                svg.tick(at(x, y), color)?;
            }
        }
        y = y.saturating_add(STEP);
    }
    Ok(())
}
