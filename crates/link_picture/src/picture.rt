//! The whole picture.

ghost use Rattle.std.specs.Prelude.{◌≡◌, ◌≤◌, IfSome, length, max};
ghost use Rattle.link_report.specs.declared.summary.TheConstants.{MAX_EVENTS};
ghost use Rattle.link_picture.specs.Axes.{in_64};
ghost use Rattle.link_picture.specs.Extremes.{IsRateScale, IsWaitScale, greatest_rate, least_rate, least_rate_in, least_rate_of_all, longest_in, longest_of, longest_wait, lower_rate, rate_in, rate_of_all};

use crate::axis::Axis;
use crate::bins::Bin;
use crate::content::Content;
use crate::curves::Curve;
use crate::layout::PANEL_LEFT;
use crate::legend::legend;
use crate::panels::{Show, at, empty_panel, rate_panel, share_panel, wait_panel};
use crate::points::{capped, rate_of};
use crate::scales::{RateScale, WaitScale};
use crate::settings::{Settings, first_params_text, last_params_text, link_text};
use crate::svg::{Anchor, Svg, Weight};
use crate::ticks::tick_rows;
use crate::wording::rate_text;
use journal_core::{Event, Memory};
use link_report::Packets;
use std::alloc::Global;

/// The picture of a run with these settings, as the text of an SVG. It shows the scheduler's journal, and that of the
/// FIFO, if there is one, in dashed lines. A journal has at most `MAX_EVENTS` entries. If no packet arrived, the picture
/// says so. It fails only if it is out of memory. What its lines show is what `Content::of` says; its text is tested, and
/// no contract says it.
pub fn picture_text(
    alloc: Global,
    settings: &Settings,
    events: &[Event],
    fifo: Option<&[Event]>,
) -> Result<Vec<u8>, Memory>
    requires few { length events.now ≤ MAX_EVENTS }
    requires fifo_few { IfSome fifo (λ e. length e.now ≤ MAX_EVENTS) }
{
    let content = Content::of(alloc, settings.every, events, fifo)?;
    drawn(alloc, settings, fifo.is_some(), &content)
}

/// The picture of the packets of journals, as `picture_text` draws it. What its lines show is what `Content::of_packets`
/// says.
pub fn picture_text_of(
    alloc: Global,
    settings: &Settings,
    packets: &Packets,
    fifo: Option<&Packets>,
) -> Result<Vec<u8>, Memory>
    requires few { length packets.now.packets ≤ MAX_EVENTS }
    requires fifo_few { IfSome fifo (λ p. length p.now.packets ≤ MAX_EVENTS) }
{
    let every = settings.every;
    let content = match fifo {
        Some(fifo) => Content::of_packets(alloc, every, packets, fifo)?,
        None => {
            let none = Packets::of(alloc, &[])?;
            Content::of_packets(alloc, every, packets, &none)?
        }
    };
    drawn(alloc, settings, fifo.is_some(), &content)
}

/// The picture of a run with these settings that shows this.
fn drawn(
    alloc: Global,
    settings: &Settings,
    has_fifo: bool,
    content: &Content,
) -> Result<Vec<u8>, Memory> {
    let show = Show {
        alloc,
        content,
        has_fifo,
        settings,
        waits: waits_of(content),
        rates: rates_of(content, settings.rate),
    };
    let mut svg = Svg::open(alloc, title(&show)?.as_str())?;
    headline(&mut svg, &show)?;
    if content.lines == 0 {
        empty_panel(&mut svg)?;
    } else {
        wait_panel(&mut svg, &show)?;
        share_panel(&mut svg, &show)?;
        rate_panel(&mut svg, &show)?;
        tick_rows(&mut svg, &show)?;
        legend(&mut svg, &show)?;
    }
    svg.close()
}

/// The scale of the delays of all lines.
fn waits_of(content: &Content) -> WaitScale
    ensures { IsWaitScale (longest_wait content.now) result }
{
    WaitScale::upto(longest(&content.fifo, longest(&content.scheduler, 0)))
}

/// The scale of the rates of all lines and of the link.
fn rates_of(content: &Content, link: u64) -> RateScale
    ensures { IsRateScale (in_64 (least_rate (max (in_64 (greatest_rate content.now)) link) content.now))
        (max (in_64 (greatest_rate content.now)) link) result }
{
    let most = most(content).max(link);
    RateScale::of(least(content, most), most)
}

/// The title of a picture.
fn title(show: &Show<'_>) -> Result<String, Memory> {
    let link = show.settings.rate;
    let rate = rate_text(show.alloc, link, link)?;
    let packets = show.content.packets;
    let queues = if show.has_fifo {
        "fq_codel and fifo (dashed)"
    } else {
        "fq_codel"
    };
    format!(in show.alloc; "{queues} before a {rate} link: {packets} packets")
}

/// The title as a text of the picture, and the settings of the run below it.
fn headline(svg: &mut Svg, show: &Show<'_>) -> Result<(), Memory> {
    let title = title(show)?;
    svg.label(at(PANEL_LEFT, 27), Anchor::Start, Weight::Title, &title)?;
    let first = first_params_text(show.alloc, &show.settings.params)?;
    svg.label(at(PANEL_LEFT, 46), Anchor::Start, Weight::Small, &first)?;
    let last = last_params_text(show.alloc, &show.settings.params)?;
    let link = link_text(show.alloc, show.settings)?;
    let text = format!(in show.alloc; "{last}; {link}")?;
    svg.label(at(PANEL_LEFT, 60), Anchor::Start, Weight::Small, &text)
}

/// The longest delay in the bins of some lines, and at least the one given.
fn longest(curves: &[Curve], wait: u64) -> u64
    ensures { result ≡ longest_of wait curves.now }
{
    let mut longest = wait;
    for curve in curves {
        longest = longest_in(curve.bins(), longest);
    }
    longest
}

/// The longest delay in some bins, and at least the one given.
fn longest_in(bins: &[Bin], wait: u64) -> u64
    ensures { result ≡ longest_in wait bins.now }
{
    let mut longest = wait;
    for bin in bins {
        longest = longest.max(bin.longest.unwrap_or(0));
    }
    longest
}

/// The greatest rate in the bins of all lines, in bits per second.
fn most(content: &Content) -> u64
    ensures { result ≡ in_64 (greatest_rate content.now) }
{
    let axis = &content.axis;
    let most = most_of(axis, &content.fifo, most_of(axis, &content.scheduler, 0));
    capped(most)
}

/// The greatest rate in the bins of some lines, and at least the one given.
fn most_of(axis: &Axis, curves: &[Curve], rate: u128) -> u128
    ensures { result ≡ rate_of_all axis.now.width rate curves.now }
{
    let mut most = rate;
    for curve in curves {
        most = most_in(axis, curve.bins(), most);
    }
    most
}

/// The greatest rate in some bins, and at least the one given.
fn most_in(axis: &Axis, bins: &[Bin], rate: u128) -> u128
    ensures { result ≡ rate_in axis.now.width rate bins.now }
{
    let mut most = rate;
    for bin in bins {
        most = most.max(rate_of(axis, bin));
    }
    most
}

/// The least rate above 0 in the bins of all lines, in bits per second, and at most the one given.
fn least(content: &Content, rate: u64) -> u64
    ensures { result ≡ in_64 (least_rate rate content.now) }
{
    let axis = &content.axis;
    let least = least_of(axis, &content.scheduler, u128::from(rate));
    capped(least_of(axis, &content.fifo, least))
}

/// The least rate above 0 in the bins of some lines, and at most the one given.
fn least_of(axis: &Axis, curves: &[Curve], rate: u128) -> u128
    ensures { result ≡ least_rate_of_all axis.now.width rate curves.now }
{
    let mut least = rate;
    for curve in curves {
        least = least_in(axis, curve.bins(), least);
    }
    least
}

/// The least rate above 0 in some bins, and at most the one given.
fn least_in(axis: &Axis, bins: &[Bin], rate: u128) -> u128
    ensures { result ≡ least_rate_in axis.now.width rate bins.now }
{
    let mut least = rate;
    for bin in bins {
        least = lower(least, rate_of(axis, bin));
    }
    least
}

/// The lower of two rates, of which the second one counts if it is above 0.
fn lower(least: u128, rate: u128) -> u128
    ensures { result ≡ lower_rate least rate }
{
    if rate == 0 { least } else { least.min(rate) }
}
