//! The points of a picture, from the bins and the percentiles of its lines.

ghost use Rattle.std.specs.Prelude.{◌≡◌, ◌<◌, ◌≤◌, ◌+◌, ◌-◌, ◌*◌, ◌/◌, ◌^◌, min, IfOk};
ghost use Rattle.link_picture.specs.Axes.{in_64};
ghost use Rattle.link_picture.specs.Points.{bin_x, part_of, bin_rate_of, rate_part, rate_point, rate_points, scale_part, share_point, share_points, wait_part, wait_point, wait_points};

use crate::axis::Axis;
use crate::bins::Bin;
use crate::layout::{
    PANEL_HEIGHT, PANEL_LEFT, PANEL_WIDTH, RATE_BOTTOM, SHARE_BOTTOM, WAIT_BOTTOM,
};
use crate::octaves::octave;
use crate::scales::{RateScale, WaitScale};
use journal_core::Memory;
use std::alloc::Global;

/// A point of a picture, in pixels from its left and its upper edge.
#[derive(Clone, Copy, Debug, PartialEq, Eq)]
pub struct Point {
    /// The distance from the left edge.
    pub x: u64,
    /// The distance from the upper edge.
    pub y: u64,
}

/// The part of an extent that an amount is of a whole, rounded down; all of it where the amount is greater.
#[tactic(auto, unfolding(crate::specs::Points::part_of))]
fn part_of(amount: u128, whole: u64, extent: u64) -> u64
    requires some { 0 < whole }
    requires small { extent < 2 ^ 16 }
    ensures value { result ≡ part_of amount whole extent }
    ensures bound { result ≤ extent }
{
    let amount = amount.min(u128::from(whole));
    (amount * u128::from(extent) / u128::from(whole)) as u64
}

/// How far along an extent a value is, on a scale between two of `octave`.
fn scale_part(low: u64, high: u64, extent: u64, value: u64) -> u64
    requires wide { low < high }
    requires small { extent < 2 ^ 16 }
    ensures value { result ≡ scale_part low high extent value }
    ensures bound { result ≤ extent }
{
    let above = octave(value.max(1)).saturating_sub(low);
    part_of(u128::from(above), high - low, extent)
}

/// How far along an extent a delay is, on the scale.
fn wait_part(scale: &WaitScale, extent: u64, wait: u64) -> u64
    requires { extent < 2 ^ 16 }
    ensures value { result ≡ wait_part scale.now extent wait }
    ensures bound { result ≤ extent }
{
    scale_part(scale.low, scale.high, extent, wait)
}

/// How far along an extent a rate is, on the scale.
fn rate_part(scale: &RateScale, extent: u64, rate: u128) -> u64
    requires { extent < 2 ^ 16 }
    ensures value { result ≡ rate_part scale.now extent rate }
    ensures bound { result ≤ extent }
{
    scale_part(scale.low, scale.high, extent, capped(rate))
}

/// A rate, and the greatest one of 64 bits if it is above that.
pub(crate) fn capped(rate: u128) -> u64
    ensures { result ≡ in_64 rate }
{
    u64::try_from(rate).unwrap_or(u64::MAX)
}

/// Where the bin at a place among so many is, from the left edge.
pub fn bin_x(count: u64, place: u64) -> u64
    ensures value { result ≡ bin_x count place }
    ensures bound { result ≤ PANEL_LEFT + PANEL_WIDTH }
{
    let last = count.saturating_sub(1).max(1);
    PANEL_LEFT + part_of(u128::from(place), last, PANEL_WIDTH)
}

/// Where a time is that so many microseconds have passed from the start of the first bin, from the left edge.
pub fn time_x(axis: &Axis, time: u64) -> u64
    ensures { result ≤ PANEL_LEFT + PANEL_WIDTH }
{
    let length = axis.count.saturating_sub(1).saturating_mul(axis.width);
    PANEL_LEFT + part_of(u128::from(time), length.max(1), PANEL_WIDTH)
}

/// Where a delay is in the panel of the longest delays, from the upper edge.
pub fn wait_y(scale: &WaitScale, wait: u64) -> u64
    ensures { result ≡ WAIT_BOTTOM - wait_part scale.now PANEL_HEIGHT wait }
{
    WAIT_BOTTOM - wait_part(scale, PANEL_HEIGHT, wait)
}

/// Where a delay is in the panel of the distribution, from the left edge.
pub fn wait_x(scale: &WaitScale, wait: u64) -> u64
    ensures { result ≡ PANEL_LEFT + wait_part scale.now PANEL_WIDTH wait }
{
    PANEL_LEFT + wait_part(scale, PANEL_WIDTH, wait)
}

/// Where a percentage is in the panel of the distribution, from the upper edge.
pub fn share_y(percent: u64) -> u64
    ensures { result ≡ SHARE_BOTTOM - part_of percent 100 PANEL_HEIGHT }
{
    SHARE_BOTTOM - part_of(u128::from(percent), 100, PANEL_HEIGHT)
}

/// Where a rate is in the panel of the throughput, from the upper edge.
pub fn rate_y(scale: &RateScale, rate: u128) -> u64
    ensures { result ≡ RATE_BOTTOM - rate_part scale.now PANEL_HEIGHT rate }
{
    RATE_BOTTOM - rate_part(scale, PANEL_HEIGHT, rate)
}

/// What was sent in a bin, in bits per second, rounded down.
pub fn rate_of(axis: &Axis, bin: &Bin) -> u128
    ensures { result ≡ bin_rate_of axis.now.width bin.now }
{
    u128::from(bin.sent_bytes) * 8_000_000 / u128::from(axis.width)
}

/// The points of the longest delays, one for each bin in which a packet was sent. It fails only if it is out of memory.
pub fn wait_points(
    alloc: Global,
    axis: &Axis,
    scale: &WaitScale,
    bins: &[Bin],
) -> Result<Vec<Option<Point>>, Memory>
    ensures { IfOk result (λ points. points.items ≡ wait_points scale.now axis.now.count 0 bins.now) }
{
    let mut points = Vec::new(alloc);
    for (place, bin) in bins.iter().enumerate() {
        points.push(wait_point(axis, scale, place as u64, bin))?;
    }
    Ok(points)
}

/// The point of the longest delay in a bin, if a packet was sent in it.
fn wait_point(axis: &Axis, scale: &WaitScale, place: u64, bin: &Bin) -> Option<Point>
    ensures { result ≡ wait_point scale.now axis.now.count place bin.now }
{
    match bin.longest {
        Some(wait) => Some(Point {
            x: bin_x(axis.count, place),
            y: wait_y(scale, wait),
        }),
        None => None,
    }
}

/// The points of the distribution of delays, one for each percentile. It fails only if it is out of memory.
pub fn share_points(
    alloc: Global,
    scale: &WaitScale,
    percentiles: &[u64],
) -> Result<Vec<Point>, Memory>
    ensures { IfOk result (λ points. points.items ≡ share_points scale.now 0 percentiles.now) }
{
    let mut points = Vec::new(alloc);
    for (percent, wait) in percentiles.iter().enumerate() {
        points.push(Point {
            x: wait_x(scale, *wait),
            y: share_y(percent as u64),
        })?;
    }
    Ok(points)
}

/// The points of the throughput, one for each bin. It fails only if it is out of memory.
pub fn rate_points(
    alloc: Global,
    axis: &Axis,
    scale: &RateScale,
    bins: &[Bin],
) -> Result<Vec<Point>, Memory>
    ensures { IfOk result (λ points. points.items ≡ rate_points scale.now axis.now 0 bins.now) }
{
    let mut points = Vec::new(alloc);
    for (place, bin) in bins.iter().enumerate() {
        points.push(Point {
            x: bin_x(axis.count, place as u64),
            y: rate_y(scale, rate_of(axis, bin)),
        })?;
    }
    Ok(points)
}
