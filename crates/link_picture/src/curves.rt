//! What a picture shows of each line of a queue.

ghost use Rattle.std.specs.Prelude.{◌≡◌, ◌≤◌, IfOk, length};
ghost use Rattle.link_report.specs.declared.summary.TheConstants.{MAX_EVENTS};
ghost use Rattle.link_picture.specs.Percentages.{percentiles_of};
ghost use Rattle.link_picture.specs.Curves.{curve_of, curves_of};

use crate::axis::Axis;
use crate::bins::{Bin, bins_of};
use crate::counts::Counts;
use crate::lines::packets_on;
use journal_core::Memory;
use link_report::{PacketRecord, delays_of, percentile};
use std::alloc::Global;
use std::marker::Model;

/// How many percentiles a curve has: those from 0 to 100.
const PERCENTILES: u8 = 101;

/// What a picture shows of a line.
#[derive(Drop)]
pub struct Curve {
    bins: Vec<Bin>,
    percentiles: Vec<u64>,
    counts: Counts,
}

impl Model for Curve {
    ghost use Rattle.link_picture.specs.Percentages.{CurveParts};

    ghost Value = { CurveParts };

    ghost view = { λ c. record { bins = c.bins.items; percentiles = c.percentiles.items; counts = c.counts } };
}

impl Curve {
    /// What a picture shows of these packets, of which there are at most `MAX_EVENTS`. It fails for want of memory alone.
    pub fn of(alloc: Global, axis: &Axis, packets: &[PacketRecord]) -> Result<Curve, Memory>
        requires { length packets.now ≤ MAX_EVENTS }
        ensures { IfOk result (λ curve. curve ≡ curve_of axis.now packets.now) }
    {
        Ok(Curve {
            bins: bins_of(alloc, axis, packets)?,
            percentiles: percentiles_of(alloc, delays_of(alloc, packets)?)?,
            counts: Counts::of(packets),
        })
    }

    /// What happened in each bin.
    pub fn bins(&self) -> &[Bin]
        ensures { result.now ≡ self.now.bins }
    {
        &self.bins
    }

    /// The percentiles from 0 to 100 of the waits of the packets sent, in microseconds. There are none where none was
    /// sent.
    pub fn percentiles(&self) -> &[u64]
        ensures { result.now ≡ self.now.percentiles }
    {
        &self.percentiles
    }

    /// How many packets were dropped, by cause, and how many were marked.
    pub fn counts(&self) -> Counts
        ensures { result ≡ self.now.counts }
    {
        self.counts
    }
}

/// What a picture shows of each of so many lines of these packets, of which there are at most `MAX_EVENTS`. It fails for
/// want of memory alone.
pub fn curves_of(
    alloc: Global,
    axis: &Axis,
    chosen: &[u64],
    lines: usize,
    packets: &[PacketRecord],
) -> Result<Vec<Curve>, Memory>
    requires { length packets.now ≤ MAX_EVENTS }
    ensures { IfOk result (λ curves. curves.items ≡ curves_of axis.now chosen.now lines packets.now) }
{
    let mut curves = Vec::new(alloc);
    for line in 0..lines {
        let own = packets_on(alloc, chosen, line, packets)?;
        let curve = Curve::of(alloc, axis, &own)?;
        curves.push(curve)?;
    }
    Ok(curves)
}

/// The percentiles from 0 to 100 of delays, and none where there is no delay.
fn percentiles_of(alloc: Global, mut delays: Vec<u64>) -> Result<Vec<u64>, Memory>
    requires { length delays.items ≤ MAX_EVENTS }
    ensures { IfOk result (λ percentiles. percentiles.items ≡ percentiles_of PERCENTILES delays.items) }
{
    let mut percentiles = Vec::new(alloc);
    if delays.is_empty() {
        return Ok(percentiles);
    }
    delays.sort()?;
    for percent in 0..PERCENTILES {
        percentiles.push(percentile(&delays, percent))?;
    }
    Ok(percentiles)
}
