//! What happened to packets in each bin of time.

ghost use Rattle.std.specs.Prelude.{◌≡◌, ◌≤◌, ◌∷◌, ◌++◌, [], List, IfOk, length};
ghost use Rattle.link_report.specs.declared.packets.PacketRecord.{PacketRecord};
ghost use Rattle.link_report.specs.declared.summary.TheConstants.{MAX_EVENTS};
ghost use Rattle.link_report.specs.Packets.{sent_len};
ghost use Rattle.link_picture.specs.Bins.{LeavesRoom, bin_of, bins_of, longer};

use crate::axis::Axis;
use crate::counts::Counts;
use journal_core::Memory;
use link_report::PacketRecord;
use std::alloc::Global;

/// What happened in a bin of time.
#[derive(Clone, Copy, Debug, PartialEq, Eq)]
pub struct Bin {
    /// The longest wait of the packets sent in it, in microseconds, if one was sent.
    pub longest: Option<u64>,
    /// The lengths of the packets sent in it, added up.
    pub sent_bytes: u64,
    /// How many packets were dropped in it, by cause, and how many were sent in it with a mark.
    pub counts: Counts,
}

impl Bin {
    /// Nothing happened.
    pub fn empty() -> Bin
        ensures { result ≡ bin_of [] }
    {
        Bin {
            longest: None,
            sent_bytes: 0,
            counts: Counts::none(),
        }
    }

    /// With a packet more, of whose length so much was sent, and whose fate came in the bin.
    fn with(&self, packet: &PacketRecord, len: u16) -> Bin
        requires { len ≡ sent_len packet.now }
        ensures { (packets : List PacketRecord) → LeavesRoom packets → self.now ≡ bin_of packets
            → result ≡ bin_of (packets ++ packet.now ∷ []) }
    {
        Bin {
            longest: longer(self.longest, packet.delay_sent()),
            sent_bytes: self.sent_bytes.saturating_add(u64::from(len)),
            counts: self.counts.with(packet),
        }
    }
}

/// The longer of two waits.
fn longer(one: Option<u64>, other: Option<u64>) -> Option<u64>
    ensures { result ≡ longer one other }
{
    match one {
        Some(one) => match other {
            Some(other) => Some(one.max(other)),
            None => Some(one),
        },
        None => other,
    }
}

/// What happened to these packets in each bin: each counts where its fate came. There are at most `MAX_EVENTS`. It fails
/// for want of memory alone.
pub fn bins_of(alloc: Global, axis: &Axis, packets: &[PacketRecord]) -> Result<Vec<Bin>, Memory>
    requires { length packets.now ≤ MAX_EVENTS }
    ensures { IfOk result (λ bins. bins.items ≡ bins_of axis.now packets.now) }
{
    let mut bins = empty_bins(alloc, axis)?;
    for packet in packets {
        let len = packet.sent_len();
        add(&mut bins, axis, packet, len);
    }
    Ok(bins)
}

/// Bins in which nothing happened.
fn empty_bins(alloc: Global, axis: &Axis) -> Result<Vec<Bin>, Memory>
    ensures { IfOk result (λ bins. bins.items ≡ bins_of axis.now []) }
{
    let mut bins = Vec::new(alloc);
    for _place in 0..axis.count {
        bins.push(Bin::empty())?;
    }
    Ok(bins)
}

/// Adds a packet, of whose length so much was sent, to the bin in which its fate came, if the axis has that.
fn add(bins: &mut Vec<Bin>, axis: &Axis, packet: &PacketRecord, len: u16)
    requires { len ≡ sent_len packet.now }
    ensures { (packets : List PacketRecord) → LeavesRoom packets → bins.old.items ≡ bins_of axis.now packets
        → bins.new.items ≡ bins_of axis.now (packets ++ packet.now ∷ []) }
{
    let number = packet.last_moment() / axis.width;
    if number < axis.first {
        return;
    }
    let place = number - axis.first;
    if place < bins.len() as u64 {
        let bin = bins[place as usize];
        bins[place as usize] = bin.with(packet, len);
    }
}
