//! Marks in vain. Arrivals are open loop, so no sender slows down at a mark, and the queue grows as it would by a FIFO.

ghost use Rattle.std.specs.Prelude.{◌≡◌, ◌-◌, ◌^◌, IfOk, length, map, replicate};
ghost use Rattle.std.specs.List.{position_or_len};
ghost use Rattle.link_report.specs.Groups.{groups_from};
ghost use Rattle.link_command.specs.Marks.{AreCountable, IsCountable, counted, counts_of, is_in_vain, is_late, vain_place, with_counted};

use journal_core::Memory;
use link_report::{PacketRecord, Packets};
use packet_core::FiveTuple;
use std::alloc::Global;

/// The packets of a five-tuple that were sent.
#[derive(Clone, Copy, Debug, PartialEq, Eq)]
pub(crate) struct Counts {
    /// How many they are.
    sent: u64,
    /// How many of them have a mark, of either kind.
    marked: u64,
    /// How many of them waited longer than the interval.
    late: u64,
}

/// No packet was sent.
const NONE_SENT: Counts = Counts {
    sent: 0,
    marked: 0,
    late: 0,
};

impl Counts {
    /// Counts a packet, if it was sent.
    fn count(&mut self, packet: &PacketRecord, interval: u64)
        requires { IsCountable (2 ^ 64 - 1) self.old }
        ensures { self.new ≡ counted interval self.old packet.now }
    {
        if packet.is_sent() {
            self.sent += 1;
        }
        if packet.is_marked() {
            self.marked += 1;
        }
        if is_late(packet, interval) {
            self.late += 1;
        }
    }

    /// Whether more than half of them are marked and more than one in 100 waited longer than the interval. So the 99th
    /// percentile of their delays is above the interval.
    fn are_in_vain(&self) -> bool
        ensures { result ≡ is_in_vain self.now }
    {
        self.sent / 2 < self.marked && self.sent / 100 < self.late
    }
}

/// Whether a packet was sent that waited longer than so many microseconds.
fn is_late(packet: &PacketRecord, interval: u64) -> bool
    ensures { result ≡ is_late interval packet.now }
{
    match packet.delay_sent() {
        Some(delay) => interval < delay,
        None => false,
    }
}

/// The number of the first five-tuple whose marks are in vain, and that of all five-tuples where there is none. It
/// fails only if it is out of memory.
pub(crate) fn vain_place(alloc: Global, interval: u64, packets: &Packets) -> Result<usize, Memory>
    ensures { IfOk result (λ place. place ≡ vain_place interval packets.now) }
{
    let counts = counts_of(alloc, interval, packets)?;
    Ok(first_in_vain(&counts))
}

/// The place of the first counts of which marks are in vain, and their number where there are none.
fn first_in_vain(counts: &[Counts]) -> usize
    ensures { result ≡ position_or_len is_in_vain counts.now }
{
    for (place, own) in counts.iter().enumerate() {
        if own.are_in_vain() {
            return place;
        }
    }
    counts.len()
}

/// The counts of the packets of each five-tuple, in their order.
fn counts_of(alloc: Global, interval: u64, packets: &Packets) -> Result<Vec<Counts>, Memory>
    ensures { IfOk result (λ counts. counts.items
        ≡ map (counts_of interval) (groups_from 0 packets.now.packets packets.now.tuples)) }
{
    let mut counts = no_counts(alloc, packets.tuples())?;
    for packet in packets.records() {
        count(&mut counts, packet, interval);
    }
    Ok(counts)
}

/// For each five-tuple that none of its packets was sent.
fn no_counts(alloc: Global, tuples: &[FiveTuple]) -> Result<Vec<Counts>, Memory>
    ensures { IfOk result (λ counts. counts.items ≡ replicate (length tuples.now) NONE_SENT) }
{
    vec![in alloc; NONE_SENT; tuples.len()]
}

/// Counts a packet among those of its five-tuple.
fn count(counts: &mut Vec<Counts>, packet: &PacketRecord, interval: u64)
    requires { AreCountable (2 ^ 64 - 1) counts.old.items }
    ensures { counts.new.items ≡ with_counted interval counts.old.items packet.now.tuple packet.now }
{
    let number = packet.tuple as usize;
    if number < counts.len() {
        counts[number].count(packet, interval);
    }
}
