//! What became of some packets, in numbers.

ghost use Rattle.std.specs.Prelude.{◌≡◌, ◌^◌, ◌<◌, ◌≤◌, ◌+◌, ◌/◌, ℕ, IfOk, OnOk, length, sum, sum_by, count_by};
ghost use Rattle.std.specs.List.{filter_map};
ghost use Rattle.link_report.specs.Packets as Packets;
ghost use Rattle.link_report.specs.Summaries.{delays_of, rate_of, spread_of, summary_of};

use crate::packets::PacketRecord;
use crate::percentiles::percentile;
use journal_core::Memory;
use std::alloc::Global;

/// The most events of a journal that a table sums up: 2^25. So no sum of lengths leaves 64 bits.
pub const MAX_EVENTS: usize = 33_554_432;

/// How long packets waited that were sent, in microseconds.
#[derive(Clone, Copy, Debug, PartialEq, Eq)]
pub struct Delays {
    /// The least.
    pub min: u64,
    /// The mean, rounded down.
    pub mean: u64,
    /// The least that half of all are at most.
    pub p50: u64,
    /// The least that 95 in 100 are at most.
    pub p95: u64,
    /// The least that 99 in 100 are at most.
    pub p99: u64,
    /// The greatest.
    pub max: u64,
}

/// What became of some packets.
#[derive(Clone, Copy, Debug, PartialEq, Eq)]
pub struct Summary {
    /// Packets that arrived.
    pub packets: u64,
    /// Their lengths, added up.
    pub bytes: u64,
    /// Packets sent.
    pub sent: u64,
    /// Their lengths, added up.
    pub sent_bytes: u64,
    /// Packets that CoDel dropped.
    pub dropped_codel: u64,
    /// Packets that overflowed.
    pub dropped_overflow: u64,
    /// Packets sent with a mark, of either kind.
    pub marked: u64,
    /// The delays of the packets sent, if any was sent.
    pub delays: Option<Delays>,
    /// What was sent in a second, in bits, rounded down. None where the run took no time.
    pub rate: Option<u64>,
}

/// What became of some packets of a run that took so many microseconds. It fails for want of memory alone.
pub fn summarize(alloc: Global, span: u64, packets: &[PacketRecord]) -> Result<Summary, Memory>
    requires { length packets.now ≤ MAX_EVENTS }
    ensures { IfOk result (λ summary. summary ≡ summary_of span packets.now) }
{
    let delays = delays_of(alloc, packets)?;
    let sent_bytes = sent_bytes(packets);
    Ok(Summary {
        packets: packets.len() as u64,
        bytes: bytes(packets),
        sent: count_sent(packets),
        sent_bytes,
        dropped_codel: count_codel_drops(packets),
        dropped_overflow: count_overflow_drops(packets),
        marked: count_marked(packets),
        delays: spread(delays)?,
        rate: rate(span, sent_bytes),
    })
}

/// How many packets were sent.
fn count_sent(packets: &[PacketRecord]) -> u64
    ensures { result ≡ count_by Packets.is_sent packets.now }
{
    packets.iter().filter(|p| p.is_sent()).count() as u64
}

/// How many packets CoDel dropped.
fn count_codel_drops(packets: &[PacketRecord]) -> u64
    ensures { result ≡ count_by Packets.is_codel_drop packets.now }
{
    packets.iter().filter(|p| p.is_codel_drop()).count() as u64
}

/// How many packets overflowed.
fn count_overflow_drops(packets: &[PacketRecord]) -> u64
    ensures { result ≡ count_by Packets.is_overflow_drop packets.now }
{
    packets.iter().filter(|p| p.is_overflow_drop()).count() as u64
}

/// How many packets were sent with a mark.
fn count_marked(packets: &[PacketRecord]) -> u64
    ensures { result ≡ count_by Packets.is_marked packets.now }
{
    packets.iter().filter(|p| p.is_marked()).count() as u64
}

/// The lengths of packets, added up.
fn bytes(packets: &[PacketRecord]) -> u64
    requires { length packets.now ≤ MAX_EVENTS }
    ensures { result ≡ sum_by (λ p. p.len) packets.now }
{
    let mut total = 0;
    for packet in packets {
        total += u64::from(packet.len);
    }
    total
}

/// The lengths of the packets that were sent, added up.
fn sent_bytes(packets: &[PacketRecord]) -> u64
    requires { length packets.now ≤ MAX_EVENTS }
    ensures value { result ≡ sum_by Packets.sent_len packets.now }
    ensures bound { result < 2 ^ 41 }
{
    let mut total = 0;
    for packet in packets {
        total += u64::from(packet.sent_len());
    }
    total
}

/// The delays of the packets that were sent, in microseconds, in their order. It fails for want of memory alone.
pub fn delays_of(alloc: Global, packets: &[PacketRecord]) -> Result<Vec<u64>, Memory>
    ensures { IfOk result (λ delays. delays.items ≡ delays_of packets.now) }
{
    let mut delays = Vec::new(alloc);
    for packet in packets {
        if let Some(delay) = packet.delay_sent() {
            delays.push(delay)?;
        }
    }
    Ok(delays)
}

/// How delays lie, if there is one.
fn spread(mut delays: Vec<u64>) -> Result<Option<Delays>, Memory>
    requires { length delays.items ≤ MAX_EVENTS }
    ensures { IfOk result (λ spread. spread ≡ spread_of delays.items) }
{
    if delays.is_empty() {
        return Ok(None);
    }
    let mean = mean(&delays);
    delays.sort()?;
    Ok(Some(Delays {
        min: percentile(&delays, 0),
        mean,
        p50: percentile(&delays, 50),
        p95: percentile(&delays, 95),
        p99: percentile(&delays, 99),
        max: percentile(&delays, 100),
    }))
}

/// The mean of some numbers, rounded down.
fn mean(numbers: &[u64]) -> u64
    requires some { 0 < length numbers.now }
    requires few { length numbers.now ≤ MAX_EVENTS }
    ensures { result ≡ sum numbers.now / length numbers.now }
{
    let mut total = 0u128;
    for number in numbers {
        total += u128::from(*number);
    }
    (total / numbers.len() as u128) as u64
}

/// The rate of so many bytes in so many microseconds, in bits a second.
fn rate(span: u64, bytes: u64) -> Option<u64>
    requires { bytes < 2 ^ 41 }
    ensures { result ≡ rate_of span bytes }
{
    if span == 0 {
        None
    } else {
        Some(bytes * 8_000_000 / span)
    }
}
