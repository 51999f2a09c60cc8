//! The statistics of a queue disc, which go on over renewals.

ghost use Rattle.std.specs.Prelude.{◌≡◌, ◌+◌, ◌<◌, ◌^◌};
ghost use Rattle.queue_disc_core.specs.QueueDiscTotals.{IsFlushedWithin, HasGrown, more_flushed, no_totals, nothing_flushed, totals_by};

use sched_core::Totals;

/// What became of the packets, as counts and sums over all that were handed in. Lengths are in bytes. Counts of packets
/// are exact. Sums of bytes and counts of marks stay at 2^64 - 1 once they reach it.
#[derive(Clone, Copy, Debug, PartialEq, Eq, Default)]
pub struct QueueDiscTotals {
    /// Packets accepted.
    pub accepted: u64,
    /// The sum of their lengths.
    pub accepted_bytes: u64,
    /// Packets sent, without those that were flushed.
    pub sent: u64,
    /// The sum of their lengths.
    pub sent_bytes: u64,
    /// Packets that CoDel dropped.
    pub dropped_codel: u64,
    /// Packets dropped since more waited than the limits allow, of packets or of bytes.
    pub dropped_overflow: u64,
    /// The sum of the lengths of all dropped packets.
    pub dropped_bytes: u64,
    /// Packets sent with a mark of CoDel's, without those that were flushed.
    pub marked: u64,
    /// Packets sent with a mark for the threshold, and none of CoDel's, without those that were flushed.
    pub threshold_marked: u64,
    /// Packets flushed.
    pub flushed: u64,
    /// The sum of their lengths.
    pub flushed_bytes: u64,
    /// Packets that wait.
    pub queued: u64,
    /// The sum of their lengths.
    pub queued_bytes: u64,
    /// Whether there was a close.
    pub closed: bool,
}

/// What a scheduler counts as sent and was flushed.
#[derive(Clone, Copy, Debug, PartialEq, Eq)]
pub(crate) struct FlushedCounts {
    pub(crate) packets: u64,
    pub(crate) bytes: u64,
    pub(crate) marked: u64,
    pub(crate) threshold_marked: u64,
}

impl FlushedCounts {
    /// Nothing was flushed.
    pub(crate) fn none() -> FlushedCounts
        ensures { result ≡ nothing_flushed }
    {
        FlushedCounts {
            packets: 0,
            bytes: 0,
            marked: 0,
            threshold_marked: 0,
        }
    }

    /// All that a scheduler counted as sent from one point to another was flushed, too.
    pub(crate) fn and(&self, before: &Totals, after: &Totals) -> FlushedCounts
        requires within { IsFlushedWithin self.now before.now }
        requires grown { HasGrown before.now after.now }
        ensures { result ≡ more_flushed self.now before.now after.now }
    {
        FlushedCounts {
            packets: self.packets + (after.sent - before.sent),
            bytes: self.bytes + (after.sent_bytes - before.sent_bytes),
            marked: self.marked + (after.marked - before.marked),
            threshold_marked: self.threshold_marked
                + (after.threshold_marked - before.threshold_marked),
        }
    }
}

impl QueueDiscTotals {
    /// Nothing was handed in.
    pub(crate) fn none() -> QueueDiscTotals
        ensures { result ≡ no_totals }
    {
        QueueDiscTotals::default()
    }

    /// These of earlier schedulers, and those of the scheduler that goes on, of which so much was flushed.
    pub(crate) fn and(&self, now: &Totals, flushed_counts: &FlushedCounts) -> QueueDiscTotals
        requires accepted { self.now.accepted + now.now.accepted < 2 ^ 64 }
        requires sent { self.now.sent + now.now.sent < 2 ^ 64 }
        requires dropped { self.now.dropped_codel + now.now.dropped_codel < 2 ^ 64 }
        requires overflow { self.now.dropped_overflow + now.now.dropped_overflow < 2 ^ 64 }
        requires flushed { self.now.flushed + flushed_counts.now.packets < 2 ^ 64 }
        requires within { IsFlushedWithin flushed_counts.now now.now }
        ensures { result ≡ totals_by self.now now.now flushed_counts.now }
    {
        QueueDiscTotals {
            accepted: self.accepted + now.accepted,
            accepted_bytes: self.accepted_bytes.saturating_add(now.accepted_bytes),
            sent: self.sent + (now.sent - flushed_counts.packets),
            sent_bytes: self
                .sent_bytes
                .saturating_add(now.sent_bytes - flushed_counts.bytes),
            dropped_codel: self.dropped_codel + now.dropped_codel,
            dropped_overflow: self.dropped_overflow + now.dropped_overflow,
            dropped_bytes: self.dropped_bytes.saturating_add(now.dropped_bytes),
            marked: self
                .marked
                .saturating_add(now.marked - flushed_counts.marked),
            threshold_marked: self
                .threshold_marked
                .saturating_add(now.threshold_marked - flushed_counts.threshold_marked),
            flushed: self.flushed + flushed_counts.packets,
            flushed_bytes: self.flushed_bytes.saturating_add(flushed_counts.bytes),
            queued: now.queued,
            queued_bytes: now.queued_bytes,
            closed: now.closed,
        }
    }
}
