//! The statistics of a journal.

/// What became of the packets, as counts and sums over the journal. Lengths are in bytes.
#[derive(Clone, Copy, Debug, PartialEq, Eq, Default)]
pub struct Totals {
    /// Packets accepted.
    pub accepted: u64,
    /// The sum of their lengths.
    pub accepted_bytes: u64,
    /// Packets sent.
    pub sent: u64,
    /// The sum of their lengths.
    pub sent_bytes: u64,
    /// Packets that CoDel dropped.
    pub dropped_codel: u64,
    /// Packets dropped since more waited than the limits allow, of packets or of bytes.
    pub dropped_overflow: u64,
    /// The sum of the lengths of all dropped packets.
    pub dropped_bytes: u64,
    /// Packets sent with a mark of CoDel's.
    pub marked: u64,
    /// Packets sent with a mark for the threshold, and none of CoDel's.
    pub threshold_marked: u64,
    /// Packets that wait.
    pub queued: u64,
    /// The sum of their lengths.
    pub queued_bytes: u64,
    /// Whether there was a close.
    pub closed: bool,
}
