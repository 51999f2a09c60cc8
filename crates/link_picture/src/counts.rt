//! How many packets were dropped, by cause, and how many were marked.

ghost use Rattle.std.specs.Prelude.{◌≡◌, ◌<◌, ◌≤◌, ◌^◌, ◌+◌, ◌-◌, ◌∷◌, ◌++◌, [], List, cond, length, min};
ghost use Rattle.link_report.specs.declared.packets.PacketRecord.{PacketRecord};
ghost use Rattle.link_report.specs.declared.summary.TheConstants.{MAX_EVENTS};
ghost use Rattle.link_picture.specs.Counts.{counts_of};

use link_report::PacketRecord;

/// Numbers of packets.
#[derive(Clone, Copy, Debug, PartialEq, Eq)]
pub struct Counts {
    /// Those that CoDel dropped.
    pub codel_drops: u64,
    /// Those that were dropped because a queue was full.
    pub overflow_drops: u64,
    /// Those that were sent with a CE mark of either kind: CoDel's, or that of `ce_threshold`.
    pub marks: u64,
}

impl Counts {
    /// The counts of no packet.
    pub fn none() -> Counts
        ensures { result ≡ counts_of [] }
    {
        Counts {
            codel_drops: 0,
            overflow_drops: 0,
            marks: 0,
        }
    }

    /// The counts with one packet more.
    pub(crate) fn with(&self, packet: &PacketRecord) -> Counts
        ensures { (packets : List PacketRecord) → length packets < 2 ^ 63 → self.now ≡ counts_of packets
            → result ≡ counts_of (packets ++ packet.now ∷ []) }
    {
        Counts {
            codel_drops: counted(self.codel_drops, packet.is_codel_drop()),
            overflow_drops: counted(self.overflow_drops, packet.is_overflow_drop()),
            marks: counted(self.marks, packet.is_marked()),
        }
    }

    /// The counts of these packets, of which there are at most `MAX_EVENTS`.
    pub fn of(packets: &[PacketRecord]) -> Counts
        requires { length packets.now ≤ MAX_EVENTS }
        ensures { result ≡ counts_of packets.now }
    {
        let mut counts = Counts::none();
        for packet in packets {
            counts = counts.with(packet);
        }
        counts
    }
}

/// A count, and one more if the condition holds.
fn counted(count: u64, holds: bool) -> u64
    ensures { result ≡ min (count + cond holds 1 0) (2 ^ 64 - 1) }
{
    if holds {
        count.saturating_add(1)
    } else {
        count
    }
}
