//! The entries of a journal.

ghost use Rattle.std.specs.Prelude.{◌≡◌};
ghost use Rattle.journal_core.specs.Steps.{accepted_event, drop_event, sent_event};

use codel_core::{Mark, Served};
use packet_core::{Ecn, Packet, Waiting};

/// Why a packet was dropped.
#[derive(Clone, Copy, Debug, PartialEq, Eq)]
pub enum Cause {
    /// CoDel found that it had waited too long (RFC 8289).
    Codel,
    /// More waited than a limit allows, of packets or of bytes (RFC 8290, section 4.1).
    Overflow,
}

/// One entry of the journal. Moments are in microseconds, and ids count acceptances from 0.
#[derive(Clone, Copy, Debug, PartialEq, Eq)]
pub enum Event {
    /// A packet was accepted into the queue of a flow.
    Accepted {
        /// The lane that it came from.
        // It stands first, in the place behind the mark of the variant.
        lane: u32,
        /// The packet's id.
        id: u64,
        /// The moment of the enqueue.
        moment: u64,
        /// The flow.
        flow: u32,
        /// The packet as it came.
        packet: Packet,
    },
    /// A packet was given to the device.
    Sent {
        /// The id that it was accepted with.
        id: u64,
        /// The moment of the dequeue.
        moment: u64,
        /// Its ECN field as sent.
        ecn: Ecn,
        /// What set that field.
        mark: Mark,
    },
    /// A packet was dropped.
    Dropped {
        /// The id that it was accepted with.
        id: u64,
        /// The moment of the step that dropped it.
        moment: u64,
        /// Why.
        cause: Cause,
    },
    /// The close.
    Closed {
        /// Its moment.
        moment: u64,
    },
}

impl Event {
    /// That of a packet which is accepted from a lane into the queue of a flow.
    #[inline(always)]
    pub fn acceptance(packet: &Waiting, lane: u32, flow: u32) -> Event
        ensures { result ≡ accepted_event lane flow packet.now }
    {
        Event::Accepted {
            lane,
            id: packet.id,
            moment: packet.stamp,
            flow,
            packet: packet.packet,
        }
    }

    /// That of a packet which goes to the device at a moment.
    #[inline(always)]
    pub fn departure(served: &Served, moment: u64) -> Event
        ensures { result ≡ sent_event moment served.now.mark served.now.waiting }
    {
        Event::Sent {
            id: served.waiting.id,
            moment,
            ecn: served.waiting.packet.ecn(),
            mark: served.mark,
        }
    }

    /// That of a packet which is dropped at a moment.
    #[inline(always)]
    pub fn loss(packet: &Waiting, moment: u64, cause: Cause) -> Event
        ensures { result ≡ drop_event moment cause packet.now }
    {
        Event::Dropped {
            id: packet.id,
            moment,
            cause,
        }
    }
}

const _: () = prove!(size_of::<Event>() == 80);
