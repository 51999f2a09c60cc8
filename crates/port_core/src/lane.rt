//! The device's end of a lane.

ghost use Rattle.std.specs.Prelude.{◌≡◌, ◌++◌, ◌∷◌, ◌<◌, [], length, IfSome, IfNone, true, false};

use crate::lane_sender::LaneEnd;
use packet_core::Packet;
use rtrb::Consumer;
use std::marker::Model;

/// The device's end of a lane. Contracts see its ring, the packets that came out of it, those that are known to stand
/// in it, and whether it is settled: then no other packet can follow.
#[derive(Drop)]
pub(crate) struct Lane {
    consumer: Consumer<Packet>,
    settled: bool,
}

impl Model for Lane {
    ghost use Rattle.port_core.specs.Lanes.{LaneView, ring_of};
    ghost use Rattle.rtrb.specs.Ring.{known_items, received};

    ghost Value = { LaneView };

    ghost view = { λ l. record {
      ring = ring_of l.consumer.end;
      received = received l.consumer;
      known = known_items l.consumer;
      settled = l.settled;
    } };
}

impl Lane {
    ghost use Rattle.port_core.specs.Lanes.{LaneView, ring_of};
    ghost use Rattle.rtrb.specs.Ring.{known_items, received};

    /// A lane that isn't settled.
    pub(crate) fn new(consumer: Consumer<Packet>) -> Lane
        ensures { result ≡ record {
          ring = ring_of consumer.end;
          received = received consumer;
          known = known_items consumer;
          settled = false;
        } }
    {
        Lane {
            consumer,
            settled: false,
        }
    }

    /// The next packet, where there is one. The device looks at the sender's side of the ring only where it knows of
    /// no packet, and once the lane is settled never again: what it knows is all there is.
    pub(crate) fn next(&mut self) -> Option<Packet>
        ensures same { (self.new.ring ≡ self.old.ring) × (self.new.settled ≡ self.old.settled) }
        ensures some { IfSome result (λ packet. self.new.received ≡ self.old.received ++ packet ∷ []) }
        ensures settled { self.old.settled ≡ true
            → IfSome result (λ packet. self.old.known ≡ packet ∷ self.new.known) }
        ensures none { IfNone result ((self.new ≡ self.old) × (self.old.known ≡ [])) }
    {
        if self.consumer.cached_slots() > 0 {
            return Some(self.consumer.pop_known());
        }
        if self.settled || self.consumer.slots() == 0 {
            return None;
        }
        Some(self.consumer.pop_known())
    }

    /// Settles the lane by its sender's end, and answers how many packets are left in it.
    pub(crate) fn settle(&mut self, end: LaneEnd) -> u64
        requires { end.ring ≡ self.old.ring }
        ensures same { (self.new.ring ≡ self.old.ring) × (self.new.received ≡ self.old.received) }
        ensures settled { self.new.settled ≡ true }
        ensures left { result ≡ length self.new.known }
        ensures submitted { end.submitted ≡ self.new.received ++ self.new.known }
    {
        let mut finished = end.into_finished();
        self.settled = true;
        self.consumer.slots_after(&mut finished) as u64
    }
}
