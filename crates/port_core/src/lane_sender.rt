//! The sender's end of a lane, and a sender that submits its packets there.

ghost use Rattle.std.specs.Prelude.{◌≡◌, ◌≢◌, ◌⊎◌, ◌≤◌, ◌<◌, ◌+◌, ℕ, IfErr, IfSome, OnErr, OnOk, length, take};
ghost use Rattle.port_core.specs.Lanes.{Submits, finished_after};
ghost use Rattle.port_core.specs.declared.gate.Stop.TheVariants as stop;

use crate::gate::{Gate, Stop, passes};
use packet_core::Packet;
use rtrb::{Finished, Producer, PushError};
use std::marker::Model;

/// A packet that comes back, since its lane is full. Once the device has taken a packet there is room again.
#[derive(Clone, Copy, Debug, PartialEq, Eq)]
pub struct LaneFull(pub Packet);

/// The sender's end of a lane. It never waits for another thread. Contracts see the lane's number, its ring, the packets
/// that were submitted, in order, and for how many more there is room at least.
#[derive(Drop)]
pub struct LaneSender {
    lane: u32,
    producer: Producer<Packet>,
}

impl Model for LaneSender {
    ghost use Rattle.port_core.specs.Lanes.{Sending, ring_of};
    ghost use Rattle.rtrb.specs.Ring.{known_free, sent};

    ghost Value = { Sending };

    ghost view = { λ s. record {
      lane = s.lane;
      ring = ring_of s.producer.end;
      submitted = sent s.producer;
      room = known_free s.producer;
    } };
}

/// What is left of a sender that has finished: nothing can be submitted to its lane any more. The device settles the
/// lane by it. Contracts see what they saw of the sender.
#[derive(Drop)]
pub struct LaneEnd {
    lane: u32,
    finished: Finished<Packet>,
}

impl Model for LaneEnd {
    ghost use Rattle.port_core.specs.Lanes.{Sending, ring_of};
    ghost use Rattle.rtrb.specs.Ring.{all_sent};

    ghost Value = { Sending };

    ghost view = { λ e. record {
      lane = e.lane;
      ring = ring_of e.finished.end;
      submitted = all_sent e.finished;
      room = 0;
    } };
}

impl LaneSender {
    ghost use Rattle.port_core.specs.Lanes.{Sending, ring_of};
    ghost use Rattle.rtrb.specs.Ring.{known_free, sent};

    /// The sender of a lane, over the end of its ring.
    pub(crate) fn new(lane: u32, producer: Producer<Packet>) -> LaneSender
        ensures { result ≡ record {
          lane = lane;
          ring = ring_of producer.end;
          submitted = sent producer;
          room = known_free producer;
        } }
    {
        LaneSender { lane, producer }
    }

    /// The number of its lane.
    pub fn lane(&self) -> u32
        ensures { result ≡ self.now.lane }
    {
        self.lane
    }

    /// Puts a packet at the lane's end, or gives it back where the lane is full. It takes no memory and doesn't wait.
    pub fn submit(&mut self, packet: Packet) -> Result<(), LaneFull>
        ensures submitted { OnOk result (Submits self.old packet self.new) }
        ensures full { OnErr result (self.old.room ≡ 0) }
        ensures back { IfErr result (λ full. full.0 ≡ packet) }
        ensures unchanged { OnErr result (self.new ≡ self.old) }
    {
        match self.producer.push(packet) {
            Ok(()) => Ok(()),
            Err(PushError::Full(packet)) => Err(LaneFull(packet)),
        }
    }

    /// Ends the lane: from here on nothing is submitted to it. Nothing comes back where the device was dropped before.
    pub fn finish(self) -> Option<LaneEnd>
        ensures { IfSome result (λ end. end ≡ record self { room = 0 }) }
    {
        let LaneSender { lane, producer } = self;
        let finished = producer.finish()?;
        Some(LaneEnd { lane, finished })
    }
}

impl LaneEnd {
    ghost use Rattle.port_core.specs.Lanes.{ring_of};
    ghost use Rattle.rtrb.specs.Ring.{all_sent};

    /// The number of its lane.
    pub fn lane(&self) -> u32
        ensures { result ≡ self.now.lane }
    {
        self.lane
    }

    /// The end of its ring.
    pub(crate) fn into_finished(self) -> Finished<Packet>
        ensures { (ring_of result.end ≡ self.ring) × (all_sent result ≡ self.submitted) }
    {
        let LaneEnd { lane: _, finished } = self;
        finished
    }
}

/// What a sender did with its lane.
#[derive(Drop)]
pub struct LaneDone {
    /// How many packets it submitted.
    pub submitted: u64,
    /// Why it stopped.
    pub stop: Stop,
    /// Its lane's end, unless the device was dropped before.
    pub end: Option<LaneEnd>,
}

/// Submits packets in order, and asks the gate before each, at most 1,000,000 times; then it ends the lane. It stops as
/// `Stop::Done` after the last packet, as `Stop::Stalled` where the gate stays closed, and as `Stop::Full` where the
/// lane is full.
pub fn send_lane<G: Gate>(sender: LaneSender, packets: &[Packet], gate: &G) -> LaneDone
    ensures submitted { result.submitted ≤ length packets.now }
    ensures done { result.stop ≡ stop.Done → result.submitted ≡ length packets.now }
    ensures all { result.submitted ≡ length packets.now → result.stop ≡ stop.Done }
    ensures stop { (result.stop ≡ stop.Done) ⊎ (result.stop ≡ stop.Stalled) ⊎ (result.stop ≡ stop.Full) }
    ensures gate { (call : ℕ) → 0 < call → call ≤ result.submitted → G.LetThrough gate.now call }
    ensures stalled { result.stop ≡ stop.Stalled → G.HeldUp gate.now (result.submitted + 1) }
    ensures full { result.stop ≡ stop.Full → G.LetThrough gate.now (result.submitted + 1) }
    ensures fits { length packets.now ≤ sender.room → result.stop ≢ stop.Full }
    ensures end { IfSome result.end (λ end. end ≡ finished_after sender (take result.submitted packets.now)) }
{
    let mut sender = sender;
    let mut submitted = 0u64;
    let mut stop = Stop::Done;
    for packet in packets {
        if !passes(gate, submitted + 1) {
            stop = Stop::Stalled;
            break;
        }
        if sender.submit(*packet).is_err() {
            stop = Stop::Full;
            break;
        }
        submitted += 1;
    }
    LaneDone {
        submitted,
        stop,
        end: sender.finish(),
    }
}
