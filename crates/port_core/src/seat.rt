//! A thread's place at a port.

ghost use Rattle.std.specs.Prelude.{◌≡◌, IfOk};
ghost use Rattle.port_core.specs.Ports.{new_seats};

use sched_core::{Event, Memory};
use std::alloc::{AllocError, Global};
use std::marker::Model;
use std::sync::ledger::{Ledger, Share};

/// At most so many seats: those of 64 senders, and one more for the device.
pub const MAX_SEATS: u32 = 65;

/// A thread's place at a locked port: what it was told of its packets, and how many packets it was given. Its type
/// names the port's ledgers, so it fits no other port.
#[derive(Drop)]
pub struct PortSeat<A: Ledger, S: Ledger> {
    pub(crate) lane: u32,
    pub(crate) told: Vec<Event>,
    pub(crate) sent: u64,
    pub(crate) accepted_share: Share<A>,
    pub(crate) sent_share: Share<S>,
}

impl<A: Ledger, S: Ledger> Model for PortSeat<A, S> {
    ghost use Rattle.std.specs.Prelude.{◌≡◌, vec_len};
    ghost use Rattle.port_core.specs.Ports.{Seat};

    ghost Value = { Seat };

    ghost view = { λ s. record { lane = s.lane; told = s.told.items; sent = s.sent } };

    // Both ledgers hold of this seat what it has itself.
    ghost invariant = { λ s. (s.accepted_share.parts ≡ 1) × (s.accepted_share.amount ≡ vec_len s.told)
        × (s.sent_share.parts ≡ 1) × (s.sent_share.amount ≡ s.sent) };
}

impl<A: Ledger, S: Ledger> PortSeat<A, S> {
    ghost use Rattle.std.specs.Prelude.{◌≡◌, length};

    /// The seat's number, which is the lane of its packets.
    pub fn lane(&self) -> u32
        ensures { result ≡ self.now.lane }
    {
        self.lane
    }

    /// The acceptance of each packet of this seat, in order, as the journal has it.
    pub fn told(&self) -> &[Event]
        ensures { result.now ≡ self.now.told }
    {
        &self.told
    }

    /// How many packets of this seat were accepted.
    pub fn accepted(&self) -> u64
        ensures { result ≡ length self.now.told }
    {
        self.told.len() as u64
    }

    /// Takes memory for what the seat will be told of so many packets more. Where it is refused nothing changes, and
    /// memory is taken as packets are accepted.
    pub fn reserve(&mut self, packets: usize) -> Result<(), Memory>
        ensures { self.new ≡ self.old }
    {
        self.told.reserve(packets)
    }

    /// How many packets this seat was given.
    pub fn sent(&self) -> u64
        ensures { result ≡ self.now.sent }
    {
        self.sent
    }
}

/// The seats below a number, each with its part of both ledgers.
#[tactic(auto, using(crate::proofs::SeatLemmas::new_seats_next))]
pub(crate) fn seats_of<A: Ledger, S: Ledger>(
    alloc: Global,
    seats: u32,
    accepted: Share<A>,
    sent: Share<S>,
) -> Result<Vec<PortSeat<A, S>>, AllocError>
    requires parts { (accepted.parts ≡ seats) × (sent.parts ≡ seats) }
    requires amounts { (accepted.amount ≡ 0) × (sent.amount ≡ 0) }
    ensures { IfOk result (λ all. all.items ≡ new_seats seats) }
{
    let mut accepted = accepted;
    let mut sent = sent;
    let mut all = Vec::new(alloc);
    for lane in 0..seats {
        all.push(PortSeat {
            lane,
            told: Vec::new(alloc),
            sent: 0,
            accepted_share: accepted.split_off(1, 0),
            sent_share: sent.split_off(1, 0),
        })?;
    }
    Ok(all)
}
