//! A recorder that makes the packets of the events that it is told.

ghost use Rattle.std.specs.Prelude.{◌≡◌, ◌+◌, ◌-◌, ◌<◌, ◌≤◌, ◌^◌, ◌⊎◌, [], ◌∷◌, ◌++◌, IfErr, IfNone, IfOk, IfSome, OnErr, OnOk, false, length, true};
ghost use Rattle.journal_core.specs.Steps.{accepted_event, drop_event, sent_event};
ghost use Rattle.journal_core.specs.declared.event.Event.TheVariants.{Closed};
ghost use Rattle.link_report.specs.Gatherings.{CanCount, KeepsOn, MakesPackets, gathering_shape};
ghost use Rattle.link_report.specs.Packets.{is_arrival, known_of};

use crate::packets::Packets;
use codel_core::Served;
use journal_core::{Cause, Event, GhostList, Memory, Recorder};
use packet_core::{Seed, Waiting};
use std::alloc::{AllocError, Global};
use std::marker::Model;

/// It makes the packets of the events that it is told, and stores no event. So it takes less memory than a journal and
/// the packets made of that. The events, and the packets that are sent and lost, stand in proofs alone.
#[derive(Drop)]
pub struct Gathered {
    packets: Packets,
    /// It makes packets of at most so many events.
    most: u64,
    /// How many events it was told.
    count: u64,
    /// For how many more there is memory.
    room: u64,
    /// Whether an event found no memory, and isn't in the packets.
    is_short: bool,
    told: GhostList<Event>,
    sent: GhostList<Waiting>,
    lost: GhostList<Waiting>,
}

impl Model for Gathered {
    ghost use Rattle.link_report.specs.Gatherings.{Gathering, IsGathered, gathering_of};

    ghost Value = { Gathering };

    ghost view = { gathering_of };

    ghost invariant = { IsGathered };
}

impl Gathered {
    /// Nothing was told yet. It makes packets of at most `most` events. It can be told of more, and then has none. Their
    /// five-tuples are found by a hash of that seed, and the packets are the same under every seed.
    pub fn new(alloc: Global, seed: &Seed, most: u64) -> Gathered
        ensures events { result.events ≡ [] }
        ensures sent { result.sent ≡ [] }
        ensures lost { result.lost ≡ [] }
        ensures most { result.most ≡ most }
        ensures short { result.is_short ≡ false }
    {
        Gathered {
            packets: Packets::new(alloc, seed),
            most,
            count: 0,
            room: 0,
            is_short: false,
            told: GhostList::new(),
            sent: GhostList::new(),
            lost: GhostList::new(),
        }
    }

    /// The packets of the events that it was told, or none where these are more than `most`, or one found no memory.
    pub fn packets(&self) -> Option<&Packets>
        ensures packets { IfSome result (λ packets. packets.now ≡ known_of self.now.events) }
        ensures few { IfSome result (λ _. length self.now.events ≤ self.now.most) }
        ensures none { IfNone result ((self.now.most < length self.now.events) ⊎ (self.now.is_short ≡ true)) }
        ensures counted { length self.now.events < 2 ^ 64 }
    {
        if self.is_short || self.count > self.most {
            None
        } else {
            Some(&self.packets)
        }
    }

    /// Makes the packets of one event more.
    fn add(&mut self, event: &Event)
        requires { 0 < self.old.room }
        ensures told { self.new.events ≡ self.old.events ++ event.now ∷ [] }
        ensures sent { self.new.sent ≡ self.old.sent }
        ensures lost { self.new.lost ≡ self.old.lost }
        ensures room { self.new.room ≡ self.old.room - 1 }
        ensures on { KeepsOn self.old self.new }
        ensures others { is_arrival event.now ≡ false → self.new.is_short ≡ self.old.is_short }
    {
        if !self.is_short && self.count < self.most {
            // Memory is reserved, so none is missing. That isn't proved, so it is looked at.
            self.is_short = self.packets.add(event).is_err();
        }
        self.count += 1;
        self.room -= 1;
        self.told = self.told.and(event);
    }

    /// Of how many events more it makes packets.
    fn packets_left(&self) -> u64
        ensures made { 0 < result → MakesPackets self.now }
        ensures most { result ≤ self.now.most - length self.now.events }
    {
        if self.is_short {
            0
        } else {
            self.most.saturating_sub(self.count)
        }
    }

    /// The packets of the events that it was told, where it makes packets of all and each found memory.
    pub(crate) fn all_packets(&self) -> &Packets
        requires whole { self.now.is_short ≡ false }
        requires most { self.now.most ≡ u64.MAX }
        ensures { result.now ≡ known_of self.now.events }
    {
        &self.packets
    }

    /// From here on it makes no packets and takes no memory for any, and it has none.
    pub(crate) fn stop(&mut self)
        ensures { self.new ≡ record self.old { is_short = true } }
    {
        self.is_short = true;
    }

    /// Whether an event found no memory, so that there are no packets.
    pub(crate) fn is_short(&self) -> bool
        ensures { result ≡ self.now.is_short }
    {
        self.is_short
    }

    /// How many events it was told.
    pub fn event_count(&self) -> u64
        ensures { result ≡ length self.now.events }
    {
        self.count
    }
}

/// Takes memory for so many events more, where packets are made of the next `left` and there is room for `room` already.
/// It answers for how many there is room then. Events of which no packets are made need none.
fn take_room(packets: &mut Packets, left: u64, room: u64, more: usize) -> Result<usize, Memory>
    ensures same { packets.new ≡ packets.old }
    ensures room { IfOk result (λ room. more ≤ room) }
    ensures refused { IfErr result (λ _. room < left) }
{
    if left <= room {
        return Ok(more);
    }
    let wanted = left.min(more as u64);
    let taken = packets.reserve(wanted as usize)?;
    Ok(taken.max(more))
}

impl Recorder for Gathered {
    ghost told = { λ gathered. gathered.events };

    ghost sent = { λ gathered. gathered.sent };

    ghost lost = { λ gathered. gathered.lost };

    ghost room = { λ gathered. gathered.room };

    ghost made_for = { gathering_shape };

    fn accept(&mut self, packet: &Waiting, lane: u32, flow: u32)
        requires { 0 < self.old.room }
        ensures told { self.new.events ≡ self.old.events ++ accepted_event lane flow packet.now ∷ [] }
        ensures sent { self.new.sent ≡ self.old.sent }
        ensures lost { self.new.lost ≡ self.old.lost }
        ensures room { self.new.room ≡ self.old.room - 1 }
        ensures on { KeepsOn self.old self.new }
    {
        self.add(&Event::acceptance(packet, lane, flow));
    }

    fn send(&mut self, served: &Served, moment: u64)
        requires { 0 < self.old.room }
        ensures told { self.new.events ≡ self.old.events ++ sent_event moment served.now.mark served.now.waiting ∷ [] }
        ensures sent { self.new.sent ≡ self.old.sent ++ served.now.waiting ∷ [] }
        ensures lost { self.new.lost ≡ self.old.lost }
        ensures room { self.new.room ≡ self.old.room - 1 }
        ensures on { KeepsOn self.old self.new }
        ensures short { self.new.is_short ≡ self.old.is_short }
    {
        self.add(&Event::departure(served, moment));
        self.sent = self.sent.and(&served.waiting);
    }

    fn lose(&mut self, packet: &Waiting, moment: u64, cause: Cause)
        requires { 0 < self.old.room }
        ensures told { self.new.events ≡ self.old.events ++ drop_event moment cause packet.now ∷ [] }
        ensures sent { self.new.sent ≡ self.old.sent }
        ensures lost { self.new.lost ≡ self.old.lost ++ packet.now ∷ [] }
        ensures room { self.new.room ≡ self.old.room - 1 }
        ensures on { KeepsOn self.old self.new }
        ensures short { self.new.is_short ≡ self.old.is_short }
    {
        self.add(&Event::loss(packet, moment, cause));
        self.lost = self.lost.and(packet);
    }

    fn close(&mut self, moment: u64)
        requires { 0 < self.old.room }
        ensures told { self.new.events ≡ self.old.events ++ Closed moment ∷ [] }
        ensures sent { self.new.sent ≡ self.old.sent }
        ensures lost { self.new.lost ≡ self.old.lost }
        ensures room { self.new.room ≡ self.old.room - 1 }
        ensures on { KeepsOn self.old self.new }
        ensures short { self.new.is_short ≡ self.old.is_short }
    {
        self.add(&Event::Closed { moment });
    }

    fn reserve(&mut self, more: usize) -> Result<(), Memory>
        ensures told { self.new.events ≡ self.old.events }
        ensures sent { self.new.sent ≡ self.old.sent }
        ensures lost { self.new.lost ≡ self.old.lost }
        ensures room { self.old.room ≤ self.new.room }
        ensures ok { OnOk result (more ≤ self.new.room) }
        ensures missing { OnErr result (self.old.room < more) }
        ensures err { OnErr result (self.new.room ≡ self.old.room) }
        ensures most { self.new.most ≡ self.old.most }

        // A refusal is an answer, and no event is lost by it.
        ensures short { self.new.is_short ≡ self.old.is_short }

        // Where it makes no packets any more it takes no memory, so nothing that can be counted is refused. And none
        // is where there is room for all events of which it makes packets.
        ensures made { OnErr result (CanCount self.old more → MakesPackets self.old) }
        ensures reached { OnErr result
            (CanCount self.old more → length self.old.events + self.old.room < self.old.most) }
    {
        let more_events = more as u64;
        if more_events <= self.room {
            return Ok(());
        }
        // A list of more than can be counted is want of memory, too.
        let countable = u64::MAX - self.count;
        if more_events > countable {
            return Err(AllocError);
        }
        let left = self.packets_left();
        let room = take_room(&mut self.packets, left, self.room, more)?;
        self.room = countable.min(room as u64);
        self.told = self.told.with_room(self.room as usize);
        Ok(())
    }
}
