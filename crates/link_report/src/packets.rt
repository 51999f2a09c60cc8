//! The packets of a journal, and what became of each.

ghost use Rattle.std.specs.Prelude.{◌≡◌, ◌<◌, ◌≤◌, ◌+◌, ◌-◌, IfOk, IsOk, OnOk, false, length, true, vec_capacity, vec_len};
ghost use Rattle.indexmap.specs.IndexSet.{spare};
ghost use Rattle.packet_core.specs.Packets.{same_tuple};
ghost use Rattle.journal_core.specs.TupleRows.{with_new};
ghost use Rattle.link_report.specs.Packets as Spec;
ghost use Rattle.link_report.specs.Packets.{delay_sent, is_arrival, is_codel_drop, is_marked, is_overflow_drop, is_sent, known_of, last_moment, sent_len, known_with_event, with_fate};

use indexmap::IndexSet;
use journal_core::{Cause, Event, LatestPlaces, Mark, Memory, PACKETS_FOR_PLACES};
use packet_core::{Ecn, FiveTuple, Packet, Seed, SeededHash};
use std::alloc::Global;
use std::marker::Model;

/// What became of a packet. Moments are in microseconds.
#[derive(Clone, Copy, Debug, PartialEq, Eq)]
pub enum Fate {
    /// It waits.
    Waiting,
    /// It was sent.
    Sent {
        /// The moment.
        at: u64,
        /// Its ECN field as sent.
        ecn: Ecn,
        /// What set that field.
        mark: Mark,
        /// Its place among the packets sent, from 0.
        place: u64,
    },
    /// It was dropped.
    Dropped {
        /// The moment.
        at: u64,
        /// Why.
        cause: Cause,
    },
}

/// A packet that arrived, and what became of it.
#[derive(Clone, Copy, Debug, PartialEq, Eq)]
pub struct PacketRecord {
    /// Its place in the order of arrival, from 0.
    pub id: u64,
    /// The number of its five-tuple: these are counted from 0, in the order of their first arrivals.
    pub tuple: u64,
    /// The flow that it went to.
    pub flow: u32,
    /// Its length, in bytes.
    pub len: u16,
    /// Its ECN field as it came.
    pub ecn: Ecn,
    /// The moment of its arrival, in microseconds.
    pub arrived: u64,
    /// What became of it.
    pub fate: Fate,
}

impl PacketRecord {
    /// How long it waited, in microseconds, if it was sent.
    pub fn delay_sent(&self) -> Option<u64>
        ensures { result ≡ delay_sent self.now }
    {
        match self.fate {
            Fate::Sent { at, .. } => Some(at.saturating_sub(self.arrived)),
            Fate::Waiting | Fate::Dropped { .. } => None,
        }
    }

    /// Its length, if it was sent, and else 0.
    pub fn sent_len(&self) -> u16
        ensures { result ≡ sent_len self.now }
    {
        match self.fate {
            Fate::Sent { .. } => self.len,
            Fate::Waiting | Fate::Dropped { .. } => 0,
        }
    }

    /// Whether it was sent.
    pub fn is_sent(&self) -> bool
        ensures { result ≡ is_sent self.now }
    {
        match self.fate {
            Fate::Sent { .. } => true,
            Fate::Waiting | Fate::Dropped { .. } => false,
        }
    }

    /// Whether CoDel dropped it.
    pub fn is_codel_drop(&self) -> bool
        ensures { result ≡ is_codel_drop self.now }
    {
        match self.fate {
            Fate::Dropped {
                cause: Cause::Codel,
                ..
            } => true,
            Fate::Waiting | Fate::Sent { .. } | Fate::Dropped { .. } => false,
        }
    }

    /// Whether it overflowed.
    pub fn is_overflow_drop(&self) -> bool
        ensures { result ≡ is_overflow_drop self.now }
    {
        match self.fate {
            Fate::Dropped {
                cause: Cause::Overflow,
                ..
            } => true,
            Fate::Waiting | Fate::Sent { .. } | Fate::Dropped { .. } => false,
        }
    }

    /// Whether it was sent with a mark, of either kind.
    pub fn is_marked(&self) -> bool
        ensures { result ≡ is_marked self.now }
    {
        match self.fate {
            Fate::Sent {
                mark: Mark::CodelMark,
                ..
            } => true,
            Fate::Sent {
                mark: Mark::Threshold,
                ..
            } => true,
            Fate::Waiting | Fate::Sent { .. } | Fate::Dropped { .. } => false,
        }
    }

    /// The moment of its fate, and that of its arrival where it waits.
    pub fn last_moment(&self) -> u64
        ensures { result ≡ last_moment self.now }
    {
        match self.fate {
            Fate::Waiting => self.arrived,
            Fate::Sent { at, .. } | Fate::Dropped { at, .. } => at,
        }
    }
}

/// The packets of the events so far.
#[derive(Drop)]
pub struct Packets {
    /// The five-tuples, in the order of their first arrivals. Senders choose them, so their hash is by a seed.
    tuples: IndexSet<FiveTuple, SeededHash>,
    /// The packets, by their ids.
    records: Vec<PacketRecord>,
    /// How many were sent.
    sent: u64,
    /// For each flow the number of the five-tuple that it had last: a guess at the next one's.
    latest: LatestPlaces,
}

impl Model for Packets {
    ghost use Rattle.link_report.specs.Packets.{Known};

    ghost Value = { Known };

    ghost view = { λ p. record { tuples = p.tuples.keys; packets = p.records.items; sent = p.sent } };
}

impl Packets {
    ghost use Rattle.link_report.specs.Packets.{arrived, nothing_known};

    /// The packets of no event, whose five-tuples will be found by a hash of that seed.
    pub(crate) fn new(alloc: Global, seed: &Seed) -> Packets
        ensures { result ≡ nothing_known }
    {
        Packets {
            tuples: IndexSet::with_hasher(alloc, SeededHash::new(seed)),
            records: Vec::new(alloc),
            sent: 0,
            latest: LatestPlaces::new(alloc),
        }
    }

    /// The packets of a journal. It fails for want of memory alone. Five-tuples are found by a hash that everybody knows, so
    /// senders can choose some that share its places: then this takes time with the square of their number. `with_seed` is
    /// for these.
    pub fn of(alloc: Global, events: &[Event]) -> Result<Packets, Memory>
        ensures { IfOk result (λ packets. packets ≡ known_of events.now) }
    {
        Packets::with_seed(alloc, &Seed([0; 16]), events)
    }

    /// The packets of a journal, whose five-tuples are found by a hash of that seed. They are the same under every seed. It
    /// fails for want of memory alone.
    pub fn with_seed(alloc: Global, seed: &Seed, events: &[Event]) -> Result<Packets, Memory>
        ensures { IfOk result (λ packets. packets ≡ known_of events.now) }
    {
        let mut packets = Packets::new(alloc, seed);
        packets.prepare(events.len());
        for event in events {
            packets.add(event)?;
        }
        Ok(packets)
    }

    /// Takes memory for the packets of so many events more, whatever five-tuples they have, and answers for how many
    /// there is memory then. The packets stay the same. The memory for the flows' latest numbers isn't promised: where it
    /// is refused, each five-tuple is hashed.
    pub(crate) fn reserve(&mut self, more: usize) -> Result<usize, Memory>
        ensures same { self.new ≡ self.old }
        ensures room { IfOk result (λ room. more ≤ room) }
        ensures none { more ≡ 0 → IsOk result }
    {
        let room = take_room(&mut self.tuples, &mut self.records, more)?;
        self.prepare(more);
        Ok(room)
    }

    /// Before so many events more it takes memory for the numbers of the flows' latest five-tuples, where there are many
    /// packets with those to come. The memory may be refused: each five-tuple is hashed then.
    fn prepare(&mut self, more: usize)
        ensures { self.new ≡ self.old }
    {
        // A packet comes and goes: that is two events.
        let packets = self.records.len().saturating_add(more / 2);
        self.latest.prepare(packets.min(PACKETS_FOR_PLACES));
    }

    /// Adds what an event says. An arrival alone takes memory.
    pub(crate) fn add(&mut self, event: &Event) -> Result<(), Memory>
        requires { self.old.sent < u64.MAX }
        ensures known { OnOk result (self.new ≡ known_with_event self.old event.now) }
        ensures others { is_arrival event.now ≡ false → IsOk result }
    {
        match *event {
            Event::Accepted {
                id,
                moment,
                flow,
                packet,
                ..
            } => self.arrive(id, moment, flow, &packet)?,
            Event::Sent {
                id,
                moment,
                ecn,
                mark,
            } => {
                let fate = Fate::Sent {
                    at: moment,
                    ecn,
                    mark,
                    place: self.sent,
                };
                set_fate(&mut self.records, id, fate);
                self.sent += 1;
            }
            Event::Dropped { id, moment, cause } => {
                let fate = Fate::Dropped { at: moment, cause };
                set_fate(&mut self.records, id, fate);
            }
            Event::Closed { .. } => {}
        }
        Ok(())
    }

    /// Adds a packet that arrived.
    fn arrive(&mut self, id: u64, moment: u64, flow: u32, packet: &Packet) -> Result<(), Memory>
        ensures { OnOk result (self.new ≡ arrived self.old id moment flow packet.now) }
    {
        let guess = self.latest.at(flow);
        let tuple = number_of(&mut self.tuples, packet.tuple(), guess)?;
        self.latest.set(flow, tuple);
        self.records.push(PacketRecord {
            id,
            tuple: tuple as u64,
            flow,
            len: packet.len() as u16,
            ecn: packet.ecn(),
            arrived: moment,
            fate: Fate::Waiting,
        })?;
        Ok(())
    }

    /// The five-tuples, in the order of their first arrivals.
    pub fn tuples(&self) -> &[FiveTuple]
        ensures { result.now ≡ self.now.tuples }
    {
        self.tuples.as_slice()
    }

    /// The packets, by their ids.
    pub fn records(&self) -> &[PacketRecord]
        ensures { result.now ≡ self.now.packets }
    {
        &self.records
    }
}

/// Takes memory for so many five-tuples and packets more, and answers for how many there is memory then.
fn take_room(
    tuples: &mut IndexSet<FiveTuple, SeededHash>,
    records: &mut Vec<PacketRecord>,
    more: usize,
) -> Result<usize, Memory>
    ensures tuples { tuples.new.keys ≡ tuples.old.keys }
    ensures records { records.new.items ≡ records.old.items }
    ensures more { IfOk result (λ room. more ≤ room) }
    ensures tuple_room { IfOk result (λ room. room ≤ spare tuples.new) }
    ensures record_room { IfOk result (λ room. room ≤ vec_capacity records.new - vec_len records.new) }

    // Where there is memory for them already, none is refused.
    ensures succeeds { more ≤ spare tuples.old → vec_len records.old + more ≤ vec_capacity records.old → IsOk result }
{
    tuples.reserve(more)?;
    records.reserve(more)?;
    let tuple_room = tuples.capacity() - tuples.len();
    let record_room = records.capacity() - records.len();
    Ok(tuple_room.min(record_room))
}

/// The number of a five-tuple, which is then among those. Where it has the number `guess` it isn't hashed.
fn number_of(
    tuples: &mut IndexSet<FiveTuple, SeededHash>,
    tuple: FiveTuple,
    guess: usize,
) -> Result<usize, Memory>
    ensures number { IfOk result (λ number. number ≡ Spec.number_of tuples.old.keys tuple) }
    ensures tuples { OnOk result (tuples.new.keys ≡ with_new same_tuple tuples.old.keys tuple) }

    // It takes no memory where there is a place for one more.
    ensures succeeds { 0 < spare tuples.old → IsOk result }
{
    if has_number(tuples, &tuple, guess) {
        return Ok(guess);
    }
    let (number, _) = tuples.insert_full(tuple)?;
    Ok(number)
}

/// Whether a five-tuple is among those and has that number.
fn has_number(tuples: &IndexSet<FiveTuple, SeededHash>, tuple: &FiveTuple, number: usize) -> bool
    ensures number { result ≡ true → Spec.number_of tuples.now.keys tuple.now ≡ number }
    ensures known { result ≡ true → with_new same_tuple tuples.now.keys tuple.now ≡ tuples.now.keys }
{
    let known = tuples.as_slice();
    number < known.len() && *tuple == known[number]
}

/// Sets the fate of the packet with that id, if there is one.
fn set_fate(records: &mut Vec<PacketRecord>, id: u64, fate: Fate)
    ensures { records.new.items ≡ with_fate records.old.items id fate }
{
    if id < records.len() as u64 {
        records[id as usize].fate = fate;
    }
}
