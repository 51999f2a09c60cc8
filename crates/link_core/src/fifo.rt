//! A FIFO, and a link with one in front of it, to compare with.

ghost use Rattle.std.specs.Prelude.{◌≡◌, [], IfOk, List};
ghost use Rattle.journal_core.specs.Losses.{departed_packets, lost_packets};
ghost use Rattle.link_core.specs.Arrivals.{AreArrivals};
ghost use Rattle.link_core.specs.Fifo.{IsFifoJournal};
ghost use Rattle.link_core.specs.LinkLaws.{end_of};

use crate::arrival::Arrival;
use crate::discipline::QueueDiscipline;
use crate::driver::run_over;
use crate::link::Link;
use codel_core::{Mark, Served};
use journal_core::{Cause, Event, EventList, GhostList, Memory, Recorder, Sent, Step};
use packet_core::{Packet, Params, Seed, Waiting};
use sched_core::FlowChooser;
use std::alloc::Global;
use std::collections::VecDeque;
use std::marker::Model;

/// The journal of the same link with a plain queue in place of FQ-CoDel: first in, first out, and a packet is dropped
/// that arrives where as many wait as the parameters' limit, with the cause `Overflow`. It has no other limit, and it
/// marks nothing. Each packet's flow in the journal is the one that FQ-CoDel with these parameters and that seed would
/// choose, though the queue looks at none. It fails only when out of memory.
pub fn run_fifo(
    alloc: Global,
    params: Params,
    seed: Seed,
    link: &Link,
    arrivals: &[Arrival],
) -> Result<Vec<Event>, Memory>
    requires { AreArrivals arrivals.now }
    ensures { IfOk result (λ events. IsFifoJournal params seed link.now arrivals.now events.items) }
{
    let events = EventList::new(alloc);
    Ok(run_fifo_with_recorder(alloc, params, seed, link, arrivals, events)?.into_events())
}

/// The same as `run_fifo`, but over a recorder that was told nothing, which it hands out.
pub fn run_fifo_with_recorder<K: Recorder>(
    alloc: Global,
    params: Params,
    seed: Seed,
    link: &Link,
    arrivals: &[Arrival],
    events: K,
) -> Result<K, Memory>
    requires arrivals { AreArrivals arrivals.now }
    requires events { K.told events ≡ [] }
    requires none_sent { K.sent events ≡ [] }
    requires no_loss { K.lost events ≡ [] }
    ensures journal { IfOk result (λ recorder. IsFifoJournal params seed link.now arrivals.now (K.told recorder)) }
    ensures sent { IfOk result (λ recorder. K.sent recorder ≡ departed_packets (K.told recorder)) }
    ensures lost { IfOk result (λ recorder. K.lost recorder ≡ lost_packets (K.told recorder)) }

    // It stays what it was made for.
    ensures made_for { IfOk result (λ recorder. K.made_for recorder ≡ K.made_for events) }
{
    let (recorder, _) = run_fifo_to_end(alloc, params, seed, link, arrivals, events)?;
    Ok(recorder)
}

/// The same as `run_fifo_with_recorder`, and the moment at which the link has sent its last packet whole, in
/// microseconds, rounded up. It is 0 where none was sent.
pub fn run_fifo_to_end<K: Recorder>(
    alloc: Global,
    params: Params,
    seed: Seed,
    link: &Link,
    arrivals: &[Arrival],
    events: K,
) -> Result<(K, u64), Memory>
    requires arrivals { AreArrivals arrivals.now }
    requires events { K.told events ≡ [] }
    requires none_sent { K.sent events ≡ [] }
    requires no_loss { K.lost events ≡ [] }
    ensures journal { IfOk result (λ ran. IsFifoJournal params seed link.now arrivals.now (K.told ran.0)) }
    ensures sent { IfOk result (λ ran. K.sent ran.0 ≡ departed_packets (K.told ran.0)) }
    ensures lost { IfOk result (λ ran. K.lost ran.0 ≡ lost_packets (K.told ran.0)) }
    ensures end { IfOk result (λ ran. ran.1 ≡ end_of link.now arrivals.now (K.told ran.0)) }
    ensures made_for { IfOk result (λ ran. K.made_for ran.0 ≡ K.made_for events) }
{
    let mut fifo = Fifo::try_new_for(alloc, params, seed, arrivals.len() as u64, events)?;
    let end = run_over(&mut fifo, link, arrivals)?;
    Ok((fifo.into_recorder(), end))
}

/// A FIFO: a packet is dropped that arrives where as many wait as the limit, with the cause `Overflow`. It has no
/// other limit, and it marks nothing. Each packet's flow in the journal is the one that FQ-CoDel with the same
/// parameters and seed would choose, though the queue looks at none. It tells its recorder what becomes of packets,
/// and keeps its steps for proofs alone.
#[derive(Drop)]
pub struct Fifo<K: Recorder = EventList> {
    params: Params,
    chooser: FlowChooser,
    came: u64,
    queue: VecDeque<Waiting>,
    recorder: K,
    steps: GhostList<Step>,
}

impl<K: Recorder> Model for Fifo<K> {
    ghost use Rattle.link_core.specs.Fifos.{FifoQueue, IsKept, progress_of};

    ghost Value = { FifoQueue };

    ghost view = { λ f. record {
      setting = record { params = f.params; seed = f.chooser.seed; made_for = K.made_for f.recorder };
      so_far = progress_of f.queue.items f.came f.steps.items (K.told f.recorder);
    } };

    ghost invariant = { λ f. IsKept f.params f.chooser f.came f.queue.items
        (K.told f.recorder) (K.sent f.recorder) (K.lost f.recorder) };
}

impl<K: Recorder> Fifo<K> {
    ghost use Rattle.link_core.specs.Fifos.{new_fifo};

    /// An empty queue, for about so many packets, over a recorder that was told nothing. What it takes to choose their
    /// flows it takes here, as `FlowChooser::try_new_for` does. It fails only when out of memory.
    pub fn try_new_for(
        alloc: Global,
        params: Params,
        seed: Seed,
        packets: u64,
        recorder: K,
    ) -> Result<Fifo<K>, Memory>
        requires told { K.told recorder ≡ [] }
        requires none_sent { K.sent recorder ≡ [] }
        requires no_loss { K.lost recorder ≡ [] }
        ensures { IfOk result (λ fifo. fifo ≡ new_fifo params seed (K.made_for recorder)) }
    {
        // A digest takes more time than all else that is done for a packet.
        Ok(Fifo {
            params,
            chooser: FlowChooser::try_new_for(alloc, params, seed, packets)?,
            came: 0,
            queue: VecDeque::new(alloc),
            recorder,
            steps: GhostList::new(),
        })
    }

    /// Who is told what becomes of each packet.
    pub fn recorder(&self) -> &K
        ensures told { K.told result.now ≡ self.now.so_far.standing.events }
        ensures sent { K.sent result.now ≡ departed_packets self.now.so_far.standing.events }
        ensures lost { K.lost result.now ≡ lost_packets self.now.so_far.standing.events }
        ensures made_for { K.made_for result.now ≡ self.now.setting.made_for }
    {
        &self.recorder
    }

    /// Gives the FIFO up: its recorder comes back.
    pub fn into_recorder(self) -> K
        ensures told { K.told result ≡ self.so_far.standing.events }
        ensures sent { K.sent result ≡ departed_packets self.so_far.standing.events }
        ensures lost { K.lost result ≡ lost_packets self.so_far.standing.events }
        ensures made_for { K.made_for result ≡ self.setting.made_for }
    {
        let Fifo {
            params: _,
            chooser: _,
            came: _,
            queue: _,
            recorder,
            steps: _,
        } = self;
        recorder
    }
}

impl<K: Recorder> QueueDiscipline for Fifo<K> {
    ghost use Rattle.packet_core.specs.declared.packet.Waiting.{Waiting};
    ghost use Rattle.link_core.specs.Fifo.{fifo};
    ghost use Rattle.link_core.specs.QueueDisciplines.{Setting};

    ghost Queues = { List Waiting };

    ghost Kept = { Setting };

    ghost rules = { λ k. fifo k.params k.seed };

    ghost kept = { λ f. f.setting };

    ghost so_far = { λ f. f.so_far };

    #[inline]
    fn arrive(&mut self, moment: u64, packet: Packet) -> Result<(), Memory> {
        let arriving = Waiting {
            id: self.came,
            stamp: moment,
            packet,
        };
        let full = self.queue.len() >= self.params.limit() as usize;
        self.recorder.reserve(if full { 2 } else { 1 })?;
        if !full {
            self.queue.push_back(arriving)?;
        }
        let flow = self.chooser.flow_of(&packet);
        self.recorder.accept(&arriving, 0, flow);
        if full {
            self.recorder.lose(&arriving, moment, Cause::Overflow);
        }
        self.came += 1;
        self.steps = self.steps.and(&Step::Enqueue {
            moment,
            lane: 0,
            packet,
        });
        Ok(())
    }

    #[inline]
    fn serve(&mut self, moment: u64) -> Result<Option<Sent>, Memory> {
        let head = match self.queue.front() {
            Some(head) => *head,
            None => {
                self.steps = self.steps.and(&Step::Dequeue { moment });
                return Ok(None);
            }
        };
        let served = Served {
            waiting: head,
            mark: Mark::NoMark,
        };
        self.recorder.reserve(1)?;
        self.recorder.send(&served, moment);
        let _gone = self.queue.pop_front();
        self.steps = self.steps.and(&Step::Dequeue { moment });
        Ok(Some(Sent {
            id: served.waiting.id,
            moment,
            packet: served.waiting.packet,
            mark: served.mark,
        }))
    }

    fn waiting(&self) -> u64 {
        self.queue.len() as u64
    }
}
