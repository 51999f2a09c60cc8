//! The packets that wait in flows that take turns, and what arrives, is served and overflows.

ghost use Rattle.std.specs.Prelude.{◌≡◌, ℕ, ◌+◌, ◌^◌, ◌<◌, ◌≤◌, ◌↔◌, IfOk, IfSome, IsTrue, OnErr, OnOk, Some, length, max, min, pos, ◌<ℤ◌, ◌≤ℤ◌};
ghost use Rattle.codel_core.specs.Schedule.{IsStateInRange};
ghost use Rattle.flow_core.specs.FlowLists.{queue_at, waiting_in};
ghost use Rattle.flow_core.specs.Winners.{CountsFew};
ghost use Rattle.fair_core.specs.HeldQueues.{DropsHeads, DropsOverflow, LosesBatch, MakesChain, MakesTurn, ServesFlow, ServesQueue, with_arrival_listed, with_credits_raised, with_lists};
ghost use Rattle.fair_core.specs.Overflow.{Exceeds};
ghost use Rattle.fair_core.specs.Shown.{flow_shown};
ghost use Rattle.fair_core.specs.TurnBound.{turns_at_most};
ghost use Rattle.fair_core.specs.FairQueues.{AreSound, flow_state_at, emptied_lists, head_of, no_queues, to_old};

use crate::flow_state::FlowState;
use crate::flow_view::FlowView;
use codel_core::{Codel, Served};
use flow_core::{Flows, MAX_WAITING};
use journal_core::{Cause, Event, Journal, JournalSink, Memory, Recorder};
use packet_core::{Params, Waiting};
use std::alloc::Global;
use std::marker::Model;

/// One of the two lists of flows (RFC 8290, section 4).
#[derive(Clone, Copy, Debug)]
pub enum FlowList {
    /// The flows that became active lately.
    New,
    /// The flows that had a turn.
    Old,
}

/// A flow at the head of a list.
#[derive(Clone, Copy, Debug)]
pub struct Head {
    flow: u32,
    from: FlowList,
}

/// What a dequeue gave, and after how many turns.
#[derive(Clone, Copy, Debug)]
pub struct Serving {
    /// How many turns it took.
    pub turns: u64,
    /// The packet that is given, if one is.
    pub served: Option<Served>,
}

/// The packets that wait, by flow, with both lists of flows, their credits and their CoDel states.
#[derive(Debug, Drop)]
pub struct FairQueue {
    flows: Flows,
    flow_states: Vec<FlowState>,
    arrived: u64,
}

impl Model for FairQueue {
    ghost use Rattle.fair_core.specs.HeldQueues.{Held, IsHeld, held_of};

    ghost Value = { Held };

    ghost view = { held_of };

    ghost invariant = { IsHeld };
}

impl FairQueue {
    /// So many flows, from 1 to 65,536, and no packet.
    pub fn try_new(alloc: Global, flows: u32) -> Result<FairQueue, Memory>
        requires least { 1 ≤ flows }
        requires most { flows ≤ 65536 }
        ensures { IfOk result (λ b.
            (b.queues ≡ no_queues flows) × (b.arrived ≡ 0) × (b.capacity ≡ 0) × (b.comparisons ≡ 0)) }
    {
        let flow_state = FlowState {
            credits: 0,
            codel: Codel::new(),
        };
        Ok(FairQueue {
            flows: Flows::try_new(alloc, flows)?,
            flow_states: vec![in alloc; flow_state; flows as usize]?,
            arrived: 0,
        })
    }

    /// Takes memory for so many packets more than wait, into whatever flows. It fails only where there is less.
    pub fn reserve(&mut self, arrivals: u64) -> Result<(), Memory>
        requires { arrivals ≤ MAX_WAITING }
        ensures queues { self.new.queues ≡ self.old.queues }
        ensures arrived { self.new.arrived ≡ self.old.arrived }
        ensures capacity { self.old.capacity ≤ self.new.capacity }
        ensures comparisons { self.new.comparisons ≡ self.old.comparisons }
        ensures ok { OnOk result (self.new.capacity
            ≡ max self.old.capacity (waiting_in self.old.queues.lists + arrivals)) }
        ensures missing { OnErr result (self.old.capacity < waiting_in self.old.queues.lists + arrivals) }
        ensures err { OnErr result (self.new ≡ self.old) }
    {
        self.flows.reserve(arrivals)
    }

    /// The queues and the lists of flows, once no flow takes a turn any more.
    pub fn into_flows(self) -> Flows
        ensures { result.lists ≡ self.queues.lists }
    {
        let FairQueue {
            flows,
            flow_states: _,
            arrived: _,
        } = self;
        flows
    }

    /// How many packets came so far.
    pub fn arrived(&self) -> u64
        ensures { result ≡ self.now.arrived }
    {
        self.arrived
    }

    /// How often the bytes of two flows were compared since the last clear.
    pub fn comparisons(&self) -> u64
        ensures { result ≡ self.now.comparisons }
    {
        self.flows.comparisons()
    }

    /// Counts the comparisons from 0 again.
    pub fn clear_comparisons(&mut self)
        ensures { self.new ≡ record self.old { comparisons = 0 } }
    {
        self.flows.clear_comparisons();
    }

    /// How many packets wait.
    pub fn waiting(&self) -> u64
        ensures value { result ≡ waiting_in self.now.queues.lists }
        ensures size { result ≤ MAX_WAITING }
    {
        self.flows.total_len()
    }

    /// What is kept of a flow.
    pub fn view(&self, flow: u32) -> FlowView
        requires { flow < length self.now.queues.lists.queues }
        ensures { result ≡ flow_shown self.now.queues flow }
    {
        FlowView {
            len: self.flows.len(flow),
            bytes: self.flows.bytes(flow),
            credits: self.credits(flow),
            codel: self.flow_states[flow as usize].codel.state(),
        }
    }

    /// The flow that a turn looks at (RFC 8290, section 4.2).
    fn head(&self) -> Option<Head>
        ensures value { result ≡ head_of self.now.queues }
        ensures within { IfSome result (λ head. head.flow < length self.now.queues.lists.queues) }
        ensures sound { AreSound self.now.queues }
        ensures bound { (quantum : ℕ) → 0 < quantum → turns_at_most quantum self.now.queues ≤ 2 ^ 40 }
    {
        // How many flows there are and that each is listed once is seen here: with it, the turns can be counted.
        let _flows = self.flows.flows();
        if let Some(flow) = self.flows.head_new() {
            return Some(Head {
                flow,
                from: FlowList::New,
            });
        }
        let flow = self.flows.head_old()?;
        Some(Head {
            flow,
            from: FlowList::Old,
        })
    }

    /// A packet comes to the tail of its flow's queue. A flow that is in no list becomes the last of the new
    /// ones, with one quantum of credits (RFC 8290, section 4.1).
    // Merged into an enqueue, as the pushes below are.
    #[inline(always)]
    pub fn arrive(&mut self, flow: u32, waiting: Waiting, params: &Params)
        requires flow { flow < length self.old.queues.lists.queues }
        requires capacity { waiting_in self.old.queues.lists < self.old.capacity }
        requires few { self.old.arrived < MAX_WAITING }
        ensures queues { self.new.queues ≡ with_arrival_listed params.now self.old.queues flow waiting }
        ensures arrived { self.new.arrived ≡ self.old.arrived + 1 }
        ensures capacity { self.new.capacity ≡ self.old.capacity }
        ensures few_comparisons { CountsFew (length self.old.queues.lists.queues) 1
            self.old.comparisons self.new.comparisons }
        ensures compares { 2 ≤ length self.old.queues.lists.queues
            → min (self.old.comparisons + 1) u64.MAX ≤ self.new.comparisons }
    {
        self.flows.push(flow, waiting);
        self.arrived += 1;
        if !self.flows.listed(flow) {
            // What it owed when it left the lists is forgiven: it had nothing to send while others sent. Otherwise a
            // flow of few, long packets would wait for its turn before each of them, which new flows are spared.
            self.flows.add_new(flow);
            self.flow_states[flow as usize].credits = i64::from(params.quantum());
        }
    }

    /// As long as more packets wait than `limit`, or more bytes than `memory_limit`, the flow with the most bytes loses
    /// a batch from its head, which the journal records (RFC 8290, section 4.1).
    // Merged into an enqueue: mostly nothing is lost, and a call that finds that takes longer than the test.
    #[inline(always)]
    pub fn overflow<K: Recorder>(&mut self, params: &Params, moment: u64, journal: &mut Journal<K>)
        requires { waiting_in self.old.queues.lists ≤ journal.old.room }
        ensures { DropsOverflow params.now moment self.old journal.old self.new journal.new }
    {
        while self.exceeds(params) {
            self.lose_batch(params.drop_batch(), moment, journal);
        }
    }

    /// Whether too much waits.
    fn exceeds(&self, params: &Params) -> bool
        ensures { IsTrue result ↔ Exceeds params.now self.now.queues.lists.queues }
    {
        if u64::from(params.limit()) < self.flows.total_len() {
            return true;
        }
        match params.memory_limit() {
            None => false,
            Some(most) => most < self.flows.total_bytes(),
        }
    }

    /// The flow with the most bytes loses half of its packets from its head, but at least one, and so many at most.
    // The head goes, and not what arrives: its sender learns of the loss as much sooner as the queue is long. Half a
    // queue goes, so that a flood pays for one look for the fattest flow once in many packets.
    // Kept out of an enqueue: most lose nothing.
    #[inline(never)]
    fn lose_batch<K: Recorder>(&mut self, most: u32, moment: u64, journal: &mut Journal<K>)
        requires most { 1 ≤ most }
        requires waits { 0 < waiting_in self.old.queues.lists }
        requires room { waiting_in self.old.queues.lists ≤ journal.old.room }
        ensures { LosesBatch most moment self.old journal.old self.new journal.new }
    {
        let Some(flow) = self.flows.fattest() else {
            unreachable!()
        };
        let batch = (self.flows.len(flow) / 2).clamp(1, u64::from(most));
        drop_heads(&mut self.flows, flow, batch, moment, journal);
    }

    /// A chain of turns, up to the first one that serves a flow, or to where both lists are empty (RFC 8290,
    /// section 4.2). What CoDel drops goes to the journal.
    // Merged into a dequeue, as the turn that serves a flow is: the packet served is then copied out of its slot once.
    #[inline(always)]
    pub fn serve<K: Recorder>(
        &mut self,
        now: u64,
        params: &Params,
        journal: &mut Journal<K>,
    ) -> Serving
        requires moment { now < 2 ^ 60 }
        requires room { waiting_in self.old.queues.lists ≤ journal.old.room }
        ensures chain { MakesChain params.now now self.old journal.old result.turns result.served self.new journal.new }
        ensures arrived { self.new.arrived ≡ self.old.arrived }
        ensures capacity { self.new.capacity ≡ self.old.capacity }
        ensures sound { AreSound self.old.queues }
        ensures quantum { 0 < params.now.quantum }
    {
        // That it is above 0 is seen here: with it, the turns end.
        let _quantum = params.quantum();
        let mut turns = 0;
        let mut next = self.head();
        while let Some(head) = next {
            turns += 1;
            let served = self.turn(head, now, params, journal);
            if served.is_some() {
                return Serving { turns, served };
            }
            next = self.head();
        }
        Serving {
            turns,
            served: None,
        }
    }

    /// One turn of the flow at the head (RFC 8290, section 4.2).
    #[inline(always)]
    fn turn<K: Recorder>(
        &mut self,
        head: Head,
        now: u64,
        params: &Params,
        journal: &mut Journal<K>,
    ) -> Option<Served>
        requires head { head_of self.old.queues ≡ Some head }
        requires flow { head.flow < length self.old.queues.lists.queues }
        requires moment { now < 2 ^ 60 }
        requires room { waiting_in self.old.queues.lists ≤ journal.old.room }
        ensures { MakesTurn params.now now self.old journal.old result self.new journal.new }
    {
        if self.credits(head.flow) <= 0 {
            self.raise_credits(head.flow, params);
            self.move_to_old(head);
            return None;
        }
        let served = self.serve_flow(head.flow, now, params, journal);
        if served.is_none() {
            self.move_emptied(head);
        }
        served
    }

    /// How many bytes a flow may still send.
    fn credits(&self, flow: u32) -> i64
        requires { flow < length self.now.queues.lists.queues }
        ensures { result ≡ (flow_state_at self.now.queues flow).credits }
    {
        self.flow_states[flow as usize].credits
    }

    /// A flow that used up its credits gets a quantum more.
    fn raise_credits(&mut self, flow: u32, params: &Params)
        requires flow { flow < length self.old.queues.lists.queues }
        requires credits { (flow_state_at self.old.queues flow).credits ≤ℤ pos 0 }
        ensures { self.new ≡ with_credits_raised params.now.quantum self.old flow }
    {
        self.flow_states[flow as usize].credits += i64::from(params.quantum());
    }

    /// The flow at the head of the lists goes to the end of the list of old flows.
    #[inline(always)]
    fn move_to_old(&mut self, head: Head)
        requires { head_of self.old.queues ≡ Some head }
        ensures { self.new ≡ with_lists self.old (to_old self.old.queues.lists head) }
    {
        match head.from {
            FlowList::New => self.flows.new_to_old(),
            FlowList::Old => self.flows.rotate_old(),
        }
    }

    /// The flow at the head of the lists has no packet: a new flow becomes an old one, and an old flow leaves.
    // Kept out of a dequeue: most turns serve a flow.
    #[inline(never)]
    fn move_emptied(&mut self, head: Head)
        requires { head_of self.old.queues ≡ Some head }
        ensures { self.new ≡ with_lists self.old (emptied_lists self.old.queues.lists head) }
    {
        // A new flow that emptied goes once through the old list. If it left at once, its next packet would make it new
        // again, and a flow that sends one packet at a time would always go before the old flows, which could starve.
        match head.from {
            FlowList::New => self.flows.new_to_old(),
            FlowList::Old => self.flows.leave_old(),
        }
    }

    /// CoDel serves a flow, which has credits above 0. The length of the packet that is given is taken from them.
    #[inline(always)]
    fn serve_flow<K: Recorder>(
        &mut self,
        flow: u32,
        now: u64,
        params: &Params,
        journal: &mut Journal<K>,
    ) -> Option<Served>
        requires flow { flow < length self.old.queues.lists.queues }
        requires moment { now < 2 ^ 60 }
        requires credits { pos 0 <ℤ (flow_state_at self.old.queues flow).credits }
        requires room { waiting_in self.old.queues.lists ≤ journal.old.room }
        ensures { ServesFlow params.now now flow self.old journal.old result self.new journal.new }
    {
        let flow_state = &mut self.flow_states[flow as usize];
        let served = serve_queue(
            &mut self.flows,
            flow,
            &mut flow_state.codel,
            now,
            params,
            journal,
        );
        let Some(given) = &served else {
            return None;
        };
        flow_state.credits -= i64::from(given.waiting.packet.len());
        served
    }
}

/// CoDel serves the queue of a flow.
#[inline(always)]
fn serve_queue<K: Recorder>(
    flows: &mut Flows,
    flow: u32,
    codel: &mut Codel,
    now: u64,
    params: &Params,
    journal: &mut Journal<K>,
) -> Option<Served>
    requires flow { flow < length flows.old.lists.queues }
    requires moment { now < 2 ^ 60 }
    requires numbers { IsStateInRange codel.old }
    requires room { waiting_in flows.old.lists ≤ journal.old.room }
    ensures { ServesQueue params.now now flow flows.old codel.old journal.old result flows.new codel.new journal.new }
{
    let mut line = flows.line(flow);
    let mut sink = JournalSink {
        journal,
        moment: now,
        cause: Cause::Codel,
    };
    codel.serve_in_place(&mut line, now, params, &mut sink)
}

/// Drops so many packets from the head of a flow's queue, as overflow.
fn drop_heads<K: Recorder>(
    flows: &mut Flows,
    flow: u32,
    batch: u64,
    moment: u64,
    journal: &mut Journal<K>,
)
    requires flow { flow < length flows.old.lists.queues }
    requires room { length (queue_at flows.old.lists flow) ≤ journal.old.room }
    ensures { DropsHeads flow batch moment flows.old journal.old flows.new journal.new }
{
    for _ in 0..batch {
        if let Some(dropped) = flows.pop(flow) {
            journal.drop(&dropped, moment, Cause::Overflow);
        }
    }
}
