//! Who is told what becomes of each packet, and who is told the steps of a run.

ghost use Rattle.std.specs.Prelude.{◌≡◌, ◌+◌, ◌-◌, ◌<◌, ◌≤◌, ℕ, List, [], ◌∷◌, ◌++◌, OnErr, OnOk, length};
ghost use Rattle.packet_core.specs.declared.packet.Waiting.{Waiting};
ghost use Rattle.journal_core.specs.MadeFor.{MadeFor, made_for_any};
ghost use Rattle.journal_core.specs.Recorders.{listed_events, listed_losses, listed_room, listed_sent, listed_step_room, listed_steps, null_events, null_losses, null_room, null_sent, null_step_room, null_steps};
ghost use Rattle.journal_core.specs.Steps.{accepted_event, drop_event, sent_event};
ghost use Rattle.journal_core.specs.declared.event.Event.{Event};
ghost use Rattle.journal_core.specs.declared.event.Event.TheVariants.{Closed};
ghost use Rattle.journal_core.specs.declared.step.Step.{Step};

use crate::event::{Cause, Event};
use crate::ghost_list::GhostList;
use crate::step::{Memory, Step};
use codel_core::Served;
use packet_core::Waiting;
use std::alloc::Global;

/// What becomes of each packet is told to a recorder, with the packet: that it was accepted, sent or lost; and the
/// close. It may store all of it, some or nothing. So an embedder gets each packet back once, by its tag: here where it
/// is lost, and where it is sent, after the call, which answers with the packet and its bytes still to be sent. The
/// lists of what it was told are there for proofs.
///
/// The recorders of this crate take memory in `reserve` alone, and none in `accept`, `send`, `lose` and `close`. A
/// recorder that can't know at `reserve` how much it will need takes memory in those calls too. It says so where it
/// does, and what becomes of it when that memory is refused, since these calls can't fail.
pub trait Recorder: Drop {
    /// The events that it was told, in order.
    ghost told: { Self → List Event };

    /// The packets that it was told of as sent, in order, each with the ECN field that it left with.
    ghost sent: { Self → List Waiting };

    /// The packets that it was told of as lost, in order, each as it waited.
    ghost lost: { Self → List Waiting };

    /// How many events more it can be told before it must reserve.
    ghost room: { Self → ℕ };

    /// What it was made for, where that matters to who reads it: for how many packets, and numbers of its own kind. No
    /// call changes it.
    ghost made_for: { Self → MadeFor } = { λ _. made_for_any };

    /// That a `reserve` of its kind can be refused. A recorder whose `reserve` never answers Err says `⊥`.
    ghost can_refuse: { Type 0 } = { Unit {0} };

    /// A packet was accepted, from that lane, into the queue of that flow: its id, its moment and the packet as it
    /// came.
    fn accept(&mut self, packet: &Waiting, lane: u32, flow: u32)
        requires { 0 < room self.old }
        ensures told { told self.new ≡ told self.old ++ accepted_event lane flow packet.now ∷ [] }
        ensures sent { sent self.new ≡ sent self.old }
        ensures lost { lost self.new ≡ lost self.old }
        ensures room { room self.new ≡ room self.old - 1 }
        ensures made_for { made_for self.new ≡ made_for self.old };

    /// A packet goes to the device at a moment, with its mark, and with the ECN field that the mark gave it.
    fn send(&mut self, served: &Served, moment: u64)
        requires { 0 < room self.old }
        ensures told { told self.new ≡ told self.old ++ sent_event moment served.now.mark served.now.waiting ∷ [] }
        ensures sent { sent self.new ≡ sent self.old ++ served.now.waiting ∷ [] }
        ensures lost { lost self.new ≡ lost self.old }
        ensures room { room self.new ≡ room self.old - 1 }
        ensures made_for { made_for self.new ≡ made_for self.old };

    /// A packet is lost at a moment, for that cause.
    fn lose(&mut self, packet: &Waiting, moment: u64, cause: Cause)
        requires { 0 < room self.old }
        ensures told { told self.new ≡ told self.old ++ drop_event moment cause packet.now ∷ [] }
        ensures sent { sent self.new ≡ sent self.old }
        ensures lost { lost self.new ≡ lost self.old ++ packet.now ∷ [] }
        ensures room { room self.new ≡ room self.old - 1 }
        ensures made_for { made_for self.new ≡ made_for self.old };

    /// There was a close at a moment.
    fn close(&mut self, moment: u64)
        requires { 0 < room self.old }
        ensures told { told self.new ≡ told self.old ++ Closed moment ∷ [] }
        ensures sent { sent self.new ≡ sent self.old }
        ensures lost { lost self.new ≡ lost self.old }
        ensures room { room self.new ≡ room self.old - 1 }
        ensures made_for { made_for self.new ≡ made_for self.old };

    /// Takes what memory it needs for so many events more. It is refused only where there is less room already.
    fn reserve(&mut self, more: usize) -> Result<(), Memory>
        ensures told { told self.new ≡ told self.old }
        ensures sent { sent self.new ≡ sent self.old }
        ensures lost { lost self.new ≡ lost self.old }
        ensures room { room self.old ≤ room self.new }
        ensures ok { OnOk result (more ≤ room self.new) }
        ensures missing { OnErr result (room self.old < more) }
        ensures err { OnErr result (room self.new ≡ room self.old) }
        ensures made_for { made_for self.new ≡ made_for self.old }
        ensures refused { OnErr result can_refuse };
}

/// Who is told the steps that an engine makes, and stores them or not.
pub trait StepRecorder: Drop {
    /// The steps that it was told, in order.
    ghost told: { Self → List Step };

    /// How many more it can be told before it must reserve.
    ghost room: { Self → ℕ };

    /// That a `reserve` of its kind can be refused. A recorder whose `reserve` never answers Err says `⊥`.
    ghost can_refuse: { Type 0 } = { Unit {0} };

    /// A step was made. It takes no memory.
    fn record(&mut self, step: Step)
        requires { 0 < room self.old }
        ensures told { told self.new ≡ told self.old ++ step ∷ [] }
        ensures room { room self.new ≡ room self.old - 1 };

    /// Takes what memory it needs for so many more. It is refused only where there is less room already.
    fn reserve(&mut self, more: usize) -> Result<(), Memory>
        ensures told { told self.new ≡ told self.old }
        ensures room { room self.old ≤ room self.new }
        ensures ok { OnOk result (more ≤ room self.new) }
        ensures missing { OnErr result (room self.old < more) }
        ensures err { OnErr result (room self.new ≡ room self.old) }
        ensures refused { OnErr result can_refuse };
}

/// It stores each event, and takes memory in `reserve` alone. The packets that are sent and lost stand in proofs alone.
#[derive(Debug, Drop)]
pub struct EventList {
    events: Vec<Event>,
    sent: GhostList<Waiting>,
    lost: GhostList<Waiting>,
}

impl EventList {
    /// No event yet.
    pub fn new(alloc: Global) -> EventList
        ensures told { listed_events result ≡ [] }
        ensures sent { listed_sent result ≡ [] }
        ensures lost { listed_losses result ≡ [] }
    {
        EventList {
            events: Vec::new(alloc),
            sent: GhostList::new(),
            lost: GhostList::new(),
        }
    }

    /// The events, in order.
    pub fn events(&self) -> &[Event]
        ensures { result.now ≡ listed_events self.now }
    {
        &self.events
    }

    /// The events, in order, once it is told nothing more.
    pub fn into_events(self) -> Vec<Event>
        ensures { result.items ≡ listed_events self }
    {
        let EventList {
            events,
            sent: _,
            lost: _,
        } = self;
        events
    }

    /// Forgets what it was told, and keeps its memory: there is room for as many events as before, and for those that it
    /// was told. So it can serve another scheduler.
    pub fn clear(&mut self)
        ensures told { listed_events self.new ≡ [] }
        ensures sent { listed_sent self.new ≡ [] }
        ensures lost { listed_losses self.new ≡ [] }
        ensures room { listed_room self.new ≡ listed_room self.old + length (listed_events self.old) }
    {
        self.events.clear();
        self.sent = GhostList::new();
        self.lost = GhostList::new();
    }

    /// Where its memory comes from.
    pub fn allocator(&self) -> Global {
        *self.events.allocator()
    }
}

impl Recorder for EventList {
    ghost told = { listed_events };

    ghost sent = { listed_sent };

    ghost lost = { listed_losses };

    ghost room = { listed_room };

    fn accept(&mut self, packet: &Waiting, lane: u32, flow: u32) {
        self.events
            .push_reserved(Event::acceptance(packet, lane, flow));
    }

    fn send(&mut self, served: &Served, moment: u64) {
        self.events.push_reserved(Event::departure(served, moment));
        self.sent = self.sent.and(&served.waiting);
    }

    fn lose(&mut self, packet: &Waiting, moment: u64, cause: Cause) {
        self.events
            .push_reserved(Event::loss(packet, moment, cause));
        self.lost = self.lost.and(packet);
    }

    fn close(&mut self, moment: u64) {
        self.events.push_reserved(Event::Closed { moment });
    }

    fn reserve(&mut self, more: usize) -> Result<(), Memory> {
        self.events.reserve(more)
    }
}

/// It stores each step.
#[derive(Debug, Drop)]
pub struct StepList {
    steps: Vec<Step>,
}

impl StepList {
    /// No step yet.
    pub fn new(alloc: Global) -> StepList
        ensures { listed_steps result ≡ [] }
    {
        StepList {
            steps: Vec::new(alloc),
        }
    }

    /// The steps, in order.
    pub fn steps(&self) -> &[Step]
        ensures { result.now ≡ listed_steps self.now }
    {
        &self.steps
    }

    /// The steps, in order, once it is told nothing more.
    pub fn into_steps(self) -> Vec<Step>
        ensures { result.items ≡ listed_steps self }
    {
        let StepList { steps } = self;
        steps
    }

    /// Forgets what it was told, and keeps its memory, as `EventList::clear` does. So it can serve another engine.
    pub fn clear(&mut self)
        ensures told { listed_steps self.new ≡ [] }
        ensures room { listed_step_room self.new ≡ listed_step_room self.old + length (listed_steps self.old) }
    {
        self.steps.clear();
    }
}

impl StepRecorder for StepList {
    ghost told = { listed_steps };

    ghost room = { listed_step_room };

    fn record(&mut self, step: Step) {
        self.steps.push_reserved(step);
    }

    fn reserve(&mut self, more: usize) -> Result<(), Memory> {
        self.steps.reserve(more)
    }
}

/// It stores nothing, and takes no byte: what it is told of packets or of steps stands in proofs alone.
#[derive(Debug, Drop)]
pub struct NullRecorder {
    events: GhostList<Event>,
    sent: GhostList<Waiting>,
    lost: GhostList<Waiting>,
    steps: GhostList<Step>,
}

impl NullRecorder {
    /// Nothing was told yet.
    pub fn new() -> NullRecorder
        ensures told { null_events result ≡ [] }
        ensures sent { null_sent result ≡ [] }
        ensures lost { null_losses result ≡ [] }
        ensures steps { null_steps result ≡ [] }
    {
        NullRecorder {
            events: GhostList::new(),
            sent: GhostList::new(),
            lost: GhostList::new(),
            steps: GhostList::new(),
        }
    }
}

impl Recorder for NullRecorder {
    ghost told = { null_events };

    ghost sent = { null_sent };

    ghost lost = { null_losses };

    ghost room = { null_room };

    ghost can_refuse = { ⊥ };

    #[inline(always)]
    fn accept(&mut self, packet: &Waiting, lane: u32, flow: u32) {
        self.events = self.events.and(&Event::acceptance(packet, lane, flow));
    }

    #[inline(always)]
    fn send(&mut self, served: &Served, moment: u64) {
        self.events = self.events.and(&Event::departure(served, moment));
        self.sent = self.sent.and(&served.waiting);
    }

    #[inline(always)]
    fn lose(&mut self, packet: &Waiting, moment: u64, cause: Cause) {
        self.events = self.events.and(&Event::loss(packet, moment, cause));
        self.lost = self.lost.and(packet);
    }

    #[inline(always)]
    fn close(&mut self, moment: u64) {
        self.events = self.events.and(&Event::Closed { moment });
    }

    fn reserve(&mut self, more: usize) -> Result<(), Memory> {
        self.events = self.events.with_room(more);
        Ok(())
    }
}

impl StepRecorder for NullRecorder {
    ghost told = { null_steps };

    ghost room = { null_step_room };

    ghost can_refuse = { ⊥ };

    fn record(&mut self, step: Step) {
        self.steps = self.steps.and(&step);
    }

    fn reserve(&mut self, more: usize) -> Result<(), Memory> {
        self.steps = self.steps.with_room(more);
        Ok(())
    }
}

const _: () = prove!(size_of::<NullRecorder>() == 0);

const _: () = prove!(size_of::<EventList>() == size_of::<Vec<Event>>());
