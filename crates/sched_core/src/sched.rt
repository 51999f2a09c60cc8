//! The scheduler: each call makes one step, or refuses it and changes nothing, and the journal keeps what came of it.

ghost use Rattle.std.specs.Prelude.{◌≡◌, ◌≢◌, ◌+◌, ◌-◌, ◌<◌, ◌≤◌, ◌⊎◌, [], max, All, Some, None, IfOk, IfErr, IsOk, MatchResult, OnOk, OnErr, length};
ghost use Rattle.journal_core.specs.State.{moment_fault_of, Tests};
ghost use Rattle.journal_core.specs.declared.outcome.Answer.TheVariants as answer;
ghost use Rattle.journal_core.specs.declared.step.Refusal.TheVariants as refusal;

use crate::classifier::Classifier;
use crate::enqueue_room::EnqueueRoom;
use crate::given_up::{GivenUp, Remains};
use codel_core::Served;
use fair_core::{FairQueue, FlowView};
use journal_core::{
    Admitted, Answer, CloseFault, Event, EventList, Journal, MAX_MOMENT, Memory, MomentFault,
    Recorder, Refusal, Sent, Step, Totals, TupleRow, gather_rows_with_seed,
};
use packet_core::{Packet, Params, Seed, Waiting};
use std::alloc::Global;
use std::marker::Model;

/// At most this many packets are accepted. So neither a sum of their lengths nor a count of their events leaves 64 bits.
pub const MAX_ACCEPTED: u64 = 1 << 40;

/// Whether a step may be made at that moment, the last one being `last`.
fn test_moment(moment: u64, last: u64) -> Result<(), MomentFault>
    ensures { Tests (moment_fault_of moment last) result }
{
    if moment >= MAX_MOMENT {
        return Err(MomentFault::TooLarge);
    }
    if moment < last {
        return Err(MomentFault::Backwards { last });
    }
    Ok(())
}

/// What a dequeue at that moment answers of a packet that is served.
fn sent_of(served: &Served, moment: u64) -> Sent
    ensures { result ≡ record {
      id = served.now.waiting.id;
      moment = moment;
      packet = served.now.waiting.packet;
      mark = served.now.mark;
    } }
{
    Sent {
        id: served.waiting.id,
        moment,
        packet: served.waiting.packet,
        mark: served.mark,
    }
}

/// A packet scheduler by FQ-CoDel (RFC 8290), with the journal of what became of every packet. A recorder is told each
/// fate, and stores all of them unless another is chosen. What the calls say of memory leaves out what a recorder takes
/// as it is told an event: those of `journal_core` take none.
#[derive(Debug, Drop)]
pub struct Sched<K: Recorder = EventList> {
    params: Params,
    seed: Seed,
    classifier: Classifier,
    fair_queue: FairQueue,
    journal: Journal<K>,
    last_moment: u64,
    is_closed: bool,
    turns: u64,
    enqueue_room: EnqueueRoom,
}

impl<K: Recorder> Model for Sched<K> {
    ghost use Rattle.sched_core.specs.Schedulers.{Scheduler};

    ghost Value = { Scheduler };

    ghost use Rattle.sched_core.specs.Kept.{scheduler_of, IsSchedulerKept};

    ghost view = { scheduler_of };

    ghost invariant = { IsSchedulerKept };
}

impl<K: Recorder> Sched<K> {
    ghost use Rattle.flow_core.specs.FlowLists.{waiting_in};
    ghost use Rattle.sched_core.specs.AnyStep.{GoesOn, WantsRoom};
    ghost use Rattle.journal_core.specs.Calls.{admitted_at, close_refusal};
    ghost use Rattle.fair_core.specs.FairQueues.{queue_of};
    ghost use Rattle.journal_core.specs.JournalLaws.{JournalLaws, WaitWithoutFate};
    ghost use Rattle.journal_core.specs.Losses.{AreGivenBackOnce, departed_packets, lost_packets};
    ghost use Rattle.journal_core.specs.Runs.{Takes};
    ghost use Rattle.sched_core.specs.Schedulers.{ComparesFew, IsAdvanced, IsMadeFor, IsServed, discipline_of, flows_of, new_scheduler_for};
    ghost use Rattle.fair_core.specs.Shown.{flow_shown};
    ghost use Rattle.journal_core.specs.State.{enqueue_refusal_of, refusal_of, IsRefusal};
    ghost use Rattle.journal_core.specs.Statistics.{statistics};
    ghost use Rattle.journal_core.specs.declared.step.Step.TheVariants.{Enqueue, Dequeue, Close};

    /// A scheduler before its first step, over a recorder that was told nothing. Where the recorder says for how many
    /// packets it was made, these have to be `limit` and one more, or more than that. Room for the close, for both lists
    /// of flows, for the credits, for CoDel's states and for flow numbers is taken here.
    pub fn try_with_recorder(
        alloc: Global,
        params: Params,
        seed: Seed,
        recorder: K,
    ) -> Result<Sched<K>, Memory>
        requires untold { K.told recorder ≡ [] }
        requires none_sent { K.sent recorder ≡ [] }
        requires no_loss { K.lost recorder ≡ [] }
        requires made_for { IsMadeFor params.limit (K.made_for recorder) }
        ensures { IfOk result (λ s. s ≡ new_scheduler_for params seed (K.made_for recorder)) }
    {
        let classifier = Classifier::try_new(alloc, &params, seed)?;
        Ok(Sched {
            fair_queue: FairQueue::try_new(alloc, params.flows())?,
            journal: Journal::try_over(recorder, 1)?,
            params,
            seed,
            classifier,
            last_moment: 0,
            is_closed: false,
            turns: 0,
            enqueue_room: EnqueueRoom::none(),
        })
    }

    /// Takes memory for so many enqueues, at most 2^40: the next ones take none. It is refused only where fewer are
    /// reserved already, and then nothing changes.
    pub fn reserve(&mut self, enqueues: u64) -> Result<(), Memory>
        requires { enqueues ≤ MAX_ACCEPTED }
        ensures ok { OnOk result (self.new.room ≡ max self.old.room enqueues) }
        ensures rest { self.new ≡ record self.old { room = self.new.room; capacity = self.new.capacity } }
        ensures capacity { OnOk result (self.new.capacity
            ≡ max self.old.capacity (waiting_in (flows_of self.old).lists + enqueues)) }
        ensures missing { OnErr result (self.old.room < enqueues) }
        ensures short { OnErr result (K.can_refuse
            ⊎ (self.old.capacity < waiting_in (flows_of self.old).lists + enqueues)) }
        ensures err { OnErr result (self.new ≡ self.old) }
    {
        self.enqueue_room
            .reserve(enqueues, &mut self.fair_queue, &mut self.journal)
    }

    /// How many enqueues are reserved: the next ones that are accepted, so many, take no memory beyond what the recorder
    /// takes.
    #[inline(always)]
    pub fn room(&self) -> u64
        ensures value { result ≡ self.now.room }
        ensures within { waiting_in (flows_of self.now).lists + result ≤ self.now.capacity }
    {
        self.enqueue_room.reserved()
    }

    /// Accepts a packet from a lane at a moment, in microseconds, into the queue of its flow, with room for its fate
    /// in the journal. Where there is no memory for one packet more, it takes some for several at once. While more
    /// packets wait than `limit`, or more bytes than `memory_limit`, where that is set, the flow that has the most
    /// bytes then loses a batch from its head (RFC 8290, section 4.1; tc-fq_codel(8)). It refuses a moment of 2^60 or
    /// more or before the last one, then a packet after the close, then one after 2^40 others, and last where a growth
    /// for one packet is refused.
    // Merged into its callers, as all that most packets pass through is: the packet is then written into its slot from
    // where the caller has it.
    #[inline(always)]
    pub fn enqueue(&mut self, moment: u64, lane: u32, packet: Packet) -> Result<Admitted, Refusal>
        ensures admitted { IfOk result
            (λ a. a ≡ admitted_at (discipline_of self.old) self.old.standing.state moment packet) }
        ensures made { OnOk result (IsAdvanced self.old (Enqueue moment lane packet) answer.Accepted self.new) }
        ensures room { OnOk result (self.new.room ≡ self.old.room - 1) }
        ensures few_comparisons { OnOk result (ComparesFew self.old self.new) }
        ensures compares { 2 ≤ self.old.params.flows → OnOk result (1 ≤ self.new.comparisons) }

        // Each refusal comes in its case, want of memory last, and changes nothing.
        ensures refused { IfErr result (IsRefusal (refusal_of self.old.standing.state (Enqueue moment lane packet))) }
        ensures reserved { 0 < self.old.room
            → OnErr result (refusal_of self.old.standing.state (Enqueue moment lane packet) ≢ None) }
        ensures capacity { 0 < self.old.room → OnOk result (self.new.capacity ≡ self.old.capacity) }
        ensures short { refusal_of self.old.standing.state (Enqueue moment lane packet) ≡ None
            → OnErr result (K.can_refuse ⊎ (self.old.capacity ≤ waiting_in (flows_of self.old).lists)) }
        ensures unchanged { OnErr result (self.new ≡ self.old) }
    {
        self.test_enqueue(moment)?;
        Ok(self.admit(moment, lane, packet)?)
    }

    /// The same at a moment that isn't refused. It fails for want of memory alone, and then nothing has changed.
    #[inline(always)]
    pub(crate) fn admit(
        &mut self,
        moment: u64,
        lane: u32,
        packet: Packet,
    ) -> Result<Admitted, Memory>
        requires { refusal_of self.old.standing.state (Enqueue moment lane packet) ≡ None }
        ensures admitted { IfOk result
            (λ a. a ≡ admitted_at (discipline_of self.old) self.old.standing.state moment packet) }
        ensures made { OnOk result (IsAdvanced self.old (Enqueue moment lane packet) answer.Accepted self.new) }
        ensures room { OnOk result (self.new.room ≡ self.old.room - 1) }
        ensures few_comparisons { OnOk result (ComparesFew self.old self.new) }
        ensures compares { 2 ≤ self.old.params.flows → OnOk result (1 ≤ self.new.comparisons) }
        ensures capacity { 0 < self.old.room → OnOk result (self.new.capacity ≡ self.old.capacity) }
        ensures missing { OnErr result (self.old.room ≡ 0) }
        ensures short { OnErr result (K.can_refuse
            ⊎ (self.old.capacity ≤ waiting_in (flows_of self.old).lists)) }
        ensures unchanged { OnErr result (self.new ≡ self.old) }
    {
        self.enqueue_room
            .provide(&mut self.fair_queue, &mut self.journal)?;
        let waiting = Waiting {
            id: self.fair_queue.arrived(),
            stamp: moment,
            packet,
        };
        let flow = self.classifier.flow_of(&packet);
        self.fair_queue.clear_comparisons();
        self.fair_queue.arrive(flow, waiting, &self.params);
        self.journal.accept(&waiting, lane, flow);
        self.fair_queue
            .overflow(&self.params, moment, &mut self.journal);
        self.last_moment = moment;
        self.enqueue_room.spend();
        Ok(Admitted {
            id: waiting.id,
            moment,
            flow,
        })
    }

    /// Gives the packet that is next in turn, or nothing where none waits, at a moment in microseconds (RFC 8290,
    /// section 4.2). CoDel may drop packets before it, or mark it (RFC 8289, section 5), and one that CoDel doesn't
    /// mark may be marked for the threshold (RFC 8290, section 5.2.7). It takes no memory beyond what its recorder
    /// takes. It refuses a moment of 2^60 or more or before the last one.
    // Merged into its callers, as all that most packets pass through is: the packet is then copied once, from its slot
    // to where the caller wants it, and only the parts that the caller reads.
    #[inline(always)]
    pub fn dequeue(&mut self, moment: u64) -> Result<Option<Sent>, MomentFault>
        ensures made { IfOk result (λ sent. IsServed self.old moment sent self.new) }
        ensures few_comparisons { OnOk result (ComparesFew self.old self.new) }
        ensures refused { IfErr result
            (λ fault. refusal_of self.old.standing.state (Dequeue moment) ≡ Some (refusal.Moment fault)) }
        ensures unchanged { OnErr result (self.new ≡ self.old) }
    {
        self.test_dequeue(moment)?;
        Ok(self.serve(moment))
    }

    /// The same at a moment that isn't refused.
    #[inline(always)]
    pub(crate) fn serve(&mut self, moment: u64) -> Option<Sent>
        requires { refusal_of self.old.standing.state (Dequeue moment) ≡ None }
        ensures made { IsServed self.old moment result self.new }
        ensures few_comparisons { ComparesFew self.old self.new }
    {
        self.last_moment = moment;
        self.fair_queue.clear_comparisons();
        let serving = self
            .fair_queue
            .serve(moment, &self.params, &mut self.journal);
        self.turns = serving.turns;
        let Some(served) = &serving.served else {
            return None;
        };
        let sent = sent_of(served, moment);
        self.journal.send(served, moment);
        Some(sent)
    }

    /// From here on nothing is accepted; dequeues go on. The moment is in microseconds. It takes no memory beyond what
    /// its recorder takes. It refuses a moment of 2^60 or more or before the last one, then a second close.
    pub fn close(&mut self, moment: u64) -> Result<(), CloseFault>
        ensures made { OnOk result (IsAdvanced self.old (Close moment) answer.Closed self.new) }
        ensures room { self.new.room ≡ self.old.room }
        ensures capacity { self.new.capacity ≡ self.old.capacity }
        ensures few_comparisons { OnOk result (ComparesFew self.old self.new) }
        ensures refused { IfErr result
            (λ fault. refusal_of self.old.standing.state (Close moment) ≡ Some (close_refusal fault)) }
        ensures unchanged { OnErr result (self.new ≡ self.old) }
    {
        self.test_close(moment)?;
        self.end(moment);
        Ok(())
    }

    /// The same where the close isn't refused.
    pub(crate) fn end(&mut self, moment: u64)
        requires { refusal_of self.old.standing.state (Close moment) ≡ None }
        ensures made { IsAdvanced self.old (Close moment) answer.Closed self.new }
        ensures room { self.new.room ≡ self.old.room }
        ensures capacity { self.new.capacity ≡ self.old.capacity }
        ensures few_comparisons { ComparesFew self.old self.new }
    {
        self.fair_queue.clear_comparisons();
        self.journal.close(moment);
        self.last_moment = moment;
        self.is_closed = true;
    }

    /// Makes a step of any kind as the call for its kind does, and answers as a run does: where the step is refused
    /// the answer says why. It fails for want of memory alone, and then the step is an enqueue that isn't refused and
    /// has no room. Nothing has changed after either.
    pub fn make(&mut self, step: &Step) -> Result<Answer, Memory>
        ensures made { IfOk result
            (λ said. Takes (discipline_of self.old) self.old.standing step.now said self.new.standing) }
        ensures params { self.new.params ≡ self.old.params }
        ensures seed { self.new.seed ≡ self.old.seed }
        ensures goes_on { IfOk result (λ said. GoesOn self.old step.now said self.new) }
        ensures memory { OnErr result (WantsRoom self.old step.now) }
        ensures reserved { 0 < self.old.room → IsOk result }
        ensures unchanged { OnErr result (self.new ≡ self.old) }
    {
        if let Err(refusal) = self.test(step) {
            return Ok(Answer::Refused(refusal));
        }
        self.make_tested(step)
    }

    /// The same where the step isn't refused.
    pub(crate) fn make_tested(&mut self, step: &Step) -> Result<Answer, Memory>
        requires { refusal_of self.old.standing.state step.now ≡ None }
        ensures made { IfOk result
            (λ said. Takes (discipline_of self.old) self.old.standing step.now said self.new.standing) }
        ensures params { self.new.params ≡ self.old.params }
        ensures seed { self.new.seed ≡ self.old.seed }
        ensures goes_on { IfOk result (λ said. GoesOn self.old step.now said self.new) }
        ensures memory { OnErr result (WantsRoom self.old step.now) }
        ensures unchanged { OnErr result (self.new ≡ self.old) }
    {
        Ok(match *step {
            Step::Enqueue {
                moment,
                lane,
                packet,
            } => {
                self.admit(moment, lane, packet)?;
                Answer::Accepted
            }
            Step::Dequeue { moment } => match self.serve(moment) {
                Some(_) => Answer::Sent,
                None => Answer::Idle,
            },
            Step::Close { moment } => {
                self.end(moment);
                Answer::Closed
            }
        })
    }

    /// The parameters that it was made with.
    pub fn params(&self) -> &Params
        ensures { result.now ≡ self.now.params }
    {
        &self.params
    }

    /// The seed that it was made with.
    pub fn seed(&self) -> Seed
        ensures { result ≡ self.now.seed }
    {
        self.seed
    }

    /// How many turns the last dequeue took that wasn't refused, and 0 before the first (RFC 8290, section 4.2).
    pub fn turns(&self) -> u64
        ensures { result ≡ self.now.turns }
    {
        self.turns
    }

    /// How often the last step that wasn't refused compared the bytes of two flows, and 0 before the first. For each
    /// event of the step it is at most the least number of doublings of one that gives as many as there are flows:
    /// 10 for 1,024 flows. So a dequeue that finds no packet makes none. An enqueue makes one at least where there are
    /// two flows or more.
    pub fn comparisons(&self) -> u64
        ensures { result ≡ self.now.comparisons }
    {
        self.fair_queue.comparisons()
    }

    /// What is kept of a flow, by its number.
    pub fn flow_view(&self, flow: u32) -> FlowView
        requires { flow < self.now.params.flows }
        ensures { result ≡ flow_shown (flows_of self.now) flow }
    {
        self.fair_queue.view(flow)
    }

    /// Who is told what becomes of each packet. It was told of each packet that left as sent, with the ECN field that
    /// it left with, and of each drop with the packet that is lost, as it was accepted. So an embedder gets each
    /// packet back once, with its tag, or it waits: the packets that were accepted are, in another order, those that
    /// were sent, those that the recorder was told of as lost and those in the flows' queues.
    #[tactic(auto, using(crate::proofs::KeptScheduler::seen_departures, crate::proofs::KeptScheduler::seen_losses))]
    pub fn recorder(&self) -> &K
        ensures told { K.told result.now ≡ self.now.standing.events }
        ensures sent { K.sent result.now ≡ departed_packets self.now.standing.events }
        ensures lost { K.lost result.now ≡ lost_packets self.now.standing.events }
        ensures once { AreGivenBackOnce (flows_of self.now).lists.queues (K.lost result.now) self.now.standing.events }
        ensures made_for { K.made_for result.now ≡ self.now.made_for }
        ensures made_for_limit { IsMadeFor self.now.params.limit (K.made_for result.now) }
    {
        self.journal.recorder()
    }

    /// Gives the scheduler up: its recorder comes back, and the packets that wait. So an embedder gets those back,
    /// too.
    pub fn give_up(self) -> GivenUp<K>
        ensures told { K.told result.recorder ≡ self.standing.events }
        ensures sent { K.sent result.recorder ≡ departed_packets self.standing.events }
        ensures lost { K.lost result.recorder ≡ lost_packets self.standing.events }
        ensures waits { result.remains ≡ (flows_of self).lists.queues }
        ensures once { AreGivenBackOnce result.remains (K.lost result.recorder) self.standing.events }
        ensures made_for { K.made_for result.recorder ≡ self.made_for }
    {
        self.recorder();
        let Sched {
            params: _,
            seed: _,
            classifier: _,
            fair_queue,
            journal,
            last_moment: _,
            is_closed: _,
            turns: _,
            enqueue_room: _,
        } = self;
        GivenUp {
            recorder: journal.into_recorder(),
            remains: Remains::of(fair_queue.into_flows()),
        }
    }

    /// The laws of the journal at every moment, whether its events are stored or not. It does nothing when it runs: it
    /// is called for its clauses.
    #[tactic(auto, using(crate::proofs::KeptScheduler::seen_waits, crate::proofs::KeptScheduler::seen_balance))]
    pub fn journal_laws(&self)
        ensures laws { JournalLaws (discipline_of self.now).flow_of self.now.standing.events }
        ensures waiting { WaitWithoutFate (queue_of (flows_of self.now)) self.now.standing.events }
        ensures balance { (statistics self.now.standing.events).accepted
            ≡ (statistics self.now.standing.events).sent + (statistics self.now.standing.events).dropped_codel
            + (statistics self.now.standing.events).dropped_overflow + (statistics self.now.standing.events).queued }
    {
        let _ = &self.journal;
    }

    /// The statistics of the journal.
    pub fn totals(&self) -> Totals
        ensures value { result ≡ statistics self.now.standing.events }
        ensures balance { result.accepted
            ≡ result.sent + result.dropped_codel + result.dropped_overflow + result.queued }
    {
        let counts = self.journal.counts();
        Totals {
            accepted: counts.accepted,
            accepted_bytes: counts.accepted_bytes,
            sent: counts.sent,
            sent_bytes: counts.sent_bytes,
            dropped_codel: counts.dropped_codel,
            dropped_overflow: counts.dropped_overflow,
            dropped_bytes: counts.dropped_bytes,
            marked: counts.marked,
            threshold_marked: counts.threshold_marked,
            queued: counts.accepted
                - (counts.sent + counts.dropped_codel + counts.dropped_overflow),
            queued_bytes: counts.accepted_bytes - (counts.sent_bytes + counts.dropped_bytes),
            closed: self.is_closed,
        }
    }

    /// How many events the journal has, whether they are stored or not.
    #[tactic(auto, using(crate::proofs::KeptScheduler::seen_number))]
    pub fn event_count(&self) -> u64
        ensures { result ≡ length self.now.standing.events }
    {
        let counts = self.journal.counts();
        let fates = counts.sent + counts.dropped_codel + counts.dropped_overflow;
        counts.accepted + fates + u64::from(self.is_closed)
    }

    /// How many packets wait.
    #[tactic(auto, using(crate::proofs::KeptScheduler::seen_queued))]
    pub fn queued(&self) -> u64
        ensures value { result ≡ waiting_in (flows_of self.now).lists }
        ensures journal { result ≡ (statistics self.now.standing.events).queued }
    {
        self.fair_queue.waiting()
    }

    /// Whether there was a close.
    pub fn is_closed(&self) -> bool
        ensures value { result ≡ self.now.standing.state.closed }
        ensures journal { result ≡ (statistics self.now.standing.events).closed }
    {
        self.is_closed
    }

    /// The moment of the last step that wasn't refused, in microseconds, and 0 before the first.
    pub fn last_moment(&self) -> u64
        ensures value { result ≡ self.now.standing.state.last }
        ensures range { result < MAX_MOMENT }
    {
        self.last_moment
    }

    /// How many packets more may be accepted: 2^40 in all.
    pub fn ids_left(&self) -> u64
        ensures { result + self.now.standing.state.next_id ≡ MAX_ACCEPTED }
    {
        MAX_ACCEPTED - self.fair_queue.arrived()
    }

    /// Why a step of any kind is refused, if it is, apart from want of memory.
    pub(crate) fn test(&self, step: &Step) -> Result<(), Refusal>
        ensures { Tests (refusal_of self.now.standing.state step.now) result }
    {
        match *step {
            Step::Enqueue { moment, .. } => self.test_enqueue(moment)?,
            Step::Dequeue { moment } => self.test_dequeue(moment)?,
            Step::Close { moment } => self.test_close(moment)?,
        }
        Ok(())
    }

    /// Why an enqueue at that moment is refused, if it is, apart from want of memory.
    pub(crate) fn test_enqueue(&self, moment: u64) -> Result<(), Refusal>
        ensures { Tests (enqueue_refusal_of self.now.standing.state moment) result }
    {
        self.test_close(moment)?;
        if self.fair_queue.arrived() >= MAX_ACCEPTED {
            return Err(Refusal::Exhausted);
        }
        Ok(())
    }

    /// Why a dequeue at that moment is refused, if it is.
    pub(crate) fn test_dequeue(&self, moment: u64) -> Result<(), MomentFault>
        ensures { Tests (moment_fault_of moment self.now.standing.state.last) result }
    {
        test_moment(moment, self.last_moment)
    }

    /// Why a close at that moment is refused, if it is.
    pub(crate) fn test_close(&self, moment: u64) -> Result<(), CloseFault>
        ensures { MatchResult result
            (λ _. refusal_of self.now.standing.state (Close moment) ≡ None)
            (λ fault. refusal_of self.now.standing.state (Close moment) ≡ Some (close_refusal fault)) }
    {
        test_moment(moment, self.last_moment)?;
        if self.is_closed {
            return Err(CloseFault::ClosedAlready);
        }
        Ok(())
    }
}

impl Sched<EventList> {
    ghost use Rattle.fair_core.specs.FairQueues.{queue_of};
    ghost use Rattle.journal_core.specs.JournalLaws.{JournalLaws, WaitWithoutFate};
    ghost use Rattle.sched_core.specs.Schedulers.{discipline_of, flows_of, new_scheduler};
    ghost use Rattle.journal_core.specs.TupleRows.{tuple_rows};

    /// A scheduler before its first step. Room for the close, for both lists of flows, for the credits, for CoDel's
    /// states and for flow numbers is taken here.
    pub fn try_new(alloc: Global, params: Params, seed: Seed) -> Result<Sched, Memory>
        ensures { IfOk result (λ s. s ≡ new_scheduler params seed) }
    {
        Sched::try_with_recorder(alloc, params, seed, EventList::new(alloc))
    }

    /// The journal: what became of every packet, in order.
    pub fn events(&self) -> &[Event]
        ensures value { result.now ≡ self.now.standing.events }
        ensures laws { JournalLaws (discipline_of self.now).flow_of result.now }
        ensures waiting { WaitWithoutFate (queue_of (flows_of self.now)) result.now }
    {
        self.journal_laws();
        self.journal.events()
    }

    /// What became of the packets of each five-tuple, in order of first acceptance. It goes twice through the journal,
    /// finds five-tuples by a hash of the scheduler's seed, and fails for want of memory alone.
    pub fn tuple_rows(&self) -> Result<Vec<TupleRow>, Memory>
        ensures rows { IfOk result (λ rows. rows.items ≡ tuple_rows self.now.standing.events) }
        ensures balance { IfOk result
            (λ rows. All (λ row. row.accepted ≡ row.sent + row.dropped + row.queued) rows.items) }
    {
        gather_rows_with_seed(self.journal.allocator(), &self.seed, self.events())
    }
}
