//! The engine: a scheduler with the list of its steps.

ghost use Rattle.std.specs.Prelude.{◌≡◌, ◌≢◌, ◌+◌, ◌-◌, ◌<◌, ◌≤◌, ◌++◌, ◌∷◌, ◌⊎◌, [], All, max, None, IfOk, IfErr, OnOk, OnErr, length};

use crate::given_up::GivenUp;
use crate::sched::{MAX_ACCEPTED, Sched};
use fair_core::FlowView;
use journal_core::{
    Admitted, Answer, Event, EventList, MAX_MOMENT, Memory, Recorder, Refusal, Sent, Step,
    StepList, StepRecorder, Totals, TupleRow,
};
use packet_core::{Packet, Params, Seed};
use std::alloc::Global;
use std::marker::Model;

/// A scheduler that keeps the list of its steps. At every moment it is the run of those steps with the parameters and
/// the seed that it was made with: whoever has the three has the whole of it again. It tells its steps to a recorder,
/// as its journal tells another what becomes of packets; both store all that they are told unless others are chosen.
/// What the calls say of memory leaves out what the recorder of events takes as it is told one.
#[derive(Debug, Drop)]
pub struct Engine<K: Recorder = EventList, S: StepRecorder = StepList> {
    sched: Sched<K>,
    steps: S,
    room: u64,
}

impl<K: Recorder, S: StepRecorder> Model for Engine<K, S> {
    ghost use Rattle.sched_core.specs.Engines.{EngineInvariant, Running};

    ghost Value = { Running };

    ghost view = { λ e. record { sched = e.sched; steps = S.told e.steps; room = e.room } };

    ghost invariant = { λ e. EngineInvariant e.sched (S.told e.steps) (S.room e.steps) e.room };
}

impl<K: Recorder, S: StepRecorder> Engine<K, S> {
    ghost use Rattle.flow_core.specs.FlowLists.{waiting_in};
    ghost use Rattle.sched_core.specs.AnyStep.{GoesOn};
    ghost use Rattle.journal_core.specs.Calls.{admitted_at};
    ghost use Rattle.sched_core.specs.Engines.{WantsRoomFor, new_engine_for, room_behind};
    ghost use Rattle.fair_core.specs.FairQueues.{queue_of};
    ghost use Rattle.journal_core.specs.JournalLaws.{JournalLaws, WaitWithoutFate};
    ghost use Rattle.journal_core.specs.Losses.{AreGivenBackOnce, departed_packets, lost_packets};
    ghost use Rattle.journal_core.specs.Runs.{IsRunOf, Takes, unless_refused};
    ghost use Rattle.sched_core.specs.Schedulers.{ComparesFew, IsAdvanced, IsMadeFor, IsServed, discipline_of, flows_of};
    ghost use Rattle.fair_core.specs.Shown.{flow_shown};
    ghost use Rattle.journal_core.specs.State.{refusal_of, IsRefusal, Tests};
    ghost use Rattle.journal_core.specs.Statistics.{statistics};
    ghost use Rattle.journal_core.specs.declared.step.Step.TheVariants.{Enqueue, Dequeue, Close};
    ghost use Rattle.journal_core.specs.declared.outcome.Answer.TheVariants as answer;

    /// An engine before its first step, over recorders of events and of steps that were told none. Where the one of
    /// events says for how many packets it was made, these have to be `limit` and one more, or more than that.
    pub fn try_with_recorders(
        alloc: Global,
        params: Params,
        seed: Seed,
        events: K,
        steps: S,
    ) -> Result<Engine<K, S>, Memory>
        requires events { K.told events ≡ [] }
        requires none_sent { K.sent events ≡ [] }
        requires no_loss { K.lost events ≡ [] }
        requires made_for { IsMadeFor params.limit (K.made_for events) }
        requires steps { S.told steps ≡ [] }
        ensures { IfOk result (λ e. e ≡ new_engine_for params seed (K.made_for events)) }
    {
        Ok(Engine {
            sched: Sched::try_with_recorder(alloc, params, seed, events)?,
            steps,
            room: 0,
        })
    }

    /// Takes memory for so many steps of any kind, at most 2^40: the next ones take none. It is refused only where
    /// fewer are reserved already, and then nothing changes.
    pub fn reserve(&mut self, steps: u64) -> Result<(), Memory>
        requires { steps ≤ MAX_ACCEPTED }
        ensures ok { OnOk result (self.new.room ≡ max self.old.room steps) }
        ensures rest { self.new ≡ record self.old {
          sched = record self.old.sched { room = self.new.sched.room; capacity = self.new.sched.capacity };
          room = self.new.room;
        } }
        ensures capacity { OnOk result (self.new.sched.capacity ≤ max self.old.sched.capacity
            (waiting_in (flows_of self.old.sched).lists + steps)) }
        ensures missing { OnErr result (self.old.room < steps) }

        // It is refused only where a recorder may refuse, or where the flows lack memory.
        ensures short { OnErr result (S.can_refuse ⊎ (K.can_refuse
            ⊎ (self.old.sched.capacity < waiting_in (flows_of self.old.sched).lists + steps))) }
        ensures err { OnErr result (self.new ≡ self.old) }
    {
        if steps <= self.room {
            return Ok(());
        }
        self.steps.reserve(steps as usize)?;
        self.sched.reserve(steps)?;
        self.room = steps;
        Ok(())
    }

    /// Accepts a packet from a lane at a moment, in microseconds, as a scheduler does, and keeps the step. It
    /// refuses a moment of 2^60 or more or before the last one, then a packet after the close, then one after 2^40
    /// others, and last where a growth is refused.
    pub fn enqueue(&mut self, moment: u64, lane: u32, packet: Packet) -> Result<Admitted, Refusal>
        ensures admitted { IfOk result (λ a. a
            ≡ admitted_at (discipline_of self.old.sched) self.old.sched.standing.state moment packet) }
        ensures made { OnOk result (IsAdvanced self.old.sched
            (Enqueue moment lane packet) answer.Accepted self.new.sched) }
        ensures steps { OnOk result (self.new.steps ≡ self.old.steps ++ Enqueue moment lane packet ∷ []) }
        ensures room { OnOk result (self.new.room ≡ self.old.room - 1) }
        ensures few_comparisons { OnOk result (ComparesFew self.old.sched self.new.sched) }
        ensures compares { 2 ≤ self.old.sched.params.flows → OnOk result (1 ≤ self.new.sched.comparisons) }

        // Each refusal comes in its case, want of memory last, and changes nothing.
        ensures refused { IfErr result (IsRefusal
            (refusal_of self.old.sched.standing.state (Enqueue moment lane packet))) }
        ensures reserved { 0 < self.old.room → OnErr result
            (refusal_of self.old.sched.standing.state (Enqueue moment lane packet) ≢ None) }
        ensures short { refusal_of self.old.sched.standing.state (Enqueue moment lane packet) ≡ None
            → OnErr result (S.can_refuse ⊎ (K.can_refuse
            ⊎ (self.old.sched.capacity ≤ waiting_in (flows_of self.old.sched).lists))) }
        ensures unchanged { OnErr result (self.new ≡ self.old) }
    {
        self.sched.test_enqueue(moment)?;
        self.steps.reserve(1)?;
        let admitted = self.sched.admit(moment, lane, packet)?;
        self.steps.record(Step::Enqueue {
            moment,
            lane,
            packet,
        });
        self.room = self.room.saturating_sub(1);
        Ok(admitted)
    }

    /// Gives the packet that is next in turn, or nothing where none waits, at a moment in microseconds, as a
    /// scheduler does, and keeps the step. It refuses a moment of 2^60 or more or before the last one, and last
    /// where a growth is refused.
    pub fn dequeue(&mut self, moment: u64) -> Result<Option<Sent>, Refusal>
        ensures made { IfOk result (λ sent. IsServed self.old.sched moment sent self.new.sched) }
        ensures steps { OnOk result (self.new.steps ≡ self.old.steps ++ Dequeue moment ∷ []) }
        ensures room { OnOk result (self.new.room ≡ self.old.room - 1) }
        ensures few_comparisons { OnOk result (ComparesFew self.old.sched self.new.sched) }
        ensures refused { IfErr result (IsRefusal (refusal_of self.old.sched.standing.state (Dequeue moment))) }
        ensures reserved { 0 < self.old.room
            → OnErr result (refusal_of self.old.sched.standing.state (Dequeue moment) ≢ None) }
        ensures short { refusal_of self.old.sched.standing.state (Dequeue moment) ≡ None → OnErr result S.can_refuse }
        ensures unchanged { OnErr result (self.new ≡ self.old) }
    {
        self.sched.test_dequeue(moment)?;
        self.steps.reserve(1)?;
        let sent = self.sched.serve(moment);
        self.steps.record(Step::Dequeue { moment });
        self.room = self.room.saturating_sub(1);
        Ok(sent)
    }

    /// From here on nothing is accepted; dequeues go on. The moment is in microseconds, and the step is kept. It
    /// refuses a moment of 2^60 or more or before the last one, then a second close, and last where a growth is
    /// refused.
    pub fn close(&mut self, moment: u64) -> Result<(), Refusal>
        ensures made { OnOk result (IsAdvanced self.old.sched (Close moment) answer.Closed self.new.sched) }
        ensures steps { OnOk result (self.new.steps ≡ self.old.steps ++ Close moment ∷ []) }
        ensures room { OnOk result (self.new.room ≡ self.old.room - 1) }
        ensures few_comparisons { OnOk result (ComparesFew self.old.sched self.new.sched) }
        ensures refused { IfErr result (IsRefusal (refusal_of self.old.sched.standing.state (Close moment))) }
        ensures reserved { 0 < self.old.room → OnErr result
            (refusal_of self.old.sched.standing.state (Close moment) ≢ None) }
        ensures short { refusal_of self.old.sched.standing.state (Close moment) ≡ None → OnErr result S.can_refuse }
        ensures unchanged { OnErr result (self.new ≡ self.old) }
    {
        self.sched.test_close(moment)?;
        self.steps.reserve(1)?;
        self.sched.end(moment);
        self.steps.record(Step::Close { moment });
        self.room = self.room.saturating_sub(1);
        Ok(())
    }

    /// Why a step of any kind would be refused now, if it would, apart from want of memory. It changes nothing.
    pub fn test(&self, step: &Step) -> Result<(), Refusal>
        ensures { Tests (refusal_of self.now.sched.standing.state step.now) result }
    {
        self.sched.test(step)
    }

    /// How many packets more may be accepted: 2^40 in all.
    pub fn ids_left(&self) -> u64
        ensures { result + self.now.sched.standing.state.next_id ≡ MAX_ACCEPTED }
    {
        self.sched.ids_left()
    }

    /// Makes a step of any kind as the call for its kind does, and answers as a run does: where the step is refused
    /// the answer says why, and it isn't kept. It fails for want of memory alone, for a step that isn't refused, and
    /// not where room is reserved. Nothing has changed after either.
    pub fn make(&mut self, step: &Step) -> Result<Answer, Memory>
        ensures made { IfOk result (λ said. Takes (discipline_of self.old.sched)
            self.old.sched.standing step.now said self.new.sched.standing) }
        ensures params { self.new.sched.params ≡ self.old.sched.params }
        ensures seed { self.new.sched.seed ≡ self.old.sched.seed }
        ensures goes_on { IfOk result (λ said. GoesOn self.old.sched step.now said self.new.sched) }
        ensures steps { IfOk result (λ said. self.new.steps ≡ self.old.steps ++ unless_refused said step.now) }
        ensures room { IfOk result (λ said. self.new.room ≡ room_behind said self.old.room) }
        ensures memory { OnErr result (WantsRoomFor self.old step.now) }
        ensures unchanged { OnErr result (self.new ≡ self.old) }
    {
        if let Err(refusal) = self.sched.test(step) {
            return Ok(Answer::Refused(refusal));
        }
        self.steps.reserve(1)?;
        let answer = self.sched.make_tested(step)?;
        self.steps.record(*step);
        self.room = self.room.saturating_sub(1);
        Ok(answer)
    }

    /// At every moment it is the run of its steps, whether they are stored or not. It does nothing when it runs: it is
    /// called for its clauses.
    pub fn run_of_steps(&self)
        ensures { IsRunOf (discipline_of self.now.sched) self.now.steps self.now.sched.standing }
    {
        let _ = &self.steps;
    }

    /// Who is told what becomes of each packet: of each that left as sent, and of each drop with the packet that is
    /// lost. So an embedder gets each packet back once, with its tag, or it waits.
    pub fn recorder(&self) -> &K
        ensures told { K.told result.now ≡ self.now.sched.standing.events }
        ensures sent { K.sent result.now ≡ departed_packets self.now.sched.standing.events }
        ensures lost { K.lost result.now ≡ lost_packets self.now.sched.standing.events }
        ensures once { AreGivenBackOnce (flows_of self.now.sched).lists.queues
            (K.lost result.now) self.now.sched.standing.events }
        ensures made_for { K.made_for result.now ≡ self.now.sched.made_for }
    {
        self.sched.recorder()
    }

    /// Gives the engine up: the recorder of its events comes back, with the packets that wait, and that of its steps.
    pub fn give_up(self) -> (GivenUp<K>, S)
        ensures told { K.told result.0.recorder ≡ self.sched.standing.events }
        ensures sent { K.sent result.0.recorder ≡ departed_packets self.sched.standing.events }
        ensures lost { K.lost result.0.recorder ≡ lost_packets self.sched.standing.events }
        ensures waits { result.0.remains ≡ (flows_of self.sched).lists.queues }
        ensures once { AreGivenBackOnce result.0.remains
            (K.lost result.0.recorder) self.sched.standing.events }
        ensures made_for { K.made_for result.0.recorder ≡ self.sched.made_for }
        ensures steps { S.told result.1 ≡ self.steps }
    {
        let Engine {
            sched,
            steps,
            room: _,
        } = self;
        (sched.give_up(), steps)
    }

    /// The laws of the journal at every moment, whether its events are stored or not. It does nothing when it runs: it
    /// is called for its clauses.
    pub fn journal_laws(&self)
        ensures laws { JournalLaws (discipline_of self.now.sched).flow_of self.now.sched.standing.events }
        ensures waiting { WaitWithoutFate (queue_of (flows_of self.now.sched)) self.now.sched.standing.events }
    {
        self.sched.journal_laws();
    }

    /// The parameters that it was made with.
    pub fn params(&self) -> &Params
        ensures { result.now ≡ self.now.sched.params }
    {
        self.sched.params()
    }

    /// The seed that it was made with.
    pub fn seed(&self) -> Seed
        ensures { result ≡ self.now.sched.seed }
    {
        self.sched.seed()
    }

    /// How many turns the last dequeue took that wasn't refused, and 0 before the first (RFC 8290, section 4.2).
    pub fn turns(&self) -> u64
        ensures { result ≡ self.now.sched.turns }
    {
        self.sched.turns()
    }

    /// How often the last step that wasn't refused compared the bytes of two flows, and 0 before the first. For each
    /// event of the step it is at most the least number of doublings of one that gives as many as there are flows:
    /// 10 for 1,024 flows. So a dequeue that finds no packet makes none. An enqueue makes one at least where there are
    /// two flows or more.
    pub fn comparisons(&self) -> u64
        ensures { result ≡ self.now.sched.comparisons }
    {
        self.sched.comparisons()
    }

    /// What is kept of a flow, by its number.
    pub fn flow_view(&self, flow: u32) -> FlowView
        requires { flow < self.now.sched.params.flows }
        ensures { result ≡ flow_shown (flows_of self.now.sched) flow }
    {
        self.sched.flow_view(flow)
    }

    /// The statistics of the journal.
    pub fn totals(&self) -> Totals
        ensures value { result ≡ statistics self.now.sched.standing.events }
        ensures balance { result.accepted
            ≡ result.sent + result.dropped_codel + result.dropped_overflow + result.queued }
    {
        self.sched.totals()
    }

    /// How many events the journal has, whether they are stored or not.
    pub fn event_count(&self) -> u64
        ensures { result ≡ length self.now.sched.standing.events }
    {
        self.sched.event_count()
    }

    /// How many packets wait.
    pub fn queued(&self) -> u64
        ensures value { result ≡ waiting_in (flows_of self.now.sched).lists }
        ensures journal { result ≡ (statistics self.now.sched.standing.events).queued }
    {
        self.sched.queued()
    }

    /// Whether there was a close.
    pub fn is_closed(&self) -> bool
        ensures value { result ≡ self.now.sched.standing.state.closed }
        ensures journal { result ≡ (statistics self.now.sched.standing.events).closed }
    {
        self.sched.is_closed()
    }

    /// The moment of the last step that wasn't refused, in microseconds, and 0 before the first.
    pub fn last_moment(&self) -> u64
        ensures value { result ≡ self.now.sched.standing.state.last }
        ensures range { result < MAX_MOMENT }
    {
        self.sched.last_moment()
    }
}

impl Engine {
    ghost use Rattle.sched_core.specs.Engines.{new_engine};

    /// An engine before its first step.
    pub fn try_new(alloc: Global, params: Params, seed: Seed) -> Result<Engine, Memory>
        ensures { IfOk result (λ e. e ≡ new_engine params seed) }
    {
        let (events, steps) = (EventList::new(alloc), StepList::new(alloc));
        Engine::try_with_recorders(alloc, params, seed, events, steps)
    }
}

impl<S: StepRecorder> Engine<EventList, S> {
    ghost use Rattle.fair_core.specs.FairQueues.{queue_of};
    ghost use Rattle.journal_core.specs.JournalLaws.{JournalLaws, WaitWithoutFate};
    ghost use Rattle.journal_core.specs.TupleRows.{tuple_rows};
    ghost use Rattle.sched_core.specs.Schedulers.{discipline_of, flows_of};

    /// The journal: what became of every packet, in order.
    pub fn events(&self) -> &[Event]
        ensures value { result.now ≡ self.now.sched.standing.events }
        ensures laws { JournalLaws (discipline_of self.now.sched).flow_of result.now }
        ensures waiting { WaitWithoutFate (queue_of (flows_of self.now.sched)) result.now }
    {
        self.sched.events()
    }

    /// What became of the packets of each five-tuple, in order of first acceptance. It goes twice through the journal,
    /// and fails for want of memory alone.
    pub fn tuple_rows(&self) -> Result<Vec<TupleRow>, Memory>
        ensures rows { IfOk result (λ rows. rows.items ≡ tuple_rows self.now.sched.standing.events) }
        ensures balance { IfOk result (λ rows. All
            (λ row. row.accepted ≡ row.sent + row.dropped + row.queued) rows.items) }
    {
        self.sched.tuple_rows()
    }
}

impl<K: Recorder> Engine<K, StepList> {
    ghost use Rattle.journal_core.specs.Runs.{IsRunOf};
    ghost use Rattle.sched_core.specs.Schedulers.{discipline_of};

    /// The steps that weren't refused, in order. The engine is their run.
    pub fn steps(&self) -> &[Step]
        ensures value { result.now ≡ self.now.steps }
        ensures run { IsRunOf (discipline_of self.now.sched) result.now self.now.sched.standing }
    {
        self.steps.steps()
    }
}
