//! The device: it owns an engine and the other end of every sender's lane, and what shows its statistics to monitors. No
//! sender waits for it or for another sender.

use crate::engine_journal::EngineJournal;
use crate::lane::Lane;
use crate::lane_engine::LaneEngine;
use crate::lane_sender::LaneEnd;
use monitor_core::{BookName, PublishFault, Publisher, Receipt, Screen, Shown};
use sched_core::{
    Engine, EventList, MAX_ACCEPTED, Memory, Recorder, Refusal, Sent, Step, StepList, StepRecorder,
};
use std::marker::Model;

/// At most so many lanes. Each belongs to a thread, and few machines run more threads at once.
pub const MAX_LANES: u32 = 64;

/// A pump takes at most so many packets. Memory for all of them is taken before the first, and the device sends nothing
/// meanwhile.
pub const MAX_BURST: u64 = 1024;

/// An engine with the device's end of each lane, and what shows its statistics to monitors. At every moment the packets
/// that came out of a lane are those that the engine accepted from it, and what is shown is a beginning of its journal.
/// The engine tells its events and its steps to recorders, which store all of them unless others are chosen. Contracts
/// see the engine, the lanes and what was published. Only `publish` and the device's end wait, for monitors that are
/// just reading. The signatures don't show it, since a device holds its screen. `receipt` reads what is shown, and each
/// of the other calls is one line on a part of the device that has neither screen nor handle.
#[derive(Drop)]
pub struct Device<
    J: BookName,
    X: Screen<Shown<J>> + Drop,
    K: Recorder = EventList,
    S: StepRecorder = StepList,
> {
    fed: LaneEngine<K, S>,
    publisher: Publisher<J, X>,
}

impl<J: BookName, X: Screen<Shown<J>> + Drop, K: Recorder, S: StepRecorder> Model
    for Device<J, X, K, S> {
    ghost use Rattle.port_core.specs.Devices.{BeginsJournal, DeviceState};

    ghost Value = { DeviceState };

    ghost view = { λ d. record { engine = d.fed.engine; lanes = d.fed.lanes; published = d.publisher } };

    ghost invariant = { λ d. BeginsJournal d.publisher d.fed.engine.sched.standing.events };
}

impl<J: BookName, X: Screen<Shown<J>> + Drop, K: Recorder, S: StepRecorder> Device<J, X, K, S> {
    ghost use mathlib.Core.List.{IsPrefix};
    ghost use Rattle.std.specs.Prelude.{◌≡◌, ◌≢◌, ◌≤◌, ◌<◌, ◌+◌, ◌-◌, ◌++◌, ◌∷◌, [], ℕ, IfErr, IfOk, None, OnErr, OnOk, Some, false, length, max, slice_get, slice_index_or, true};
    ghost use Rattle.journal_core.specs.State.{IsRefusal, refusal_of};
    ghost use Rattle.journal_core.specs.declared.outcome.Answer.TheVariants as answer;
    ghost use Rattle.journal_core.specs.declared.step.Step.TheVariants.{Close, Dequeue};
    ghost use Rattle.sched_core.specs.Schedulers.{ComparesFew, IsAdvanced, IsServed};
    ghost use Rattle.monitor_core.specs.Publishing.{nothing_published};
    ghost use Rattle.port_core.specs.Devices.{BeginsJournal, KeepsLanes, Pumps, TakesAllLeft, fed_of, pump_refusal_of, rings_of};
    ghost use Rattle.port_core.specs.Lanes.{LaneView, accepted};

    /// A device over an engine without steps and new lanes.
    #[tactic(auto, using(crate::proofs::DeviceLemmas::begins_nothing))]
    pub(crate) fn new(
        engine: Engine<K, S>,
        lanes: Vec<Lane>,
        publisher: Publisher<J, X>,
    ) -> Device<J, X, K, S>
        requires events { engine.sched.standing.events ≡ [] }
        requires lanes { KeepsLanes [] lanes.items }
        requires number { length lanes.items ≤ MAX_LANES }
        requires published { publisher ≡ nothing_published }
        ensures { result ≡ record { engine = engine; lanes = lanes.items; published = nothing_published } }
    {
        Device {
            fed: LaneEngine::new(engine, lanes),
            publisher,
        }
    }

    /// The engine. From each lane it has accepted what the device took out of it, in order, and what is shown is a
    /// beginning of its journal.
    pub fn engine(&self) -> &Engine<K, S>
        ensures value { result.now ≡ self.now.engine }
        ensures lanes { KeepsLanes result.now.sched.standing.events self.now.lanes }
        ensures shown { IsPrefix self.now.published.shown result.now.sched.standing.events }
    {
        self.fed.engine()
    }

    /// The engine, which outlives the device: monitors go on with what was published last.
    pub fn into_engine(self) -> Engine<K, S>
        ensures value { result ≡ self.engine }
        ensures lanes { KeepsLanes result.sched.standing.events self.lanes }
    {
        let Device { fed, .. } = self;
        fed.into_engine()
    }

    /// How many lanes there are.
    pub fn lanes(&self) -> u32
        ensures { result ≡ length self.now.lanes }
    {
        self.fed.lanes()
    }

    /// Takes memory for so many steps of any kind, at most 2^40, as `Engine::reserve` does.
    pub fn reserve(&mut self, steps: u64) -> Result<(), Memory>
        requires { steps ≤ MAX_ACCEPTED }
        ensures ok { OnOk result (self.new.engine.room ≡ max self.old.engine.room steps) }
        ensures rest { self.new ≡ record self.old {
          engine = record self.old.engine {
            sched = record self.old.engine.sched {
              room = self.new.engine.sched.room;
              capacity = self.new.engine.sched.capacity;
            };
            room = self.new.engine.room;
          };
        } }
        ensures missing { OnErr result (self.old.engine.room < steps) }
        ensures err { OnErr result (self.new ≡ self.old) }
    {
        self.fed.reserve(steps)
    }

    /// Gives the packet that is next in turn, as `Engine::dequeue` does.
    pub fn dequeue(&mut self, moment: u64) -> Result<Option<Sent>, Refusal>
        ensures rest { (self.new.lanes ≡ self.old.lanes) × (self.new.published ≡ self.old.published) }
        ensures made { IfOk result (λ sent. IsServed self.old.engine.sched moment sent self.new.engine.sched) }
        ensures steps { OnOk result (self.new.engine.steps ≡ self.old.engine.steps ++ Dequeue moment ∷ []) }
        ensures room { OnOk result (self.new.engine.room ≡ self.old.engine.room - 1) }
        ensures few_comparisons { OnOk result (ComparesFew self.old.engine.sched self.new.engine.sched) }
        ensures refused { IfErr result (IsRefusal
            (refusal_of self.old.engine.sched.standing.state (Dequeue moment))) }
        ensures reserved { 0 < self.old.engine.room
            → OnErr result (refusal_of self.old.engine.sched.standing.state (Dequeue moment) ≢ None) }
        ensures unchanged { OnErr result (self.new ≡ self.old) }
    {
        self.fed.dequeue(moment)
    }

    /// From here on nothing is accepted, as by `Engine::close`. What stands in the lanes then stays there.
    pub fn close(&mut self, moment: u64) -> Result<(), Refusal>
        ensures rest { (self.new.lanes ≡ self.old.lanes) × (self.new.published ≡ self.old.published) }
        ensures made { OnOk result (IsAdvanced self.old.engine.sched
            (Close moment) answer.Closed self.new.engine.sched) }
        ensures steps { OnOk result (self.new.engine.steps ≡ self.old.engine.steps ++ Close moment ∷ []) }
        ensures room { OnOk result (self.new.engine.room ≡ self.old.engine.room - 1) }
        ensures few_comparisons { OnOk result (ComparesFew self.old.engine.sched self.new.engine.sched) }
        ensures refused { IfErr result (IsRefusal
            (refusal_of self.old.engine.sched.standing.state (Close moment))) }
        ensures reserved { 0 < self.old.engine.room → OnErr result
            (refusal_of self.old.engine.sched.standing.state (Close moment) ≢ None) }
        ensures unchanged { OnErr result (self.new ≡ self.old) }
    {
        self.fed.close(moment)
    }

    /// Shows all events so far to the monitors at once, and answers a receipt that stands for them. Where memory is
    /// refused they are shown what they were shown before, and the events stay due for the next publish. It waits for
    /// monitors that are just reading, and its cost doesn't grow with the journal.
    #[tactic(auto, using(crate::proofs::DeviceLemmas::begins_publish))]
    pub fn publish(&mut self) -> Result<Receipt<J>, PublishFault>
        ensures shown { OnOk result (self.new.published.shown ≡ self.old.engine.sched.standing.events) }
        ensures receipt { IfOk result (λ receipt. receipt ≡ self.old.engine.sched.standing.events) }
        ensures refused { OnErr result (self.new.published.shown ≡ self.old.published.shown) }
        ensures rest { (self.new.engine ≡ self.old.engine) × (self.new.lanes ≡ self.old.lanes) }
    {
        self.publisher
            .publish(&EngineJournal::new(self.fed.engine()))
    }

    /// The receipt of the last publish that wasn't refused. It stands for no event before the first.
    pub fn receipt(&self) -> Receipt<J>
        ensures shown { result ≡ self.now.published.shown }
    {
        self.publisher.receipt()
    }

    /// Settles a lane by its sender's end, and answers how many packets are left in it: what was submitted is what was
    /// accepted, and then what is left. From here until the close each pump that isn't refused takes as many of them as
    /// its burst allows.
    pub fn settle_lane(&mut self, lane: u32, end: LaneEnd) -> u64
        requires { slice_get (rings_of self.old.lanes) lane ≡ Some end.ring }
        ensures left { (d : LaneView) → result ≡ length (slice_index_or self.new.lanes lane d).known }
        ensures submitted { (d : LaneView) → end.submitted
            ≡ accepted lane self.new.engine.sched.standing.events ++ (slice_index_or self.new.lanes lane d).known }
        ensures settled { (d : LaneView) → (slice_index_or self.new.lanes lane d).settled ≡ true }
        ensures others { (i : ℕ) (d : LaneView) → i ≢ lane
            → slice_index_or self.new.lanes i d ≡ slice_index_or self.old.lanes i d }
        ensures rest { (self.new.engine ≡ self.old.engine) × (self.new.published ≡ self.old.published) }
        ensures rings { rings_of self.new.lanes ≡ rings_of self.old.lanes }
    {
        self.fed.settle_lane(lane, end)
    }

    /// Takes packets of a lane, at most `burst`, and accepts each at `now`, in microseconds; it answers how many. It
    /// refuses a moment of 2^60 or more or before the last one, then any pump after the close, then one where fewer
    /// than `burst` packets more may be accepted, and last where a growth is refused; then it takes nothing. All memory
    /// is taken before the first packet.
    pub fn pump(&mut self, lane: u32, now: u64, burst: u64) -> Result<u64, Refusal>
        requires lane { lane < length self.old.lanes }
        requires burst { (0 < burst) × (burst ≤ MAX_BURST) }
        ensures rest { self.new.published ≡ self.old.published }
        ensures pumped { IfOk result (λ k. Pumps (fed_of self.old) lane now k (fed_of self.new)) }
        ensures burst { IfOk result (λ k. k ≤ burst) }
        ensures left { IfOk result (λ k. TakesAllLeft self.old.lanes lane burst k) }
        ensures room { IfOk result (λ k. self.new.engine.room ≡ max self.old.engine.room burst - k) }
        ensures rings { rings_of self.new.lanes ≡ rings_of self.old.lanes }
        ensures fits { OnOk result (pump_refusal_of self.old.engine.sched.standing.state now burst ≡ None) }
        ensures refused { IfErr result (IsRefusal
            (pump_refusal_of self.old.engine.sched.standing.state now burst)) }
        ensures reserved { burst ≤ self.old.engine.room → OnErr result
            (pump_refusal_of self.old.engine.sched.standing.state now burst ≢ None) }
        ensures unchanged { OnErr result (self.new ≡ self.old) }
    {
        self.fed.pump(lane, now, burst)
    }
}
