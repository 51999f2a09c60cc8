//! The part of a device that waits for nobody: an engine and the other end of every sender's lane.

use crate::device::{MAX_BURST, MAX_LANES};
use crate::lane::Lane;
use crate::lane_sender::LaneEnd;
use sched_core::{Engine, MAX_ACCEPTED, Memory, Recorder, Refusal, Sent, Step, StepRecorder};
use std::marker::Model;

/// An engine with the device's end of each lane. It has no screen and no handle, so none of its calls waits. At every
/// moment the packets that came out of a lane are those that the engine accepted from it. Contracts see the engine and
/// the lanes.
#[derive(Drop)]
pub(crate) struct LaneEngine<K: Recorder, S: StepRecorder> {
    engine: Engine<K, S>,
    lanes: Vec<Lane>,
}

impl<K: Recorder, S: StepRecorder> Model for LaneEngine<K, S> {
    ghost use Rattle.std.specs.Prelude.{◌≤◌, length};
    ghost use Rattle.port_core.specs.Devices.{Fed, KeepsLanes};
    ghost use Rattle.port_core.specs.declared.device.TheConstants.{MAX_LANES};

    ghost Value = { Fed };

    ghost view = { λ e. record { engine = e.engine; lanes = e.lanes.items } };

    ghost invariant = { λ e. KeepsLanes e.engine.sched.standing.events e.lanes.items
        × (length e.lanes.items ≤ MAX_LANES) };
}

impl<K: Recorder, S: StepRecorder> LaneEngine<K, S> {
    ghost use Rattle.std.specs.Prelude.{◌≡◌, ◌≢◌, ◌≤◌, ◌<◌, ◌-◌, ◌++◌, ◌∷◌, [], ℕ, IfErr, IfOk, MatchBool, None, OnErr, OnOk, Some, false, length, max, slice_get, slice_index_or, true};
    ghost use Rattle.journal_core.specs.State.{IsRefusal, refusal_of};
    ghost use Rattle.journal_core.specs.declared.outcome.Answer.TheVariants as answer;
    ghost use Rattle.journal_core.specs.declared.step.Step.TheVariants.{Close, Dequeue};
    ghost use Rattle.sched_core.specs.Schedulers.{ComparesFew, IsAdvanced, IsServed};
    ghost use Rattle.port_core.specs.Devices.{KeepsLanes, MayAccept, Pumps, TakesFromLane, TakesAllLeft, pump_refusal_of, rings_of};
    ghost use Rattle.port_core.specs.Lanes.{LaneView, accepted};

    /// An engine without steps, and new lanes.
    pub(crate) fn new(engine: Engine<K, S>, lanes: Vec<Lane>) -> LaneEngine<K, S>
        requires events { engine.sched.standing.events ≡ [] }
        requires lanes { KeepsLanes [] lanes.items }
        requires number { length lanes.items ≤ MAX_LANES }
        ensures { result ≡ record { engine = engine; lanes = lanes.items } }
    {
        LaneEngine { engine, lanes }
    }

    /// The engine. From each lane it has accepted what the device took out of it, in order.
    pub(crate) fn engine(&self) -> &Engine<K, S>
        ensures value { result.now ≡ self.now.engine }
        ensures lanes { KeepsLanes result.now.sched.standing.events self.now.lanes }
    {
        &self.engine
    }

    /// The engine alone.
    pub(crate) fn into_engine(self) -> Engine<K, S>
        ensures value { result ≡ self.engine }
        ensures lanes { KeepsLanes result.sched.standing.events self.lanes }
    {
        let LaneEngine { engine, .. } = self;
        engine
    }

    /// How many lanes there are.
    pub(crate) fn lanes(&self) -> u32
        ensures { result ≡ length self.now.lanes }
    {
        self.lanes.len() as u32
    }

    /// TakesFromLane memory for so many steps of any kind, at most 2^40, as `Engine::reserve` does.
    pub(crate) fn reserve(&mut self, steps: u64) -> Result<(), Memory>
        requires { steps ≤ MAX_ACCEPTED }
        ensures ok { OnOk result (self.new.engine.room ≡ max self.old.engine.room steps) }
        ensures rest { self.new ≡ record self.old {
          engine = record self.old.engine {
            sched = record self.old.engine.sched {
              room = self.new.engine.sched.room;
              capacity = self.new.engine.sched.capacity;
            };
            room = self.new.engine.room;
          };
        } }
        ensures missing { OnErr result (self.old.engine.room < steps) }
        ensures err { OnErr result (self.new ≡ self.old) }
    {
        self.engine.reserve(steps)
    }

    /// Gives the packet that is next in turn, as `Engine::dequeue` does.
    pub(crate) fn dequeue(&mut self, moment: u64) -> Result<Option<Sent>, Refusal>
        ensures lanes { self.new.lanes ≡ self.old.lanes }
        ensures made { IfOk result (λ sent. IsServed self.old.engine.sched moment sent self.new.engine.sched) }
        ensures steps { OnOk result (self.new.engine.steps ≡ self.old.engine.steps ++ Dequeue moment ∷ []) }
        ensures room { OnOk result (self.new.engine.room ≡ self.old.engine.room - 1) }
        ensures few_comparisons { OnOk result (ComparesFew self.old.engine.sched self.new.engine.sched) }
        ensures refused { IfErr result (IsRefusal
            (refusal_of self.old.engine.sched.standing.state (Dequeue moment))) }
        ensures reserved { 0 < self.old.engine.room
            → OnErr result (refusal_of self.old.engine.sched.standing.state (Dequeue moment) ≢ None) }
        ensures unchanged { OnErr result (self.new ≡ self.old) }
    {
        self.engine.dequeue(moment)
    }

    /// From here on nothing is accepted, as by `Engine::close`. What stands in the lanes then stays there.
    pub(crate) fn close(&mut self, moment: u64) -> Result<(), Refusal>
        ensures lanes { self.new.lanes ≡ self.old.lanes }
        ensures made { OnOk result (IsAdvanced self.old.engine.sched
            (Close moment) answer.Closed self.new.engine.sched) }
        ensures steps { OnOk result (self.new.engine.steps ≡ self.old.engine.steps ++ Close moment ∷ []) }
        ensures room { OnOk result (self.new.engine.room ≡ self.old.engine.room - 1) }
        ensures few_comparisons { OnOk result (ComparesFew self.old.engine.sched self.new.engine.sched) }
        ensures refused { IfErr result (IsRefusal
            (refusal_of self.old.engine.sched.standing.state (Close moment))) }
        ensures reserved { 0 < self.old.engine.room → OnErr result
            (refusal_of self.old.engine.sched.standing.state (Close moment) ≢ None) }
        ensures unchanged { OnErr result (self.new ≡ self.old) }
    {
        self.engine.close(moment)
    }

    /// Settles a lane by its sender's end, and answers how many packets are left in it: what was submitted is what was
    /// accepted, and then what is left. From here until the close each pump that isn't refused takes as many of them as
    /// its burst allows.
    #[tactic(auto, using(crate::proofs::DeviceLemmas::rings))]
    pub(crate) fn settle_lane(&mut self, lane: u32, end: LaneEnd) -> u64
        requires { slice_get (rings_of self.old.lanes) lane ≡ Some end.ring }
        ensures left { (d : LaneView) → result ≡ length (slice_index_or self.new.lanes lane d).known }
        ensures submitted { (d : LaneView) → end.submitted
            ≡ accepted lane self.new.engine.sched.standing.events ++ (slice_index_or self.new.lanes lane d).known }
        ensures settled { (d : LaneView) → (slice_index_or self.new.lanes lane d).settled ≡ true }
        ensures others { (i : ℕ) (d : LaneView) → i ≢ lane
            → slice_index_or self.new.lanes i d ≡ slice_index_or self.old.lanes i d }
        ensures engine { self.new.engine ≡ self.old.engine }
        ensures rings { rings_of self.new.lanes ≡ rings_of self.old.lanes }
    {
        self.lanes[lane as usize].settle(end)
    }

    /// TakesFromLane packets of a lane, at most `burst`, and accepts each at `now`, in microseconds; it answers how many. It
    /// refuses a moment of 2^60 or more or before the last one, then any pump after the close, then one where fewer
    /// than `burst` packets more may be accepted, and last where a growth is refused; then it takes nothing. All memory
    /// is taken before the first packet.
    pub(crate) fn pump(&mut self, lane: u32, now: u64, burst: u64) -> Result<u64, Refusal>
        requires lane { lane < length self.old.lanes }
        requires burst { (0 < burst) × (burst ≤ MAX_BURST) }
        ensures pumped { IfOk result (λ k. Pumps self.old lane now k self.new) }
        ensures burst { IfOk result (λ k. k ≤ burst) }
        ensures left { IfOk result (λ k. TakesAllLeft self.old.lanes lane burst k) }
        ensures room { IfOk result (λ k. self.new.engine.room ≡ max self.old.engine.room burst - k) }
        ensures rings { rings_of self.new.lanes ≡ rings_of self.old.lanes }
        ensures fits { OnOk result (pump_refusal_of self.old.engine.sched.standing.state now burst ≡ None) }
        ensures refused { IfErr result (IsRefusal
            (pump_refusal_of self.old.engine.sched.standing.state now burst)) }
        ensures reserved { burst ≤ self.old.engine.room → OnErr result
            (pump_refusal_of self.old.engine.sched.standing.state now burst ≢ None) }
        ensures unchanged { OnErr result (self.new ≡ self.old) }
    {
        // A pump is refused as a close is, but for the ids.
        self.engine.test(&Step::Close { moment: now })?;
        if self.engine.ids_left() < burst {
            return Err(Refusal::Exhausted);
        }
        self.engine.reserve(burst)?;
        Ok(self.pump_reserved(lane, now, burst))
    }

    /// The same where none of so many packets is refused.
    #[tactic(auto, using(crate::proofs::PumpLemmas::pumping))]
    fn pump_reserved(&mut self, lane: u32, now: u64, burst: u64) -> u64
        requires lane { lane < length self.old.lanes }
        requires fits { pump_refusal_of self.old.engine.sched.standing.state now burst ≡ None }
        requires room { burst ≤ self.old.engine.room }
        ensures pumped { Pumps self.old lane now result self.new }
        ensures burst { result ≤ burst }
        ensures left { TakesAllLeft self.old.lanes lane burst result }
        ensures room { self.new.engine.room ≡ self.old.engine.room - result }
        ensures rings { rings_of self.new.lanes ≡ rings_of self.old.lanes }
    {
        let mut pumped = 0;
        while pumped < burst {
            if !self.admit(lane, now) {
                break;
            }
            pumped += 1;
        }
        pumped
    }

    /// TakesFromLane the next packet of a lane, where there is one, and accepts it.
    #[tactic(auto, using(crate::proofs::DeviceLemmas::rings_look, crate::proofs::PumpLemmas::enqueue_fits))]
    fn admit(&mut self, lane: u32, now: u64) -> bool
        requires lane { lane < length self.old.lanes }
        requires fits { MayAccept self.old.engine.sched.standing.state now 1 }
        requires room { 0 < self.old.engine.room }
        ensures admitted { MatchBool result (TakesFromLane self.old lane now self.new) (self.new ≡ self.old) }
        ensures number { length self.new.lanes ≡ length self.old.lanes }
        ensures empty { result ≡ false → (d : LaneView) → (slice_index_or self.old.lanes lane d).known ≡ [] }
        ensures room { result ≡ true → self.new.engine.room ≡ self.old.engine.room - 1 }
        ensures rings { rings_of self.new.lanes ≡ rings_of self.old.lanes }
    {
        let Some(packet) = self.lanes[lane as usize].next() else {
            return false;
        };
        let Ok(_) = self.engine.enqueue(now, lane, packet) else {
            unreachable!()
        };
        true
    }
}
