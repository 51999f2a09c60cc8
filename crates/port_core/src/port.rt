//! The locked port: an engine that several threads use, one call at a time.

ghost use Rattle.std.specs.Prelude.{[], ◌≡◌, ◌≤◌, ◌<◌, ◌+◌, ◌^◌, ◌⊎◌, All, IfOk, IfErr, IfSome, IfNone, OnErr, OnOk, IsTrue, length, sum_by};
ghost use Rattle.journal_core.specs.Recorders.{listed_events, listed_losses, listed_sent, listed_steps};
ghost use Rattle.journal_core.specs.Statistics.{statistics};
ghost use Rattle.journal_core.specs.declared.step.Refusal.TheVariants as refusal;
ghost use Rattle.journal_core.specs.declared.step.Step.TheVariants.{Close, Dequeue, Enqueue};
ghost use Rattle.port_core.specs.LockedCalls.{IsAcceptedBy, IsClosedBy, IsRefusedBy, IsServedBy};
ghost use Rattle.port_core.specs.Ports.{AreTotalsOfARun, Refuses, new_seats, of_lane, sent_also, told_also};
ghost use Rattle.port_core.specs.Settling.{AreAllTold};
ghost use Rattle.port_core.specs.declared.seat.TheConstants.{MAX_SEATS};
ghost use Rattle.port_core.specs.declared.port.Why.TheVariants as why;

use crate::front::Front;
use crate::seat::{PortSeat, seats_of};
use packet_core::{Packet, Params, Seed};
use sched_core::{Admitted, Engine, EventList, Memory, Refusal, Sent, Step, StepList, Totals};
use std::alloc::Global;
use std::marker::Model;
use std::sync::ledger::{Blank, Ledger};
use std::sync::{Mutex, Wait};

/// An engine behind a lock, with two ledgers: of the packets that were accepted, and of those that were given. Each
/// thread that uses it has a seat. A call takes the lock for one whole step, so each sees the engine between steps.
#[derive(Drop)]
pub struct LockedPort<A: Ledger, S: Ledger> {
    front: Mutex<Front<A, S>>,
    params: Params,
    seed: Seed,
    seats: u32,
}

impl<A: Ledger, S: Ledger> Model for LockedPort<A, S> {
    ghost use Rattle.std.specs.Prelude.{◌≡◌, ◌<◌};
    ghost use Rattle.port_core.specs.Ports.{Port};

    ghost Value = { Port };

    ghost view = { λ p. record { params = p.params; seed = p.seed; seats = p.seats } };

    // Each seat has one part of each ledger.
    ghost invariant = { λ p. (p.seats ≡ A.parts) × (p.seats ≡ S.parts) × (0 < p.seats) };
}

/// Why a port isn't settled.
#[derive(Clone, Copy, Debug, PartialEq, Eq)]
pub enum Why {
    /// A seat of the port is missing.
    NotAll,
    /// The engine isn't what the port was started with, or has not what a seat was told. It would show a fault of the
    /// port itself.
    Differs,
}

/// A port that isn't settled, with all that was handed in.
#[derive(Drop)]
pub struct Unsettled<A: Ledger, S: Ledger> {
    /// Why.
    pub why: Why,
    /// The port.
    pub port: LockedPort<A, S>,
    /// The seats.
    pub seats: Vec<PortSeat<A, S>>,
}

impl<A: Ledger, S: Ledger> LockedPort<A, S> {
    /// A port whose engine has made no step, and its seats, 1 to 65 of them, numbered from 0. The blanks are those of
    /// the two ledgers, with a part for each seat. It fails for want of memory alone.
    pub fn start(
        alloc: Global,
        params: Params,
        seed: Seed,
        seats: u32,
        accepted: Blank,
        sent: Blank,
    ) -> Result<(LockedPort<A, S>, Vec<PortSeat<A, S>>), Memory>
        requires number { (0 < seats) × (seats ≤ MAX_SEATS) }
        requires accepted { (accepted.name ≡ A.name) × (accepted.parts ≡ A.parts) × (A.parts ≡ seats) }
        requires sent { (sent.name ≡ S.name) × (sent.parts ≡ S.parts) × (S.parts ≡ seats) }
        ensures port { IfOk result (λ r. r.0 ≡ record { params = params; seed = seed; seats = seats }) }
        ensures seats { IfOk result (λ r. r.1.items ≡ new_seats seats) }
    {
        let (events, steps) = (EventList::new(alloc), StepList::new(alloc));
        LockedPort::start_with_recorders(alloc, params, seed, seats, accepted, sent, events, steps)
    }

    /// The same, of an engine that stores its events and its steps in lists that were told none. They may have memory
    /// for what comes.
    pub fn start_with_recorders(
        alloc: Global,
        params: Params,
        seed: Seed,
        seats: u32,
        accepted: Blank,
        sent: Blank,
        events: EventList,
        steps: StepList,
    ) -> Result<(LockedPort<A, S>, Vec<PortSeat<A, S>>), Memory>
        requires number { (0 < seats) × (seats ≤ MAX_SEATS) }
        requires accepted { (accepted.name ≡ A.name) × (accepted.parts ≡ A.parts) × (A.parts ≡ seats) }
        requires sent { (sent.name ≡ S.name) × (sent.parts ≡ S.parts) × (S.parts ≡ seats) }
        requires events { listed_events events ≡ [] }
        requires none_sent { listed_sent events ≡ [] }
        requires no_loss { listed_losses events ≡ [] }
        requires steps { listed_steps steps ≡ [] }
        ensures port { IfOk result (λ r. r.0 ≡ record { params = params; seed = seed; seats = seats }) }
        ensures seats { IfOk result (λ r. r.1.items ≡ new_seats seats) }
    {
        let (book, accepted) = accepted.open::<A>();
        let (other, sent) = sent.open::<S>();
        let all = seats_of(alloc, seats, accepted, sent)?;
        let front = Front {
            engine: Engine::try_with_recorders(alloc, params, seed, events, steps)?,
            accepted: book,
            sent: other,
        };
        let port = LockedPort {
            front: Mutex::new(front),
            params,
            seed,
            seats,
        };
        Ok((port, all))
    }

    /// Accepts a packet of the seat's, as `Engine::enqueue` does, at `now` or at the last moment, whichever is later,
    /// and tells the seat. It refuses a moment of 2^60 microseconds or more, then a packet after the close, then one
    /// after 2^40 others, and last where a growth is refused.
    pub fn enqueue<R: Wait>(
        &self,
        rt: &R,
        seat: &mut PortSeat<A, S>,
        now: u64,
        packet: Packet,
    ) -> Result<Admitted, Refusal>
        ensures told { IfOk result (λ a. seat.new ≡ told_also seat.old a packet) }
        ensures later { IfOk result (λ a. now ≤ a.moment) }
        ensures refused { Refuses now result }
        ensures unchanged { OnErr result (seat.new ≡ seat.old) }
        ensures made { IfOk result (IsAcceptedBy seat.old.lane now packet) }
        ensures order { IfErr result (IsRefusedBy (λ moment. Enqueue moment seat.old.lane packet) now) }
    {
        self.front.lock(rt).enqueue(seat, now, packet)
    }

    /// Gives the seat the packet that is next in turn, as `Engine::dequeue` does, or nothing where none waits, at `now`
    /// or at the last moment, whichever is later. It refuses a moment of 2^60 microseconds or more, and last where a
    /// growth is refused.
    pub fn dequeue<R: Wait>(
        &self,
        rt: &R,
        seat: &mut PortSeat<A, S>,
        now: u64,
    ) -> Result<Option<Sent>, Refusal>
        ensures some { IfOk result (λ sent. IfSome sent
            (λ s. (now ≤ s.moment) × (seat.new ≡ sent_also seat.old))) }
        ensures none { IfOk result (λ sent. IfNone sent (seat.new ≡ seat.old)) }
        ensures refused { Refuses now result }
        ensures memory { now < 2 ^ 60 → IfErr result (λ why. why ≡ refusal.Memory) }
        ensures unchanged { OnErr result (seat.new ≡ seat.old) }
        ensures made { IfOk result (IsServedBy now) }
        ensures order { IfErr result (IsRefusedBy Dequeue now) }
    {
        self.front.lock(rt).dequeue(seat, now)
    }

    /// From here on nothing is accepted; dequeues go on. It answers the step's moment, which is `now` or the last
    /// moment, whichever is later. It refuses a moment of 2^60 microseconds or more, then a second close, and last
    /// where a growth is refused.
    pub fn close<R: Wait>(&self, rt: &R, now: u64) -> Result<u64, Refusal>
        ensures later { IfOk result (λ moment. now ≤ moment) }
        ensures refused { Refuses now result }
        ensures closed { now < 2 ^ 60
            → IfErr result (λ why. (why ≡ refusal.ClosedAlready) ⊎ (why ≡ refusal.Memory)) }
        ensures made { IfOk result (IsClosedBy now) }
        ensures order { IfErr result (IsRefusedBy Close now) }
    {
        self.front.lock(rt).close(now)
    }

    /// The statistics of the journal at one point: those of a run of steps. They have at least what this seat was told
    /// and given. It takes no memory.
    pub fn totals<R: Wait>(&self, rt: &R, seat: &mut PortSeat<A, S>) -> Totals
        ensures accepted { length seat.old.told ≤ result.accepted }
        ensures sent { seat.old.sent ≤ result.sent }
        ensures balance { result.accepted
            ≡ result.sent + result.dropped_codel + result.dropped_overflow + result.queued }
        ensures run { AreTotalsOfARun result }
        ensures seat { seat.new ≡ seat.old }
    {
        self.front.lock(rt).totals(seat)
    }

    /// Ends the port, and gives its engine, where all its seats are there, in any order, and the engine agrees with
    /// them and with what the port was started with. It goes once through the journal, and takes no memory. Else all is
    /// given back.
    pub fn settle(self, seats: Vec<PortSeat<A, S>>) -> Result<Engine, Unsettled<A, S>>
        ensures params { IfOk result (λ e. (e.sched.params ≡ self.params) × (e.sched.seed ≡ self.seed)) }
        ensures told { IfOk result (λ e. All
            (λ s. of_lane s.lane e.sched.standing.events ≡ s.told) seats.items) }
        ensures no_other { IfOk result (λ e. AreAllTold e.sched.standing.events seats.items) }
        ensures accepted { IfOk result (λ e. (statistics e.sched.standing.events).accepted
            ≡ sum_by (λ s. length s.told) seats.items) }
        ensures sent { IfOk result (λ e. (statistics e.sched.standing.events).sent
            ≡ sum_by (λ s. s.sent) seats.items) }
        ensures all { OnOk result (length seats.items ≡ self.seats) }
        ensures not_all { IfErr result (λ u. (u.why ≡ why.NotAll → length seats.items < self.seats)
            × (length seats.items < self.seats → u.why ≡ why.NotAll)) }
        ensures back { IfErr result (λ u. (u.port ≡ self) × (u.seats ≡ seats)) }
    {
        let LockedPort {
            front,
            params,
            seed,
            seats: count,
        } = self;
        match front.into_inner().settled(&params, &seed, count, seats) {
            Ok(engine) => Ok(engine),
            Err((why, front, seats)) => {
                let port = LockedPort {
                    front: Mutex::new(front),
                    params,
                    seed,
                    seats: count,
                };
                Err(Unsettled { why, port, seats })
            }
        }
    }
}
