//! What lies under a port's lock: the engine, and the books of both ledgers.

ghost use Rattle.std.specs.Prelude.{◌≡◌, ◌≢◌, ◌≤◌, ◌<◌, ◌+◌, ◌^◌, ◌++◌, ◌∷◌, ◌⊎◌, [], length, sum_by, vec_capacity, vec_len, IfOk, IfErr, IfSome, IfNone, None, OnErr, OnOk, Some};
ghost use Rattle.journal_core.specs.Calls.{admitted_at};
ghost use Rattle.journal_core.specs.State.{IsRefusal, refusal_of};
ghost use Rattle.journal_core.specs.Statistics.{statistics};
ghost use Rattle.journal_core.specs.declared.outcome.Answer.TheVariants as answer;
ghost use Rattle.journal_core.specs.declared.step.Refusal.TheVariants as refusal;
ghost use Rattle.journal_core.specs.declared.step.Step.TheVariants.{Close, Dequeue, Enqueue};
ghost use Rattle.sched_core.specs.Schedulers.{IsAdvanced, IsServed, discipline_of};
ghost use Rattle.port_core.specs.LockedCalls.{IsRunOfItsSteps};
ghost use Rattle.port_core.specs.Ports.{AreTotalsOfARun, Refuses, moment_at, sent_also, told_also};
ghost use Rattle.port_core.specs.Settling.{Agrees, IsWhy};

use crate::port::Why;
use crate::seat::PortSeat;
use crate::settling::agrees;
use packet_core::{Packet, Params, Seed};
use sched_core::{Admitted, Engine, Event, Refusal, Sent, Step, Totals};
use std::sync::ledger::{Book, Ledger, Share};

/// The engine of a port with its books: at every moment they have as many acceptances and sent packets as its journal.
#[derive(Drop)]
pub(crate) struct Front<A: Ledger, S: Ledger> {
    pub(crate) engine: Engine,
    pub(crate) accepted: Book<A>,
    pub(crate) sent: Book<S>,
    ghost accepted_is: { accepted.total ≡ (statistics engine.sched.standing.events).accepted },
    ghost sent_is: { sent.total ≡ (statistics engine.sched.standing.events).sent },
}

impl<A: Ledger, S: Ledger> Front<A, S> {
    /// The moment of a step that is asked for at `now`: time doesn't go back, whichever thread was first at the lock.
    fn moment(&self, now: u64) -> u64
        ensures value { result ≡ moment_at self.now.engine now }
        ensures range { self.now.engine.sched.standing.state.last < 2 ^ 60 }
    {
        now.max(self.engine.last_moment())
    }

    /// Accepts a packet of the seat's.
    pub(crate) fn enqueue(
        &mut self,
        seat: &mut PortSeat<A, S>,
        now: u64,
        packet: Packet,
    ) -> Result<Admitted, Refusal>
        ensures told { IfOk result (λ a. seat.new ≡ told_also seat.old a packet) }
        ensures later { IfOk result (λ a. now ≤ a.moment) }
        ensures refused { Refuses now result }
        ensures unchanged { OnErr result (seat.new ≡ seat.old) }
        ensures admitted { IfOk result (λ a. a ≡ admitted_at (discipline_of self.old.engine.sched)
            self.old.engine.sched.standing.state (moment_at self.old.engine now) packet) }
        ensures made { OnOk result (IsAdvanced self.old.engine.sched
            (Enqueue (moment_at self.old.engine now) seat.old.lane packet) answer.Accepted self.new.engine.sched) }
        ensures steps { OnOk result (self.new.engine.steps ≡ self.old.engine.steps
            ++ Enqueue (moment_at self.old.engine now) seat.old.lane packet ∷ []) }
        ensures run { IsRunOfItsSteps self.old.engine }
        ensures order { IfErr result (IsRefusal (refusal_of self.old.engine.sched.standing.state
            (Enqueue (moment_at self.old.engine now) seat.old.lane packet))) }
        ensures kept { OnErr result (self.new.engine ≡ self.old.engine) }
    {
        self.engine.run_of_steps();
        let moment = self.moment(now);
        let lane = seat.lane;
        make_room(&self.engine, &mut seat.told, moment, lane, packet)?;
        let admitted = self.engine.enqueue(moment, lane, packet)?;
        self.accepted.add(&mut seat.accepted_share, 1);
        seat.told.push_reserved(Event::Accepted {
            id: admitted.id,
            moment: admitted.moment,
            lane,
            flow: admitted.flow,
            packet,
        });
        Ok(admitted)
    }

    /// Gives the seat the packet that is next in turn.
    pub(crate) fn dequeue(
        &mut self,
        seat: &mut PortSeat<A, S>,
        now: u64,
    ) -> Result<Option<Sent>, Refusal>
        ensures some { IfOk result (λ sent. IfSome sent
            (λ s. (now ≤ s.moment) × (seat.new ≡ sent_also seat.old))) }
        ensures none { IfOk result (λ sent. IfNone sent (seat.new ≡ seat.old)) }
        ensures refused { Refuses now result }
        ensures memory { now < 2 ^ 60 → IfErr result (λ why. why ≡ refusal.Memory) }
        ensures unchanged { OnErr result (seat.new ≡ seat.old) }
        ensures made { IfOk result (λ sent. IsServed self.old.engine.sched
            (moment_at self.old.engine now) sent self.new.engine.sched) }
        ensures steps { OnOk result (self.new.engine.steps
            ≡ self.old.engine.steps ++ Dequeue (moment_at self.old.engine now) ∷ []) }
        ensures run { IsRunOfItsSteps self.old.engine }
        ensures order { IfErr result (IsRefusal (refusal_of self.old.engine.sched.standing.state
            (Dequeue (moment_at self.old.engine now)))) }
        ensures kept { OnErr result (self.new.engine ≡ self.old.engine) }
    {
        self.engine.run_of_steps();
        let moment = self.moment(now);
        let sent = self.engine.dequeue(moment)?;
        if sent.is_some() {
            self.sent.add(&mut seat.sent_share, 1);
            // The books say that this seat wasn't given more than the journal tells, so the count doesn't wrap.
            self.sent.audit(&mut seat.sent_share);
            let _ = self.engine.totals();
            seat.sent += 1;
        }
        Ok(sent)
    }

    /// Closes, and answers the moment of the step.
    pub(crate) fn close(&mut self, now: u64) -> Result<u64, Refusal>
        ensures later { IfOk result (λ moment. now ≤ moment) }
        ensures refused { Refuses now result }
        ensures closed { now < 2 ^ 60
            → IfErr result (λ why. (why ≡ refusal.ClosedAlready) ⊎ (why ≡ refusal.Memory)) }
        ensures moment { IfOk result (λ moment. moment ≡ moment_at self.old.engine now) }
        ensures made { OnOk result (IsAdvanced self.old.engine.sched
            (Close (moment_at self.old.engine now)) answer.Closed self.new.engine.sched) }
        ensures steps { OnOk result (self.new.engine.steps
            ≡ self.old.engine.steps ++ Close (moment_at self.old.engine now) ∷ []) }
        ensures run { IsRunOfItsSteps self.old.engine }
        ensures order { IfErr result (IsRefusal (refusal_of self.old.engine.sched.standing.state
            (Close (moment_at self.old.engine now)))) }
        ensures kept { OnErr result (self.new.engine ≡ self.old.engine) }
    {
        self.engine.run_of_steps();
        let moment = self.moment(now);
        self.engine.close(moment)?;
        Ok(moment)
    }

    /// The statistics, which have all of the seat's own.
    pub(crate) fn totals(&mut self, seat: &mut PortSeat<A, S>) -> Totals
        ensures accepted { length seat.old.told ≤ result.accepted }
        ensures sent { seat.old.sent ≤ result.sent }
        ensures balance { result.accepted
            ≡ result.sent + result.dropped_codel + result.dropped_overflow + result.queued }
        ensures seat { seat.new ≡ seat.old }
        ensures value { result ≡ statistics self.old.engine.sched.standing.events }
        ensures run { AreTotalsOfARun result }
        ensures engine { self.new.engine ≡ self.old.engine }
    {
        self.accepted.audit(&mut seat.accepted_share);
        self.sent.audit(&mut seat.sent_share);
        self.engine.run_of_steps();
        self.engine.totals()
    }

    /// Why the port over this isn't settled with these seats, if it isn't. It was started with these parameters and
    /// this seed, and with so many seats.
    fn why_not(
        &self,
        params: &Params,
        seed: &Seed,
        number: u32,
        seats: &[PortSeat<A, S>],
    ) -> Option<Why>
        ensures { IsWhy self.now.engine.sched (record { params = params.now; seed = seed.now; seats = number })
            seats.now result }
    {
        if seats.len() < number as usize {
            return Some(Why::NotAll);
        }
        if !agrees(&self.engine, params, seed, seats) {
            return Some(Why::Differs);
        }
        None
    }

    /// The engine of a port that is settled with these seats, or all that was given, unchanged.
    pub(crate) fn settled(
        self,
        params: &Params,
        seed: &Seed,
        number: u32,
        seats: Vec<PortSeat<A, S>>,
    ) -> Result<Engine, (Why, Front<A, S>, Vec<PortSeat<A, S>>)>
        requires parts { (number ≡ A.parts) × (number ≡ S.parts) × (0 < number) }
        ensures engine { IfOk result (λ e. e ≡ self.engine) }
        ensures agrees { OnOk result (Agrees self.engine.sched params.now seed.now seats.items) }
        ensures number { OnOk result (length seats.items ≡ number) }
        ensures accepted { IfOk result (λ e. (statistics e.sched.standing.events).accepted
            ≡ sum_by (λ s. length s.told) seats.items) }
        ensures sent { IfOk result (λ e. (statistics e.sched.standing.events).sent
            ≡ sum_by (λ s. s.sent) seats.items) }
        ensures why { IfErr result (λ r. IsWhy self.engine.sched
            (record { params = params.now; seed = seed.now; seats = number }) seats.items (Some r.0)) }
        ensures back { IfErr result (λ r. (r.1 ≡ self) × (r.2 ≡ seats)) }
    {
        match self.why_not(params, seed, number, &seats) {
            None => Ok(self.summed(seats)),
            Some(why) => Err((why, self, seats)),
        }
    }

    /// The engine, whose totals are the sums over all seats.
    fn summed(self, seats: Vec<PortSeat<A, S>>) -> Engine
        requires all { (A.parts ≤ length seats.items) × (S.parts ≤ length seats.items) }
        requires some { 0 < A.parts }
        ensures same { result ≡ self.engine }
        ensures number { length seats.items ≡ A.parts }
        ensures accepted { (statistics result.sched.standing.events).accepted
            ≡ sum_by (λ s. length s.told) seats.items }
        ensures sent { (statistics result.sched.standing.events).sent ≡ sum_by (λ s. s.sent) seats.items }
    {
        let Front {
            engine,
            mut accepted,
            mut sent,
        } = self;
        let (mut told, mut gone) = merged(seats);
        accepted.audit(&mut told);
        sent.audit(&mut gone);
        engine
    }
}

/// Makes room for one acceptance more in what a seat was told. The list grows only for a packet that nothing else
/// refuses.
fn make_room(
    engine: &Engine,
    told: &mut Vec<Event>,
    moment: u64,
    lane: u32,
    packet: Packet,
) -> Result<(), Refusal>
    ensures items { told.new.items ≡ told.old.items }
    ensures room { OnOk result (vec_len told.new < vec_capacity told.new) }
    ensures refused { IfErr result (IsRefusal (refusal_of engine.now.sched.standing.state
        (Enqueue moment lane packet))) }
    ensures grows_last { refusal_of engine.now.sched.standing.state (Enqueue moment lane packet) ≢ None
        → vec_capacity told.new ≡ vec_capacity told.old }
{
    if told.len() < told.capacity() {
        return Ok(());
    }
    engine.test(&Step::Enqueue {
        moment,
        lane,
        packet,
    })?;
    told.reserve(1)?;
    Ok(())
}

/// The shares of all seats in one.
fn merged<A: Ledger, S: Ledger>(seats: Vec<PortSeat<A, S>>) -> (Share<A>, Share<S>)
    requires { 0 < length seats.items }
    ensures parts { (result.0.parts ≡ length seats.items) × (result.1.parts ≡ length seats.items) }
    ensures within { (result.0.parts ≤ A.parts) × (result.1.parts ≤ S.parts) }
    ensures accepted { result.0.amount ≡ sum_by (λ s. length s.told) seats.items }
    ensures sent { result.1.amount ≡ sum_by (λ s. s.sent) seats.items }
{
    let mut seats = seats;
    let Some(last) = seats.pop() else {
        unreachable!()
    };
    let PortSeat {
        lane: _,
        told: _told,
        sent: _,
        accepted_share: mut accepted,
        sent_share: mut sent,
    } = last;
    let none = accepted.empty();
    accepted.merge(none);
    let none = sent.empty();
    sent.merge(none);
    while let Some(seat) = seats.pop() {
        let PortSeat {
            lane: _,
            told: _told,
            sent: _,
            accepted_share,
            sent_share,
        } = seat;
        accepted.merge(accepted_share);
        sent.merge(sent_share);
    }
    (accepted, sent)
}
