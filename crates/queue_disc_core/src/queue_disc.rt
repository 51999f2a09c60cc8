//! The scheduler of an embedder.

ghost use Rattle.std.specs.Prelude.{◌≡◌, ◌≢◌, ◌+◌, ◌<◌, ◌≤◌, ◌^◌, ◌↔◌, ◌⊎◌, ◌++◌, IfErr, IfOk, IfSome, IsNone, IsTrue, OnErr, OnOk, None, Some, Err, drop, false, length, max, min, option_map, take, true};
ghost use Rattle.journal_core.specs.Calls.{close_refusal};
ghost use Rattle.journal_core.specs.Losses.{lost_packets};
ghost use Rattle.journal_core.specs.State.{IsRefusal, refusal_of};
ghost use Rattle.journal_core.specs.Statistics.{statistics};
ghost use Rattle.journal_core.specs.declared.step.Refusal.TheVariants as refusal;
ghost use Rattle.journal_core.specs.declared.step.Step.TheVariants.{Close, Dequeue, Enqueue};
ghost use Rattle.fair_core.specs.Shown.{flow_shown};
ghost use Rattle.flow_core.specs.FlowLists.{waiting_in};
ghost use Rattle.sched_core.specs.Schedulers.{IsServed, flows_of};
ghost use Rattle.queue_disc_core.specs.FreeEnqueues.{free_enqueues};
ghost use Rattle.queue_disc_core.specs.Drops.{causes_of, settled_drops};
ghost use Rattle.queue_disc_core.specs.Laws.{IsCounted, IsLawful};
ghost use Rattle.queue_disc_core.specs.QueueDiscKept.{HasMemory};
ghost use Rattle.queue_disc_core.specs.QueueDiscs.{open_scheduler, renumbered, sent_handle, sent_handles};
ghost use Rattle.queue_disc_core.specs.declared.answers.EnqueueFault.TheVariants as fault;

use crate::answers::{Dequeued, Dropped, EnqueueFault, Enqueued, Flushed, Handle};
use crate::drops::Drops;
use crate::ghost_packets::GhostPackets;
use crate::totals::{FlushedCounts, QueueDiscTotals};
use packet_core::{Packet, Params, Seed};
use sched_core::{
    CloseFault, FlowView, MAX_ACCEPTED, MAX_MOMENT, Memory, MomentFault, Refusal, Sched, Sent,
};
use std::alloc::Global;
use std::marker::Model;

/// After so many packets of one scheduler a queue disc goes on with another, once nothing waits: half of those that a
/// scheduler has ids for.
pub const RENEW_AFTER: u64 = 1 << 39;

/// A queue disc isn't renewed once it accepted more packets than this.
const LAST_RENEWAL: u64 = 1 << 63;

/// A packet scheduler by FQ-CoDel (RFC 8290) that stores no journal. Each packet comes back once, with its tag: where
/// it is sent, by `dequeue`; where it is lost, as a drop, by `drops` or `next_drop`; and by `flush`. Drops stay until
/// they are read: while one wasn't, no packet is accepted.
///
/// A scheduler has ids for 2^40 packets. A queue disc doesn't end there: after 2^39 packets, at the first packet that
/// comes while nothing waits and no drop is unread, it goes on with a scheduler as new, of the same parameters and
/// seed. CoDel's states, the flows' credits and the lists of flows start anew then; ids, moments and totals go on. It
/// takes the memory for the new scheduler first; where that is refused it goes on with the old one, and tries again at
/// the next such packet. `Exhausted` is left for a scheduler that wasn't idle for so long that 2^40 packets came, and
/// for a queue disc that accepted 2^63 packets.
#[derive(Debug, Drop)]
pub struct QueueDisc {
    sched: Sched<Drops>,
    unread: u64,
    flushed_counts: FlushedCounts,
    past: QueueDiscTotals,
    renew_after: u64,
    packets: GhostPackets,
}

impl Model for QueueDisc {
    ghost use Rattle.queue_disc_core.specs.QueueDiscs.{DiscState};
    ghost use Rattle.queue_disc_core.specs.QueueDiscKept.{IsKeptDisc, disc_state_of};

    ghost Value = { DiscState };

    ghost view = { disc_state_of };

    ghost invariant = { IsKeptDisc };
}

/// What holds of each scheduler. It does nothing when it runs: it is called for its clauses.
#[inline(always)]
fn has_laws(sched: &Sched<Drops>)
    ensures laws { IsLawful sched.now }
    ensures ids { sched.now.standing.state.next_id ≤ MAX_ACCEPTED }
    ensures counted { IsCounted sched.now }
{
    sched.journal_laws();
    sched.recorder();
    sched.ids_left();
    sched.queued();
}

/// Each packet that was dropped is told with its cause.
#[inline(always)]
fn drops_have_causes(sched: &Sched<Drops>)
    ensures { length (lost_packets sched.now.standing.events) ≡ length (causes_of sched.now.standing.events) }
{
    sched.journal_laws();
}

/// How many packets were dropped since the last acceptance.
#[inline(always)]
fn recent_drops(sched: &Sched<Drops>) -> u64
    requires { HasMemory sched.now }
    ensures lost { length (lost_packets sched.now.standing.events) ≡ result + settled_drops sched.now.standing.events }
    ensures causes { length (causes_of sched.now.standing.events) ≡ result + settled_drops sched.now.standing.events }
{
    has_laws(sched);
    drops_have_causes(sched);
    let drops = sched.recorder();
    drops.is_made_for_some();
    drops.kept()
}

/// A scheduler before its first step, with memory for `limit` packets and one more.
fn open_sched(alloc: Global, params: Params, seed: Seed) -> Result<Sched<Drops>, Memory>
    ensures { IfOk result (λ s. s ≡ open_scheduler params seed) }
{
    let most = params.limit() as usize + 1;
    let drops = Drops::try_new(alloc, most)?;
    let mut sched = Sched::try_with_recorder(alloc, params, seed, drops)?;
    sched.reserve(most as u64)?;
    Ok(sched)
}

/// An enqueue was made. Where no other is reserved, it reserves more.
#[inline(always)]
fn keep_room(sched: &mut Sched<Drops>)
    requires { HasMemory sched.old }
    ensures some { 0 < sched.old.room → sched.new ≡ sched.old }
    ensures none { sched.old.room ≡ 0 → sched.new ≡ record sched.old { room = free_enqueues sched.old } }
    ensures rest { sched.new ≡ record sched.old { room = sched.new.room } }
    ensures room { sched.old.room ≤ sched.new.room }
    ensures reserved { 0 < sched.new.room }
{
    if sched.room() == 0 {
        take_room(sched);
    }
}

/// Reserves as many enqueues as packets may come before `limit` and one more wait. There is memory for these, so none
/// is taken.
// Kept out of an enqueue: few come here while less waits than `limit`.
#[inline(never)]
fn take_room(sched: &mut Sched<Drops>)
    requires memory { HasMemory sched.old }
    requires none { sched.old.room ≡ 0 }
    ensures taken { sched.new ≡ record sched.old { room = free_enqueues sched.old } }
    ensures reserved { 0 < sched.new.room }
{
    has_laws(sched);
    drops_have_causes(sched);
    let most = u64::from(sched.params().limit()) + 1;
    let enqueues = most - sched.queued();
    let reserved = sched.reserve(enqueues);
    prove!(reserved.is_ok());
}

/// What a dequeue answers of the packet that the scheduler gives: it has its id over all renewals.
#[inline(always)]
fn give(sent: Option<Sent>, before: u64, packets: &mut GhostPackets) -> Option<Sent>
    requires { IfSome sent (λ s. before + s.id < 2 ^ 64) }
    ensures told { result ≡ option_map (renumbered before) sent }
    ensures packets { packets.new
        ≡ record packets.old { sent = packets.old.sent ++ sent_handles before sent } }
{
    let mut sent = sent?;
    sent.id = before + sent.id;
    packets.send(Handle {
        tag: sent.packet.tag(),
        id: sent.id,
    });
    Some(sent)
}

/// A dequeue at the moment of the last step.
fn dequeue_at_last(sched: &mut Sched<Drops>) -> Option<Sent>
    ensures { IsServed sched.old sched.old.standing.state.last result sched.new }
{
    let moment = sched.last_moment();
    match sched.dequeue(moment) {
        Ok(sent) => sent,
        Err(_) => None,
    }
}

/// What a flush answers of the packet that the scheduler gives.
fn take_out(sent: Option<Sent>, before: u64, packets: &mut GhostPackets) -> Option<Flushed>
    requires { IfSome sent (λ s. before + s.id < 2 ^ 64) }
    ensures told { result ≡ option_map (sent_handle before) sent }
    ensures packets { packets.new
        ≡ record packets.old { flushed = packets.old.flushed ++ sent_handles before sent } }
{
    let sent = sent?;
    let packet = Handle {
        tag: sent.packet.tag(),
        id: before + sent.id,
    };
    packets.flush(packet);
    Some(packet)
}

impl QueueDisc {
    ghost use Rattle.queue_disc_core.specs.Faults.{IsFault};
    ghost use Rattle.queue_disc_core.specs.QueueDiscs.{AreFlushed, AreGivenBack, AreRead, FlushesAll, FlushesOne, IsDiscAccepted, IsDiscClosed, IsDiscDequeued, IsDue, IsEnqueued, IsFlushed, IsRead, KeepsSent, MayCome, flushed_by, lost_of, new_disc, queued_in, renewed, totals_of};

    /// A scheduler before its first step. It takes the memory for `limit` packets and one more here.
    pub fn open(alloc: Global, params: Params, seed: Seed) -> Result<QueueDisc, Memory>
        ensures { IfOk result (λ s. s ≡ new_disc params seed RENEW_AFTER) }
    {
        QueueDisc::open_with(alloc, params, seed, RENEW_AFTER)
    }

    /// The same, but it is renewed after so many packets of one scheduler.
    pub fn open_with(
        alloc: Global,
        params: Params,
        seed: Seed,
        renew_after: u64,
    ) -> Result<QueueDisc, Memory>
        ensures { IfOk result (λ s. s ≡ new_disc params seed renew_after) }
    {
        let sched = open_sched(alloc, params, seed)?;
        Ok(QueueDisc {
            sched,
            unread: 0,
            flushed_counts: FlushedCounts::none(),
            past: QueueDiscTotals::none(),
            renew_after,
            packets: GhostPackets::new(),
        })
    }

    /// Accepts a packet at a moment, in microseconds, into the queue of its flow, as the scheduler does, and says how
    /// many packets were dropped for it. It refuses while a drop of an earlier call wasn't read, then where the
    /// scheduler refuses the step, and never for want of memory. Where a renewal is due, it goes on with a scheduler as
    /// new first.
    #[inline(always)]
    pub fn enqueue(&mut self, moment: u64, packet: Packet) -> Result<Enqueued, EnqueueFault>
        ensures made { IfOk result (λ said. IsEnqueued self.old moment packet said self.new) }
        ensures id { IfOk result (λ said. said.id ≡ length self.old.packets.accepted) }
        ensures may_come { IfOk result (λ said. MayCome self.old moment) }
        ensures unread { (result ≡ Err fault.Unread) ↔ (0 < self.old.unread) }
        ensures refused { IfErr result (λ f. IsFault
            (refusal_of self.old.sched.standing.state (Enqueue moment 0 packet)) f) }
        ensures memory { IfErr result (λ f. f ≢ fault.Refused refusal.Memory) }
        ensures unchanged { OnErr result (self.new ≡ self.old) }
    {
        if self.unread > 0 {
            return Err(EnqueueFault::Unread);
        }
        Ok(self.admit(moment, packet)?)
    }

    /// The same where each drop was read.
    #[tactic(auto, using(crate::proofs::Refusals::may_come))]
    #[inline(always)]
    fn admit(&mut self, moment: u64, packet: Packet) -> Result<Enqueued, Refusal>
        requires { self.old.unread ≡ 0 }
        ensures made { IfOk result (λ said. IsEnqueued self.old moment packet said self.new) }
        ensures id { IfOk result (λ said. said.id ≡ length self.old.packets.accepted) }
        ensures may_come { IfOk result (λ said. MayCome self.old moment) }
        ensures refused { IfErr result
            (IsRefusal (refusal_of self.old.sched.standing.state (Enqueue moment 0 packet))) }
        ensures memory { OnErr result (refusal_of self.old.sched.standing.state (Enqueue moment 0 packet) ≢ None) }
        ensures unchanged { OnErr result (self.new ≡ self.old) }
    {
        if self.is_due(moment) {
            // A packet whose place a call knows would be written there at each enqueue.
            let copy = packet;
            return self.accept_anew(moment, copy);
        }
        self.accept(moment, packet)
    }

    /// Whether the queue disc is to be renewed before a packet that comes at that moment.
    #[inline(always)]
    fn is_due(&self, moment: u64) -> bool
        requires { self.now.unread ≡ 0 }
        ensures due { IsTrue result → IsDue self.now }
        ensures moment { IsTrue result → moment < MAX_MOMENT }
        ensures later { IsTrue result → self.now.sched.standing.state.last ≤ moment }
        ensures always { IsDue self.now → moment < MAX_MOMENT → self.now.sched.standing.state.last ≤ moment
            → IsTrue result }
    {
        let accepted = MAX_ACCEPTED - self.sched.ids_left();
        accepted >= self.renew_after
            && self.sched.queued() == 0
            && !self.sched.is_closed()
            && self.past.accepted + accepted <= LAST_RENEWAL
            && moment < MAX_MOMENT
            && moment >= self.sched.last_moment()
    }

    /// Goes on with a scheduler as new, if there is memory for it.
    fn renew(&mut self) -> Result<(), Memory>
        requires { IsDue self.old }
        ensures made { OnOk result (self.new ≡ renewed self.old) }
        ensures refused { OnErr result (self.new ≡ self.old) }
    {
        let totals = self.totals();
        has_laws(&self.sched);
        let alloc = self.sched.recorder().allocator();
        let params = *self.sched.params();
        let sched = open_sched(alloc, params, self.sched.seed())?;
        self.past = totals;
        self.flushed_counts = FlushedCounts::none();
        self.sched = sched;
        Ok(())
    }

    /// The same after a renewal, if there is memory for it.
    // Kept out of an enqueue: hardly one comes here.
    #[inline(never)]
    fn accept_anew(&mut self, moment: u64, packet: Packet) -> Result<Enqueued, Refusal>
        requires due { IsDue self.old }
        requires moment { moment < MAX_MOMENT }
        requires later { self.old.sched.standing.state.last ≤ moment }
        ensures made { IfOk result (λ said. IsEnqueued self.old moment packet said self.new) }
        ensures id { IfOk result (λ said. said.id ≡ length self.old.packets.accepted) }
        ensures may_come { IfOk result (λ said. MayCome self.old moment) }
        ensures refused { IfErr result
            (IsRefusal (refusal_of self.old.sched.standing.state (Enqueue moment 0 packet))) }
        ensures memory { OnErr result (refusal_of self.old.sched.standing.state (Enqueue moment 0 packet) ≢ None) }
        ensures unchanged { OnErr result (self.new ≡ self.old) }
    {
        let renewed = self.renew();
        let said = self.accept(moment, packet)?;
        self.packets.note_renewal(renewed.is_ok(), moment);
        Ok(said)
    }

    /// Accepts a packet, as the scheduler does.
    #[inline(always)]
    fn accept(&mut self, moment: u64, packet: Packet) -> Result<Enqueued, Refusal>
        requires { self.old.unread ≡ 0 }
        ensures made { IfOk result (λ said. IsDiscAccepted self.old moment packet said self.new) }
        ensures id { IfOk result (λ said. said.id ≡ length self.old.packets.accepted) }
        ensures fits { IfOk result (λ said.
            refusal_of self.old.sched.standing.state (Enqueue moment 0 packet) ≡ None) }
        ensures refused { IfErr result
            (IsRefusal (refusal_of self.old.sched.standing.state (Enqueue moment 0 packet))) }
        ensures memory { OnErr result (refusal_of self.old.sched.standing.state (Enqueue moment 0 packet) ≢ None) }
        ensures unchanged { OnErr result (self.new ≡ self.old) }
    {
        has_laws(&self.sched);
        drops_have_causes(&self.sched);
        let admitted = self.sched.enqueue(moment, 0, packet)?;
        has_laws(&self.sched);
        keep_room(&mut self.sched);
        has_laws(&self.sched);
        // The acceptance forgot the drops before it.
        self.unread = recent_drops(&self.sched);
        let id = self.past.accepted + admitted.id;
        self.packets.accept(Handle {
            tag: packet.tag(),
            id,
        });
        Ok(Enqueued {
            id,
            flow: admitted.flow,
            drops: self.unread,
        })
    }

    /// Gives the packet that is next in turn, or none where none waits, at a moment in microseconds, as the scheduler
    /// does, and says how many packets CoDel dropped before it. The packet has the tag that it was handed in with. It
    /// takes no memory, and may be called while drops weren't read. It refuses a moment of 2^60 or more or before the
    /// last one.
    #[inline(always)]
    pub fn dequeue(&mut self, moment: u64) -> Result<Dequeued, MomentFault>
        ensures made { IfOk result (λ said. IsDiscDequeued self.old moment said self.new) }
        ensures refused { IfErr result (λ fault.
            refusal_of self.old.sched.standing.state (Dequeue moment) ≡ Some (refusal.Moment fault)) }
        ensures unchanged { OnErr result (self.new ≡ self.old) }
    {
        has_laws(&self.sched);
        let before = recent_drops(&self.sched);
        let sent = self.sched.dequeue(moment)?;
        has_laws(&self.sched);
        let drops = recent_drops(&self.sched) - before;
        self.unread += drops;
        Ok(Dequeued {
            sent: give(sent, self.past.accepted, &mut self.packets),
            drops,
        })
    }

    /// Gives the first of the drops that weren't read yet: each once, in the order of the drops. It takes no memory.
    pub fn next_drop(&mut self) -> Option<Dropped>
        ensures none { IsNone result ↔ (self.old.unread ≡ 0) }
        ensures read { IfSome result (λ d. IsRead self.old d self.new) }
        ensures unchanged { IsNone result → self.new ≡ self.old }
    {
        if self.unread == 0 {
            return None;
        }
        Some(self.read_drop())
    }

    /// The same where there is such a drop.
    fn read_drop(&mut self) -> Dropped
        requires { 0 < self.old.unread }
        ensures { IsRead self.old result self.new }
    {
        has_laws(&self.sched);
        drops_have_causes(&self.sched);
        let drops = self.sched.recorder();
        drops.is_made_for_some();
        let mut dropped = drops.dropped(self.unread as usize);
        dropped.id = self.past.accepted + dropped.id;
        self.unread -= 1;
        self.packets.read(Handle {
            tag: dropped.tag,
            id: dropped.id,
        });
        dropped
    }

    /// Gives the drops that weren't read yet, as many as fit, in the order of the drops: they stand from the front of
    /// `out`, whose rest stays as it was. It answers how many they are. It takes no memory. Drops that don't fit stay
    /// to be read.
    pub fn drops(&mut self, out: &mut [Dropped]) -> usize
        ensures many { result ≡ min (length out.old) self.old.unread }
        ensures read { AreRead self.old (take result out.new) self.new }
        ensures rest { drop result out.new ≡ drop result out.old }
    {
        let many = out.len().min(self.unread() as usize);
        for place in 0..many {
            out[place] = self.read_drop();
        }
        many
    }

    /// Takes out packets that wait, as many as fit, as dequeues at the moment of the last step do: they stand from the
    /// front of `out`, whose rest stays as it was. It answers how many they are, and fewer than fit only where a
    /// dequeue finds none; 0 where nothing waits. So an embedder can free its buffers. The packets count as flushed,
    /// not as sent. What CoDel drops on the way is there to be read, as any drop. It takes no memory.
    pub fn flush(&mut self, out: &mut [Flushed]) -> usize
        ensures many { result ≤ length out.old }
        ensures flushed { result ≡ length out.old → AreFlushed self.old (take result out.new) self.new }
        ensures fewer { result < length out.old → FlushesAll self.old (take result out.new) self.new }
        ensures none { queued_in self.old ≡ 0 → result ≡ 0 }
        ensures rest { drop result out.new ≡ drop result out.old }
        ensures totals { KeepsSent (totals_of self.old) result (totals_of self.new) }
    {
        if self.queued() == 0 {
            return 0;
        }
        for place in 0..out.len() {
            let Some(packet) = self.flush_next() else {
                return place;
            };
            out[place] = packet;
        }
        out.len()
    }

    /// Takes out the packet that a dequeue at the moment of the last step gives, if it gives one.
    fn flush_next(&mut self) -> Option<Flushed>
        ensures one { FlushesOne self.old result self.new }
        ensures totals { KeepsSent (totals_of self.old) (flushed_by result) (totals_of self.new) }
    {
        has_laws(&self.sched);
        let before = self.sched.totals();
        let drops = recent_drops(&self.sched);
        let sent = dequeue_at_last(&mut self.sched);
        has_laws(&self.sched);
        self.unread += recent_drops(&self.sched) - drops;
        let after = self.sched.totals();
        self.flushed_counts = self.flushed_counts.and(&before, &after);
        take_out(sent, self.past.accepted, &mut self.packets)
    }

    /// How many drops weren't read yet.
    pub fn unread(&self) -> u64
        ensures value { result ≡ self.now.unread }
        ensures lost { result ≤ length (lost_of self.now) }
    {
        drops_have_causes(&self.sched);
        self.unread
    }

    /// From here on nothing is accepted; dequeues go on, and drops can be read. The moment is in microseconds. It
    /// takes no memory. It refuses a moment of 2^60 or more or before the last one, then a second close.
    pub fn close(&mut self, moment: u64) -> Result<(), CloseFault>
        ensures made { OnOk result (IsDiscClosed self.old moment self.new) }
        ensures refused { IfErr result
            (λ fault. refusal_of self.old.sched.standing.state (Close moment) ≡ Some (close_refusal fault)) }
        ensures unchanged { OnErr result (self.new ≡ self.old) }
    {
        has_laws(&self.sched);
        self.sched.close(moment)?;
        has_laws(&self.sched);
        Ok(())
    }

    /// Each packet that was accepted was given back once, by `dequeue`, as a drop that was read or by `flush`, or its
    /// drop wasn't read yet, or it waits. This goes over renewals. It does nothing when it runs: it is called for its
    /// clauses.
    pub fn packets_come_back(&self)
        ensures { AreGivenBack self.now }
    {
        let _ = &self.sched;
    }

    /// The statistics of all packets so far.
    pub fn totals(&self) -> QueueDiscTotals
        ensures value { result ≡ totals_of self.now }
        ensures balance { result.accepted ≡ result.sent + result.dropped_codel + result.dropped_overflow
            + result.flushed + result.queued }
    {
        let _ = self.sched.ids_left();
        self.past.and(&self.sched.totals(), &self.flushed_counts)
    }

    /// How many packets wait.
    pub fn queued(&self) -> u64
        ensures { result ≡ queued_in self.now }
    {
        self.sched.queued()
    }

    /// What is kept of a flow, by its number.
    pub fn flow_view(&self, flow: u32) -> FlowView
        requires { flow < self.now.sched.params.flows }
        ensures { result ≡ flow_shown (flows_of self.now.sched) flow }
    {
        self.sched.flow_view(flow)
    }

    /// The parameters that it was opened with.
    pub fn params(&self) -> &Params
        ensures { result.now ≡ self.now.sched.params }
    {
        self.sched.params()
    }

    /// Whether there was a close.
    pub fn is_closed(&self) -> bool
        ensures { result ≡ self.now.sched.standing.state.closed }
    {
        self.sched.is_closed()
    }

    /// The moment of the last step that wasn't refused, in microseconds, and 0 before the first.
    pub fn last_moment(&self) -> u64
        ensures { result ≡ self.now.sched.standing.state.last }
    {
        self.sched.last_moment()
    }
}
