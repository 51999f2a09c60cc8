//! Schedulers over different recorders.

ghost use Rattle.std.specs.Prelude.{◌<◌, [], IsTrue};
ghost use Rattle.flow_core.specs.FlowLists.{waiting_in};
ghost use Rattle.sched_core.specs.Schedulers.{flows_of};

use crate::schedulers::{SEED, come, four_flows, packet, params_of, scheduler};
use codel_core::Served;
use packet_core::{Packet, Waiting};
use sched_core::{
    Cause, Event, GhostList, MAX_ACCEPTED, Memory, NullRecorder, Recorder, Sched, Totals,
};
use std::process::Abort;

/// How many buffers there are. A packet's tag is the number of its buffer, from 0.
const BUFFERS: usize = 120;

/// How often each buffer was given back.
type Returns = [u8; BUFFERS];

/// A recorder that gives the buffer of each packet back where the packet is lost, and notes which it was told of as
/// sent. It is made for as many packets as there are buffers.
#[derive(Debug, Drop)]
struct Pool {
    given_back: Returns,
    departed: Returns,
    told: GhostList<Event>,
    sent: GhostList<Waiting>,
    lost: GhostList<Waiting>,
}

impl Recorder for Pool {
    ghost told = { λ pool. pool.told.items };

    ghost sent = { λ pool. pool.sent.items };

    ghost lost = { λ pool. pool.lost.items };

    ghost room = { λ pool. pool.told.room };

    ghost made_for = { λ _. record { packets = 120; numbers = [] } };

    fn accept(&mut self, packet: &Waiting, lane: u32, flow: u32) {
        self.told = self.told.and(&Event::acceptance(packet, lane, flow));
    }

    fn send(&mut self, served: &Served, moment: u64) {
        self.told = self.told.and(&Event::departure(served, moment));
        self.sent = self.sent.and(&served.waiting);
        give_back(&mut self.departed, &served.waiting.packet);
    }

    fn lose(&mut self, packet: &Waiting, moment: u64, cause: Cause) {
        self.told = self.told.and(&Event::loss(packet, moment, cause));
        self.lost = self.lost.and(packet);
        give_back(&mut self.given_back, &packet.packet);
    }

    fn close(&mut self, moment: u64) {
        self.told = self.told.and(&Event::Closed { moment });
    }

    fn reserve(&mut self, more: usize) -> Result<(), Memory> {
        self.told = self.told.with_room(more);
        Ok(())
    }
}

/// The buffer of the packet is given back once more.
fn give_back(returns: &mut Returns, packet: &Packet) {
    if packet.tag() < BUFFERS as u64 {
        let times = &mut returns[packet.tag() as usize];
        *times = times.saturating_add(1);
    }
}

/// A new scheduler with four flows, over no buffer given back, in which 30 packets may wait: fewer than its recorder is
/// made for.
fn pooled(rt: &(impl Abort + AllocGlobal)) -> Sched<Pool> {
    let mut fields = four_flows();
    fields.limit = 30;
    let params = params_of(rt, fields);
    assert!(rt; (params.limit() as usize) < BUFFERS - 1);
    let pool = Pool {
        given_back: [0; BUFFERS],
        departed: [0; BUFFERS],
        told: GhostList::new(),
        sent: GhostList::new(),
        lost: GhostList::new(),
    };
    Sched::try_with_recorder(rt.alloc(), params, SEED, pool).expect(rt, "a scheduler")
}

/// The next packet is sent, if one waits: its buffer is given back.
fn send_next<R: Abort>(rt: &R, sched: &mut Sched<Pool>, moment: u64, sent: &mut Returns) {
    let dequeued = sched.dequeue(moment).ok().expect(rt, "a dequeue");
    if let Some(given) = &dequeued {
        assert!(rt; given.packet.tag() == given.id && given.moment == moment);
        give_back(sent, &given.packet);
    }
}

/// Packets come from each buffer in turn, three every 10 milliseconds, to three flows, and one is sent each time.
fn pass_buffers<R: Abort>(rt: &R, sched: &mut Sched<Pool>, sent: &mut Returns) {
    for round in 0..40 {
        for port in 0..3 {
            let tag = 3 * round + u64::from(port);
            let tagged = packet(rt, port, 1_000).with_tag(tag);
            come(rt, sched, 1, 10_000 * round, tagged);
        }
        send_next(rt, sched, 10_000 * round, sent);
    }
}

/// Each buffer was given back once at most, where a dequeue gave its packet or where that was lost, and so many weren't
/// yet. The recorder was told of those as sent that a dequeue gave.
fn left_out<R: Abort>(rt: &R, pool: &Pool, sent: &Returns) -> usize {
    assert!(rt; pool.departed == *sent);
    for (sent, lost) in sent.iter().zip(pool.given_back.iter()) {
        assert!(rt; *sent <= 1 && *lost <= 1 && (*sent == 0 || *lost == 0));
    }
    sent.iter()
        .zip(pool.given_back.iter())
        .filter(|times| *times.0 == 0 && *times.1 == 0)
        .count()
}

#[test]
fn each_buffer_given_back_once(rt: HostRuntime) {
    let mut sched = pooled(&rt);
    let mut sent = [0; BUFFERS];
    pass_buffers(&rt, &mut sched, &mut sent);
    let waiting = left_out(&rt, sched.recorder(), &sent);
    assert!(rt; waiting > 0 && waiting as u64 == sched.queued());
    for round in 40..100 {
        send_next(&rt, &mut sched, 10_000 * round, &mut sent);
    }
    assert!(rt; left_out(&rt, sched.recorder(), &sent) == 0);
    let totals = sched.totals();
    assert!(rt; totals.dropped_codel > 0 && totals.dropped_overflow > 0);
    assert!(rt; totals.accepted == 120 && totals.queued == 0);
}

#[test]
fn what_waits_comes_back(rt: HostRuntime) {
    let mut sched = pooled(&rt);
    let mut sent = [0; BUFFERS];
    pass_buffers(&rt, &mut sched, &mut sent);
    let waiting = sched.queued();
    let mut given_up = sched.give_up();
    for _ in 0..waiting {
        let left = given_up.remains.next().expect(&rt, "a packet");
        give_back(&mut given_up.recorder.given_back, &left.packet);
    }
    assert!(rt; given_up.remains.next().is_none());
    assert!(rt; left_out(&rt, &given_up.recorder, &sent) == 0);
}

/// A new scheduler with four flows, whose events aren't stored.
fn unstored(rt: &(impl Abort + AllocGlobal)) -> Sched<NullRecorder> {
    let params = params_of(rt, four_flows());
    Sched::try_with_recorder(rt.alloc(), params, SEED, NullRecorder::new()).expect(
        rt,
        "a scheduler",
    )
}

/// Reserves one enqueue more than wait. Where nothing is stored and the flows have memory for it, none is refused.
fn reserves_one(sched: &mut Sched<NullRecorder>) -> bool
    requires { waiting_in (flows_of sched.old).lists < sched.old.capacity }
    ensures { IsTrue result }
{
    sched.reserve(1).is_ok()
}

#[test]
fn a_reserve_is_not_refused_where_there_is_memory(rt: HostRuntime) {
    let mut sched = unstored(&rt);
    assert!(rt; sched.reserve(5).is_ok());
    assert!(rt; sched.room() == 5);
    if sched.room() > 0 {
        assert!(rt; reserves_one(&mut sched));
    }
}

/// The totals after a million steps, with every event stored.
fn totals_of_stored(rt: &(impl Abort + AllocGlobal)) -> Totals {
    let mut sched = scheduler(rt, four_flows());
    make_steps(rt, &mut sched)
}

/// The totals after the same steps, with no event stored.
fn totals_of_unstored(rt: &(impl Abort + AllocGlobal)) -> Totals {
    let mut sched = unstored(rt);
    make_steps(rt, &mut sched)
}

/// Makes a million steps, and gives the totals: three enqueues and a dequeue every 100 microseconds, to four flows in
/// turn.
fn make_steps<K: Recorder, R: Abort>(rt: &R, sched: &mut Sched<K>) -> Totals {
    let (first, second, third) = (
        packet(rt, 0, 1_000),
        packet(rt, 1, 1_000),
        packet(rt, 2, 1_000),
    );
    for round in 0..250_000 {
        let moment = 100 * round;
        come(rt, sched, 1, moment, first);
        come(rt, sched, 1, moment, second);
        come(rt, sched, 1, moment, third);
        assert!(rt; sched.dequeue(moment).is_ok());
    }
    sched.totals()
}

#[test]
fn totals_without_stored_events(rt: HostRuntime) {
    agree(&rt, &totals_of_unstored(&rt), &totals_of_stored(&rt));
}

/// Both totals are the same, of packets of which some were dropped, of either cause.
fn agree<R: Abort>(rt: &R, unstored: &Totals, stored: &Totals) {
    assert!(rt; *unstored == *stored);
    assert!(rt; unstored.accepted == 750_000);
    assert!(rt; unstored.dropped_codel > 0 && unstored.dropped_overflow > 0);
}

/// A recorder that notes for how many events it was asked for memory last.
#[derive(Debug, Drop)]
struct Asked {
    last: usize,
    told: GhostList<Event>,
    sent: GhostList<Waiting>,
    lost: GhostList<Waiting>,
}

impl Recorder for Asked {
    ghost told = { λ asked. asked.told.items };

    ghost sent = { λ asked. asked.sent.items };

    ghost lost = { λ asked. asked.lost.items };

    ghost room = { λ asked. asked.told.room };

    fn accept(&mut self, packet: &Waiting, lane: u32, flow: u32) {
        self.told = self.told.and(&Event::acceptance(packet, lane, flow));
    }

    fn send(&mut self, served: &Served, moment: u64) {
        self.told = self.told.and(&Event::departure(served, moment));
        self.sent = self.sent.and(&served.waiting);
    }

    fn lose(&mut self, packet: &Waiting, moment: u64, cause: Cause) {
        self.told = self.told.and(&Event::loss(packet, moment, cause));
        self.lost = self.lost.and(packet);
    }

    fn close(&mut self, moment: u64) {
        self.told = self.told.and(&Event::Closed { moment });
    }

    fn reserve(&mut self, more: usize) -> Result<(), Memory> {
        self.last = more;
        self.told = self.told.with_room(more);
        Ok(())
    }
}

/// A new scheduler with four flows, over a recorder that wasn't asked for memory.
fn asking(rt: &(impl Abort + AllocGlobal)) -> Sched<Asked> {
    let params = params_of(rt, four_flows());
    let asked = Asked {
        last: 0,
        told: GhostList::new(),
        sent: GhostList::new(),
        lost: GhostList::new(),
    };
    Sched::try_with_recorder(rt.alloc(), params, SEED, asked).expect(rt, "a scheduler")
}

/// Memory for so many enqueues is reserved, for which the recorder is asked for memory for so many events.
fn asks<R: Abort>(rt: &R, sched: &mut Sched<Asked>, enqueues: u64, events: usize) {
    assert!(rt; enqueues <= MAX_ACCEPTED);
    sched.reserve(enqueues).expect(rt, "memory");
    assert_eq!(rt; sched.recorder().last, events);
}

/// A recorder is asked for memory for two events of each packet that may come, for one of each that waits, and for the
/// close. The first packet that comes asks for memory for 64.
#[test]
fn memory_for_as_many_events_as_may_come(rt: HostRuntime) {
    let mut sched = asking(&rt);
    come(&rt, &mut sched, 1, 0, packet(&rt, 0, 1_000));
    assert_eq!(&rt; sched.recorder().last, 129);
    come(&rt, &mut sched, 2, 0, packet(&rt, 0, 1_000));
    assert_eq!(&rt; sched.recorder().last, 129);
    asks(&rt, &mut sched, 100, 204);
    asks(&rt, &mut sched, 1_000, 2_004);
    assert!(&rt; sched.dequeue(0).is_ok());
    asks(&rt, &mut sched, 2_000, 4_003);
}
