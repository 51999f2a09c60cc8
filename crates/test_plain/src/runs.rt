//! The runs.

use crate::plain::{Plain, PlainSent, bytes};
use codel_core::CodelState;
use packet_core::{Ecn, EcnUse, Packet, ParamFields, Params};
use sched_core::{Cause, Event, Mark, Sched, Sent};
use std::process::Abort;
use test_support::{SEED, by_port, tuple};

/// Numbers that look random (a linear congruential generator, its upper bits).
#[derive(Drop)]
struct Random {
    state: u64,
}

impl Random {
    /// The next number, below that bound.
    fn below(&mut self, bound: u64) -> u64 {
        self.state = self
            .state
            .wrapping_mul(6364136223846793005)
            .wrapping_add(1442695040888963407);
        (self.state >> 33) % bound.max(1)
    }
}

/// A run: its parameters, how many steps it has, how many of a hundred are enqueues, and how much time passes at most
/// before each step.
#[derive(Clone, Copy)]
struct Run {
    fields: ParamFields,
    steps: u64,
    enqueues: u64,
    passes: u64,
}

/// Both schedulers make the steps, which are chosen by the numbers from a seed on.
fn compare(rt: &(impl Abort + AllocGlobal), run: &Run, seed: u64) {
    let params = Params::try_new(run.fields).expect(rt, "parameters");
    let mut sched = Sched::try_new(rt.alloc(), params, SEED).expect(rt, "memory");
    compare_with(rt, &mut sched, &params, run, seed);
}

fn compare_with(
    rt: &(impl Abort + AllocGlobal),
    sched: &mut Sched,
    params: &Params,
    run: &Run,
    seed: u64,
) {
    let mut plain = Plain::new(rt, rt.alloc(), params);
    let mut random = Random { state: seed };
    let mut now = 0u64;
    for step in 0..run.steps {
        now = now.wrapping_add(random.below(run.passes));
        let is_same = if random.below(100) < run.enqueues {
            let packet = a_packet(rt, &mut random);
            comes_alike(rt, sched, &mut plain, now, packet)
        } else {
            goes_alike(rt, sched, &mut plain, now)
        };
        assert!(rt; is_same, "step {step} is answered otherwise");
        let number = random.below(u64::from(params.flows()));
        let flow = u32::try_from(number).expect(rt, "a flow");
        assert!(rt;
            shows_alike(rt, sched, &plain, flow),
            "after step {step} flow {flow} is otherwise"
        );
    }
}

/// A packet of one of some lengths, to one of 40 ports, with one of the four fields.
fn a_packet(rt: &impl Abort, random: &mut Random) -> Packet {
    let len = match random.below(6) {
        0 => 1,
        1 => 64,
        2 => 300,
        3 => 1_000,
        4 => 1_514,
        _ => 9_000,
    };
    let ecn = match random.below(6) {
        0 => Ecn::Ect1,
        1 => Ecn::Ect0,
        2 => Ecn::Ce,
        _ => Ecn::NotEct,
    };
    let port = (random.below(40) % 40) as u16;
    let tag = random.below(1 << 31);
    Packet::try_new(tuple(port), len, ecn)
        .expect(rt, "a packet")
        .with_tag(tag)
}

/// A packet comes to both: whether they choose the same flow and drop the same packets.
fn comes_alike(
    rt: &impl Abort,
    sched: &mut Sched,
    plain: &mut Plain,
    now: u64,
    packet: Packet,
) -> bool {
    let before = sched.events().len();
    let admitted = sched.enqueue(now, 0, packet).expect(rt, "an enqueue");
    let flow = plain.enqueue(rt, now, packet);
    admitted.flow == flow && drops_alike(sched, before, &plain.dropped)
}

/// Both give the next packet: whether they give the same, with the same mark, turns and drops.
fn goes_alike(rt: &impl Abort, sched: &mut Sched, plain: &mut Plain, now: u64) -> bool {
    let before = sched.events().len();
    let sent = sched.dequeue(now).expect(rt, "a dequeue");
    let given = plain.dequeue(rt, now);
    let is_same = match (&sent, &given) {
        (None, None) => true,
        (Some(sent), Some(given)) => is_sent_alike(sent, given),
        _ => false,
    };
    is_same && sched.turns() == plain.turns && drops_alike(sched, before, &plain.dropped)
}

/// Whether a packet is sent as the plain scheduler sends it: the one that was accepted, with CE where it has a mark.
fn is_sent_alike(sent: &Sent, given: &PlainSent) -> bool {
    let packet = match given.mark {
        Mark::NoMark => given.waiting.packet,
        Mark::CodelMark | Mark::Threshold => given.waiting.packet.marked(),
    };
    sent.id == given.waiting.id && sent.mark == given.mark && sent.packet.is_same(&packet)
}

/// Whether the events from that place on tell these drops, and no others.
fn drops_alike(sched: &Sched, before: usize, wanted: &[(u64, Cause)]) -> bool {
    let mut next = 0usize;
    for event in sched.events().iter().skip(before) {
        if let Event::Dropped { id, cause, .. } = event {
            match wanted.get(next) {
                Some((same, why)) if same == id && why == cause => next = next.wrapping_add(1),
                _ => return false,
            }
        }
    }
    next == wanted.len()
}

/// Whether both keep the same of a flow.
fn shows_alike(rt: &impl Abort, sched: &Sched, plain: &Plain, flow: u32) -> bool {
    assert!(rt; flow < sched.params().flows());
    let shown = sched.flow_view(flow);
    let kept = plain.flow(rt, flow);
    let codel: CodelState = kept.codel;
    shown.len == kept.queue.len() as u64
        && shown.bytes == bytes(&kept.queue)
        && shown.credits == kept.credits
        && shown.codel == codel
}

/// The standard parameters over so many flows.
fn standard(flows: u32) -> ParamFields {
    by_port(flows)
}

#[test]
fn as_many_come_as_go(rt: HostRuntime) {
    let run = Run {
        fields: standard(16),
        steps: 6_000,
        enqueues: 50,
        passes: 400,
    };
    compare(&rt, &run, 1);
}

#[test]
fn one_flow_that_drops(rt: HostRuntime) {
    let mut fields = standard(1);
    fields.ecn = EcnUse::Drop;
    fields.target = 1_000;
    fields.interval = 5_000;
    let run = Run {
        fields,
        steps: 4_000,
        enqueues: 52,
        passes: 500,
    };
    compare(&rt, &run, 2);
}

#[test]
fn marks_past_the_threshold(rt: HostRuntime) {
    let mut fields = standard(5);
    fields.ce_threshold = Some(2_000);
    fields.target = 3_000;
    fields.interval = 20_000;
    fields.quantum = 300;
    let run = Run {
        fields,
        steps: 5_000,
        enqueues: 55,
        passes: 300,
    };
    compare(&rt, &run, 3);
}

#[test]
fn overflow_of_packets(rt: HostRuntime) {
    let mut fields = standard(7);
    fields.limit = 50;
    fields.drop_batch = 4;
    let run = Run {
        fields,
        steps: 5_000,
        enqueues: 70,
        passes: 100,
    };
    compare(&rt, &run, 4);
}

#[test]
fn overflow_of_bytes(rt: HostRuntime) {
    let mut fields = standard(33);
    fields.memory_limit = Some(60_000);
    let run = Run {
        fields,
        steps: 5_000,
        enqueues: 65,
        passes: 200,
    };
    compare(&rt, &run, 5);
}

/// It empties often, so that flows leave the lists and come back, and slots are used again in another order.
#[test]
fn empties_often(rt: HostRuntime) {
    let run = Run {
        fields: standard(40),
        steps: 6_000,
        enqueues: 45,
        passes: 2_000,
    };
    compare(&rt, &run, 6);
}
