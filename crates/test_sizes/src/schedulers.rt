//! Schedulers, engines, queue discs and choosers of flows.

use crate::sizes::{LARGEST, SHORT, SIZES, first, packet, params, params_of, size};
use journal_core::{Journal, MAX_EVENTS, Tally};
use packet_core::ParamFields;
use queue_disc_core::QueueDisc;
use sched_core::{Engine, FlowChooser, Sched, Step, run_steps};
use std::process::Abort;
use test_support::SEED;

/// Memory for so many enqueues, packets or events is asked for at once.
#[test]
fn memory_at_once(rt: HostRuntime) {
    for number in 0..SIZES {
        schedulers_at_once(&rt, size(number) as u64);
        disc_at_once(&rt, size(number) as u32);
        chooser_at_once(&rt, size(number) as u64);
        journal_at_once(&rt, size(number));
    }
}

fn schedulers_at_once(rt: &(impl Abort + AllocGlobal), enqueues: u64) {
    let params = params(rt);
    let mut sched = Sched::try_new(rt.alloc(), params, SEED).expect(rt, "memory");
    assert!(rt; enqueues <= sched_core::MAX_ACCEPTED);
    sched.reserve(enqueues).expect(rt, "memory");
    let mut engine = Engine::try_new(rt.alloc(), params, SEED).expect(rt, "memory");
    engine.reserve(enqueues).expect(rt, "memory");
}

fn disc_at_once(rt: &(impl Abort + AllocGlobal), limit: u32) {
    let mut fields = ParamFields::standard();
    fields.limit = limit.min(1_048_576);
    let params = params_of(rt, fields);
    let disc = QueueDisc::open(rt.alloc(), params, SEED).expect(rt, "memory");
    assert_eq!(rt; disc.params().limit(), fields.limit);
}

fn chooser_at_once(rt: &(impl Abort + AllocGlobal), packets: u64) {
    let params = params_of(rt, ParamFields::standard());
    let mut chooser = FlowChooser::try_new_for(rt.alloc(), params, SEED, packets).expect(
        rt, "memory",
    );
    assert!(rt; chooser.flow_of(&packet(rt, 1)) < params.flows());
}

fn journal_at_once(rt: &(impl Abort + AllocGlobal), room: usize) {
    assert!(rt; room <= MAX_EVENTS);
    let journal = Journal::try_new(rt.alloc(), room).expect(rt, "memory");
    assert!(rt; journal.events().is_empty());
}

/// Packets come one after the other, and the rows by five-tuple are asked for at each size.
#[test]
fn a_scheduler_fills(rt: HostRuntime) {
    fills(&rt);
}

fn fills(rt: &(impl Abort + AllocGlobal)) {
    let mut sched = Sched::try_new(rt.alloc(), params(rt), SEED).expect(rt, "memory");
    let mut came = 0;
    for number in 0..SIZES {
        for next in came..size(number) {
            sched.enqueue(1, 0, packet(rt, next)).expect(rt, "memory");
        }
        came = size(number);
        let rows = sched.tuple_rows().expect(rt, "memory");
        assert_eq!(rt; rows.len(), came);
    }
}

/// The same with an engine, which stores its steps, too.
#[test]
fn an_engine_fills(rt: HostRuntime) {
    engine_fills(&rt);
}

fn engine_fills(rt: &(impl Abort + AllocGlobal)) {
    let mut engine = Engine::try_new(rt.alloc(), params(rt), SEED).expect(rt, "memory");
    for number in 0..LARGEST {
        engine
            .enqueue(1, 0, packet(rt, number))
            .expect(rt, "memory");
        engine.dequeue(1).expect(rt, "memory");
    }
    let rows = engine.tuple_rows().expect(rt, "memory");
    assert_eq!(rt; rows.len(), LARGEST);
}

/// And with a queue disc, whose packets wait, and one of whose drops is read before the next packet comes.
#[test]
fn a_queue_disc_fills(rt: HostRuntime) {
    disc_fills(&rt);
}

fn disc_fills(rt: &(impl Abort + AllocGlobal)) {
    let mut disc = QueueDisc::open(rt.alloc(), params(rt), SEED).expect(rt, "memory");
    for number in 0..size(SHORT - 1) {
        let said = disc.enqueue(1, packet(rt, number)).expect(rt, "memory");
        assert_eq!(rt; said.id, number as u64);
    }
}

/// Lists of steps are run.
#[test]
fn lists_of_steps(rt: HostRuntime) {
    step_lists(&rt);
}

fn step_lists(rt: &(impl Abort + AllocGlobal)) {
    let mut steps = Vec::new(rt.alloc());
    for number in 0..LARGEST {
        let step = Step::Enqueue {
            moment: 1,
            lane: 0,
            packet: packet(rt, number),
        };
        steps.push(step).ok().expect(rt, "memory");
    }
    for number in 0..SIZES {
        let ran = run_steps(
            rt.alloc(),
            params(rt),
            SEED,
            first(rt, &steps, size(number)),
        );
        assert!(rt; ran.is_ok());
    }
}

/// As many packets as the largest size come to a tally, each of a five-tuple of its own.
#[test]
fn tallied_packets(rt: HostRuntime) {
    let mut tally = Tally::new(rt.alloc(), &SEED);
    for number in 0..LARGEST {
        let tuple = packet(&rt, number).tuple();
        assert!(rt; tally.accept(tuple, 0).is_ok());
    }
}
