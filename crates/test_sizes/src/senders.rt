//! Runs by senders: through a locked port, and through lanes.

use crate::sizes::{LARGEST, SHORT, SIZES, first, packet, params, size};
use port_core::MAX_CAPACITY;
use run_core::{SendersFault, run_lanes, run_locked};
use sched_core::Step;
use sender_core::{MAX_SENDERS, lists_of, packets_of};
use std::process::Abort;
use std::sync::Wait;
use std::thread::Threads;
use test_support::SEED;

/// How many senders there are, unless a test has one.
const SENDERS: u32 = 2;

/// The packets of each sender are listed.
#[test]
fn lists_of_senders(rt: HostRuntime) {
    let steps = enqueues(&rt);
    for number in 0..SIZES {
        listed(&rt, SENDERS, first(&rt, &steps, size(number)));
    }
    listed(&rt, MAX_SENDERS, &steps);
}

/// The senders have a lock.
#[test]
fn locked_runs(rt: HostRuntime) {
    let steps = enqueues(&rt);
    for number in 0..SHORT {
        sent_locked(&rt, SENDERS, first(&rt, &steps, size(number)));
    }
}

/// The senders have lanes, and a monitor reads.
#[test]
fn runs_by_lanes(rt: HostRuntime) {
    let steps = enqueues(&rt);
    for number in 0..SHORT {
        sent_by_lanes(&rt, SENDERS, first(&rt, &steps, size(number)));
    }
}

/// All packets are those of one sender. A lane has room for 2^20. One more is reported as a fault of that lane.
#[test]
fn one_sender_of_all(rt: HostRuntime) {
    let steps = enqueues(&rt);
    sent_locked(&rt, 1, &steps);
    sent_by_lanes(&rt, 1, first(&rt, &steps, MAX_CAPACITY as usize));
    has_no_room(&rt, first(&rt, &steps, MAX_CAPACITY as usize + 1));
}

fn has_no_room(rt: &(impl Abort + AllocGlobal + Threads + Wait + Sync), steps: &[Step]) {
    let ran = run_lanes(rt, rt.alloc(), params(rt), SEED, 1, 1, steps);
    assert_eq!(rt; ran.err(), Some(SendersFault::Lane(0)));
}

fn enqueues(rt: &(impl Abort + AllocGlobal)) -> Vec<Step> {
    let mut steps = Vec::new(rt.alloc());
    for number in 0..LARGEST {
        let step = Step::Enqueue {
            moment: 1,
            lane: 0,
            packet: packet(rt, number),
        };
        steps.push(step).ok().expect(rt, "memory");
    }
    steps
}

fn listed(rt: &(impl Abort + AllocGlobal), senders: u32, steps: &[Step]) {
    assert!(rt; 0 < senders && senders <= MAX_SENDERS);
    let lists = lists_of(rt.alloc(), &params(rt), &SEED, senders, steps);
    let lists = lists.ok().expect(rt, "memory");
    assert!(rt; packets_of(rt.alloc(), &lists).is_ok());
}

fn sent_locked(
    rt: &(impl Abort + AllocGlobal + Threads + Wait + Sync),
    senders: u32,
    steps: &[Step],
) {
    assert!(rt; 0 < senders && senders <= MAX_SENDERS);
    let ran = run_locked(rt, rt.alloc(), params(rt), SEED, senders, steps);
    assert!(rt; ran.is_ok());
}

fn sent_by_lanes(
    rt: &(impl Abort + AllocGlobal + Threads + Wait + Sync),
    senders: u32,
    steps: &[Step],
) {
    assert!(rt; 0 < senders && senders <= MAX_SENDERS);
    let ran = run_lanes(rt, rt.alloc(), params(rt), SEED, senders, 1, steps);
    assert!(rt; ran.is_ok());
}
