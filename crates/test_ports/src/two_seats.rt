//! Locked ports with two seats: a settling wants both, and gives the engine of the port's own parameters.

use crate::calls::Call;
use crate::fixtures::{Form, counted, flows, hashed};
use crate::seats::{Part, plays};
use packet_core::Params;
use sched_core::{Engine, MomentFault, Refusal, run_steps};
use std::alloc::Global;
use std::process::Abort;
use std::sync::Wait;
use std::thread::Threads;
use test_support::SEED;

/// A port that chooses flows by the destination port.
#[test]
fn settles_with_all_seats_alone(rt: HostRuntime) {
    at_any_parameters(&rt, rt.alloc(), flows(&rt, 1), 0);
}

/// A port that chooses flows by a hash: the packets are of flow 49,176, by the SHA-256 of Python.
#[test]
fn settles_with_the_parameters_of_its_start(rt: HostRuntime) {
    at_any_parameters(&rt, rt.alloc(), hashed(&rt), 49_176);
}

/// Why a moment of 2^60 microseconds is refused. It leaves the last moment as it was.
const TOO_LARGE: Refusal = Refusal::Moment(MomentFault::TooLarge);

const PACKET: Form = Form::Ip4(53, 100);

/// Both calls at 0 are accepted into that flow, of which the second is made after the refusal to settle.
fn at_any_parameters<R: Threads + Wait + Abort + Sync>(
    rt: &R,
    alloc: Global,
    params: Params,
    flow: u32,
) {
    let first = [
        Call::ComesNot(1 << 60, PACKET, TOO_LARGE),
        Call::Comes(0, PACKET, 0, flow, 0),
    ];
    let last = [Call::Counts(1, 0)];
    let later = [Call::Comes(0, PACKET, 1, flow, 0)];
    let engine = plays(rt, alloc, params, 2, Part::Calls(&[&first, &last]), &later);
    is_the_run(rt, alloc, params, &engine);
}

/// The engine has the events of a run of its steps: two acceptances, one of them after the refusal to settle.
fn is_the_run<R: Abort>(rt: &R, alloc: Global, params: Params, engine: &Engine) {
    let ran = run_steps(alloc, params, SEED, engine.steps()).expect(rt, "a run");
    assert_eq!(rt; engine.events(), ran.engine.events());
    assert_eq!(rt; engine.events().len(), 2);
}
