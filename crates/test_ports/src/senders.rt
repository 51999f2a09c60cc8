//! Senders at a locked port by one thread: which calls they ask their gate for, which refusals stop them and which they
//! pass over.

use crate::calls::{Call, Sending};
use crate::fixtures::{Form, counted, flows};
use crate::gates::{new_gate, was_asked};
use crate::seats::{Part, plays};
use port_core::Stop;
use sched_core::{Engine, Mark, MomentFault, Refusal};
use std::alloc::Global;
use std::process::Abort;
use std::sync::Wait;
use std::thread::Threads;

/// Why a sender stops at a moment of 2^60 microseconds.
const TOO_LATE: Stop = Stop::Refused(TOO_LARGE);

const TOO_LARGE: Refusal = Refusal::Moment(MomentFault::TooLarge);

const SHORT: Form = Form::Ip4(53, 64);

const LONG: Form = Form::Ip4(54, 1_500);

/// The calls are made by the one seat of a new port with one flow, and it is settled.
fn plays_alone<R: Threads + Wait + Abort + Sync>(
    rt: &R,
    alloc: Global,
    calls: &[Call<'_>],
) -> Engine {
    plays(rt, alloc, flows(rt, 1), 1, Part::Alone(calls), &[])
}

/// An open gate is asked once for each call.
#[test]
fn asks_once_for_each_call(rt: HostRuntime) {
    asks(&rt, rt.alloc(), false, &THREE_PACKETS, 3);
}

/// So it is where there are many: it isn't asked ahead of a call, nor again for one that was made.
#[test]
fn asks_once_for_each_of_many_calls(rt: HostRuntime) {
    let mut packets = Vec::new(rt.alloc());
    for moment in 0..5_000 {
        packets.push((moment, SHORT)).expect(&rt, "memory");
    }
    asks(&rt, rt.alloc(), false, &packets, 5_000);
}

/// A gate that is closed at the first asking for each call is asked for it once more.
#[test]
fn asks_again_where_it_was_closed(rt: HostRuntime) {
    asks(&rt, rt.alloc(), true, &THREE_PACKETS, 6);
}

/// A sender of those packets asks its gate so often.
fn asks<R: Threads + Wait + Abort + Sync>(
    rt: &R,
    alloc: Global,
    hesitates: bool,
    packets: &[(u64, Form)],
    times: u64,
) {
    let gate = new_gate(hesitates);
    let number = packets.len() as u64;
    let sending = Sending {
        packets,
        calls: number,
        stop: Stop::Done,
    };
    let calls = [Call::Ask(&gate, sending), Call::Told(packets)];
    let engine = plays_alone(rt, alloc, &calls);
    assert_eq!(rt; counted(&engine.totals()), (number, 0));
    was_asked(rt, &gate, times);
}

const THREE_PACKETS: [(u64, Form); 3] = [(0, SHORT), (1, LONG), (2, SHORT)];

/// A moment of 2^60 microseconds stops a sender, before the close and after it: the refused call is the last one. With
/// the same seat a sender can go on. Packets that are refused for the close alone are passed over, and the seat is told
/// of none of them.
#[test]
fn moments_stop_senders(rt: HostRuntime) {
    let engine = plays_alone(&rt, rt.alloc(), &MOMENTS);
    assert_eq!(rt; counted(&engine.totals()), (4, 0));
}

const MOMENTS: [Call<'static>; 10] = [
    // The third of four.
    Call::Send(Sending {
        packets: &[(5, SHORT), (6, LONG), (1 << 60, SHORT), (7, LONG)],
        calls: 3,
        stop: TOO_LATE,
    }),
    Call::Told(&[(5, SHORT), (6, LONG)]),
    // The first of two.
    Call::Send(Sending {
        packets: &[(1 << 60, LONG), (7, SHORT)],
        calls: 1,
        stop: TOO_LATE,
    }),
    // None.
    Call::Send(Sending {
        packets: &[(7, LONG), (8, SHORT)],
        calls: 2,
        stop: Stop::Done,
    }),
    Call::Told(&[(5, SHORT), (6, LONG), (7, LONG), (8, SHORT)]),
    Call::Close(8, Ok(8)),
    // None, after the close.
    Call::Send(Sending {
        packets: &[(9, SHORT), (9, LONG), (0, SHORT)],
        calls: 3,
        stop: Stop::Done,
    }),
    // The third of four, after the close.
    Call::Send(Sending {
        packets: &[(9, LONG), (9, SHORT), (1 << 60, LONG), (9, SHORT)],
        calls: 3,
        stop: TOO_LATE,
    }),
    Call::Told(&[(5, SHORT), (6, LONG), (7, LONG), (8, SHORT)]),
    Call::Counts(4, 0),
];

/// Where the port is closed while a sender sends, it makes all its calls, and its seat is told of the packets that came
/// before the close.
#[test]
fn sends_through_a_close(rt: HostRuntime) {
    let engine = plays_alone(&rt, rt.alloc(), &THROUGH_A_CLOSE);
    assert_eq!(rt; (engine.is_closed(), engine.event_count()), (true, 3));
}

const THROUGH_A_CLOSE: [Call<'static>; 2] = [
    Call::CloseBetween(Sending {
        packets: &[(5, SHORT), (6, LONG), (7, SHORT), (8, LONG), (9, SHORT)],
        calls: 5,
        stop: Stop::Done,
    }),
    Call::Told(&[(5, SHORT), (6, LONG)]),
];

/// After the close a sender's packets are refused, and what waits is given.
#[test]
fn refuses_after_the_close(rt: HostRuntime) {
    assert!(rt; plays_alone(&rt, rt.alloc(), &AFTER_THE_CLOSE).is_closed());
}

const ONE: Form = Form::Ip4(53, 100);

const OTHER: Form = Form::Ip4(54, 100);

const TWO: Sending<'static> = Sending {
    packets: &[(7, ONE), (8, OTHER)],
    calls: 2,
    stop: Stop::Done,
};

const AFTER_THE_CLOSE: [Call<'static>; 13] = [
    Call::Send(TWO),
    Call::Seat(2, 0),
    Call::Close(1 << 60, Err(TOO_LARGE)),
    Call::Close(2, Ok(8)),
    Call::Close(1 << 60, Err(TOO_LARGE)),
    Call::Send(TWO),
    Call::Seat(2, 0),
    Call::ComesNot(9, ONE, Refusal::ClosedAlready),
    Call::Close(9, Err(Refusal::ClosedAlready)),
    Call::Goes(10, ONE, 0, 10, Mark::NoMark),
    Call::Goes(10, OTHER, 1, 10, Mark::NoMark),
    Call::Idle(10),
    Call::Seat(2, 2),
];
