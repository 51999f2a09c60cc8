//! Senders of lanes by one thread: which calls they ask their gate for, what they submit, and which lane they end.

use crate::calls::{Call, Sending, full, plays, put, takes};
use crate::fixtures::{accepted, packet_of, packets};
use crate::gates::{new_gate, was_asked};
use packet_core::Packet;
use port_core::Stop;
use std::alloc::Global;
use std::process::Abort;
use std::sync::Wait;

/// A sender is to submit all these packets, which are left in its lane then.
fn sending(packets: &[Packet]) -> Sending<'_> {
    let number = packets.len() as u64;
    Sending {
        packets,
        submitted: number,
        stop: Stop::Done,
        left: number,
    }
}

/// An open gate is asked once for each call.
#[test]
fn asks_once_for_each_call(rt: HostRuntime) {
    asks(&rt, rt.alloc(), false, 3);
}

/// A gate that is closed at the first asking for each call is asked for it once more.
#[test]
fn asks_again_where_it_was_closed(rt: HostRuntime) {
    asks(&rt, rt.alloc(), true, 6);
}

/// A sender of three packets asks its gate so often.
fn asks<R: Wait + Abort>(rt: &R, alloc: Global, hesitates: bool, times: u64) {
    let p = packets(rt, 0);
    let all: &[Packet] = &p;
    let gate = new_gate(u64::MAX, hesitates);
    let calls = [Call::Ask(&gate, sending(&all[1..4])), takes(0, 8, 3)];
    let events = [
        accepted(0, 0, p[1]),
        accepted(0, 1, p[2]),
        accepted(0, 2, p[3]),
    ];
    plays(rt, alloc, (1, 8), &calls, &events);
    was_asked(rt, &gate, times);
}

/// Of no packets a sender submits all: it asks for no call, and there is an end of its empty lane.
#[test]
fn sends_nothing(rt: HostRuntime) {
    let gate = new_gate(u64::MAX, false);
    let calls = [Call::Ask(&gate, sending(&[])), takes(0, 8, 0)];
    plays(&rt, rt.alloc(), (1, 8), &calls, &[]);
    was_asked(&rt, &gate, 0);
}

/// Five packets of 64 and of 1,500 bytes in turn go into a lane with room for eight, and come out as they were.
#[test]
fn sends_short_and_long(rt: HostRuntime) {
    let p = [
        packet_of(&rt, 1, 64),
        packet_of(&rt, 2, 1_500),
        packet_of(&rt, 3, 64),
        packet_of(&rt, 4, 1_500),
        packet_of(&rt, 5, 64),
    ];
    let calls = [Call::Send(sending(&p)), takes(0, 8, 5)];
    let events = [
        accepted(0, 0, p[0]),
        accepted(0, 1, p[1]),
        accepted(0, 2, p[2]),
        accepted(0, 3, p[3]),
        accepted(0, 4, p[4]),
    ];
    plays(&rt, rt.alloc(), (1, 8), &calls, &events);
}

/// The sender of the last of three lanes ends that lane, and the two others take packets as before: they are empty, and
/// have room for two packets each.
#[test]
fn ends_its_own_lane(rt: HostRuntime) {
    let p = packets(&rt, 0);
    let all: &[Packet] = &p;
    let calls = [
        Call::Send(sending(&all[1..3])),
        takes(2, 8, 2),
        takes(0, 8, 0),
        takes(1, 8, 0),
        put(0, p[3]),
        put(0, p[4]),
        full(0, p[5]),
        put(1, p[3]),
        put(1, p[4]),
        full(1, p[5]),
        takes(2, 8, 0),
        takes(1, 8, 2),
        takes(0, 8, 2),
    ];
    let events = [
        accepted(2, 0, p[1]),
        accepted(2, 1, p[2]),
        accepted(1, 2, p[3]),
        accepted(1, 3, p[4]),
        accepted(0, 4, p[3]),
        accepted(0, 5, p[4]),
    ];
    plays(&rt, rt.alloc(), (3, 2), &calls, &events);
}
