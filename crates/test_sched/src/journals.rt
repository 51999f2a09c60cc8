//! What a scheduler's journal tells, its totals, and its rows by five-tuple.

use crate::calls::{Call, comes, goes, plays};
use crate::schedulers::{PORT, four_flows, one_flow, packet, packet_of, tuple};
use packet_core::{Ecn, Packet};
use sched_core::{Cause, Event, Mark, TupleRow};

/// Two packets come, the first of which overflows, and the second leaves.
#[test]
fn events_tell_lanes_and_moments(rt: HostRuntime) {
    let mut fields = four_flows();
    fields.limit = 1;
    let first = packet(&rt, 1, 200);
    let second = packet_of(&rt, tuple(5000, 2), 100, Ecn::Ect0);
    let calls = [
        comes(1, 7, first, 0, 1),
        comes(2, 8, second, 1, 2),
        goes(3, second, 1),
        Call::Events(&events_of(first, second)),
    ];
    plays(&rt, fields, &calls);
}

/// The journal of these two packets.
fn events_of(first: Packet, second: Packet) -> [Event; 4] {
    [
        Event::Accepted {
            id: 0,
            moment: 1,
            lane: 7,
            flow: 1,
            packet: first,
        },
        Event::Accepted {
            id: 1,
            moment: 2,
            lane: 8,
            flow: 2,
            packet: second,
        },
        Event::Dropped {
            id: 0,
            moment: 2,
            cause: Cause::Overflow,
        },
        Event::Sent {
            id: 1,
            moment: 3,
            ecn: Ecn::Ect0,
            mark: Mark::NoMark,
        },
    ]
}

/// Three packets of two five-tuples come, and one leaves.
#[test]
fn rows_in_order_of_first_acceptance(rt: HostRuntime) {
    let (tuple1, tuple0) = (tuple(5001, PORT), tuple(5000, PORT));
    let packet1 = packet_of(&rt, tuple1, 1_000, Ecn::NotEct);
    let packet0 = packet_of(&rt, tuple0, 1_000, Ecn::NotEct);
    let rows = [
        TupleRow {
            tuple: tuple1,
            flow: 0,
            accepted: 2,
            sent: 1,
            dropped: 0,
            queued: 1,
        },
        TupleRow {
            tuple: tuple0,
            flow: 0,
            accepted: 1,
            sent: 0,
            dropped: 0,
            queued: 1,
        },
    ];
    let calls = [
        Call::Come(1, 0, packet1),
        Call::Come(1, 0, packet0),
        Call::Come(1, 0, packet1),
        goes(1, packet1, 0),
        Call::Rows(&rows),
    ];
    plays(&rt, one_flow(), &calls);
}

#[test]
fn reserve_takes_the_memory(rt: HostRuntime) {
    let calls = [
        Call::Reserve(3),
        Call::Come(4, 0, packet(&rt, PORT, 100)),
        Call::State(4, 0, false),
    ];
    plays(&rt, one_flow(), &calls);
}
