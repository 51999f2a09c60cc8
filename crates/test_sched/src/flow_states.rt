//! What is kept of a flow after drops and marks: its credits and CoDel's state.

use crate::calls::{Call, goes, goes_marked, plays};
use crate::schedulers::{PORT, one_flow, packet, packet_of, tuple};
use codel_core::CodelState;
use packet_core::{Ecn, EcnUse};
use sched_core::{FlowView, Mark, MomentFault};

/// What is kept of a flow no packet of which has waited too long.
fn in_time(len: u64, bytes: u64, credits: i64) -> FlowView {
    FlowView {
        len,
        bytes,
        credits,
        codel: CodelState {
            first_above: None,
            drop_next: 0,
            count: 0,
            lastcount: 0,
            dropping: false,
        },
    }
}

#[test]
fn ten_packets_drop_and_send(rt: HostRuntime) {
    let packet = packet(&rt, PORT, 1_000);
    // The fifth dequeue drops a packet before the last but one, and stops dropping there. So CoDel's state stays.
    let codel = CodelState {
        first_above: None,
        drop_next: 333_445,
        count: 4,
        lastcount: 1,
        dropping: false,
    };
    // The third dequeue and the fifth gave a quantum each: three quanta less five packets are -458 bytes. The sixth
    // gave another one, and sent the last packet.
    let owing = FlowView {
        codel,
        ..in_time(1, 1_000, -458)
    };
    let emptied = FlowView {
        codel,
        ..in_time(0, 0, 56)
    };
    let calls = [
        Call::Come(10, 0, packet),
        goes(5_000, packet, 0),
        goes(105_000, packet, 2),
        goes(205_000, packet, 4),
        goes(275_710, packet, 6),
        goes(333_445, packet, 8),
        Call::View(owing),
        goes(333_446, packet, 9),
        Call::Dequeue(333_447, Ok(None)),
        Call::View(emptied),
    ];
    plays(&rt, one_flow(), &calls);
}

#[test]
fn marks_in_place_of_drops(rt: HostRuntime) {
    let mut fields = one_flow();
    fields.ecn = EcnUse::Mark;
    let plain = packet_of(&rt, tuple(5000, PORT), 1_000, Ecn::Ect0);
    let marked = packet_of(&rt, tuple(5000, PORT), 1_000, Ecn::Ce);
    let codel = CodelState {
        first_above: Some(105_000),
        drop_next: 275_710,
        count: 2,
        lastcount: 1,
        dropping: true,
    };
    let marking = FlowView {
        codel,
        ..in_time(7, 7_000, 28)
    };
    let calls = [
        Call::Come(10, 0, plain),
        goes(5_000, plain, 0),
        goes_marked(105_000, marked, 1, Mark::CodelMark),
        goes_marked(205_000, marked, 2, Mark::CodelMark),
        Call::View(marking),
    ];
    plays(&rt, fields, &calls);
}

#[test]
fn little_behind_no_drop(rt: HostRuntime) {
    // With 1,000 bytes behind it, the second packet is in time again.
    let packet = packet(&rt, PORT, 1_000);
    let calls = [
        Call::Come(3, 0, packet),
        goes(5_000, packet, 0),
        goes(105_000, packet, 1),
        goes(105_001, packet, 2),
        Call::View(in_time(0, 0, 28)),
    ];
    plays(&rt, one_flow(), &calls);
}

#[test]
fn drop_burst(rt: HostRuntime) {
    let mut fields = one_flow();
    fields.target = 0;
    fields.interval = 1;
    fields.mtu = 0;
    let packet = packet(&rt, PORT, 100);
    let codel = CodelState {
        first_above: None,
        drop_next: 2,
        count: 4,
        lastcount: 1,
        dropping: false,
    };
    let left = FlowView {
        codel,
        ..in_time(0, 0, 1_214)
    };
    // The second dequeue drops a packet, and the third one drops three.
    let calls = [
        Call::Come(7, 0, packet),
        goes(0, packet, 0),
        goes(1, packet, 2),
        goes(2, packet, 6),
        Call::View(left),
    ];
    plays(&rt, fields, &calls);
}

/// So near to the last moment that there may be the intervals of a second still count on: what CoDel keeps is a second
/// after that moment, and no dequeue comes at it. Three packets come a second before the last moment, and go then and
/// at the last moment.
#[test]
fn last_moments(rt: HostRuntime) {
    let last = (1 << 60) - 1;
    let mut fields = one_flow();
    fields.target = 0;
    fields.interval = 1_000_000_000;
    fields.mtu = 0;
    let packet = packet(&rt, PORT, 100);
    let codel = CodelState {
        first_above: None,
        drop_next: last + 1_000_000_000,
        count: 1,
        lastcount: 1,
        dropping: true,
    };
    let emptied = FlowView {
        codel,
        ..in_time(0, 0, 1_314)
    };
    let calls = [
        Call::Come(3, last - 1_000_000_000, packet),
        goes(last - 1_000_000_000, packet, 0),
        goes(last, packet, 2),
        Call::DroppedByCodel(1),
        Call::Dequeue(last + 1, Err(MomentFault::TooLarge)),
        Call::View(emptied),
    ];
    plays(&rt, fields, &calls);
}
