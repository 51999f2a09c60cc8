//! How many turns a dequeue makes.

use crate::calls::{Call, goes, plays};
use crate::schedulers::{PORT, four_flows, one_flow, packet};

/// The turns of a flow of ten packets of 1,000 bytes, four of which CoDel drops.
#[test]
fn ten_packets(rt: HostRuntime) {
    let packet = packet(&rt, PORT, 1_000);
    // A quantum is 1,514 bytes, and only the packets that are sent use it up. So the third dequeue, the fifth and the
    // sixth make a turn that gives a quantum first. The last one finds the flow empty, as an old one.
    let calls = [
        Call::Come(10, 0, packet),
        goes(5_000, packet, 0),
        Call::Turns(1),
        goes(105_000, packet, 2),
        Call::Turns(1),
        goes(205_000, packet, 4),
        Call::Turns(2),
        goes(275_710, packet, 6),
        Call::Turns(1),
        goes(333_445, packet, 8),
        Call::Turns(2),
        goes(333_446, packet, 9),
        Call::Turns(2),
        Call::Dequeue(333_447, Ok(None)),
        Call::Turns(1),
    ];
    plays(&rt, one_flow(), &calls);
}

/// The turns of two flows with a quantum of 300 bytes.
#[test]
fn small_quantum_two_flows(rt: HostRuntime) {
    let mut fields = four_flows();
    fields.quantum = 300;
    let (long, short) = (packet(&rt, 1, 500), packet(&rt, 2, 200));
    // The flow 1 owes 200 bytes after its first packet, and a turn gives it a quantum; so it is with the flow 2
    // after its second. At the last dequeue the flow 1 owes 400 bytes: it gets a quantum twice, and both flows leave.
    let calls = [
        Call::Turns(0),
        Call::Come(2, 0, long),
        Call::Come(2, 0, short),
        goes(1, long, 0),
        Call::Turns(1),
        goes(1, short, 2),
        Call::Turns(2),
        goes(1, short, 3),
        Call::Turns(1),
        goes(1, long, 1),
        Call::Turns(2),
        Call::Dequeue(1, Ok(None)),
        Call::Turns(4),
    ];
    plays(&rt, fields, &calls);
}

/// The turns of three new flows with a packet each.
#[test]
fn three_new_flows_meet_the_bound(rt: HostRuntime) {
    let (first, second, third) = (
        packet(&rt, 1, 100),
        packet(&rt, 2, 100),
        packet(&rt, 3, 100),
    );
    // Each new flow has credits, and goes to the old ones once it is empty. So the last dequeue looks at the third as a
    // new flow, and at each of the three as an old one: as many turns as the bound of one new and two old flows.
    let calls = [
        Call::Come(1, 0, first),
        Call::Come(1, 0, second),
        Call::Come(1, 0, third),
        goes(1, first, 0),
        Call::Turns(1),
        goes(1, second, 1),
        Call::Turns(2),
        goes(1, third, 2),
        Call::Turns(2),
        Call::Dequeue(1, Ok(None)),
        Call::Turns(4),
    ];
    plays(&rt, four_flows(), &calls);
}

/// The turns of a flow with a quantum of one byte.
#[test]
fn giant_packets_small_quantum(rt: HostRuntime) {
    let mut fields = one_flow();
    fields.quantum = 1;
    let packet = packet(&rt, PORT, 65_535);
    // It owes 65,534 bytes after the first packet, and gets one byte a turn.
    let calls = [
        Call::Come(2, 0, packet),
        goes(1, packet, 0),
        Call::Turns(1),
        goes(1, packet, 1),
        Call::Turns(65_536),
    ];
    plays(&rt, fields, &calls);
}
