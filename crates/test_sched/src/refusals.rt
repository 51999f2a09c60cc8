//! Refused steps, which change nothing.

use crate::calls::{Call, comes, goes, plays};
use crate::schedulers::{PORT, one_flow, packet};
use sched_core::{CloseFault, MomentFault, Refusal};

/// Calls before the last moment are refused. What waits is the packet alone, and the next dequeue gives it.
#[test]
fn backwards_refused(rt: HostRuntime) {
    let packet = packet(&rt, PORT, 1_000);
    let fault = MomentFault::Backwards { last: 10 };
    let calls = [
        comes(10, 0, packet, 0, 0),
        Call::Dequeue(9, Err(fault)),
        Call::Close(9, Err(CloseFault::Moment(fault))),
        Call::State(1, 10, false),
        goes(10, packet, 0),
    ];
    plays(&rt, one_flow(), &calls);
}

/// After a close packets and a second close are refused. What waits is the packet that came before it alone, and the
/// next dequeue gives it.
#[test]
fn closing_refuses_later_packets(rt: HostRuntime) {
    let packet = packet(&rt, PORT, 1_000);
    let fault = MomentFault::Backwards { last: 6 };
    let calls = [
        comes(5, 0, packet, 0, 0),
        Call::State(1, 5, false),
        Call::Close(6, Ok(())),
        Call::State(1, 6, true),
        Call::Enqueue(4, 0, packet, Err(Refusal::Moment(fault))),
        Call::Enqueue(9, 0, packet, Err(Refusal::ClosedAlready)),
        Call::Close(9, Err(CloseFault::ClosedAlready)),
        Call::State(1, 6, true),
        goes(6, packet, 0),
    ];
    plays(&rt, one_flow(), &calls);
}
