//! How often a step compared the bytes of two flows.

use crate::calls::{Call, plays};
use crate::schedulers::{four_flows, packet};
use sched_core::{Answer, MomentFault, Refusal, Step};
use std::process::Abort;

/// A step that enqueues a packet of 100 bytes to that destination port.
fn enqueue<R: Abort>(rt: &R, moment: u64, dport: u16) -> Step {
    Step::Enqueue {
        moment,
        lane: 0,
        packet: packet(rt, dport, 100),
    }
}

/// Steps of each kind and refused ones, with room for one packet.
#[test]
fn turns_and_comparisons_after_a_step_of_any_kind(rt: HostRuntime) {
    let mut fields = four_flows();
    fields.limit = 1;
    let backwards = Answer::Refused(Refusal::Moment(MomentFault::Backwards { last: 2 }));
    let closed = Answer::Refused(Refusal::ClosedAlready);
    // The second packet's arrival drops the first one, by a tie. So the dequeue looks at a flow without packets, then
    // sends. The next one looks at both flows, of which the second still stands with the new ones, and again at it.
    // Two comparisons at most, among four flows, go with each packet that comes or leaves.
    let calls = [
        Call::Make(enqueue(&rt, 1, 1), Answer::Accepted, 0, [1, 2]),
        Call::Make(enqueue(&rt, 1, 2), Answer::Accepted, 0, [2, 4]),
        Call::Make(Step::Dequeue { moment: 2 }, Answer::Sent, 2, [1, 2]),
        Call::Make(Step::Dequeue { moment: 1 }, backwards, 2, [1, 2]),
        Call::Make(Step::Dequeue { moment: 2 }, Answer::Idle, 3, [0, 0]),
        Call::Make(Step::Close { moment: 3 }, Answer::Closed, 3, [0, 0]),
        Call::Make(enqueue(&rt, 3, 1), closed, 3, [0, 0]),
    ];
    plays(&rt, fields, &calls);
}
