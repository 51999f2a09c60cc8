//! The packets that the tests put into flows. Where a step fails the test ends there: each `?` would be one more way out
//! of a function, and its proof takes each of them.

ghost use Rattle.std.specs.Prelude.{◌+◌, ◌^◌, ◌<◌};

use flow_core::{Flows, MAX_WAITING};
use packet_core::{Ecn, FiveTuple, Ip, Packet, Waiting};
use std::process::Abort;

/// A packet of `len` bytes that came at 0.
pub(crate) fn waiting(rt: &impl Abort, id: u64, len: u32, ecn: Ecn) -> Waiting {
    let tuple = FiveTuple {
        proto: 17,
        src: Ip::V4([10, 0, 0, 1]),
        dst: Ip::V4([10, 0, 0, 2]),
        sport: 5000,
        dport: 53,
    };
    Waiting {
        id,
        stamp: 0,
        packet: Packet::try_new(tuple, len, ecn).expect(rt, "a packet"),
    }
}

/// A push whose conditions are tested, with memory for it.
pub(crate) fn push(rt: &impl Abort, flows: &mut Flows, flow: u32, waiting: Waiting) {
    assert!(rt; flow < flows.flows());
    assert!(rt; flows.total_len() < MAX_WAITING);
    flows.reserve(1).expect(rt, "memory");
    flows.push(flow, waiting);
}

/// The next of a sequence of numbers that look random, and a part of it.
pub(crate) fn next(seed: u64) -> (u64, u64) {
    let after = seed
        .wrapping_mul(6364136223846793005)
        .wrapping_add(1442695040888963407);
    (after, after >> 33)
}
