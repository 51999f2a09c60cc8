//! The layout, the parameters and the packets of the tests.

use packet_core::{Ecn, Packet, Params};
use port_core::Layout;
use std::process::Abort;
use test_support::{by_port, tuple};

/// A lane with room for one packet, and so many monitors.
pub(crate) fn room_for_one(monitors: u32) -> Layout {
    Layout {
        lanes: 1,
        capacity: 1,
        monitors,
    }
}

/// One flow, chosen by the destination port.
pub(crate) fn one_flow<R: Abort>(rt: &R) -> Params {
    Params::try_new(by_port(1)).expect(rt, "parameters")
}

/// A packet of so many bytes with that field.
pub(crate) fn packet<R: Abort>(rt: &R, len: u32, ecn: Ecn) -> Packet {
    Packet::try_new(tuple(1), len, ecn).expect(rt, "a packet")
}
