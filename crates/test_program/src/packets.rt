//! The packets that tests send.

use packet_core::{Ecn, Packet};
use std::process::Abort;
use test_support::tuple;

/// A packet of 100 bytes to that destination port.
pub(crate) fn packet<R: Abort>(rt: &R, dport: u16) -> Packet {
    Packet::try_new(tuple(dport), 100, Ecn::NotEct).expect(rt, "a packet")
}
