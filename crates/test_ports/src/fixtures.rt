//! The parameters and the packets of the tests. Where a step fails the test ends there: each `?` would be one more way
//! out of a function, and its proof takes each of them.

use packet_core::{Classify, Ecn, FiveTuple, Ip, Packet, ParamFields, Params};
use sched_core::Totals;
use std::alloc::Global;
use std::process::Abort;
use test_support::{by_port, tuple};

/// So many flows, chosen by the destination port.
pub(crate) fn flows<R: Abort>(rt: &R, flows: u32) -> Params {
    Params::try_new(by_port(flows)).expect(rt, "parameters")
}

/// 65,536 flows, chosen by a hash of the five-tuple and the seed.
pub(crate) fn hashed<R: Abort>(rt: &R) -> Params {
    let mut fields = ParamFields::standard();
    fields.flows = 65_536;
    fields.classify = Classify::Hash;
    Params::try_new(fields).expect(rt, "parameters")
}

/// One flow with room for ten packets, which loses one packet at an overflow, and with a threshold of 200 ms.
pub(crate) fn room_for_ten<R: Abort>(rt: &R) -> Params {
    let mut fields = ParamFields::standard();
    fields.flows = 1;
    fields.classify = Classify::Dport;
    fields.limit = 10;
    fields.drop_batch = 1;
    fields.ce_threshold = Some(200_000);
    Params::try_new(fields).expect(rt, "parameters")
}

/// What a packet is made of.
#[derive(Clone, Copy)]
pub(crate) enum Form {
    /// Of IPv4: its destination port and its bytes.
    Ip4(u16, u32),
    /// Of IPv6: its bytes and its ECN field.
    Ip6(u32, Ecn),
    /// Of IPv4, with 100 bytes: its destination port and its tag.
    Tagged(u16, u64),
}

/// A five-tuple of IPv6.
fn ip6_tuple() -> FiveTuple {
    FiveTuple {
        proto: 17,
        src: Ip::V6([1; 16]),
        dst: Ip::V6([2; 16]),
        sport: 5_000,
        dport: 53,
    }
}

/// The packet of that form.
pub(crate) fn packet<R: Abort>(rt: &R, form: Form) -> Packet {
    let (tuple, len, ecn, tag) = match form {
        Form::Ip4(dport, len) => (tuple(dport), len, Ecn::NotEct, 0),
        Form::Ip6(len, ecn) => (ip6_tuple(), len, ecn, 0),
        Form::Tagged(dport, tag) => (tuple(dport), 100, Ecn::NotEct, tag),
    };
    let packet = Packet::try_new(tuple, len, ecn).expect(rt, "a packet");
    packet.with_tag(tag)
}

/// The packets of those forms, each with its moment.
pub(crate) fn packets<R: Abort>(
    rt: &R,
    alloc: Global,
    forms: &[(u64, Form)],
) -> Vec<(u64, Packet)> {
    let mut packets = Vec::new(alloc);
    for &(moment, form) in forms {
        packets
            .push((moment, packet(rt, form)))
            .expect(rt, "memory");
    }
    packets
}

/// How many packets were accepted, and how many were sent.
pub(crate) fn counted(totals: &Totals) -> (u64, u64) {
    (totals.accepted, totals.sent)
}
