//! The parameters and the packets of the tests. Where a step fails the test ends there: each `?` would be one more way
//! out of a function, and its proof takes each of them.

use packet_core::{Ecn, EcnUse, Packet, ParamFields, Params, Seed};
use sched_core::Step;
use std::process::Abort;
use test_support::by_port;
pub(crate) use test_support::tuple;

/// The seed of every run. A flow that is found from the destination port doesn't depend on it.
pub(crate) const SEED: Seed = Seed([0; 16]);

/// Standard parameters for one flow, without marks, and flows by the destination port.
pub(crate) fn one_flow() -> ParamFields {
    let mut fields = by_port(1);
    fields.ecn = EcnUse::Drop;
    fields
}

/// The most flows that there may be.
pub(crate) const FLOWS: u32 = 65_536;

/// The greatest limit and the greatest number of flows.
pub(crate) fn greatest() -> ParamFields {
    let mut fields = one_flow();
    fields.limit = 1_048_576;
    fields.flows = FLOWS;
    fields
}

/// Standard parameters for four flows, without marks.
pub(crate) fn four_flows() -> ParamFields {
    let mut fields = one_flow();
    fields.flows = 4;
    fields
}

/// Those parameters.
pub(crate) fn params_of<R: Abort>(rt: &R, fields: ParamFields) -> Params {
    Params::try_new(fields).ok().expect(rt, "parameters")
}

/// A packet of 1,000 bytes to that destination port.
pub(crate) fn packet<R: Abort>(rt: &R, dport: u16) -> Packet {
    Packet::try_new(tuple(dport), 1_000, Ecn::NotEct)
        .ok()
        .expect(rt, "a packet")
}

/// A step that enqueues a packet to that destination port.
pub(crate) fn enqueue<R: Abort>(rt: &R, moment: u64, dport: u16) -> Step {
    Step::Enqueue {
        moment,
        lane: 0,
        packet: packet(rt, dport),
    }
}
