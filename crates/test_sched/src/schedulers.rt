//! The schedulers and the packets of the tests. Where a step fails the test ends there: each `?` would be one more way
//! out of a function, and its proof takes each of them.

use packet_core::{Ecn, EcnUse, FiveTuple, Packet, ParamFields, Params, Seed};
use sched_core::{Event, Recorder, Sched};
use std::process::Abort;
use test_support::by_port;

/// The destination port where there is one flow.
pub(crate) const PORT: u16 = 53;

/// The seed of every scheduler. A flow that is found from the destination port doesn't depend on it.
pub(crate) const SEED: Seed = Seed([0; 16]);

/// Standard parameters for one flow, without marks, and flows by the destination port.
pub(crate) fn one_flow() -> ParamFields {
    let mut fields = by_port(1);
    fields.ecn = EcnUse::Drop;
    fields
}

/// Standard parameters for four flows, without marks.
pub(crate) fn four_flows() -> ParamFields {
    let mut fields = by_port(4);
    fields.ecn = EcnUse::Drop;
    fields
}

/// Those parameters.
pub(crate) fn params_of<R: Abort>(rt: &R, fields: ParamFields) -> Params {
    Params::try_new(fields).ok().expect(rt, "parameters")
}

/// A scheduler with those parameters.
pub(crate) fn scheduler(rt: &(impl Abort + AllocGlobal), fields: ParamFields) -> Sched {
    seeded(rt, params_of(rt, fields), SEED)
}

/// A scheduler with those parameters and that seed.
pub(crate) fn seeded(rt: &(impl Abort + AllocGlobal), params: Params, seed: Seed) -> Sched {
    Sched::try_new(rt.alloc(), params, seed).expect(rt, "a scheduler")
}

/// A five-tuple with those ports.
pub(crate) fn tuple(sport: u16, dport: u16) -> FiveTuple {
    let mut tuple = test_support::tuple(dport);
    tuple.sport = sport;
    tuple
}

/// A packet of `len` bytes to that destination port.
pub(crate) fn packet<R: Abort>(rt: &R, dport: u16, len: u32) -> Packet {
    packet_of(rt, tuple(5000, dport), len, Ecn::NotEct)
}

/// A packet of `len` bytes with that five-tuple and that ECN field.
pub(crate) fn packet_of<R: Abort>(rt: &R, tuple: FiveTuple, len: u32, ecn: Ecn) -> Packet {
    Packet::try_new(tuple, len, ecn).expect(rt, "a packet")
}

/// The packet comes so many times at that moment.
pub(crate) fn come<K: Recorder, R: Abort>(
    rt: &R,
    sched: &mut Sched<K>,
    times: u64,
    moment: u64,
    packet: Packet,
) {
    for _ in 0..times {
        assert!(rt; sched.enqueue(moment, 0, packet).is_ok());
    }
}
