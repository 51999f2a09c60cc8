//! Flows by hash and by port.

use packet_core::{
    Classify, FiveTuple, Ip, ParamFields, Params, Seed, flow_of, flow_of_hash, queue_of_hash,
};
use std::process::Abort;

/// The seed of zeros.
const ZERO_SEED: Seed = Seed([0; 16]);

/// A seed whose bytes all differ.
const RISING_SEED: Seed = Seed([0, 1, 2, 3, 4, 5, 6, 7, 8, 9, 10, 11, 12, 13, 14, 15]);

/// A query of the domain name system.
const QUERY: FiveTuple = FiveTuple {
    proto: 17,
    src: Ip::V4([10, 0, 0, 1]),
    dst: Ip::V4([10, 0, 0, 2]),
    sport: 5000,
    dport: 53,
};

/// Its answer.
const ANSWER: FiveTuple = FiveTuple {
    proto: 17,
    src: Ip::V4([10, 0, 0, 2]),
    dst: Ip::V4([10, 0, 0, 1]),
    sport: 53,
    dport: 5000,
};

/// A request for a page.
const REQUEST: FiveTuple = FiveTuple {
    proto: 6,
    src: Ip::V4([192, 168, 1, 10]),
    dst: Ip::V4([93, 184, 216, 34]),
    sport: 49152,
    dport: 443,
};

/// A message of a protocol that has no ports.
const PING: FiveTuple = FiveTuple {
    proto: 1,
    src: Ip::V4([172, 16, 0, 1]),
    dst: Ip::V4([8, 8, 8, 8]),
    sport: 0,
    dport: 0,
};

/// The greatest and the least values that the fields have.
const ENDS: FiveTuple = FiveTuple {
    proto: 6,
    src: Ip::V4([255, 255, 255, 255]),
    dst: Ip::V4([0, 0, 0, 0]),
    sport: 65535,
    dport: 1,
};

/// A request of IPv6 for a page, from 2001:db8::1 to 2001:db8::2.
const IPV6_REQUEST: FiveTuple = FiveTuple {
    proto: 6,
    src: Ip::V6([32, 1, 13, 184, 0, 0, 0, 0, 0, 0, 0, 0, 0, 0, 0, 1]),
    dst: Ip::V6([32, 1, 13, 184, 0, 0, 0, 0, 0, 0, 0, 0, 0, 0, 0, 2]),
    sport: 5000,
    dport: 443,
};

/// The query with its addresses mapped into IPv6, which makes it another five-tuple.
const MAPPED_QUERY: FiveTuple = FiveTuple {
    proto: 17,
    src: Ip::V6([0, 0, 0, 0, 0, 0, 0, 0, 0, 0, 255, 255, 10, 0, 0, 1]),
    dst: Ip::V6([0, 0, 0, 0, 0, 0, 0, 0, 0, 0, 255, 255, 10, 0, 0, 2]),
    sport: 5000,
    dport: 53,
};

/// A five-tuple with an address of each kind, as only a caller can make it.
const BOTH_KINDS: FiveTuple = FiveTuple {
    proto: 17,
    src: Ip::V4([10, 0, 0, 1]),
    dst: Ip::V6([32, 1, 13, 184, 0, 0, 0, 0, 0, 0, 0, 0, 0, 0, 0, 2]),
    sport: 5000,
    dport: 53,
};

/// The standard parameters with this number of flows, found in this way.
fn with_flows(rt: &impl Abort, classify: Classify, flows: u32) -> Params {
    Params::try_new(ParamFields {
        flows,
        classify,
        ..ParamFields::standard()
    })
    .expect(rt, "parameters")
}

/// With the seed of zeros the five-tuple has each of these flows, among so many.
fn is_hashed(rt: &impl Abort, tuple: &FiveTuple, wanted: &[(u32, u32)]) {
    for &(flows, flow) in wanted {
        let params = with_flows(rt, Classify::Hash, flows);
        assert_eq!(rt; flow_of(&params, &ZERO_SEED, tuple), flow);
    }
}

/// The flow numbers were computed with the SHA-256 of python's hashlib, over the query's 29 bytes
/// 00000000000000000000000000000000 11 0a000001 0a000002 1388 0035. The hash is 4184301397059139397.
#[test]
fn hashed_message(rt: HostRuntime) {
    is_hashed(&rt, &QUERY, &QUERY_FLOWS);
}

const QUERY_FLOWS: [(u32, u32); 6] = [
    (1, 0),
    (7, 6),
    (1000, 397),
    (1024, 837),
    (65535, 54827),
    (65536, 30533),
];

/// The same over the 53 bytes 00000000000000000000000000000000 06 20010db8000000000000000000000001
/// 20010db8000000000000000000000002 1388 01bb. The hash is 15403021339092855209.
#[test]
fn hashed_ipv6_message(rt: HostRuntime) {
    is_hashed(&rt, &IPV6_REQUEST, &IPV6_FLOWS);
}

const IPV6_FLOWS: [(u32, u32); 6] = [
    (1, 0),
    (11, 5),
    (1000, 209),
    (1024, 425),
    (65535, 7709),
    (65536, 10665),
];

/// As computed with python's hashlib, with the seed of zeros and with the rising one; the ports by hand. Of a five-tuple
/// with both kinds of address 41 bytes are hashed.
#[test]
fn flows_of_five_tuples(rt: HostRuntime) {
    let hashed = with_flows(&rt, Classify::Hash, 65536);
    let by_port = with_flows(&rt, Classify::Dport, 1024);
    for &(tuple, flow_of_zeros, rising_flow, port_flow) in &FIVE_TUPLES {
        for &(params, seed, flow) in &[
            (hashed, ZERO_SEED, flow_of_zeros),
            (hashed, RISING_SEED, rising_flow),
            (by_port, ZERO_SEED, port_flow),
            (by_port, RISING_SEED, port_flow),
        ] {
            assert_eq!(rt; flow_of(&params, &seed, &tuple), flow);
        }
    }
}

/// Of each five-tuple the flow by its hash with the seed of zeros, that with the rising seed, and that by its port.
const FIVE_TUPLES: [(FiveTuple, u32, u32, u32); 8] = [
    (QUERY, 30533, 25935, 53),
    (ANSWER, 27923, 22397, 904),
    (REQUEST, 58405, 986, 443),
    (PING, 52606, 25737, 0),
    (ENDS, 19333, 40771, 1),
    (IPV6_REQUEST, 10665, 60958, 443),
    (MAPPED_QUERY, 7407, 30696, 53),
    (BOTH_KINDS, 22584, 41426, 53),
];

/// Hashes of a network card, how many flows or queues there are, and the flow and the queue. `c/tests/calls.c` has the
/// same rows for the calls in C.
const HASHES: [(u32, u32, u32, u32); 10] = [
    (0x0000_0000, 1024, 0, 0),
    (0xffff_ffff, 1024, 1023, 1023),
    (0x8000_0000, 1000, 500, 0),
    (0x1234_5678, 65_536, 4660, 22_136),
    (0x0000_ffff, 16, 0, 15),
    (0x0003_ffff, 3, 0, 2),
    (0x0041_89ff, 1000, 1, 539),
    (0x0041_8937, 1000, 0, 535),
    (0x0041_8938, 1000, 1, 536),
    (0x0000_0005, 0, 0, 0),
];

#[test]
fn flows_and_queues_of_hashes(rt: HostRuntime) {
    for &(hash, values, flow, queue) in &HASHES {
        assert_eq!(rt; flow_of_hash(hash, values), flow);
        assert_eq!(rt; queue_of_hash(hash, values), queue);
    }
}
