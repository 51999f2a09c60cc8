//! What the tests of several crates build: a five-tuple, and the fields of parameters for flows by the destination port.
#![tactic(auto)]

use packet_core::{Classify, FiveTuple, Ip, ParamFields, Seed};

/// A seed whose bytes all differ.
pub const SEED: Seed = Seed([1, 2, 3, 4, 5, 6, 7, 8, 9, 10, 11, 12, 13, 14, 15, 16]);

/// UDP over IPv4, from 10.0.0.1 and port 5000 to 10.0.0.2 and that port.
pub fn tuple(dport: u16) -> FiveTuple {
    FiveTuple {
        proto: 17,
        src: Ip::V4([10, 0, 0, 1]),
        dst: Ip::V4([10, 0, 0, 2]),
        sport: 5_000,
        dport,
    }
}

/// The standard parameters, with so many flows, each chosen by the destination port.
pub fn by_port(flows: u32) -> ParamFields {
    let mut fields = ParamFields::standard();
    fields.flows = flows;
    fields.classify = Classify::Dport;
    fields
}
