//! The parameters, the seed and the packet of the sequences.

use packet_core::{Ecn, Packet, Params, Seed};
use std::alloc::Global;
use test_support::{by_port, tuple};

/// The seed of every run.
pub(crate) const SEED: Seed = Seed([0; 16]);

/// What the sequences are made with.
#[derive(Clone, Copy)]
pub(crate) struct Values {
    /// What gives memory.
    pub(crate) alloc: Global,
    /// One flow, chosen by the destination port.
    pub(crate) params: Params,
    /// The packet that comes.
    pub(crate) packet: Packet,
}

impl Values {
    /// They take no memory. The answer where there are none is what is wrong.
    pub(crate) fn try_new(alloc: Global) -> Result<Values, &'static str> {
        Ok(Values {
            alloc,
            params: one_flow().ok_or("Params::try_new")?,
            packet: packet().ok_or("Packet::try_new")?,
        })
    }
}

/// One flow, chosen by the destination port.
fn one_flow() -> Option<Params> {
    Params::try_new(by_port(1)).ok()
}

/// A packet of 1,000 bytes.
fn packet() -> Option<Packet> {
    Packet::try_new(tuple(53), 1_000, Ecn::NotEct).ok()
}
