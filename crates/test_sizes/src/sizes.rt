//! The sizes, and packets of as many five-tuples. Where a step fails the test ends there.

ghost use Rattle.std.specs.Prelude.{◌≤◌};

use packet_core::{Ecn, FiveTuple, Ip, Packet, ParamFields, Params};
use std::process::Abort;
use test_support::by_port;

/// How many sizes there are.
pub(crate) const SIZES: usize = 41;

/// How many of them are 2^20 + 1 at most. A lane has room for fewer packets, and a trace has fewer rows.
pub(crate) const SHORT: usize = 40;

/// How many of them are below 2^20. What takes long has a test for these, and one for the others.
pub(crate) const BELOW: usize = 38;

/// The largest of them, 2^21 + 1.
pub(crate) const LARGEST: usize = 2_097_153;

/// The size of that number: of each power of two from 2 to 2^20 the power, and the number after it; then the largest.
pub(crate) fn size(number: usize) -> usize
    ensures { result ≤ LARGEST }
{
    if number >= SHORT {
        return LARGEST;
    }
    let power = 1usize << (1 + number / 2 % 20);
    power.saturating_add(number % 2).min(LARGEST)
}

/// The first so many of a list.
pub(crate) fn first<'a, T, R: Abort>(rt: &R, list: &'a [T], many: usize) -> &'a [T] {
    assert!(rt; many <= list.len());
    &list[..many]
}

/// A packet of the five-tuple of that number. Up to 2^32 they all differ.
pub(crate) fn packet<R: Abort>(rt: &R, number: usize) -> Packet {
    let [_, _, _, _, a, b, c, d] = number.to_be_bytes();
    let tuple = FiveTuple {
        proto: 17,
        src: Ip::V4([a, b, c, d]),
        dst: Ip::V4([10, 0, 0, 2]),
        sport: 5_000,
        dport: u16::from_be_bytes([c, d]),
    };
    Packet::try_new(tuple, 1_000, Ecn::NotEct).expect(rt, "a packet")
}

/// Parameters for 1,024 flows by the destination port, and as many packets as may wait.
pub(crate) fn params<R: Abort>(rt: &R) -> Params {
    let mut fields = by_port(1_024);
    fields.limit = 1_048_576;
    params_of(rt, fields)
}

/// Those parameters.
pub(crate) fn params_of<R: Abort>(rt: &R, fields: ParamFields) -> Params {
    Params::try_new(fields).ok().expect(rt, "parameters")
}
