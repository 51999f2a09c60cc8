//! The packets of an embedder.

use crate::Fault;
use crate::random::Random;
use packet_core::{Ecn, FiveTuple, Ip, Packet};
use std::alloc::Global;

/// Five-tuples, of IPv6 where it is asked for. Their destination ports rise from 0, so that each has a flow of its own
/// by the port.
pub(crate) fn tuples(
    alloc: Global,
    count: u16,
    is_ipv6: bool,
    random: &mut Random,
) -> Result<Vec<FiveTuple>, Fault> {
    let mut tuples = Vec::new(alloc);
    for number in 0..count {
        let bits = random.next();
        tuples.push(FiveTuple {
            proto: if bits & 1 == 0 { 6 } else { 17 },
            src: address(bits, is_ipv6),
            dst: address(bits >> 32, is_ipv6),
            sport: 1024 + (bits >> 40 & 16383) as u16,
            dport: number,
        })?;
    }
    Ok(tuples)
}

/// An address of those bits.
fn address(bits: u64, is_ipv6: bool) -> Ip {
    let [a, b, c, d, ..] = bits.to_le_bytes();
    if is_ipv6 {
        Ip::V6([0x20, 1, 0x0d, 0xb8, 0, 0, 0, 1, 0, 0, 0, 0, a, b, c, d])
    } else {
        Ip::V4([10, b, c, d])
    }
}

/// A five-tuple as two words: its addresses, and the rest.
pub(crate) fn words_of(tuple: &FiveTuple) -> (u64, u64) {
    let ends = word_of(tuple.src).rotate_left(32) ^ word_of(tuple.dst);
    let ports = u64::from(tuple.sport) << 16 | u64::from(tuple.dport);
    (ends, u64::from(tuple.proto) << 32 | ports)
}

/// An address as a word. Two of IPv6 have the same one by chance alone.
fn word_of(address: Ip) -> u64 {
    match address {
        Ip::V4(octets) => u64::from(u32::from_le_bytes(octets)),
        Ip::V6(octets) => long_word(octets),
    }
}

/// Sixteen bytes as a word.
fn long_word(octets: [u8; 16]) -> u64 {
    let [a, b, c, d, e, f, g, h, i, j, k, l, m, n, o, p] = octets;
    let front = u64::from_le_bytes([a, b, c, d, e, f, g, h]);
    let back = u64::from_le_bytes([i, j, k, l, m, n, o, p]);
    front.wrapping_mul(0x9e37_79b9_7f4a_7c15) ^ back
}

/// A packet of a five-tuple, with a length and an ECN field by some bits.
pub(crate) fn packet(
    tuple: &FiveTuple,
    bits: u64,
    is_ect: bool,
    tag: u64,
) -> Result<Packet, Fault> {
    let len = match bits & 7 {
        0 | 1 | 2 => 64,
        3 => 576,
        _ => 1_514,
    };
    let ecn = if is_ect { Ecn::Ect0 } else { Ecn::NotEct };
    match Packet::try_new(*tuple, len, ecn) {
        Ok(packet) => Ok(packet.with_tag(tag)),
        Err(_) => Err(Fault::Refused),
    }
}
