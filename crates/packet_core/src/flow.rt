//! The choice of a packet's flow.

ghost use Rattle.std.specs.Prelude.{◌≡◌, ◌<◌, ◌≤◌, ◌+◌, ◌%◌, ◌++◌, length, take};
ghost use Rattle.packet_core.specs.FlowNumber.{flow_number, hash_value, hashed_message};
ghost use Rattle.packet_core.specs.Packets.{ip_bytes};

use crate::packet::{FiveTuple, Ip};
use crate::params::{Classify, Params};
use sha2::{Digest, Sha256};

/// What the choice of flows is seeded with (RFC 8290, section 4.1). A secret one keeps senders from choosing
/// five-tuples that share a flow; nothing of that is proved.
#[derive(Clone, Copy, Debug, PartialEq, Eq, Hash)]
pub struct Seed(pub [u8; 16]);

/// The number of a packet's flow, below the number of flows (RFC 8290, section 4.1).
pub fn flow_of(params: &Params, seed: &Seed, tuple: &FiveTuple) -> u32
    ensures value { result ≡ flow_number params.now.classify params.now.flows seed.now tuple.now }
    ensures below { result < params.now.flows }
{
    match params.classify() {
        Classify::Hash => remainder(hash_of(seed, tuple), params.flows()),
        Classify::Dport => remainder(u64::from(tuple.dport), params.flows()),
    }
}

/// What is left of a number that is divided by so many flows. Where they are as many as a power of two, that is the
/// number's low bits, and a mask takes less time than a division.
fn remainder(number: u64, flows: u32) -> u32
    requires { 0 < flows }
    ensures { result ≡ number % flows }
{
    let divisor = u64::from(flows);
    let rest = if divisor.is_power_of_two() {
        number & (divisor - 1)
    } else {
        number % divisor
    };
    rest as u32
}

/// The first eight bytes of a digest under SHA-256 (FIPS 180-4), as a number. What is hashed is the seed and then the
/// five-tuple, each number with its high byte first.
// Kept out of its callers: merged into an enqueue, its reads of single fields have each packet copied field by field.
#[inline(never)]
fn hash_of(seed: &Seed, tuple: &FiveTuple) -> u64
    ensures { result ≡ hash_value (hashed_message seed.now tuple.now) }
{
    // The hasher is fed once, since each piece costs time. A seed has 16 bytes, a five-tuple at most 37.
    let mut message = [0u8; 53];
    let mut place = put(&mut message, 0, &seed.0);
    place = put(&mut message, place, &[tuple.proto]);
    place = put_address(&mut message, place, &tuple.src);
    place = put_address(&mut message, place, &tuple.dst);
    place = put(&mut message, place, &tuple.sport.to_be_bytes());
    place = put(&mut message, place, &tuple.dport.to_be_bytes());
    let [a, b, c, d, e, f, g, h, ..] = Sha256::digest(&message[..place]);
    u64::from_be_bytes([a, b, c, d, e, f, g, h])
}

/// Writes an address's bytes into a message at a place, and returns the place behind them.
// Each kind has a copy of its own, of a length that is known.
#[inline(always)]
fn put_address(message: &mut [u8], place: usize, address: &Ip) -> usize
    requires { place + 16 ≤ length message.old }
    ensures within { result ≤ place + 16 }
    ensures written { take result message.new ≡ take place message.old ++ ip_bytes address.now }
    ensures len { length message.new ≡ length message.old }
{
    match address {
        Ip::V4(bytes) => put(message, place, bytes),
        Ip::V6(bytes) => put(message, place, bytes),
    }
}

/// Writes bytes into a message at a place, and returns the place behind them.
// Merged into its callers, where the length is known: then a copy takes no call.
#[inline(always)]
fn put(message: &mut [u8], place: usize, bytes: &[u8]) -> usize
    requires { place + length bytes.now ≤ length message.old }
    ensures behind { result ≡ place + length bytes.now }
    ensures written { take result message.new ≡ take place message.old ++ bytes.now }
    ensures len { length message.new ≡ length message.old }
{
    let behind = place + bytes.len();
    message[place..behind].copy_from_slice(bytes);
    behind
}
