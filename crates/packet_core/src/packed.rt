//! The fields of a packet in whole words.

ghost use Rattle.std.specs.Prelude.{◌≡◌, ◌+◌, ◌*◌, ◌%◌, ◌^◌, ◌<◌, ◌≤◌, ◌++◌, drop};
ghost use Rattle.std.specs.Int.{w32, w64, from_le_bytes, to_le_bytes};
ghost use Rattle.packet_core.specs.Packets.{is_ipv6};
ghost use Rattle.packet_core.specs.PackedPackets.{address_in, address_words, ecn_code, ecn_in, fields_word, kind_bit, parts_of, SaysFields};

use crate::packet::{Ecn, FiveTuple, Ip};

/// The bytes of an address in two words, the first one lowest. Above the four of IPv4 stand zeros.
pub(crate) fn address_words(address: &Ip) -> (u64, u64)
    ensures words { result ≡ address_words address.now }
    ensures back { address_in (is_ipv6 address.now) result ≡ address.now }
{
    match address {
        Ip::V4(octets) => (ipv4_word(*octets), 0),
        Ip::V6(octets) => ipv6_words(*octets),
    }
}

/// The four bytes of IPv4 in a word.
fn ipv4_word(octets: [u8; 4]) -> u64
    ensures word { result ≡ from_le_bytes w32 octets }
    ensures back { to_le_bytes w32 result ≡ octets }
{
    u64::from(u32::from_le_bytes(octets))
}

/// The sixteen bytes of IPv6 in two words.
fn ipv6_words(octets: [u8; 16]) -> (u64, u64)
    ensures words { result ≡ (from_le_bytes w64 octets, from_le_bytes w64 (drop 8 octets)) }
    ensures back { to_le_bytes w64 result.0 ++ to_le_bytes w64 result.1 ≡ octets }
{
    let [a, b, c, d, e, f, g, h, i, j, k, l, m, n, o, p] = octets;
    let front = word_of([a, b, c, d, e, f, g, h]);
    let back = word_of([i, j, k, l, m, n, o, p]);
    (front, back)
}

/// Eight bytes in a word.
fn word_of(octets: [u8; 8]) -> u64
    ensures word { result ≡ from_le_bytes w64 octets }
    ensures back { to_le_bytes w64 result ≡ octets }
{
    u64::from_le_bytes(octets)
}

/// The address of that kind in two words.
fn address_in(is_ipv6: bool, words: (u64, u64)) -> Ip
    ensures { result ≡ address_in is_ipv6 words }
{
    let [a, b, c, d, e, f, g, h] = words.0.to_le_bytes();
    if !is_ipv6 {
        return Ip::V4([a, b, c, d]);
    }
    let [i, j, k, l, m, n, o, p] = words.1.to_le_bytes();
    Ip::V6([a, b, c, d, e, f, g, h, i, j, k, l, m, n, o, p])
}

/// The five-tuple that a packet's words say.
#[tactic(auto, unfolding(crate::specs::PackedPackets::parts_of))]
pub(crate) fn tuple_in(src: (u64, u64), dst: (u64, u64), fields: u64) -> FiveTuple
    ensures { result ≡ (parts_of (record { src = src; dst = dst; fields = fields; tag = 0 })).tuple }
{
    FiveTuple {
        proto: (low_sixteen(fields >> 48) % 256) as u8,
        src: address_in((fields >> 58) % 2 == 1, src),
        dst: address_in((fields >> 59) % 2 == 1, dst),
        dport: low_sixteen(fields),
        sport: low_sixteen(fields >> 32),
    }
}

/// All fields but the addresses and the tag, in a word.
pub(crate) fn fields_word(tuple: &FiveTuple, len: u16, ecn: Ecn) -> u64
    ensures word { result ≡ fields_word (record { tuple = tuple.now; len = len; ecn = ecn; tag = 0 }) }
    ensures back { SaysFields result (record { tuple = tuple.now; len = len; ecn = ecn; tag = 0 }) }
{
    let kinds = kind_bit(&tuple.dst) * 2 + kind_bit(&tuple.src);
    let marks = kinds * 4 + ecn_code(ecn);
    let top = marks * 256 + u64::from(tuple.proto);
    joined(joined(joined(top, tuple.sport), len), tuple.dport)
}

/// A bit for the kind of an address: 1 for IPv6.
fn kind_bit(address: &Ip) -> u64
    ensures bit { result ≡ kind_bit address.now }
    ensures few { result ≤ 1 }
{
    match address {
        Ip::V4(_) => 0,
        Ip::V6(_) => 1,
    }
}

/// The two bits of an ECN field as a number (RFC 3168, section 5).
fn ecn_code(ecn: Ecn) -> u64
    ensures code { result ≡ ecn_code ecn }
    ensures few { result < 4 }
{
    match ecn {
        Ecn::NotEct => 0,
        Ecn::Ect1 => 1,
        Ecn::Ect0 => 2,
        Ecn::Ce => 3,
    }
}

/// The ECN field that two bits are.
pub(crate) fn ecn_in(code: u64) -> Ecn
    ensures { result ≡ ecn_in code }
{
    match code {
        0 => Ecn::NotEct,
        1 => Ecn::Ect1,
        2 => Ecn::Ect0,
        _ => Ecn::Ce,
    }
}

/// A number, and sixteen bits below it.
fn joined(high: u64, low: u16) -> u64
    requires { high < 2 ^ 48 }
    ensures { result ≡ high * 2 ^ 16 + low }
{
    high << 16 | u64::from(low)
}

/// The low sixteen bits of a word.
pub(crate) fn low_sixteen(word: u64) -> u16
    ensures { result ≡ word % 2 ^ 16 }
{
    (word % (1 << 16)) as u16
}
