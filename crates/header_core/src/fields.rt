//! Fields by their offsets.

ghost use Rattle.std.specs.Prelude.{◌≡◌, ◌+◌, ◌≤◌, ◌<◌, take, drop, length};
ghost use Rattle.packet_core.specs.PackedPackets.{ecn_in};
ghost use Rattle.header_core.specs.Fields.{be16_at, be32_at};

use packet_core::{Ecn, Ip};

/// The sixteen bits that begin at a byte.
pub(crate) fn be16_at(bytes: &[u8], at: usize) -> u16
    requires { at + 2 ≤ length bytes.now }
    ensures { result ≡ be16_at bytes.now at }
{
    u16::from(bytes[at]) * 256 + u16::from(bytes[at + 1])
}

/// The thirty-two bits that begin at a byte.
pub(crate) fn be32_at(bytes: &[u8], at: usize) -> u32
    requires { at + 4 ≤ length bytes.now }
    ensures { result ≡ be32_at bytes.now at }
{
    u32::from(be16_at(bytes, at)) * 65_536 + u32::from(be16_at(bytes, at + 2))
}

/// The address of IPv4 that begins at a byte.
pub(crate) fn ipv4_at(bytes: &[u8], at: usize) -> Ip
    requires { at + 4 ≤ length bytes.now }
    ensures { result ≡ Ip.V4 (take 4 (drop at bytes.now)) }
{
    let mut octets = [0; 4];
    octets.copy_from_slice(&bytes[at..at + 4]);
    Ip::V4(octets)
}

/// The address of IPv6 that begins at a byte.
pub(crate) fn ipv6_at(bytes: &[u8], at: usize) -> Ip
    requires { at + 16 ≤ length bytes.now }
    ensures { result ≡ Ip.V6 (take 16 (drop at bytes.now)) }
{
    let mut octets = [0; 16];
    octets.copy_from_slice(&bytes[at..at + 16]);
    Ip::V6(octets)
}

/// The ECN field that two bits are (RFC 3168, section 5).
pub(crate) fn ecn_in(code: u8) -> Ecn
    ensures { result ≡ ecn_in code }
{
    match code {
        0 => Ecn::NotEct,
        1 => Ecn::Ect1,
        2 => Ecn::Ect0,
        _ => Ecn::Ce,
    }
}
