//! The packet in what a link delivered, for each type of link.

ghost use Rattle.std.specs.Prelude.{◌≡◌, ℕ, ◌+◌, ◌≤◌, List, length};
ghost use Rattle.header_core.specs.Fields.{be32_at};
ghost use Rattle.header_core.specs.LinkTypes.{BeginsWithin, Carries, CarriesCookedTwo, CarriesFrom, carried_as, carried_of_family, family_of_null, is_ip, le32_at_start, link_kind, payload_at};
ghost use Rattle.header_core.specs.declared.link_types.LinkKind.TheVariants as kind;

use crate::fields::{be16_at, be32_at};
use crate::link::{Payload, is_tag, link_payload};

/// What a link delivered.
#[derive(Clone, Copy, Debug, PartialEq, Eq)]
pub enum Carried {
    /// A packet of IP. Its ethertype is 0x0800 or 0x86DD, and 0 where the link has none: the packet's version says which.
    Packet(Payload),
    /// Something else. Its ethertype is 0 where the link has none.
    Another(Payload),
    /// The captured bytes end inside the link's header.
    Cut,
    /// No link that is known here has that number.
    Unknown,
}

/// The layout of the bytes before a packet.
#[derive(Clone, Copy)]
pub(crate) enum LinkKind {
    /// A frame of Ethernet.
    Ethernet,
    /// A packet of either version, and nothing before it.
    Raw,
    /// A packet of IPv4, and nothing before it.
    Ipv4,
    /// A packet of IPv6, and nothing before it.
    Ipv6,
    /// Linux's cooked header of 16 bytes.
    Cooked,
    /// Linux's cooked header of 20 bytes.
    CookedTwo,
    /// The address family, in the byte order of the machine that captured.
    Null,
    /// The address family, in the byte order of the network.
    Loop,
    /// None that is known here.
    Unknown,
}

/// The packet in what a link delivered, by the number that captures have for its type: 1 for Ethernet, 101, 12 and 14
/// for raw IP, 228 and 229 for raw IPv4 and IPv6, 113 and 276 for Linux's cooked headers, 0 and 108 for BSD's loopback.
/// VLAN tags are skipped (IEEE 802.1Q).
pub fn find_packet(bytes: &[u8], link_type: u32) -> Carried
    ensures carries { Carries bytes.now link_type result }
    ensures within { BeginsWithin bytes.now result }
{
    match link_kind(link_type) {
        LinkKind::Ethernet => carried_from(bytes, 0, 0),
        LinkKind::Raw => Carried::Packet(payload_at(0, 0)),
        LinkKind::Ipv4 => Carried::Packet(payload_at(0, 0x0800)),
        LinkKind::Ipv6 => Carried::Packet(payload_at(0, 0x86DD)),
        LinkKind::Cooked => carried_from(bytes, 2, 0),
        LinkKind::CookedTwo => carried_by_cooked_two(bytes),
        LinkKind::Null if bytes.len() >= 4 => carried_of_family(family_of_null(bytes)),
        LinkKind::Loop if bytes.len() >= 4 => carried_of_family(be32_at(bytes, 0)),
        LinkKind::Null | LinkKind::Loop => Carried::Cut,
        LinkKind::Unknown => Carried::Unknown,
    }
}

/// The kind of link that a number names.
fn link_kind(link_type: u32) -> LinkKind
    ensures { result ≡ link_kind link_type }
{
    match link_type {
        1 => LinkKind::Ethernet,
        101 | 12 | 14 => LinkKind::Raw,
        228 => LinkKind::Ipv4,
        229 => LinkKind::Ipv6,
        113 => LinkKind::Cooked,
        276 => LinkKind::CookedTwo,
        0 => LinkKind::Null,
        108 => LinkKind::Loop,
        _ => LinkKind::Unknown,
    }
}

/// What begins at a byte, behind no tag.
fn payload_at(offset: usize, ethertype: u16) -> Payload
    ensures { result ≡ payload_at offset ethertype }
{
    Payload {
        ethertype,
        offset,
        tags: 0,
    }
}

/// Whether an ethertype is that of IPv4 or of IPv6.
fn is_ip(ethertype: u16) -> bool
    ensures { result ≡ is_ip ethertype }
{
    matches!(ethertype, 0x0800 | 0x86DD)
}

/// What is carried, by its ethertype.
fn carried_as(payload: Payload) -> Carried
    ensures value { result ≡ carried_as payload }
    ensures within { (bytes : List ℕ) → payload.offset ≤ length bytes → BeginsWithin bytes result }
{
    if is_ip(payload.ethertype) {
        Carried::Packet(payload)
    } else {
        Carried::Another(payload)
    }
}

/// What a frame carries that is laid out as one of Ethernet from a byte on, with so many tags before that byte.
fn carried_from(bytes: &[u8], from: usize, outer: usize) -> Carried
    requires header { from ≤ 10 }
    requires tag { outer ≤ 1 }
    ensures carries { CarriesFrom bytes.now from outer result }
    ensures within { BeginsWithin bytes.now result }
{
    if bytes.len() < from {
        return Carried::Cut;
    }
    match link_payload(&bytes[from..]) {
        Some(payload) => carried_as(Payload {
            ethertype: payload.ethertype,
            offset: from + payload.offset,
            tags: outer + payload.tags,
        }),
        None => Carried::Cut,
    }
}

/// What stands behind Linux's cooked header of 20 bytes.
fn carried_by_cooked_two(bytes: &[u8]) -> Carried
    ensures carries { CarriesCookedTwo bytes.now result }
    ensures within { BeginsWithin bytes.now result }
{
    if bytes.len() < 20 {
        return Carried::Cut;
    }
    let ethertype = be16_at(bytes, 0);
    if is_tag(ethertype) {
        carried_from(bytes, 10, 1)
    } else {
        carried_as(payload_at(20, ethertype))
    }
}

/// The address family that four bytes in either order are.
fn family_of_null(bytes: &[u8]) -> u32
    requires { 4 ≤ length bytes.now }
    ensures { result ≡ family_of_null bytes.now }
{
    let family = be32_at(bytes, 0);
    if family < 65_536 {
        family
    } else {
        le32_at_start(bytes)
    }
}

/// The four bytes at the beginning, the low one first.
fn le32_at_start(bytes: &[u8]) -> u32
    requires { 4 ≤ length bytes.now }
    ensures { result ≡ le32_at_start bytes.now }
{
    u32::from(bytes[0])
        + u32::from(bytes[1]) * 256
        + (u32::from(bytes[2]) + u32::from(bytes[3]) * 256) * 65_536
}

/// What stands behind an address family.
fn carried_of_family(family: u32) -> Carried
    ensures value { result ≡ carried_of_family family }
    ensures within { (bytes : List ℕ) → 4 ≤ length bytes → BeginsWithin bytes result }
{
    match family {
        2 => Carried::Packet(payload_at(4, 0x0800)),
        10 | 24 | 28 | 30 => Carried::Packet(payload_at(4, 0x86DD)),
        _ => Carried::Another(payload_at(4, 0)),
    }
}
