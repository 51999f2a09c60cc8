//! Packets, their five-tuples and their ECN fields.

ghost use Rattle.std.specs.Prelude.{◌≡◌, ◌≤◌, ◌↔◌, IsOk, IsTrue, IfOk};
ghost use Rattle.packet_core.specs.Packets.{IsLengthInRange};

use crate::packed::{address_words, ecn_in, fields_word, low_sixteen, tuple_in};
use crate::tuple_words::TupleWords;
use std::fmt::{self, Debug, Formatter, Write};
use std::marker::Model;
use thiserror::Error;

/// The longest packet, in bytes: what the length field of an IPv4 header can say (RFC 791, section 3.1).
pub const MAX_LENGTH: u32 = 65_535;

/// An address of the Internet protocol.
#[derive(Clone, Copy, Debug, PartialEq, Eq, Hash)]
pub enum Ip {
    /// The four bytes of an IPv4 address, the first one first.
    V4([u8; 4]),
    /// The sixteen bytes of an IPv6 address (RFC 4291, section 2), the first one first.
    V6([u8; 16]),
}

impl Ip {
    ghost use Rattle.packet_core.specs.Packets.{ip_bytes, is_ipv6};

    /// The address's bytes, the first one first: four of IPv4, sixteen of IPv6.
    pub fn octets(&self) -> &[u8]
        ensures { result.now ≡ ip_bytes self.now }
    {
        match self {
            Ip::V4(octets) => octets,
            Ip::V6(octets) => octets,
        }
    }

    /// Whether it is an address of IPv6.
    pub fn is_ipv6(&self) -> bool
        ensures { result ≡ is_ipv6 self.now }
    {
        match self {
            Ip::V4(_) => false,
            Ip::V6(_) => true,
        }
    }
}

/// What tells the packets of one conversation from those of another (RFC 8290, section 4.1).
#[derive(Clone, Copy, Debug, PartialEq, Eq)]
pub struct FiveTuple {
    /// The protocol's number, as 6 for TCP and 17 for UDP.
    pub proto: u8,
    /// The source address.
    pub src: Ip,
    /// The destination address.
    pub dst: Ip,
    /// The source port, 0 where the protocol has no ports.
    pub sport: u16,
    /// The destination port, 0 where the protocol has no ports.
    pub dport: u16,
}

/// The two bits of explicit congestion notification (RFC 3168, section 5).
#[derive(Clone, Copy, Debug, PartialEq, Eq, Hash)]
pub enum Ecn {
    /// 00: the sender doesn't take part.
    NotEct,
    /// 01: the sender takes part.
    Ect1,
    /// 10: the sender takes part.
    Ect0,
    /// 11: congestion was met on the way.
    Ce,
}

/// A packet: its five-tuple, its length of 1 to 65,535 bytes, its ECN field, and a tag of the caller's own.
// It stands in whole words. A packet is copied on its way, and a copy of small fields is made in pieces: a later read
// that lies across two of them waits for both.
#[derive(Clone, Copy, PartialEq, Eq, Hash)]
pub struct Packet {
    src: (u64, u64),
    dst: (u64, u64),
    fields: u64,
    tag: u64,
}

impl Model for Packet {
    ghost use Rattle.packet_core.specs.Packets.{PacketParts};

    ghost Value = { PacketParts };

    ghost use Rattle.packet_core.specs.PackedPackets.{IsPacked, packed, parts_of};

    ghost view = { parts_of };

    ghost invariant = { IsPacked };

    ghost inverse = { packed };

    ghost inverse_ok = { λ words is_packed. is_packed.whole };
}

/// A length of 0 or of more than 65,535 bytes, which no packet has.
#[derive(Clone, Copy, Debug, PartialEq, Eq, Hash, Error)]
#[error("a packet has 1 to 65,535 bytes")]
pub struct LengthOutOfRange;

impl Packet {
    /// A packet of `len` bytes, with tag 0. It refuses a length outside 1 to 65,535.
    pub fn try_new(tuple: FiveTuple, len: u32, ecn: Ecn) -> Result<Packet, LengthOutOfRange>
        ensures range { IsOk result ↔ IsLengthInRange len }
        ensures parts { IfOk result (λ p. p ≡ record { tuple = tuple; len = len; ecn = ecn; tag = 0 }) }
    {
        match u16::try_from(len) {
            Ok(len) if len > 0 => Ok(Packet {
                src: address_words(&tuple.src),
                dst: address_words(&tuple.dst),
                fields: fields_word(&tuple, len, ecn),
                tag: 0,
            }),
            _ => Err(LengthOutOfRange),
        }
    }

    /// The same packet with that tag: what the caller knows it by, as the address of a buffer. It comes back with the
    /// packet, and no rule of the scheduler looks at it.
    pub fn with_tag(self, tag: u64) -> Packet
        ensures { result ≡ record self { tag = tag } }
    {
        Packet {
            src: self.src,
            dst: self.dst,
            fields: self.fields,
            tag,
        }
    }

    /// The five-tuple.
    #[tactic(auto, unfolding(crate::specs::PackedPackets::parts_of))]
    pub fn tuple(&self) -> FiveTuple
        ensures { result ≡ self.now.tuple }
    {
        tuple_in(self.src, self.dst, self.fields)
    }

    /// The five-tuple in whole words, which takes fewer steps than `tuple`.
    #[inline(always)]
    pub fn tuple_words(&self) -> TupleWords
        ensures { result ≡ self.now.tuple }
    {
        TupleWords::of_packet(self.src, self.dst, self.fields)
    }

    /// The five-tuple's destination port.
    #[tactic(auto, unfolding(crate::specs::PackedPackets::parts_of))]
    pub fn dport(&self) -> u16
        ensures { result ≡ self.now.tuple.dport }
    {
        low_sixteen(self.fields)
    }

    /// The length in bytes, from 1 to 65,535.
    #[tactic(auto, unfolding(crate::specs::PackedPackets::parts_of))]
    pub fn len(&self) -> u32
        ensures value { result ≡ self.now.len }
        ensures range { IsLengthInRange result }
    {
        u32::from(low_sixteen(self.fields >> 16))
    }

    /// The ECN field.
    #[tactic(auto, unfolding(crate::specs::PackedPackets::parts_of))]
    pub fn ecn(&self) -> Ecn
        ensures { result ≡ self.now.ecn }
    {
        ecn_in((self.fields >> 56) % 4)
    }

    /// The tag: 0, or what `with_tag` set.
    #[tactic(auto, unfolding(crate::specs::PackedPackets::parts_of))]
    pub fn tag(&self) -> u64
        ensures { result ≡ self.now.tag }
    {
        self.tag
    }

    /// The same packet with its ECN field at CE, as a queue marks it in place of dropping it, or since it waited past a
    /// threshold (RFC 3168, section 5).
    pub fn marked(&self) -> Packet
        ensures { result ≡ record self.now { ecn = Ecn.Ce } }
    {
        Packet {
            src: self.src,
            dst: self.dst,
            fields: self.fields | 3 << 56,
            tag: self.tag,
        }
    }

    /// Whether the two are one packet, the tag included.
    pub fn is_same(&self, other: &Packet) -> bool
        ensures { IsTrue result ↔ (self.now ≡ other.now) }
    {
        self.src == other.src
            && self.dst == other.dst
            && self.fields == other.fields
            && self.tag == other.tag
    }
}

/// It shows the parts, and not the words.
impl Debug for Packet {
    fn fmt<W: Write>(&self, f: &mut Formatter<W>) -> fmt::Result {
        f.debug_struct("Packet")
            .field("tuple", &self.tuple())
            .field("len", &self.len())
            .field("ecn", &self.ecn())
            .field("tag", &self.tag)
            .finish()
    }
}

/// A packet that was accepted and waits.
#[derive(Clone, Copy, Debug, PartialEq, Eq, Hash)]
pub struct Waiting {
    /// The place in the order of acceptance, from 0.
    pub id: u64,
    /// The moment of acceptance, in microseconds.
    pub stamp: u64,
    /// The packet as it was accepted.
    pub packet: Packet,
}
