//! What a dissected packet says.

ghost use Rattle.std.specs.Prelude.{◌≡◌};
ghost use Rattle.header_core.specs.Headers.{without_fields};

use packet_core::{Ecn, FiveTuple, Ip};

/// What a packet's bytes are found to be: the first rule that they break, in the order of the rules.
#[derive(Clone, Copy, Debug, PartialEq, Eq)]
pub enum Verdict {
    /// They break none.
    Fine,
    /// The link delivered less than a header of fixed length: 20 bytes of IPv4, 40 of IPv6.
    Short,
    /// The version is neither 4 nor 6, or not the one of the link's ethertype.
    NotIp,
    /// The header length of IPv4 is below 5 words (RFC 791, section 3.1).
    BadIhl,
    /// The total length of IPv4 is below the header's.
    BadLength,
    /// The packet says that it is longer than what the link delivered.
    Overrun,
    /// An extension header of IPv6 passes the packet's end.
    BadChain,
    /// The packet is longer than 65,535 bytes.
    TooLong,
    /// The payload length of IPv6 is left to a hop-by-hop option that isn't there, or says less than 65,536
    /// (RFC 2675, section 3).
    BadJumbo,
    /// The captured bytes end inside a header that says where the next one begins.
    Cut,
}

/// Which part of a datagram a packet is (RFC 791, section 3.2; RFC 8200, section 4.5).
#[derive(Clone, Copy, Debug, PartialEq, Eq)]
pub enum Fragment {
    /// All of it.
    Whole,
    /// All of it, behind a fragment header (RFC 6946).
    Atomic,
    /// The first of several.
    First,
    /// Another than the first.
    Later,
}

/// Where a packet's ports are.
#[derive(Clone, Copy, Debug, PartialEq, Eq)]
pub enum Ports {
    /// The protocol has none, or isn't reached.
    Absent,
    /// They were read.
    Found,
    /// The packet ends before them.
    Beyond,
    /// The captured bytes end before them.
    Cut,
    /// The packet is a fragment, and only the first one of a datagram would have them.
    Fragment,
}

/// What takes the place of the ports in a five-tuple.
#[derive(Clone, Copy, Debug, PartialEq, Eq)]
pub struct InPlaceOfPorts {
    /// The security parameters index of ESP (RFC 4303, section 2.1), its high half as the source port.
    pub esp_spi: bool,
    /// A flow label of IPv6 that isn't 0 (RFC 6437), its high four bits as the source port.
    pub flow_label: bool,
}

/// What the headers of a packet say. Where the verdict is neither `Fine` nor `BadChain`, nor `Cut` behind the fixed
/// header, the version and all fields are 0.
#[derive(Clone, Copy, Debug, PartialEq, Eq)]
pub struct Header {
    /// What the bytes are found to be.
    pub verdict: Verdict,
    /// 4 or 6, and 0 where nothing more is known.
    pub version: u8,
    /// The five-tuple. Its protocol is the last that the headers name, or the number of a header that is bad or cut.
    pub tuple: FiveTuple,
    /// The ECN field (RFC 3168, section 5).
    pub ecn: Ecn,
    /// The differentiated services code point (RFC 2474, section 3).
    pub dscp: u8,
    /// The length in bytes that the packet says, its own header counted.
    pub len: u16,
    /// Where what follows the network's headers begins, in bytes from the first of the packet.
    pub transport: usize,
    /// Which part of a datagram it is.
    pub fragment: Fragment,
    /// Where the ports are. The five-tuple has zeros in their place unless they are found, or a flow label takes it.
    pub ports: Ports,
    /// The flow label of IPv6 (RFC 8200, section 6).
    pub flow_label: u32,
}

/// A packet of which no more is known than the verdict.
pub(crate) fn without_fields(verdict: Verdict) -> Header
    ensures { result ≡ without_fields verdict }
{
    let nowhere = Ip::V4([0, 0, 0, 0]);
    Header {
        verdict,
        version: 0,
        tuple: FiveTuple {
            proto: 0,
            src: nowhere,
            dst: nowhere,
            sport: 0,
            dport: 0,
        },
        ecn: Ecn::NotEct,
        dscp: 0,
        len: 0,
        transport: 0,
        fragment: Fragment::Whole,
        ports: Ports::Absent,
        flow_label: 0,
    }
}
