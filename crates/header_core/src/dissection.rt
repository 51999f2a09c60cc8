//! What a captured packet says.

ghost use Rattle.std.specs.Prelude.{◌≡◌, ◌<◌, length};
ghost use Rattle.header_core.specs.Dissections.{SaysAs, Says, is_allowed, network_of, unseen_verdict};

use crate::header::{Header, InPlaceOfPorts, Verdict, without_fields};
use crate::ipv4::ipv4_header;
use crate::ipv6::ipv6_header;

/// What a packet is taken for.
#[derive(Clone, Copy)]
pub(crate) enum Network {
    /// A packet of IPv4.
    Ipv4,
    /// A packet of IPv6.
    Ipv6,
    /// Neither.
    Another,
    /// No byte of it was captured.
    Unseen,
}

/// What the headers of a packet say. `bytes` are those that were captured, from the header of IP on. The link delivered
/// `wire` bytes from there on, and has an ethertype or none. No byte behind the packet's own length is read.
pub fn dissect(bytes: &[u8], wire: usize, ethertype: Option<u16>, instead: InPlaceOfPorts) -> Header
    ensures { Says bytes.now wire ethertype instead result }
{
    match network_of(bytes, ethertype) {
        Network::Ipv4 => ipv4_header(bytes, wire, instead),
        Network::Ipv6 => ipv6_header(bytes, wire, instead),
        Network::Another => without_fields(Verdict::NotIp),
        Network::Unseen => without_fields(unseen_verdict(wire)),
    }
}

/// What a packet is taken for.
#[tactic(auto, unfolding(crate::specs::Dissections::network_of))]
fn network_of(bytes: &[u8], ethertype: Option<u16>) -> Network
    ensures { result ≡ network_of bytes.now ethertype }
{
    if bytes.is_empty() {
        return Network::Unseen;
    }
    let version = bytes[0] / 16;
    if version == 4 && is_allowed(0x0800, ethertype) {
        Network::Ipv4
    } else if version == 6 && is_allowed(0x86DD, ethertype) {
        Network::Ipv6
    } else {
        Network::Another
    }
}

/// Whether the link says this ethertype, or none.
fn is_allowed(number: u16, ethertype: Option<u16>) -> bool
    ensures { result ≡ is_allowed number ethertype }
{
    match ethertype {
        None => true,
        Some(ethertype) => ethertype == number,
    }
}

/// The verdict on a packet of which no byte was captured.
fn unseen_verdict(wire: usize) -> Verdict
    ensures { result ≡ unseen_verdict wire }
{
    if wire < 20 {
        Verdict::Short
    } else {
        Verdict::Cut
    }
}
