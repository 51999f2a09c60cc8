//! The header of IPv4 (RFC 791, section 3.1).

ghost use Rattle.std.specs.Prelude.{◌≡◌, ◌*◌, ◌≤◌, length, IfNone};
ghost use Rattle.header_core.specs.Ipv4Headers.{ihl, ipv4_fault, ipv4_fields, ipv4_fragment, ipv4_header, ipv4_ports};

use crate::fields::{be16_at, ecn_in, ipv4_at};
use crate::header::{Fragment, Header, InPlaceOfPorts, Ports, Verdict, without_fields};
use crate::ports::{PortPair, ports_at, without_ports};
use packet_core::FiveTuple;

/// What a packet of IPv4 says, of which the link delivered `wire` bytes.
#[tactic(auto, unfolding(crate::specs::Ipv4Headers::ipv4_header))]
pub(crate) fn ipv4_header(bytes: &[u8], wire: usize, instead: InPlaceOfPorts) -> Header
    ensures { result ≡ ipv4_header bytes.now wire instead }
{
    match ipv4_fault(bytes, wire) {
        Some(verdict) => without_fields(verdict),
        None => ipv4_fields(bytes, instead),
    }
}

/// The first rule that a packet of IPv4 breaks, if it breaks one.
#[tactic(auto, unfolding(crate::specs::Ipv4Headers::ipv4_fault))]
fn ipv4_fault(bytes: &[u8], wire: usize) -> Option<Verdict>
    ensures first { result ≡ ipv4_fault bytes.now wire }
    ensures room { IfNone result (20 ≤ length bytes.now) }
{
    if wire < 20 {
        return Some(Verdict::Short);
    }
    if bytes.len() < 20 {
        return Some(Verdict::Cut);
    }
    let header = header_length(bytes);
    let total = usize::from(be16_at(bytes, 2));
    if header < 20 {
        Some(Verdict::BadIhl)
    } else if total < header {
        Some(Verdict::BadLength)
    } else if wire < total {
        Some(Verdict::Overrun)
    } else {
        None
    }
}

/// How long the header is, in bytes.
fn header_length(bytes: &[u8]) -> usize
    requires { 20 ≤ length bytes.now }
    ensures { result ≡ 4 * ihl bytes.now }
{
    4 * usize::from(bytes[0] % 16)
}

/// The fields of a header that breaks no rule.
#[tactic(auto, unfolding(crate::specs::Ipv4Headers::ipv4_fields))]
fn ipv4_fields(bytes: &[u8], instead: InPlaceOfPorts) -> Header
    requires { 20 ≤ length bytes.now }
    ensures { result ≡ ipv4_fields bytes.now instead }
{
    let ports = ipv4_ports(bytes, instead);
    Header {
        verdict: Verdict::Fine,
        version: 4,
        tuple: FiveTuple {
            proto: bytes[9],
            src: ipv4_at(bytes, 12),
            dst: ipv4_at(bytes, 16),
            sport: ports.sport,
            dport: ports.dport,
        },
        ecn: ecn_in(bytes[1] % 4),
        dscp: bytes[1] / 4,
        len: be16_at(bytes, 2),
        transport: header_length(bytes),
        fragment: ipv4_fragment(bytes),
        ports: ports.kind,
        flow_label: 0,
    }
}

/// Which part of a datagram a packet is.
#[tactic(auto, unfolding(crate::specs::Ipv4Headers::ipv4_fragment))]
fn ipv4_fragment(bytes: &[u8]) -> Fragment
    requires { 20 ≤ length bytes.now }
    ensures { result ≡ ipv4_fragment bytes.now }
{
    let field = be16_at(bytes, 6);
    if field % 0x2000 != 0 {
        Fragment::Later
    } else if field / 0x2000 % 2 == 1 {
        Fragment::First
    } else {
        Fragment::Whole
    }
}

/// The ports, which a fragment doesn't show.
#[tactic(auto, unfolding(crate::specs::Ipv4Headers::ipv4_ports))]
fn ipv4_ports(bytes: &[u8], instead: InPlaceOfPorts) -> PortPair
    requires { 20 ≤ length bytes.now }
    ensures { result ≡ ipv4_ports bytes.now instead }
{
    match ipv4_fragment(bytes) {
        Fragment::Whole | Fragment::Atomic => {
            let len = usize::from(be16_at(bytes, 2));
            ports_at(bytes, bytes[9], header_length(bytes), len, instead)
        }
        Fragment::First | Fragment::Later => without_ports(Ports::Fragment),
    }
}
