//! The header of IPv6 (RFC 8200, section 3), with its extension headers.

ghost use Rattle.std.specs.Prelude.{◌≡◌, ◌+◌, ◌^◌, ◌<◌, ◌≤◌, length, IfNone};
ghost use Rattle.header_core.specs.Ipv6Headers.{FollowsChain, Ipv6Says, SaysByKind, SaysPacket, dport_or_label, fixed_fault, flow_label, ipv6_fields, ipv6_length, length_fault, sport_or_label, tail_by, tail_of, traffic_class, unread_tail};
ghost use Rattle.header_core.specs.Jumbograms.{is_jumbogram};

use crate::chain::{Kind, Place, end_of_chain, kind_at};
use crate::fields::{be16_at, ecn_in, ipv6_at};
use crate::header::{Fragment, Header, InPlaceOfPorts, Ports, Verdict, without_fields};
use crate::jumbo::jumbo_verdict;
use crate::ports::{PortPair, ports_at, without_ports};
use packet_core::FiveTuple;

/// What the header at which a chain ends says.
#[derive(Clone, Copy)]
pub(crate) struct Tail {
    pub verdict: Verdict,
    pub proto: u8,
    pub transport: usize,
    pub fragment: Fragment,
    pub ports: PortPair,
}

/// What a packet of IPv6 says, of which the link delivered `wire` bytes.
pub(crate) fn ipv6_header(bytes: &[u8], wire: usize, instead: InPlaceOfPorts) -> Header
    ensures { Ipv6Says bytes.now wire instead result }
{
    match fixed_fault(bytes, wire) {
        Some(broken) => without_fields(broken),
        None => behind_fixed(bytes, wire, instead),
    }
}

/// The first rule that the fixed header breaks, if it breaks one.
fn fixed_fault(bytes: &[u8], wire: usize) -> Option<Verdict>
    ensures first { result ≡ fixed_fault bytes.now wire }
    ensures room { IfNone result (40 ≤ length bytes.now) }
{
    if wire < 40 {
        Some(Verdict::Short)
    } else if bytes.len() < 40 {
        Some(Verdict::Cut)
    } else {
        None
    }
}

/// What a packet says whose fixed header is whole.
fn behind_fixed(bytes: &[u8], wire: usize, instead: InPlaceOfPorts) -> Header
    requires { 40 ≤ length bytes.now }
    ensures { SaysByKind (is_jumbogram bytes.now) bytes.now wire instead result }
{
    if is_jumbogram(bytes) {
        without_fields(jumbo_verdict(bytes, wire))
    } else {
        sized_packet(bytes, wire, instead)
    }
}

/// Whether the length is left to a hop-by-hop option.
fn is_jumbogram(bytes: &[u8]) -> bool
    requires { 40 ≤ length bytes.now }
    ensures { result ≡ is_jumbogram bytes.now }
{
    be16_at(bytes, 4) == 0 && bytes[6] == 0
}

/// What a packet says whose length stands in its fixed header.
fn sized_packet(bytes: &[u8], wire: usize, instead: InPlaceOfPorts) -> Header
    requires { 40 ≤ length bytes.now }
    ensures { SaysPacket bytes.now wire instead result }
{
    match length_fault(bytes, wire) {
        Some(broken) => without_fields(broken),
        None => fitting_packet(bytes, instead),
    }
}

/// How long the packet is, in bytes.
fn ipv6_length(bytes: &[u8]) -> usize
    requires { 40 ≤ length bytes.now }
    ensures { result ≡ ipv6_length bytes.now }
{
    40 + usize::from(be16_at(bytes, 4))
}

/// The rule on its length that a packet breaks, if it breaks one.
fn length_fault(bytes: &[u8], wire: usize) -> Option<Verdict>
    requires { 40 ≤ length bytes.now }
    ensures first { result ≡ length_fault bytes.now wire }
    ensures short { IfNone result (ipv6_length bytes.now ≤ 65535) }
{
    let len = ipv6_length(bytes);
    if wire < len {
        Some(Verdict::Overrun)
    } else if len > 65_535 {
        Some(Verdict::TooLong)
    } else {
        None
    }
}

/// What a packet says whose length is right.
fn fitting_packet(bytes: &[u8], instead: InPlaceOfPorts) -> Header
    requires fixed { 40 ≤ length bytes.now }
    requires short { ipv6_length bytes.now ≤ 65535 }
    ensures { FollowsChain bytes.now instead result }
{
    let end = end_of_chain(bytes, ipv6_length(bytes));
    ipv6_fields(bytes, instead, tail_of(bytes, instead, end))
}

/// What the header at which the chain ends says.
#[tactic(auto, unfolding(crate::specs::Ipv6Headers::tail_of))]
fn tail_of(bytes: &[u8], instead: InPlaceOfPorts, end: Place) -> Tail
    requires fixed { 40 ≤ length bytes.now }
    requires short { ipv6_length bytes.now ≤ 65535 }
    requires within { end.at ≤ ipv6_length bytes.now }
    ensures { result ≡ tail_of bytes.now instead end }
{
    let len = ipv6_length(bytes);
    match kind_at(bytes, len, end) {
        Kind::Upper => upper_tail(bytes, instead, end, len),
        Kind::Part => part_tail(bytes, end),
        Kind::Cut => unread_tail(Verdict::Cut, end),
        Kind::Beyond | Kind::Extension => unread_tail(Verdict::BadChain, end),
    }
}

/// The end at a header that is no extension header.
fn upper_tail(bytes: &[u8], instead: InPlaceOfPorts, end: Place, len: usize) -> Tail
    requires short { len ≤ 65535 }
    requires within { end.at ≤ len }
    requires length { len ≡ ipv6_length bytes.now }
    ensures { result ≡ tail_by bytes.now instead end Kind.Upper }
{
    Tail {
        verdict: Verdict::Fine,
        proto: end.proto,
        transport: end.at,
        fragment: if end.atomic {
            Fragment::Atomic
        } else {
            Fragment::Whole
        },
        ports: ports_at(bytes, end.proto, end.at, len, instead),
    }
}

/// The end at the fragment header of one of several fragments.
fn part_tail(bytes: &[u8], end: Place) -> Tail
    requires short { end.at ≤ 65535 }
    requires room { end.at + 8 ≤ length bytes.now }
    ensures { (instead : InPlaceOfPorts) → result ≡ tail_by bytes.now instead end Kind.Part }
{
    Tail {
        verdict: Verdict::Fine,
        proto: bytes[end.at],
        transport: end.at + 8,
        fragment: if be16_at(bytes, end.at + 2) / 8 == 0 {
            Fragment::First
        } else {
            Fragment::Later
        },
        ports: without_ports(Ports::Fragment),
    }
}

/// The end at an extension header that is bad or cut.
fn unread_tail(verdict: Verdict, end: Place) -> Tail
    ensures { result ≡ unread_tail verdict end }
{
    Tail {
        verdict,
        proto: end.proto,
        transport: end.at,
        fragment: Fragment::Whole,
        ports: without_ports(Ports::Absent),
    }
}

/// The fields of a packet, with what the end of its chain says.
#[tactic(auto, unfolding(crate::specs::Ipv6Headers::ipv6_fields))]
fn ipv6_fields(bytes: &[u8], instead: InPlaceOfPorts, tail: Tail) -> Header
    requires fixed { 40 ≤ length bytes.now }
    requires short { ipv6_length bytes.now ≤ 65535 }
    ensures { result ≡ ipv6_fields bytes.now instead tail }
{
    let traffic_class = traffic_class(bytes);
    let flow_label = flow_label(bytes);
    Header {
        verdict: tail.verdict,
        version: 6,
        tuple: FiveTuple {
            proto: tail.proto,
            src: ipv6_at(bytes, 8),
            dst: ipv6_at(bytes, 24),
            sport: sport_or_label(flow_label, instead, tail.ports),
            dport: dport_or_label(flow_label, instead, tail.ports),
        },
        ecn: ecn_in(traffic_class % 4),
        dscp: traffic_class / 4,
        len: ipv6_length(bytes) as u16,
        transport: tail.transport,
        fragment: tail.fragment,
        ports: tail.ports.kind,
        flow_label,
    }
}

/// The traffic class.
fn traffic_class(bytes: &[u8]) -> u8
    requires { 40 ≤ length bytes.now }
    ensures { result ≡ traffic_class bytes.now }
{
    (be16_at(bytes, 0) / 16 % 256) as u8
}

/// The flow label.
fn flow_label(bytes: &[u8]) -> u32
    requires { 40 ≤ length bytes.now }
    ensures value { result ≡ flow_label bytes.now }
    ensures bits { result < 2 ^ 20 }
{
    u32::from(bytes[1] % 16) * 65_536 + u32::from(be16_at(bytes, 2))
}

/// The source port, or the high four bits of a flow label in its place.
fn sport_or_label(label: u32, instead: InPlaceOfPorts, pair: PortPair) -> u16
    requires { label < 2 ^ 20 }
    ensures { result ≡ sport_or_label label instead pair }
{
    if instead.flow_label && label != 0 {
        (label / 65_536) as u16
    } else {
        pair.sport
    }
}

/// The destination port, or the low sixteen bits of a flow label in its place.
fn dport_or_label(label: u32, instead: InPlaceOfPorts, pair: PortPair) -> u16
    ensures { result ≡ dport_or_label label instead pair }
{
    if instead.flow_label && label != 0 {
        (label % 65_536) as u16
    } else {
        pair.dport
    }
}
