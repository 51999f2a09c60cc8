//! The records that C reads and writes. Each has the layout of its struct in `maltcove.h`.

ghost use Rattle.std.specs.Prelude.{◌≡◌, ◌≤◌, ℕ, IfSome, IsNone, List, length};
ghost use Rattle.header_core.specs.LinkTypes.{BeginsWithin};
ghost use Rattle.packet_core.specs.Packets.{PacketParts};
ghost use Rattle.maltcove_c.specs.Records.{Says, SaysInFlow, address_of_bytes, admitted_told, bytes_of_address, cause_code, dropped_told, ecn_bits, ecn_of_bits, fault_told, flow_told, flushed_told, found_told, fragment_code, idle_told, mark_code, not_text_told, nothing_told, packet_told, params_told, payload_told, ports_code, sent_told, totals_told, where_told, word_told};

use crate::places::{bytes_in_front, word_start};
use crate::status::verdict_code;
use header_core::{Carried, Fragment, Header, Payload, Ports};
use packet_core::{Classify, Ecn, EcnUse, FiveTuple, Ip, Packet, ParamFault, Params};
use queue_disc_core::{Dropped, Enqueued, Handle, QueueDiscTotals};
use sched_core::{Cause, FlowView, Mark, Sent};

/// A packet that comes.
#[repr(C)]
#[derive(Drop)]
pub struct MaltcovePacket {
    /// What the caller knows it by.
    pub(crate) tag: u64,
    /// Its length in bytes.
    pub(crate) len: u32,
    /// The source port.
    pub(crate) sport: u16,
    /// The destination port.
    pub(crate) dport: u16,
    /// The source address: of IPv4 the first four bytes.
    pub(crate) src: [u8; 16],
    /// The destination address: of IPv4 the first four bytes.
    pub(crate) dst: [u8; 16],
    /// The protocol's number.
    pub(crate) proto: u8,
    /// The ECN field, from 0 to 3.
    pub(crate) ecn: u8,
    /// The version of IP, 4 or 6.
    pub(crate) version: u8,
}

const _: () = prove!(size_of::<MaltcovePacket>() == 56);

/// What the headers of a packet say besides.
#[repr(C)]
#[derive(Drop)]
pub struct MaltcoveWhere {
    /// Where what follows the network's headers begins, in bytes from the first of the packet.
    pub(crate) transport: u64,
    /// The flow label of IPv6.
    pub(crate) flow_label: u32,
    /// What the bytes are found to be.
    pub(crate) verdict: i32,
    /// Which part of a datagram it is.
    pub(crate) fragment: u8,
    /// Where the ports are.
    pub(crate) ports: u8,
    /// The differentiated services code point.
    pub(crate) dscp: u8,
    /// The ECN field in the bytes, from 0 to 3.
    pub(crate) ecn: u8,
}

const _: () = prove!(size_of::<MaltcoveWhere>() == 24);

/// The packet in what a link delivered.
#[repr(C)]
#[derive(Drop)]
pub struct MaltcoveFound {
    /// Where it begins, in bytes from the first.
    pub(crate) offset: u64,
    /// How many VLAN tags stand before it.
    pub(crate) tags: u64,
    /// Its ethertype, and 0 where the link has none.
    pub(crate) ethertype: u16,
}

const _: () = prove!(size_of::<MaltcoveFound>() == 24);

/// What is said of a packet that was accepted.
#[repr(C)]
#[derive(Drop)]
pub struct MaltcoveAdmitted {
    /// Its place in the order of acceptance, from 0.
    pub(crate) id: u64,
    /// How many packets were dropped.
    pub(crate) drops: u64,
    /// The flow that it went to.
    pub(crate) flow: u32,
}

const _: () = prove!(size_of::<MaltcoveAdmitted>() == 24);

/// A packet that goes.
#[repr(C)]
#[derive(Drop)]
pub struct MaltcoveSent {
    /// Its tag.
    pub(crate) tag: u64,
    /// Its id.
    pub(crate) id: u64,
    /// How many packets were dropped before it.
    pub(crate) drops: u64,
    /// Its length in bytes.
    pub(crate) len: u32,
    /// Its ECN field as sent.
    pub(crate) ecn: u8,
    /// Whether it was marked, and by what.
    pub(crate) mark: u8,
}

const _: () = prove!(size_of::<MaltcoveSent>() == 32);

/// A packet that was dropped.
#[repr(C)]
#[derive(Drop)]
pub struct MaltcoveDropped {
    /// Its tag.
    pub(crate) tag: u64,
    /// Its id.
    pub(crate) id: u64,
    /// Why.
    pub(crate) cause: u8,
}

const _: () = prove!(size_of::<MaltcoveDropped>() == 24);

/// A packet that was flushed.
#[repr(C)]
#[derive(Drop)]
pub struct MaltcoveFlushed {
    /// Its tag.
    pub(crate) tag: u64,
    /// Its id.
    pub(crate) id: u64,
}

const _: () = prove!(size_of::<MaltcoveFlushed>() == 16);

/// What became of the packets.
#[repr(C)]
#[derive(Drop)]
pub struct MaltcoveTotals {
    pub(crate) accepted: u64,
    pub(crate) accepted_bytes: u64,
    pub(crate) sent: u64,
    pub(crate) sent_bytes: u64,
    pub(crate) dropped_codel: u64,
    pub(crate) dropped_overflow: u64,
    pub(crate) dropped_bytes: u64,
    pub(crate) flushed: u64,
    pub(crate) flushed_bytes: u64,
    pub(crate) marked: u64,
    pub(crate) threshold_marked: u64,
    pub(crate) queued: u64,
    pub(crate) queued_bytes: u64,
    pub(crate) closed: bool,
}

const _: () = prove!(size_of::<MaltcoveTotals>() == 112);

/// What is kept of a flow.
#[repr(C)]
#[derive(Drop)]
pub struct MaltcoveFlow {
    pub(crate) queued: u64,
    pub(crate) queued_bytes: u64,
    pub(crate) credits: i64,
    pub(crate) first_above: u64,
    pub(crate) drop_next: u64,
    pub(crate) count: u64,
    pub(crate) last_count: u64,
    pub(crate) has_first_above: bool,
    pub(crate) dropping: bool,
}

const _: () = prove!(size_of::<MaltcoveFlow>() == 64);

/// The parameters.
#[repr(C)]
#[derive(Drop)]
pub struct MaltcoveParams {
    pub(crate) target: u64,
    pub(crate) interval: u64,
    pub(crate) ce_threshold: u64,
    pub(crate) memory_limit: u64,
    pub(crate) limit: u32,
    pub(crate) flows: u32,
    pub(crate) quantum: u32,
    pub(crate) mtu: u32,
    pub(crate) drop_batch: u32,
    pub(crate) has_ce_threshold: bool,
    pub(crate) has_memory_limit: bool,
    pub(crate) ecn: bool,
    pub(crate) hash: bool,
}

const _: () = prove!(size_of::<MaltcoveParams>() == 56);

/// Which parameter word is wrong, and in what way.
#[repr(C)]
#[derive(Drop)]
pub struct MaltcoveFault {
    /// The place of the word, from 1, and 0 where none is named.
    pub(crate) place: u64,
    /// In what way it is wrong.
    pub(crate) kind: i32,
    /// Where the word begins in the text, in bytes.
    pub(crate) offset: u64,
    /// How many bytes it has.
    pub(crate) len: u64,
}

const _: () = prove!(size_of::<MaltcoveFault>() == 32);

/// No word is wrong.
pub(crate) const NO_FAULT: i32 = 0;

/// The word names no parameter.
pub(crate) const UNKNOWN_WORD: i32 = 1;

/// The parameter has no value after it.
pub(crate) const MISSING_VALUE: i32 = 2;

/// The value isn't written as a number or a time is.
pub(crate) const NOT_A_NUMBER: i32 = 3;

/// The value is out of its range.
pub(crate) const OUT_OF_RANGE: i32 = 4;

/// The text isn't UTF-8.
const NOT_TEXT: i32 = 5;

/// The ECN field of two bits.
pub(crate) fn ecn_of(bits: u8) -> Option<Ecn>
    ensures { result ≡ ecn_of_bits bits }
{
    match bits {
        0 => Some(Ecn::NotEct),
        1 => Some(Ecn::Ect1),
        2 => Some(Ecn::Ect0),
        3 => Some(Ecn::Ce),
        _ => None,
    }
}

/// The two bits of an ECN field.
pub(crate) fn bits_of(ecn: Ecn) -> u8
    ensures { result ≡ ecn_bits ecn }
{
    match ecn {
        Ecn::NotEct => 0,
        Ecn::Ect1 => 1,
        Ecn::Ect0 => 2,
        Ecn::Ce => 3,
    }
}

/// The address of IPv4 in the first four of these bytes.
fn address_of_ipv4(bytes: &[u8; 16]) -> Ip
    ensures { Some result ≡ address_of_bytes 4 bytes.now }
{
    Ip::V4([bytes[0], bytes[1], bytes[2], bytes[3]])
}

/// The sixteen bytes of an address: of IPv4 the first four, and the others are 0.
#[inline(always)]
fn bytes_of_address(ip: &Ip) -> [u8; 16]
    ensures { result ≡ bytes_of_address ip.now }
{
    match ip {
        Ip::V4(o) => [o[0], o[1], o[2], o[3], 0, 0, 0, 0, 0, 0, 0, 0, 0, 0, 0, 0],
        Ip::V6(octets) => *octets,
    }
}

/// The number of a part of a datagram.
#[inline(always)]
fn fragment_code(fragment: Fragment) -> u8
    ensures { result ≡ fragment_code fragment }
{
    match fragment {
        Fragment::Whole => 0,
        Fragment::Atomic => 1,
        Fragment::First => 2,
        Fragment::Later => 3,
    }
}

/// The number of a place of ports.
#[inline(always)]
fn ports_code(ports: Ports) -> u8
    ensures { result ≡ ports_code ports }
{
    match ports {
        Ports::Absent => 0,
        Ports::Found => 1,
        Ports::Beyond => 2,
        Ports::Cut => 3,
        Ports::Fragment => 4,
    }
}

/// The packet that a header says, for C: the tag stays the caller's.
#[inline(always)]
pub(crate) fn packet_from(header: &Header, tag: u64) -> MaltcovePacket
    ensures { result ≡ packet_told header.now tag }
{
    MaltcovePacket {
        tag,
        len: u32::from(header.len),
        sport: header.tuple.sport,
        dport: header.tuple.dport,
        src: bytes_of_address(&header.tuple.src),
        dst: bytes_of_address(&header.tuple.dst),
        proto: header.tuple.proto,
        ecn: bits_of(header.ecn),
        version: header.version,
    }
}

/// What a header says besides, for C.
#[inline(always)]
pub(crate) fn where_from(header: &Header) -> MaltcoveWhere
    ensures { result ≡ where_told header.now }
{
    MaltcoveWhere {
        transport: header.transport as u64,
        flow_label: header.flow_label,
        verdict: verdict_code(header.verdict),
        fragment: fragment_code(header.fragment),
        ports: ports_code(header.ports),
        dscp: header.dscp,
        ecn: bits_of(header.ecn),
    }
}

/// What stands behind a link's header, for C.
fn found_at(payload: &Payload) -> MaltcoveFound
    ensures { result ≡ payload_told payload.now }
{
    MaltcoveFound {
        offset: payload.offset as u64,
        tags: payload.tags as u64,
        ethertype: payload.ethertype,
    }
}

/// What a link delivered, for C.
pub(crate) fn found_from(carried: &Carried) -> MaltcoveFound
    ensures told { result ≡ found_told carried.now }
    ensures within { (bytes : List ℕ) → BeginsWithin bytes carried.now → result.offset ≤ length bytes }
{
    match carried {
        Carried::Packet(payload) => found_at(payload),
        Carried::Another(payload) => found_at(payload),
        Carried::Cut | Carried::Unknown => MaltcoveFound {
            offset: 0,
            tags: 0,
            ethertype: 0,
        },
    }
}

/// The packet that C describes, between two addresses, if its length and its ECN field are right.
#[inline(always)]
fn packet_between(p: &MaltcovePacket, src: Ip, dst: Ip) -> Option<Packet>
    requires src { address_of_bytes p.now.version p.now.src ≡ Some src }
    requires dst { address_of_bytes p.now.version p.now.dst ≡ Some dst }
    ensures said { IfSome result (Says p.now) }
    ensures none { IsNone result → (packet : PacketParts) → ¬ Says p.now packet }
{
    let tuple = FiveTuple {
        proto: p.proto,
        src,
        dst,
        sport: p.sport,
        dport: p.dport,
    };
    let packet = Packet::try_new(tuple, p.len, ecn_of(p.ecn)?).ok()?;
    Some(packet.with_tag(p.tag))
}

/// The packet that C describes, if there is such a one.
// Each version has its own way: a packet of which the version is known is packed in fewer steps.
#[inline(always)]
pub(crate) fn packet_of(p: &MaltcovePacket) -> Option<Packet>
    ensures said { IfSome result (Says p.now) }
    ensures none { IsNone result → (packet : PacketParts) → ¬ Says p.now packet }
{
    match p.version {
        4 => packet_between(p, address_of_ipv4(&p.src), address_of_ipv4(&p.dst)),
        6 => packet_between(p, Ip::V6(p.src), Ip::V6(p.dst)),
        _ => None,
    }
}

/// A packet whose destination port is the number of its flow, and which is 0 else.
pub(crate) fn packet_in_flow(flow: u16, len: u32, ecn: u8, tag: u64) -> Option<Packet>
    ensures said { IfSome result (SaysInFlow flow len ecn tag) }
    ensures none { IsNone result → (packet : PacketParts) → ¬ SaysInFlow flow len ecn tag packet }
{
    let tuple = FiveTuple {
        proto: 0,
        src: Ip::V4([0; 4]),
        dst: Ip::V4([0; 4]),
        sport: 0,
        dport: flow,
    };
    let packet = Packet::try_new(tuple, len, ecn_of(ecn)?).ok()?;
    Some(packet.with_tag(tag))
}

/// What C is told of a packet that was accepted.
pub(crate) fn admitted_of(enqueued: &Enqueued) -> MaltcoveAdmitted
    ensures { result ≡ admitted_told enqueued.now }
{
    MaltcoveAdmitted {
        id: enqueued.id,
        drops: enqueued.drops,
        flow: enqueued.flow,
    }
}

/// The number of a mark.
fn mark_code(mark: Mark) -> u8
    ensures { result ≡ mark_code mark }
{
    match mark {
        Mark::NoMark => 0,
        Mark::CodelMark => 1,
        Mark::Threshold => 2,
    }
}

/// What C is told of a packet that goes, before which so many were dropped.
pub(crate) fn sent_of(sent: &Sent, drops: u64) -> MaltcoveSent
    ensures { result ≡ sent_told sent.now drops }
{
    MaltcoveSent {
        tag: sent.packet.tag(),
        id: sent.id,
        drops,
        len: sent.packet.len(),
        ecn: bits_of(sent.packet.ecn()),
        mark: mark_code(sent.mark),
    }
}

/// What C is told where no packet goes.
pub(crate) fn idle_of(drops: u64) -> MaltcoveSent
    ensures { result ≡ idle_told drops }
{
    MaltcoveSent {
        tag: 0,
        id: 0,
        drops,
        len: 0,
        ecn: 0,
        mark: 0,
    }
}

/// The number of a cause.
fn cause_code(cause: Cause) -> u8
    ensures { result ≡ cause_code cause }
{
    match cause {
        Cause::Codel => 0,
        Cause::Overflow => 1,
    }
}

/// What C is told of a packet that was dropped.
pub(crate) fn dropped_of(dropped: &Dropped) -> MaltcoveDropped
    ensures { result ≡ dropped_told dropped.now }
{
    MaltcoveDropped {
        tag: dropped.tag,
        id: dropped.id,
        cause: cause_code(dropped.cause),
    }
}

/// What C is told of a packet that was flushed.
pub(crate) fn flushed_of(packet: &Handle) -> MaltcoveFlushed
    ensures { result ≡ flushed_told packet.now }
{
    MaltcoveFlushed {
        tag: packet.tag,
        id: packet.id,
    }
}

/// The statistics for C.
pub(crate) fn totals_of(totals: &QueueDiscTotals) -> MaltcoveTotals
    ensures { result ≡ totals_told totals.now }
{
    MaltcoveTotals {
        accepted: totals.accepted,
        accepted_bytes: totals.accepted_bytes,
        sent: totals.sent,
        sent_bytes: totals.sent_bytes,
        dropped_codel: totals.dropped_codel,
        dropped_overflow: totals.dropped_overflow,
        dropped_bytes: totals.dropped_bytes,
        flushed: totals.flushed,
        flushed_bytes: totals.flushed_bytes,
        marked: totals.marked,
        threshold_marked: totals.threshold_marked,
        queued: totals.queued,
        queued_bytes: totals.queued_bytes,
        closed: totals.closed,
    }
}

/// What is kept of a flow, for C.
pub(crate) fn flow_of(view: &FlowView) -> MaltcoveFlow
    ensures { result ≡ flow_told view.now }
{
    MaltcoveFlow {
        queued: view.len,
        queued_bytes: view.bytes,
        credits: view.credits,
        first_above: view.codel.first_above.unwrap_or(0),
        drop_next: view.codel.drop_next,
        count: view.codel.count,
        last_count: view.codel.lastcount,
        has_first_above: view.codel.first_above.is_some(),
        dropping: view.codel.dropping,
    }
}

/// The parameters for C.
pub(crate) fn params_of(params: &Params) -> MaltcoveParams
    ensures { result ≡ params_told params.now }
{
    MaltcoveParams {
        target: params.target(),
        interval: params.interval(),
        ce_threshold: params.ce_threshold().unwrap_or(0),
        memory_limit: params.memory_limit().unwrap_or(0),
        limit: params.limit(),
        flows: params.flows(),
        quantum: params.quantum(),
        mtu: params.mtu(),
        drop_batch: params.drop_batch(),
        has_ce_threshold: params.ce_threshold().is_some(),
        has_memory_limit: params.memory_limit().is_some(),
        ecn: params.ecn() == EcnUse::Mark,
        hash: params.classify() == Classify::Hash,
    }
}

/// No word is wrong, for C.
pub(crate) fn no_fault() -> MaltcoveFault
    ensures { result ≡ nothing_told }
{
    MaltcoveFault {
        place: 0,
        kind: NO_FAULT,
        offset: 0,
        len: 0,
    }
}

/// The text isn't UTF-8, for C.
pub(crate) fn not_text() -> MaltcoveFault
    ensures { result ≡ not_text_told }
{
    MaltcoveFault {
        place: 0,
        kind: NOT_TEXT,
        offset: 0,
        len: 0,
    }
}

/// The word at that place of a text is wrong in that way, for C.
fn word_of(text: &[u8], place: usize, kind: i32) -> MaltcoveFault
    ensures { result ≡ word_told text.now place kind }
{
    let offset = word_start(text, place.saturating_sub(1));
    MaltcoveFault {
        place: place as u64,
        kind,
        offset: offset as u64,
        len: bytes_in_front(&text[offset..]) as u64,
    }
}

/// Which word of a text is wrong, for C.
pub(crate) fn fault_of(text: &[u8], fault: ParamFault) -> MaltcoveFault
    ensures { result ≡ fault_told text.now fault }
{
    match fault {
        ParamFault::UnknownWord(place) => word_of(text, place, UNKNOWN_WORD),
        ParamFault::MissingValue(place) => word_of(text, place, MISSING_VALUE),
        ParamFault::NotANumber(place) => word_of(text, place, NOT_A_NUMBER),
        ParamFault::OutOfRange(place) => word_of(text, place, OUT_OF_RANGE),
    }
}
