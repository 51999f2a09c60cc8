//! One row of a trace: its fields, from left to right, and the step that they ask for, or the version that a first row
//! tells. An address is one of IPv4, or in version 2 one of IPv6 (RFC 4291) too.
ghost use Rattle.std.specs.Prelude.{◌≡◌, ◌≢◌, ◌<◌, ◌^◌, ◌-◌, [], ◌∷◌, min, option_map, IfErr, IfOk};
ghost use Rattle.std.specs.Char.{digit_value};
ghost use Rattle.std.specs.Option.{SomeIff, option_or};
ghost use Rattle.packet_core.specs.Packets.{IsLengthInRange};
ghost use Rattle.csv.specs.Records.{fields_of};
ghost use Rattle.row_core.specs.Rows.{address_of, cut_of, destination_of, ecn_of, field_of, fields_of_kind, four_octets_of, kind_of, packet_length_of, number_below, octet_and_rest_of, octet_of, packet_of, step_of_row, sixteen_octets_of, starts_with_zero, tells_version, version_of};

use crate::faults::TraceFaultKind;
use crate::numbers::read_number;
use csv::ByteRecord;
use hex::FromHex;
use journal_core::{MAX_MOMENT, Step};
use packet_core::{Ecn, FiveTuple, Ip, MAX_LENGTH, Packet};

/// Every packet of a trace comes from the one lane.
const TRACE_LANE: u32 = 0;

/// How the addresses of a trace may be written. Its first row can tell it.
#[derive(Clone, Copy, Debug, PartialEq, Eq)]
pub(crate) enum Version {
    /// Each is one of IPv4.
    One,
    /// Each is one of IPv4 or of IPv6.
    Two,
}

/// What a row asks for. Its first field says it.
#[derive(Clone, Copy, Debug, PartialEq, Eq)]
enum RowKind {
    /// `enq,MOMENT,PROTO,SRC,DST,SPORT,DPORT,LEN,ECN`
    Enqueue,
    /// `deq,MOMENT`
    Dequeue,
    /// `close,MOMENT`
    Close,
}

impl RowKind {
    /// How many fields such a row has, the first one counted.
    fn field_count(self) -> usize
        ensures { result ≡ fields_of_kind self }
    {
        match self {
            RowKind::Enqueue => 9,
            RowKind::Dequeue | RowKind::Close => 2,
        }
    }
}

/// Whether the row with that number tells the trace's version: the first row does, where its first field says so.
#[tactic(auto, unfolding(crate::specs::Rows::tells_version))]
pub(crate) fn tells_version(row: &ByteRecord, row_number: u64) -> bool
    ensures { result ≡ tells_version row_number (fields_of row.now) }
{
    row_number == 1 && field(row, 0) == b"version".as_slice()
}

/// The version that such a row tells. It refuses another number of fields than two, then a second field that isn't a
/// number of value 2.
#[tactic(auto, unfolding(crate::specs::Rows::version_of))]
pub(crate) fn read_version(row: &ByteRecord) -> Result<Version, TraceFaultKind>
    ensures value { result ≡ version_of (fields_of row.now) }
    ensures fault { IfErr result (λ fault. fault ≢ TraceFaultKind.Read) }
    ensures memory { IfErr result (λ fault. fault ≢ TraceFaultKind.Memory) }
{
    if row.len() != 2 {
        return Err(TraceFaultKind::BadFieldCount);
    }
    match read_number(field(row, 1)) {
        Some(2) => Ok(Version::Two),
        _ => Err(TraceFaultKind::BadNumber),
    }
}

/// The step that a row of a trace of that version asks for. It refuses a first field that names no kind, then another
/// number of fields than the kind has, then the first faulty field from the left.
#[tactic(auto, unfolding(crate::specs::Rows::step_of_row))]
pub(crate) fn read_row(row: &ByteRecord, version: Version) -> Result<Step, TraceFaultKind>
    ensures value { result ≡ step_of_row version (fields_of row.now) }
    ensures fault { IfErr result (λ fault. fault ≢ TraceFaultKind.Read) }
    ensures memory { IfErr result (λ fault. fault ≢ TraceFaultKind.Memory) }
{
    let kind = read_kind(field(row, 0))?;
    if row.len() != kind.field_count() {
        return Err(TraceFaultKind::BadFieldCount);
    }
    let moment = read_moment(field(row, 1))?;
    match kind {
        RowKind::Enqueue => Ok(Step::Enqueue {
            moment,
            lane: TRACE_LANE,
            packet: read_packet(row, version)?,
        }),
        RowKind::Dequeue => Ok(Step::Dequeue { moment }),
        RowKind::Close => Ok(Step::Close { moment }),
    }
}

/// The field at a place, from 0, and an empty one behind the last.
pub(crate) fn field(row: &ByteRecord, place: usize) -> &[u8]
    ensures { result.now ≡ field_of (fields_of row.now) place }
{
    match row.get(place) {
        Some(field) => field,
        None => &[],
    }
}

/// What a row's first field asks for.
#[tactic(auto, unfolding(crate::specs::Rows::kind_of))]
fn read_kind(name: &[u8]) -> Result<RowKind, TraceFaultKind>
    ensures value { result ≡ kind_of name.now }
    ensures fault { IfErr result (λ fault. fault ≢ TraceFaultKind.Read) }
    ensures memory { IfErr result (λ fault. fault ≢ TraceFaultKind.Memory) }
{
    if name == b"enq".as_slice() {
        Ok(RowKind::Enqueue)
    } else if name == b"deq".as_slice() {
        Ok(RowKind::Dequeue)
    } else if name == b"close".as_slice() {
        Ok(RowKind::Close)
    } else {
        Err(TraceFaultKind::BadKind)
    }
}

/// The packet of a row that has all its fields, which are read from left to right.
#[tactic(auto, unfolding(crate::specs::Rows::packet_of))]
fn read_packet(row: &ByteRecord, version: Version) -> Result<Packet, TraceFaultKind>
    ensures value { result ≡ packet_of version (fields_of row.now) }
    ensures fault { IfErr result (λ fault. fault ≢ TraceFaultKind.Read) }
    ensures memory { IfErr result (λ fault. fault ≢ TraceFaultKind.Memory) }
{
    let proto = read_u8(field(row, 2))?;
    let src = read_address(field(row, 3), version)?;
    let dst = read_destination(field(row, 4), version, src)?;
    let sport = read_u16(field(row, 5))?;
    let dport = read_u16(field(row, 6))?;
    let len = read_length(field(row, 7))?;
    let ecn = read_ecn(field(row, 8))?;
    let tuple = FiveTuple {
        proto,
        src,
        dst,
        sport,
        dport,
    };
    Packet::try_new(tuple, len, ecn).map_err(|_| TraceFaultKind::LengthOutOfRange)
}

/// A moment in microseconds. It is refused where it isn't digits with a value below 2^60.
#[tactic(auto, using(crate::proofs::RowLemmas::below_cut), unfolding(crate::specs::Rows::number_below))]
fn read_moment(text: &[u8]) -> Result<u64, TraceFaultKind>
    ensures value { result ≡ number_below (2 ^ 60) text.now }
    ensures fault { IfErr result (λ fault. fault ≢ TraceFaultKind.Read) }
    ensures memory { IfErr result (λ fault. fault ≢ TraceFaultKind.Memory) }
{
    match read_number(text) {
        Some(moment) if moment < MAX_MOMENT => Ok(moment),
        _ => Err(TraceFaultKind::BadNumber),
    }
}

/// A protocol's number. It is refused where it isn't digits with a value of at most 255.
#[tactic(auto, using(crate::proofs::RowLemmas::below_cut), unfolding(crate::specs::Rows::number_below))]
fn read_u8(text: &[u8]) -> Result<u8, TraceFaultKind>
    ensures value { result ≡ number_below (2 ^ 8) text.now }
    ensures fault { IfErr result (λ fault. fault ≢ TraceFaultKind.Read) }
    ensures memory { IfErr result (λ fault. fault ≢ TraceFaultKind.Memory) }
{
    let value = read_number(text).ok_or(TraceFaultKind::BadNumber)?;
    u8::try_from(value).map_err(|_| TraceFaultKind::BadNumber)
}

/// A port. It is refused where it isn't digits with a value of at most 65,535.
#[tactic(auto, using(crate::proofs::RowLemmas::below_cut), unfolding(crate::specs::Rows::number_below))]
fn read_u16(text: &[u8]) -> Result<u16, TraceFaultKind>
    ensures value { result ≡ number_below (2 ^ 16) text.now }
    ensures fault { IfErr result (λ fault. fault ≢ TraceFaultKind.Read) }
    ensures memory { IfErr result (λ fault. fault ≢ TraceFaultKind.Memory) }
{
    let value = read_number(text).ok_or(TraceFaultKind::BadNumber)?;
    u16::try_from(value).map_err(|_| TraceFaultKind::BadNumber)
}

/// A length in bytes. It is refused where it isn't digits, and then where the value is outside 1 to 65,535.
#[tactic(auto, unfolding(crate::specs::Rows::packet_length_of))]
fn read_length(text: &[u8]) -> Result<u32, TraceFaultKind>
    ensures value { result ≡ packet_length_of text.now }
    ensures range { IfOk result (λ len. IsLengthInRange len) }
    ensures fault { IfErr result (λ fault. fault ≢ TraceFaultKind.Read) }
    ensures memory { IfErr result (λ fault. fault ≢ TraceFaultKind.Memory) }
{
    let value = read_number(text).ok_or(TraceFaultKind::BadNumber)?;
    match u32::try_from(value) {
        Ok(len) if 0 < len && len <= MAX_LENGTH => Ok(len),
        _ => Err(TraceFaultKind::LengthOutOfRange),
    }
}

/// The two bits of explicit congestion notification, as one digit from 0 to 3.
#[tactic(auto, unfolding(crate::specs::Rows::ecn_of))]
fn read_ecn(text: &[u8]) -> Result<Ecn, TraceFaultKind>
    ensures value { result ≡ ecn_of text.now }
    ensures fault { IfErr result (λ fault. fault ≢ TraceFaultKind.Read) }
    ensures memory { IfErr result (λ fault. fault ≢ TraceFaultKind.Memory) }
{
    if text == b"0".as_slice() {
        Ok(Ecn::NotEct)
    } else if text == b"1".as_slice() {
        Ok(Ecn::Ect1)
    } else if text == b"2".as_slice() {
        Ok(Ecn::Ect0)
    } else if text == b"3".as_slice() {
        Ok(Ecn::Ce)
    } else {
        Err(TraceFaultKind::BadEcn)
    }
}

/// The destination of a packet: an address of the same kind as its source.
#[tactic(auto, unfolding(crate::specs::Rows::destination_of))]
fn read_destination(text: &[u8], version: Version, src: Ip) -> Result<Ip, TraceFaultKind>
    ensures value { result ≡ destination_of version src text.now }
    ensures fault { IfErr result (λ fault. fault ≢ TraceFaultKind.Read) }
    ensures memory { IfErr result (λ fault. fault ≢ TraceFaultKind.Memory) }
{
    let dst = read_address(text, version)?;
    if dst.is_ipv6() == src.is_ipv6() {
        Ok(dst)
    } else {
        Err(TraceFaultKind::BadAddress)
    }
}

/// An address: four numbers from 0 to 255 without leading zeros, joined by dots, or in version 2 the 32 hexadecimal
/// digits of an address of IPv6 too.
#[tactic(auto, unfolding(crate::specs::Rows::address_of))]
fn read_address(text: &[u8], version: Version) -> Result<Ip, TraceFaultKind>
    ensures value { result ≡ address_of version text.now }
    ensures fault { IfErr result (λ fault. fault ≢ TraceFaultKind.Read) }
    ensures memory { IfErr result (λ fault. fault ≢ TraceFaultKind.Memory) }
{
    let read = match version {
        Version::One => four_octets(text),
        Version::Two => either_kind(text),
    };
    read.ok_or(TraceFaultKind::BadAddress)
}

/// The address of either kind that the text is, if it is one.
// A text is read as one of IPv6 only where it is none of IPv4.
fn either_kind(text: &[u8]) -> Option<Ip>
    ensures { result ≡ option_or (four_octets_of text.now) (sixteen_octets_of text.now) }
{
    match four_octets(text) {
        Some(address) => Some(address),
        None => sixteen_octets(text),
    }
}

/// The address of IPv6 of 32 hexadecimal digits of either case, if the text is one. Two digits make a byte, the first
/// of them the high one.
#[tactic(auto, unfolding(crate::specs::Rows::sixteen_octets_of))]
fn sixteen_octets(text: &[u8]) -> Option<Ip>
    ensures { result ≡ sixteen_octets_of text.now }
{
    let octets = <[u8; 16] as FromHex>::from_hex(text).ok()?;
    Some(Ip::V6(octets))
}

/// The address of four numbers that are joined by dots, if the text is one.
#[tactic(auto, using(crate::proofs::FourOctets::in_turn))]
fn four_octets(text: &[u8]) -> Option<Ip>
    ensures { result ≡ four_octets_of text.now }
{
    let (first, text) = octet_before_dot(text)?;
    let (second, text) = octet_before_dot(text)?;
    let (third, fourth) = octet_before_dot(text)?;
    Some(Ip::V4([first, second, third, octet(fourth)?]))
}

/// The number before a text's first dot, and what stands behind the dot.
// Mostly the dot is the second, the third or the fourth byte. Then nothing is looked at twice.
#[inline(always)]
#[tactic(auto, using(crate::proofs::OctetLemmas::dot_second, crate::proofs::OctetLemmas::dot_third, crate::proofs::OctetLemmas::dot_fourth))]
fn octet_before_dot(text: &[u8]) -> Option<(u8, &[u8])>
    ensures { option_map (λ parts. (parts.0, parts.1.now)) result ≡ octet_and_rest_of text.now }
{
    if text.len() > 1 && text[1] == b'.' && text[0] != b'.' {
        return Some((one_digit(text[0])?, &text[2..]));
    }
    if text.len() > 2 && text[2] == b'.' && text[0] != b'.' && text[1] != b'.' {
        return Some((two_digits(text[0], text[1])?, &text[3..]));
    }
    if text.len() > 3 && text[3] == b'.' && text[0] != b'.' && text[1] != b'.' && text[2] != b'.' {
        return Some((three_digits(text[0], text[1], text[2])?, &text[4..]));
    }
    cut_octet(text)
}

/// The same wherever the dot stands.
#[inline(never)]
#[tactic(auto, unfolding(crate::specs::Rows::octet_and_rest_of))]
fn cut_octet(text: &[u8]) -> Option<(u8, &[u8])>
    ensures { option_map (λ parts. (parts.0, parts.1.now)) result ≡ octet_and_rest_of text.now }
{
    let (front, rest) = cut_at_dot(text)?;
    Some((octet(front)?, rest))
}

/// What stands before the first dot and what stands behind it, if there is a dot.
fn cut_at_dot(text: &[u8]) -> Option<(&[u8], &[u8])>
    ensures { option_map (λ parts. (parts.0.now, parts.1.now)) result ≡ cut_of text.now }
{
    let place = text.iter().position(|byte| *byte == b'.')?;
    Some((&text[..place], &text[place + 1..]))
}

/// The number from 0 to 255 that the text is, written without leading zeros.
#[inline(always)]
fn octet(text: &[u8]) -> Option<u8>
    ensures { result ≡ octet_of text.now }
{
    match text {
        [a] => one_digit(*a),
        [a, b] => two_digits(*a, *b),
        [a, b, c] => three_digits(*a, *b, *c),
        _ => octet_of_any(text),
    }
}

/// The same of a text of any length.
#[inline(never)]
#[tactic(auto, using(crate::proofs::RowLemmas::below_cut), unfolding(crate::specs::Rows::octet_of))]
fn octet_of_any(text: &[u8]) -> Option<u8>
    ensures { result ≡ octet_of text.now }
{
    if has_leading_zero(text) {
        return None;
    }
    u8::try_from(read_number(text)?).ok()
}

/// The same of a text of one byte.
#[inline(always)]
#[tactic(auto, using(crate::proofs::OctetLemmas::octet_one))]
fn one_digit(a: u8) -> Option<u8>
    ensures { result ≡ octet_of (a ∷ []) }
{
    match digit(a) {
        Some(a) => Some(a),
        None => octet_of_any(&[a]),
    }
}

/// The same of a text of two bytes.
#[inline(always)]
#[tactic(auto, using(crate::proofs::OctetLemmas::octet_two))]
fn two_digits(a: u8, b: u8) -> Option<u8>
    ensures { result ≡ octet_of (a ∷ b ∷ []) }
{
    match (digit(a), digit(b)) {
        (Some(tens), Some(ones)) if a != b'0' => Some(tens * 10 + ones),
        _ => octet_of_any(&[a, b]),
    }
}

/// The same of a text of three bytes.
#[inline(always)]
#[tactic(auto, using(crate::proofs::OctetLemmas::octet_three))]
fn three_digits(a: u8, b: u8, c: u8) -> Option<u8>
    ensures { result ≡ octet_of (a ∷ b ∷ c ∷ []) }
{
    match (digit(a), digit(b), digit(c)) {
        (Some(hundreds), Some(tens), Some(ones)) if a != b'0' => {
            let value = (u32::from(hundreds) * 10 + u32::from(tens)) * 10 + u32::from(ones);
            match u8::try_from(value) {
                Ok(value) => Some(value),
                Err(_) => octet_of_any(&[a, b, c]),
            }
        }
        _ => octet_of_any(&[a, b, c]),
    }
}

/// The value of a decimal digit.
// By a subtraction: a call of `to_digit` isn't merged where so many stand in a row.
#[inline(always)]
fn digit(byte: u8) -> Option<u8>
    ensures value { SomeIff result (digit_value byte < 10) (digit_value byte) }
{
    if byte < b'0' || byte > b'9' {
        return None;
    }
    Some(byte - b'0')
}

/// Whether a zero stands before another byte.
fn has_leading_zero(text: &[u8]) -> bool
    ensures { result ≡ starts_with_zero text.now }
{
    text.len() > 1 && text[0] == b'0'
}
