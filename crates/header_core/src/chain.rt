//! The extension headers of IPv6, one behind another (RFC 8200, section 4).

ghost use Rattle.std.specs.Prelude.{◌≡◌, ◌+◌, ◌<◌, ◌≤◌, length};
ghost use Rattle.header_core.specs.Chains.{EndsAt, HasRoom, extension_length, is_extension, is_long_enough, is_part, kind_at, place_behind};

use crate::fields::be16_at;

/// A header of the chain.
#[derive(Clone, Copy)]
pub(crate) struct Place {
    /// Its number.
    pub proto: u8,
    /// Where it begins.
    pub at: usize,
    /// Whether a fragment header stands before it.
    pub atomic: bool,
}

/// What stands at a place of the chain.
#[derive(Clone, Copy)]
pub(crate) enum Kind {
    /// An extension header, behind which the chain goes on.
    Extension,
    /// No extension header that is known here: its number is the packet's protocol.
    Upper,
    /// The fragment header of one of several fragments.
    Part,
    /// An extension header that passes the packet's end, or can't be as short as it says.
    Beyond,
    /// An extension header whose first 8 bytes weren't all captured.
    Cut,
}

/// The header at which the chain ends, in a packet of that length.
pub(crate) fn end_of_chain(bytes: &[u8], len: usize) -> Place
    requires fixed { 40 ≤ length bytes.now }
    requires packet { 40 ≤ len }
    requires short { len ≤ 65535 }
    ensures end { EndsAt bytes.now len result }
    ensures within { result.at ≤ len }
{
    let mut place = Place {
        proto: bytes[6],
        at: 40,
        atomic: false,
    };
    while let Kind::Extension = kind_at(bytes, len, place) {
        place = place_behind(bytes, place);
    }
    place
}

/// What stands at a place of a packet of that length.
#[tactic(auto, unfolding(crate::specs::Chains::kind_at))]
pub(crate) fn kind_at(bytes: &[u8], len: usize, place: Place) -> Kind
    requires within { place.at ≤ len }
    requires short { len ≤ 65535 }
    ensures kind { result ≡ kind_at bytes.now len place }
    ensures room { HasRoom bytes.now len place result }
{
    if !is_extension(place) {
        return Kind::Upper;
    }
    if len < place.at + 8 {
        return Kind::Beyond;
    }
    if bytes.len() < place.at + 8 {
        return Kind::Cut;
    }
    if !is_long_enough(bytes, place) || len < place.at + extension_length(bytes, place) {
        Kind::Beyond
    } else if is_part(bytes, place) {
        Kind::Part
    } else {
        Kind::Extension
    }
}

/// Whether the number is one of an extension header: routing, fragment, authentication, destination options, and
/// hop-by-hop options directly behind the fixed header.
fn is_extension(place: Place) -> bool
    ensures { result ≡ is_extension place }
{
    match place.proto {
        43 | 44 | 51 | 60 => true,
        0 => place.at == 40,
        _ => false,
    }
}

/// How long an extension header is, in bytes.
fn extension_length(bytes: &[u8], place: Place) -> usize
    requires { place.at + 8 ≤ length bytes.now }
    ensures value { result ≡ extension_length bytes.now place }
    ensures some { 8 ≤ result }
    ensures bound { result ≤ 2048 }
{
    let units = usize::from(bytes[place.at + 1]);
    match place.proto {
        44 => 8,
        51 => (units + 2) * 4,
        _ => (units + 1) * 8,
    }
}

/// Whether the length is one that such a header can have.
fn is_long_enough(bytes: &[u8], place: Place) -> bool
    requires { place.at + 8 ≤ length bytes.now }
    ensures { result ≡ is_long_enough bytes.now place }
{
    place.proto != 51 || extension_length(bytes, place) >= 12
}

/// Whether a fragment header is that of one of several fragments.
fn is_part(bytes: &[u8], place: Place) -> bool
    requires { place.at + 8 ≤ length bytes.now }
    ensures { result ≡ is_part bytes.now place }
{
    let field = be16_at(bytes, place.at + 2);
    place.proto == 44 && (field / 8 != 0 || field % 2 != 0)
}

/// The header behind an extension header.
#[tactic(auto, unfolding(crate::specs::Chains::place_behind))]
fn place_behind(bytes: &[u8], place: Place) -> Place
    requires { place.at + 8 ≤ length bytes.now }
    ensures place { result ≡ place_behind bytes.now place }
    ensures at { result.at ≡ place.at + extension_length bytes.now place }
    ensures further { place.at < result.at }
{
    Place {
        proto: bytes[place.at],
        at: place.at + extension_length(bytes, place),
        atomic: place.atomic || place.proto == 44,
    }
}
