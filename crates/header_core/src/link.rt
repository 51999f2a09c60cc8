//! What a frame of Ethernet carries.

ghost use Rattle.std.specs.Prelude.{◌≡◌, ℕ, ◌+◌, ◌≤◌, IfSome, IfNone, length};
ghost use Rattle.header_core.specs.Fields.{be16_at};
ghost use Rattle.header_core.specs.Links.{CarriesBehind, IsCutBehind, ethertype_place, is_tag};

use crate::fields::be16_at;

/// What a frame carries.
#[derive(Clone, Copy, Debug, PartialEq, Eq)]
pub struct Payload {
    /// Its ethertype: 0x0800 for IPv4, 0x86DD for IPv6. Below 0x0600 it is a length, and the frame carries no IP.
    pub ethertype: u16,
    /// Where it begins, in bytes from the first of the frame.
    pub offset: usize,
    /// How many VLAN tags stand before it.
    pub tags: usize,
}

/// What a frame of Ethernet carries, behind its VLAN tags (IEEE 802.1Q). None where the captured bytes end before that
/// is said.
pub fn link_payload(bytes: &[u8]) -> Option<Payload>
    ensures carried { IfSome result (λ p. CarriesBehind bytes.now p.tags) }
    ensures ethertype { IfSome result (λ p. p.ethertype ≡ be16_at bytes.now (ethertype_place p.tags)) }
    ensures offset { IfSome result (λ p. p.offset ≡ ethertype_place p.tags + 2) }
    ensures cut { IfNone result ((tags : ℕ) × IsCutBehind bytes.now tags) }
{
    let mut tags = 0;
    let mut offset = 14;
    while offset <= bytes.len() {
        let ethertype = be16_at(bytes, offset - 2);
        if !is_tag(ethertype) {
            return Some(Payload {
                ethertype,
                offset,
                tags,
            });
        }
        tags += 1;
        offset += 4;
    }
    None
}

/// Whether an ethertype is that of a VLAN tag.
pub(crate) fn is_tag(ethertype: u16) -> bool
    ensures { result ≡ is_tag ethertype }
{
    matches!(ethertype, 0x8100 | 0x88A8 | 0x9100)
}
