//! Congestion experienced, written into a packet in place (RFC 3168, section 5).

ghost use Rattle.std.specs.Prelude.{◌≡◌, ◌≤◌, length};
ghost use Rattle.std.specs.Bool.{OnFalse, OnTrue};
ghost use Rattle.header_core.specs.Marks.{AreBytes, KeepsSums, Marks, is_ect, is_markable, is_markable_ipv4, is_markable_ipv6, marked, marked_ipv4, marked_ipv6};

use crate::checksum::updated_checksum;
use crate::fields::be16_at;

/// Writes CE into a packet whose captured bytes begin with the header of IP, and returns whether it did. It does where
/// the fixed header was captured whole, and the field is ECT(0) or ECT(1). In IPv4 the checksum follows the change
/// (RFC 1624, section 3, equation 3): a wrong one stays wrong.
pub fn mark(bytes: &mut [u8]) -> bool
    ensures when { result ≡ is_markable bytes.old }
    ensures unmarked { OnFalse result (bytes.new ≡ bytes.old) }
    ensures marks { OnTrue result (Marks bytes.old bytes.new) }
    ensures sums { OnTrue result (KeepsSums bytes.old bytes.new) }
{
    let markable = is_markable(bytes);
    if markable {
        write_mark(bytes);
    }
    markable
}

/// Whether a packet can be marked.
fn is_markable(bytes: &[u8]) -> bool
    ensures value { result ≡ is_markable bytes.now }
    ensures room { OnTrue result (20 ≤ length bytes.now) }
    ensures fits { AreBytes bytes.now }
{
    if bytes.is_empty() {
        return false;
    }
    match bytes[0] / 16 {
        4 => is_markable_ipv4(bytes),
        6 => is_markable_ipv6(bytes),
        _ => false,
    }
}

/// Whether a packet of IPv4 can be marked.
fn is_markable_ipv4(bytes: &[u8]) -> bool
    ensures value { result ≡ is_markable_ipv4 bytes.now }
    ensures room { OnTrue result (20 ≤ length bytes.now) }
{
    bytes.len() >= 20 && bytes[0] % 16 >= 5 && is_ect(bytes[1] % 4)
}

/// Whether a packet of IPv6 can be marked.
fn is_markable_ipv6(bytes: &[u8]) -> bool
    ensures value { result ≡ is_markable_ipv6 bytes.now }
    ensures room { OnTrue result (40 ≤ length bytes.now) }
{
    bytes.len() >= 40 && is_ect(bytes[1] / 16 % 4)
}

/// Whether an ECN field is ECT(0) or ECT(1).
fn is_ect(code: u8) -> bool
    ensures { result ≡ is_ect code }
{
    code == 1 || code == 2
}

/// Writes CE into a packet that can be marked.
fn write_mark(bytes: &mut [u8])
    requires { 20 ≤ length bytes.old }
    ensures { bytes.new ≡ marked bytes.old }
{
    if bytes[0] / 16 == 4 {
        write_ipv4(bytes);
    } else {
        write_ipv6(bytes);
    }
}

/// Writes CE and the checksum into a header of IPv4.
#[tactic(auto, unfolding(crate::specs::Marks::marked_ipv4))]
fn write_ipv4(bytes: &mut [u8])
    requires { 20 ≤ length bytes.old }
    ensures { bytes.new ≡ marked_ipv4 bytes.old }
{
    let old = be16_at(bytes, 0);
    let checksum = be16_at(bytes, 10);
    let second = bytes[1] / 4 * 4 + 3;
    let new = u16::from(bytes[0]) * 256 + u16::from(second);
    let updated = updated_checksum(checksum, old, new);
    bytes[1] = second;
    bytes[10] = (updated / 256) as u8;
    bytes[11] = (updated % 256) as u8;
}

/// Writes CE into a header of IPv6.
#[tactic(auto, unfolding(crate::specs::Marks::marked_ipv6))]
fn write_ipv6(bytes: &mut [u8])
    requires { 20 ≤ length bytes.old }
    ensures { bytes.new ≡ marked_ipv6 bytes.old }
{
    let second = bytes[1];
    bytes[1] = second / 64 * 64 + 48 + second % 16;
}
