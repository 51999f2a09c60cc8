//! The length of a packet of IPv6 that leaves it to a hop-by-hop option (RFC 2675).

ghost use Rattle.std.specs.Prelude.{◌≡◌, ℕ, ◌+◌, ◌≤◌, length, IfNone};
ghost use Rattle.header_core.specs.Jumbograms.{HasSixBytes, JudgesJumbogram, LooksUpTo, option_at, option_fault, option_length, options_end, verdict_at, verdict_of_length};

use crate::fields::be32_at;
use crate::header::Verdict;

/// What stands at a place between the options.
#[derive(Clone, Copy)]
pub(crate) enum Found {
    /// A jumbo payload option.
    Jumbo,
    /// Another option.
    Another,
    /// No room for such an option.
    Nothing,
    /// Bytes that weren't all captured.
    Cut,
}

/// The verdict on a packet whose payload length is 0 and whose next header is hop-by-hop options.
pub(crate) fn jumbo_verdict(bytes: &[u8], wire: usize) -> Verdict
    ensures { JudgesJumbogram bytes.now wire result }
{
    if let Some(broken) = option_fault(bytes, wire) {
        return broken;
    }
    let at = jumbo_option(bytes);
    verdict_at(bytes, wire, at)
}

/// The first rule that the header of the options breaks, if it breaks one.
fn option_fault(bytes: &[u8], wire: usize) -> Option<Verdict>
    ensures first { result ≡ option_fault bytes.now wire }
    ensures room { IfNone result (48 ≤ length bytes.now) }
{
    if wire < 48 {
        Some(Verdict::BadJumbo)
    } else if bytes.len() < 48 {
        Some(Verdict::Cut)
    } else if wire < options_end(bytes) {
        Some(Verdict::BadJumbo)
    } else {
        None
    }
}

/// Where the options end.
fn options_end(bytes: &[u8]) -> usize
    requires { 48 ≤ length bytes.now }
    ensures value { result ≡ options_end bytes.now }
    ensures bound { result ≤ 2088 }
{
    40 + (usize::from(bytes[41]) + 1) * 8
}

/// Where the jumbo payload option begins, or where the search for it ends.
fn jumbo_option(bytes: &[u8]) -> usize
    requires { 48 ≤ length bytes.now }
    ensures found { (k : ℕ) × LooksUpTo bytes.now result k }
    ensures bound { result ≤ 2400 }
{
    let mut at = 42;
    while let Found::Another = option_at(bytes, at) {
        at += option_length(bytes, at);
    }
    at
}

/// What stands at a place between the options.
#[tactic(auto, unfolding(crate::specs::Jumbograms::option_at))]
fn option_at(bytes: &[u8], at: usize) -> Found
    requires captured { 48 ≤ length bytes.now }
    requires bound { at ≤ 2400 }
    ensures found { result ≡ option_at bytes.now at }
    ensures room { HasSixBytes bytes.now at result }
{
    if options_end(bytes) < at + 6 {
        Found::Nothing
    } else if bytes.len() < at + 6 {
        Found::Cut
    } else if bytes[at] == 194 {
        Found::Jumbo
    } else {
        Found::Another
    }
}

/// How long an option is, in bytes.
fn option_length(bytes: &[u8], at: usize) -> usize
    requires { at + 6 ≤ length bytes.now }
    ensures value { result ≡ option_length bytes.now at }
    ensures some { 1 ≤ result }
    ensures bound { result ≤ 257 }
{
    match bytes[at] {
        0 => 1,
        _ => 2 + usize::from(bytes[at + 1]),
    }
}

/// What the place at which the search ends says of the packet.
fn verdict_at(bytes: &[u8], wire: usize, at: usize) -> Verdict
    requires captured { 48 ≤ length bytes.now }
    requires bound { at ≤ 2400 }
    ensures { result ≡ verdict_at bytes.now wire at (option_at bytes.now at) }
{
    match option_at(bytes, at) {
        Found::Jumbo => {
            if bytes[at + 1] == 4 {
                verdict_of_length(be32_at(bytes, at + 2), wire)
            } else {
                Verdict::BadJumbo
            }
        }
        Found::Cut => Verdict::Cut,
        Found::Nothing | Found::Another => Verdict::BadJumbo,
    }
}

/// The verdict on a packet that says so long a payload.
fn verdict_of_length(payload: u32, wire: usize) -> Verdict
    ensures { result ≡ verdict_of_length payload wire }
{
    if payload < 65_536 {
        Verdict::BadJumbo
    } else if wire < 40 + payload as usize {
        Verdict::Overrun
    } else {
        Verdict::TooLong
    }
}
