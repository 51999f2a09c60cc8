//! Rates, as tc reads them.

ghost use Rattle.std.specs.Prelude.{◌≡◌, ◌<◌, ◌≤◌, ◌-◌, ◌/◌, ◌*◌, ◌^◌, IfSome, drop, length, min, option_map, take};
ghost use Rattle.std.specs.Str.{str_eq_ignore_ascii_case};
ghost use Rattle.packet_core.specs.Numerals.{numeral_of};
ghost use Rattle.packet_core.specs.Words.{digits_in_front};
ghost use Rattle.link_command.specs.Rates.{bit_rate_of, bits_of_byte_unit, decimals_of, rate_unit_of, rounded_product};

use crate::counts::{digits_in_front, scaled};
use packet_core::read_numeral;

/// The most digits that are read after a point.
const MAX_DECIMALS: usize = 9;

/// The rate that a text says, in whole bits per second, and 2^64 - 1 where it is more than that: digits, maybe a point
/// and one to nine digits more, and then a unit in any case (tc(8), "RATES"). `bit` or nothing is a bit a second, and
/// `bps` a byte; `k`, `m`, `g` and `t` before them are thousands, millions and so on, and `ki`, `mi`, `gi` and `ti`
/// powers of 1,024. The product is exact, and rounded down. Another text has none.
pub fn read_rate(text: &str) -> Option<u64>
    ensures { result ≡ option_map (λ n. min n (2 ^ 64 - 1)) (bit_rate_of text.now) }
{
    let (whole, rest) = split_digits(text.as_bytes());
    match rest {
        [b'.', rest @ ..] => {
            let (decimals, unit) = split_digits(rest);
            point_rate(whole, decimals, rate_unit(unit))
        }
        _ => scaled(whole, rate_unit(rest)),
    }
}

/// The digits that a text begins with, and what stands after them.
fn split_digits(text: &[u8]) -> (&[u8], &[u8])
    ensures digits { result.0.now ≡ take (digits_in_front text.now) text.now }
    ensures rest { result.1.now ≡ drop (digits_in_front text.now) text.now }
{
    text.split_at(digits_in_front(text))
}

/// A rate with a point, from the digits before it, those after it and the bits of the unit. It is 2^64 - 1 where it is
/// more than that.
fn point_rate(whole: &[u8], decimals: &[u8], unit: Option<u64>) -> Option<u64>
    ensures { result ≡ option_map (λ n. min n (2 ^ 64 - 1))
        (rounded_product (numeral_of whole.now) (decimals_of decimals.now) (length decimals.now) unit) }
{
    let unit = unit?;
    let part = part_of_unit(decimals, unit)?;
    Some(scaled(whole, Some(unit))?.saturating_add(part))
}

/// The digits after a point as a part of a unit, rounded down.
fn part_of_unit(decimals: &[u8], unit: u64) -> Option<u64>
    ensures { result ≡ option_map (λ n. n * unit / 10 ^ (length decimals.now)) (decimals_of decimals.now) }
{
    if decimals.len() > MAX_DECIMALS {
        return None;
    }
    let number = decimals_number(decimals)?;
    let whole = 10u64.pow(decimals.len() as u32);
    Some((u128::from(number) * u128::from(unit) / u128::from(whole)) as u64)
}

/// The number of a few digits.
fn decimals_number(decimals: &[u8]) -> Option<u64>
    requires { length decimals.now ≤ MAX_DECIMALS }
    ensures value { result ≡ numeral_of decimals.now }
    ensures bound { IfSome result (λ n. n < 10 ^ (length decimals.now)) }
{
    read_numeral(decimals)
}

/// How many bits per second a unit has.
#[tactic(auto, unfolding(crate::specs::Rates::rate_unit_of))]
fn rate_unit(text: &[u8]) -> Option<u64>
    ensures { result ≡ rate_unit_of text.now }
{
    if is_unit(text, b"") || is_unit(text, b"bit") {
        Some(1)
    } else if is_unit(text, b"kbit") {
        Some(1_000)
    } else if is_unit(text, b"mbit") {
        Some(1_000_000)
    } else if is_unit(text, b"gbit") {
        Some(1_000_000_000)
    } else if is_unit(text, b"tbit") {
        Some(1_000_000_000_000)
    } else if is_unit(text, b"kibit") {
        Some(1_024)
    } else if is_unit(text, b"mibit") {
        Some(1_048_576)
    } else if is_unit(text, b"gibit") {
        Some(1_073_741_824)
    } else if is_unit(text, b"tibit") {
        Some(1_099_511_627_776)
    } else {
        byte_unit(text)
    }
}

/// How many bits per second a unit of bytes has.
#[tactic(auto, unfolding(crate::specs::Rates::bits_of_byte_unit))]
fn byte_unit(text: &[u8]) -> Option<u64>
    ensures { result ≡ bits_of_byte_unit text.now }
{
    if is_unit(text, b"bps") {
        Some(8)
    } else if is_unit(text, b"kbps") {
        Some(8_000)
    } else if is_unit(text, b"mbps") {
        Some(8_000_000)
    } else if is_unit(text, b"gbps") {
        Some(8_000_000_000)
    } else if is_unit(text, b"tbps") {
        Some(8_000_000_000_000)
    } else if is_unit(text, b"kibps") {
        Some(8_192)
    } else if is_unit(text, b"mibps") {
        Some(8_388_608)
    } else if is_unit(text, b"gibps") {
        Some(8_589_934_592)
    } else if is_unit(text, b"tibps") {
        Some(8_796_093_022_208)
    } else {
        None
    }
}

/// Whether a text is a unit's name, in any case.
fn is_unit(text: &[u8], name: &[u8]) -> bool
    ensures { result ≡ str_eq_ignore_ascii_case text.now name.now }
{
    text.eq_ignore_ascii_case(name)
}
