//! Numbers with a unit after them.

ghost use Rattle.std.specs.Prelude.{◌≡◌, ◌-◌, ◌^◌, drop, min, option_map, take};
ghost use Rattle.packet_core.specs.Numerals.{numeral_of};
ghost use Rattle.packet_core.specs.Words.{digits_in_front, product_of};

use packet_core::read_numeral;

/// The digits that a text begins with, and what stands after them.
pub(crate) fn split_digits(text: &str) -> (&str, &str)
    ensures digits { result.0.now ≡ take (digits_in_front text.now) text.now }
    ensures unit { result.1.now ≡ drop (digits_in_front text.now) text.now }
{
    let digits = digits_in_front(text.as_bytes());
    text.split_at(digits)
}

/// How many digits a text begins with.
pub(crate) fn digits_in_front(text: &[u8]) -> usize
    ensures { result ≡ digits_in_front text.now }
{
    text.iter().take_while(|byte| byte.is_ascii_digit()).count()
}

/// So many of a unit, and 2^64 - 1 where it is more than that. Digits that are no number have none, nor has an unknown
/// unit.
pub(crate) fn scaled(digits: &[u8], unit: Option<u64>) -> Option<u64>
    ensures { result ≡ option_map (λ n. min n (2 ^ 64 - 1)) (product_of (numeral_of digits.now) unit) }
{
    match (read_numeral(digits), unit) {
        (Some(count), Some(unit)) => Some(count.saturating_mul(unit)),
        _ => None,
    }
}
