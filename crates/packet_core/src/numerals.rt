//! The reading of whole numbers.

ghost use Rattle.std.specs.Prelude.{◌≡◌, ◌-◌, ◌^◌, min, option_map};
ghost use Rattle.packet_core.specs.Numerals.{numeral_of};

/// The value of a text of one or more decimal digits, and 2^64 - 1 where it is more than that. A text with any other
/// byte has none, nor has an empty one.
///
/// It goes on behind a value that is too large, so that a byte that is no digit is told from a number that is out of
/// every range.
pub fn read_numeral(text: &[u8]) -> Option<u64>
    ensures { result ≡ option_map (λ n. min n (2 ^ 64 - 1)) (numeral_of text.now) }
{
    if text.is_empty() {
        return None;
    }
    let mut value = 0u64;
    for byte in text {
        let digit = char::from(*byte).to_digit(10)?;
        value = value.saturating_mul(10).saturating_add(u64::from(digit));
    }
    Some(value)
}
