//! The reading of whole numbers that are mostly short.
ghost use Rattle.std.specs.Prelude.{◌≡◌, ◌-◌, ◌^◌, min, option_map};
ghost use Rattle.packet_core.specs.Numerals.{numeral_of};

use packet_core::read_numeral;

/// Every number of so many digits is below 2^64.
const SHORT: usize = 19;

/// The value of a text of decimal digits, as `read_numeral` reads it.
// A short one is summed up with no look at 2^64, which takes half of the time.
pub(crate) fn read_number(text: &[u8]) -> Option<u64>
    ensures { result ≡ option_map (λ n. min n (2 ^ 64 - 1)) (numeral_of text.now) }
{
    if text.is_empty() || text.len() > SHORT {
        return read_numeral(text);
    }
    let mut value = 0u64;
    for byte in text {
        let digit = char::from(*byte).to_digit(10)?;
        value = value * 10 + u64::from(digit);
    }
    Some(value)
}
