//! Numbers in decimal digits.
ghost use Rattle.std.specs.Prelude.{◌≡◌, []};
ghost use Rattle.std.specs.Option.{option_map_or};
ghost use Rattle.std.specs.Fmt.{decimal};

use itoa::write_digits;
use std::marker::Model;

/// The most decimal digits that a number of 64 bits has.
const MAX_DIGITS: usize = 20;

/// A number in decimal digits, without leading zeros. It takes no memory from an allocator.
#[derive(Drop)]
pub struct Digits {
    bytes: [u8; MAX_DIGITS],
    start: usize,
}

impl Model for Digits {
    ghost use Rattle.std.specs.Prelude.{ℕ, List, ◌≤◌, drop};
    ghost use Rattle.text_core.specs.declared.digits.TheConstants.{MAX_DIGITS};

    ghost Value = { List ℕ };

    ghost view = { λ digits. drop digits.start digits.bytes };

    ghost invariant = { λ digits. digits.start ≤ MAX_DIGITS };
}

impl Digits {
    /// The digits of a value.
    pub fn of(value: u64) -> Digits
        ensures { result ≡ decimal value }
    {
        let mut bytes = [0; MAX_DIGITS];
        let start = write_digits(value, &mut bytes, MAX_DIGITS);
        Digits { bytes, start }
    }

    /// The digits of a value, and no digit where there is none.
    pub fn of_any(value: Option<u64>) -> Digits
        ensures { result ≡ option_map_or decimal value [] }
    {
        match value {
            Some(value) => Digits::of(value),
            None => Digits::none(),
        }
    }

    /// No digit.
    pub fn none() -> Digits
        ensures { result ≡ [] }
    {
        Digits {
            bytes: [0; MAX_DIGITS],
            start: MAX_DIGITS,
        }
    }

    /// The digits, the first of which isn't a zero unless it is the only one.
    pub fn as_bytes(&self) -> &[u8]
        ensures { result.now ≡ self.now }
    {
        &self.bytes[self.start..]
    }
}
