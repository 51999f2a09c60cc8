//! Logarithmic scales, in whole numbers.

ghost use Rattle.std.specs.Prelude.{◌≡◌, ◌<◌, ◌≤◌, ◌*◌, ◌+◌, ◌^◌};
ghost use Rattle.link_picture.specs.Octave.{IsPowerOfTen, octave_of};

/// Where a value lies on a scale that has 1,024 steps from each power of two to the next, and is even between them. So
/// a picture has a logarithmic scale without fractions.
pub fn octave(value: u64) -> u64
    requires { 0 < value }
    ensures value { result ≡ octave_of value }
    ensures bound { result < 2 ^ 16 + 1024 }
{
    let exponent = value.ilog2();
    let power = 2u64.pow(exponent);
    let part = u128::from(value - power) * 1_024 / u128::from(power);
    1_024 * u64::from(exponent) + part as u64
}

/// The greatest power of ten that isn't above a number.
pub(crate) fn power_of_ten_upto(number: u64) -> u64
    requires { 0 < number }
    ensures power { IsPowerOfTen result }
    ensures some { 0 < result }
    ensures upto { result ≤ number }
    ensures next { number < 10 * result }
{
    10u64.pow(number.ilog10())
}
