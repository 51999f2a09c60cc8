//! The square root of a number of up to 128 bits.

ghost use Rattle.codel_core.specs.Root.{IsRoot};

use crate::narrow::narrow_root;

/// The square root of `v`, rounded down, for every `v`.
///
/// The root of a `v` above 64 bits is twice the root of a quarter of `v`, or one more: a quarter of a quarter and so on
/// has 64 bits, so it calls itself at most 32 times.
pub fn root(v: u128) -> u64
    ensures { IsRoot v result }
{
    if v <= u64::MAX as u128 {
        return narrow_root(v as u64);
    }
    let even = root(v / 4) * 2;
    let odd = even + 1;
    if odd as u128 * odd as u128 <= v {
        odd
    } else {
        even
    }
}
