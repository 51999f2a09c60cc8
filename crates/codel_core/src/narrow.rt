//! The square root of a number of 64 bits.

ghost use Rattle.codel_core.specs.Root.{IsRoot};

/// The square root of `v`, rounded down, for every `v` of 64 bits.
///
/// It finds the root's binary digits one by one, the highest first, with no division: one step for
/// each two bits of `v` after the first, so at most 31. Below, `unit` is the square of the place of
/// the digit found last, `root` is the digits found, as a number, times `unit`, and `rest` is what
/// `v` is above the square of that number times `unit`.
pub(crate) fn narrow_root(v: u64) -> u64
    ensures { IsRoot v result }
{
    if v == 0 {
        return 0;
    }
    let mut unit = 1u64 << (v.ilog2() / 2 * 2);
    let mut root = unit;
    let mut rest = v - unit;
    while unit > 1 {
        unit /= 4;
        let trial = root + unit;
        root /= 2;
        if rest >= trial {
            rest -= trial;
            root += unit;
        }
    }
    root
}
