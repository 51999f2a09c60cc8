//! The control law: how far apart the drops of a queue stand.

ghost use Rattle.std.specs.Prelude.{◌^◌, ◌≤◌};
ghost use Rattle.codel_core.specs.Spacing.{IsSpacing};

use crate::narrow::narrow_root;

/// The time from one drop to the next while a queue drops, in whole microseconds: `interval` /
/// sqrt(`count`), rounded down (RFC 8289, section 5, `control_law`).
///
/// It is worked out anew, and exactly, for each drop. An inverse root that is carried from one drop to the next and
/// refined by a step of Newton's would cost less, but it is off for a while where the count jumps, as it does whenever
/// dropping begins again.
///
/// `interval` is in microseconds, up to 1,000 seconds, and `count` is the queue's count of drops.
pub fn spacing(interval: u64, count: u64) -> u64
    requires interval_range { (1 ≤ interval) × (interval ≤ 1000000000) }
    requires count_range { (1 ≤ count) × (count ≤ 2 ^ 62) }
    ensures { IsSpacing interval count result }
{
    narrow_root(interval * interval / count)
}
