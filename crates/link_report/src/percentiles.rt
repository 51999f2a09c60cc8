//! Percentiles, by nearest rank.

ghost use Rattle.std.specs.Prelude.{ℕ, ◌^◌, ◌<◌, ◌≤◌, length};
ghost use Rattle.std.specs.List.Sorted.{IsNonDecreasing};
ghost use Rattle.link_report.specs.Percentiles.{IsPercentile};

/// The least member of a list such that at least `percent` in 100 members are at most it. The list ascends.
pub fn percentile(sorted: &[u64], percent: u8) -> u64
    requires some { 0 < length sorted.now }
    requires few { length sorted.now < 2 ^ 32 }
    requires range { percent ≤ 100 }
    requires sorted { IsNonDecreasing sorted.now }
    ensures { IsPercentile percent sorted.now result }
{
    let wanted = sorted.len() * usize::from(percent);
    sorted[wanted.div_ceil(100).saturating_sub(1)]
}
