//! The bins of time that a picture shows.

ghost use Rattle.std.specs.Prelude.{◌≡◌, ◌<◌, ◌≤◌, ◌+◌, ◌-◌, ◌/◌, IfSome, option_map};

/// The most bins that a picture shows: each has a column of it.
pub const MAX_BINS: u64 = 610;

/// The bins that a picture shows. Bin k has the moments from k times the width on, below k + 1 times the width.
#[derive(Clone, Copy, Debug, PartialEq, Eq)]
pub struct Axis {
    /// The width of a bin, in microseconds.
    pub width: u64,
    /// The number of the first bin.
    pub first: u64,
    /// How many bins there are.
    pub count: u64,
    pub ghost is_wide: { 0 < width },
}

impl Axis {
    ghost use Rattle.link_picture.specs.Axes.{IsAxis, bin_count, width_near};

    /// The bins from that of one moment to that of another, each `every` microseconds wide. Where these are more than
    /// `MAX_BINS`, each is 2, 5, 10, 20, 50 .. times as wide, by the least of these numbers that serves.
    #[tactic(auto, using(crate::proofs::AxisLemmas::turns))]
    pub fn of(every: u64, from: u64, upto: u64) -> Axis
        requires order { from ≤ upto }
        requires room { upto < u64.MAX }
        ensures axis { IsAxis every from upto result }
        ensures few { result.count ≤ MAX_BINS }
    {
        let mut tens = every.max(1);
        for _turn in 0..20u32 {
            if let Some(axis) = Axis::near(tens, from, upto) {
                return axis;
            }
            tens = tens.saturating_mul(10);
        }
        Axis::with_width(u64::MAX, from, upto)
    }

    /// The bins of the first of a width, twice and five times that of which there are few enough.
    fn near(width: u64, from: u64, upto: u64) -> Option<Axis>
        requires wide { 0 < width }
        requires order { from ≤ upto }
        requires room { upto < u64.MAX }
        ensures width { option_map (λ axis. axis.width) result ≡ width_near width from upto }
        ensures first { IfSome result (λ axis. axis.first ≡ from / axis.width) }
        ensures last { IfSome result (λ axis. axis.first + axis.count ≡ upto / axis.width + 1) }
        ensures few { IfSome result (λ axis. axis.count ≤ MAX_BINS) }
    {
        let once = Axis::with_width(width, from, upto);
        if once.count <= MAX_BINS {
            return Some(once);
        }
        let twice = Axis::with_width(width.saturating_mul(2), from, upto);
        if twice.count <= MAX_BINS {
            return Some(twice);
        }
        let five = Axis::with_width(width.saturating_mul(5), from, upto);
        if five.count <= MAX_BINS {
            return Some(five);
        }
        None
    }

    /// The bins of that width.
    fn with_width(width: u64, from: u64, upto: u64) -> Axis
        requires wide { 0 < width }
        requires order { from ≤ upto }
        requires room { upto < u64.MAX }
        ensures width { result.width ≡ width }
        ensures first { result.first ≡ from / width }
        ensures last { result.first + result.count ≡ upto / width + 1 }
        ensures count { result.count ≡ bin_count width from upto }
    {
        let first = from / width;
        Axis {
            width,
            first,
            count: upto / width - first + 1,
        }
    }
}
