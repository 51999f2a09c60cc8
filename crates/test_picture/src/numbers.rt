//! Numbers of pictures, worked out by hand.

use link_picture::{Axis, MAX_BINS, RateScale, WaitScale, octave};

/// Between two powers of two the scale is even: 100 is 36 of 64 steps from 64 to 128, so 6 and 576 in 1,024.
#[test]
fn octaves(rt: HostRuntime) {
    for (value, place) in [
        (1, 0),
        (2, 1_024),
        (3, 1_536),
        (100, 6_720),
        (1_000, 10_192),
        (1_024, 10_240),
        (u64::MAX, 65_535),
    ] {
        assert!(rt; value > 0);
        assert_eq!(rt; octave(value), place, "of {value}");
    }
}

/// 610 bins stay as they are. With one more each is twice as wide. A day has 864 bins of 100 seconds, so they have 200.
#[test]
fn widths_of_bins(rt: HostRuntime) {
    for (every, from, upto, width, first, count) in [
        (100_000, 0, 60_999_999, 100_000, 0, 610),
        (100_000, 0, 61_000_000, 200_000, 0, 306),
        (100_000, 250_000, 270_000, 100_000, 2, 1),
        (100_000, 0, 86_400_000_000, 200_000_000, 0, 433),
        (
            1_000,
            1_700_000_000_000_000,
            1_700_000_000_001_999,
            1_000,
            1_700_000_000_000,
            2,
        ),
    ] {
        assert!(rt; from <= upto && upto < u64::MAX);
        let axis = Axis::of(every, from, upto);
        assert_eq!(rt; axis.width, width, "from {from} to {upto}");
        assert_eq!(rt; axis.first, first);
        assert_eq!(rt; axis.count, count);
        assert!(rt; axis.count <= MAX_BINS);
    }
}

/// A scale begins at the power of ten below the least rate, which counts as a tenth of the greatest if it is above that, and
/// as its millionth if it is below that. 2^59 and 752 of 1,024 parts of it are near 10^18.
#[test]
fn scales_of_rates(rt: HostRuntime) {
    for (least, most, begin, low, high) in [
        (0, 0, 1, 0, 1_024),
        (5, 5, 1, 0, 3_328),
        (10_000_000, 10_000_000, 1_000_000, 20_385, 24_772),
        (85_600, 10_000_000, 10_000, 13_538, 24_772),
        (1, 10_000_000, 10, 3_328, 24_772),
        (
            u64::MAX,
            u64::MAX,
            1_000_000_000_000_000_000,
            61_168,
            66_559,
        ),
    ] {
        let scale = RateScale::of(least, most);
        assert_eq!(rt; scale.least, begin, "for {least} and {most}");
        assert_eq!(rt; scale.low, low);
        assert_eq!(rt; scale.high, high);
    }
}

/// A scale of rates has marks as one of delays has: also twice and five times the powers of ten, unless it is long.
#[test]
fn marks_of_rates(rt: HostRuntime) {
    let table: [(u64, &[u64]); 2] = [
        (
            1_000_000,
            &[1_000_000, 2_000_000, 5_000_000, 10_000_000, 20_000_000],
        ),
        (1, &[10, 100, 1_000, 10_000, 100_000, 1_000_000, 10_000_000]),
    ];
    for (least, wanted) in table {
        let marks = RateScale::of(least, 10_000_000)
            .marks(rt.alloc())
            .expect(&rt, "memory");
        assert_eq!(rt; marks.as_slice(), wanted, "from {least}");
    }
}

/// Few powers of ten have twice and five times these between them: up to a scale of 13,499 steps, from 6,720 for 100 us to
/// 20,219. That is 635 in 1,024 and 128 steps above 2^19.
#[test]
fn marks_of_short_waits(rt: HostRuntime) {
    let table: [(u64, &[u64]); 2] = [
        (2_592, &[100, 200, 500, 1_000, 2_000]),
        (
            849_919,
            &[
                100, 200, 500, 1_000, 2_000, 5_000, 10_000, 20_000, 50_000, 100_000, 200_000,
                500_000,
            ],
        ),
    ];
    for (longest, wanted) in table {
        let marks = WaitScale::upto(longest)
            .marks(rt.alloc())
            .expect(&rt, "memory");
        assert_eq!(rt; marks.as_slice(), wanted, "up to {longest}");
    }
}

/// The powers of ten alone with a step more. The longest wait of 10,240 packets of 1,514 bytes at 9,600 bits a second is
/// below 13,000 seconds, and that of a million packets of 65,000 bytes at 1,000 bits a second 520,000,000 seconds.
#[test]
fn marks_of_long_waits(rt: HostRuntime) {
    for (longest, count) in [
        (849_920, 4),
        (3_000_000, 5),
        (300_000_000, 7),
        (13_000_000_000, 9),
        (520_000_000_000_000, 13),
    ] {
        let marks = WaitScale::upto(longest)
            .marks(rt.alloc())
            .expect(&rt, "memory");
        assert_eq!(rt; marks.len(), count, "up to {longest}");
        let mut tens = 100u64;
        for mark in &marks {
            assert_eq!(rt; *mark, tens, "up to {longest}");
            tens = tens.saturating_mul(10);
        }
    }
}
