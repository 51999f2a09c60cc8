//! Roots and spacings at their edges.

ghost use Rattle.std.specs.Prelude.{◌+◌, ◌^◌, ◌<◌, ◌≤◌};

use codel_core::{root, spacing};
use std::process::Abort;

#[test]
fn roots(rt: HostRuntime) {
    have_roots(&rt, &ROOTS);
}

fn have_roots(rt: &impl Abort, table: &[(u128, u64)]) {
    for &(square, expected) in table {
        assert_eq!(rt; root(square), expected, "of {square}");
    }
}

/// A number, and its root.
const ROOTS: [(u128, u64); 7] = [
    (0, 0),
    (1, 1),
    (3, 1),
    (4, 2),
    (18446744073709551615, 4294967295),
    (18446744073709551616, 4294967296),
    (u128::MAX, 18446744073709551615),
];

#[test]
fn spacings(rt: HostRuntime) {
    have_spacings(&rt, &SPACINGS);
}

fn have_spacings(rt: &impl Abort, table: &[(u64, u64, u64)]) {
    for &(interval, count, expected) in table {
        assert!(rt; 1 <= interval);
        assert!(rt; interval <= 1000000000);
        assert!(rt; 1 <= count);
        assert!(rt; count <= 1 << 62);
        assert_eq!(rt;
            spacing(interval, count),
            expected,
            "of {interval} by {count}"
        );
    }
}

/// An interval, a count, and the spacing.
const SPACINGS: [(u64, u64, u64); 8] = [
    (100000, 2, 70710),
    (100000, 3, 57735),
    (100000, 4, 50000),
    (1, 2, 0),
    (1000000000, 1, 1000000000),
    (1000000000, 2, 707106781),
    (100000, 10000000000, 1),
    (100000, 10000000001, 0),
];
