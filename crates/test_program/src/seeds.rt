//! Seeds, read from 32 digits.

use command_core::{ZERO_SEED, read_seed};
use packet_core::Seed;
use std::process::Abort;

/// Texts that are no seeds.
static WRONG: [&str; 16] = [
    "",
    "0",
    "000102030405060708090a0b0c0d0e0",
    "000102030405060708090a0b0c0d0e0f0",
    "000102030405060708090a0b0c0d0e0f00",
    "g00102030405060708090a0b0c0d0e0f",
    "0g0102030405060708090a0b0c0d0e0f",
    "000102030405060708090a0b0c0d0e0g",
    "0x0102030405060708090a0b0c0d0e0f",
    "+00102030405060708090a0b0c0d0e0f",
    " 00102030405060708090a0b0c0d0e0f",
    "@00102030405060708090a0b0c0d0e0f",
    "`00102030405060708090a0b0c0d0e0f",
    "/00102030405060708090a0b0c0d0e0f",
    ":00102030405060708090a0b0c0d0e0f",
    "éééééééééééééééé",
];

#[test]
fn seeds_are_read(rt: HostRuntime) {
    let rising = [0, 1, 2, 3, 4, 5, 6, 7, 8, 9, 10, 11, 12, 13, 14, 15];
    let digits = "000102030405060708090a0b0c0d0e0f";
    assert_eq!(rt; read_seed(digits), Some(Seed(rising)));
    let zeros = "00000000000000000000000000000000";
    assert_eq!(rt; read_seed(zeros), Some(ZERO_SEED));
    let high = "fF9aA0000000000000000000000000f0";
    let bytes = [255, 154, 160, 0, 0, 0, 0, 0, 0, 0, 0, 0, 0, 0, 0, 240];
    assert_eq!(rt; read_seed(high), Some(Seed(bytes)));
}

#[test]
fn wrong_seeds_refused(rt: HostRuntime) {
    are_refused(&rt, &WRONG);
}

/// None of the texts is a seed.
fn are_refused<R: Abort>(rt: &R, texts: &[&str]) {
    for text in texts {
        assert_eq!(rt; read_seed(text), None, "{text}");
    }
}
