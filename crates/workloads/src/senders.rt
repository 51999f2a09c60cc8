//! Senders in threads: `fqsim locked` and `fqsim lanes`. No packet is dropped. So the rows of five-tuples and of senders
//! are the same in every run, in some order. All totals but the marks are, too, and the number of rows of each kind.

use crate::Fault;
use crate::digest::Digest;
use crate::random::Random;
use crate::texts::{Kinds, Lengths, Shape, text};
use crate::traces::run;
use std::alloc::Global;
use std::sync::Wait;
use std::thread::Threads;

/// Packets that all take part in ECN, so that CoDel drops none, at a load near the link's.
const MARKED: Shape = Shape {
    rows: 330_000,
    kinds: Kinds::Four,
    lengths: Lengths::Marked,
    tuples: 511,
    few_are_busy: true,
    arrivals: 130,
    burst: 0,
    gap: 127,
};

/// The place of the packets that CoDel marked in the row of totals. It depends on the schedule.
const MARKS: usize = 8;

/// The words of runs of `fqsim`.
static WORDS: [[&str; 5]; 4] = [
    ["locked", "--senders", "2", "limit", "1048576"],
    ["locked", "--senders", "4", "limit", "1048576"],
    ["lanes", "--senders", "2", "limit", "1048576"],
    ["lanes", "--senders", "4", "limit", "1048576"],
];

/// The digest of what two and four senders had accepted and sent.
pub(crate) fn runs<H: Threads + Wait + Sync>(
    rt: &H,
    alloc: Global,
    seed: u64,
    parts: u32,
) -> Result<u64, Fault> {
    let mut random = Random::of(seed, 4);
    let mut digest = Digest::new();
    for words in &WORDS {
        let trace = text(alloc, &MARKED.shorter(parts), &mut random)?;
        let journal = run(rt, alloc, words, &trace)?;
        digest.add(sum_of_rows(&journal));
    }
    Ok(digest.value())
}

/// The sum of the digests of all rows, whatever their order.
fn sum_of_rows(journal: &[u8]) -> u64 {
    let mut sum = 0u64;
    for row in journal.split(|byte| *byte == b'\n') {
        sum = sum.wrapping_add(digest_of_row(row));
    }
    sum
}

/// The digest of what no schedule changes of a row: all of the row of a five-tuple or of a sender, all totals but the
/// marks, and of other rows their kind. So their number counts.
fn digest_of_row(row: &[u8]) -> u64 {
    let mut digest = Digest::new();
    if row.starts_with(b"tuple,") || row.starts_with(b"sender,") {
        digest.add_bytes(row);
        return digest.value();
    }
    let are_totals = row.starts_with(b"totals,");
    for (place, field) in row.split(|byte| *byte == b',').enumerate() {
        if place > 0 && !are_totals {
            break;
        }
        if place != MARKS {
            digest.add_bytes(field);
        }
    }
    digest.value()
}
