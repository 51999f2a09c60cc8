//! Captures that go through a link: `maltlink`.

use crate::Fault;
use crate::digest::Digest;
use crate::random::Random;
use crate::texts::{Kinds, Lengths, Shape, text};
use link_command::{Terminals, program};
use std::alloc::Global;

/// Arrivals in bursts of eight, some 20 Mbit/s of them, of five-tuples of which few are busy.
const BURSTS: Shape = Shape {
    rows: 220_000,
    kinds: Kinds::Four,
    lengths: Lengths::Mixed,
    tuples: 511,
    few_are_busy: true,
    arrivals: 256,
    burst: 7,
    gap: 4_095,
};

/// The same of addresses of both kinds.
const BURSTS_OF_BOTH: Shape = Shape {
    kinds: Kinds::Both,
    ..BURSTS
};

/// A run of `maltlink`, and its arrivals.
struct Job {
    words: &'static [&'static str],
    shape: Shape,
}

/// The tables and the picture of links.
static TABLES: [Job; 4] = [
    Job {
        words: &["--rate", "20mbit", "--compare", "fifo", "--write", "flows"],
        shape: BURSTS,
    },
    Job {
        words: &["--rate", "15mbit", "--write", "packets", "limit", "1000"],
        shape: BURSTS,
    },
    Job {
        words: &["--rate", "20mbit", "--compare", "fifo", "--write", "series"],
        shape: BURSTS,
    },
    Job {
        words: &["--rate", "12mbit", "--compare", "fifo", "--write", "svg"],
        shape: BURSTS_OF_BOTH,
    },
];

/// The digest of the tables and of the picture of links, each of arrivals of its own, which are fewer by so many parts.
pub(crate) fn tables(alloc: Global, seed: u64, parts: u32) -> Result<u64, Fault> {
    let mut digest = Digest::new();
    let mut random = Random::of(seed, 3);
    for job in &TABLES {
        let arrivals = text(alloc, &job.shape.shorter(parts), &mut random)?;
        let table = run(alloc, job.words, &arrivals)?;
        digest.add_bytes(&table);
    }
    Ok(digest.value())
}

/// What `maltlink` writes for words and an input.
fn run(alloc: Global, words: &[&str], input: &[u8]) -> Result<Vec<u8>, Fault> {
    let mut written = Vec::new(alloc);
    let mut faults = Vec::new(alloc);
    let mut reader = input;
    let terminals = Terminals {
        input: false,
        faults: false,
    };
    let status = program(
        alloc,
        words,
        &mut reader,
        &mut written,
        &mut faults,
        terminals,
    );
    if status != 0 {
        return Err(Fault::Status(status));
    }
    Ok(written)
}
