//! Traces that become reports: `fqsim trace`.

use crate::Fault;
use crate::digest::Digest;
use crate::random::Random;
use crate::texts::{Kinds, Lengths, Shape, text};
use program_core::program;
use std::alloc::Global;
use std::sync::Wait;
use std::thread::Threads;

/// A trace as most are: packets of five-tuples of which few are busy, at a load near the link's.
const BUSY: Shape = Shape {
    rows: 500_000,
    kinds: Kinds::Four,
    lengths: Lengths::Mixed,
    tuples: 511,
    few_are_busy: true,
    arrivals: 130,
    burst: 0,
    gap: 127,
};

/// The same above the link's load.
const LOADED: Shape = Shape {
    arrivals: 150,
    ..BUSY
};

/// The same of addresses of both kinds, and of more five-tuples.
const BOTH: Shape = Shape {
    kinds: Kinds::Both,
    tuples: 4_095,
    ..BUSY
};

/// A scan: five-tuples that seldom come again.
const SCAN: Shape = Shape {
    rows: 400_000,
    tuples: 32_767,
    few_are_busy: false,
    ..BUSY
};

/// The same of addresses of both kinds.
const SCAN_OF_BOTH: Shape = Shape {
    kinds: Kinds::Both,
    ..SCAN
};

/// Twice as many packets come as go, most of them short.
const OVERLOAD: Shape = Shape {
    lengths: Lengths::Short,
    tuples: 2_047,
    arrivals: 171,
    ..SCAN
};

/// A run of `fqsim`, and its trace.
struct Job {
    words: &'static [&'static str],
    shape: Shape,
}

/// Traces as most are: by the hash, by the port, above the link's load, and of both kinds of addresses.
static USUAL: [Job; 4] = [
    Job {
        words: &["trace"],
        shape: BUSY,
    },
    Job {
        words: &["trace", "classify", "dport"],
        shape: BUSY,
    },
    Job {
        words: &["trace", "limit", "1000"],
        shape: LOADED,
    },
    Job {
        words: &["trace", "noecn"],
        shape: BOTH,
    },
];

/// Awkward traces: a scan of more five-tuples than there are places for, of both kinds of addresses too, an overload of
/// short packets under a limit of bytes, and turns shorter than a packet over many flows.
static AWKWARD: [Job; 4] = [
    Job {
        words: &["trace"],
        shape: SCAN,
    },
    Job {
        words: &["trace", "flows", "4096"],
        shape: SCAN_OF_BOTH,
    },
    Job {
        words: &["trace", "memory_limit", "100000", "drop_batch", "1"],
        shape: OVERLOAD,
    },
    Job {
        words: &[
            "trace", "quantum", "300", "flows", "65536", "interval", "20ms",
        ],
        shape: SCAN,
    },
];

/// The digest of the reports of traces as most are.
pub(crate) fn usual<H: Threads + Wait + Sync>(
    rt: &H,
    alloc: Global,
    seed: u64,
    parts: u32,
) -> Result<u64, Fault> {
    reports(rt, alloc, &USUAL, parts, &mut Random::of(seed, 1))
}

/// The digest of the reports of awkward traces.
pub(crate) fn awkward<H: Threads + Wait + Sync>(
    rt: &H,
    alloc: Global,
    seed: u64,
    parts: u32,
) -> Result<u64, Fault> {
    reports(rt, alloc, &AWKWARD, parts, &mut Random::of(seed, 2))
}

/// The digest of the reports of jobs, whose traces are shorter by so many parts.
fn reports<H: Threads + Wait + Sync>(
    rt: &H,
    alloc: Global,
    jobs: &[Job],
    parts: u32,
    random: &mut Random,
) -> Result<u64, Fault> {
    let mut digest = Digest::new();
    for job in jobs {
        let trace = text(alloc, &job.shape.shorter(parts), random)?;
        let report = run(rt, alloc, job.words, &trace)?;
        digest.add_bytes(&report);
    }
    Ok(digest.value())
}

/// What `fqsim` writes for words and an input.
pub(crate) fn run<H: Threads + Wait + Sync>(
    rt: &H,
    alloc: Global,
    words: &[&str],
    input: &[u8],
) -> Result<Vec<u8>, Fault> {
    let mut written = Vec::new(alloc);
    let mut faults = Vec::new(alloc);
    let mut reader = input;
    let status = program(rt, alloc, words, &mut reader, &mut written, &mut faults);
    if status != 0 {
        return Err(Fault::Status(status));
    }
    Ok(written)
}
