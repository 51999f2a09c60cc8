//! The jobs that users of this software wait for, each over input that it makes itself from a seed: traces that become
//! reports, arrivals that go through a link, packets through an embedded scheduler, and senders in threads. It prints a
//! digest of all results of a job, and no times: `bench/run` times it.
#![tactic(auto)]

mod digest;
mod links;
mod packets;
mod random;
mod senders;
mod shaped;
mod texts;
mod traces;

use std::alloc::{AllocError, AllocFailed, Global};
use std::env::{self, Env};
use std::io;
use std::process::ExitCode;
use std::sync::Wait;
use std::thread::Threads;
use thiserror::Error;

/// Why there is no digest.
#[derive(Debug, Drop, Error)]
pub(crate) enum Fault {
    /// The words name no job.
    #[error("usage: workloads all|trace|scan|link|shaper|senders SEED [PARTS]")]
    Words,
    /// A growth was refused.
    #[error("memory")]
    Memory,
    /// A program under test ended with this status.
    #[error("a program ended with status {0}")]
    Status(u8),
    /// The scheduler under test refused a step that it has to accept, or a packet couldn't be made.
    #[error("a step was refused")]
    Refused,
    /// The words couldn't be read, or the digest couldn't be written.
    #[error("input or output")]
    Stream,
}

impl From<AllocError> for Fault {
    fn from(_: AllocError) -> Fault {
        Fault::Memory
    }
}

impl<T: Drop> From<AllocFailed<T>> for Fault {
    fn from(_: AllocFailed<T>) -> Fault {
        Fault::Memory
    }
}

impl From<io::Error> for Fault {
    fn from(_: io::Error) -> Fault {
        Fault::Stream
    }
}

fn main(rt: HostRuntime) -> ExitCode {
    match workloads(&rt) {
        Ok(()) => ExitCode::SUCCESS,
        Err(fault) => {
            let _ = eprintln!(rt; "workloads: {fault}");
            ExitCode::FAILURE
        }
    }
}

/// Runs the job that the words name: its name, a seed, and how many times smaller the inputs are than usual.
fn workloads<H: Env + AllocGlobal + Print + Threads + Wait + Sync>(rt: &H) -> Result<(), Fault> {
    let alloc = rt.alloc();
    let words: Vec<String> = env::args(rt)?.skip(1).collect(alloc)?;
    let Some(name) = words.first() else {
        return Err(Fault::Words);
    };
    let seed = number(words.get(1)).ok_or(Fault::Words)?;
    let parts = match words.get(2) {
        Some(word) => number(Some(word)).ok_or(Fault::Words)?.max(1),
        None => 1,
    };
    if name.as_str() != "all" {
        let digest = digest_of(rt, alloc, name, seed, parts)?;
        println!(rt; "{name} {digest}")?;
        return Ok(());
    }
    for name in ["trace", "scan", "link", "shaper", "senders"] {
        let digest = digest_of(rt, alloc, name, seed, parts)?;
        println!(rt; "{name} {digest}")?;
    }
    Ok(())
}

/// The digest of a job.
fn digest_of<H: Threads + Wait + Sync>(
    rt: &H,
    alloc: Global,
    name: &str,
    seed: u32,
    parts: u32,
) -> Result<u64, Fault> {
    let seed = u64::from(seed);
    match name {
        "trace" => traces::usual(rt, alloc, seed, parts),
        "scan" => traces::awkward(rt, alloc, seed, parts),
        "link" => links::tables(alloc, seed, parts),
        "shaper" => shaped::rounds(alloc, seed, parts),
        "senders" => senders::runs(rt, alloc, seed, parts),
        _ => Err(Fault::Words),
    }
}

/// A number below 2^32.
fn number(word: Option<&String>) -> Option<u32> {
    word?.as_str().parse::<u32>().ok()
}
