//! Calls of the libraries that none of the programs makes, over a trace from standard input. Scripts count their
//! instructions, of which no clause speaks.
//!
//! Usage: test_costs packets|series|settle SEED < trace.csv
#![tactic(auto)]

mod ports;
mod tables;

use command_core::read_seed;
use packet_core::Seed;
use port_core::Why;
use sched_core::{Refusal, Step};
use std::alloc::{AllocError, AllocFailed, Global};
use std::env::{self, Env};
use std::io::{self, Read};
use std::process::ExitCode;
use std::sync::Wait;
use thiserror::Error;
use trace_core::{TraceFault, read_trace};

/// Why there is no answer.
#[derive(Debug, Drop, Error)]
pub(crate) enum Fault {
    /// The words name no call or no seed.
    #[error("usage: test_costs packets|series|settle SEED < trace.csv")]
    Words,
    /// The trace has that fault.
    #[error("{0:?}")]
    Trace(TraceFault),
    /// An allocation was refused.
    #[error("memory")]
    Memory,
    /// The port refused a packet of the trace.
    #[error("{0:?}")]
    Refused(Refusal),
    /// The port was settled, or wasn't for that reason.
    #[error("settled but for {0:?}")]
    Settled(Option<Why>),
    /// The words couldn't be read, or the answer couldn't be written.
    #[error("input or output")]
    Stream,
}

impl From<AllocError> for Fault {
    fn from(_: AllocError) -> Fault {
        Fault::Memory
    }
}

impl<T: Drop> From<AllocFailed<T>> for Fault {
    fn from(_: AllocFailed<T>) -> Fault {
        Fault::Memory
    }
}

impl From<TraceFault> for Fault {
    fn from(fault: TraceFault) -> Fault {
        Fault::Trace(fault)
    }
}

impl From<Refusal> for Fault {
    fn from(why: Refusal) -> Fault {
        Fault::Refused(why)
    }
}

impl From<io::Error> for Fault {
    fn from(_: io::Error) -> Fault {
        Fault::Stream
    }
}

fn main(rt: HostRuntime) -> ExitCode {
    match answer(&rt, &mut rt.stdin()) {
        Ok(()) => ExitCode::SUCCESS,
        Err(fault) => {
            let _ = eprintln!(rt; "test_costs: {fault}");
            ExitCode::FAILURE
        }
    }
}

/// Makes the call that the words name, and prints a number of what came of it.
fn answer<H: Env + AllocGlobal + Print + Wait>(
    rt: &H,
    reader: &mut impl Read,
) -> Result<(), Fault> {
    let alloc = rt.alloc();
    let words: Vec<String> = env::args(rt)?.skip(1).collect(alloc)?;
    let name = words.first().ok_or(Fault::Words)?.as_str();
    let seed = words.get(1).ok_or(Fault::Words)?;
    let seed = read_seed(seed.as_str()).ok_or(Fault::Words)?;
    let steps = read_trace(alloc, reader)?;
    let count = count_of(rt, alloc, name, seed, &steps)?;
    println!(rt; "{name}: {count}")?;
    Ok(())
}

/// What came of the call of that name.
fn count_of<R: Wait>(
    rt: &R,
    alloc: Global,
    name: &str,
    seed: Seed,
    steps: &[Step],
) -> Result<usize, Fault> {
    match name {
        "packets" => tables::packets(alloc, &seed, steps),
        "series" => tables::series(alloc, &seed, steps),
        "settle" => ports::unsettled(rt, alloc, seed, steps),
        _ => Err(Fault::Words),
    }
}
