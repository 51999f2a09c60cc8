//! Tables of a journal whose five-tuples are found by a hash of a secret seed.

use crate::Fault;
use link_report::{Packets, series_text_with_seed};
use packet_core::{Params, Seed};
use sched_core::{Engine, Event, Step, run_steps};
use std::alloc::Global;

/// The engine of a run of these steps, with the standard parameters.
fn run(alloc: Global, seed: &Seed, steps: &[Step]) -> Result<Engine, Fault> {
    Ok(run_steps(alloc, Params::standard(), *seed, steps)?.engine)
}

/// How many five-tuples the packets have.
pub(crate) fn packets(alloc: Global, seed: &Seed, steps: &[Step]) -> Result<usize, Fault> {
    let engine = run(alloc, seed, steps)?;
    let events: &[Event] = engine.events();
    Ok(Packets::with_seed(alloc, seed, events)?.tuples().len())
}

/// How many bytes the table has, with one bin for all.
pub(crate) fn series(alloc: Global, seed: &Seed, steps: &[Step]) -> Result<usize, Fault> {
    let engine = run(alloc, seed, steps)?;
    Ok(series_text_with_seed(alloc, seed, 0, engine.events(), None)?.len())
}
