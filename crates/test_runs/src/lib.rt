//! Tests of engines and of runs, which stand on several crates: what no report of a run shows, as the steps that are
//! stored, the answer to each step, and a source or a sink that fails. What is expected was worked out by hand from the
//! rules. `test_sched` has those of schedulers, and `examples/` the runs that their reports judge.
#![tactic(auto)]

#[cfg(test)]
mod embedders;
#[cfg(test)]
mod engines;
#[cfg(test)]
mod many_flows;
#[cfg(test)]
mod packets;
#[cfg(test)]
mod runs;
