//! Tests of schedulers, which stand on several crates: what no report of a run shows, as turns, comparisons, CoDel's
//! state, and refused steps that change nothing. What is expected was worked out by hand from the rules.
//! `test_runs` has those of engines and of whole runs, and `examples/` the runs that their reports judge.
#![tactic(auto)]

#[cfg(test)]
mod calls;
#[cfg(test)]
mod comparisons;
#[cfg(test)]
mod flow_numbers;
#[cfg(test)]
mod flow_states;
#[cfg(test)]
mod journals;
#[cfg(test)]
mod recorders;
#[cfg(test)]
mod refusals;
#[cfg(test)]
mod schedulers;
#[cfg(test)]
mod shares;
#[cfg(test)]
mod turns;
