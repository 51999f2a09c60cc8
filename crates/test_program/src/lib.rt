//! Tests of the program where a run of it from outside shows nothing: readers and writers that fail, faults that no
//! trace brings about, seeds as bytes, the texts of help, senders that are held up, and a monitor at the end of a run.
//! `.ci/cli-table` and `examples/` have the other runs. Where a step fails the test ends there: each `?` would be one
//! more way out of a function.
#![tactic(auto)]

#[cfg(test)]
mod faults;
#[cfg(test)]
mod gates;
#[cfg(test)]
mod help;
#[cfg(test)]
mod lanes;
#[cfg(test)]
mod locked;
#[cfg(test)]
mod monitors;
#[cfg(test)]
mod packets;
#[cfg(test)]
mod runs;
#[cfg(test)]
mod seeds;
#[cfg(test)]
mod streams;
#[cfg(test)]
mod texts;
#[cfg(test)]
mod writers;
