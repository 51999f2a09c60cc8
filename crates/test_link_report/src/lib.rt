//! Tests of the tables of a link, and of what its program reports. The texts of tables were computed by a script of its own
//! from a list of packets with their fates, without the crates: sorted delays, and the nearest rank by whole numbers.
#![tactic(auto)]

#[cfg(test)]
mod calls;
#[cfg(test)]
mod explanations;
#[cfg(test)]
mod faults;
#[cfg(test)]
mod journals;
#[cfg(test)]
mod notes;
#[cfg(test)]
mod rates;
#[cfg(test)]
mod rows;
#[cfg(test)]
mod runs;
#[cfg(test)]
mod tables;
#[cfg(test)]
mod texts;
#[cfg(test)]
mod words;
