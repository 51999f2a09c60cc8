//! Tests of lanes: what goes through them, when they are full, and what a device refuses. What is expected was worked
//! out by hand from the rules.
#![tactic(auto)]

#[cfg(test)]
mod calls;
#[cfg(test)]
mod fixtures;
#[cfg(test)]
mod gates;
#[cfg(test)]
mod lanes;
#[cfg(test)]
mod senders;
