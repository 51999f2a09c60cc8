//! Tests of monitors: what they see of a device's journal, and when. What is expected was worked out by hand from the
//! rules.
#![tactic(auto)]

#[cfg(test)]
mod beside;
#[cfg(test)]
mod calls;
#[cfg(test)]
mod fixtures;
#[cfg(test)]
mod kinds;
#[cfg(test)]
mod many;
#[cfg(test)]
mod monitors;
#[cfg(test)]
mod totals;
