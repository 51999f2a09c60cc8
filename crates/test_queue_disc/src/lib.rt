//! Tests of queue discs: each tag comes back once, drops wait to be read, why an enqueue is refused, and which
//! parameters can be had. What is expected was worked out by hand from the rules.
#![tactic(auto)]

#[cfg(test)]
mod buffers;
#[cfg(test)]
mod flushes;
#[cfg(test)]
mod queue_discs;
#[cfg(test)]
mod ranges;
#[cfg(test)]
mod reading;
#[cfg(test)]
mod refusals;
#[cfg(test)]
mod renewals;
