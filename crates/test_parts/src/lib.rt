//! Tests of the scheduler's parts, each alone: the words of parameters, the choice of a flow, roots and spacings,
//! CoDel's drops and marks, and the queues and lists of flows. What is expected was worked out by hand from the rules,
//! or by programs that are no part of this repository.
#![tactic(auto)]

#[cfg(test)]
mod codel_runs;
#[cfg(test)]
mod flow_lists;
#[cfg(test)]
mod flow_numbers;
#[cfg(test)]
mod flow_queues;
#[cfg(test)]
mod packets;
#[cfg(test)]
mod parameters;
#[cfg(test)]
mod places;
#[cfg(test)]
mod queued;
#[cfg(test)]
mod spacings;
