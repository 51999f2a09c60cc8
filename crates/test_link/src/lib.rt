//! Tests of links: the moments at which a link asks, and what becomes of each packet, in small runs. What is expected was
//! worked out by hand or in exact fractions from the link's law.
#![tactic(auto)]

#[cfg(test)]
mod fields;
#[cfg(test)]
mod recorders;
#[cfg(test)]
mod runs;
#[cfg(test)]
mod times;
#[cfg(test)]
mod worked;
