//! Tests of locked ports: by one thread, what each call answers, what a sender asks for and does, and what a settling
//! gives; by several, that senders run at once. What is expected was worked out by hand from the rules.
#![tactic(auto)]

#[cfg(test)]
mod calls;
#[cfg(test)]
mod fixtures;
#[cfg(test)]
mod gates;
#[cfg(test)]
mod one_seat;
#[cfg(test)]
mod seats;
#[cfg(test)]
mod senders;
#[cfg(test)]
mod settling;
#[cfg(test)]
mod together;
#[cfg(test)]
mod two_seats;
