//! Tests over many sizes, in which no growth is refused: so no call may answer that memory is missing. The sizes stand on
//! both sides of each power of two up to 2^20, since lists and tables grow there, and one is above 2^21. No
//! clause says that a call which answers `Memory` had a growth refused. `test_allocations` refuses growths, one by one.
//! Built for a test run they take seconds. Under `rt try` some take minutes, and want its word `--seconds`.
#![tactic(auto)]

#[cfg(test)]
mod links;
#[cfg(test)]
mod programs;
#[cfg(test)]
mod schedulers;
#[cfg(test)]
mod senders;
#[cfg(test)]
mod sizes;
