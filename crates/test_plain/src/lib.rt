//! Long random runs of the scheduler beside a plain one, which is the rules as they are written: lists that are scanned,
//! and packets that are copied (RFC 8290, sections 4 and 5; RFC 8289, section 5). What each step answers, which packets
//! it drops and why, its turns and what is kept of each flow has to be the same.
#![tactic(auto)]

#[cfg(test)]
mod plain;
#[cfg(test)]
mod runs;
