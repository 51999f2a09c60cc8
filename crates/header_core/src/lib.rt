//! What the headers of a captured IP packet say, and the ECN mark in its bytes. Nothing in this crate takes memory.
#![tactic(auto)]

mod chain;
mod checksum;
mod congestion;
mod dissection;
mod fields;
mod header;
mod ipv4;
mod ipv6;
mod jumbo;
mod laws;
mod link;
mod link_types;
mod ports;

pub use congestion::mark;
pub use dissection::dissect;
pub use header::{Fragment, Header, InPlaceOfPorts, Ports, Verdict};
pub use laws::{fragments_stay_together, one_meaning, padding_is_ignored};
pub use link::{Payload, link_payload};
pub use link_types::{Carried, find_packet};
