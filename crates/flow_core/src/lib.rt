//! The queues of all flows, the list of new flows and the list of old flows (RFC 8290, sections 4 and 5).
//!
//! All packets that wait stand in one slab, chained flow by flow (`chains`). Both lists are rings over one number beside
//! each flow, and a mark says whether a flow is in one of them (`listed_flows`). A tree of winners over the flows' byte
//! counts has the fattest flow at its top, the node that all flows with bytes stand below (`winner_tree`). So a call
//! costs the same whatever waits, and a packet that comes or goes costs one path of that tree besides.
#![tactic(auto)]

mod flows;
mod limits;
mod linked_queues;
mod listed_flows;
mod winner_tree;

pub use codel_core::MAX_WAITING;
pub use flows::{Flows, Line};
pub use limits::{MAX_FLOWS, Memory};
