//! A scheduler for embedders: programs that have packets of their own, as routers and simulators do. It stores no
//! journal, and gives the tag of each packet back: with the packet, where it is sent; as a drop that is read, where it
//! is lost; and by a flush. It takes the memory for `limit` packets and one more where it is opened, and goes on after
//! the end of a scheduler's ids.
//!
//! No call after `QueueDisc::open` is refused for want of memory: the memory of a packet that leaves serves a later one.
//! That no later call asks for memory is tested, a renewal apart. A renewal takes memory for a scheduler as new, or
//! doesn't happen.
#![tactic(auto)]

mod answers;
mod drops;
mod ghost_packets;
pub mod laws;
mod queue_disc;
mod totals;

pub use answers::{Dequeued, Dropped, EnqueueFault, Enqueued, Flushed, Handle};
pub use queue_disc::{QueueDisc, RENEW_AFTER};
pub use totals::QueueDiscTotals;
