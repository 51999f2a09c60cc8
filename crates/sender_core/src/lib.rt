//! The senders of a run: the packets of a trace for each of them, and their threads. It says what is known of their run
//! before it starts, and whether the steps of a run are made by their calls. It knows nothing of streams, rows and faults.
#![tactic(auto)]

mod closing;
mod interleaving;
mod lane_senders;
mod moments;
mod room;
mod senders;

pub use closing::closed_once;
pub use interleaving::{MAX_SENDERS, is_whole};
pub use lane_senders::{packets_of, start_lanes};
pub use moments::device_moment;
pub use room::{Expected, Room};
pub use senders::{lists_of, start_locked};
