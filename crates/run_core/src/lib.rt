//! The runs of a trace's steps by senders that are threads: through a locked port, and through lanes into a device, with
//! monitors that read meanwhile. It knows nothing of words and streams.
#![tactic(auto)]

mod lanes;
mod locked;
mod monitors;
mod room;
mod senders_fault;

pub use lanes::run_lanes;
pub use locked::run_locked;
pub use monitors::{Ending, of_journal, read_on};
pub use senders_fault::SendersFault;
