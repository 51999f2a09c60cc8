//! The whole program over words and streams, as a library: it reads a trace and writes the report of its run, or the
//! journal of its run by senders that are threads, or help.
#![tactic(auto)]

mod faults;
mod lanes;
mod locked;
mod monitors;
mod program_run;

pub use faults::{ProgramFault, tell};
pub use lanes::simulate_lanes;
pub use locked::simulate_locked;
pub use program_run::program;
pub use run_core::{Ending, SendersFault, of_journal, read_on};
pub use sender_core::{lists_of, start_lanes, start_locked};
