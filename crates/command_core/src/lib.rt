//! What the words behind the program's name ask for: a run of a trace, a run of it by senders, or help, whose texts
//! stand here too. Nothing of the scheduler is known here but the type of a seed.
#![tactic(auto)]

mod command_line;
mod manual;
mod seed;
pub mod shown;

pub use command_line::{
    CommandFault, LanesRequest, MAX_MONITORS, MAX_SENDERS, Request, RunRequest, SendersRequest,
    parse,
};
pub use seed::{ZERO_SEED, read_seed};
