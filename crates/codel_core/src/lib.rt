//! CoDel for one queue (RFC 8289, section 5, with the marks of RFC 8290, sections 4 and 5.2.7): which packets of a line
//! are dropped, which one is given and with what mark. Nothing in this crate takes memory.
#![tactic(auto)]

mod codel;
mod control_law;
mod heads;
mod judge;
mod laws;
mod limits;
mod line;
mod narrow;
mod served;
mod state;
mod wide;

pub use codel::Codel;
pub use control_law::spacing;
pub use laws::{one_spacing, one_verdict};
pub use limits::MAX_WAITING;
pub use line::{DropSink, Peek, Pull};
pub use served::{Mark, Served};
pub use state::CodelState;
pub use wide::root;
