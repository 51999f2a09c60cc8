//! What a fair scheduler keeps of its flows (RFC 8290, section 4): their queues, the lists of new and of old flows,
//! credits and CoDel's states, and how packets arrive, are served in turns and overflow. What it drops goes into a
//! journal, of whose inside nothing here knows.
#![tactic(auto)]

mod fair_queue;
mod flow_state;
mod flow_view;

pub use fair_queue::{FairQueue, FlowList, Head, Serving};
pub use flow_state::FlowState;
pub use flow_view::FlowView;
