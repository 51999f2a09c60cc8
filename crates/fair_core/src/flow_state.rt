//! What is kept of a flow beside its queue.

use codel_core::Codel;

/// What the scheduler keeps of a flow beside its queue, also while the flow is in no list.
#[derive(Clone, Copy, Debug)]
pub struct FlowState {
    /// How many bytes the flow may send before it waits for its turn again (RFC 8290, section 3). It can be
    /// below 0, by less than the length of a packet.
    pub credits: i64,
    /// CoDel for its queue.
    pub codel: Codel,
}
