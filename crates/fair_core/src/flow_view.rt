//! What is shown of a flow.

use codel_core::CodelState;

/// What a scheduler keeps of a flow.
#[derive(Clone, Copy, Debug, PartialEq, Eq)]
pub struct FlowView {
    /// How many packets wait.
    pub len: u64,
    /// The sum of their lengths, in bytes.
    pub bytes: u64,
    /// How many bytes the flow may send before it gets a quantum more. At 0 and below they are used up.
    pub credits: i64,
    /// CoDel's state.
    pub codel: CodelState,
}
