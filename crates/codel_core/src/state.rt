//! What CoDel keeps of a queue.

/// What CoDel keeps of a queue (RFC 8289, section 5.3). Moments are in microseconds.
#[derive(Clone, Copy, Debug, PartialEq, Eq)]
pub struct CodelState {
    /// When packets will have been late for an interval, if the last one was late.
    pub first_above: Option<u64>,
    /// When the next packet is due to be dropped. It stays where it is when dropping ends.
    pub drop_next: u64,
    /// How many packets were dropped since dropping began, and what it began with.
    pub count: u64,
    /// The count with which dropping began last, so that the next cycle can tell what the count grew by.
    pub lastcount: u64,
    /// Whether the queue drops.
    pub dropping: bool,
}
