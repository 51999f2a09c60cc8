//! How many packets wait, at most.

/// The most packets that wait at once, in a line, and in all queues of a scheduler together.
pub const MAX_WAITING: u64 = 1 << 40;
