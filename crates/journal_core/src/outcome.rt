//! How a step was answered, and where what it did stands in the journal.

use crate::step::Refusal;

/// How a step was answered. The packets are in its events.
#[derive(Clone, Copy, Debug, PartialEq, Eq)]
pub enum Answer {
    /// An enqueue: the packet was accepted.
    Accepted,
    /// A dequeue: a packet was sent.
    Sent,
    /// A dequeue: nothing waited.
    Idle,
    /// The close was made.
    Closed,
    /// The step was refused.
    Refused(Refusal),
}

/// What a step of a run gave: its answer, and its own events, which stand in the journal from `first_event`
/// to before `end_event`.
#[derive(Clone, Copy, Debug, PartialEq, Eq)]
pub struct Outcome {
    /// The answer.
    pub answer: Answer,
    /// The place of its first event.
    pub first_event: usize,
    /// The place behind its last event.
    pub end_event: usize,
}
