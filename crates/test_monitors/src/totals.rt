//! The statistics of journals where packets of 100 bytes came.

use sched_core::Totals;

/// Of one without events.
pub(crate) const NOTHING: Totals = Totals {
    accepted: 0,
    accepted_bytes: 0,
    sent: 0,
    sent_bytes: 0,
    dropped_codel: 0,
    dropped_overflow: 0,
    dropped_bytes: 0,
    marked: 0,
    threshold_marked: 0,
    queued: 0,
    queued_bytes: 0,
    closed: false,
};

/// One packet waits.
pub(crate) const ONE: Totals = Totals {
    accepted: 1,
    accepted_bytes: 100,
    queued: 1,
    queued_bytes: 100,
    ..NOTHING
};

/// Two packets wait.
pub(crate) const TWO: Totals = Totals {
    accepted: 2,
    accepted_bytes: 200,
    queued: 2,
    queued_bytes: 200,
    ..NOTHING
};

/// Three packets wait.
pub(crate) const THREE: Totals = Totals {
    accepted: 3,
    accepted_bytes: 300,
    queued: 3,
    queued_bytes: 300,
    ..NOTHING
};

/// One packet came and went, and there was a close.
pub(crate) const CLOSED: Totals = Totals {
    accepted: 1,
    accepted_bytes: 100,
    sent: 1,
    sent_bytes: 100,
    closed: true,
    ..NOTHING
};
