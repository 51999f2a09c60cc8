//! The gate by which tests hold senders, and what the main thread waits for meanwhile.

use port_core::Gate;
use std::sync::atomic::{AtomicU64, Ordering};
use std::thread;

/// So often something is looked for that is to come.
const MAX_LOOKS: u32 = 1_000_000;

/// So often something is looked for that is not to come.
pub(crate) const FEW_LOOKS: u32 = 100;

/// A sender's gate. It notes the call that the sender asks for. From one call on it waits until another sender has
/// asked for its second call, so that its first was answered, and until the main thread has opened the gates. It counts
/// how often it let a call through.
#[derive(Drop)]
pub(crate) struct Held<'a> {
    pub(crate) first_held: u64,
    pub(crate) asked: &'a AtomicU64,
    pub(crate) asked_there: &'a AtomicU64,
    pub(crate) open: &'a AtomicU64,
    pub(crate) passed: AtomicU64,
}

impl Gate for Held<'_> {
    fn pass(&self, call: u64) -> bool {
        self.asked.store(call, Ordering::SeqCst);
        let passes = call < self.first_held
            || self.asked_there.load(Ordering::SeqCst) >= 2
                && self.open.load(Ordering::SeqCst) >= 1;
        if passes {
            self.passed.fetch_add(1, Ordering::SeqCst);
        }
        passes
    }
}

/// Whether a sender has asked for that call, or has that many answers. It is looked for some time.
pub(crate) fn has_asked(asked: &AtomicU64, call: u64) -> bool {
    for _look in 0..MAX_LOOKS {
        if asked.load(Ordering::SeqCst) >= call {
            return true;
        }
        thread::yield_now();
    }
    false
}
