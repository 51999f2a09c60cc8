//! The gate of the senders that don't send at once.

use port_core::Gate;
use std::process::Abort;
use std::sync::atomic::{AtomicU64, Ordering};

/// A gate that lets so many calls pass, each at its first asking or, where the gate hesitates, at its second one. It
/// counts how often it was asked, and how often for the call that was due then.
#[derive(Drop)]
pub(crate) struct Asked {
    free: u64,
    hesitates: bool,
    last: AtomicU64,
    askings: AtomicU64,
    met: AtomicU64,
}

impl Gate for Asked {
    fn pass(&self, call: u64) -> bool {
        let asking = self.askings.fetch_add(1, Ordering::SeqCst);
        let before = if self.hesitates { asking / 2 } else { asking };
        if call.checked_sub(1) == Some(before.min(self.free)) {
            self.met.fetch_add(1, Ordering::SeqCst);
        }
        let last = self.last.swap(call, Ordering::SeqCst);
        call <= self.free && (!self.hesitates || last == call)
    }
}

/// A gate that lets so many calls pass, and wasn't asked yet.
pub(crate) fn new_gate(free: u64, hesitates: bool) -> Asked {
    Asked {
        free,
        hesitates,
        last: AtomicU64::new(0),
        askings: AtomicU64::new(0),
        met: AtomicU64::new(0),
    }
}

/// The gate was asked so often, each time for the call that was due.
pub(crate) fn was_asked<R: Abort>(rt: &R, gate: &Asked, times: u64) {
    let askings = gate.askings.load(Ordering::SeqCst);
    let met = gate.met.load(Ordering::SeqCst);
    assert_eq!(rt; (askings, met), (times, times));
}
