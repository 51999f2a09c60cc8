//! The gates of the senders.

use port_core::{Gate, LockedPort};
use std::process::Abort;
use std::sync::Wait;
use std::sync::atomic::{AtomicU64, Ordering};
use std::sync::ledger::Ledger;

/// A gate that counts how often it was asked, and how often for the call that was due then: each call once, or twice
/// where the gate hesitates. One that hesitates answers false where a call isn't that of the last asking.
#[derive(Drop)]
pub(crate) struct Asked {
    hesitates: bool,
    last: AtomicU64,
    askings: AtomicU64,
    met: AtomicU64,
}

impl Gate for Asked {
    fn pass(&self, call: u64) -> bool {
        let asking = self.askings.fetch_add(1, Ordering::SeqCst);
        let before = if self.hesitates { asking / 2 } else { asking };
        if call.checked_sub(1) == Some(before) {
            self.met.fetch_add(1, Ordering::SeqCst);
        }
        let last = self.last.swap(call, Ordering::SeqCst);
        !self.hesitates || last == call
    }
}

/// A gate that wasn't asked yet.
pub(crate) fn new_gate(hesitates: bool) -> Asked {
    Asked {
        hesitates,
        last: AtomicU64::new(0),
        askings: AtomicU64::new(0),
        met: AtomicU64::new(0),
    }
}

/// The gate was asked so often, each time for the call that was due.
pub(crate) fn was_asked<R: Abort>(rt: &R, gate: &Asked, times: u64) {
    let askings = gate.askings.load(Ordering::SeqCst);
    let met = gate.met.load(Ordering::SeqCst);
    assert_eq!(rt; (askings, met), (times, times));
}

/// A gate that closes the port at 7 before the third call.
#[derive(Drop)]
pub(crate) struct Closing<'a, A: Ledger, S: Ledger, R: Wait> {
    pub(crate) rt: &'a R,
    pub(crate) port: &'a LockedPort<A, S>,
}

impl<'a, A: Ledger, S: Ledger, R: Wait> Gate for Closing<'a, A, S, R> {
    fn pass(&self, call: u64) -> bool {
        call != 3 || self.port.close(self.rt, 7).is_ok()
    }
}
