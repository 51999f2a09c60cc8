//! What holds a sender up before a call, and why it stopped.

ghost use Rattle.std.specs.Prelude.{◌≡◌, ℕ, IsTrue, false};

use sched_core::Refusal;
use std::thread;

/// A sender asks its gate so often for one call, and then stalls. So each thread ends, even where a gate never opens.
const MAX_ASKINGS: u32 = 1_000_000;

/// What lets a sender make its calls, in the order that a test or a trace wants.
pub trait Gate {
    /// The gate let this call through. An impl may say more of it: contracts of a sender's calls then say that too.
    ghost LetThrough: { Self → ℕ → Type 0 } = { λ _ _. Unit {0} };

    /// The gate held this call up. An impl may say more of it: contracts of a sender that stalls then say that too.
    ghost HeldUp: { Self → ℕ → Type 0 } = { λ _ _. Unit {0} };

    /// Whether the call may be made; calls count from 1. Whoever is asked for a call knows that the one before it was
    /// answered. The gate may wait a little before it answers false, and is asked again then.
    fn pass(&self, call: u64) -> bool
        ensures through { IsTrue result → LetThrough self.now call }
        ensures held { result ≡ false → HeldUp self.now call };
}

/// A gate that is always open. Contracts see that it holds up no call.
#[derive(Clone, Copy, Debug)]
pub struct Open;

impl Gate for Open {
    ghost HeldUp = { λ _ _. ⊥ };

    fn pass(&self, _call: u64) -> bool {
        true
    }
}

/// Why a sender stopped.
#[derive(Clone, Copy, Debug, PartialEq, Eq)]
pub enum Stop {
    /// It made a call for each packet.
    Done,
    /// Its gate stayed closed.
    Stalled,
    /// Its lane was full.
    Full,
    /// A call was refused, and not since the port is closed.
    Refused(Refusal),
}

/// Asks the gate until it opens, but not too often.
pub(crate) fn passes<G: Gate>(gate: &G, call: u64) -> bool
    ensures through { IsTrue result → G.LetThrough gate.now call }
    ensures held { result ≡ false → G.HeldUp gate.now call }
{
    for _ in 1..MAX_ASKINGS {
        if gate.pass(call) {
            return true;
        }
        thread::yield_now();
    }
    gate.pass(call)
}
