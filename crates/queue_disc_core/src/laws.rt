//! What holds of every list of calls, as the contract of a function that does nothing, and that a queue disc may change
//! threads.

ghost use Rattle.std.specs.Prelude.{◌≡◌, ℕ, ◌++◌, List};
ghost use Rattle.std.specs.List.Sorted.{IsPermutation};
ghost use Rattle.packet_core.specs.Params.{AreInRange};
ghost use Rattle.packet_core.specs.declared.flow.Seed.{Seed};
ghost use Rattle.packet_core.specs.declared.params.ParamFields.{ParamFields};
ghost use Rattle.queue_disc_core.specs.Calls.{AreCalled, Call, given_back, handed_in};
ghost use Rattle.queue_disc_core.specs.QueueDiscs.{DiscState, new_disc, unread_packets, waiting_packets};

use crate::queue_disc::QueueDisc;

/// Each packet that was handed in was given back once, by its tag and its id, or its drop wasn't read yet, or it waits;
/// and nothing else was given back. So it is after every list of calls, whatever the parameters, the seed and the
/// renewals: the packets handed in are, in another order, those that the calls gave back, those whose drops weren't
/// read, and those that wait. A packet is given back by the dequeue that sends it, where its drop is read, or by the
/// flush that takes it out.
pub fn packets_are_given_back_once()
    ensures { (p : ParamFields) (seed : Seed) (renew_after : ℕ) → AreInRange p
        → (calls : List Call) (s : DiscState) → AreCalled (new_disc p seed renew_after) calls s
        → IsPermutation (handed_in calls) (given_back calls ++ unread_packets s ++ waiting_packets s) }
{}

/// A queue disc may be handed to another thread, with all that it owns: one thread at a time calls it.
pub fn handed_over(disc: QueueDisc) -> QueueDisc
    ensures { result ≡ disc }
{
    sendable(disc)
}

/// Only what may go to another thread is taken.
fn sendable<T: Send>(value: T) -> T
    ensures { result ≡ value }
{
    value
}
