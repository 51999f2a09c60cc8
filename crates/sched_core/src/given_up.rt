//! What a scheduler hands back where it is given up.

ghost use Rattle.std.specs.Prelude.{◌≡◌, ◌∷◌, [], IfSome, IsNone, length, sum_by};
ghost use Rattle.std.specs.List.{flat_map};
ghost use Rattle.std.specs.List.Sorted.{IsPermutation};
ghost use Rattle.sched_core.specs.Remaining.{GivesHead};

use flow_core::Flows;
use packet_core::Waiting;
use std::marker::Model;

/// A scheduler that was given up: its recorder, and the packets that still wait.
#[derive(Drop)]
pub struct GivenUp<K> {
    /// Who was told what became of the packets that left.
    pub recorder: K,
    /// The packets that wait.
    pub remains: Remains,
}

/// The packets that wait in a scheduler that was given up. Contracts see a list of queues, one for each flow.
#[derive(Debug, Drop)]
pub struct Remains {
    flows: Flows,
}

impl Model for Remains {
    ghost use Rattle.std.specs.Prelude.{List};
    ghost use Rattle.packet_core.specs.declared.packet.Waiting.{Waiting};

    ghost Value = { List (List Waiting) };

    ghost view = { λ remains. remains.flows.lists.queues };
}

impl Remains {
    /// Those of these flows.
    pub(crate) fn of(flows: Flows) -> Remains
        ensures { result ≡ flows.lists.queues }
    {
        Remains { flows }
    }

    /// How many are left.
    pub fn count(&self) -> u64
        ensures { result ≡ sum_by length self.now }
    {
        self.flows.total_len()
    }

    /// Gives the packet at the head of one of the queues, and none where none is left. So each comes once, and those of
    /// a flow come in their order. It takes no memory, and about as long as a dequeue.
    #[tactic(auto, using(crate::proofs::RemainingPackets::taken_out, crate::proofs::RemainingPackets::head_given, crate::proofs::RemainingPackets::none_left))]
    pub fn next(&mut self) -> Option<Waiting>
        ensures none { IsNone result → flat_map (λ q. q) self.old ≡ [] }
        ensures given { IfSome result (λ w.
            IsPermutation (flat_map (λ q. q) self.old) (w ∷ flat_map (λ q. q) self.new)) }
        ensures head { IfSome result (λ w. GivesHead self.old w self.new) }
        ensures rest { IsNone result → self.new ≡ self.old }
    {
        let flow = self.flows.fattest()?;
        self.flows.pop(flow)
    }
}
