//! What a link asks of the queue in front of it.

ghost use Rattle.std.specs.Prelude.{◌≡◌, ◌+◌, None, IfOk, OnErr, length};
ghost use Rattle.journal_core.specs.Disciplines.{Discipline};
ghost use Rattle.journal_core.specs.Happened.{fate_ids};
ghost use Rattle.journal_core.specs.State.{refusal_of};
ghost use Rattle.journal_core.specs.declared.step.Step.TheVariants.{Enqueue, Dequeue};
ghost use Rattle.link_core.specs.QueueDisciplines.{HasArrived, HasServed, Progress};

use journal_core::{Memory, Sent};
use packet_core::Packet;

/// A queueing discipline: which packet goes next, and which are dropped. A link runs over each by the same law
/// (`run_over`). `Engine`, the scheduler with its steps, is one, and `Fifo` another. It tells its recorder what becomes
/// of packets.
pub trait QueueDiscipline: Drop {
    /// What it queues packets in, as its rules see it.
    ghost Queues: { Type 0 };

    /// What it was made with: parameters, for example.
    ghost Kept: { Type 0 };

    /// Its rules: what an arrival and a dequeue do with the queues.
    ghost rules: { Kept → Discipline Queues };

    /// What it was made with. No call changes it.
    ghost kept: { Self → Kept };

    /// The steps so far, and the queues and the journal that they led to.
    ghost so_far: { Self → Progress Queues };

    /// A packet comes in at a moment, in microseconds, by lane 0, and may be dropped, or others in its place. The
    /// moment is below 2^60 and not before the last one, and fewer than 2^40 packets came before. It fails for want of
    /// memory alone, and changes nothing then.
    fn arrive(&mut self, moment: u64, packet: Packet) -> Result<(), Memory>
        requires { refusal_of (so_far self.old).standing.state (Enqueue moment 0 packet) ≡ None }
        ensures arrived { IfOk result (λ _.
            HasArrived (rules (kept self.old)) (so_far self.old) moment packet (so_far self.new)) }
        ensures kept { kept self.new ≡ kept self.old }
        ensures unchanged { OnErr result (so_far self.new ≡ so_far self.old) };

    /// Gives the packet that is next, or nothing, at a moment in microseconds, and drops others before it where the
    /// discipline does. The moment is below 2^60 and not before the last one. It fails only when out of memory, and
    /// changes nothing then.
    fn serve(&mut self, moment: u64) -> Result<Option<Sent>, Memory>
        requires { refusal_of (so_far self.old).standing.state (Dequeue moment) ≡ None }
        ensures served { IfOk result (λ sent.
            HasServed (rules (kept self.old)) (so_far self.old) moment sent (so_far self.new)) }
        ensures kept { kept self.new ≡ kept self.old }
        ensures unchanged { OnErr result (so_far self.new ≡ so_far self.old) };

    /// How many packets wait: each that came waits, or was sent or dropped.
    fn waiting(&self) -> u64
        ensures { result + length (fate_ids (so_far self.now).standing.events)
            ≡ (so_far self.now).standing.state.next_id };
}
