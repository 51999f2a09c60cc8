//! What holds of every run of FQ-CoDel, whatever its parameters and its seed, as contracts of functions that
//! do nothing.

ghost use Rattle.std.specs.Prelude.{◌≡◌, ℕ, ◌+◌, ◌-◌, ◌*◌, ◌/◌, ◌≤◌, ◌<◌, All, List, [], Some, length, sum_by, take, ℤ};
ghost use Rattle.std.specs.Bool.{Decides};
ghost use Rattle.packet_core.specs.Packets.{same_tuple};
ghost use Rattle.packet_core.specs.Params.{AreInRange};
ghost use Rattle.packet_core.specs.declared.flow.Seed.{Seed};
ghost use Rattle.packet_core.specs.declared.packet.FiveTuple.{FiveTuple};
ghost use Rattle.packet_core.specs.declared.params.ParamFields.{ParamFields};
ghost use Rattle.codel_core.specs.Queue.{bytes_of};
ghost use Rattle.flow_core.specs.FlowLists.{waiting_in};
ghost use Rattle.journal_core.specs.declared.step.Step.{Step};
ghost use Rattle.fair_core.specs.FairQueues.{AreSound, FairQueues, no_queues, queue_of};
ghost use Rattle.fair_core.specs.FqCodel.{fq_codel, fq_codel_policy};
ghost use Rattle.journal_core.specs.Happened.{Acceptance, acceptances};
ghost use Rattle.journal_core.specs.JournalLaws.{JournalLaws, WaitWithoutFate};
ghost use Rattle.journal_core.specs.Losses.{AreGivenBackOnce, IsOfAccepted, lost_packets};
ghost use Rattle.journal_core.specs.declared.step.Sent.{Sent};
ghost use Rattle.fair_core.specs.NewFlows.{IsFirstReady, SendsFrom};
ghost use Rattle.journal_core.specs.Runs.{HasLengthInRange, Made, Runs, given_by_made, journal_of, steps_made};
ghost use Rattle.journal_core.specs.State.{State, opening_state};
ghost use Rattle.journal_core.specs.Statistics.{statistics};
ghost use Rattle.sched_core.specs.Schedulers.{IsServed, Scheduler, discipline_of, flows_of};
ghost use Rattle.sched_core.specs.Shares.{SharesFairly, longest};
ghost use Rattle.sched_core.specs.Starvation.{WaitsAt, dequeues_between, fates_between};
ghost use Rattle.fair_core.specs.TurnBound.{AreQuantaOwed, quanta_owed, turns_at_most};
ghost use Rattle.fair_core.specs.Turns.{Chain, TurnMade, service_in};

use crate::engine::Engine;
use codel_core::one_verdict;
use journal_core::{Recorder, StepRecorder};

/// Of every list of steps: each accepted packet is sent once, dropped once or still queued, the packets of one
/// five-tuple leave in the order of acceptance, nothing is accepted after the close, and marks are honest.
pub fn journal_laws()
    ensures tuples { (a b : FiveTuple) → Decides (same_tuple a b) (a ≡ b) }
    ensures laws { (p : ParamFields) (seed : Seed)
        → (steps : List Step) (made : List Made) (new : State FairQueues)
        → Runs (fq_codel p seed) (opening_state (no_queues p.flows)) steps made new
        → JournalLaws (fq_codel p seed).flow_of (journal_of made) }
    ensures waiting { (p : ParamFields) (seed : Seed)
        → (steps : List Step) (made : List Made) (new : State FairQueues)
        → Runs (fq_codel p seed) (opening_state (no_queues p.flows)) steps made new
        → WaitWithoutFate (queue_of new.queues) (journal_of made) }
{}

/// Taking the refused steps out of a list changes neither the state that its run leaves nor the journal.
pub fn refused_steps_change_nothing()
    ensures state { (p : ParamFields) (seed : Seed) (steps : List Step) (made : List Made) (new : State FairQueues)
        → Runs (fq_codel p seed) (opening_state (no_queues p.flows)) steps made new
        → Runs (fq_codel p seed) (opening_state (no_queues p.flows)) (steps_made steps made (λ m. m.answer))
        (given_by_made made) new }
    ensures journal { (p : ParamFields) (seed : Seed) (steps : List Step) (made : List Made) (new : State FairQueues)
        → Runs (fq_codel p seed) (opening_state (no_queues p.flows)) steps made new
        → journal_of (given_by_made made) ≡ journal_of made }
{}

/// The turns of a dequeue end, with the first one that serves a flow or where no flow is listed: from the flows
/// that any run leaves, and from any others that stand in the lists once and have a state, there is one
/// serving chain, and no other. It has at most as many turns as quanta bring the credits of the listed flows
/// above 0, and one more for an old flow, two for a new one (RFC 8290, section 4.2). Where the run accepted no
/// packet longer than a quantum, that is three at most for each new flow and two for each old one.
pub fn serving_chains_end()
    ensures sound { (p : ParamFields) (seed : Seed) → AreInRange p
        → (steps : List Step) (made : List Made) (new : State FairQueues)
        → Runs (fq_codel p seed) (opening_state (no_queues p.flows)) steps made new
        → AreSound new.queues }
    ensures there { (p : ParamFields) → AreInRange p → (now : ℕ) (old : FairQueues) → AreSound old
        → (turns : List TurnMade) × (new : FairQueues) × Chain (fq_codel_policy p) now old turns new }
    ensures once { (p : ParamFields) → AreInRange p
        → (turns turns' : List TurnMade) (now : ℕ) (old new new' : FairQueues)
        → Chain (fq_codel_policy p) now old turns new → Chain (fq_codel_policy p) now old turns' new'
        → (turns ≡ turns') × (new ≡ new') }
    ensures bound { (p : ParamFields) → AreInRange p
        → (turns : List TurnMade) (now : ℕ) (old new : FairQueues) → AreSound old
        → Chain (fq_codel_policy p) now old turns new
        → length turns ≤ turns_at_most p.quantum old }
    ensures short { (p : ParamFields) (seed : Seed) → AreInRange p
        → (steps : List Step) (made : List Made) (new : State FairQueues)
        → Runs (fq_codel p seed) (opening_state (no_queues p.flows)) steps made new
        → All (λ (a : Acceptance). a.packet.len ≤ p.quantum) (acceptances (journal_of made))
        → (turns : List TurnMade) (now : ℕ) (next : FairQueues)
        → Chain (fq_codel_policy p) now new.queues turns next
        → length turns ≤ 3 * length new.queues.lists.new_flows + 2 * length new.queues.lists.old_flows }
    ensures least { (quantum : ℕ) (credits : ℤ) → 0 < quantum
        → AreQuantaOwed quantum credits (quanta_owed quantum credits) }
{
    one_verdict();
}

/// From one state a list of steps has one run at most: the rules leave no choice of an answer, an event or a
/// state.
pub fn one_run()
    ensures { (p : ParamFields) (seed : Seed) → AreInRange p
        → (steps : List Step) (made made' : List Made) (old new new' : State FairQueues)
        → Runs (fq_codel p seed) old steps made new → Runs (fq_codel p seed) old steps made' new'
        → (made ≡ made') × (new ≡ new') }
{
    one_verdict();
}

/// Every list of steps has a run from the opening, so none of these laws is about nothing. Each packet that comes in
/// has a length from 1 to 65,535 bytes, as each `Packet` has: among packets without bytes no flow is the fattest.
pub fn every_list_has_a_run()
    ensures { (p : ParamFields) (seed : Seed) → AreInRange p → (steps : List Step) → All HasLengthInRange steps
        → (made : List Made) × (new : State FairQueues)
        × Runs (fq_codel p seed) (opening_state (no_queues p.flows)) steps made new }
{
    one_verdict();
}

/// Where a flow in the list of new flows has credits above 0 and a packet, a dequeue sends from the first such
/// flow (RFC 8290, section 4.2).
pub fn new_flows_go_first()
    ensures { (p : ParamFields) → AreInRange p
        → (turns : List TurnMade) (now flow : ℕ) (old new : FairQueues)
        → AreSound old → IsFirstReady old flow → Chain (fq_codel_policy p) now old turns new
        → SendsFrom flow old.lists.queues (service_in turns) new.lists.queues }
{}

/// The journal tells how many packets wait, and of how many bytes.
pub fn journal_tells_what_waits()
    ensures packets { (p : ParamFields) (seed : Seed) → AreInRange p
        → (steps : List Step) (made : List Made) (new : State FairQueues)
        → Runs (fq_codel p seed) (opening_state (no_queues p.flows)) steps made new
        → (statistics (journal_of made)).queued ≡ waiting_in new.queues.lists }
    ensures bytes { (p : ParamFields) (seed : Seed) → AreInRange p
        → (steps : List Step) (made : List Made) (new : State FairQueues)
        → Runs (fq_codel p seed) (opening_state (no_queues p.flows)) steps made new
        → (statistics (journal_of made)).queued_bytes ≡ sum_by bytes_of new.queues.lists.queues }
{}

/// Each packet that was handed in is given back once, with its tag, or waits: the accepted packets are, in another
/// order, those that were sent, those that were lost and those in the flows' queues. A recorder is told of the sent ones
/// and of the lost ones (`Sched::recorder`). What a dequeue answers is the packet that was accepted under its id, but for
/// the ECN field, which follows from its mark.
pub fn packets_are_given_back()
    ensures once { (p : ParamFields) (seed : Seed) → AreInRange p
        → (steps : List Step) (made : List Made) (new : State FairQueues)
        → Runs (fq_codel p seed) (opening_state (no_queues p.flows)) steps made new
        → AreGivenBackOnce new.queues.lists.queues (lost_packets (journal_of made)) (journal_of made) }
    ensures sent { (old new : Scheduler) (moment : ℕ) (sent : Sent)
        → JournalLaws (discipline_of old).flow_of old.standing.events
        → WaitWithoutFate (queue_of (flows_of old)) old.standing.events
        → IsServed old moment (Some sent) new → IsOfAccepted old.standing.events sent }
{}

/// Fair shares: of two flows that stand in the list of old flows at each point from a to b, neither sends more bytes
/// than the other by more than three quanta and twice what the longest packet has more than one byte, whatever is
/// dropped and whichever flows are new in between (RFC 8290, section 4.2). A point is a number of steps that the engine
/// made. The longest packet is that accepted up to b, and bytes are those of the events of the steps between, with
/// lengths as accepted.
pub fn fair_shares<K: Recorder, S: StepRecorder>(
    engine: &Engine<K, S>,
    a: u64,
    b: u64,
    f: u32,
    g: u32,
)
    requires ordered { a ≤ b }
    requires within { b ≤ length engine.now.steps }
    requires f { f < engine.now.sched.params.flows }
    requires g { g < engine.now.sched.params.flows }
    ensures { SharesFairly engine.now.sched.params engine.now.sched.seed
        engine.now.steps engine.now.sched.standing.events a b f g }
{
    let _ = engine.params().quantum();
    engine.run_of_steps();
}

/// No flow starves: while a packet of a flow waits and none of the flow is sent or dropped, there are at most
/// 2 * q * (flows - 1) * ((L - 1) / q + 2) dequeues, whatever arrives; q is the quantum, and L the longest packet so
/// far. So behind one dequeue more it has sent or lost a packet. In each round the flow gets a quantum, and each other
/// flow sends one as an old flow and one as a new flow (RFC 8290, section 4.2). The bound takes each packet as one
/// byte.
pub fn no_flow_starves()
    ensures { (p : ParamFields) (seed : Seed) → AreInRange p
        → (steps : List Step) (made : List Made) (new : State FairQueues) → All HasLengthInRange steps
        → Runs (fq_codel p seed) (opening_state (no_queues p.flows)) steps made new
        → (a b flow : ℕ)
        → WaitsAt (fq_codel p seed) steps a flow → fates_between made a b flow ≡ []
        → dequeues_between made a b
        ≤ 2 * p.quantum * (p.flows - 1) * ((longest (acceptances (journal_of (take a made))) - 1) / p.quantum + 2) }
{}
