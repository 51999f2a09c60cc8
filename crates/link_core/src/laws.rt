//! What holds of every run of a link over FQ-CoDel, whatever its parameters and its seed, as contracts of functions
//! that do nothing.

ghost use Rattle.std.specs.Prelude.{◌≡◌, ℕ, ◌+◌, ◌*◌, ◌<◌, ◌≤◌, ◌++◌, ◌∷◌, All, List, [], length, sum_by};
ghost use Rattle.packet_core.specs.Params.{AreInRange};
ghost use Rattle.packet_core.specs.declared.flow.Seed.{Seed};
ghost use Rattle.packet_core.specs.declared.params.ParamFields.{ParamFields};
ghost use Rattle.journal_core.specs.declared.step.Step.{Step};
ghost use Rattle.journal_core.specs.Happened.{without_fate};
ghost use Rattle.journal_core.specs.Runs.{Made, journal_of};
ghost use Rattle.journal_core.specs.State.{State};
ghost use Rattle.fair_core.specs.FairQueues.{FairQueues};
ghost use Rattle.fair_core.specs.FqCodel.{fq_codel};
ghost use Rattle.link_core.specs.declared.arrival.Arrival.{Arrival};
ghost use Rattle.link_core.specs.declared.link.LinkFields.{LinkFields};
ghost use Rattle.link_core.specs.Arrivals.{AreArrivals};
ghost use Rattle.link_core.specs.LinkLaw.LinkState.{idle};
ghost use Rattle.link_core.specs.LinkLaws.{AreSentInTurn, FollowsArrival, Sending, sendings, work_of};
ghost use Rattle.link_core.specs.Links.{IsLink};
ghost use Rattle.link_core.specs.LinkRuns.{IsLinkRun, IsLinkRunTo};

use codel_core::one_verdict;

/// Arrivals, a link, parameters and a seed have one run at most: the rules leave no choice of a step, an answer, an
/// event or a state.
pub fn one_run()
    ensures { (p : ParamFields) (seed : Seed) → AreInRange p → (link : LinkFields) (arrivals : List Arrival)
        → (steps steps' : List Step) (made made' : List Made) (last last' : State FairQueues)
        → IsLinkRun p seed link arrivals steps made last → IsLinkRun p seed link arrivals steps' made' last'
        → (steps ≡ steps') × (made ≡ made') × (last ≡ last') }
{
    one_verdict();
}

/// The link is never idle while something waits: at each point of a run at which it is idle, each packet that came has
/// its fate. So nothing waits at the end. Each packet has a byte at least, as each `Packet` has.
pub fn works()
    ensures never_idle { (p : ParamFields) (seed : Seed) (link : LinkFields) (arrivals coming : List Arrival)
        → (steps : List Step) (made : List Made) (at : State FairQueues)
        → All (λ (a : Arrival). 1 ≤ a.packet.len) arrivals
        → IsLinkRunTo (fq_codel p seed) link arrivals steps made (record { state = idle; coming = coming }) at
        → without_fate (journal_of made) ≡ [] }
    ensures end { (p : ParamFields) (seed : Seed) (link : LinkFields) (arrivals : List Arrival)
        → (steps : List Step) (made : List Made) (last : State FairQueues)
        → All (λ (a : Arrival). 1 ≤ a.packet.len) arrivals → IsLinkRun p seed link arrivals steps made last
        → without_fate (journal_of made) ≡ [] }
{}

/// No packet has its fate before it came: neither is it sent nor dropped. A packet's id is its place among the arrivals.
pub fn causal()
    ensures { (p : ParamFields) (seed : Seed) (link : LinkFields) (arrivals : List Arrival)
        → (steps : List Step) (made : List Made) (last : State FairQueues)
        → IsLinkRun p seed link arrivals steps made last
        → All (FollowsArrival arrivals) (journal_of made) }
{}

/// Packets are sent one after another, never faster than the rate: each starts at an exact time, not before the one
/// before it ends, and its moment is that time in whole microseconds. So from one packet sent to a later one, the work
/// of all but the later takes less than the time between their moments and one microsecond more.
pub fn throughput()
    ensures apart { (p : ParamFields) (seed : Seed) (link : LinkFields) → IsLink link
        → (arrivals : List Arrival) → AreArrivals arrivals
        → (steps : List Step) (made : List Made) (last : State FairQueues)
        → IsLinkRun p seed link arrivals steps made last
        → AreSentInTurn link arrivals 0 (sendings (journal_of made)) }
    ensures rate { (p : ParamFields) (seed : Seed) (link : LinkFields) → IsLink link
        → (arrivals : List Arrival) → AreArrivals arrivals
        → (steps : List Step) (made : List Made) (last : State FairQueues)
        → IsLinkRun p seed link arrivals steps made last
        → (before between behind : List Sending) (one later : Sending)
        → sendings (journal_of made) ≡ before ++ (one ∷ between ++ later ∷ behind)
        → sum_by (work_of link arrivals) (one ∷ between) + link.rate * one.moment < link.rate * (later.moment + 1) }
{}

/// The journal of a run has two events at most for each arrival: that it came, and its fate.
pub fn few_events()
    ensures { (p : ParamFields) (seed : Seed) (link : LinkFields) (arrivals : List Arrival)
        → (steps : List Step) (made : List Made) (last : State FairQueues)
        → IsLinkRun p seed link arrivals steps made last → length (journal_of made) ≤ 2 * length arrivals }
{}
