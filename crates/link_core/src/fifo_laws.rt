//! What holds of every run of a link over the plain queue, whatever its parameters and its seed, as contracts of
//! functions that do nothing. A clause that speaks of a journal holds of what `run_fifo` gives.

ghost use Rattle.std.specs.Prelude.{◌≡◌, ℕ, ◌+◌, ◌*◌, ◌<◌, ◌≤◌, ◌++◌, ◌∷◌, All, List, [], length, sum_by};
ghost use Rattle.packet_core.specs.declared.flow.Seed.{Seed};
ghost use Rattle.packet_core.specs.declared.packet.Waiting.{Waiting};
ghost use Rattle.packet_core.specs.declared.params.ParamFields.{ParamFields};
ghost use Rattle.journal_core.specs.declared.event.Event.{Event};
ghost use Rattle.journal_core.specs.declared.step.Step.{Step};
ghost use Rattle.journal_core.specs.Happened.{fate_ids, without_fate};
ghost use Rattle.journal_core.specs.JournalLaws.{AreDistinct, FatesFollow, IdsInOrder};
ghost use Rattle.journal_core.specs.Runs.{Made, journal_of};
ghost use Rattle.journal_core.specs.State.{State};
ghost use Rattle.link_core.specs.declared.arrival.Arrival.{Arrival};
ghost use Rattle.link_core.specs.declared.link.LinkFields.{LinkFields};
ghost use Rattle.link_core.specs.Arrivals.{AreArrivals};
ghost use Rattle.link_core.specs.Fifo.{IsFifoJournal, fifo};
ghost use Rattle.link_core.specs.LinkLaw.LinkState.{idle};
ghost use Rattle.link_core.specs.LinkLaws.{AreSentInTurn, FollowsArrival, Sending, sendings, work_of};
ghost use Rattle.link_core.specs.Links.{IsLink};
ghost use Rattle.link_core.specs.LinkRuns.{IsLinkRunOf, IsLinkRunTo};

/// Arrivals, a link, parameters and a seed have one run at most, and so one journal: the rules leave no choice of a
/// step, an answer, an event or a state.
pub fn fifo_one_run()
    ensures run { (p : ParamFields) (seed : Seed) (link : LinkFields) (arrivals : List Arrival)
        → (steps steps' : List Step) (made made' : List Made) (last last' : State (List Waiting))
        → IsLinkRunOf (fifo p seed) link arrivals steps made last
        → IsLinkRunOf (fifo p seed) link arrivals steps' made' last'
        → (steps ≡ steps') × (made ≡ made') × (last ≡ last') }
    ensures journal { (p : ParamFields) (seed : Seed) (link : LinkFields) (arrivals : List Arrival)
        → (events events' : List Event)
        → IsFifoJournal p seed link arrivals events → IsFifoJournal p seed link arrivals events' → events ≡ events' }
{}

/// The link is never idle while something waits: at each point of a run at which it is idle, each packet that came has
/// its fate. So nothing waits at the end. A packet may have any length here, even none.
pub fn fifo_works()
    ensures never_idle { (p : ParamFields) (seed : Seed) (link : LinkFields) (arrivals coming : List Arrival)
        → (steps : List Step) (made : List Made) (at : State (List Waiting))
        → IsLinkRunTo (fifo p seed) link arrivals steps made (record { state = idle; coming = coming }) at
        → without_fate (journal_of made) ≡ [] }
    ensures end { (p : ParamFields) (seed : Seed) (link : LinkFields) (arrivals : List Arrival)
        → (events : List Event) → IsFifoJournal p seed link arrivals events → without_fate events ≡ [] }
{}

/// No packet has its fate before it came: neither is it sent nor dropped. A packet's id is its place among the
/// arrivals.
pub fn fifo_causal()
    ensures { (p : ParamFields) (seed : Seed) (link : LinkFields) (arrivals : List Arrival)
        → (events : List Event) → IsFifoJournal p seed link arrivals events
        → All (FollowsArrival arrivals) events }
{}

/// Packets are sent one after another, never faster than the rate: each starts at an exact time, not before the one
/// before it ends, and its moment is that time in whole microseconds. So from one packet sent to a later one, the work
/// of all but the later takes less than the time between their moments and one microsecond more.
pub fn fifo_throughput()
    ensures apart { (p : ParamFields) (seed : Seed) (link : LinkFields) → IsLink link
        → (arrivals : List Arrival) → AreArrivals arrivals
        → (events : List Event) → IsFifoJournal p seed link arrivals events
        → AreSentInTurn link arrivals 0 (sendings events) }
    ensures rate { (p : ParamFields) (seed : Seed) (link : LinkFields) → IsLink link
        → (arrivals : List Arrival) → AreArrivals arrivals
        → (events : List Event) → IsFifoJournal p seed link arrivals events
        → (before between behind : List Sending) (one later : Sending)
        → sendings events ≡ before ++ (one ∷ between ++ later ∷ behind)
        → sum_by (work_of link arrivals) (one ∷ between) + link.rate * one.moment < link.rate * (later.moment + 1) }
{}

/// A journal's ids are 0, 1, 2 and so on, in the order in which packets came. Each fate names an id that was given
/// before it, and no id has two fates.
pub fn fifo_fates()
    ensures ids { (p : ParamFields) (seed : Seed) (link : LinkFields) (arrivals : List Arrival)
        → (events : List Event) → IsFifoJournal p seed link arrivals events → IdsInOrder events }
    ensures follow { (p : ParamFields) (seed : Seed) (link : LinkFields) (arrivals : List Arrival)
        → (events : List Event) → IsFifoJournal p seed link arrivals events → FatesFollow events }
    ensures once { (p : ParamFields) (seed : Seed) (link : LinkFields) (arrivals : List Arrival)
        → (events : List Event) → IsFifoJournal p seed link arrivals events → AreDistinct (fate_ids events) }
{}

/// A journal has two events at most for each arrival: that it came, and its fate.
pub fn fifo_few_events()
    ensures { (p : ParamFields) (seed : Seed) (link : LinkFields) (arrivals : List Arrival)
        → (events : List Event) → IsFifoJournal p seed link arrivals events
        → length events ≤ 2 * length arrivals }
{}
