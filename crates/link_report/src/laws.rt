//! What holds of the packets of every journal, and of the table of five-tuples of every run of a link, as contracts of
//! functions that do nothing.

ghost use Rattle.std.specs.Prelude.{◌≡◌, ℕ, ◌++◌, ◌∷◌, List, false, length, map};
ghost use Rattle.std.specs.List.{filter_map};
ghost use Rattle.codel_core.specs.declared.served.Mark.{Mark};
ghost use Rattle.packet_core.specs.declared.packet.Ecn.{Ecn};
ghost use Rattle.journal_core.specs.declared.event.Cause.{Cause};
ghost use Rattle.journal_core.specs.declared.event.Event.{Event};
ghost use Rattle.journal_core.specs.declared.event.Event.TheVariants as event;
ghost use Rattle.journal_core.specs.Happened.{acceptances, fate_ids, is_among};
ghost use Rattle.journal_core.specs.JournalLaws.{AreDistinct, FatesFollow, IdsInOrder};
ghost use Rattle.journal_core.specs.Statistics.{sent_of};
ghost use Rattle.journal_core.specs.declared.step.Step.{Step};
ghost use Rattle.journal_core.specs.Runs.{Made, journal_of};
ghost use Rattle.journal_core.specs.State.{State};
ghost use Rattle.packet_core.specs.declared.flow.Seed.{Seed};
ghost use Rattle.packet_core.specs.declared.params.ParamFields.{ParamFields};
ghost use Rattle.fair_core.specs.FairQueues.{FairQueues};
ghost use Rattle.link_core.specs.declared.arrival.Arrival.{Arrival};
ghost use Rattle.link_core.specs.declared.link.LinkFields.{LinkFields};
ghost use Rattle.link_core.specs.Arrivals.{AreArrivals};
ghost use Rattle.link_core.specs.Fifo.{IsFifoJournal};
ghost use Rattle.link_core.specs.LinkLaws.{end_of};
ghost use Rattle.link_core.specs.LinkRuns.{IsLinkRun};
ghost use Rattle.link_core.specs.Links.{IsLink};
ghost use Rattle.link_report.specs.declared.packets.Fate.TheVariants as fate;
ghost use Rattle.link_report.specs.Fates.{fate_in, record_of, tuples_in};
ghost use Rattle.link_report.specs.FlowTables.{RatesAreWithin};
ghost use Rattle.link_report.specs.Packets.{known_of};

/// The packets of a journal have the one fate that the journal has for each id. There is a record for each acceptance,
/// in that order, and it says what the acceptance says. Its fate is that of the event that sends or drops its id,
/// wherever that event stands. Where there is none, the packet waits. The law is of journals in which the accepted ids
/// are 0, 1, 2 and so on, and no id has two fates. Each fate in them names an id that was accepted before. The journal
/// of every scheduler is such a one (`JournalLaws`).
pub fn one_fate_each()
    ensures packets { (events : List Event) → IdsInOrder events → FatesFollow events → AreDistinct (fate_ids events)
        → (known_of events).packets ≡ map (record_of events) (acceptances events) }
    ensures tuples { (events : List Event) → (known_of events).tuples ≡ tuples_in events }

    // The place of a packet that is sent is the number of those sent before it.
    ensures sent { (events before behind : List Event) (id moment : ℕ) (ecn : Ecn) (mark : Mark)
        → AreDistinct (fate_ids events) → events ≡ before ++ event.Sent id moment ecn mark ∷ behind
        → fate_in events id ≡ fate.Sent moment ecn mark (length (filter_map sent_of before)) }
    ensures dropped { (events before behind : List Event) (id moment : ℕ) (cause : Cause)
        → AreDistinct (fate_ids events) → events ≡ before ++ event.Dropped id moment cause ∷ behind
        → fate_in events id ≡ fate.Dropped moment cause }
    ensures waiting { (events : List Event) (id : ℕ) → is_among (fate_ids events) id ≡ false
        → fate_in events id ≡ fate.Waiting }
{}

/// No value of the column `rate` of the table `flows` exceeds the link's rate, be it that of a five-tuple or that of all
/// packets: of each link, each list of arrivals, and both queues. The table is that of the run's end, as `run_link_to_end`
/// and `run_fifo_to_end` of `link_core` answer it.
pub fn rates_within_link()
    ensures scheduler { (p : ParamFields) (seed : Seed) (link : LinkFields) → IsLink link
        → (arrivals : List Arrival) → AreArrivals arrivals
        → (steps : List Step) (made : List Made) (last : State FairQueues)
        → IsLinkRun p seed link arrivals steps made last
        → RatesAreWithin link.rate (end_of link arrivals (journal_of made)) (known_of (journal_of made)) }
    ensures fifo { (p : ParamFields) (seed : Seed) (link : LinkFields) → IsLink link
        → (arrivals : List Arrival) → AreArrivals arrivals
        → (events : List Event) → IsFifoJournal p seed link arrivals events
        → RatesAreWithin link.rate (end_of link arrivals events) (known_of events) }
{}
