//! A recorder that makes the rows of the table `series` of the events that it is told.

ghost use Rattle.std.specs.Prelude.{◌≡◌, ◌-◌, ◌<◌, ◌≤◌, [], ◌∷◌, ◌++◌, ℕ, List, IfNone, IfOk, IfSome, OnErr, OnOk, false, true};
ghost use Rattle.journal_core.specs.Steps.{accepted_event, drop_event, sent_event};
ghost use Rattle.journal_core.specs.declared.event.Event.{Event};
ghost use Rattle.journal_core.specs.declared.event.Event.TheVariants.{Closed};
ghost use Rattle.link_report.specs.Binnings.{AreToldInOrder, CanCount, GoesOn, binning_shape};
ghost use Rattle.link_report.specs.Packets.{known_of};
ghost use Rattle.link_report.specs.SeriesTables.{HasRowsBefore, heading, journal_walk, queue_text, series_lines};
ghost use Rattle.link_report.specs.Tables as Tables;

use crate::gathered::Gathered;
use crate::packets::Packets;
use crate::series::{Series, header};
use crate::table::{Queue, Table};
use codel_core::Served;
use journal_core::{Cause, Event, Memory, Recorder};
use packet_core::{Seed, Waiting};
use std::alloc::{AllocError, Global};
use std::marker::Model;

/// It makes the rows of the table `series` of the events that it is told, and stores no event. It keeps the packets, what
/// happened in the bin that is open, and the text of the bins before. A call that tells it an event can take memory for
/// these. Where that is refused, no more rows are made, there is no text, and it takes no more memory.
#[derive(Drop)]
pub struct Binned {
    /// The packets of the events, and what proofs say of these.
    gathered: Gathered,
    /// The bins of the events. The writer of their rows takes some 3 KiB, which each move of a recorder would copy.
    bins: Box<Bins>,
}

/// The bins of some events, as rows are made of them.
#[derive(Drop)]
struct Bins {
    /// The bin that is open.
    series: Series,
    /// The rows of the bins before.
    table: Table,
    /// Whether memory was refused, and rows are missing.
    is_short: bool,
}

impl Model for Binned {
    ghost use Rattle.link_report.specs.Binnings.{Binning, IsBinned, binning_of};

    ghost Value = { Binning };

    ghost view = { binning_of };

    ghost invariant = { IsBinned };
}

impl Binned {
    /// Nothing was told yet. It is told of that queue, and has bins of `every` microseconds. Where that is 0, all is in one
    /// bin. Five-tuples are found by a hash of that seed, and the text is the same under every seed.
    pub fn try_new(alloc: Global, seed: &Seed, queue: Queue, every: u64) -> Result<Binned, Memory>
        ensures queue { IfOk result (λ binned. binned.queue ≡ queue) }
        ensures every { IfOk result (λ binned. binned.every ≡ every) }
        ensures events { IfOk result (λ binned. binned.events ≡ []) }
        ensures sent { IfOk result (λ binned. binned.sent ≡ []) }
        ensures lost { IfOk result (λ binned. binned.lost ≡ []) }
        ensures short { IfOk result (λ binned. binned.is_short ≡ false) }
    {
        let series = Series::new(alloc, queue, every, 0)?;
        let mut table = Table::new(alloc);
        write_heading(&mut table, queue)?;
        let bins = Bins {
            series,
            table,
            is_short: false,
        };
        Ok(Binned {
            // The rows are of all packets, so none are left out.
            gathered: Gathered::new(alloc, seed, u64::MAX),
            bins: Box::new(alloc, bins)?,
        })
    }

    /// The queue that it is told of.
    pub fn queue(&self) -> Queue
        ensures { result ≡ self.now.queue }
    {
        self.bins.series.queue()
    }

    /// The width of its bins, in microseconds.
    pub fn every(&self) -> u64
        ensures { result ≡ self.now.every }
    {
        self.bins.series.every()
    }

    /// The packets of the events that it was told, or none where memory was refused for one.
    pub fn packets(&self) -> Option<&Packets>
        ensures packets { IfSome result (λ packets. packets.now ≡ known_of self.now.events) }
        ensures none { IfNone result (self.now.is_short ≡ true) }
    {
        self.gathered.packets()
    }

    /// Whether memory was refused as it was told an event. Then it has no text.
    pub fn is_short(&self) -> bool
        ensures { result ≡ self.now.is_short }
    {
        self.bins.is_short
    }

    /// The queue's part of the table `series`: the scheduler's begins with the header. It fails for want of memory alone,
    /// also for that of an event. Each fate must have come after the acceptance that it is of, as in every run.
    pub fn into_text(self) -> Result<Vec<u8>, Memory>
        ensures text { IfOk result (λ text. AreToldInOrder self.events
            → text.items ≡ queue_text self.queue self.every self.events) }
        ensures whole { IfOk result (λ _. self.is_short ≡ false) }
    {
        let Binned { gathered: _, bins } = self;
        if bins.is_short {
            return Err(AllocError);
        }
        ended_text(bins)
    }
}

/// Writes the header, where it is to stand.
fn write_heading(table: &mut Table, queue: Queue) -> Result<(), Memory>
    ensures { OnOk result (Tables.AddsToTable table.old table.new (heading queue)) }
{
    match queue {
        Queue::FqCodel => header(table),
        Queue::Fifo => Ok(()),
    }
}

impl Bins {
    /// Takes the event that was told last into its bin, unless memory was refused before. Where it was, or is now, no
    /// more packets are made.
    fn follow(&mut self, gathered: &mut Gathered, event: &Event)
        requires { gathered.old.most ≡ u64.MAX }
        ensures queue { self.new.series.queue ≡ self.old.series.queue }
        ensures every { self.new.series.every ≡ self.old.series.every }
        ensures short { self.old.is_short ≡ true → self.new.is_short ≡ true }
        ensures gathered { gathered.new ≡ record gathered.old { is_short = self.new.is_short } }
        ensures walk { self.new.is_short ≡ false → (before : List ℕ) (earlier : List Event)
            → gathered.old.events ≡ earlier ++ event.now ∷ [] → AreToldInOrder gathered.old.events
            → (self.old.is_short ≡ false → HasRowsBefore before self.old.series self.old.table
            (journal_walk self.old.series.queue self.old.series.every earlier))
            → HasRowsBefore before self.new.series self.new.table
            (journal_walk self.old.series.queue self.old.series.every gathered.old.events) }
    {
        self.is_short = self.is_short
            || gathered.is_short()
            || follow_event(gathered, &mut self.series, &mut self.table, event).is_err();
        if self.is_short {
            gathered.stop();
        }
    }
}

/// Takes the event that was told last into its bin. Its packet is one of those that are known then.
fn follow_event(
    gathered: &Gathered,
    series: &mut Series,
    table: &mut Table,
    event: &Event,
) -> Result<(), Memory>
    requires whole { gathered.now.is_short ≡ false }
    requires most { gathered.now.most ≡ u64.MAX }
    ensures queue { series.new.queue ≡ series.old.queue }
    ensures every { series.new.every ≡ series.old.every }
    ensures walk { OnOk result ((before : List ℕ) (earlier : List Event)
        → gathered.now.events ≡ earlier ++ event.now ∷ [] → AreToldInOrder gathered.now.events
        → HasRowsBefore before series.old table.old (journal_walk series.old.queue series.old.every earlier)
        → HasRowsBefore before series.new table.new
        (journal_walk series.old.queue series.old.every gathered.now.events)) }
{
    let packets = gathered.all_packets();
    series.widen(packets.tuples().len())?;
    series.take(table, packets.records(), event)
}

/// The text of the table, with the rows of the bin that is open.
fn ended_text(bins: Box<Bins>) -> Result<Vec<u8>, Memory>
    ensures { IfOk result (λ text. (before : List ℕ) (events : List Event)
        → HasRowsBefore before bins.value.series bins.value.table
        (journal_walk bins.value.series.queue bins.value.series.every events)
        → text.items ≡ before ++ series_lines bins.value.series.queue bins.value.series.every events) }
{
    let Bins {
        mut series,
        mut table,
        is_short: _,
    } = Box::into_inner(bins);
    series.write(&mut table)?;
    table.into_text()
}

impl Recorder for Binned {
    ghost told = { λ binned. binned.events };

    ghost sent = { λ binned. binned.sent };

    ghost lost = { λ binned. binned.lost };

    ghost room = { λ binned. binned.room };

    ghost made_for = { binning_shape };

    fn accept(&mut self, packet: &Waiting, lane: u32, flow: u32)
        requires { 0 < self.old.room }
        ensures told { self.new.events ≡ self.old.events ++ accepted_event lane flow packet.now ∷ [] }
        ensures sent { self.new.sent ≡ self.old.sent }
        ensures lost { self.new.lost ≡ self.old.lost }
        ensures room { self.new.room ≡ self.old.room - 1 }
        ensures on { GoesOn self.old self.new }
    {
        self.gathered.accept(packet, lane, flow);
        let event = Event::acceptance(packet, lane, flow);
        self.bins.follow(&mut self.gathered, &event);
    }

    fn send(&mut self, served: &Served, moment: u64)
        requires { 0 < self.old.room }
        ensures told { self.new.events ≡ self.old.events ++ sent_event moment served.now.mark served.now.waiting ∷ [] }
        ensures sent { self.new.sent ≡ self.old.sent ++ served.now.waiting ∷ [] }
        ensures lost { self.new.lost ≡ self.old.lost }
        ensures room { self.new.room ≡ self.old.room - 1 }
        ensures on { GoesOn self.old self.new }
    {
        self.gathered.send(served, moment);
        let event = Event::departure(served, moment);
        self.bins.follow(&mut self.gathered, &event);
    }

    fn lose(&mut self, packet: &Waiting, moment: u64, cause: Cause)
        requires { 0 < self.old.room }
        ensures told { self.new.events ≡ self.old.events ++ drop_event moment cause packet.now ∷ [] }
        ensures sent { self.new.sent ≡ self.old.sent }
        ensures lost { self.new.lost ≡ self.old.lost ++ packet.now ∷ [] }
        ensures room { self.new.room ≡ self.old.room - 1 }
        ensures on { GoesOn self.old self.new }
    {
        self.gathered.lose(packet, moment, cause);
        let event = Event::loss(packet, moment, cause);
        self.bins.follow(&mut self.gathered, &event);
    }

    fn close(&mut self, moment: u64)
        requires { 0 < self.old.room }
        ensures told { self.new.events ≡ self.old.events ++ Closed moment ∷ [] }
        ensures sent { self.new.sent ≡ self.old.sent }
        ensures lost { self.new.lost ≡ self.old.lost }
        ensures room { self.new.room ≡ self.old.room - 1 }
        ensures on { GoesOn self.old self.new }
    {
        self.gathered.close(moment);
        let event = Event::Closed { moment };
        self.bins.follow(&mut self.gathered, &event);
    }

    fn reserve(&mut self, more: usize) -> Result<(), Memory>
        ensures told { self.new.events ≡ self.old.events }
        ensures sent { self.new.sent ≡ self.old.sent }
        ensures lost { self.new.lost ≡ self.old.lost }
        ensures room { self.old.room ≤ self.new.room }
        ensures ok { OnOk result (more ≤ self.new.room) }
        ensures missing { OnErr result (self.old.room < more) }
        ensures err { OnErr result (self.new.room ≡ self.old.room) }
        ensures queue { self.new.queue ≡ self.old.queue }
        ensures every { self.new.every ≡ self.old.every }

        // A refusal is an answer, and no row is lost by it.
        ensures short { self.new.is_short ≡ self.old.is_short }

        // Where memory was refused before it takes none, so nothing that can be counted is refused.
        ensures made { OnErr result (CanCount self.old more → self.old.is_short ≡ false) }
    {
        self.gathered.reserve(more)
    }
}
