//! What a picture shows, from journals.

ghost use Rattle.std.specs.Prelude.{◌≡◌, ◌≤◌, [], IfOk, IfSome, length, option_map};
ghost use Rattle.link_report.specs.declared.summary.TheConstants.{MAX_EVENTS};
ghost use Rattle.link_picture.specs.Axes.{IsAxis, first_moment, last_of, last_of_both};
ghost use Rattle.link_picture.specs.Contents.{ShowsJournals, ShowsPackets, events_of, line_count, names_of};

use crate::axis::Axis;
use crate::curves::{Curve, curves_of};
use crate::lines::{MAX_NAMED, choose};
use journal_core::{Event, Memory};
use link_report::{PacketRecord, Packets};
use packet_core::FiveTuple;
use std::alloc::Global;

/// What a picture shows. Its lines are those of the five-tuples that were chosen, and one for all others, where there
/// are others.
#[derive(Drop)]
pub struct Content {
    /// Its bins of time.
    pub axis: Axis,
    /// The numbers of the five-tuples that have a line of their own.
    pub chosen: Vec<u64>,
    /// Those five-tuples.
    pub names: Vec<FiveTuple>,
    /// How many others there are.
    pub others: usize,
    /// How many lines there are.
    pub lines: usize,
    /// How many packets arrived.
    pub packets: usize,
    /// The lines of the scheduler.
    pub scheduler: Vec<Curve>,
    /// The lines of the other queue, which show no packet where there is no such queue.
    pub fifo: Vec<Curve>,
}

impl Content {
    /// What a picture shows of the scheduler's journal, and of that of the other queue, where there is one. A journal has
    /// at most `MAX_EVENTS` entries. It fails for want of memory alone.
    pub fn of(
        alloc: Global,
        every: u64,
        events: &[Event],
        fifo: Option<&[Event]>,
    ) -> Result<Content, Memory>
        requires few { length events.now ≤ MAX_EVENTS }
        requires fifo_few { IfSome fifo (λ e. length e.now ≤ MAX_EVENTS) }
        ensures { IfOk result (λ content.
            ShowsJournals every events.now (events_of (option_map (λ e. e.now) fifo.entry)) content) }
    {
        let packets = Packets::of(alloc, events)?;
        let others = Packets::of(alloc, events_or_none(fifo))?;
        Content::of_packets(alloc, every, &packets, &others)
    }

    /// What a picture shows of the scheduler's packets and those of the other queue, of which there are none where there
    /// is no such queue. Each has at most `MAX_EVENTS`. It fails for want of memory alone.
    pub fn of_packets(
        alloc: Global,
        every: u64,
        packets: &Packets,
        fifo: &Packets,
    ) -> Result<Content, Memory>
        requires few { length packets.now.packets ≤ MAX_EVENTS }
        requires fifo_few { length fifo.now.packets ≤ MAX_EVENTS }
        ensures { IfOk result (ShowsPackets every packets.now fifo.now) }
    {
        let tuples = packets.tuples();
        let axis = axis_of(every, packets.records(), fifo.records());
        let chosen = choose(alloc, tuples.len(), packets.records())?;
        let names = names_of(alloc, &chosen, tuples)?;
        let others = tuples.len().saturating_sub(chosen.len());
        let lines = line_count(chosen.len(), others);
        let scheduler = curves_of(alloc, &axis, &chosen, lines, packets.records())?;
        let fifo = curves_of(alloc, &axis, &chosen, lines, fifo.records())?;
        Ok(Content {
            axis,
            chosen,
            names,
            others,
            lines,
            packets: packets.records().len(),
            scheduler,
            fifo,
        })
    }
}

/// How many lines there are for so many five-tuples that were chosen, and so many others.
fn line_count(chosen: usize, others: usize) -> usize
    requires { chosen ≤ MAX_NAMED }
    ensures { result ≡ line_count chosen others }
{
    if others == 0 {
        chosen
    } else {
        chosen.saturating_add(1)
    }
}

/// The events of a journal, and none where there is none.
fn events_or_none<'a>(events: Option<&'a [Event]>) -> &'a [Event]
    requires { IfSome events (λ e. length e.now ≤ MAX_EVENTS) }
    ensures value { result.now ≡ events_of (option_map (λ e. e.now) events.entry) }
    ensures few { length result.now ≤ MAX_EVENTS }
{
    match events {
        Some(events) => events,
        None => &[],
    }
}

/// The last moment that a picture shows, in microseconds. No run comes near it.
const LAST_MOMENT: u64 = u64::MAX - 1;

/// The bins from the first arrival to the last fate, of both queues.
fn axis_of(every: u64, packets: &[PacketRecord], fifo: &[PacketRecord]) -> Axis
    ensures { IsAxis every (first_moment packets.now) (last_of_both packets.now fifo.now) result }
{
    let from = match packets {
        [first, ..] => first.arrived.min(LAST_MOMENT),
        [] => 0,
    };
    let upto = last_moment(fifo, last_moment(packets, from));
    Axis::of(every, from, upto)
}

/// The last moment of some packets, and at least the one given.
fn last_moment(packets: &[PacketRecord], moment: u64) -> u64
    requires { moment ≤ LAST_MOMENT }
    ensures last { result ≡ last_of moment packets.now }
    ensures from { moment ≤ result }
    ensures upto { result ≤ LAST_MOMENT }
{
    let mut last = moment;
    for packet in packets {
        last = last.max(packet.last_moment().min(LAST_MOMENT));
    }
    last
}

/// The five-tuples with those numbers.
fn names_of(alloc: Global, chosen: &[u64], tuples: &[FiveTuple]) -> Result<Vec<FiveTuple>, Memory>
    ensures { IfOk result (λ names. names.items ≡ names_of chosen.now tuples.now) }
{
    let mut names = Vec::new(alloc);
    for number in chosen {
        if let Some(tuple) = tuples.get(*number as usize) {
            names.push(*tuple)?;
        }
    }
    Ok(names)
}
