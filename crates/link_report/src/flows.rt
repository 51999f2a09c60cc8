//! The table `flows`: a row for each five-tuple, and one for all packets.

ghost use Rattle.std.specs.Prelude.{◌≡◌, ◌≤◌, All, IfOk, IfSome, OnOk, length, option_map};
ghost use Rattle.std.specs.List.{flat_map};
ghost use Rattle.link_report.specs.Tables as Tables;
ghost use Rattle.link_report.specs.FlowTables.{all_line, delay_fields, events_of, first_flow, flow_lines, flows_header, flows_text, group_line, known_flows_text, known_lines, packets_of, span_of, summary_fields};

use crate::groups::{Group, grouped};
use crate::packets::{PacketRecord, Packets};
use crate::summary::{Delays, MAX_EVENTS, Summary, summarize};
use crate::table::{Queue, Table};
use journal_core::{Event, Memory};
use std::alloc::Global;
use text_core::{AddressText, Digits};

/// The events of a run, and when its link has sent its packets.
#[derive(Clone, Copy)]
pub struct RunEvents<'a> {
    /// Its journal.
    pub events: &'a [Event],
    /// The moment at which the link has sent the last packet whole, in microseconds, rounded up, as `run_link_to_end` of
    /// `link_core` answers it. It is 0 where none was sent.
    pub end: u64,
}

/// The packets of a run, and when its link has sent them.
#[derive(Clone, Copy)]
pub struct RunPackets<'a> {
    /// The packets of its journal.
    pub packets: &'a Packets,
    /// The moment at which the link has sent the last packet whole, in microseconds, rounded up, as `run_link_to_end` of
    /// `link_core` answers it. It is 0 where none was sent.
    pub end: u64,
}

/// The text of the table: a header, the rows of the scheduler's run, and then those of the other queue's, where there is
/// one. It fails for want of memory alone.
pub fn flows_text(
    alloc: Global,
    run: RunEvents<'_>,
    fifo: Option<RunEvents<'_>>,
) -> Result<Vec<u8>, Memory>
    requires few { length run.events.now ≤ MAX_EVENTS }
    requires fifo_few { IfSome fifo (λ r. length r.events.now ≤ MAX_EVENTS) }
    ensures { IfOk result (λ text. text.items ≡ flows_text (events_of run.entry) (option_map events_of fifo.entry)) }
{
    let mut table = Table::new(alloc);
    write_flows(&mut table, run, fifo)?;
    table.into_text()
}

/// The text of the table of the packets of runs, as `flows_text` writes it. It fails for want of memory alone.
pub fn flows_text_of(
    alloc: Global,
    run: RunPackets<'_>,
    fifo: Option<RunPackets<'_>>,
) -> Result<Vec<u8>, Memory>
    requires few { length run.packets.now.packets ≤ MAX_EVENTS }
    requires fifo_few { IfSome fifo (λ r. length r.packets.now.packets ≤ MAX_EVENTS) }
    ensures { IfOk result (λ text. text.items ≡ known_flows_text (packets_of run.entry) (option_map packets_of fifo.entry)) }
{
    let mut table = Table::new(alloc);
    write_known_flows(&mut table, run, fifo)?;
    table.into_text()
}

/// Writes the table of packets.
fn write_known_flows(
    table: &mut Table,
    run: RunPackets<'_>,
    fifo: Option<RunPackets<'_>>,
) -> Result<(), Memory>
    requires few { length run.packets.now.packets ≤ MAX_EVENTS }
    requires fifo_few { IfSome fifo (λ r. length r.packets.now.packets ≤ MAX_EVENTS) }
    ensures { OnOk result (Tables.AddsToTable table.old table.new
        (known_flows_text (packets_of run.entry) (option_map packets_of fifo.entry))) }
{
    header(table)?;
    known_rows(table, Queue::FqCodel, run.packets, run.end)?;
    match fifo {
        Some(fifo) => known_rows(table, Queue::Fifo, fifo.packets, fifo.end),
        None => Ok(()),
    }
}

/// Writes the table.
fn write_flows(
    table: &mut Table,
    run: RunEvents<'_>,
    fifo: Option<RunEvents<'_>>,
) -> Result<(), Memory>
    requires few { length run.events.now ≤ MAX_EVENTS }
    requires fifo_few { IfSome fifo (λ r. length r.events.now ≤ MAX_EVENTS) }
    ensures { OnOk result (Tables.AddsToTable table.old table.new
        (flows_text (events_of run.entry) (option_map events_of fifo.entry))) }
{
    header(table)?;
    queue_rows(table, Queue::FqCodel, run.events, run.end)?;
    match fifo {
        Some(fifo) => queue_rows(table, Queue::Fifo, fifo.events, fifo.end),
        None => Ok(()),
    }
}

/// The header.
fn header(table: &mut Table) -> Result<(), Memory>
    ensures { OnOk result (Tables.AddsToTable table.old table.new (Tables.line_of flows_header)) }
{
    table.row(&[
        b"queue",
        b"tuple",
        b"proto",
        b"src",
        b"dst",
        b"sport",
        b"dport",
        b"flow",
        b"packets",
        b"bytes",
        b"sent",
        b"sent_bytes",
        b"dropped_codel",
        b"dropped_overflow",
        b"marked",
        b"delay_min",
        b"delay_mean",
        b"delay_p50",
        b"delay_p95",
        b"delay_p99",
        b"delay_max",
        b"rate",
    ])
}

/// The rows of a queue's journal, whose packets are sent at that moment.
fn queue_rows(table: &mut Table, queue: Queue, events: &[Event], end: u64) -> Result<(), Memory>
    requires { length events.now ≤ MAX_EVENTS }
    ensures { OnOk result (Tables.AddsToTable table.old table.new (flow_lines queue end events.now)) }
{
    let packets = Packets::of(table.allocator(), events)?;
    known_rows(table, queue, &packets, end)
}

/// The rows of the five-tuples of packets, and that of all packets, which are sent at that moment.
fn known_rows(table: &mut Table, queue: Queue, packets: &Packets, end: u64) -> Result<(), Memory>
    requires { length packets.now.packets ≤ MAX_EVENTS }
    ensures { OnOk result (Tables.AddsToTable table.old table.new (known_lines queue end packets.now)) }
{
    let span = span_of(packets.records(), end);
    let groups = grouped(table.allocator(), packets)?;
    group_rows(table, queue, span, &groups)?;
    all_row(table, queue, span, packets.records())
}

/// The rows of five-tuples.
fn group_rows(table: &mut Table, queue: Queue, span: u64, groups: &[Group]) -> Result<(), Memory>
    requires { All (λ g. length g.packets ≤ MAX_EVENTS) groups.now }
    ensures { OnOk result (Tables.AddsToTable table.old table.new (flat_map (group_line queue span) groups.now)) }
{
    for group in groups {
        group_row(table, queue, span, group)?;
    }
    Ok(())
}

/// The time from the first arrival to the last fate, in microseconds, or to that moment where it is later.
fn span_of(packets: &[PacketRecord], end: u64) -> u64
    ensures { result ≡ span_of end packets.now }
{
    let [first, ..] = packets else {
        return 0;
    };
    let mut last = end;
    for packet in packets {
        last = last.max(packet.last_moment());
    }
    last.saturating_sub(first.arrived)
}

/// The flow of the first packet.
fn first_flow(packets: &[PacketRecord]) -> u32
    ensures { result ≡ first_flow packets.now }
{
    match packets {
        [first, ..] => first.flow,
        [] => 0,
    }
}

/// The digits of delays, and none where there are no delays.
#[derive(Drop)]
struct DelayDigits {
    min: Digits,
    mean: Digits,
    p50: Digits,
    p95: Digits,
    p99: Digits,
    max: Digits,
}

impl DelayDigits {
    ghost use Rattle.link_report.specs.SummaryFields.{delays_listed};

    /// The digits of delays.
    fn of(delays: Option<Delays>) -> DelayDigits
        ensures { delays_listed result ≡ delay_fields delays }
    {
        match delays {
            Some(delays) => DelayDigits {
                min: Digits::of(delays.min),
                mean: Digits::of(delays.mean),
                p50: Digits::of(delays.p50),
                p95: Digits::of(delays.p95),
                p99: Digits::of(delays.p99),
                max: Digits::of(delays.max),
            },
            None => DelayDigits {
                min: Digits::none(),
                mean: Digits::none(),
                p50: Digits::none(),
                p95: Digits::none(),
                p99: Digits::none(),
                max: Digits::none(),
            },
        }
    }
}

/// The digits of a summary.
#[derive(Drop)]
struct SummaryDigits {
    packets: Digits,
    bytes: Digits,
    sent: Digits,
    sent_bytes: Digits,
    dropped_codel: Digits,
    dropped_overflow: Digits,
    marked: Digits,
    delays: DelayDigits,
    rate: Digits,
}

impl SummaryDigits {
    ghost use Rattle.link_report.specs.SummaryFields.{listed};

    /// The digits of a summary.
    fn of(summary: &Summary) -> SummaryDigits
        ensures { listed result ≡ summary_fields summary.now }
    {
        SummaryDigits {
            packets: Digits::of(summary.packets),
            bytes: Digits::of(summary.bytes),
            sent: Digits::of(summary.sent),
            sent_bytes: Digits::of(summary.sent_bytes),
            dropped_codel: Digits::of(summary.dropped_codel),
            dropped_overflow: Digits::of(summary.dropped_overflow),
            marked: Digits::of(summary.marked),
            delays: DelayDigits::of(summary.delays),
            rate: Digits::of_any(summary.rate),
        }
    }
}

/// The row of a five-tuple.
fn group_row(table: &mut Table, queue: Queue, span: u64, group: &Group) -> Result<(), Memory>
    requires { length group.now.packets ≤ MAX_EVENTS }
    ensures { OnOk result (Tables.AddsToTable table.old table.new (group_line queue span group.now)) }
{
    let summary = summarize(table.allocator(), span, group.packets())?;
    let digits = SummaryDigits::of(&summary);
    let number = Digits::of(group.number());
    let tuple = group.tuple();
    let proto = Digits::of(u64::from(tuple.proto));
    let src = AddressText::of(tuple.src);
    let dst = AddressText::of(tuple.dst);
    let sport = Digits::of(u64::from(tuple.sport));
    let dport = Digits::of(u64::from(tuple.dport));
    let flow = Digits::of(u64::from(first_flow(group.packets())));
    table.row(&[
        queue.name(),
        number.as_bytes(),
        proto.as_bytes(),
        src.as_bytes(),
        dst.as_bytes(),
        sport.as_bytes(),
        dport.as_bytes(),
        flow.as_bytes(),
        digits.packets.as_bytes(),
        digits.bytes.as_bytes(),
        digits.sent.as_bytes(),
        digits.sent_bytes.as_bytes(),
        digits.dropped_codel.as_bytes(),
        digits.dropped_overflow.as_bytes(),
        digits.marked.as_bytes(),
        digits.delays.min.as_bytes(),
        digits.delays.mean.as_bytes(),
        digits.delays.p50.as_bytes(),
        digits.delays.p95.as_bytes(),
        digits.delays.p99.as_bytes(),
        digits.delays.max.as_bytes(),
        digits.rate.as_bytes(),
    ])
}

/// The row of all packets.
fn all_row(
    table: &mut Table,
    queue: Queue,
    span: u64,
    packets: &[PacketRecord],
) -> Result<(), Memory>
    requires { length packets.now ≤ MAX_EVENTS }
    ensures { OnOk result (Tables.AddsToTable table.old table.new (all_line queue span packets.now)) }
{
    let summary = summarize(table.allocator(), span, packets)?;
    let digits = SummaryDigits::of(&summary);
    table.row(&[
        queue.name(),
        b"all",
        b"",
        b"",
        b"",
        b"",
        b"",
        b"",
        digits.packets.as_bytes(),
        digits.bytes.as_bytes(),
        digits.sent.as_bytes(),
        digits.sent_bytes.as_bytes(),
        digits.dropped_codel.as_bytes(),
        digits.dropped_overflow.as_bytes(),
        digits.marked.as_bytes(),
        digits.delays.min.as_bytes(),
        digits.delays.mean.as_bytes(),
        digits.delays.p50.as_bytes(),
        digits.delays.p95.as_bytes(),
        digits.delays.p99.as_bytes(),
        digits.delays.max.as_bytes(),
        digits.rate.as_bytes(),
    ])
}
