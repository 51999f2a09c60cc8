//! The table `packets`: a row for each packet.

ghost use Rattle.std.specs.Prelude.{◌≡◌, ◌++◌, IfOk, OnOk, option_map};
ghost use Rattle.std.specs.List.{flat_map};
ghost use Rattle.link_report.specs.Packets.{known_of};
ghost use Rattle.link_report.specs.Tables as Tables;
ghost use Rattle.link_report.specs.PacketTables.{known_packets_text, packet_line, packet_lines, packets_header, packets_text};

use crate::packets::{Fate, PacketRecord, Packets};
use crate::table::{Queue, Table};
use journal_core::{Event, Memory};
use std::alloc::Global;
use text_core::{Digits, cause_name, ecn_digit, mark_name};

/// The text of the table: a header, a row for each packet of the scheduler's journal, by id, and then a row for each of
/// the other queue's, where there is one. It fails for want of memory alone.
pub fn packets_text(
    alloc: Global,
    events: &[Event],
    fifo: Option<&[Event]>,
) -> Result<Vec<u8>, Memory>
    ensures { IfOk result (λ text. text.items ≡ packets_text events.now (option_map (λ e. e.now) fifo.entry)) }
{
    let mut table = Table::new(alloc);
    write_packets(&mut table, events, fifo)?;
    table.into_text()
}

/// The text of the table of the packets of journals, as `packets_text` writes it. It fails for want of memory alone.
pub fn packets_text_of(
    alloc: Global,
    packets: &Packets,
    fifo: Option<&Packets>,
) -> Result<Vec<u8>, Memory>
    ensures { IfOk result (λ text. text.items
        ≡ known_packets_text packets.now (option_map (λ p. p.now) fifo.entry)) }
{
    let mut table = Table::new(alloc);
    write_known_packets(&mut table, packets, fifo)?;
    table.into_text()
}

/// Writes the table of packets where nothing is written yet.
fn write_known_packets(
    table: &mut Table,
    packets: &Packets,
    fifo: Option<&Packets>,
) -> Result<(), Memory>
    ensures { OnOk result (Tables.AddsToTable table.old table.new
        (known_packets_text packets.now (option_map (λ p. p.now) fifo.entry))) }
{
    header(table)?;
    rows(table, Queue::FqCodel, packets.records())?;
    match fifo {
        Some(fifo) => rows(table, Queue::Fifo, fifo.records()),
        None => Ok(()),
    }
}

/// Writes the table where nothing is written yet.
fn write_packets(table: &mut Table, events: &[Event], fifo: Option<&[Event]>) -> Result<(), Memory>
    ensures { OnOk result (Tables.AddsToTable table.old table.new
        (packets_text events.now (option_map (λ e. e.now) fifo.entry))) }
{
    header(table)?;
    queue_rows(table, Queue::FqCodel, events)?;
    match fifo {
        Some(fifo) => queue_rows(table, Queue::Fifo, fifo),
        None => Ok(()),
    }
}

/// The header.
fn header(table: &mut Table) -> Result<(), Memory>
    ensures { OnOk result (Tables.AddsToTable table.old table.new (Tables.line_of packets_header)) }
{
    table.row(&[
        b"queue",
        b"id",
        b"tuple",
        b"flow",
        b"len",
        b"ecn",
        b"arrived",
        b"fate",
        b"at",
        b"delay",
        b"ecn_sent",
        b"mark",
        b"place",
    ])
}

/// The rows of a queue's journal.
fn queue_rows(table: &mut Table, queue: Queue, events: &[Event]) -> Result<(), Memory>
    ensures { OnOk result (Tables.AddsToTable table.old table.new (packet_lines queue events.now)) }
{
    let packets = Packets::of(table.allocator(), events)?;
    rows(table, queue, packets.records())
}

/// The rows of packets.
fn rows(table: &mut Table, queue: Queue, packets: &[PacketRecord]) -> Result<(), Memory>
    ensures { OnOk result (Tables.AddsToTable table.old table.new (flat_map (packet_line queue) packets.now)) }
{
    for packet in packets {
        row(table, queue, packet)?;
    }
    Ok(())
}

/// The row of a packet.
fn row(table: &mut Table, queue: Queue, packet: &PacketRecord) -> Result<(), Memory>
    ensures { OnOk result (Tables.AddsToTable table.old table.new (packet_line queue packet.now)) }
{
    let id = Digits::of(packet.id);
    let tuple = Digits::of(packet.tuple);
    let flow = Digits::of(u64::from(packet.flow));
    let len = Digits::of(u64::from(packet.len));
    let arrived = Digits::of(packet.arrived);
    match packet.fate {
        Fate::Waiting => table.row(&[
            queue.name(),
            id.as_bytes(),
            tuple.as_bytes(),
            flow.as_bytes(),
            len.as_bytes(),
            ecn_digit(packet.ecn),
            arrived.as_bytes(),
            b"",
            b"",
            b"",
            b"",
            b"",
            b"",
        ]),
        Fate::Sent {
            at,
            ecn,
            mark,
            place,
        } => {
            let delay = Digits::of(at.saturating_sub(packet.arrived));
            let (at, place) = (Digits::of(at), Digits::of(place));
            table.row(&[
                queue.name(),
                id.as_bytes(),
                tuple.as_bytes(),
                flow.as_bytes(),
                len.as_bytes(),
                ecn_digit(packet.ecn),
                arrived.as_bytes(),
                b"sent",
                at.as_bytes(),
                delay.as_bytes(),
                ecn_digit(ecn),
                mark_name(mark),
                place.as_bytes(),
            ])
        }
        Fate::Dropped { at, cause } => {
            let delay = Digits::of(at.saturating_sub(packet.arrived));
            let at = Digits::of(at);
            table.row(&[
                queue.name(),
                id.as_bytes(),
                tuple.as_bytes(),
                flow.as_bytes(),
                len.as_bytes(),
                ecn_digit(packet.ecn),
                arrived.as_bytes(),
                cause_name(cause),
                at.as_bytes(),
                delay.as_bytes(),
                b"",
                b"",
                b"",
            ])
        }
    }
}
