//! The steps of a run as a trace.

ghost use Rattle.std.specs.Prelude.{◌≡◌, IfOk, OnOk};
ghost use Rattle.std.specs.List.{flat_map};
ghost use Rattle.link_report.specs.Tables as Tables;
ghost use Rattle.link_report.specs.StepTables.{any_ipv6, is_ipv6_step, packet_fields, step_line, steps_text};

use crate::table::Table;
use journal_core::{Memory, Step};
use packet_core::Packet;
use std::alloc::Global;
use text_core::{AddressText, Digits, ecn_digit};

/// The steps as a trace, a row for each: in its first version where all addresses are of IPv4, and else in its second,
/// which the first row says. Lanes and tags aren't in it. It fails for want of memory alone.
pub fn steps_text(alloc: Global, steps: &[Step]) -> Result<Vec<u8>, Memory>
    ensures { IfOk result (λ text. text.items ≡ steps_text steps.now) }
{
    let mut table = Table::new(alloc);
    write_steps(&mut table, steps)?;
    table.into_text()
}

/// Writes the trace.
fn write_steps(table: &mut Table, steps: &[Step]) -> Result<(), Memory>
    ensures { OnOk result (Tables.AddsToTable table.old table.new (steps_text steps.now)) }
{
    if any_ipv6(steps) {
        table.row(&[b"version", b"2"])?;
    }
    rows(table, steps)
}

/// Whether a packet of some step has an address of IPv6.
fn any_ipv6(steps: &[Step]) -> bool
    ensures { result ≡ any_ipv6 steps.now }
{
    steps.iter().any(is_ipv6)
}

/// Whether a step's packet has an address of IPv6.
fn is_ipv6(step: &Step) -> bool
    ensures { result ≡ is_ipv6_step step.now }
{
    match step {
        Step::Enqueue { packet, .. } => {
            let tuple = packet.tuple();
            tuple.src.is_ipv6() || tuple.dst.is_ipv6()
        }
        Step::Dequeue { .. } | Step::Close { .. } => false,
    }
}

/// The rows of steps.
fn rows(table: &mut Table, steps: &[Step]) -> Result<(), Memory>
    ensures { OnOk result (Tables.AddsToTable table.old table.new (flat_map step_line steps.now)) }
{
    for step in steps {
        row(table, step)?;
    }
    Ok(())
}

/// The row of a step.
fn row(table: &mut Table, step: &Step) -> Result<(), Memory>
    ensures { OnOk result (Tables.AddsToTable table.old table.new (step_line step.now)) }
{
    match step {
        Step::Enqueue { moment, packet, .. } => enqueue_row(table, *moment, packet),
        Step::Dequeue { moment } => {
            let moment = Digits::of(*moment);
            table.row(&[b"deq", moment.as_bytes()])
        }
        Step::Close { moment } => {
            let moment = Digits::of(*moment);
            table.row(&[b"close", moment.as_bytes()])
        }
    }
}

/// The row of a packet that comes in.
fn enqueue_row(table: &mut Table, moment: u64, packet: &Packet) -> Result<(), Memory>
    ensures { OnOk result (Tables.AddsToTable table.old table.new (Tables.line_of (packet_fields moment packet.now))) }
{
    let tuple = packet.tuple();
    let moment = Digits::of(moment);
    let proto = Digits::of(u64::from(tuple.proto));
    let src = AddressText::of(tuple.src);
    let dst = AddressText::of(tuple.dst);
    let sport = Digits::of(u64::from(tuple.sport));
    let dport = Digits::of(u64::from(tuple.dport));
    let len = Digits::of(u64::from(packet.len()));
    table.row(&[
        b"enq",
        moment.as_bytes(),
        proto.as_bytes(),
        src.as_bytes(),
        dst.as_bytes(),
        sport.as_bytes(),
        dport.as_bytes(),
        len.as_bytes(),
        ecn_digit(packet.ecn()),
    ])
}
