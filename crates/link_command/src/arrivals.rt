//! The arrivals that a trace has.

ghost use Rattle.std.specs.Prelude.{◌≡◌, ◌<◌, ◌≤◌, [], ℕ, List, IfErr, IfOk, IfSome, Some, length, vec_len};
ghost use Rattle.row_core.specs.Streams.{EndsWith, IsReadFailure};
ghost use Rattle.row_core.specs.Traces.{HasFailed, HasTaken, IsFaultOf};
ghost use Rattle.link_core.specs.Arrivals.{AreArrivals};
ghost use Rattle.link_command.specs.ArrivalTexts.{IsArrivalText, IsMemoryOfRow, IsOwnFault, IsOwnRow, IsTextFault, arrival_step, step_fault, without_lane};
ghost use Rattle.link_command.specs.InputFaults.{IsInputFault, IsToldAs, IsToldAt};

use crate::faults::{Found, ProgramFault, RowFault};
use crate::fields::{FieldName, faulty_field};
use csv::{ByteRecord, ErrorKind, ReaderBuilder};
use journal_core::{GhostList, Step};
use link_core::{Arrival, MAX_ARRIVAL_MOMENT};
use row_core::{
    MAX_BYTES, MAX_ROWS, Next, Records, Source, TraceFault, TraceFaultKind, TraceRows, read_text,
};
use std::alloc::{AllocError, Global};
use std::io::Read;

/// The most bytes of a row, or of a field, that a fault shows.
const MAX_SHOWN: usize = 200;

/// The arrivals that a reader gives: a trace whose rows are all `enq`, in the order of their moments. The grammar of all
/// rows is tested first, and then each row for what arrivals are.
pub fn read_arrivals<R: Read + Source + Records>(
    alloc: Global,
    reader: &mut R,
) -> Result<Vec<Arrival>, ProgramFault>
    ensures arrivals { IfOk result (λ arrivals. AreArrivals arrivals.items) }
    ensures few { IfOk result (λ arrivals. length arrivals.items ≤ MAX_ROWS) }
    ensures text { IfOk result (λ arrivals.
        IfSome (R.Source.remaining reader.old) (λ bytes. IsArrivalText bytes arrivals.items)) }
    ensures fault { IfErr result (IsInputFault
        (IsFaultOf (EndsWith R.Answered IsReadFailure reader.old reader.new) R.Cut) (R.Source.remaining reader.old)) }
{
    match whole_text(alloc, reader) {
        Ok(text) => text_arrivals::<R>(alloc, &text),
        Err(fault) => Err(trace_fault(alloc, &[], &fault)),
    }
}

/// All bytes that a reader gives.
// Kept out of its callers: the reading has 64 KiB on the stack.
#[inline(never)]
fn whole_text<R: Read + Source + Records>(
    alloc: Global,
    reader: &mut R,
) -> Result<Vec<u8>, TraceFault>
    ensures whole { IfOk result (λ text. IfSome (R.Source.remaining reader.old) (λ bytes. text.items ≡ bytes)) }
    ensures bound { IfOk result (λ text. vec_len text ≤ MAX_BYTES) }
    ensures fault { IfErr result (λ fault. IfSome (R.Source.remaining reader.old) (λ bytes. IsFaultOf
        (EndsWith R.Answered IsReadFailure reader.old reader.new) R.Cut bytes fault)) }
    ensures row { IfErr result (λ fault. fault.row ≡ 0) }
{
    read_text(alloc, reader)
}

/// The arrivals of a text.
// Kept out of its callers, as tables are made after it returns.
#[inline(never)]
fn text_arrivals<C: Records>(alloc: Global, text: &[u8]) -> Result<Vec<Arrival>, ProgramFault>
    requires { length text.now ≤ MAX_BYTES }
    ensures arrivals { IfOk result (λ arrivals. AreArrivals arrivals.items) }
    ensures few { IfOk result (λ arrivals. length arrivals.items ≤ MAX_ROWS) }
    ensures text { IfOk result (λ arrivals. IsArrivalText text.now arrivals.items) }
    ensures fault { IfErr result (IsInputFault (IsFaultOf ⊥ C.Cut) (Some text.now)) }
{
    let mut rows = TraceRows::new(alloc, text);
    match arrivals_of::<C>(alloc, &mut rows) {
        Ok(arrivals) => Ok(arrivals),
        Err(why) => Err(text_fault(alloc, text, why)),
    }
}

/// The fault of a text that has no arrivals, with no row where no row is wrong.
fn text_fault(alloc: Global, text: &[u8], why: NoArrivals) -> ProgramFault
    ensures { IsToldAs why result }
{
    match why {
        NoArrivals::Row(row, what) => row_fault(alloc, text, row, what),
        NoArrivals::Memory => ProgramFault::Memory,
    }
}

/// The fault for one of a trace.
fn trace_fault(alloc: Global, text: &[u8], fault: &TraceFault) -> ProgramFault
    ensures { IsToldAt fault.now.row (RowFault.Trace fault.now.what) result }
{
    row_fault(alloc, text, fault.row, RowFault::Trace(fault.what))
}

/// A fault of a row, with what was found there, or want of memory where there is none for that.
fn row_fault(alloc: Global, text: &[u8], row: u64, what: RowFault) -> ProgramFault
    ensures { IsToldAt row what result }
{
    match found_at(alloc, text, row, what) {
        Ok(found) => ProgramFault::Row(row, what, found),
        Err(_) => ProgramFault::Memory,
    }
}

/// What was found at a faulty row.
fn found_at(alloc: Global, text: &[u8], row: u64, what: RowFault) -> Result<Found, AllocError> {
    if row == 1 {
        if let Some(found) = other_input(text) {
            return Ok(found);
        }
    }
    let found = row_at(alloc, text, row)?;
    // Which addresses a trace may have its version says, and that stands in the first row.
    let first = match what {
        RowFault::Trace(TraceFaultKind::BadAddress) => row_at(alloc, text, 1)?,
        _ => ByteRecord::new(alloc),
    };
    match faulty_field(alloc, what, &found, &first)? {
        Some(name) => Ok(Found::Field(name, shown(alloc, name.in_row(&found))?)),
        None => Ok(Found::Row(joined(alloc, &found)?)),
    }
}

/// What the input is by its first bytes, where these aren't those of a row: a capture (pcap in either order of bytes, of
/// microseconds or nanoseconds, or pcapng), or UTF-16 in either order.
fn other_input(text: &[u8]) -> Option<Found> {
    match text {
        [0xd4, 0xc3, 0xb2, 0xa1, ..] | [0xa1, 0xb2, 0xc3, 0xd4, ..] => Some(Found::Capture),
        [0x4d, 0x3c, 0xb2, 0xa1, ..] | [0xa1, 0xb2, 0x3c, 0x4d, ..] => Some(Found::Capture),
        [
            0x0a,
            0x0d,
            0x0d,
            0x0a,
            _,
            _,
            _,
            _,
            0x4d,
            0x3c,
            0x2b,
            0x1a,
            ..
        ] => Some(Found::Capture),
        [
            0x0a,
            0x0d,
            0x0d,
            0x0a,
            _,
            _,
            _,
            _,
            0x1a,
            0x2b,
            0x3c,
            0x4d,
            ..
        ] => Some(Found::Capture),
        [0xff, 0xfe, ..] | [0xfe, 0xff, ..] | [0, _, ..] | [_, 0, ..] => Some(Found::Utf16),
        _ => None,
    }
}

/// The record that is the row of that number, as `csv` cuts it off the text, and none of fields where there is no such
/// row. Rows are counted from 1. A record with one empty field isn't counted.
fn row_at(alloc: Global, text: &[u8], row: u64) -> Result<ByteRecord, AllocError> {
    let mut records = ReaderBuilder::new()
        .has_headers(false)
        .flexible(true)
        .from_reader(alloc, text);
    let mut record = ByteRecord::new(alloc);
    let mut number = 0u64;
    // Each record takes a byte or more.
    for _turn in 0..text.len() {
        match records.read_byte_record(&mut record) {
            Ok(true) => {}
            Ok(false) => break,
            Err(error) => match error.kind() {
                ErrorKind::OutOfMemory => return Err(AllocError),
                _ => break,
            },
        }
        if record.len() == 1 && FieldName::Kind.in_row(&record).is_empty() {
            continue;
        }
        number = number.saturating_add(1);
        if number == row {
            return Ok(record);
        }
    }
    Ok(ByteRecord::new(alloc))
}

/// The fields of a row with a comma between each two, without what comes after the 200th byte.
fn joined(alloc: Global, row: &ByteRecord) -> Result<String, AllocError> {
    let mut text = Vec::new(alloc);
    for place in 0..row.len() {
        if place > 0 {
            text.push(b',')?;
        }
        text.extend_from_slice(row.get(place).unwrap_or(b"".as_slice()))?;
    }
    shown(alloc, &text)
}

/// The text of these bytes, without what comes after the 200th of them.
fn shown(alloc: Global, bytes: &[u8]) -> Result<String, AllocError> {
    String::from_utf8_lossy(alloc, &bytes[..bytes.len().min(MAX_SHOWN)])
}

/// Why a text has no arrivals.
#[derive(Clone, Copy)]
enum NoArrivals {
    /// What is wrong with the row of that number, from 1.
    Row(u64, RowFault),
    /// The list of arrivals can't grow.
    Memory,
}

/// The arrivals that rows ask for, from the start of their text on. Their steps stand in proofs alone.
fn arrivals_of<C: Records>(
    alloc: Global,
    rows: &mut TraceRows<'_>,
) -> Result<Vec<Arrival>, NoArrivals>
    ensures arrivals { IfOk result (λ arrivals. (text : List ℕ)
        → HasTaken text rows.old 0 [] → AreArrivals arrivals.items) }
    ensures text { IfOk result (λ arrivals. (text : List ℕ)
        → HasTaken text rows.old 0 [] → IsArrivalText text arrivals.items) }
    ensures fault { IfErr result (λ why. (text : List ℕ) → HasTaken text rows.old 0 []
        → IsTextFault (IsFaultOf ⊥ C.Cut) text why) }

    // Want of memory is that of a row only where the reader of rows has failed.
    ensures memory { IfErr result (λ why. IsMemoryOfRow why → HasFailed rows.new) }
{
    let mut steps = GhostList::new();
    let mut arrivals = Vec::new(alloc);
    let mut last = 0;
    // A record takes a byte or more, so the text ends before the turns do.
    for _turn in 0..u64::MAX {
        let row = rows.row_number();
        let next = match rows.next::<C>() {
            Ok(next) => next,
            Err(fault) => return Err(fault_at(fault.row, fault.what)),
        };
        match next {
            Next::End => return Ok(arrivals),
            Next::NoStep => {}
            Next::Row(step) => {
                steps = steps.and(&step);
                let arrival = match arrival_of(&step, last) {
                    Ok(arrival) => arrival,
                    Err(what) => {
                        let own = NoArrivals::Row(row, what);
                        return Err(first_fault::<C>(rows, steps, own));
                    }
                };
                last = arrival.moment;
                if arrivals.push(arrival).is_err() {
                    return Err(first_fault::<C>(rows, steps, NoArrivals::Memory));
                }
            }
        }
    }
    Err(fault_at(rows.row_number(), TraceFaultKind::TooLarge))
}

/// The first fault of a text of which a row is no arrival, or an arrival that can't be stored. It is one of the grammar of
/// a row after that one, or else that row's own. The rows up to that one ask for these steps.
fn first_fault<C: Records>(
    rows: &mut TraceRows<'_>,
    mut steps: GhostList<Step>,
    own: NoArrivals,
) -> NoArrivals
    requires { IsMemoryOfRow own → ⊥ }
    ensures fault { (text : List ℕ) (turns place : ℕ) → HasTaken text rows.old turns steps.items
        → IsOwnFault steps.items place own → IsOwnRow text place own
        → IsTextFault (IsFaultOf ⊥ C.Cut) text result }
    ensures memory { IsMemoryOfRow result → HasFailed rows.new }
{
    // A record takes a byte or more, so the text ends before the turns do.
    for _turn in 0..u64::MAX {
        let next = match rows.next::<C>() {
            Ok(next) => next,
            Err(fault) => return fault_at(fault.row, fault.what),
        };
        match next {
            Next::End => return own,
            Next::NoStep => {}
            Next::Row(step) => steps = steps.and(&step),
        }
    }
    fault_at(rows.row_number(), TraceFaultKind::TooLarge)
}

/// A row with a fault of traces.
fn fault_at(row: u64, what: TraceFaultKind) -> NoArrivals
    ensures { result ≡ NoArrivals.Row row (RowFault.Trace what) }
{
    NoArrivals::Row(row, RowFault::Trace(what))
}

/// The arrival that a step is, where the one before it came at that moment.
fn arrival_of(step: &Step, last: u64) -> Result<Arrival, RowFault>
    ensures moment { IfOk result (λ a. (last ≤ a.moment) × (a.moment < MAX_ARRIVAL_MOMENT)) }
    ensures step { IfOk result (λ a. without_lane step.now ≡ arrival_step a) }
    ensures fault { IfErr result (λ what. step_fault last step.now ≡ Some what) }
{
    let Step::Enqueue { moment, packet, .. } = *step else {
        return Err(RowFault::NotAnArrival);
    };
    if moment >= MAX_ARRIVAL_MOMENT {
        return Err(RowFault::TooLate);
    }
    if moment < last {
        return Err(RowFault::Backwards);
    }
    Ok(Arrival { moment, packet })
}
