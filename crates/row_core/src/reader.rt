//! The reading of a trace: its bytes, the records that `csv` cuts off them, and the rows and steps of these.
ghost use Rattle.std.specs.Prelude.{◌≡◌, ◌<◌, ◌≤◌, ◌⊎◌, ◌∷◌, [], ℕ, ◌+◌, ◌++◌, IfErr, IfOk, IfSome, IsErrOf, List, Ok, OnErr, OnOk, false, length, true, vec_len};
ghost use Rattle.csv.specs.Reading.{default_config, error_kind, has_failed, records, strip_bom};
ghost use Rattle.csv.specs.Records.{fields_of};
ghost use Rattle.row_core.specs.Streams.{EndsWith, IsEnd, IsReadFailure};
ghost use Rattle.row_core.specs.Traces as Traces;

use crate::faults::{MAX_BYTES, MAX_ROWS, TraceFault, TraceFaultKind};
use crate::interruptions::Interruptions;
use crate::records::Records;
use crate::row::{Version, field, read_row, read_version, tells_version};
use crate::streams::Source;
use csv::{ByteRecord, ErrorKind, ReaderBuilder};
use journal_core::Step;
use std::alloc::Global;
use std::io::Read;

/// How many bytes are asked for at once: as many as a pipe of Linux holds (pipe(7)). They stand on the stack.
const CHUNK: usize = 65_536;

/// After so many calls there are too many bytes or too many interruptions: `MAX_BYTES` and `MAX_INTERRUPTIONS` together.
const MAX_CALLS: usize = 134_218_728;

/// The steps of the trace that a reader gives, one for each row that asks for one, in order. It refuses a trace whose
/// bytes can't be read or are too many, and then the first faulty row. `Read` at row 0 is answered only where a read was
/// answered with an error, which was no interruption or the one after `MAX_INTERRUPTIONS` others, and `Read` at a later
/// row only where a call of `csv` over the text was answered with an error.
pub fn read_trace<R: Read + Source + Records>(
    alloc: Global,
    reader: &mut R,
) -> Result<Vec<Step>, TraceFault>
    ensures steps { IfOk result (λ steps.
        IfSome (R.Source.remaining reader.old) (λ bytes. Traces.trace_of bytes ≡ Ok steps.items)) }
    ensures fault { IfErr result (λ fault.
        IfSome (R.Source.remaining reader.old) (λ bytes. Traces.IsFaultOf
        (EndsWith R.Answered IsReadFailure reader.old reader.new) R.Cut bytes fault)) }
    ensures read { IfErr result (λ fault. fault.what ≡ TraceFaultKind.Read
        → Traces.ReadFails (R.Source.remaining reader.old)
        (EndsWith R.Answered IsReadFailure reader.old reader.new) R.Cut fault.row) }
    ensures ended { OnOk result (EndsWith R.Answered IsEnd reader.old reader.new) }
{
    read_trace_from(alloc, reader)
}

/// The same as `read_trace`, of the trace that a source gives which needn't be a `Read`.
pub fn read_trace_from<S: Source + Records>(
    alloc: Global,
    source: &mut S,
) -> Result<Vec<Step>, TraceFault>
    ensures steps { IfOk result (λ steps.
        IfSome (S.remaining source.old) (λ bytes. Traces.trace_of bytes ≡ Ok steps.items)) }
    ensures fault { IfErr result (λ fault. IfSome (S.remaining source.old) (λ bytes. Traces.IsFaultOf
        (EndsWith S.Answered IsReadFailure source.old source.new) S.Cut bytes fault)) }

    // Read comes only where the source was given up or `csv`'s reader of its text has failed.
    ensures read { IfErr result (λ fault. fault.what ≡ TraceFaultKind.Read
        → Traces.ReadFails (S.remaining source.old)
        (EndsWith S.Answered IsReadFailure source.old source.new) S.Cut fault.row) }
    ensures ended { OnOk result (EndsWith S.Answered IsEnd source.old source.new) }
{
    let text = read_text(alloc, source)?;
    all_steps::<S>(alloc, &mut TraceRows::new(alloc, &text))
}

/// The text of the trace that a source gives: all its bytes, of which there are at most `MAX_BYTES`. A fault stands at
/// row 0, and `Read` is answered only where a call of the source was answered with an error, which was no interruption
/// or the one after `MAX_INTERRUPTIONS` others.
pub fn read_text<S: Source + Records>(alloc: Global, source: &mut S) -> Result<Vec<u8>, TraceFault>
    ensures whole { IfOk result (λ text. IfSome (S.remaining source.old) (λ bytes. text.items ≡ bytes)) }
    ensures bound { IfOk result (λ text. vec_len text ≤ MAX_BYTES) }
    ensures fault { IfErr result (λ fault. IfSome (S.remaining source.old) (λ bytes. Traces.IsFaultOf
        (EndsWith S.Answered IsReadFailure source.old source.new) S.Cut bytes fault)) }
    ensures row { IfErr result (λ fault. fault.row ≡ 0) }
    ensures read { IfErr result (λ fault. fault.what ≡ TraceFaultKind.Read
        → EndsWith S.Answered IsReadFailure source.old source.new) }
    ensures ended { OnOk result (EndsWith S.Answered IsEnd source.old source.new) }
{
    match read_bytes(alloc, source) {
        Ok(text) => Ok(text),
        Err(what) => Err(fault(0, what)),
    }
}

/// All the bytes that a source gives. It refuses more than `MAX_BYTES`, a source that is given up, and a growth that is
/// refused. It asks again where the source is interrupted.
fn read_bytes<S: Source>(alloc: Global, source: &mut S) -> Result<Vec<u8>, TraceFaultKind>
    ensures whole { IfOk result (λ text. IfSome (S.remaining source.old) (λ bytes. text.items ≡ bytes)) }
    ensures bound { IfOk result (λ text. vec_len text ≤ MAX_BYTES) }
    ensures too_large { IsErrOf result TraceFaultKind.TooLarge
        → IfSome (S.remaining source.old) (λ bytes. MAX_BYTES < length bytes) }
    ensures fault { IfErr result (λ fault.
        (fault ≡ TraceFaultKind.Read) ⊎ (fault ≡ TraceFaultKind.TooLarge) ⊎ (fault ≡ TraceFaultKind.Memory)) }
    ensures read { IsErrOf result TraceFaultKind.Read
        → EndsWith S.Answered IsReadFailure source.old source.new }
    ensures ended { OnOk result (EndsWith S.Answered IsEnd source.old source.new) }
{
    let mut text = Vec::new(alloc);
    let mut chunk = [0u8; CHUNK];
    let mut interruptions = Interruptions::none();
    // Each turn that isn't the last one takes a byte or more, or is an interruption more.
    for _turn in 0..=MAX_CALLS {
        match source.fill(&mut chunk) {
            Ok(0) => return Ok(text),
            Ok(count) => {
                if count > MAX_BYTES.saturating_sub(text.len()) {
                    return Err(TraceFaultKind::TooLarge);
                }
                if text.extend_from_slice(&chunk[..count]).is_err() {
                    return Err(TraceFaultKind::Memory);
                }
            }
            Err(why) => {
                if !interruptions.retries(&why) {
                    return Err(TraceFaultKind::Read);
                }
            }
        }
    }
    Err(TraceFaultKind::TooLarge)
}

/// What stands next in a text.
#[derive(Clone, Copy, Debug)]
pub enum Next {
    /// A row, which asks for that step.
    Row(Step),
    /// No step: a record with one empty field, which is no row and isn't counted, or the first row where that tells the
    /// version of the trace.
    NoStep,
    /// The end.
    End,
}

/// The rows of a text, as they are read one after the other. After the end and after a fault nothing is said of them.
#[derive(Drop)]
pub struct TraceRows<'a> {
    records: csv::Reader<&'a [u8]>,
    row: ByteRecord,
    row_number: u64,
    version: Version,
}

impl<'a> TraceRows<'a> {
    /// The rows of a text, from its start on.
    pub fn new(alloc: Global, text: &'a [u8]) -> TraceRows<'a>
        requires { length text.now ≤ MAX_BYTES }
        ensures { Traces.HasTaken text.now result 0 [] }
    {
        TraceRows {
            records: ReaderBuilder::new()
                .has_headers(false)
                .flexible(true)
                .from_reader(alloc, text),
            row: ByteRecord::new(alloc),
            row_number: 1,
            version: Version::One,
        }
    }

    /// What stands next. A fault comes at the row that it stands in.
    pub fn next<C: Records>(&mut self) -> Result<Next, TraceFault>
        ensures taken { IfOk result (λ next. Traces.TakesNext self.old next self.new) }
        ensures fault { IfErr result (λ fault. (text : List ℕ) (turns : ℕ) (steps : List Step)
            → Traces.HasTaken text self.old turns steps
            → Traces.IsRowsFault C.Cut text (Traces.reader_of self.new) fault) }

        // Memory comes only where `csv`'s reader has failed.
        ensures memory { IfErr result (λ fault. fault.what ≡ TraceFaultKind.Memory → Traces.HasFailed self.new) }
        ensures number { IfOk result (λ next. Traces.IsRowCounted self.old next self.new) }
    {
        match next_record::<C>(&mut self.records, &mut self.row) {
            Ok(true) => self.interpret(),
            Ok(false) => Ok(Next::End),
            Err(what) => Err(fault(self.row_number, what)),
        }
    }

    /// What the record says that was cut off last, behind the rows before it.
    // It isn't generic, so it is compiled in this crate, where the reading of a row merges into it.
    fn interpret(&mut self) -> Result<Next, TraceFault>
        ensures same { Traces.reader_of self.new ≡ Traces.reader_of self.old }
        ensures says { IfOk result (λ next. Traces.SaysNext self.old (fields_of self.old.row) next self.new) }
        ensures fault { IfErr result (λ fault. Traces.IsRecordFault self.old (fields_of self.old.row) fault) }
        ensures number { IfOk result (λ next. Traces.IsRowCounted self.old next self.new) }
    {
        if is_blank(&self.row) {
            return Ok(Next::NoStep);
        }
        if self.row_number > MAX_ROWS {
            return Err(fault(self.row_number, TraceFaultKind::TooLarge));
        }
        if tells_version(&self.row, self.row_number) {
            match read_version(&self.row) {
                Ok(version) => {
                    self.version = version;
                    self.row_number += 1;
                    Ok(Next::NoStep)
                }
                Err(what) => Err(fault(self.row_number, what)),
            }
        } else {
            match read_row(&self.row, self.version) {
                Ok(step) => {
                    self.row_number += 1;
                    Ok(Next::Row(step))
                }
                Err(what) => Err(fault(self.row_number, what)),
            }
        }
    }

    /// The number of the next row, from 1.
    pub fn row_number(&self) -> u64
        ensures { result ≡ Traces.next_number self.now }
    {
        self.row_number
    }
}

/// The steps of all rows of a text, from its start on.
fn all_steps<C: Records>(alloc: Global, rows: &mut TraceRows<'_>) -> Result<Vec<Step>, TraceFault>
    ensures steps { IfOk result (λ steps. (text : List ℕ)
        → Traces.HasTaken text rows.old 0 [] → Traces.steps_of text ≡ Ok steps.items) }
    ensures fault { IfErr result (λ fault. (text : List ℕ)
        → Traces.HasTaken text rows.old 0 [] → Traces.IsRowsFault C.Cut text (Traces.reader_of rows.new) fault) }
{
    let mut steps = Vec::new(alloc);
    // A record takes a byte or more, so the text ends before the turns do.
    for _turn in 0..u64::MAX {
        let row = rows.row_number();
        match rows.next::<C>()? {
            Next::End => return Ok(steps),
            Next::NoStep => {}
            Next::Row(step) => {
                if steps.push(step).is_err() {
                    return Err(fault(row, TraceFaultKind::Memory));
                }
            }
        }
    }
    Err(fault(rows.row_number(), TraceFaultKind::TooLarge))
}

/// What is wrong at a row.
fn fault(row: u64, what: TraceFaultKind) -> TraceFault
    ensures { result ≡ record { row = row; what = what } }
{
    TraceFault { row, what }
}

/// Cuts the next record off the text, and says whether there was one.
fn next_record<C: Records>(
    reader: &mut csv::Reader<&[u8]>,
    row: &mut ByteRecord,
) -> Result<bool, TraceFaultKind>
    ensures more { IfOk result (λ found. found ≡ true → (text : List ℕ) (before : List (List (List ℕ)))
        → Traces.HasRead text reader.old before
        → Traces.HasRead text reader.new (before ++ fields_of row.new ∷ [])) }
    ensures end { IfOk result (λ found. found ≡ false → (text : List ℕ) (before : List (List (List ℕ)))
        → Traces.HasRead text reader.old before → records default_config (strip_bom text) ≡ before) }
    ensures fault { IfErr result (λ fault. (fault ≡ TraceFaultKind.Read) ⊎ (fault ≡ TraceFaultKind.Memory)) }
    ensures failed { IfErr result (λ fault. fault ≡ TraceFaultKind.Read
        → (text : List ℕ) (before : List (List (List ℕ)))
        → Traces.HasRead text reader.old before → Traces.FailsBehind C.Cut text before reader.new) }
    ensures memory { IfErr result (λ fault. fault ≡ TraceFaultKind.Memory → has_failed reader.new ≡ true) }
{
    match C::read_record(reader, row) {
        Ok(found) => Ok(found),
        Err(error) => Err(fault_of(&error)),
    }
}

/// The fault for an error of `csv`.
fn fault_of(error: &csv::Error) -> TraceFaultKind
    ensures { result ≡ Traces.csv_fault (error_kind error.now) }
{
    match error.kind() {
        ErrorKind::OutOfMemory => TraceFaultKind::Memory,
        _ => TraceFaultKind::Read,
    }
}

/// Whether a record's only field is empty.
fn is_blank(row: &ByteRecord) -> bool
    ensures { result ≡ Traces.is_blank (fields_of row.now) }
{
    row.len() == 1 && field(row, 0).is_empty()
}
