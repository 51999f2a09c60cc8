//! The run of a trace: its steps are made as its rows are read, and the report is written.
ghost use Rattle.std.specs.Prelude.{◌≡◌, ◌≢◌, ◌≤◌, ◌<◌, ◌+◌, ◌++◌, ◌⊎◌, ℕ, List, IfErr, IfOk, IfSome, OnErr, OnOk, [], length, take};
ghost use Rattle.std.specs.Result.{IsOkUnless};
ghost use Rattle.std.specs.Io.KnownBytes.{Keeps};
ghost use Rattle.packet_core.specs.declared.flow.Seed.{Seed};
ghost use Rattle.packet_core.specs.declared.params.ParamFields.{ParamFields};
ghost use Rattle.journal_core.specs.Happened.{acceptances};
ghost use Rattle.journal_core.specs.Runs.{Takes};
ghost use Rattle.journal_core.specs.Tallies.{HasSeen};
ghost use Rattle.journal_core.specs.declared.step.Step.TheVariants.{Enqueue};
ghost use Rattle.sched_core.specs.Schedulers.{discipline_of, new_scheduler};
ghost use Rattle.trace_core.specs.Report.{IsReportOf, RunsStep, RunsText};
ghost use Rattle.row_core.specs.Streams.{EndsWith, IsEnd, IsReadFailure, IsWriteFailure, WentOn};
ghost use Rattle.row_core.specs.Traces.{HasTaken, IsFaultOf, IsRowsFault, ReadFails, TextReader, reader_of};
ghost use Rattle.row_core.specs.declared.faults.TraceFault.{TraceFault};
ghost use Rattle.row_core.specs.declared.faults.TraceFaultKind.TheVariants as kind;
ghost use Rattle.trace_core.specs.declared.trace_run.RunFault.TheVariants.{Memory, Trace};

use crate::report::Rows;
use crate::streams::Sink;
use journal_core::{Noted, Tally};
use packet_core::{Packet, Params, Seed};
use row_core::{
    Interruptions, MAX_BYTES, MAX_INTERRUPTIONS, Next, Records, Source, TraceFault, TraceFaultKind,
    TraceRows, read_text,
};
use sched_core::{Answer, Memory, Refusal, Sched, Step};
use std::alloc::{AllocError, Global};
use std::io::{Read, Write};
use thiserror::Error;

/// Why a run gave no report, or not the whole of it.
#[derive(Clone, Copy, Debug, PartialEq, Eq, Error)]
pub enum RunFault {
    /// The trace wasn't read. Nothing was written.
    #[error("{0}")]
    Trace(TraceFault),
    /// A growth was refused, beside those of the reading of the trace. Nothing was written.
    #[error("memory")]
    Memory,
    /// A write failed or took nothing. What was written is a front of the report, or of the journal.
    #[error("write")]
    Write,
}

impl From<TraceFault> for RunFault {
    ghost from_gives = { λ fault r. r ≡ Trace fault };

    fn from(fault: TraceFault) -> RunFault {
        RunFault::Trace(fault)
    }
}

impl From<AllocError> for RunFault {
    ghost from_gives = { λ _ r. r ≡ Memory };

    fn from(_: AllocError) -> RunFault {
        RunFault::Memory
    }
}

/// Reads a trace, makes its steps with a new scheduler of those parameters and that seed, and writes the report.
/// The whole report is made before the first byte of it is written. The writer isn't flushed.
///
/// `Read` at row 0 is answered only where a read was answered with an error, and `Write` only where a write was answered
/// with an error or took nothing. An interruption is such an error only after `MAX_INTERRUPTIONS` others of the same
/// stream. `Read` at a later row is answered only where a call of `csv` over the text was answered with an error.
pub fn run<R: Read + Source + Records, W: Write + Sink>(
    alloc: Global,
    reader: &mut R,
    writer: &mut W,
    params: Params,
    seed: Seed,
) -> Result<(), RunFault>
    ensures report { OnOk result (IfSome (R.Source.remaining reader.old) (λ bytes. (text : List ℕ)
        × IsReportOf params seed bytes text × W.Wrote writer.old text writer.new)) }
    ensures front { IfErr result (λ fault. fault ≡ RunFault.Write
        → IfSome (R.Source.remaining reader.old) (λ bytes. (text : List ℕ) × IsReportOf params seed bytes text
        × (count : ℕ) × W.Wrote writer.old (take count text) writer.new)) }
    ensures trace { IfErr result (λ fault. (why : TraceFault) → fault ≡ RunFault.Trace why
        → IfSome (R.Source.remaining reader.old) (λ bytes. IsFaultOf
        (EndsWith R.Answered IsReadFailure reader.old reader.new) R.Cut bytes why)) }
    ensures untouched { IfErr result (λ fault. (fault ≢ RunFault.Write)
        → Keeps (W.contents writer.old) (W.contents writer.new)) }
    ensures read { IfErr result (λ fault. (why : TraceFault) → fault ≡ RunFault.Trace why → why.what ≡ kind.Read
        → ReadFails (R.Source.remaining reader.old)
        (EndsWith R.Answered IsReadFailure reader.old reader.new) R.Cut why.row) }
    ensures write { IfErr result (λ fault. fault ≡ RunFault.Write
        → EndsWith W.Answered IsWriteFailure writer.old writer.new) }
    ensures memory { IfErr result (λ fault. fault ≡ RunFault.Memory
        → EndsWith R.Answered IsEnd reader.old reader.new
        × IfSome (R.Source.remaining reader.old) (λ bytes. length bytes ≤ MAX_BYTES)) }
    ensures ended { OnOk result (EndsWith R.Answered IsEnd reader.old reader.new) }
    ensures wrote { OnOk result (WentOn W.Answered writer.old writer.new) }
{
    run_between(alloc, reader, writer, params, seed)
}

/// The same as `run`, from a source to a sink which needn't be a `Read` and a `Write`.
pub fn run_between<S: Source + Records, K: Sink>(
    alloc: Global,
    source: &mut S,
    sink: &mut K,
    params: Params,
    seed: Seed,
) -> Result<(), RunFault>
    ensures report { OnOk result (IfSome (S.remaining source.old) (λ bytes. (text : List ℕ)
        × IsReportOf params seed bytes text × K.Wrote sink.old text sink.new)) }
    ensures front { IfErr result (λ fault. fault ≡ RunFault.Write
        → IfSome (S.remaining source.old) (λ bytes. (text : List ℕ) × IsReportOf params seed bytes text
        × (count : ℕ) × K.Wrote sink.old (take count text) sink.new)) }
    ensures trace { IfErr result (λ fault. (why : TraceFault) → fault ≡ RunFault.Trace why
        → IfSome (S.remaining source.old) (λ bytes. IsFaultOf
        (EndsWith S.Answered IsReadFailure source.old source.new) S.Cut bytes why)) }
    ensures untouched { IfErr result (λ fault. (fault ≢ RunFault.Write) → sink.new ≡ sink.old) }

    // Read comes only where the source was given up or `csv`'s reader of its text has failed, and Write only where the
    // sink was given up.
    ensures read { IfErr result (λ fault. (why : TraceFault) → fault ≡ RunFault.Trace why → why.what ≡ kind.Read
        → ReadFails (S.remaining source.old)
        (EndsWith S.Answered IsReadFailure source.old source.new) S.Cut why.row) }
    ensures write { IfErr result (λ fault. fault ≡ RunFault.Write
        → EndsWith K.Answered IsWriteFailure sink.old sink.new) }

    // Memory comes only once the whole text was read, which isn't too long.
    ensures memory { IfErr result (λ fault. fault ≡ RunFault.Memory
        → EndsWith S.Answered IsEnd source.old source.new
        × IfSome (S.remaining source.old) (λ bytes. length bytes ≤ MAX_BYTES)) }
    ensures ended { OnOk result (EndsWith S.Answered IsEnd source.old source.new) }
    ensures wrote { OnOk result (WentOn K.Answered sink.old sink.new) }
{
    let text = read_text(alloc, source)?;
    let report = run_text::<S>(alloc, &text, params, seed)?;
    write_text(sink, &report)
}

/// Makes the steps of a text with a new scheduler of those parameters and that seed, and gives the report.
fn run_text<C: Records>(
    alloc: Global,
    text: &[u8],
    params: Params,
    seed: Seed,
) -> Result<Vec<u8>, RunFault>
    requires { length text.now ≤ MAX_BYTES }
    ensures report { IfOk result (λ report. IsReportOf params seed text.now report.items) }
    ensures trace { IfErr result (λ fault. (why : TraceFault) → fault ≡ RunFault.Trace why
        → (reader : TextReader) × IsRowsFault C.Cut text.now reader why) }
    ensures write { IfErr result (λ fault. fault ≢ RunFault.Write) }
{
    let mut sched = Sched::try_with_recorder(alloc, params, seed, Noted::new(alloc))?;
    text_of::<C>(alloc, text, &mut sched)
}

/// Makes the steps of a text with a new scheduler, and gives the report.
fn text_of<C: Records>(
    alloc: Global,
    text: &[u8],
    sched: &mut Sched<Noted>,
) -> Result<Vec<u8>, RunFault>
    requires short { length text.now ≤ MAX_BYTES }
    requires new { sched.old.standing.events ≡ [] }
    ensures report { IfOk result (λ report. (params : ParamFields) → (seed : Seed)
        → sched.old ≡ new_scheduler params seed → IsReportOf params seed text.now report.items) }
    ensures trace { IfErr result (λ fault. (why : TraceFault) → fault ≡ RunFault.Trace why
        → (reader : TextReader) × IsRowsFault C.Cut text.now reader why) }
    ensures write { IfErr result (λ fault. fault ≢ RunFault.Write) }
{
    let mut report = Rows::new(alloc);
    let mut tally = Tally::new(alloc, &sched.seed());
    run_rows::<C>(
        sched,
        &mut TraceRows::new(alloc, text),
        &mut report,
        &mut tally,
    )?;
    Ok(report.finish(sched, tally)?)
}

/// Makes the steps of all rows of a text, from its start on, each as it is read, and writes its rows of the report.
fn run_rows<C: Records>(
    sched: &mut Sched<Noted>,
    rows: &mut TraceRows<'_>,
    report: &mut Rows,
    tally: &mut Tally,
) -> Result<(), RunFault>
    requires { HasSeen tally.old (acceptances sched.old.standing.events) }
    ensures run { OnOk result ((text : List ℕ) → HasTaken text rows.old 0 []
        → RunsText text sched.old sched.new report.old report.new) }
    ensures seen { OnOk result (HasSeen tally.new (acceptances sched.new.standing.events)) }
    ensures trace { IfErr result (λ fault. (why : TraceFault) → fault ≡ RunFault.Trace why
        → (text : List ℕ) → HasTaken text rows.old 0 [] → IsRowsFault C.Cut text (reader_of rows.new) why) }
    ensures write { IfErr result (λ fault. fault ≢ RunFault.Write) }
{
    // A record takes a byte or more, so the text ends before the turns do.
    for _turn in 0..u64::MAX {
        match rows.next::<C>()? {
            Next::End => return Ok(()),
            Next::NoStep => {}
            Next::Row(step) => run_step(sched, &step, report, tally)?,
        }
    }
    Err(RunFault::Trace(TraceFault {
        row: rows.row_number(),
        what: TraceFaultKind::TooLarge,
    }))
}

/// Makes a step, writes its rows of the report, and has its packet tallied, if it accepted one.
fn run_step(
    sched: &mut Sched<Noted>,
    step: &Step,
    report: &mut Rows,
    tally: &mut Tally,
) -> Result<(), Memory>
    requires { HasSeen tally.old (acceptances sched.old.standing.events) }
    ensures made { OnOk result (RunsStep step.now sched.old sched.new report.old report.new) }
    ensures seen { OnOk result (HasSeen tally.new (acceptances sched.new.standing.events)) }
{
    let first = sched.recorder().notes().len();
    let answer = make_step(sched, step, tally)?;
    report.step(answer, &sched.recorder().notes()[first..])
}

/// Makes a step, and has its packet tallied, if it accepted one.
fn make_step(sched: &mut Sched<Noted>, step: &Step, tally: &mut Tally) -> Result<Answer, Memory>
    requires { HasSeen tally.old (acceptances sched.old.standing.events) }
    ensures made { IfOk result
        (λ said. Takes (discipline_of sched.old) sched.old.standing step.now said sched.new.standing) }
    ensures params { OnOk result (sched.new.params ≡ sched.old.params) }
    ensures seed { OnOk result (sched.new.seed ≡ sched.old.seed) }
    ensures seen { OnOk result (HasSeen tally.new (acceptances sched.new.standing.events)) }
{
    match *step {
        Step::Enqueue {
            moment,
            lane,
            packet,
        } => make_enqueue(sched, moment, lane, packet, tally),
        // One call for both: so it is merged into its caller.
        Step::Dequeue { moment: _ } | Step::Close { moment: _ } => sched.make(step),
    }
}

/// Makes an enqueue. Where the packet is accepted, it is tallied in the flow that the scheduler says.
fn make_enqueue(
    sched: &mut Sched<Noted>,
    moment: u64,
    lane: u32,
    packet: Packet,
    tally: &mut Tally,
) -> Result<Answer, Memory>
    requires { HasSeen tally.old (acceptances sched.old.standing.events) }
    ensures made { IfOk result (λ said.
        Takes (discipline_of sched.old) sched.old.standing (Enqueue moment lane packet) said sched.new.standing) }
    ensures params { OnOk result (sched.new.params ≡ sched.old.params) }
    ensures seed { OnOk result (sched.new.seed ≡ sched.old.seed) }
    ensures seen { OnOk result (HasSeen tally.new (acceptances sched.new.standing.events)) }
{
    match sched.enqueue(moment, lane, packet) {
        Ok(admitted) => {
            tally.accept(packet.tuple(), admitted.flow)?;
            Ok(Answer::Accepted)
        }
        Err(Refusal::Memory) => Err(AllocError),
        Err(refusal) => Ok(Answer::Refused(refusal)),
    }
}

/// Writes the whole of a text. Where the sink is given up, the front of the text is written, and the fault is `Write`. It
/// tries again where the sink is interrupted.
pub fn write_text<S: Sink>(sink: &mut S, text: &[u8]) -> Result<(), RunFault>
    ensures whole { OnOk result (S.Wrote sink.old text.now sink.new) }
    ensures front { OnErr result ((count : ℕ) × S.Wrote sink.old (take count text.now) sink.new) }
    ensures gave_up { OnErr result (EndsWith S.Answered IsWriteFailure sink.old sink.new) }
    ensures went_on { OnOk result (WentOn S.Answered sink.old sink.new) }
    ensures fault { IsOkUnless result RunFault.Write }
{
    let mut done = 0;
    let mut interruptions = Interruptions::none();
    // Each turn takes a byte or more, or is an interruption more.
    for _turn in 0..text.len().saturating_add(MAX_INTERRUPTIONS as usize) {
        if done == text.len() {
            return Ok(());
        }
        match sink.put(&text[done..]) {
            Ok(0) => return Err(RunFault::Write),
            Ok(count) => done += count,
            Err(why) => {
                if !interruptions.retries(&why) {
                    return Err(RunFault::Write);
                }
            }
        }
    }
    Ok(())
}
