//! The whole program over words and streams: it writes a table of a link's run, or help, and reports a fault with its
//! status.

ghost use Rattle.std.specs.Prelude.{◌≡◌, ◌≢◌, ◌⊎◌, [], ◌≤◌, ◌<◌, ℕ, IfErr, IfOk, IfSome, List, OnErr, OnOk, Some, false, length, map, option_map, take, true};
ghost use Rattle.std.specs.Io.KnownBytes.{Appends, Keeps};
ghost use Rattle.row_core.specs.Streams.{EndsWith, IsReadFailure};
ghost use Rattle.row_core.specs.Traces.{IsFaultOf};
ghost use Rattle.link_core.specs.Arrivals.{AreArrivals};
ghost use Rattle.link_core.specs.Fifo.{IsFifoJournal};
ghost use Rattle.journal_core.specs.declared.event.Event.{Event};
ghost use Rattle.link_core.specs.LinkLaws.{end_of};
ghost use Rattle.link_core.specs.LinkRuns.{HasRunLink};
ghost use Rattle.link_command.specs.CommandLine.{texts_of};
ghost use Rattle.link_command.specs.Faults.{status_of};
ghost use Rattle.link_command.specs.declared.faults.ProgramFault.{ProgramFault};
ghost use Rattle.link_command.specs.Notes.{run_note};
ghost use Rattle.link_command.specs.Values.{RunParts, SaysRun};
ghost use Rattle.link_command.specs.Runs.{Answers, AsksForInput, FailsBy, HasFifoRows, HasRunRows, IsAsked, IsFaultOn, IsJournalText, IsComparedText, IsNoteAsked, IsNoteFor, IsNoteOf, IsNoted, IsRunFault, IsTableFor, IsTableOf, IsTraceOf};
ghost use Rattle.link_command.specs.RunsSaid.{run_parts_of};
ghost use Rattle.link_report.specs.Binnings.{AreToldInOrder, binning_shape, shape_of};
ghost use Rattle.link_command.specs.RunsTold.{EndsBy, known_told};
ghost use Rattle.link_report.specs.FlowTables as Tables;
ghost use Rattle.link_report.specs.Packets.{known_of};
ghost use Rattle.link_report.specs.SeriesTables.{queue_text};
ghost use Rattle.sched_core.specs.Schedulers.{IsMadeFor};

use crate::arrivals::read_arrivals;
use crate::command_line::{Asked, RunRequest, TableName, parse};
use crate::faults::{ProgramFault, tell};
use crate::notes::{
    Terminals, note_fifo, note_input, note_read, note_report, note_rows, note_run, run_note,
    write_note,
};
use crate::values::{Run, run_of};
use link_core::laws::few_events;
use link_core::{
    Arrival, fifo_fates, fifo_few_events, run_fifo_to_end, run_fifo_with_recorder, run_link_to_end,
    run_link_with_recorders,
};
use link_picture::{Settings, picture_text_of};
use link_report::{
    Binned, Gathered, MAX_EVENTS, Packets, Queue, RunPackets, flows_text_of, packets_text_of,
    steps_text,
};
use packet_core::Seed;
use row_core::{MAX_ROWS, Records, Source};
use sched_core::{Engine, Memory, NullRecorder, Recorder, StepList, StepRecorder};
use std::alloc::{AllocError, Global};
use std::io::{Read, Write};
use trace_core::{Sink, write_text};

/// The exit status of a successful run and of help.
const SUCCESS: u8 = 0;

/// What the arguments ask for.
#[derive(Drop)]
pub(crate) struct Report {
    /// A table, or another text.
    pub(crate) text: Vec<u8>,
    /// A note on it for people, which mostly is empty.
    pub(crate) note: Vec<u8>,
}

/// The whole program over its arguments. It reads arrivals and writes a table of a link's run, or writes help where the
/// arguments ask for that, and reports a fault on `faults`. It returns the status that the program ends with. Where
/// standard streams are a terminal, it reports there too what it reads, and how far a long run is.
pub fn program<R: Read + Source + Records, W: Write, F: Write + Sink>(
    alloc: Global,
    words: &[&str],
    reader: &mut R,
    writer: &mut W,
    faults: &mut F,
    terminals: Terminals,
) -> u8
    // With the status 0 the writer holds what it held, and then the table that the words ask for, of the link's run of
    // the arrivals that were read. Or the words ask for help or the version, and a text is written.
    ensures answer { result ≡ 0 → Answers (map (λ w. w.now) words.now) (R.Source.remaining reader.old)
        (W.contents writer.old) (W.contents writer.new) }

    // With the status 0 and no terminal, nothing is reported but the note on the run that was asked for: that no packet
    // came, or that the marks of a five-tuple are in vain. It is whole, or a front of it where its write failed.
    ensures quiet { result ≡ 0 → terminals.input ≡ false → terminals.faults ≡ false
        → (before : F) × Keeps (F.contents faults.old) (F.contents before)
        × IsNoted F.Wrote F.Answered (map (λ w. w.now) words.now) (R.Source.remaining reader.old) before faults.new }

    // Any other status is that of a fault that these words and this input have, by which the writer came from what it
    // held to what it holds: a front of the table or of the text where a write failed, else what it held.
    ensures fault { (result ≢ 0) → (fault : ProgramFault)
        × FailsBy (IsFaultOf (EndsWith R.Answered IsReadFailure reader.old reader.new) R.Cut)
        (map (λ w. w.now) words.now) (R.Source.remaining reader.old)
        (W.contents writer.old) (W.contents writer.new) fault
        × (result ≡ status_of fault) }

    // Nothing is read, unless the words ask for a run and what they say is good: help doesn't wait for input.
    ensures unread { AsksForInput (map (λ w. w.now) words.now) ⊎ (reader.new ≡ reader.old) }

    // With the status 2, where something that was given is wrong, nothing was written.
    ensures input_fault { result ≡ 2 → Keeps (W.contents writer.old) (W.contents writer.new) }
    ensures range { result ≤ 2 }
{
    match text_asked(alloc, words, reader, faults, terminals) {
        Ok(report) => match write_text(writer, &report.text) {
            Ok(()) => {
                write_note(faults, &report.note);
                SUCCESS
            }
            Err(_) => tell(faults, &ProgramFault::Write),
        },
        Err(fault) => tell(faults, &fault),
    }
}

/// What the arguments ask for: a table, or help.
fn text_asked<R: Read + Source + Records, F: Write>(
    alloc: Global,
    words: &[&str],
    reader: &mut R,
    notes: &mut F,
    terminals: Terminals,
) -> Result<Report, ProgramFault>
    ensures text { IfOk result (λ report.
        IsAsked (map (λ w. w.now) words.now) (R.Source.remaining reader.old) report.text.items) }
    ensures note { IfOk result (λ report.
        IsNoteAsked (map (λ w. w.now) words.now) (R.Source.remaining reader.old) report.note.items) }
    ensures fault { IfErr result (IsFaultOn
        (IsFaultOf (EndsWith R.Answered IsReadFailure reader.old reader.new) R.Cut)
        (map (λ w. w.now) words.now) (R.Source.remaining reader.old)) }
    ensures unread { AsksForInput (map (λ w. w.now) words.now) ⊎ (reader.new ≡ reader.old) }
    ensures quiet { terminals.input ≡ false → terminals.faults ≡ false
        → Keeps (F.contents notes.old) (F.contents notes.new) }
{
    match parse(alloc, words)? {
        Asked::Run(request) => run_text(alloc, &request, reader, notes, terminals),
        Asked::Text(text) => Ok(Report {
            text: text.into_bytes(),
            note: Vec::new(alloc),
        }),
    }
}

/// The table that is asked for. The values of options are tested in their order, then the parameters, and then the
/// arrivals.
fn run_text<R: Read + Source + Records, F: Write>(
    alloc: Global,
    request: &RunRequest<'_>,
    reader: &mut R,
    notes: &mut F,
    terminals: Terminals,
) -> Result<Report, ProgramFault>
    ensures text { IfOk result (λ report.
        IsTableFor (texts_of request.now) (R.Source.remaining reader.old) report.text.items) }
    ensures note { IfOk result (λ report.
        IsNoteFor (texts_of request.now) (R.Source.remaining reader.old) report.note.items) }
    ensures fault { IfErr result (IsRunFault
        (IsFaultOf (EndsWith R.Answered IsReadFailure reader.old reader.new) R.Cut)
        (texts_of request.now) (R.Source.remaining reader.old)) }
    ensures unread { ((run : RunParts) × SaysRun (texts_of request.now) run) ⊎ (reader.new ≡ reader.old) }
    ensures quiet { terminals.input ≡ false → terminals.faults ≡ false
        → Keeps (F.contents notes.old) (F.contents notes.new) }
{
    let run = run_of(alloc, request)?;
    note_input(notes, terminals);
    let arrivals = read_arrivals(alloc, reader)?;
    note_read(notes, terminals, &arrivals);
    table_text(alloc, request, &run, &arrivals, notes, terminals)
}

/// The table of a run of these arrivals.
fn table_text<F: Write>(
    alloc: Global,
    request: &RunRequest<'_>,
    run: &Run,
    arrivals: &[Arrival],
    notes: &mut F,
    terminals: Terminals,
) -> Result<Report, ProgramFault>
    requires arrivals { AreArrivals arrivals.now }
    requires few { length arrivals.now ≤ MAX_ROWS }
    ensures text { IfOk result (λ report.
        IsTableOf (texts_of request.now) (run_parts_of run.now) arrivals.now report.text.items) }
    ensures note { IfOk result (λ report. IsNoteOf (run_parts_of run.now) arrivals.now report.note.items) }
    ensures fault { IfErr result (λ fault. fault ≡ ProgramFault.Memory) }
    ensures quiet { terminals.faults ≡ false → Keeps (F.contents notes.old) (F.contents notes.new) }
{
    if request.table == TableName::Steps {
        return trace_text(alloc, run, arrivals, notes, terminals);
    }
    if request.table == TableName::Series {
        return bins_text(alloc, request, run, arrivals, notes, terminals);
    }
    let events = recorder_for(alloc, &run.seed, request.table);
    let (engine, end) = run_link_to_end(
        alloc,
        run.params,
        run.seed,
        &run.link,
        arrivals,
        events,
        NullRecorder::new(),
    )?;
    note_run(notes, terminals, run, arrivals, &engine);
    // A million arrivals have two million events, and each table takes that many.
    few_events();
    let told = Told {
        events: engine.recorder(),
        end,
    };
    noted_text(alloc, request, run, arrivals, told, notes, terminals)
}

/// The table of a run's packets, and the note on that run.
fn noted_text<F: Write>(
    alloc: Global,
    request: &RunRequest<'_>,
    run: &Run,
    arrivals: &[Arrival],
    told: Told<'_>,
    notes: &mut F,
    terminals: Terminals,
) -> Result<Report, ProgramFault>
    requires arrivals { AreArrivals arrivals.now }
    requires few { length arrivals.now ≤ MAX_ROWS }
    requires events_few { length told.events.now.events ≤ MAX_EVENTS }
    requires taken { length told.events.now.events ≤ told.events.now.most }
    requires end { told.end ≡ end_of run.now.link arrivals.now told.events.now.events }
    requires steps { request.now.table ≢ TableName.Steps }
    requires series { request.now.table ≢ TableName.Series }
    ensures text { IfOk result (λ report. IsComparedText request.now.table request.now.has_fifo
        (run_parts_of run.now) arrivals.now told.entry.events.now.events report.text.items) }
    ensures note { IfOk result (λ report. report.note.items
        ≡ run_note arrivals.now run.now.params (known_of told.entry.events.now.events)) }
    ensures fault { IfErr result (λ fault. fault ≡ ProgramFault.Memory) }
    ensures quiet { terminals.faults ≡ false → Keeps (F.contents notes.old) (F.contents notes.new) }
{
    let note = gathered_note(alloc, run, arrivals, told.events)?;
    let text = compared_text(alloc, request, run, arrivals, told, notes, terminals)?;
    Ok(Report { text, note })
}

/// The note on the run of these arrivals, whose events that recorder was told.
fn gathered_note(
    alloc: Global,
    run: &Run,
    arrivals: &[Arrival],
    events: &Gathered,
) -> Result<Vec<u8>, Memory>
    requires { length events.now.events ≤ events.now.most }
    ensures { IfOk result (λ note. note.items
        ≡ run_note arrivals.now run.now.params (known_of events.now.events)) }
{
    run_note(alloc, arrivals, &run.params, packets_of(events)?)
}

/// The run of these arrivals, whose events and steps these recorders are told.
fn run_told<K: Recorder, S: StepRecorder>(
    alloc: Global,
    run: &Run,
    arrivals: &[Arrival],
    events: K,
    steps: S,
) -> Result<Engine<K, S>, Memory>
    requires arrivals { AreArrivals arrivals.now }
    requires events { K.told events ≡ [] }
    requires none_sent { K.sent events ≡ [] }
    requires no_loss { K.lost events ≡ [] }
    requires made_for { IsMadeFor run.now.params.limit (K.made_for events) }
    requires steps { S.told steps ≡ [] }
    ensures run { IfOk result (HasRunLink run.now.params run.now.seed run.now.link arrivals.now) }
    ensures made_for { IfOk result (λ engine. engine.sched.made_for ≡ K.made_for events) }
{
    run_link_with_recorders(
        alloc, run.params, run.seed, &run.link, arrivals, events, steps,
    )
}

/// A recorder of what that table shows of a run's events.
fn recorder_for(alloc: Global, seed: &Seed, table: TableName) -> Gathered
    ensures events { result.events ≡ [] }
    ensures sent { result.sent ≡ [] }
    ensures lost { result.lost ≡ [] }
    ensures packets { table ≡ TableName.Packets → result.most ≡ u64.MAX }
    ensures most { MAX_EVENTS ≤ result.most }
{
    Gathered::new(alloc, seed, most_for(table))
}

/// Of how many events that table shows the packets.
fn most_for(table: TableName) -> u64
    ensures packets { table ≡ TableName.Packets → result ≡ u64.MAX }
    ensures others { MAX_EVENTS ≤ result }
{
    // The other tables take no more events than these, and no run of a trace has more.
    match table {
        TableName::Packets => u64::MAX,
        _ => MAX_EVENTS as u64,
    }
}

/// The steps of a run of these arrivals, as a trace.
// Each table is kept out of the functions above it. Merged into them, all tables' values would lie in one frame.
#[inline(never)]
fn trace_text<F: Write>(
    alloc: Global,
    run: &Run,
    arrivals: &[Arrival],
    notes: &mut F,
    terminals: Terminals,
) -> Result<Report, ProgramFault>
    requires arrivals { AreArrivals arrivals.now }
    requires few { length arrivals.now ≤ MAX_ROWS }
    ensures text { IfOk result (λ report. IsTraceOf (run_parts_of run.now) arrivals.now report.text.items) }
    ensures note { IfOk result (λ report. IsNoteOf (run_parts_of run.now) arrivals.now report.note.items) }
    ensures fault { IfErr result (λ fault. fault ≡ ProgramFault.Memory) }
    ensures quiet { terminals.faults ≡ false → Keeps (F.contents notes.old) (F.contents notes.new) }
{
    let events = recorder_for(alloc, &run.seed, TableName::Steps);
    let steps = StepList::new(alloc);
    let engine = run_told(alloc, run, arrivals, events, steps)?;
    note_run(notes, terminals, run, arrivals, &engine);
    // The recorder takes as many events as a million arrivals have.
    few_events();
    let (left, steps) = engine.give_up();
    let note = last_note(alloc, run, arrivals, left.recorder)?;
    let text = steps_text(alloc, &steps.into_steps())?;
    Ok(Report { text, note })
}

/// The same note, where the recorder isn't needed any more. So the text of the steps doesn't take memory beside it.
fn last_note(
    alloc: Global,
    run: &Run,
    arrivals: &[Arrival],
    events: Gathered,
) -> Result<Vec<u8>, Memory>
    requires { length events.events ≤ events.most }
    ensures { IfOk result (λ note. note.items ≡ run_note arrivals.now run.now.params (known_of events.events)) }
{
    gathered_note(alloc, run, arrivals, &events)
}

/// The table of bins of a run of these arrivals, with those of a FIFO if that is asked for. The rows are made as the
/// events are told, so no journal is stored. The packets of the run go before the FIFO's come.
#[inline(never)]
fn bins_text<F: Write>(
    alloc: Global,
    request: &RunRequest<'_>,
    run: &Run,
    arrivals: &[Arrival],
    notes: &mut F,
    terminals: Terminals,
) -> Result<Report, ProgramFault>
    requires arrivals { AreArrivals arrivals.now }
    requires table { request.now.table ≡ TableName.Series }
    ensures text { IfOk result (λ report.
        IsTableOf (texts_of request.now) (run_parts_of run.now) arrivals.now report.text.items) }
    ensures note { IfOk result (λ report. IsNoteOf (run_parts_of run.now) arrivals.now report.note.items) }
    ensures fault { IfErr result (λ fault. fault ≡ ProgramFault.Memory) }
    ensures quiet { terminals.faults ≡ false → Keeps (F.contents notes.old) (F.contents notes.new) }
{
    let mut report = run_rows(alloc, run, arrivals)?;
    note_report(notes, terminals, run, arrivals, &report);
    if !request.has_fifo {
        return Ok(report);
    }
    let rows = fifo_rows(alloc, run, arrivals)?;
    note_rows(notes, terminals, run, arrivals, &rows);
    report.text.extend_from_slice(&rows)?;
    Ok(report)
}

/// The header and the rows of bins of a run of these arrivals, with the note on it.
#[inline(never)]
fn run_rows(alloc: Global, run: &Run, arrivals: &[Arrival]) -> Result<Report, Memory>
    requires { AreArrivals arrivals.now }
    ensures rows { IfOk result (λ report. HasRunRows (run_parts_of run.now) arrivals.now report.text.items) }
    ensures note { IfOk result (λ report. IsNoteOf (run_parts_of run.now) arrivals.now report.note.items) }
{
    let events = Binned::try_new(alloc, &run.seed, Queue::FqCodel, run.every)?;
    let engine = run_told(alloc, run, arrivals, events, NullRecorder::new())?;
    engine.journal_laws();
    let note = binned_note(alloc, run, arrivals, engine.recorder())?;
    let (left, _) = engine.give_up();
    let text = rows_of_bins(left.recorder, Queue::FqCodel, run.every)?;
    Ok(Report { text, note })
}

/// The note on the run of these arrivals, whose events that recorder was told.
fn binned_note(
    alloc: Global,
    run: &Run,
    arrivals: &[Arrival],
    events: &Binned,
) -> Result<Vec<u8>, Memory>
    ensures { IfOk result (λ note. note.items
        ≡ run_note arrivals.now run.now.params (known_of events.now.events)) }
{
    match events.packets() {
        Some(packets) => run_note(alloc, arrivals, &run.params, packets),
        None => Err(AllocError),
    }
}

/// The rows of bins of a FIFO's run of these arrivals.
#[inline(never)]
fn fifo_rows(alloc: Global, run: &Run, arrivals: &[Arrival]) -> Result<Vec<u8>, Memory>
    requires { AreArrivals arrivals.now }
    ensures { IfOk result (λ rows. HasFifoRows (run_parts_of run.now) arrivals.now rows.items) }
{
    let events = Binned::try_new(alloc, &run.seed, Queue::Fifo, run.every)?;
    let told = run_fifo_with_recorder(alloc, run.params, run.seed, &run.link, arrivals, events)?;
    // Each fate of the journal comes behind its acceptance.
    fifo_fates();
    rows_of_bins(told, Queue::Fifo, run.every)
}

/// The text of a recorder that was made for that queue and for bins of that width.
fn rows_of_bins(binned: Binned, _queue: Queue, _every: u64) -> Result<Vec<u8>, Memory>
    requires { binning_shape binned ≡ shape_of _queue _every }
    ensures { IfOk result (λ text. AreToldInOrder binned.events
        → text.items ≡ queue_text _queue _every binned.events) }
{
    binned.into_text()
}

/// What was told of a run, and the moment at which its link has sent the last packet whole.
#[derive(Clone, Copy)]
struct Told<'a> {
    events: &'a Gathered,
    end: u64,
}

/// The table of a run's packets, with that of a FIFO's if one is asked for.
#[inline(never)]
fn compared_text<F: Write>(
    alloc: Global,
    request: &RunRequest<'_>,
    run: &Run,
    arrivals: &[Arrival],
    told: Told<'_>,
    notes: &mut F,
    terminals: Terminals,
) -> Result<Vec<u8>, ProgramFault>
    requires arrivals { AreArrivals arrivals.now }
    requires few { length arrivals.now ≤ MAX_ROWS }
    requires events_few { length told.events.now.events ≤ MAX_EVENTS }
    requires taken { length told.events.now.events ≤ told.events.now.most }
    requires end { told.end ≡ end_of run.now.link arrivals.now told.events.now.events }
    requires steps { request.now.table ≢ TableName.Steps }
    requires series { request.now.table ≢ TableName.Series }
    ensures text { IfOk result (λ text. IsComparedText request.now.table request.now.has_fifo
        (run_parts_of run.now) arrivals.now told.entry.events.now.events text.items) }
    ensures fault { IfErr result (λ fault. fault ≡ ProgramFault.Memory) }
    ensures quiet { terminals.faults ≡ false → Keeps (F.contents notes.old) (F.contents notes.new) }
{
    if !request.has_fifo {
        return packets_table(alloc, request.table, run, told, None);
    }
    let events = recorder_for(alloc, &run.seed, request.table);
    let (fifo, end) = run_fifo_to_end(alloc, run.params, run.seed, &run.link, arrivals, events)?;
    note_fifo(notes, terminals, run, arrivals, &fifo);
    // The FIFO has no more events than that either.
    fifo_few_events();
    let fifo = Told { events: &fifo, end };
    packets_table(alloc, request.table, run, told, Some(fifo))
}

/// The table of the packets of journals, or their picture.
#[inline(never)]
fn packets_table(
    alloc: Global,
    table: TableName,
    run: &Run,
    told: Told<'_>,
    fifo: Option<Told<'_>>,
) -> Result<Vec<u8>, ProgramFault>
    requires few { length told.events.now.events ≤ MAX_EVENTS }
    requires fifo_few { IfSome fifo (λ t. length t.events.now.events ≤ MAX_EVENTS) }
    requires taken { length told.events.now.events ≤ told.events.now.most }
    requires fifo_taken { IfSome fifo (λ t. length t.events.now.events ≤ t.events.now.most) }
    requires steps { table ≢ TableName.Steps }
    requires series { table ≢ TableName.Series }

    // The text is that of the ends that were told.
    ensures text { IfOk result (λ text. (ends : List Event → ℕ)
        → EndsBy ends told.entry → IfSome fifo.entry (EndsBy ends)
        → IsJournalText table run.now.every ends told.entry.events.now.events
        (option_map (λ t. t.events.now.events) fifo.entry) text.items) }
    ensures fault { IfErr result (λ fault. fault ≡ ProgramFault.Memory) }
{
    match table {
        TableName::Packets => {
            let (packets, others) = (packets_of(told.events)?, others_of(fifo)?);
            Ok(packets_text_of(alloc, packets, others)?)
        }
        TableName::Flows => {
            let (packets, others) = (ended_packets_of(told)?, ended_others_of(fifo)?);
            Ok(flows_text_of(alloc, packets, others)?)
        }
        TableName::Svg => {
            let (packets, others) = (packets_of(told.events)?, others_of(fifo)?);
            Ok(picture_text_of(alloc, &settings_of(run), packets, others)?)
        }
        TableName::Series => unreachable!(),
        TableName::Steps => unreachable!(),
    }
}

/// The settings of a run that its picture shows.
fn settings_of(run: &Run) -> Settings {
    Settings {
        rate: run.link.rate(),
        overhead: run.link.overhead(),
        mpu: run.link.mpu(),
        every: run.every,
        params: run.params,
    }
}

/// The packets of a recorder that was told of no more events than it takes. It has none where one found no memory.
fn packets_of<'a>(events: &'a Gathered) -> Result<&'a Packets, Memory>
    requires { length events.now.events ≤ events.now.most }
    ensures packets { IfOk result (λ packets. packets.now ≡ known_of events.now.events) }
    ensures short { IfErr result (λ _. events.now.is_short ≡ true) }
{
    match events.packets() {
        Some(packets) => Ok(packets),
        None => Err(AllocError),
    }
}

/// The packets of the other queue, where there is one.
fn others_of<'a>(fifo: Option<Told<'a>>) -> Result<Option<&'a Packets>, Memory>
    requires { IfSome fifo (λ t. length t.events.now.events ≤ t.events.now.most) }
    ensures { IfOk result (λ packets. option_map (λ p. p.now) packets
        ≡ option_map (λ t. known_of t.events.now.events) fifo.entry) }
{
    match fifo {
        Some(fifo) => Ok(Some(packets_of(fifo.events)?)),
        None => Ok(None),
    }
}

/// The packets of a run, with its end.
fn ended_packets_of<'a>(told: Told<'a>) -> Result<RunPackets<'a>, Memory>
    requires { length told.events.now.events ≤ told.events.now.most }
    ensures { IfOk result (λ run. Tables.packets_of run ≡ known_told told.entry) }
{
    Ok(RunPackets {
        packets: packets_of(told.events)?,
        end: told.end,
    })
}

/// The same of the other queue, where there is one.
fn ended_others_of<'a>(fifo: Option<Told<'a>>) -> Result<Option<RunPackets<'a>>, Memory>
    requires { IfSome fifo (λ t. length t.events.now.events ≤ t.events.now.most) }
    ensures { IfOk result (λ runs. option_map Tables.packets_of runs ≡ option_map known_told fifo.entry) }
{
    match fifo {
        Some(fifo) => Ok(Some(ended_packets_of(fifo)?)),
        None => Ok(None),
    }
}
