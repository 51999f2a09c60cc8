//! What the program reports beside a table: to someone who watches it what it reads and how far it is, and to everyone
//! what makes a table easy to misread.

ghost use Rattle.std.specs.Prelude.{◌≡◌, IfOk, false};
ghost use Rattle.std.specs.Io.KnownBytes.{Keeps};
ghost use Rattle.link_core.specs.Fifo.{IsFifoJournal};
ghost use Rattle.link_core.specs.LinkRuns.{HasRunLink};
ghost use Rattle.link_command.specs.Runs.{HasFifoRows, HasRunRows, IsWritten};
ghost use Rattle.link_command.specs.RunsSaid.{run_parts_of};
ghost use Rattle.link_command.specs.Notes.{marks_note, marks_text, no_packet_text, run_note, tuple_text};

use crate::marks::vain_place;
use crate::program_run::Report;
use crate::values::Run;
use journal_core::Memory;
use link_core::Arrival;
use link_report::{Gathered, Packets};
use packet_core::{EcnUse, FiveTuple, Params};
use sched_core::{Engine, Recorder, StepRecorder};
use std::alloc::Global;
use std::io::Write;
use text_core::{AddressText, Digits};
use trace_core::{Sink, write_text};

/// A run with so many arrivals takes long enough for a report.
const LONG_RUN: usize = 100_000;

/// Which of the standard streams are a terminal.
#[derive(Clone, Copy, Debug, PartialEq, Eq)]
pub struct Terminals {
    /// Standard input.
    pub input: bool,
    /// Standard error.
    pub faults: bool,
}

/// Reports that arrivals are read, where they are read from a terminal. A note that can't be written is passed over.
pub(crate) fn note_input<F: Write>(notes: &mut F, terminals: Terminals)
    ensures { terminals.input ≡ false → Keeps (F.contents notes.old) (F.contents notes.new) }
{
    if terminals.input {
        let _ = writeln!(
            notes,
            "maltlink: reading arrivals from the terminal; Ctrl-D at the start of a line ends them"
        );
    }
}

/// Reports that the arrivals of a long run are read, where standard error is a terminal. A note that can't be written is
/// passed over, as each of those below.
pub(crate) fn note_read<F: Write>(notes: &mut F, terminals: Terminals, arrivals: &[Arrival])
    ensures { terminals.faults ≡ false → Keeps (F.contents notes.old) (F.contents notes.new) }
{
    if is_watched(terminals, arrivals) {
        let _ = writeln!(notes, "maltlink: read {} arrivals", arrivals.len());
    }
}

/// Whether someone watches a run of these arrivals, which takes long.
fn is_watched(terminals: Terminals, arrivals: &[Arrival]) -> bool
    ensures { terminals.faults ≡ false → result ≡ false }
{
    terminals.faults && arrivals.len() >= LONG_RUN
}

/// Reports that the link's run is made, by this engine. So it can't be reported before.
pub(crate) fn note_run<K: Recorder, S: StepRecorder, F: Write>(
    notes: &mut F,
    terminals: Terminals,
    _run: &Run,
    arrivals: &[Arrival],
    _engine: &Engine<K, S>,
)
    requires { HasRunLink _run.now.params _run.now.seed _run.now.link arrivals.now _engine.now }
    ensures { terminals.faults ≡ false → Keeps (F.contents notes.old) (F.contents notes.new) }
{
    note_sent(notes, terminals, arrivals);
}

/// Reports that the link's run is made, whose rows stand in this report. So it can't be reported before.
pub(crate) fn note_report<F: Write>(
    notes: &mut F,
    terminals: Terminals,
    _run: &Run,
    arrivals: &[Arrival],
    _report: &Report,
)
    requires { HasRunRows (run_parts_of _run.now) arrivals.now _report.now.text.items }
    ensures { terminals.faults ≡ false → Keeps (F.contents notes.old) (F.contents notes.new) }
{
    note_sent(notes, terminals, arrivals);
}

/// The note of both.
fn note_sent<F: Write>(notes: &mut F, terminals: Terminals, arrivals: &[Arrival])
    ensures { terminals.faults ≡ false → Keeps (F.contents notes.old) (F.contents notes.new) }
{
    if is_watched(terminals, arrivals) {
        let _ = writeln!(notes, "maltlink: the link has sent its last packet");
    }
}

/// Reports that the FIFO's run is made, whose rows these are. So it can't be reported before.
pub(crate) fn note_rows<F: Write>(
    notes: &mut F,
    terminals: Terminals,
    _run: &Run,
    arrivals: &[Arrival],
    _rows: &[u8],
)
    requires { HasFifoRows (run_parts_of _run.now) arrivals.now _rows.now }
    ensures { terminals.faults ≡ false → Keeps (F.contents notes.old) (F.contents notes.new) }
{
    note_compared(notes, terminals, arrivals);
}

/// Reports that the FIFO's run is made, whose events that recorder was told. So it can't be reported before.
pub(crate) fn note_fifo<F: Write>(
    notes: &mut F,
    terminals: Terminals,
    _run: &Run,
    arrivals: &[Arrival],
    _fifo: &Gathered,
)
    requires { IsFifoJournal _run.now.params _run.now.seed _run.now.link arrivals.now _fifo.now.events }
    ensures { terminals.faults ≡ false → Keeps (F.contents notes.old) (F.contents notes.new) }
{
    note_compared(notes, terminals, arrivals);
}

/// The note of both.
fn note_compared<F: Write>(notes: &mut F, terminals: Terminals, arrivals: &[Arrival])
    ensures { terminals.faults ≡ false → Keeps (F.contents notes.old) (F.contents notes.new) }
{
    if is_watched(terminals, arrivals) {
        let _ = writeln!(notes, "maltlink: the FIFO has sent its last packet");
    }
}

/// The note on the run of these arrivals: that no packet arrived, or that the marks of a five-tuple are in vain. Mostly
/// there is none. It fails only if it is out of memory.
pub(crate) fn run_note(
    alloc: Global,
    arrivals: &[Arrival],
    params: &Params,
    packets: &Packets,
) -> Result<Vec<u8>, Memory>
    ensures { IfOk result (λ note. note.items ≡ run_note arrivals.now params.now packets.now) }
{
    match arrivals {
        [] => no_packet_note(alloc),
        [_, ..] => marks_note(alloc, params.ecn(), params.interval(), packets),
    }
}

/// The note that no packet arrived.
fn no_packet_note(alloc: Global) -> Result<Vec<u8>, Memory>
    ensures { IfOk result (λ note. note.items ≡ no_packet_text) }
{
    let mut text = Vec::new(alloc);
    text.extend_from_slice(
        b"maltlink: no packet arrived\n  standard input has no 'enq' row; arrivals are read from there, as in 'maltlink --rate 10mbit < arrivals.csv'\n",
    )?;
    Ok(text)
}

/// The note on the first five-tuple whose marks are in vain, if there is one.
fn marks_note(
    alloc: Global,
    ecn: EcnUse,
    interval: u64,
    packets: &Packets,
) -> Result<Vec<u8>, Memory>
    ensures { IfOk result (λ note. note.items ≡ marks_note ecn interval packets.now) }
{
    match ecn {
        EcnUse::Drop => Ok(Vec::new(alloc)),
        EcnUse::Mark => {
            let place = vain_place(alloc, interval, packets)?;
            match packets.tuples().get(place) {
                Some(tuple) => marks_text(alloc, place as u64, tuple),
                None => Ok(Vec::new(alloc)),
            }
        }
    }
}

/// The note that the marks of the five-tuple with that number are in vain.
fn marks_text(alloc: Global, number: u64, tuple: &FiveTuple) -> Result<Vec<u8>, Memory>
    ensures { IfOk result (λ text. text.items ≡ marks_text number tuple.now) }
{
    let own = tuple_text(alloc, tuple)?;
    let mut text = Vec::new(alloc);
    text.extend_from_slice(b"maltlink: five-tuple ")?;
    text.extend_from_slice(Digits::of(number).as_bytes())?;
    text.extend_from_slice(b" (")?;
    text.extend_from_slice(&own)?;
    text.extend_from_slice(
        b"): more than half of its packets sent are marked, and its delay_p99 is above the interval\n  arrivals are open loop, so no sender slows down at a mark; with 'noecn' CoDel drops instead\n",
    )?;
    Ok(text)
}

/// A five-tuple as the fields of a row.
fn tuple_text(alloc: Global, tuple: &FiveTuple) -> Result<Vec<u8>, Memory>
    ensures { IfOk result (λ text. text.items ≡ tuple_text tuple.now) }
{
    let mut text = Vec::new(alloc);
    text.extend_from_slice(Digits::of(u64::from(tuple.proto)).as_bytes())?;
    text.extend_from_slice(b",")?;
    text.extend_from_slice(AddressText::of(tuple.src).as_bytes())?;
    text.extend_from_slice(b",")?;
    text.extend_from_slice(AddressText::of(tuple.dst).as_bytes())?;
    text.extend_from_slice(b",")?;
    text.extend_from_slice(Digits::of(u64::from(tuple.sport)).as_bytes())?;
    text.extend_from_slice(b",")?;
    text.extend_from_slice(Digits::of(u64::from(tuple.dport)).as_bytes())?;
    Ok(text)
}

/// Writes a note. One that can't be written is passed over, though a front of it may stand there then.
pub(crate) fn write_note<F: Sink>(faults: &mut F, note: &[u8])
    ensures { IsWritten F.Wrote F.Answered note.now faults.old faults.new }
{
    let _ = write_text(faults, note);
}
