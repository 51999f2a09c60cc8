//! The whole program over words and streams: it runs a trace or writes help, and reports a fault with its status.

ghost use Rattle.std.specs.Prelude.{◌≡◌, ◌≢◌, ◌⊎◌, ◌≤◌, ◌↔◌, ℕ, Err, IfErr, IfOk, IsErr, IsErrOf, None, OnErr, OnOk, Some, map, option_map, take};
ghost use Rattle.std.specs.Result.{IsOkUnless};
ghost use Rattle.std.specs.Io.KnownBytes.{Appends, Keeps};
ghost use Rattle.packet_core.specs.Words.{params_of_words};
ghost use Rattle.row_core.specs.Streams.{EndsWith, IsReadFailure};
ghost use Rattle.row_core.specs.Traces.{IsFaultOf};
ghost use Rattle.program_core.specs.Faults.{AreGood, AsksForInput, IsFaultOn, IsRunFault, status_of};
ghost use Rattle.program_core.specs.Runs.{Answers, AnswersWatched, IsRunFor, IsUnwatched};
ghost use Rattle.command_core.specs.CommandLine.{AsksForLanes};
ghost use Rattle.command_core.specs.Seeds.{seed_given};
ghost use Rattle.program_core.specs.declared.faults.ProgramFault.{ProgramFault};
ghost use Rattle.program_core.specs.declared.faults.ProgramFault.TheVariants as program_fault;

use crate::faults::{ProgramFault, SUCCESS, tell};
use crate::lanes::simulate_lanes;
use crate::locked::simulate_locked;
use command_core::{Request, ZERO_SEED, parse, read_seed};
use packet_core::{ParamFault, Seed, read_params};
use std::alloc::Global;
use std::io::{Read, Write};
use std::sync::Wait;
use std::thread::Threads;
use trace_core::{Records, Source, run, write_text};

/// The whole program over the words behind its name. It reads a trace and writes the report of its run or the journal
/// of its run by senders, or writes help where the words ask for that, and tells a fault on `faults`, and what monitors
/// saw. It answers the status that the program ends with.
pub fn program<H: Threads + Wait + Sync, R: Read + Source + Records, W: Write, F: Write>(
    rt: &H,
    alloc: Global,
    words: &[&str],
    reader: &mut R,
    writer: &mut W,
    faults: &mut F,
) -> u8
    // With the status 0 the writer holds what it held, and then the report of the input with the seed and the
    // parameters of the words, or a journal of its run by senders, where these are those of a run. Else they ask for
    // help, and a text is written.
    ensures answer { result ≡ 0 → Answers (map (λ w. w.now) words.now) (R.Source.remaining reader.old)
        (W.contents writer.old) (W.contents writer.new) }

    // With the status 0 nothing is told, unless the words ask for monitors.
    ensures quiet { result ≡ 0 → IsUnwatched (map (λ w. w.now) words.now)
        → Keeps (F.contents faults.old) (F.contents faults.new) }

    // Where the words ask for lanes, what is told is what their monitors saw of the journal that was written: the
    // statistics of its first events, of as many as each line says.
    ensures told { result ≡ 0 → AsksForLanes (map (λ w. w.now) words.now)
        → AnswersWatched (map (λ w. w.now) words.now) (R.Source.remaining reader.old) (W.contents writer.old)
        (W.contents writer.new) (F.contents faults.old) (F.contents faults.new) }

    // Any other status is that of a fault that these words and this input have, by which the writer came from what it
    // held to what it holds: a front of the report, of a journal or of help where a write failed, else what it held.
    ensures fault { (result ≢ 0) → (fault : ProgramFault)
        × IsFaultOn (IsFaultOf (EndsWith R.Answered IsReadFailure reader.old reader.new) R.Cut)
        (map (λ w. w.now) words.now) (R.Source.remaining reader.old)
        (W.contents writer.old) (W.contents writer.new) fault
        × (result ≡ status_of fault) }

    // Nothing is read, unless the words ask for a run with a good seed and good parameters: help doesn't wait for input.
    ensures unread { AsksForInput (map (λ w. w.now) words.now) ⊎ (reader.new ≡ reader.old) }

    // With the status 2, where something that was given is wrong, nothing was written.
    ensures input_fault { result ≡ 2 → Keeps (W.contents writer.old) (W.contents writer.new) }
    ensures range { result ≤ 2 }
{
    match answer(rt, alloc, words, reader, writer, faults) {
        Ok(()) => SUCCESS,
        Err(fault) => tell(faults, &fault),
    }
}

/// Does what the words ask for. What monitors saw is told on `told`.
fn answer<H: Threads + Wait + Sync, R: Read + Source + Records, W: Write, F: Write>(
    rt: &H,
    alloc: Global,
    words: &[&str],
    reader: &mut R,
    writer: &mut W,
    told: &mut F,
) -> Result<(), ProgramFault>
    ensures answer { OnOk result (Answers (map (λ w. w.now) words.now) (R.Source.remaining reader.old)
        (W.contents writer.old) (W.contents writer.new)) }
    ensures fault { IfErr result (IsFaultOn
        (IsFaultOf (EndsWith R.Answered IsReadFailure reader.old reader.new) R.Cut)
        (map (λ w. w.now) words.now) (R.Source.remaining reader.old)
        (W.contents writer.old) (W.contents writer.new)) }
    ensures untouched { IfErr result (λ fault. (fault ≢ program_fault.Write)
        → Keeps (W.contents writer.old) (W.contents writer.new)) }
    ensures unread { AsksForInput (map (λ w. w.now) words.now) ⊎ (reader.new ≡ reader.old) }
    ensures quiet { OnOk result (IsUnwatched (map (λ w. w.now) words.now)
        → Keeps (F.contents told.old) (F.contents told.new)) }
    ensures told { OnOk result (AsksForLanes (map (λ w. w.now) words.now)
        → AnswersWatched (map (λ w. w.now) words.now) (R.Source.remaining reader.old) (W.contents writer.old)
        (W.contents writer.new) (F.contents told.old) (F.contents told.new)) }
{
    match parse(alloc, words)? {
        Request::Trace(trace) => simulate(alloc, trace.seed, &trace.parameters, reader, writer),
        Request::Locked(senders) => simulate_locked(rt, alloc, &senders, reader, writer),
        Request::Lanes(lanes) => simulate_lanes(rt, alloc, &lanes, reader, writer, told),
        Request::Help(text) => show(writer, text.as_str()),
    }
}

/// Writes a text. Where a write fails or takes nothing, a front of it is written. It tries again where the writer is
/// interrupted.
pub(crate) fn show<W: Write>(writer: &mut W, text: &str) -> Result<(), ProgramFault>
    ensures whole { OnOk result (Appends (W.contents writer.old) (W.contents writer.new) text.now) }
    ensures front { OnErr result ((count : ℕ)
        × Appends (W.contents writer.old) (W.contents writer.new) (take count text.now)) }
    ensures fault { IsOkUnless result program_fault.Write }
{
    match write_text(writer, text.as_bytes()) {
        Ok(()) => Ok(()),
        Err(_) => Err(ProgramFault::Write),
    }
}

/// Reads a trace, makes its run with the seed of that text and the parameters of those words, and writes the report.
/// The seed is read first, then the parameters, then the trace.
fn simulate<R: Read + Source + Records, W: Write>(
    alloc: Global,
    seed: Option<&str>,
    parameters: &[&str],
    reader: &mut R,
    writer: &mut W,
) -> Result<(), ProgramFault>
    ensures report { OnOk result (IsRunFor (option_map (λ s. s.now) seed.entry) (map (λ w. w.now) parameters.now)
        (R.Source.remaining reader.old) (λ text. Appends (W.contents writer.old) (W.contents writer.new) text)) }
    ensures seed { IsErrOf result program_fault.Seed ↔ (seed_given (option_map (λ s. s.now) seed.entry) ≡ None) }
    ensures params { (fault : ParamFault) → IsErrOf result (program_fault.Params fault)
        ↔ (seed_given (option_map (λ s. s.now) seed.entry) ≢ None)
        × (params_of_words (map (λ w. w.now) parameters.now) ≡ Err fault) }
    ensures fault { IfErr result (IsRunFault
        (IsFaultOf (EndsWith R.Answered IsReadFailure reader.old reader.new) R.Cut)
        (option_map (λ s. s.now) seed.entry) (map (λ w. w.now) parameters.now)
        (R.Source.remaining reader.old) (W.contents writer.old) (W.contents writer.new)) }
    ensures reads { AreGood (option_map (λ s. s.now) seed.entry) (map (λ w. w.now) parameters.now)
        ⊎ (reader.new ≡ reader.old) }
    ensures front { result ≡ Err program_fault.Write
        → IsRunFor (option_map (λ s. s.now) seed.entry) (map (λ w. w.now) parameters.now)
        (R.Source.remaining reader.old)
        (λ text. (count : ℕ) × Appends (W.contents writer.old) (W.contents writer.new) (take count text)) }
    ensures untouched { IfErr result (λ fault. (fault ≢ program_fault.Write)
        → Keeps (W.contents writer.old) (W.contents writer.new)) }
{
    let seed = seed_given(seed)?;
    let params = read_params(parameters)?;
    Ok(run(alloc, reader, writer, params, seed)?)
}

/// The seed of a text, and the standard one where there is none.
pub(crate) fn seed_given(text: Option<&str>) -> Result<Seed, ProgramFault>
    ensures ok { IfOk result (λ seed. seed_given (option_map (λ s. s.now) text.entry) ≡ Some seed.0) }
    ensures err { IsErr result → seed_given (option_map (λ s. s.now) text.entry) ≡ None }
    ensures fault { IsOkUnless result program_fault.Seed }
{
    match text {
        Some(text) => read_seed(text).ok_or(ProgramFault::Seed),
        None => Ok(ZERO_SEED),
    }
}
