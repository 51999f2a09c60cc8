//! The run of a trace by senders that are threads, through lanes into a device.
ghost use Rattle.std.specs.Prelude.{◌≡◌, ◌≢◌, ◌⊎◌, ◌≤◌, ◌<◌, ◌↔◌, Err, IfErr, IsErrOf, None, OnErr, OnOk, map, option_map};
ghost use Rattle.std.specs.Io.KnownBytes.{Appends, Keeps};
ghost use Rattle.packet_core.specs.Words.{params_of_words};
ghost use Rattle.command_core.specs.Seeds.{seed_given};
ghost use Rattle.command_core.specs.declared.command_line.TheConstants.{MAX_MONITORS, MAX_SENDERS};
ghost use Rattle.row_core.specs.Streams.{EndsWith, IsReadFailure};
ghost use Rattle.row_core.specs.Traces.{IsFaultOf};
ghost use Rattle.program_core.specs.Faults.{AreGood, IsLanesFault, IsOfWords};
ghost use Rattle.program_core.specs.Runs.{IsSendersRunFor};
ghost use Rattle.program_core.specs.Watched.{TellsSeenOf, TellsSome};
ghost use Rattle.program_core.specs.declared.faults.ProgramFault.TheVariants as program_fault;
ghost use Rattle.run_core.specs.Journals.{AreLanesJournal};

use crate::faults::ProgramFault;
use crate::monitors::tell_seen;
use crate::program_run::seed_given;
use command_core::{LanesRequest, MAX_MONITORS, MAX_SENDERS};
use packet_core::{ParamFault, read_params};
use run_core::run_lanes;
use std::alloc::Global;
use std::io::{Read, Write};
use std::sync::Wait;
use std::thread::Threads;
use trace_core::{Records, Source, read_trace, write_journal};

/// Reads a trace, makes its run through lanes, with the seed and the parameters that were asked for, and writes the
/// journal; on `told` it reports what each monitor saw, in lines that may be cut where memory or a write is refused. The
/// seed is read first, then the parameters, then the trace.
pub fn simulate_lanes<H: Threads + Wait + Sync, R: Read + Source + Records, W: Write, F: Write>(
    rt: &H,
    alloc: Global,
    request: &LanesRequest<'_>,
    reader: &mut R,
    writer: &mut W,
    told: &mut F,
) -> Result<(), ProgramFault>
    requires senders { (0 < request.now.by.senders) × (request.now.by.senders ≤ MAX_SENDERS) }
    requires monitors { request.now.monitors ≤ MAX_MONITORS }
    ensures journal { OnOk result (IsSendersRunFor AreLanesJournal (option_map (λ s. s.now) request.now.by.run.seed)
        (map (λ w. w.now) request.now.by.run.parameters.items) request.now.by.senders (R.Source.remaining reader.old)
        (λ text. Appends (W.contents writer.old) (W.contents writer.new) text)) }
    ensures seed { IsErrOf result program_fault.Seed
        ↔ (seed_given (option_map (λ s. s.now) request.now.by.run.seed) ≡ None) }
    ensures params { (fault : ParamFault) → IsErrOf result (program_fault.Params fault)
        ↔ (seed_given (option_map (λ s. s.now) request.now.by.run.seed) ≢ None)
        × (params_of_words (map (λ w. w.now) request.now.by.run.parameters.items) ≡ Err fault) }
    ensures fault { IfErr result (IsLanesFault
        (IsFaultOf (EndsWith R.Answered IsReadFailure reader.old reader.new) R.Cut)
        (option_map (λ s. s.now) request.now.by.run.seed)
        (map (λ w. w.now) request.now.by.run.parameters.items) request.now.by.senders request.now.monitors
        (R.Source.remaining reader.old) (W.contents writer.old) (W.contents writer.new)) }
    ensures untouched { IfErr result (λ fault. (fault ≢ program_fault.Write)
        → Keeps (W.contents writer.old) (W.contents writer.new)) }
    ensures told { OnOk result (TellsSome request.now.monitors (F.contents told.old) (F.contents told.new)) }
    ensures told_of { OnOk result (IsSendersRunFor AreLanesJournal
        (option_map (λ s. s.now) request.now.by.run.seed)
        (map (λ w. w.now) request.now.by.run.parameters.items) request.now.by.senders (R.Source.remaining reader.old)
        (λ text. Appends (W.contents writer.old) (W.contents writer.new) text
        × TellsSeenOf request.now.monitors text (F.contents told.old) (F.contents told.new))) }
    ensures untold { OnErr result (Keeps (F.contents told.old) (F.contents told.new)) }
    ensures unread { IfErr result (λ fault. IsOfWords fault → reader.new ≡ reader.old) }
    ensures reads { AreGood (option_map (λ s. s.now) request.now.by.run.seed)
        (map (λ w. w.now) request.now.by.run.parameters.items) ⊎ (reader.new ≡ reader.old) }
    ensures quiet { request.now.monitors ≡ 0 → Keeps (F.contents told.old) (F.contents told.new) }
{
    let run = &request.by.run;
    let seed = seed_given(run.seed)?;
    let params = read_params(&run.parameters)?;
    let steps = read_trace(alloc, reader)?;
    let (engine, rows, seen) = run_lanes(
        rt,
        alloc,
        params,
        seed,
        request.by.senders,
        request.monitors,
        &steps,
    )?;
    write_journal(alloc, writer, &engine, &rows)?;
    tell_seen(alloc, told, &seen);
    Ok(())
}
