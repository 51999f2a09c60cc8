//! The run of a trace by senders that are threads, through a locked port.
ghost use Rattle.std.specs.Prelude.{◌≡◌, ◌≢◌, ◌⊎◌, ◌≤◌, ◌<◌, ◌↔◌, Err, IfErr, IsErrOf, None, OnOk, map, option_map};
ghost use Rattle.std.specs.Io.KnownBytes.{Appends, Keeps};
ghost use Rattle.packet_core.specs.Words.{params_of_words};
ghost use Rattle.command_core.specs.Seeds.{seed_given};
ghost use Rattle.command_core.specs.declared.command_line.TheConstants.{MAX_SENDERS};
ghost use Rattle.row_core.specs.Streams.{EndsWith, IsReadFailure};
ghost use Rattle.row_core.specs.Traces.{IsFaultOf};
ghost use Rattle.program_core.specs.Faults.{AreGood, IsLockedFault, IsOfWords};
ghost use Rattle.program_core.specs.Runs.{IsSendersRunFor};
ghost use Rattle.program_core.specs.declared.faults.ProgramFault.TheVariants as program_fault;
ghost use Rattle.run_core.specs.Journals.{AreLockedJournal};

use crate::faults::ProgramFault;
use crate::program_run::seed_given;
use command_core::{MAX_SENDERS, SendersRequest};
use packet_core::{ParamFault, read_params};
use run_core::run_locked;
use std::alloc::Global;
use std::io::{Read, Write};
use std::sync::Wait;
use std::thread::Threads;
use trace_core::{Records, Source, read_trace, write_journal};

/// Reads a trace, makes its run by senders, with the seed and the parameters that were asked for, and writes the
/// journal. The seed is read first, then the parameters, then the trace.
pub fn simulate_locked<H: Threads + Wait + Sync, R: Read + Source + Records, W: Write>(
    rt: &H,
    alloc: Global,
    request: &SendersRequest<'_>,
    reader: &mut R,
    writer: &mut W,
) -> Result<(), ProgramFault>
    requires { (0 < request.now.senders) × (request.now.senders ≤ MAX_SENDERS) }
    ensures journal { OnOk result (IsSendersRunFor AreLockedJournal (option_map (λ s. s.now) request.now.run.seed)
        (map (λ w. w.now) request.now.run.parameters.items) request.now.senders (R.Source.remaining reader.old)
        (λ text. Appends (W.contents writer.old) (W.contents writer.new) text)) }
    ensures seed { IsErrOf result program_fault.Seed
        ↔ (seed_given (option_map (λ s. s.now) request.now.run.seed) ≡ None) }
    ensures params { (fault : ParamFault) → IsErrOf result (program_fault.Params fault)
        ↔ (seed_given (option_map (λ s. s.now) request.now.run.seed) ≢ None)
        × (params_of_words (map (λ w. w.now) request.now.run.parameters.items) ≡ Err fault) }
    ensures fault { IfErr result (IsLockedFault
        (IsFaultOf (EndsWith R.Answered IsReadFailure reader.old reader.new) R.Cut)
        (option_map (λ s. s.now) request.now.run.seed)
        (map (λ w. w.now) request.now.run.parameters.items) request.now.senders (R.Source.remaining reader.old)
        (W.contents writer.old) (W.contents writer.new)) }
    ensures unread { IfErr result (λ fault. IsOfWords fault → reader.new ≡ reader.old) }
    ensures reads { AreGood (option_map (λ s. s.now) request.now.run.seed)
        (map (λ w. w.now) request.now.run.parameters.items) ⊎ (reader.new ≡ reader.old) }
    ensures untouched { IfErr result (λ fault. (fault ≢ program_fault.Write)
        → Keeps (W.contents writer.old) (W.contents writer.new)) }
{
    let seed = seed_given(request.run.seed)?;
    let params = read_params(&request.run.parameters)?;
    let steps = read_trace(alloc, reader)?;
    let (engine, rows) = run_locked(rt, alloc, params, seed, request.senders, &steps)?;
    Ok(write_journal(alloc, writer, &engine, &rows)?)
}
