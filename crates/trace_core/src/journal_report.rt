//! The text of an engine's journal, with what each of its senders did.
ghost use Rattle.std.specs.Prelude.{◌≡◌, ◌≢◌, ℕ, IfErr, OnOk, take};
ghost use Rattle.std.specs.Io.KnownBytes.{Keeps};
ghost use Rattle.row_core.specs.Streams.{EndsWith, IsWriteFailure, WentOn};
ghost use Rattle.trace_core.specs.Report.{journal_text};
ghost use Rattle.trace_core.specs.declared.trace_run.RunFault.TheVariants as RunFault;

use crate::report::Rows;
use crate::streams::Sink;
use crate::trace_run::{RunFault, write_text};
use sched_core::Engine;
use std::alloc::Global;
use std::io::Write;

/// What became of the packets of one sender.
#[derive(Clone, Copy, Debug, PartialEq, Eq)]
pub struct SenderRow {
    /// The sender's number.
    pub sender: u32,
    /// Packets that it submitted.
    pub submitted: u64,
    /// Packets of these that were accepted.
    pub accepted: u64,
    /// Packets of these that were left after the close.
    pub left: u64,
}

/// Writes the journal of an engine: a row for each event in its order, a row with the totals, a row for each
/// five-tuple in order of first acceptance, and a row for each of the senders. The whole text is made before the first
/// byte of it is written, and the writer isn't flushed. It fails for want of memory, with nothing written, and where a
/// write is answered with an error or takes nothing, with a front of the text written. An interruption is such an error
/// only after `MAX_INTERRUPTIONS` others.
pub fn write_journal<W: Write + Sink>(
    alloc: Global,
    writer: &mut W,
    engine: &Engine,
    senders: &[SenderRow],
) -> Result<(), RunFault>
    ensures text { OnOk result (W.Wrote writer.old
        (journal_text engine.now.sched.standing.events senders.now) writer.new) }
    ensures front { IfErr result (λ fault. fault ≡ RunFault.Write → (count : ℕ)
        × W.Wrote writer.old (take count (journal_text engine.now.sched.standing.events senders.now)) writer.new) }
    ensures memory { IfErr result (λ fault. (fault ≢ RunFault.Write) → fault ≡ RunFault.Memory) }
    ensures untouched { IfErr result (λ fault. (fault ≢ RunFault.Write)
        → Keeps (W.contents writer.old) (W.contents writer.new)) }
    ensures write { IfErr result (λ fault. fault ≡ RunFault.Write
        → EndsWith W.Answered IsWriteFailure writer.old writer.new) }
    ensures went_on { OnOk result (WentOn W.Answered writer.old writer.new) }
{
    write_journal_to(alloc, writer, engine, senders)
}

/// The same as `write_journal`, to a sink which needn't be a `Write`.
pub fn write_journal_to<K: Sink>(
    alloc: Global,
    sink: &mut K,
    engine: &Engine,
    senders: &[SenderRow],
) -> Result<(), RunFault>
    ensures text { OnOk result (K.Wrote sink.old
        (journal_text engine.now.sched.standing.events senders.now) sink.new) }
    ensures front { IfErr result (λ fault. fault ≡ RunFault.Write → (count : ℕ)
        × K.Wrote sink.old (take count (journal_text engine.now.sched.standing.events senders.now)) sink.new) }
    ensures memory { IfErr result (λ fault. (fault ≢ RunFault.Write) → fault ≡ RunFault.Memory) }
    ensures untouched { IfErr result (λ fault. (fault ≢ RunFault.Write) → sink.new ≡ sink.old) }

    // Write comes only where the sink was given up.
    ensures write { IfErr result (λ fault. fault ≡ RunFault.Write
        → EndsWith K.Answered IsWriteFailure sink.old sink.new) }
    ensures went_on { OnOk result (WentOn K.Answered sink.old sink.new) }
{
    let text = Rows::new(alloc).journal(engine, senders)?;
    write_text(sink, &text)
}
