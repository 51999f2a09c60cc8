//! The reading of a trace, its run and the text of a journal.

use crate::calls::{Answer, Calls};
use crate::engines::new_engine;
use crate::values::{SEED, Values};
use packet_core::Packet;
use sched_core::{Engine, Step};
use std::alloc::Global;
use trace_core::{RunFault, SenderRow, TraceFaultKind, read_trace, run, write_journal};

/// A trace with a close, after which nothing is accepted.
const TRACE: &str = "enq,0,17,10.0.0.1,10.0.0.2,5000,53,1000,0
close,1
enq,2,17,10.0.0.1,10.0.0.2,5000,53,1000,0
deq,3
close,4
";

/// Its report.
const REPORT: &str = "accepted,0,0
closed
refused,closed
sent,0,0
refused,closed
totals,1,1000,1,1000,0,0,0,0,0,0,0,closed
tuple,17,10.0.0.1,10.0.0.2,5000,53,0,1,1,0,0
";

/// The journal of an engine that has accepted one packet, with a sender's row.
const JOURNAL: &str = "accepted,0,0
totals,1,1000,0,0,0,0,0,0,0,1,1000,open
tuple,17,10.0.0.1,10.0.0.2,5000,53,0,1,0,0,1
sender,0,1,1,0
";

/// The most bytes of a text.
const PAGE: usize = 512;

/// The trace is read, and then read and run.
pub(crate) fn trace(values: &Values, calls: &mut Calls<'_>) {
    let mut read = reads(values.alloc);
    if calls.is_refused(read) {
        read = reads(values.alloc);
    }
    calls.wanted(read.is_right(), "read_trace");
    let mut ran = runs(values);
    if calls.is_refused(ran) {
        ran = runs(values);
    }
    calls.wanted(ran.is_right(), "run");
}

/// Reads the trace.
fn reads(alloc: Global) -> Answer {
    match read_trace(alloc, &mut TRACE.as_bytes()) {
        Ok(steps) => Answer::of(steps.len() == 5),
        Err(fault) if fault.what == TraceFaultKind::Memory => Answer::Refused,
        Err(_) => Answer::Wrong,
    }
}

/// Runs the trace onto a page.
fn runs(values: &Values) -> Answer {
    let Values { alloc, params, .. } = *values;
    let mut page = [0u8; PAGE];
    let mut room = &mut page[..];
    let answer = run(alloc, &mut TRACE.as_bytes(), &mut room, params, SEED);
    let written = PAGE.saturating_sub(room.len());
    told(answer, &page, written, REPORT)
}

/// A journal is written, with the row of a sender.
pub(crate) fn journal(values: &Values, calls: &mut Calls<'_>) {
    match new_engine(values, calls) {
        Some(mut engine) => journal_calls(&mut engine, values, calls),
        None => calls.wanted(false, "Engine::try_new"),
    }
}

/// The same of an engine that was made.
fn journal_calls(engine: &mut Engine, values: &Values, calls: &mut Calls<'_>) {
    accepts(engine, values.packet, calls);
    let mut written = writes(values.alloc, engine);
    if calls.is_refused(written) {
        written = writes(values.alloc, engine);
    }
    calls.wanted(written.is_right(), "write_journal");
}

/// A packet is accepted.
fn accepts(engine: &mut Engine, packet: Packet, calls: &mut Calls<'_>) {
    let step = Step::Enqueue {
        moment: 0,
        lane: 0,
        packet,
    };
    if engine.make(&step).is_err() {
        calls.note();
        calls.wanted(engine.make(&step).is_ok(), "Engine::make");
    }
}

/// Writes the journal onto a page.
fn writes(alloc: Global, engine: &Engine) -> Answer {
    let row = SenderRow {
        sender: 0,
        submitted: 1,
        accepted: 1,
        left: 0,
    };
    let mut page = [0u8; PAGE];
    let mut room = &mut page[..];
    let answer = write_journal(alloc, &mut room, engine, &[row]);
    let written = PAGE.saturating_sub(room.len());
    told(answer, &page, written, JOURNAL)
}

/// Whether the text was written. Where memory was refused nothing has to be.
fn told(answer: Result<(), RunFault>, page: &[u8], written: usize, text: &str) -> Answer {
    match answer {
        Ok(()) => Answer::of(page.get(..written) == Some(text.as_bytes())),
        Err(RunFault::Write) => Answer::Wrong,
        Err(RunFault::Trace(fault)) if fault.what != TraceFaultKind::Memory => Answer::Wrong,
        Err(_) if written == 0 => Answer::Refused,
        Err(_) => Answer::Wrong,
    }
}
