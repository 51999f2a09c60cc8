//! Runs between a source and a sink of a caller's own, which know whether they have failed.

ghost use Rattle.std.specs.Prelude.{◌≡◌, ◌<◌, ◌++◌, IfErr, MatchResult, Some, true};

use crate::packets::{SEED, one_flow, params_of};
use packet_core::Params;
use sched_core::Step;
use std::alloc::Global;
use std::io::{self, ErrorKind, Read};
use std::process::Abort;
use std::str;
use trace_core::{
    RunFault, Sink, Source, TraceFault, TraceFaultKind, read_trace_from, run_between,
};

/// The trace of every run: one dequeue, which finds nothing.
const TRACE: &[u8] = b"deq,0\n";

/// Its report.
const REPORT: &str = "idle\ntotals,0,0,0,0,0,0,0,0,0,0,0,open\n";

/// Bytes that a device took in. Where it overran, what came after them is lost.
#[derive(Drop)]
struct Intake<'a> {
    bytes: &'a [u8],
    overran: bool,
    has_failed: bool,
}

impl<'a> Intake<'a> {
    /// The intake of a trace's first bytes. It overran where that isn't the whole trace.
    fn new(bytes: &'a [u8]) -> Intake<'a> {
        Intake {
            bytes,
            overran: bytes.len() < TRACE.len(),
            has_failed: false,
        }
    }
}

impl Source for Intake<'_> {
    ghost remaining = { λ intake. Some intake.bytes.now };

    ghost Answered = { λ _ answer new. IfErr answer (λ _. new.has_failed ≡ true) };

    fn fill(&mut self, buffer: &mut [u8]) -> io::Result<usize> {
        if self.overran && self.bytes.is_empty() {
            self.has_failed = true;
            return Err(io::Error::from(ErrorKind::UnexpectedEof));
        }
        let Ok(count) = self.bytes.read(buffer) else {
            self.has_failed = true;
            return Err(io::Error::from(ErrorKind::Other));
        };
        Ok(count)
    }
}

/// A page with room for so many bytes more.
#[derive(Drop)]
struct Page {
    bytes: Vec<u8>,
    room: usize,
    is_full: bool,
}

impl Sink for Page {
    ghost use Rattle.std.proofs.Common.{◌∙◌, ap, append_assoc, sym};
    ghost use Rattle.std.proofs.lemmas.List.{append-nil};

    ghost Wrote = { λ a text b. b.bytes.items ≡ a.bytes.items ++ text };

    ghost Answered = { λ _ answer new. MatchResult answer (λ count. 0 < count) (λ _. new.is_full ≡ true) };

    ghost wrote_none = { λ a. sym (append-nil a.bytes.items) };

    ghost wrote_more = { λ a b c first second one two.
        two ∙ ap (λ l. l ++ second) one ∙ append_assoc a.bytes.items first second };

    fn put(&mut self, text: &[u8]) -> io::Result<usize> {
        let count = text.len().min(self.room);
        if count == 0 || self.bytes.extend_from_slice(&text[..count]).is_err() {
            self.is_full = true;
            return Err(io::Error::from(ErrorKind::WriteZero));
        }
        self.room -= count;
        Ok(count)
    }
}

/// Runs what an intake has onto a page. `Write` is answered only where the page is full.
fn run_onto(
    alloc: Global,
    intake: &mut Intake<'_>,
    page: &mut Page,
    params: Params,
) -> Result<(), RunFault>
    ensures { IfErr result (λ fault. fault ≡ RunFault.Write → page.new.is_full ≡ true) }
{
    run_between(alloc, intake, page, params, SEED)
}

/// Runs the first bytes of the trace onto a page with so much room, and compares what it took, how the run ended and
/// which of the two has failed.
fn expect_run_between(
    rt: &(impl Abort + AllocGlobal),
    bytes: &[u8],
    room: usize,
    report: &str,
    ended: Result<(), RunFault>,
) {
    let mut intake = Intake::new(bytes);
    let mut page = Page {
        bytes: Vec::new(rt.alloc()),
        room,
        is_full: false,
    };
    let params = params_of(rt, one_flow());
    let answer = run_onto(rt.alloc(), &mut intake, &mut page, params);
    assert_eq!(rt; str::from_utf8(&page.bytes).ok(), Some(report));
    assert_eq!(rt; answer, ended);
    assert_eq!(rt; intake.has_failed, bytes.len() < TRACE.len());
    assert_eq!(rt; page.is_full, ended == Err(RunFault::Write));
}

/// A read that failed before the first row.
fn failed_read() -> TraceFault {
    TraceFault {
        row: 0,
        what: TraceFaultKind::Read,
    }
}

/// The texts of faults.
#[test]
fn texts_of_faults(rt: HostRuntime) -> Result<(), std::test::Fail> {
    let trace = RunFault::Trace(failed_read());
    let texts = format!(in rt.alloc(); "{trace}, {}, {}", RunFault::Memory, RunFault::Write)?;
    assert_eq!(rt; texts.as_str(), "row 0: Read, memory, write");
    Ok(())
}

#[test]
fn run_between_own_streams(rt: HostRuntime) {
    expect_run_between(&rt, TRACE, 1_000, REPORT, Ok(()));
    expect_run_between(&rt, TRACE, REPORT.len(), REPORT, Ok(()));
}

#[test]
fn failed_intakes_told(rt: HostRuntime) {
    let ended = Err(RunFault::Trace(failed_read()));
    for count in 0..TRACE.len() {
        expect_run_between(&rt, &TRACE[..count], 1_000, "", ended);
    }
}

#[test]
fn full_pages_told(rt: HostRuntime) {
    expect_run_between(&rt, TRACE, 0, "", Err(RunFault::Write));
    expect_run_between(&rt, TRACE, 7, "idle\nto", Err(RunFault::Write));
}

#[test]
fn read_trace_from_an_intake(rt: HostRuntime) {
    reads_whole(&rt, &[Step::Dequeue { moment: 0 }]);
    fails_where_cut(&rt);
}

/// The whole trace gives these steps.
fn reads_whole(rt: &(impl Abort + AllocGlobal), wanted: &[Step]) {
    let mut intake = Intake::new(TRACE);
    let steps = read_trace_from(rt.alloc(), &mut intake)
        .ok()
        .expect(rt, "steps");
    assert!(rt; steps.as_slice() == wanted);
}

/// The first bytes alone give the fault of a read that failed.
fn fails_where_cut(rt: &(impl Abort + AllocGlobal)) {
    let mut intake = Intake::new(&TRACE[..3]);
    let cut = read_trace_from(rt.alloc(), &mut intake);
    assert!(rt; cut.err() == Some(failed_read()));
}
