//! The whole program.

use crate::calls::{Answer, Calls};
use program_core::program;
use std::alloc::Global;
use std::str;
use std::sync::Wait;
use std::thread::Threads;

/// The most bytes of a report.
const PAGE: usize = 8_192;

/// The most bytes of a fault.
const LINE: usize = 256;

/// The words of a run with flows by a hash.
const WORDS: [&str; 6] = [
    "trace",
    "--seed",
    "dedc36e04955733940228a1930aadd4d",
    "noecn",
    "target",
    "1ms",
];

/// Packets of one sender alone, with no row that asks for one meanwhile, so that no schedule of threads decides anything.
const SENDERS_TRACE: &str = "enq,5,17,10.0.0.1,10.0.0.2,5000,1,100,0
enq,3,17,10.0.0.1,10.0.0.2,5000,1,100,0
enq,9,17,10.0.0.1,10.0.0.2,5000,5,100,0
enq,9,17,10.0.0.1,10.0.0.2,5000,1,100,0
";

/// Their journal: the fourth packet is one more than the limit, and half of the four are dropped.
const SENDERS_JOURNAL: &str = "accepted,0,1
accepted,1,1
accepted,2,1
accepted,3,1
dropped,0,overflow
dropped,1,overflow
closed
sent,2,0
sent,3,0
totals,4,400,2,200,0,2,200,0,0,0,0,closed
tuple,17,10.0.0.1,10.0.0.2,5000,1,1,3,1,2,0
tuple,17,10.0.0.1,10.0.0.2,5000,5,1,1,1,0,0
sender,0,0,0,0
sender,1,4,4,0
";

/// The words of a run by senders that share the scheduler.
const LOCKED_WORDS: [&str; 9] = [
    "locked",
    "--senders",
    "2",
    "classify",
    "dport",
    "flows",
    "4",
    "limit",
    "3",
];

/// The words of a run by senders with a lane each, and a monitor.
const LANES_WORDS: [&str; 11] = [
    "lanes",
    "--senders",
    "2",
    "--monitors",
    "1",
    "classify",
    "dport",
    "flows",
    "4",
    "limit",
    "3",
];

/// Dequeues alone: no sender has a packet, so no schedule decides anything here either.
const IDLE_TRACE: &str = "deq,0\ndeq,1\n";

/// Their journal. A dequeue that gives nothing is no event.
const IDLE_JOURNAL: &str = "closed
totals,0,0,0,0,0,0,0,0,0,0,0,closed
sender,0,0,0,0
sender,1,0,0,0
";

/// What the monitor saw last: 9 events, 4 packets accepted, 2 sent, 2 dropped and none waiting.
const SEEN: &str = "monitor 0 9 4 2 2 0\n";

/// A run of the program: its words, its trace, what it has to write, and what it has to say beside it. Where what it
/// writes isn't given, that is printed.
#[derive(Clone, Copy)]
struct Run<'a> {
    words: &'a [&'a str],
    trace: &'a str,
    report: Option<&'a str>,
    beside: &'a str,
}

/// Runs the program on a trace.
pub(crate) fn whole<H: Print + Threads + Wait + Sync>(
    rt: &H,
    alloc: Global,
    trace: &str,
    calls: &mut Calls<'_>,
) {
    let run = Run {
        words: &WORDS,
        trace,
        report: None,
        beside: "",
    };
    ends(rt, alloc, run, calls);
}

/// The same by senders that share the scheduler.
pub(crate) fn locked<H: Print + Threads + Wait + Sync>(
    rt: &H,
    alloc: Global,
    calls: &mut Calls<'_>,
) {
    let run = Run {
        words: &LOCKED_WORDS,
        trace: SENDERS_TRACE,
        report: Some(SENDERS_JOURNAL),
        beside: "",
    };
    ends(rt, alloc, run, calls);
}

/// The same with dequeues alone, which the main thread makes.
pub(crate) fn idle<H: Print + Threads + Wait + Sync>(rt: &H, alloc: Global, calls: &mut Calls<'_>) {
    let run = Run {
        words: &LOCKED_WORDS,
        trace: IDLE_TRACE,
        report: Some(IDLE_JOURNAL),
        beside: "",
    };
    ends(rt, alloc, run, calls);
}

/// The same by senders with a lane each, and a monitor.
pub(crate) fn lanes<H: Print + Threads + Wait + Sync>(
    rt: &H,
    alloc: Global,
    calls: &mut Calls<'_>,
) {
    let run = Run {
        words: &LANES_WORDS,
        trace: SENDERS_TRACE,
        report: Some(SENDERS_JOURNAL),
        beside: SEEN,
    };
    ends(rt, alloc, run, calls);
}

/// Runs the program. Where memory was refused it says so and nothing else, and once more it writes what it has to, and
/// says what it has to beside it.
fn ends<H: Print + Threads + Wait + Sync>(
    rt: &H,
    alloc: Global,
    run: Run<'_>,
    calls: &mut Calls<'_>,
) {
    let mut answer = ran(rt, alloc, run);
    if calls.is_refused(answer) {
        answer = ran(rt, alloc, run);
    }
    calls.wanted(answer.is_right(), "program");
}

/// Runs the program once.
fn ran<H: Print + Threads + Wait + Sync>(rt: &H, alloc: Global, run: Run<'_>) -> Answer {
    let mut page = [0u8; PAGE];
    let mut line = [0u8; LINE];
    let ran = run_on(rt, alloc, run.words, run.trace, &mut page, &mut line);
    match (text_of(&page, ran.written), text_of(&line, ran.told)) {
        (Some(report), Some(told)) => judged(rt, run, ran.status, report, told),
        _ => Answer::Wrong,
    }
}

/// Whether a run with that status wrote what it has to, or wrote nothing for want of memory.
fn judged<H: Print>(rt: &H, run: Run<'_>, status: u8, report: &str, told: &str) -> Answer {
    if status != 0 {
        return without_memory(status, report, told);
    }
    let is_written = match run.report {
        Some(wanted) => report == wanted,
        None => print!(rt; "{report}").is_ok(),
    };
    Answer::of(is_written && told == run.beside)
}

/// Whether a run ended for want of memory, and wrote nothing.
fn without_memory(status: u8, report: &str, told: &str) -> Answer {
    let is_memory = told == "fqsim: memory\n" || is_row_fault(told);
    if status == 1 && report.is_empty() && is_memory {
        Answer::Refused
    } else {
        Answer::Wrong
    }
}

/// What became of a run: its status, and how many bytes it wrote and told.
#[derive(Clone, Copy)]
struct RanOnce {
    status: u8,
    written: usize,
    told: usize,
}

/// Runs the program with those words on a trace. It writes onto the page, and tells faults on the line.
fn run_on<H: Threads + Wait + Sync>(
    rt: &H,
    alloc: Global,
    words: &[&str],
    trace: &str,
    page: &mut [u8],
    line: &mut [u8],
) -> RanOnce {
    let mut room = page;
    let mut free = line;
    let most = room.len();
    let most_told = free.len();
    let status = program(
        rt,
        alloc,
        words,
        &mut trace.as_bytes(),
        &mut room,
        &mut free,
    );
    RanOnce {
        status,
        written: most.saturating_sub(room.len()),
        told: most_told.saturating_sub(free.len()),
    }
}

/// Whether memory was refused at a row.
fn is_row_fault(fault: &str) -> bool {
    let Some(rest) = fault.strip_prefix("fqsim: row ") else {
        return false;
    };
    let Some(row) = rest.strip_suffix(": Memory\n") else {
        return false;
    };
    row.parse::<u32>().is_ok()
}

/// The text at the front of a page.
fn text_of(page: &[u8], count: usize) -> Option<&str> {
    str::from_utf8(page.get(..count)?).ok()
}
