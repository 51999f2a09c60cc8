//! Readers and writers that are slow, and that fail.

use crate::runs::ends;
use crate::writers::{Interrupted, NarrowWriter};
use program_core::program;
use std::io::{ErrorKind, Read, Write};
use std::process::Abort;
use std::sync::Wait;
use std::thread::Threads;
use std::{io, str};

/// The words of a run with one flow and otherwise the standard parameters.
const WORDS: [&str; 5] = ["trace", "classify", "dport", "flows", "1"];

/// A trace of one dequeue, which finds nothing.
const ONE_DEQUEUE: &str = "deq,0\n";

/// Its report.
const IDLE: &str = "idle\ntotals,0,0,0,0,0,0,0,0,0,0,0,open\n";

/// The trace of the example `closing`: a packet, the close, a packet too late, a dequeue and a second close.
const CLOSING: &str = "enq,0,17,10.0.0.1,10.0.0.2,5000,53,1000,0
close,1
enq,2,17,10.0.0.1,10.0.0.2,5000,53,1000,0
deq,3
close,4
";

/// Its report.
const CLOSED: &str = "accepted,0,0
closed
refused,closed
sent,0,0
refused,closed
totals,1,1000,1,1000,0,0,0,0,0,0,0,closed
tuple,17,10.0.0.1,10.0.0.2,5000,53,0,1,1,0,0
";

/// More line feeds than are read at once.
static LINE_FEEDS: [u8; 70_000] = [b'\n'; 70_000];

/// A reader that gives its text, and then fails.
#[derive(Drop)]
struct CutReader<'a> {
    text: &'a [u8],
    failure: ErrorKind,
}

impl Read for CutReader<'_> {
    fn read(&mut self, buf: &mut [u8]) -> io::Result<usize> {
        if self.text.is_empty() {
            return Err(io::Error::from(self.failure));
        }
        self.text.read(buf)
    }
}

/// A reader that gives its text, then its end, and another text if it is read once more.
#[derive(Drop)]
struct EndingReader<'a> {
    text: &'a [u8],
    has_ended: bool,
    behind: &'a [u8],
}

impl Read for EndingReader<'_> {
    fn read(&mut self, buf: &mut [u8]) -> io::Result<usize> {
        if self.has_ended {
            return self.behind.read(buf);
        }
        let count = self.text.read(buf)?;
        self.has_ended = count == 0;
        Ok(count)
    }
}

/// A reader that gives its text a byte at a time.
#[derive(Drop)]
struct SlowReader<'a>(&'a [u8]);

impl Read for SlowReader<'_> {
    fn read(&mut self, buf: &mut [u8]) -> io::Result<usize> {
        let room = buf.len().min(1);
        self.0.read(&mut buf[..room])
    }
}

/// A writer that takes so many bytes, then once none, and from then on all. It counts its calls, flushes too.
#[derive(Drop)]
struct PausingWriter {
    taken: Vec<u8>,
    front: usize,
    has_paused: bool,
    calls: u32,
}

impl Write for PausingWriter {
    fn write(&mut self, buf: &[u8]) -> io::Result<usize> {
        self.calls = self.calls.saturating_add(1);
        let room = self.front.saturating_sub(self.taken.len());
        let pauses = room == 0 && !self.has_paused;
        let count = if self.has_paused {
            buf.len()
        } else {
            buf.len().min(room)
        };
        self.has_paused = self.has_paused || pauses;
        self.taken.extend_from_slice(&buf[..count])?;
        Ok(count)
    }

    fn flush(&mut self) -> io::Result<()> {
        self.calls = self.calls.saturating_add(1);
        Ok(())
    }
}

/// Runs the program on a trace with a reader and a writer that are interrupted so often, and compares what it writes
/// and how it ends.
fn expect_interrupted(
    rt: &(impl Abort + AllocGlobal + Threads + Wait + Sync),
    trace: &str,
    interruptions: (u32, u32),
    status: u8,
    report: &str,
    faults: &str,
) {
    let (reads, writes) = interruptions;
    let mut reader = Interrupted {
        stream: trace.as_bytes(),
        left: reads,
        failure: ErrorKind::Interrupted,
    };
    let mut writer = Interrupted {
        stream: Vec::new(rt.alloc()),
        left: writes,
        failure: ErrorKind::Interrupted,
    };
    ends(rt, &WORDS, &mut reader, &mut writer, status, faults);
    assert_eq!(rt; str::from_utf8(&writer.stream).ok(), Some(report));
    // Each call that was interrupted was made, and none after the last one.
    assert_eq!(rt; reader.left, reads.saturating_sub(1_001));
}

/// Runs the program on a trace that comes from a reader, and compares what it writes and how it ends.
fn expect_from<R: Read>(
    rt: &(impl Abort + AllocGlobal + Threads + Wait + Sync),
    reader: &mut R,
    status: u8,
    report: &str,
    faults: &str,
) {
    let mut written = Vec::new(rt.alloc());
    ends(rt, &WORDS, reader, &mut written, status, faults);
    assert_eq!(rt; str::from_utf8(&written).ok(), Some(report));
}

/// Runs the program on a trace of one dequeue with a writer that takes so many bytes at once, and has room for so many,
/// and compares how it ends and what the writer took.
fn expect_taken(
    rt: &(impl Abort + AllocGlobal + Threads + Wait + Sync),
    at_once: usize,
    room: usize,
    status: u8,
    report: &str,
    faults: &str,
) {
    let mut writer = NarrowWriter {
        taken: Vec::new(rt.alloc()),
        at_once,
        room,
    };
    ends(
        rt,
        &WORDS,
        &mut ONE_DEQUEUE.as_bytes(),
        &mut writer,
        status,
        faults,
    );
    assert_eq!(rt; str::from_utf8(&writer.taken).ok(), Some(report));
}

#[test]
fn failed_reads_refused(rt: HostRuntime) {
    let faults = "fqsim: row 0: Read\n";
    let trace = b"deq,0\nfoo\n";
    for count in 0..=trace.len() {
        let mut reader = CutReader {
            text: &trace[..count],
            failure: ErrorKind::BrokenPipe,
        };
        expect_from(&rt, &mut reader, 1, "", faults);
    }
}

/// A read that fails is told as one wherever it stands: here after many bytes.
#[test]
fn late_failed_reads_refused(rt: HostRuntime) {
    let mut reader = CutReader {
        text: &LINE_FEEDS,
        failure: ErrorKind::BrokenPipe,
    };
    expect_from(&rt, &mut reader, 1, "", "fqsim: row 0: Read\n");
}

/// A call that fails is the last one, though the next would go well: only an interruption is tried again.
#[test]
fn failures_are_no_interruptions(rt: HostRuntime) {
    for failure in [
        ErrorKind::BrokenPipe,
        ErrorKind::ConnectionReset,
        ErrorKind::WouldBlock,
        ErrorKind::Other,
    ] {
        let mut reader = Interrupted {
            stream: ONE_DEQUEUE.as_bytes(),
            left: 1,
            failure,
        };
        expect_from(&rt, &mut reader, 1, "", "fqsim: row 0: Read\n");
        let mut writer = Interrupted {
            stream: Vec::new(rt.alloc()),
            left: 1,
            failure,
        };
        let mut trace = ONE_DEQUEUE.as_bytes();
        ends(&rt, &WORDS, &mut trace, &mut writer, 1, "fqsim: write\n");
        assert_eq!(rt; (writer.stream.len(), writer.left), (0, 0));
    }
}

#[test]
fn interruptions_are_tried_again(rt: HostRuntime) {
    for (trace, report) in [(ONE_DEQUEUE, IDLE), (CLOSING, CLOSED)] {
        expect_interrupted(&rt, trace, (1_000, 1_000), 0, report, "");
        expect_interrupted(&rt, trace, (1_001, 0), 1, "", "fqsim: row 0: Read\n");
        expect_interrupted(&rt, trace, (2_000, 0), 1, "", "fqsim: row 0: Read\n");
        expect_interrupted(&rt, trace, (0, 1_001), 1, "", "fqsim: write\n");
    }
}

#[test]
fn slow_readers_are_read(rt: HostRuntime) {
    let report = "idle\nclosed\ntotals,0,0,0,0,0,0,0,0,0,0,0,closed\n";
    let mut reader = SlowReader(b"deq,0\nclose,1\n");
    expect_from(&rt, &mut reader, 0, report, "");
}

/// The first end is the end of the trace: nothing is read behind it, by one thread or by senders.
#[test]
fn nothing_is_read_behind_the_end(rt: HostRuntime) {
    for (trace, report) in [(ONE_DEQUEUE, IDLE), (CLOSING, CLOSED)] {
        expect_ended(&rt, &WORDS, trace, Some(report));
        expect_ended(&rt, &["locked", "--senders", "1"], trace, None);
        expect_ended(&rt, &["lanes", "--senders", "1"], trace, None);
    }
}

/// Runs the program on a trace with a wrong row behind its end, which isn't read, and compares the report where one is
/// wanted.
fn expect_ended(
    rt: &(impl Abort + AllocGlobal + Threads + Wait + Sync),
    words: &[&str],
    trace: &str,
    report: Option<&str>,
) {
    let mut reader = EndingReader {
        text: trace.as_bytes(),
        has_ended: false,
        behind: b"foo\n",
    };
    let mut written = Vec::new(rt.alloc());
    ends(rt, words, &mut reader, &mut written, 0, "");
    assert_eq!(rt; reader.behind.len(), 4);
    if report.is_some() {
        assert_eq!(rt; str::from_utf8(&written).ok(), report);
    }
}

/// Words that are wrong are told before anything is read, by each of the commands.
#[test]
fn wrong_words_read_nothing(rt: HostRuntime) {
    for command in ["trace", "locked", "lanes"] {
        expect_unread(&rt, &[command, "--seed", "0"], "fqsim: seed\n");
        let fault = "fqsim: parameter word 2: OutOfRange\n";
        expect_unread(&rt, &[command, "flows", "0"], fault);
    }
}

/// Runs the program with words that are wrong, and sees that it reads nothing.
fn expect_unread(
    rt: &(impl Abort + AllocGlobal + Threads + Wait + Sync),
    words: &[&str],
    faults: &str,
) {
    let mut written = Vec::new(rt.alloc());
    let mut reader = ONE_DEQUEUE.as_bytes();
    ends(rt, words, &mut reader, &mut written, 2, faults);
    assert_eq!(rt; (written.len(), reader.len()), (0, ONE_DEQUEUE.len()));
}

#[test]
fn slow_writers_are_written(rt: HostRuntime) {
    expect_taken(&rt, 1, 1_000, 0, IDLE, "");
    expect_taken(&rt, 3, 1_000, 0, IDLE, "");
}

/// Help is written whole, also where each write takes one byte or three.
#[test]
fn slow_writers_of_help_are_written(rt: HostRuntime) {
    let mut whole = Vec::new(rt.alloc());
    ends(
        &rt,
        &["--help"],
        &mut ONE_DEQUEUE.as_bytes(),
        &mut whole,
        0,
        "",
    );
    for at_once in [1, 3] {
        let mut writer = NarrowWriter {
            taken: Vec::new(rt.alloc()),
            at_once,
            room: 100_000,
        };
        ends(
            &rt,
            &["--help"],
            &mut ONE_DEQUEUE.as_bytes(),
            &mut writer,
            0,
            "",
        );
        assert!(rt; writer.taken == whole);
    }
}

/// Help is written whole where its writer is interrupted, but not more often than a report is.
#[test]
fn interruptions_of_help_are_tried_again(rt: HostRuntime) {
    let mut whole = Vec::new(rt.alloc());
    let words = ["--help"];
    ends(&rt, &words, &mut "".as_bytes(), &mut whole, 0, "");
    for (interruptions, status, faults) in [
        (1, 0, ""),
        (1_000, 0, ""),
        (1_001, 1, "fqsim: write\n"),
    ] {
        let mut writer = Interrupted {
            stream: Vec::new(rt.alloc()),
            left: interruptions,
            failure: ErrorKind::Interrupted,
        };
        ends(&rt, &words, &mut "".as_bytes(), &mut writer, status, faults);
        assert_eq!(rt; writer.stream == whole, status == 0);
    }
}

#[test]
fn failed_writes_refused(rt: HostRuntime) {
    let faults = "fqsim: write\n";
    expect_taken(&rt, 1_000, 0, 1, "", faults);
    expect_taken(&rt, 1_000, 7, 1, "idle\nto", faults);
    expect_taken(&rt, 1, 7, 1, "idle\nto", faults);

    // The second write fails, then the third, up to the last.
    let fronts = [
        "idle\n",
        "idle\ntotal",
        "idle\ntotals,0,0",
        "idle\ntotals,0,0,0,0,",
        "idle\ntotals,0,0,0,0,0,0,0",
        "idle\ntotals,0,0,0,0,0,0,0,0,0,",
        "idle\ntotals,0,0,0,0,0,0,0,0,0,0,0,o",
    ];
    for front in fronts {
        expect_taken(&rt, 5, front.len(), 1, front, faults);
    }
}

#[test]
fn writes_that_take_nothing_refused(rt: HostRuntime) {
    expect_taken(&rt, 0, 1_000, 1, "", "fqsim: write\n");

    // A slice takes what it has room for, and then nothing.
    let mut taken = [0; 7];
    let mut room = &mut taken[..];
    ends(
        &rt,
        &WORDS,
        &mut ONE_DEQUEUE.as_bytes(),
        &mut room,
        1,
        "fqsim: write\n",
    );
    assert_eq!(rt; &taken, b"idle\nto");
}

#[test]
fn a_write_that_takes_nothing_is_the_last_one(rt: HostRuntime) {
    // It is no interruption, so there is no other write, though that would take all.
    for front in [0, 1, 7, CLOSED.len() - 1] {
        expect_paused(&rt, front);
    }
}

/// Runs the program with a writer that pauses after so many bytes.
fn expect_paused(rt: &(impl Abort + AllocGlobal + Threads + Wait + Sync), front: usize) {
    let mut writer = PausingWriter {
        taken: Vec::new(rt.alloc()),
        front,
        has_paused: false,
        calls: 0,
    };
    ends(
        rt,
        &WORDS,
        &mut CLOSING.as_bytes(),
        &mut writer,
        1,
        "fqsim: write\n",
    );
    assert_eq!(rt; str::from_utf8(&writer.taken).ok(), CLOSED.get(..front));
    assert_eq!(rt; writer.calls, if front == 0 { 1 } else { 2 });
}

#[test]
fn a_fault_that_cannot_be_told_keeps_its_status(rt: HostRuntime) {
    let mut faults = NarrowWriter {
        taken: Vec::new(rt.alloc()),
        at_once: 1_000,
        room: 0,
    };
    let mut report = Vec::new(rt.alloc());
    let mut trace = "foo\n".as_bytes();
    let ended = program(
        &rt,
        rt.alloc(),
        &WORDS,
        &mut trace,
        &mut report,
        &mut faults,
    );
    assert_eq!(rt; (ended, report.len()), (2, 0));
}
