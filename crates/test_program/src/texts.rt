//! Each text of the program is whole, however few bytes a write takes, and where it is interrupted.

use crate::writers::{interrupted_once, narrow};
use program_core::program;
use std::process::Abort;
use std::str;
use std::sync::Wait;
use std::thread::Threads;

/// A trace that is refused at its second row.
const WRONG_ROW: &str = "deq,0\nfoo\n";

/// A trace of a packet, a dequeue and the close.
const PACKET: &str = "enq,0,17,10.0.0.1,10.0.0.2,5000,53,100,0\ndeq,1\nclose,2\n";

/// What three monitors tell of a run with nothing but its close.
const MONITORS: &str = "monitor 0 1 0 0 0 0\nmonitor 1 1 0 0 0 0\nmonitor 2 1 0 0 0 0\n";

/// Runs the program on a trace over writers that take a byte or three at once, and over writers that are interrupted
/// once. It ends with that status, writes that text on standard output, and tells that one on standard error.
fn expect_texts(
    rt: &(impl Abort + AllocGlobal + Threads + Wait + Sync),
    words: &[&str],
    trace: &str,
    status: u8,
    report: &str,
    faults: &str,
) {
    for at_once in [1, 3] {
        let mut written = narrow(rt.alloc(), at_once);
        let mut told = narrow(rt.alloc(), at_once);
        let mut reader = trace.as_bytes();
        let ended = program(rt, rt.alloc(), words, &mut reader, &mut written, &mut told);
        assert_eq!(rt; str::from_utf8(&written.taken).ok(), Some(report));
        assert_eq!(rt; str::from_utf8(&told.taken).ok(), Some(faults));
        assert_eq!(rt; ended, status);
    }
    let mut written = interrupted_once(rt.alloc());
    let mut told = interrupted_once(rt.alloc());
    let mut reader = trace.as_bytes();
    let ended = program(rt, rt.alloc(), words, &mut reader, &mut written, &mut told);
    assert_eq!(rt; str::from_utf8(&written.stream).ok(), Some(report));
    assert_eq!(rt; str::from_utf8(&told.stream).ok(), Some(faults));
    assert_eq!(rt; ended, status);
}

/// Runs the program over writers that take all, and expects the same texts of the others. The texts begin so.
fn expect_whole(
    rt: &(impl Abort + AllocGlobal + Threads + Wait + Sync),
    words: &[&str],
    trace: &str,
    status: u8,
    report_start: &str,
    faults_start: &str,
) {
    let mut written = Vec::new(rt.alloc());
    let mut told = Vec::new(rt.alloc());
    let mut reader = trace.as_bytes();
    let ended = program(rt, rt.alloc(), words, &mut reader, &mut written, &mut told);
    assert_eq!(rt; ended, status);
    let report = str::from_utf8(&written).expect(rt, "a text");
    let faults = str::from_utf8(&told).expect(rt, "a text");
    assert!(rt; report.starts_with(report_start), "{report}");
    assert!(rt; faults.starts_with(faults_start), "{faults}");
    expect_texts(rt, words, trace, status, report, faults);
}

/// The help of the program and of each command.
#[test]
fn help_is_whole(rt: HostRuntime) {
    expect_whole(&rt, &["--help"], "", 0, "Run a", "");
    for word in ["-h", "help"] {
        expect_whole(&rt, &[word], "", 0, "", "");
    }
    for command in ["trace", "locked", "lanes"] {
        expect_whole(&rt, &[command, "--help"], "", 0, "", "");
        expect_whole(&rt, &["help", command], "", 0, "", "");
    }
}

/// Mistakes of the words. The program has no option for its version, so that is one.
#[test]
fn mistakes_are_whole(rt: HostRuntime) {
    expect_whole(&rt, &["--version"], "", 2, "", "error: ");
    expect_whole(&rt, &["foo"], "", 2, "", "error: ");
    expect_whole(&rt, &["locked", "--senders", "65"], "", 2, "", "error: ");
    expect_whole(&rt, &["lanes", "--monitors", "x"], "", 2, "", "error: ");
}

/// Faults of the seed, of the parameters and of the rows, of each command.
#[test]
fn faults_are_whole(rt: HostRuntime) {
    for command in ["trace", "locked", "lanes"] {
        expect_texts(&rt, &[command, "--seed", "0"], "", 2, "", "fqsim: seed\n");
        let params = "fqsim: parameter word 2: OutOfRange\n";
        expect_texts(&rt, &[command, "flows", "0"], "", 2, "", params);
        let row = "fqsim: row 2: BadKind\n";
        expect_texts(&rt, &[command], WRONG_ROW, 2, "", row);
    }
}

/// The report of one thread, and the journals of senders. One sender without a packet has but one journal.
#[test]
fn reports_are_whole(rt: HostRuntime) {
    expect_whole(&rt, &["trace"], PACKET, 0, "accepted,0,", "");
    expect_whole(&rt, &["locked", "--senders", "1"], "", 0, "", "");
    expect_whole(&rt, &["lanes", "--senders", "1"], "", 0, "", "");
}

/// The lines of monitors, a line for each.
#[test]
fn monitor_lines_are_whole(rt: HostRuntime) {
    let words = ["lanes", "--senders", "1", "--monitors", "3"];
    expect_whole(&rt, &words, "", 0, "", MONITORS);
}
