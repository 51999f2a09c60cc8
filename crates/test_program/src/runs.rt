//! Runs of the program over streams of a test's own.

use program_core::program;
use std::io::{Read, Write};
use std::process::Abort;
use std::str;
use std::sync::Wait;
use std::thread::Threads;

/// Runs the program, and compares its status and what it tells of faults.
pub(crate) fn ends<R: Read, W: Write>(
    rt: &(impl Abort + AllocGlobal + Threads + Wait + Sync),
    words: &[&str],
    reader: &mut R,
    writer: &mut W,
    status: u8,
    faults: &str,
) {
    let mut told = Vec::new(rt.alloc());
    let ended = program(rt, rt.alloc(), words, reader, writer, &mut told);
    assert_eq!(rt; str::from_utf8(&told).ok(), Some(faults));
    assert_eq!(rt; ended, status);
}

/// A run may have more monitors than senders. Each of them has its line.
#[test]
fn more_monitors_than_senders(rt: HostRuntime) {
    let mut written = Vec::new(rt.alloc());
    let words = ["lanes", "--senders", "1", "--monitors", "3"];
    let told = "monitor 0 1 0 0 0 0\nmonitor 1 1 0 0 0 0\nmonitor 2 1 0 0 0 0\n";
    ends(&rt, &words, &mut "".as_bytes(), &mut written, 0, told);
}

/// A packet that comes after the close is left, if it isn't accepted before. That is no fault, whichever it is.
#[test]
fn late_packets_are_no_fault(rt: HostRuntime) {
    for _run in 0..20 {
        let mut written = Vec::new(rt.alloc());
        let mut trace = "close,0\nenq,0,17,10.0.0.1,10.0.0.2,5000,53,100,0\n".as_bytes();
        ends(&rt, &["locked"], &mut trace, &mut written, 0, "");
    }
}
