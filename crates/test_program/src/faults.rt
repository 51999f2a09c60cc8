//! The line and the status of the faults that no trace and no words bring about.

use crate::writers::{interrupted_once, narrow};
use packet_core::read_params;
use program_core::{ProgramFault, tell};
use std::io::ErrorKind;
use std::process::Abort;
use std::{io, str};
use trace_core::{TraceFault, TraceFaultKind};

/// Tells a fault, and compares what is written and the status. The line is whole, also where a write takes one byte or
/// three, and where it is interrupted.
fn expect_line(rt: &(impl Abort + AllocGlobal), fault: ProgramFault, status: u8, line: &str) {
    let mut told = Vec::new(rt.alloc());
    let ended = tell(&mut told, &fault);
    assert_eq!(rt; str::from_utf8(&told).ok(), Some(line));
    assert_eq!(rt; ended, status);
    for at_once in [1, 3] {
        let mut told = narrow(rt.alloc(), at_once);
        assert_eq!(rt; tell(&mut told, &fault), status);
        assert_eq!(rt; str::from_utf8(&told.taken).ok(), Some(line));
    }
    let mut told = interrupted_once(rt.alloc());
    assert_eq!(rt; tell(&mut told, &fault), status);
    assert_eq!(rt; str::from_utf8(&told.stream).ok(), Some(line));
}

/// A mistake of the words is told as it is, in its own lines.
#[test]
fn mistakes_are_told_as_they_are(rt: HostRuntime) {
    for text in [
        "error: one line\n",
        "error: a mistake\n\nUsage: fqsim <COMMAND>\n",
    ] {
        let mistake = format!(in rt.alloc(); "{text}").expect(&rt, "memory");
        expect_line(&rt, ProgramFault::CommandLine(mistake), 2, text);
    }
}

#[test]
fn want_of_memory_is_told(rt: HostRuntime) {
    expect_line(&rt, ProgramFault::Memory, 1, "fqsim: memory\n");
    for (row, line) in [(0, "fqsim: row 0: Memory\n"), (7, "fqsim: row 7: Memory\n")] {
        let what = TraceFaultKind::Memory;
        let fault = ProgramFault::Trace(TraceFault { row, what });
        expect_line(&rt, fault, 1, line);
    }
}

#[test]
fn a_port_that_does_not_settle_is_told(rt: HostRuntime) {
    expect_line(&rt, ProgramFault::Settle, 1, "fqsim: settle\n");
}

#[test]
fn lanes_that_are_full_are_told(rt: HostRuntime) {
    for (lane, line) in [(0, "fqsim: lane 0\n"), (63, "fqsim: lane 63\n")] {
        expect_line(&rt, ProgramFault::Lane(lane), 1, line);
    }
}

#[test]
fn a_monitor_that_read_more_is_told(rt: HostRuntime) {
    for (monitor, line) in [(0, "fqsim: monitor 0\n"), (63, "fqsim: monitor 63\n")] {
        expect_line(&rt, ProgramFault::Monitor(monitor), 1, line);
    }
}

#[test]
fn unread_rows_are_told(rt: HostRuntime) {
    let what = TraceFaultKind::Read;
    let fault = ProgramFault::Trace(TraceFault { row: 7, what });
    expect_line(&rt, fault, 1, "fqsim: row 7: Read\n");
}

#[test]
fn words_that_cannot_be_had_are_told(rt: HostRuntime) {
    let memory = io::Error::from(ErrorKind::OutOfMemory);
    expect_line(&rt, ProgramFault::from(memory), 1, "fqsim: memory\n");
    let wrong = io::Error::from(ErrorKind::InvalidData);
    let line = "fqsim: a word isn't UTF-8\n";
    expect_line(&rt, ProgramFault::from(wrong), 2, line);
}

/// The faults that a run from outside shows too are told so.
#[test]
fn other_faults_are_told(rt: HostRuntime) {
    expect_line(&rt, ProgramFault::NotUtf8, 2, "fqsim: a word isn't UTF-8\n");
    expect_line(&rt, ProgramFault::Seed, 2, "fqsim: seed\n");
    expect_line(&rt, ProgramFault::Write, 1, "fqsim: write\n");
    let what = TraceFaultKind::BadKind;
    let fault = ProgramFault::Trace(TraceFault { row: 1, what });
    expect_line(&rt, fault, 2, "fqsim: row 1: BadKind\n");
    let params = read_params(&["flows", "0"]).err();
    let fault = ProgramFault::Params(params.expect(&rt, "a fault"));
    expect_line(&rt, fault, 2, "fqsim: parameter word 2: OutOfRange\n");
}
