//! The programs over texts of so many rows.

use crate::sizes::{BELOW, SHORT, size};
use link_command::Terminals;
use std::alloc::{AllocError, Global};
use std::process::Abort;
use std::str;
use std::sync::Wait;
use std::thread::Threads;

/// The most rows of a trace.
const ROWS: usize = 1_000_000;

/// A trace is run.
#[test]
fn traces(rt: HostRuntime) {
    fqsim(&rt, &["trace"], 0, BELOW);
}

#[test]
fn long_traces(rt: HostRuntime) {
    fqsim(&rt, &["trace"], BELOW, SHORT);
}

/// By senders with a lock.
#[test]
fn traces_by_senders(rt: HostRuntime) {
    fqsim(&rt, &["locked", "--senders", "2"], 0, BELOW);
}

#[test]
fn long_traces_by_senders(rt: HostRuntime) {
    fqsim(&rt, &["locked", "--senders", "2"], BELOW, SHORT);
}

/// By senders with lanes, while a monitor reads.
#[test]
fn traces_by_lanes(rt: HostRuntime) {
    fqsim(
        &rt,
        &["lanes", "--senders", "2", "--monitors", "1"],
        0,
        BELOW,
    );
}

#[test]
fn long_traces_by_lanes(rt: HostRuntime) {
    fqsim(
        &rt,
        &["lanes", "--senders", "2", "--monitors", "1"],
        BELOW,
        SHORT,
    );
}

/// Through a link.
#[test]
fn arrivals_at_a_link(rt: HostRuntime) {
    maltlink(&rt, &["--rate", "10gbit"], 0, BELOW);
}

#[test]
fn many_arrivals_at_a_link(rt: HostRuntime) {
    maltlink(&rt, &["--rate", "10gbit"], BELOW, SHORT);
}

/// So many packets come, each of another five-tuple.
fn rows(alloc: Global, number: usize) -> Result<String, AllocError> {
    let mut text = String::new(alloc);
    for row in 0..number {
        let [_, _, _, _, a, b, c, d] = row.to_be_bytes();
        writeln!(
            text,
            "enq,{row},17,{a}.{b}.{c}.{d},10.0.0.2,5000,443,1000,0"
        )?;
    }
    Ok(text)
}

/// Runs over traces of the sizes from that number to that one.
fn fqsim(
    rt: &(impl Abort + AllocGlobal + Threads + Wait + Sync),
    words: &[&str],
    from: usize,
    to: usize,
) {
    for number in from..to {
        let text = rows(rt.alloc(), size(number).min(ROWS)).expect(rt, "memory");
        let (mut written, mut told) = (Vec::new(rt.alloc()), Vec::new(rt.alloc()));
        let mut reader = text.as_bytes();
        let ended = program_core::program(
            rt,
            rt.alloc(),
            words,
            &mut reader,
            &mut written,
            &mut told,
        );
        assert_eq!(rt; ended, 0);
    }
}

/// The same over arrivals at a link.
fn maltlink(rt: &(impl Abort + AllocGlobal), words: &[&str], from: usize, to: usize) {
    for number in from..to {
        let text = rows(rt.alloc(), size(number).min(ROWS)).expect(rt, "memory");
        let (mut written, mut told) = (Vec::new(rt.alloc()), Vec::new(rt.alloc()));
        let mut reader = text.as_bytes();
        let none = Terminals {
            input: false,
            faults: false,
        };
        let ended = link_command::program(
            rt.alloc(),
            words,
            &mut reader,
            &mut written,
            &mut told,
            none,
        );
        assert_eq!(rt; str::from_utf8(&told).ok(), Some(""));
        assert_eq!(rt; ended, 0);
    }
}
