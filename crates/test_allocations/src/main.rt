//! Refused allocations: sequences of calls that are made while one allocation of the process is refused.
//!
//! The first line of standard input names a sequence and the allocation of it that is refused, from 1; a trace may
//! follow. `rt try --fail-alloc 1000` refuses the 1,000th allocation of the process, so that as many are made before
//! the sequence as make that one the one asked for. Without that flag none is refused. `.ci/refused-allocations` runs each
//! sequence for each of its allocations.
#![tactic(auto)]

mod calls;
mod devices;
mod engines;
mod flow_lists;
mod pictures;
mod ports;
mod programs;
mod quiet;
mod recorders;
mod renewals;
mod runs;
mod schedulers;
mod sizes;
mod steps;
mod traces;
mod values;

use crate::calls::Calls;
use crate::values::Values;
use std::alloc::Global;
use std::io::Read;
use std::marker::Sync;
use std::process::ExitCode;
use std::str;
use std::sync::Wait;
use std::thread::Threads;

/// The allocation of the process that `rt try` refuses.
const REFUSED: u32 = 1_000;

/// The name for all sequences, one after the other.
const ALL: &str = "all";

/// The names of the sequences.
const SEQUENCES: [&str; 25] = [
    "flows",
    "sched",
    "engine",
    "run_steps",
    "locked",
    "lanes",
    "publish",
    "publish_closed",
    "quiet_sched",
    "quiet_engine",
    "quiet_device",
    "quiet_port",
    "trace",
    "journal",
    "gathered",
    "tallied",
    "renewed",
    "sizes",
    "lists",
    "run_closed",
    "run_dequeues",
    "program_locked",
    "program_idle",
    "program_lanes",
    "program",
];

/// The most bytes of standard input.
const MAX_INPUT: usize = 8_192;

fn main(rt: HostRuntime) -> ExitCode {
    let mut bytes = [0u8; MAX_INPUT];
    let Some(input) = read_input(&mut rt.stdin(), &mut bytes) else {
        return ExitCode::FAILURE;
    };
    match run(&rt, rt.alloc(), input) {
        Ok(()) => ExitCode::SUCCESS,
        Err(wrong) => {
            let _ = println!(rt; "wrong: {wrong}");
            ExitCode::FAILURE
        }
    }
}

/// The text of standard input, where it is no longer than there is room.
fn read_input<'a, R: Read>(reader: &mut R, bytes: &'a mut [u8]) -> Option<&'a str> {
    let mut count = 0_usize;
    for _ in 0..bytes.len() {
        let more = reader.read(bytes.get_mut(count..)?).ok()?;
        if more == 0 {
            break;
        }
        count = count.saturating_add(more);
    }
    str::from_utf8(bytes.get(..count)?).ok()
}

/// Makes the calls that the input asks for, and reports what became of them.
fn run<H: Print + Threads + Wait + Sync>(
    rt: &H,
    alloc: Global,
    input: &str,
) -> Result<(), &'static str> {
    let (name, refused, trace) = asked(input)?;
    let values = Values::try_new(alloc)?;
    make_before(alloc, refused);
    if name != ALL {
        return tell(rt, &values, name, trace);
    }
    for name in SEQUENCES {
        tell(rt, &values, name, trace)?;
    }
    Ok(())
}

/// The name that the input asks for, the allocation that is refused, and what follows their line.
fn asked(input: &str) -> Result<(&str, u32, &str), &'static str> {
    let (line, trace) = input.split_once('\n').ok_or("a line")?;
    let (name, number) = line.split_once(' ').ok_or("a name and a number")?;
    let refused = number.parse().ok().ok_or("a number")?;
    Ok((name, refused, trace))
}

/// Makes the calls of a sequence, and reports how many were refused, or what was wrong first.
fn tell<H: Print + Threads + Wait + Sync>(
    rt: &H,
    values: &Values,
    name: &str,
    trace: &str,
) -> Result<(), &'static str> {
    let mut calls = Calls::new();
    make(rt, values, name, trace, &mut calls);
    if let Some(wrong) = calls.wrong() {
        return Err(wrong);
    }
    let _ = println!(rt; "{name}: refused {}", calls.refused());
    Ok(())
}

/// Makes so many allocations that the one to be refused is the 1,000th of the process.
fn make_before(alloc: Global, refused: u32) {
    for _ in refused..REFUSED {
        let mut one: Vec<u8> = Vec::new(alloc);
        let _ = one.push(0);
    }
}

/// Makes the calls of the sequence of that name.
fn make<H: Print + Threads + Wait + Sync>(
    rt: &H,
    values: &Values,
    name: &str,
    trace: &str,
    calls: &mut Calls<'_>,
) {
    match name {
        "flows" => flow_lists::flows(values, calls),
        "sched" => schedulers::sched(values, calls),
        "engine" => engines::engine(values, calls),
        "run_steps" => engines::steps_run(values, calls),
        "locked" => ports::locked(rt, values, calls),
        "lanes" => devices::lane(rt, values, calls),
        "publish" => devices::second_publish(rt, values, calls),
        "publish_closed" => devices::closed_publish(rt, values, calls),
        "quiet_sched" => quiet::sched(values, calls),
        "quiet_engine" => quiet::engine(values, calls),
        "quiet_device" => quiet::device(rt, values, calls),
        "quiet_port" => quiet::port(rt, values, calls),
        "trace" => traces::trace(values, calls),
        "journal" => traces::journal(values, calls),
        "gathered" => recorders::gathered(values, calls),
        "tallied" => recorders::tallied(values, calls),
        "renewed" => renewals::renewed(values, calls),
        "sizes" => sizes::sizes(rt, values, calls),
        "lists" => runs::lists(values, calls),
        "run_closed" => runs::closed(rt, values, calls),
        "run_dequeues" => runs::dequeues(rt, values, calls),
        "program_locked" => programs::locked(rt, values.alloc, calls),
        "program_idle" => programs::idle(rt, values.alloc, calls),
        "program_lanes" => programs::lanes(rt, values.alloc, calls),
        "program" => programs::whole(rt, values.alloc, trace, calls),
        _ => calls.wanted(false, "a sequence of that name"),
    }
}
