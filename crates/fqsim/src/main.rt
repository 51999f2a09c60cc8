//! The program `fqsim`: it reads a trace from its standard input, and writes the report of the run to its
//! standard output. Where it is asked to, it runs the trace by senders that are threads.
#![tactic(auto)]

use program_core::{ProgramFault, program, tell};
use std::env::{self, Env};
use std::io::{Read, Write};
use std::process::ExitCode;
use std::sync::Wait;
use std::thread::Threads;

fn main(rt: HostRuntime) -> ExitCode {
    let mut faults = rt.stderr();
    let status = match with_arguments(&rt, &mut rt.stdin(), &mut rt.stdout(), &mut faults) {
        Ok(status) => status,
        Err(fault) => tell(&mut faults, &fault),
    };
    ExitCode::from(status)
}

/// Calls the program with the words behind its name and the standard streams.
fn with_arguments<H: Env + AllocGlobal + Threads + Wait + Sync>(
    rt: &H,
    reader: &mut impl Read,
    writer: &mut impl Write,
    faults: &mut impl Write,
) -> Result<u8, ProgramFault> {
    let alloc = rt.alloc();
    let arguments: Vec<String> = env::args(rt)?.skip(1).collect(alloc)?;
    let words: Vec<&str> = arguments.iter().map(|word| word.as_str()).collect(alloc)?;
    Ok(program(rt, alloc, &words, reader, writer, faults))
}
