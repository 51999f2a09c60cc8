//! The program `maltlink`: it reads arrivals from its standard input, runs them through a bottleneck link, and writes a
//! table to its standard output.
#![tactic(auto)]

use link_command::{ProgramFault, Terminals, program, tell};
use std::env::{self, Env};
use std::io::{IsTerminal, Read, Write};
use std::process::ExitCode;

fn main(rt: HostRuntime) -> ExitCode {
    let mut faults = rt.stderr();
    let terminals = Terminals {
        input: rt.stdin().is_terminal(),
        faults: faults.is_terminal(),
    };
    let status = match with_arguments(
        &rt,
        &mut rt.stdin(),
        &mut rt.stdout(),
        &mut faults,
        terminals,
    ) {
        Ok(status) => status,
        Err(fault) => tell(&mut faults, &fault),
    };
    ExitCode::from(status)
}

/// Calls the program with the words behind its name and the standard streams.
fn with_arguments<H: Env + AllocGlobal>(
    rt: &H,
    reader: &mut impl Read,
    writer: &mut impl Write,
    faults: &mut impl Write,
    terminals: Terminals,
) -> Result<u8, ProgramFault> {
    let alloc = rt.alloc();
    let arguments: Vec<String> = env::args(rt)?.skip(1).collect(alloc)?;
    let words: Vec<&str> = arguments.iter().map(|word| word.as_str()).collect(alloc)?;
    Ok(program(alloc, &words, reader, writer, faults, terminals))
}
