//! A call of the program.

use link_command::{Terminals, program};
use std::io::{self, ErrorKind, Write};

/// The status of a call with these words and this input, what it wrote, and what it reported. None of its streams is a
/// terminal.
pub(crate) fn called<R: AllocGlobal>(
    rt: &R,
    words: &[&str],
    input: &str,
) -> (u8, Vec<u8>, Vec<u8>) {
    let terminals = Terminals {
        input: false,
        faults: false,
    };
    called_at(rt, words, input, terminals)
}

/// The same, where these of the standard streams are a terminal.
pub(crate) fn called_at<R: AllocGlobal>(
    rt: &R,
    words: &[&str],
    input: &str,
    terminals: Terminals,
) -> (u8, Vec<u8>, Vec<u8>) {
    let mut output = Vec::new(rt.alloc());
    let (status, told) = called_into(rt, words, input, terminals, &mut output);
    (status, output, told)
}

/// The status of the program with these words and this input, which writes to that writer, and what it reports.
fn called_into<R: AllocGlobal, W: Write>(
    rt: &R,
    words: &[&str],
    input: &str,
    terminals: Terminals,
    writer: &mut W,
) -> (u8, Vec<u8>) {
    let mut told = Vec::new(rt.alloc());
    let mut reader = input.as_bytes();
    let status = program(rt.alloc(), words, &mut reader, writer, &mut told, terminals);
    (status, told)
}

/// A writer that is interrupted so often before the first byte. Then it takes 1,000 bytes at most in each write.
#[derive(Drop)]
struct Interrupted {
    taken: Vec<u8>,
    left: u32,
}

impl Write for Interrupted {
    fn write(&mut self, buf: &[u8]) -> io::Result<usize> {
        if self.left > 0 {
            self.left -= 1;
            return Err(io::Error::from(ErrorKind::Interrupted));
        }
        let count = buf.len().min(1_000);
        self.taken.extend_from_slice(&buf[..count])?;
        Ok(count)
    }

    fn flush(&mut self) -> io::Result<()> {
        Ok(())
    }
}

/// The status of a call whose writer is interrupted so often, what it wrote, and what it reported.
pub(crate) fn called_interrupted<R: AllocGlobal>(
    rt: &R,
    words: &[&str],
    input: &str,
    interruptions: u32,
) -> (u8, Vec<u8>, Vec<u8>) {
    let terminals = Terminals {
        input: false,
        faults: false,
    };
    let mut writer = Interrupted {
        taken: Vec::new(rt.alloc()),
        left: interruptions,
    };
    let (status, told) = called_into(rt, words, input, terminals, &mut writer);
    (status, writer.taken, told)
}
