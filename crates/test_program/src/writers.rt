//! Writers that take a few bytes at once, and streams that fail some times at first.

use std::alloc::Global;
use std::io::{self, ErrorKind, Read, Write};

/// A writer that takes so many bytes at once, as long as there is room, and then fails.
#[derive(Drop)]
pub(crate) struct NarrowWriter {
    pub(crate) taken: Vec<u8>,
    pub(crate) at_once: usize,
    pub(crate) room: usize,
}

impl Write for NarrowWriter {
    fn write(&mut self, buf: &[u8]) -> io::Result<usize> {
        let room = self.room.saturating_sub(self.taken.len());
        if room == 0 {
            return Err(io::Error::from(ErrorKind::BrokenPipe));
        }
        let count = buf.len().min(self.at_once).min(room);
        self.taken.extend_from_slice(&buf[..count])?;
        Ok(count)
    }

    fn flush(&mut self) -> io::Result<()> {
        Ok(())
    }
}

/// A writer that takes so many bytes at once, and has room for any text of the program.
pub(crate) fn narrow(alloc: Global, at_once: usize) -> NarrowWriter {
    NarrowWriter {
        taken: Vec::new(alloc),
        at_once,
        room: 100_000,
    }
}

/// A stream that fails so often before it is read or written, by an interruption or another failure.
#[derive(Drop)]
pub(crate) struct Interrupted<T> {
    pub(crate) stream: T,
    pub(crate) left: u32,
    pub(crate) failure: ErrorKind,
}

impl<T> Interrupted<T> {
    /// It fails once more, if at all.
    fn interrupt(&mut self) -> io::Result<()> {
        if self.left == 0 {
            return Ok(());
        }
        self.left -= 1;
        Err(io::Error::from(self.failure))
    }
}

impl Read for Interrupted<&[u8]> {
    fn read(&mut self, buf: &mut [u8]) -> io::Result<usize> {
        self.interrupt()?;
        self.stream.read(buf)
    }
}

impl Write for Interrupted<Vec<u8>> {
    fn write(&mut self, buf: &[u8]) -> io::Result<usize> {
        self.interrupt()?;
        self.stream.write(buf)
    }

    fn flush(&mut self) -> io::Result<()> {
        Ok(())
    }
}

/// A writer that is interrupted once, before it takes anything.
pub(crate) fn interrupted_once(alloc: Global) -> Interrupted<Vec<u8>> {
    Interrupted {
        stream: Vec::new(alloc),
        left: 1,
        failure: ErrorKind::Interrupted,
    }
}
