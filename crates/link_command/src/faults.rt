//! What can go wrong, as the program says it: a line for programs and one for people.

ghost use Rattle.std.specs.Prelude.{◌≡◌};
ghost use Rattle.link_command.specs.Faults.{row_status, status_of};
ghost use Rattle.link_command.specs.declared.faults.ProgramFault.TheVariants as program_fault;

use crate::explanations::explain;
use crate::fields::FieldName;
use packet_core::ParamFault;
use row_core::{TraceFault, TraceFaultKind};
use std::alloc::AllocError;
use std::io::{self, ErrorKind, Write};
use thiserror::Error;

/// The exit status after running out of memory, or a failed read or write.
const MACHINE_FAULT: u8 = 1;

/// The exit status if the arguments or the arrivals are wrong.
const INPUT_FAULT: u8 = 2;

/// An option whose value is a number.
#[derive(Clone, Copy, Debug, PartialEq, Eq, Error)]
pub enum ValueName {
    /// The rate.
    #[error("rate")]
    Rate,
    /// The bytes on the wire beside a packet's own.
    #[error("overhead")]
    Overhead,
    /// The least bytes on the wire.
    #[error("mpu")]
    Mpu,
    /// The width of a bin.
    #[error("every")]
    Every,
}

/// What is wrong with the value of an option.
#[derive(Clone, Copy, Debug, PartialEq, Eq, Error)]
pub enum ValueFault {
    /// It isn't written as such a value is.
    #[error("NotANumber")]
    NotANumber,
    /// It is outside its range.
    #[error("OutOfRange")]
    OutOfRange,
}

/// What is wrong with a row.
#[derive(Clone, Copy, Debug, PartialEq, Eq, Error)]
pub enum RowFault {
    /// It isn't a row of a trace, or the input couldn't be read.
    #[error("{0}")]
    Trace(TraceFaultKind),
    /// It is a row of a trace, but not `enq`.
    #[error("NotAnArrival")]
    NotAnArrival,
    /// Its time is 2^59 microseconds or more.
    #[error("TooLate")]
    TooLate,
    /// Its time is before that of the row before.
    #[error("Backwards")]
    Backwards,
}

/// What was found where a row is wrong.
#[derive(Debug, Drop)]
pub enum Found {
    /// The text of the row.
    Row(String),
    /// The field, and its text.
    Field(FieldName, String),
    /// No rows, but a capture of packets: pcap or pcapng.
    Capture,
    /// Text in UTF-16.
    Utf16,
}

/// Why the program failed.
#[derive(Debug, Drop, Error)]
pub enum ProgramFault {
    /// The arguments aren't those of a command line. The text says what is wrong, in whole lines. Of the control
    /// characters it has line feeds alone: each other one of a word is written as `\u{1b}`.
    #[error("{0}")]
    CommandLine(String),
    /// An argument isn't UTF-8.
    #[error("a word isn't UTF-8")]
    NotUtf8,
    /// The value of an option is wrong. The text is the value as it was found.
    #[error("{0}: {1}")]
    Value(ValueName, ValueFault, String),
    /// The seed isn't 32 hexadecimal digits. The text is what was found.
    #[error("seed")]
    Seed(String),
    /// A parameter is wrong. The text is the argument.
    #[error("{0}")]
    Params(ParamFault, String),
    /// A row is wrong, by its number from 1, and 0 where the input couldn't be read. What was found is the row, or the
    /// field of it.
    #[error("row {0}: {1}")]
    Row(u64, RowFault, Found),
    /// Out of memory.
    #[error("memory")]
    Memory,
    /// A write failed or took nothing. What was written is the front of the table.
    #[error("write")]
    Write,
}

impl ProgramFault {
    /// The exit status: 1 if the program ran out of memory, or a read or a write failed, and 2 if its input is wrong.
    pub fn status(&self) -> u8
        ensures { result ≡ status_of self.now }
    {
        match self {
            ProgramFault::CommandLine(_)
            | ProgramFault::NotUtf8
            | ProgramFault::Value(..)
            | ProgramFault::Seed(_)
            | ProgramFault::Params(..) => INPUT_FAULT,
            ProgramFault::Row(_, what, _) => row_status(what),
            ProgramFault::Memory | ProgramFault::Write => MACHINE_FAULT,
        }
    }
}

/// The status that goes with a fault of a row.
fn row_status(what: &RowFault) -> u8
    ensures { result ≡ row_status what.now }
{
    match what {
        RowFault::Trace(TraceFaultKind::Read | TraceFaultKind::Memory) => MACHINE_FAULT,
        RowFault::Trace(_) | RowFault::NotAnArrival | RowFault::TooLate | RowFault::Backwards => {
            INPUT_FAULT
        }
    }
}

impl From<AllocError> for ProgramFault {
    ghost from_gives = { λ _ e. e ≡ program_fault.Memory };

    fn from(_: AllocError) -> ProgramFault {
        ProgramFault::Memory
    }
}

/// Why the arguments can't be read.
impl From<io::Error> for ProgramFault {
    ghost use Rattle.std.specs.Prelude.{◌≢◌};
    ghost use Rattle.std.specs.IoError.{error_kind};
    ghost use Rattle.std.specs.declared.io.ErrorKind.TheVariants.{OutOfMemory};

    ghost from_gives = { λ error e. (error_kind error ≡ OutOfMemory → e ≡ program_fault.Memory)
        × (error_kind error ≢ OutOfMemory → e ≡ program_fault.NotUtf8) };

    fn from(error: io::Error) -> ProgramFault {
        match error.kind() {
            ErrorKind::OutOfMemory => ProgramFault::Memory,
            _ => ProgramFault::NotUtf8,
        }
    }
}

/// Reports an error, and returns its exit status. The first line is for programs, the second one says what was found
/// and what is wanted. If the write fails there is nowhere left to report that, so it is ignored.
pub fn tell<F: Write>(faults: &mut F, fault: &ProgramFault) -> u8
    ensures { result ≡ status_of fault.now }
{
    let _ = match fault {
        ProgramFault::CommandLine(text) => write!(faults, "{text}"),
        _ => writeln!(faults, "maltlink: {fault}"),
    };
    explain(faults, fault);
    fault.status()
}
