//! Why the program fails, with the status that it ends with then, and how that is reported.

ghost use Rattle.std.specs.Prelude.{◌≡◌, ◌≢◌};
ghost use Rattle.std.specs.IoError.{error_kind};
ghost use Rattle.program_core.specs.Faults.{command_fault_told, run_fault_told, senders_fault_told, status_of, trace_status};
ghost use Rattle.program_core.specs.declared.faults.ProgramFault.TheVariants as program_fault;

use command_core::CommandFault;
use packet_core::ParamFault;
use run_core::SendersFault;
use std::alloc::AllocError;
use std::io::{self, ErrorKind, Write};
use thiserror::Error;
use trace_core::{RunFault, TraceFault, TraceFaultKind};

/// The status of a run that went well, and that of help.
pub(crate) const SUCCESS: u8 = 0;

/// The status where the machine failed: memory, a read or a write.
const MACHINE_FAULT: u8 = 1;

/// The status where something is wrong that was given: the words or the trace.
const INPUT_FAULT: u8 = 2;

/// Why the program failed.
#[derive(Debug, Drop, Error)]
pub enum ProgramFault {
    /// The words aren't those of a command line. The text says what is wrong, in whole lines.
    #[error("{0}")]
    CommandLine(String),
    /// A word isn't UTF-8.
    #[error("a word isn't UTF-8")]
    NotUtf8,
    /// The seed isn't 32 hexadecimal digits.
    #[error("seed")]
    Seed,
    /// A parameter word is wrong.
    #[error("{0}")]
    Params(ParamFault),
    /// The trace wasn't read.
    #[error("{0}")]
    Trace(TraceFault),
    /// A growth was refused, beside those of the reading of a trace.
    #[error("memory")]
    Memory,
    /// A write failed or took nothing. What was written is the front of the report or of the help.
    #[error("write")]
    Write,
    /// The journal isn't what the senders were told, or isn't that of a whole run by their calls. It would show a fault of
    /// the locked port itself.
    #[error("settle")]
    Settle,
    /// The sender of that lane has more packets than a lane has room for, which is 1,048,576, or its lane has no end.
    #[error("lane {0}")]
    Lane(u32),
    /// The monitor of that number read more events than the journal has. It would show a fault of the run itself.
    #[error("monitor {0}")]
    Monitor(usize),
}

impl ProgramFault {
    /// The status that the program ends with: 1 where the machine failed, and 2 where what was given is wrong.
    pub fn status(&self) -> u8
        ensures { result ≡ status_of self.now }
    {
        match self {
            ProgramFault::CommandLine(_)
            | ProgramFault::NotUtf8
            | ProgramFault::Seed
            | ProgramFault::Params(_) => INPUT_FAULT,
            ProgramFault::Trace(fault) => trace_status(fault),
            ProgramFault::Memory
            | ProgramFault::Write
            | ProgramFault::Settle
            | ProgramFault::Monitor(_)
            | ProgramFault::Lane(_) => MACHINE_FAULT,
        }
    }
}

/// The status that goes with a fault of the trace.
fn trace_status(fault: &TraceFault) -> u8
    ensures { result ≡ trace_status fault.now.what }
{
    match fault.what {
        TraceFaultKind::Read | TraceFaultKind::Memory => MACHINE_FAULT,
        _ => INPUT_FAULT,
    }
}

impl From<CommandFault> for ProgramFault {
    ghost from_gives = { λ fault e. e ≡ command_fault_told fault };

    fn from(fault: CommandFault) -> ProgramFault {
        match fault {
            CommandFault::Mistake(text) => ProgramFault::CommandLine(text),
            CommandFault::Memory => ProgramFault::Memory,
        }
    }
}

impl From<ParamFault> for ProgramFault {
    ghost from_gives = { λ fault e. e ≡ program_fault.Params fault };

    fn from(fault: ParamFault) -> ProgramFault {
        ProgramFault::Params(fault)
    }
}

impl From<TraceFault> for ProgramFault {
    ghost from_gives = { λ fault e. e ≡ program_fault.Trace fault };

    fn from(fault: TraceFault) -> ProgramFault {
        ProgramFault::Trace(fault)
    }
}

impl From<RunFault> for ProgramFault {
    ghost from_gives = { λ fault e. e ≡ run_fault_told fault };

    fn from(fault: RunFault) -> ProgramFault {
        match fault {
            RunFault::Trace(fault) => ProgramFault::Trace(fault),
            RunFault::Memory => ProgramFault::Memory,
            RunFault::Write => ProgramFault::Write,
        }
    }
}

impl From<SendersFault> for ProgramFault {
    ghost from_gives = { λ fault e. e ≡ senders_fault_told fault };

    fn from(fault: SendersFault) -> ProgramFault {
        match fault {
            SendersFault::Memory => ProgramFault::Memory,
            SendersFault::Settle => ProgramFault::Settle,
            SendersFault::Lane(lane) => ProgramFault::Lane(lane),
            SendersFault::Monitor(monitor) => ProgramFault::Monitor(monitor),
        }
    }
}

impl From<AllocError> for ProgramFault {
    ghost from_gives = { λ _ e. e ≡ program_fault.Memory };

    fn from(_: AllocError) -> ProgramFault {
        ProgramFault::Memory
    }
}

/// Why the words can't be had.
impl From<io::Error> for ProgramFault {
    ghost use Rattle.std.specs.declared.io.ErrorKind.TheVariants.{OutOfMemory};

    ghost from_gives = { λ error e. (error_kind error ≡ OutOfMemory → e ≡ program_fault.Memory)
        × (error_kind error ≢ OutOfMemory → e ≡ program_fault.NotUtf8) };

    fn from(error: io::Error) -> ProgramFault {
        match error.kind() {
            ErrorKind::OutOfMemory => ProgramFault::Memory,
            _ => ProgramFault::NotUtf8,
        }
    }
}

/// Reports a fault, and answers its status. Where it can't be written there is nowhere left to say so, and it is passed
/// over.
pub fn tell<F: Write>(faults: &mut F, fault: &ProgramFault) -> u8
    ensures { result ≡ status_of fault.now }
{
    let _ = match fault {
        ProgramFault::CommandLine(text) => write!(faults, "{text}"),
        _ => writeln!(faults, "fqsim: {fault}"),
    };
    fault.status()
}
