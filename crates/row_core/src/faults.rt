//! How large a trace may be, and what is wrong with one that is refused.

use thiserror::Error;

/// The most bytes that a trace has: 128 MiB. The whole text stands in memory.
pub const MAX_BYTES: usize = 134_217_728;

/// The most rows that a trace has.
pub const MAX_ROWS: u64 = 1_000_000;

/// What is wrong with a trace.
#[derive(Clone, Copy, Debug, PartialEq, Eq, Error)]
pub enum TraceFaultKind {
    /// The bytes couldn't be read.
    #[error("Read")]
    Read,
    /// There are more than `MAX_BYTES` bytes or more than `MAX_ROWS` rows.
    #[error("TooLarge")]
    TooLarge,
    /// The first field isn't `enq`, `deq` or `close`, and in the first row not `version` either.
    #[error("BadKind")]
    BadKind,
    /// The row has another number of fields than its kind has.
    #[error("BadFieldCount")]
    BadFieldCount,
    /// A number isn't written in decimal digits, or is too large for its field. A version has another value than 2.
    #[error("BadNumber")]
    BadNumber,
    /// An address isn't four numbers from 0 to 255, without leading zeros and joined by dots, nor, in version 2, 32
    /// hexadecimal digits. Or a destination is of another kind than the source.
    #[error("BadAddress")]
    BadAddress,
    /// The ECN field isn't one digit from 0 to 3.
    #[error("BadEcn")]
    BadEcn,
    /// A packet's length is outside 1 to 65,535 bytes.
    #[error("LengthOutOfRange")]
    LengthOutOfRange,
    /// A growth was refused.
    #[error("Memory")]
    Memory,
}

/// Why a trace wasn't read.
#[derive(Clone, Copy, Debug, PartialEq, Eq, Error)]
#[error("row {row}: {what}")]
pub struct TraceFault {
    /// The row, from 1, and 0 where the fault came before the first row.
    pub row: u64,
    /// What is wrong there.
    pub what: TraceFaultKind,
}
