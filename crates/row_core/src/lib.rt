//! From a trace's bytes to its steps: the bytes that a source gives, the records that `csv` cuts off them, and the
//! rows of these, each with the step that it asks for or its first fault.
#![tactic(auto)]

mod faults;
mod interruptions;
mod numbers;
mod reader;
mod records;
mod row;
mod streams;

pub use faults::{MAX_BYTES, MAX_ROWS, TraceFault, TraceFaultKind};
pub use interruptions::{Interruptions, MAX_INTERRUPTIONS};
pub use reader::{Next, TraceRows, read_text, read_trace, read_trace_from};
pub use records::Records;
pub use streams::Source;
