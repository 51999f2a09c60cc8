//! The run of a trace, from its text to the text of its report.
//!
//! A trace is comma-separated: one row for a packet that comes in, for a device that asks for one, and for the
//! close. A report has one row for each thing that became of a packet and for each step that made nothing
//! happen, then one with the totals, and at its end one for each five-tuple.
#![tactic(auto)]

mod journal_report;
mod report;
mod streams;
mod trace_run;

pub use journal_report::{SenderRow, write_journal, write_journal_to};
pub use row_core::{
    MAX_BYTES, MAX_INTERRUPTIONS, MAX_ROWS, Records, Source, TraceFault, TraceFaultKind,
    read_trace, read_trace_from,
};
pub use streams::Sink;
pub use trace_run::{RunFault, run, run_between, write_text};
