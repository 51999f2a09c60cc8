//! What the words behind `maltlink` ask for: a link, a seed, parameters, the arrivals that it reads, and the table that
//! it writes.
#![tactic(auto)]

mod arrivals;
mod command_line;
mod counts;
mod explanations;
mod faults;
mod fields;
mod manual;
mod marks;
mod mistakes;
mod nearest;
mod notes;
mod plain;
mod program_run;
mod rates;
mod values;

pub use arrivals::read_arrivals;
pub use command_line::{Asked, RunRequest, TableName, parse};
pub use faults::{Found, ProgramFault, RowFault, ValueFault, ValueName, tell};
pub use fields::FieldName;
pub use notes::Terminals;
pub use plain::plain_words;
pub use program_run::program;
pub use rates::read_rate;
