//! Text of rows, for reports and tables: rows of fields, numbers in decimal digits, addresses and words.
#![tactic(auto)]

mod address;
mod digits;
mod rows;
mod words;

pub use address::AddressText;
pub use digits::Digits;
pub use rows::Rows;
pub use words::{cause_name, ecn_digit, mark_name};
