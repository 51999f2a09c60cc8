//! Statistics of a journal that grows, published by its owner and read by monitors without a lock.
#![tactic(auto)]

mod book;
mod journaled;
mod monitor;
mod opening;
mod publisher;
mod receipt;
mod screen;
mod shown;

pub use book::{BookBlank, BookName};
pub use journaled::Journaled;
pub use monitor::{Monitor, Seen};
pub use opening::{OpenFault, open_publisher};
pub use publisher::{PublishFault, Publisher};
pub use receipt::Receipt;
pub use screen::{LeftRight, NoReader, OnScreen, Screen};
pub use shown::Shown;
