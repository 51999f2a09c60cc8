//! What the tables of a link say, from its journal: a row for each packet, and a row for each five-tuple and one for all
//! packets, with the delays of those that were sent.
#![tactic(auto)]

mod binned;
mod flows;
mod gathered;
mod groups;
mod laws;
mod packet_rows;
mod packets;
mod percentiles;
mod series;
mod steps;
mod summary;
mod table;

pub use binned::Binned;
pub use flows::{RunEvents, RunPackets, flows_text, flows_text_of};
pub use gathered::Gathered;
pub use laws::{one_fate_each, rates_within_link};
pub use packet_rows::{packets_text, packets_text_of};
pub use packets::{Fate, PacketRecord, Packets};
pub use percentiles::percentile;
pub use series::{series_text, series_text_with_seed};
pub use steps::steps_text;
pub use summary::{Delays, MAX_EVENTS, Summary, delays_of, summarize};
pub use table::Queue;
