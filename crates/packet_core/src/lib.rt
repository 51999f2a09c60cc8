//! Packets as the scheduler sees them, its parameters, the words that say them and the choice of a packet's flow.
//! Nothing in this crate takes memory.
#![tactic(auto)]

mod flow;
mod hash_share;
mod numerals;
mod packed;
mod packet;
mod params;
mod seeded_hash;
mod tuple_words;
mod words;

pub use flow::{Seed, flow_of};
pub use hash_share::{flow_of_hash, hashes_are_shared, queue_of_hash, turned_hashes_differ};
pub use numerals::read_numeral;
pub use packet::{Ecn, FiveTuple, Ip, LengthOutOfRange, MAX_LENGTH, Packet, Waiting};
pub use params::{Classify, EcnUse, ParamFields, ParamName, Params};
pub use seeded_hash::SeededHash;
pub use tuple_words::TupleWords;
pub use words::{ParamFault, read_params};
