//! A bottleneck link over the scheduler, a FIFO or another `QueueDiscipline`: it sends one packet after another at its
//! rate, and asks for the next one whenever it gets free. Which steps that makes of a list of arrivals, and what
//! becomes of each packet. Arrivals are as they came: no sender answers to drops, marks or delays.
#![tactic(auto)]

mod arrival;
mod discipline;
mod driver;
mod fifo;
mod fifo_laws;
mod free_at;
pub mod laws;
mod link;
mod run;

pub use arrival::{Arrival, MAX_ARRIVAL_MOMENT, MAX_ARRIVALS};
pub use discipline::QueueDiscipline;
pub use driver::run_over;
pub use fifo::{Fifo, run_fifo, run_fifo_to_end, run_fifo_with_recorder};
pub use fifo_laws::{
    fifo_causal, fifo_fates, fifo_few_events, fifo_one_run, fifo_throughput, fifo_works,
};
pub use link::{Link, LinkFields, LinkName};
pub use run::{run_link, run_link_to_end, run_link_with_recorders};
