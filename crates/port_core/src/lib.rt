//! Two ways to use one scheduler from several threads.
//!
//! The locked front: behind a lock stands an engine; each thread has a seat, which is told of the packets that were
//! accepted of it, and two ledgers keep the sums over all seats, so that nothing is lost. Once the threads are done,
//! `LockedPort::settle` gives the engine back where it agrees with all that the seats were told.
//!
//! Lanes: each sender has a ring of its own, and a device owns the engine and the rings' other ends. No sender waits
//! for another or for the device. What the device took out of a lane is what its engine accepted from it, and once a
//! sender has finished, `Device::settle_lane` tells how much of what it submitted is left.
#![tactic(auto)]

mod device;
mod engine_journal;
mod front;
mod gate;
mod lane;
mod lane_engine;
mod lane_sender;
mod opening;
mod port;
mod seat;
mod sender;
mod settling;

pub use device::{Device, MAX_BURST, MAX_LANES};
pub use gate::{Gate, Open, Stop};
pub use lane_sender::{LaneDone, LaneEnd, LaneFull, LaneSender, send_lane};
pub use monitor_core::{
    BookBlank, BookName, LeftRight, Monitor, NoReader, OpenFault, PublishFault, Receipt, Screen,
    Seen, Shown,
};
pub use opening::{Layout, MAX_CAPACITY, MAX_MONITORS, Opened, lanes, lanes_with_recorders};
pub use port::{LockedPort, Unsettled, Why};
pub use seat::{MAX_SEATS, PortSeat};
pub use sender::{LockedDone, send_locked};
