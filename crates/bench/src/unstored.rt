//! Many packets through lanes, with neither events nor steps stored: the memory that it takes stays level meanwhile.

ghost use Rattle.std.specs.Prelude.{◌≡◌, ◌<◌, ◌≤◌};

use crate::lanes::{params, take_all};
use crate::times::{Times, no_times};
use crate::timing::{Fault, SEED, nanoseconds_since, now, packet_to};
use packet_core::{Ecn, Packet};
use port_core::{
    BookBlank, BookName, Device, LaneSender, Layout, Opened, Screen, Shown, lanes_with_recorders,
};
use sched_core::{NullRecorder, Step, Totals};
use std::alloc::AllocError;
use std::marker::Brand;
use std::rt::Clock;
use std::sync::Wait;
use std::thread::{self, Threads};

/// So many packets in all.
pub const PASSING: u64 = 5_000_000;

/// So often they pass, where it is timed.
const REPETITIONS: u32 = 5;

/// A lane has room for so many.
const CAPACITY: u32 = 1_024;

/// A sender tries so often at most, so that it ends where no thread can be made for the device.
const MAX_TRIES: u64 = 1_000_000_000;

/// A device that stores neither its events nor its steps.
type Passing<J, X> = Device<J, X, NullRecorder, NullRecorder>;

/// What all the packets took, from the opening of the lanes to their close.
pub fn times_of_passing<R: AllocGlobal + Clock + Threads + Wait + Sync>(
    rt: &R,
    senders: u32,
) -> Result<Times, Fault>
    requires { (0 < senders) × (senders ≤ 4) }
{
    let mut times = no_times(rt.alloc(), REPETITIONS)?;
    for _ in 0..REPETITIONS {
        let begun = now(rt);
        let totals = totals_of_passing(rt, senders)?;
        times.push(nanoseconds_since(rt, begun, totals.sent == PASSING)?)?;
    }
    Times::of(times).ok_or(Fault::OutOfRange)
}

/// What became of the packets, of which so many senders have the same number each.
pub fn totals_of_passing<R: AllocGlobal + Threads + Wait + Sync>(
    rt: &R,
    senders: u32,
) -> Result<Totals, Fault>
    requires { (0 < senders) × (senders ≤ 4) }
{
    pass::<Brand, _>(rt, BookBlank::new(), senders)
}

/// Opens the lanes, and has the packets go through them.
fn pass<J: BookName, R: AllocGlobal + Threads + Wait + Sync>(
    rt: &R,
    blank: BookBlank,
    senders: u32,
) -> Result<Totals, Fault>
    requires book { blank ≡ J.book }
    requires number { (0 < senders) × (senders ≤ 4) }
{
    let packet = packet_to(0, Ecn::NotEct)?;
    let layout = Layout {
        lanes: senders,
        capacity: CAPACITY,
        monitors: 0,
    };
    let opened = lanes_with_recorders::<J, _, _, _>(
        rt,
        rt.alloc(),
        blank,
        params()?,
        SEED,
        layout,
        NullRecorder::new(),
        NullRecorder::new(),
    )
    .ok()
    .ok_or(Fault::Memory)?;
    passed(rt, opened, packet, PASSING / u64::from(senders))
}

/// Has the packets, so many of each sender's, go through lanes that were opened.
fn passed<J: BookName, X: Screen<Shown<J>> + Drop, R: Threads + Sync>(
    rt: &R,
    opened: Opened<J, X, NullRecorder, NullRecorder>,
    packet: Packet,
    share: u64,
) -> Result<Totals, Fault> {
    let (sent, device) = at_once(rt, opened, packet, share);
    unless_refused(sent, device.engine().totals())
}

/// The totals, where memory wasn't refused to the senders' threads.
fn unless_refused(sent: Result<(), AllocError>, totals: Totals) -> Result<Totals, Fault> {
    sent?;
    Ok(totals)
}

/// The device takes packets while the senders submit theirs.
fn at_once<J: BookName, X: Screen<Shown<J>> + Drop, R: Threads + Sync>(
    rt: &R,
    opened: Opened<J, X, NullRecorder, NullRecorder>,
    packet: Packet,
    share: u64,
) -> (Result<(), AllocError>, Passing<J, X>) {
    let Opened {
        senders,
        device,
        monitors: _monitors,
    } = opened;
    let senders = move || send_all(rt, senders, packet, share);
    thread::join(rt, senders, move || take_all(device, PASSING))
}

/// Each lane's sender has a thread of its own.
fn send_all<R: Threads + Sync>(
    rt: &R,
    senders: Vec<LaneSender>,
    packet: Packet,
    share: u64,
) -> Result<(), AllocError> {
    let send = move |sender: LaneSender| send_share(sender, packet, share);
    thread::map_vec(rt, senders, &send)?;
    Ok(())
}

/// Submits a sender's share of the packets. Where the lane is full, it tries again with the packet that came back.
fn send_share(sender: LaneSender, packet: Packet, share: u64) {
    let mut sender = sender;
    let mut next = packet;
    let mut left = share;
    for _ in 0..MAX_TRIES {
        if left == 0 {
            break;
        }
        match sender.submit(next) {
            Ok(()) => {
                left = left.saturating_sub(1);
                next = packet;
            }
            Err(full) => {
                next = full.0;
                thread::yield_now();
            }
        }
    }
}
