//! A monitor in a thread of its own, beside the device.

use crate::calls::{publishes, pumps, submits};
use packet_core::Packet;
use port_core::{BookName, Device, LaneSender, Monitor, Opened, Screen, Shown};
use std::process::Abort;
use std::sync::Wait;
use std::sync::atomic::{AtomicBool, Ordering};
use std::thread::{self, Threads};

/// The packet comes so often, and is published each time, while a monitor reads.
pub(crate) fn reads_beside<
    J: BookName + Send + Sync,
    X: Screen<Shown<J>> + Drop,
    R: Threads + Wait + Abort + Sync,
>(rt: &R, opened: &mut Opened<J, X>, packet: Packet, times: u64) {
    let monitor = opened.monitors.pop().expect(rt, "a monitor");
    let (senders, device) = (&mut opened.senders, &mut opened.device);
    let ended = AtomicBool::new(false);
    let over = &ended;
    let (grows, _) = thread::join(
        rt,
        move || only_grows(rt, monitor, over, times),
        move || publish_often(rt, senders, device, packet, times, over),
    );
    assert!(rt; grows);
}

/// Reads until the publishes have ended, and says whether no read showed less than the one before it and the last of
/// them showed so many events.
fn only_grows<J: BookName, R: Wait>(
    rt: &R,
    monitor: Monitor<J>,
    ended: &AtomicBool,
    events: u64,
) -> bool {
    let mut monitor = monitor;
    let mut before = 0;
    for _ in rt.forever() {
        let last = ended.load(Ordering::SeqCst);
        let seen = monitor.totals().events;
        if seen < before {
            return false;
        }
        if last {
            return seen == events;
        }
        before = seen;
        thread::yield_now();
    }
    unreachable!()
}

/// The packet comes and is published, so many times. After the last of them it says that it has ended.
fn publish_often<J: BookName, X: Screen<Shown<J>> + Drop, R: Abort>(
    rt: &R,
    senders: &mut Vec<LaneSender>,
    device: &mut Device<J, X>,
    packet: Packet,
    times: u64,
    ended: &AtomicBool,
) {
    for round in 1..=times {
        submits(rt, senders, packet);
        pumps(rt, device, 7, 1);
        let _receipt = publishes(rt, device, round);
    }
    ended.store(true, Ordering::SeqCst);
}
