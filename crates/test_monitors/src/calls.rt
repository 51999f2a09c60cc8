//! A lane with its device and monitors, and a list of calls with them, each with what it is answered. What owns them
//! makes one call, which borrows them: so the proof drops them once.

ghost use Rattle.std.specs.Prelude.{◌≡◌, ◌≤◌, ◌<◌};

use crate::beside::reads_beside;
use crate::fixtures::packet;
use packet_core::{Ecn, Packet, Params, Seed};
use port_core::{
    BookBlank, BookName, Device, LaneSender, Layout, MAX_BURST, MAX_CAPACITY, MAX_MONITORS,
    Monitor, Opened, Receipt, Screen, Seen, Shown, lanes,
};
use sched_core::{Event, Mark, Recorder, Sent, Step, StepRecorder, Totals};
use std::alloc::Global;
use std::marker::Brand;
use std::process::Abort;
use std::sync::Wait;
use std::thread::{self, Threads};

/// The seed of every device.
pub(crate) const SEED: Seed = Seed([1, 2, 3, 4, 5, 6, 7, 8, 9, 10, 11, 12, 13, 14, 15, 16]);

/// So often a monitor looks for what was published.
const MAX_LOOKS: u32 = 1_000_000;

/// A packet that a dequeue gives: its id, its length, its field as sent, and what set that.
#[derive(Clone, Copy)]
pub(crate) struct Given(
    pub(crate) u64,
    pub(crate) u32,
    pub(crate) Ecn,
    pub(crate) Mark,
);

/// A call, and what it is answered.
#[derive(Clone, Copy)]
pub(crate) enum Call {
    /// A packet of so many bytes with that field goes into the lane.
    Submit(u32, Ecn),
    /// A pump at that moment, of so many packets at most, takes as many.
    Pump(u64, u64),
    /// A dequeue at that moment gives that packet.
    Dequeue(u64, Given),
    /// A close at that moment.
    Close(u64),
    /// The journal has so many events, with these statistics.
    Journal(u64, Totals),
    /// The device's receipt stands for so many events.
    Receipt(u64),
    /// A publish: its receipt stands for so many events, and so does the device's after it.
    Publish(u64),
    /// That monitor learns the receipt of that publish.
    Learn(usize, usize),
    /// Each monitor learns it.
    EachLearns(usize),
    /// That monitor sees so many events, with these statistics.
    See(usize, u64, Totals),
    /// Each monitor sees so many events at least and no more than the others, and these with their statistics once it
    /// has read often enough.
    EachComesTo(u64, u64, Totals),
    /// A packet comes so often, and is published each time. What a monitor in a thread of its own sees never shrinks,
    /// and after the last publish it sees all.
    Beside(u64),
}

/// The calls are made with a new lane and its device and monitors.
pub(crate) fn plays<R: Threads + Wait + Abort + Sync>(
    rt: &R,
    alloc: Global,
    params: Params,
    layout: Layout,
    calls: &[Call],
) {
    assert!(rt; layout.lanes == 1);
    assert!(rt; 0 < layout.capacity && layout.capacity <= MAX_CAPACITY);
    assert!(rt; layout.monitors <= MAX_MONITORS);
    at_lane::<Brand, _>(rt, alloc, BookBlank::new(), params, layout, calls);
}

fn at_lane<J: BookName + Send + Sync, R: Threads + Wait + Abort + Sync>(
    rt: &R,
    alloc: Global,
    blank: BookBlank,
    params: Params,
    layout: Layout,
    calls: &[Call],
)
    requires book { blank ≡ J.book }
    requires lanes { layout.lanes ≡ 1 }
    requires capacity { (0 < layout.capacity) × (layout.capacity ≤ MAX_CAPACITY) }
    requires monitors { layout.monitors ≤ MAX_MONITORS }
{
    let mut opened = lanes::<J, _>(rt, alloc, blank, params, SEED, layout).expect(rt, "lanes");
    makes(rt, alloc, &mut opened, layout.monitors, calls);
}

/// The calls are made in turn.
fn makes<J: BookName + Send + Sync, X: Screen<Shown<J>> + Drop, R: Threads + Wait + Abort + Sync>(
    rt: &R,
    alloc: Global,
    opened: &mut Opened<J, X>,
    monitors: u32,
    calls: &[Call],
) {
    let mut receipts = Vec::new(alloc);
    assert_eq!(rt; opened.monitors.len(), monitors as usize);
    for call in calls {
        match *call {
            Call::Submit(len, ecn) => submits(rt, &mut opened.senders, packet(rt, len, ecn)),
            Call::Publish(events) => {
                let receipt = publishes(rt, &mut opened.device, events);
                receipts.push(receipt).expect(rt, "memory");
            }
            Call::Beside(times) => reads_beside(rt, opened, packet(rt, 100, Ecn::NotEct), times),
            Call::Learn(..) | Call::EachLearns(_) | Call::See(..) | Call::EachComesTo(..) => {
                watches(rt, &mut opened.monitors, &receipts, call);
            }
            _ => is_answered(rt, &mut opened.device, call),
        }
    }
}

/// The packet goes into the lane.
pub(crate) fn submits<R: Abort>(rt: &R, senders: &mut Vec<LaneSender>, packet: Packet) {
    assert!(rt; 0 < senders.len());
    assert_eq!(rt; senders[0].submit(packet), Ok(()));
}

/// The receipt of a publish, which stands for so many events. So does the device's.
pub(crate) fn publishes<
    J: BookName,
    X: Screen<Shown<J>> + Drop,
    K: Recorder,
    S: StepRecorder,
    R: Abort,
>(rt: &R, device: &mut Device<J, X, K, S>, events: u64) -> Receipt<J> {
    let receipt = device.publish().expect(rt, "a receipt");
    assert_eq!(rt;
        (receipt.events(), device.receipt().events()),
        (events, events)
    );
    receipt
}

/// The monitors learn and see what they have to.
fn watches<J: BookName, R: Abort>(
    rt: &R,
    monitors: &mut [Monitor<J>],
    receipts: &[Receipt<J>],
    call: &Call,
) {
    match *call {
        Call::Learn(monitor, publish) => {
            assert!(rt; monitor < monitors.len() && publish < receipts.len());
            monitors[monitor].learn(&receipts[publish]);
        }
        Call::EachLearns(publish) => {
            assert!(rt; publish < receipts.len());
            for monitor in monitors {
                monitor.learn(&receipts[publish]);
            }
        }
        Call::See(monitor, events, totals) => {
            assert!(rt; monitor < monitors.len());
            assert_eq!(rt; monitors[monitor].totals(), Seen { events, totals });
        }
        Call::EachComesTo(least, events, totals) => {
            for monitor in monitors {
                comes_to(rt, monitor, least, Seen { events, totals });
            }
        }
        _ => panic!(rt; "another call"),
    }
}

/// The monitor sees so many events at least and no more than these, and these once it has read often enough.
fn comes_to<J: BookName, R: Abort>(rt: &R, monitor: &mut Monitor<J>, least: u64, wanted: Seen) {
    let mut seen = monitor.totals();
    assert!(rt; least <= seen.events && seen.events <= wanted.events);
    for _look in 0..MAX_LOOKS {
        if seen.events >= wanted.events {
            break;
        }
        thread::yield_now();
        seen = monitor.totals();
    }
    assert_eq!(rt; seen, wanted);
}

/// The device answers the call as it has to.
fn is_answered<J: BookName, X: Screen<Shown<J>> + Drop, R: Abort>(
    rt: &R,
    device: &mut Device<J, X>,
    call: &Call,
) {
    match *call {
        Call::Pump(now, packets) => pumps(rt, device, now, packets),
        Call::Dequeue(now, given) => gives(rt, device, now, given),
        Call::Close(now) => assert_eq!(rt; device.close(now), Ok(())),
        Call::Journal(events, totals) => {
            let engine = device.engine();
            assert_eq!(rt; (engine.event_count(), engine.totals()), (events, totals));
        }
        Call::Receipt(events) => assert_eq!(rt; device.receipt().events(), events),
        _ => panic!(rt; "another call"),
    }
}

/// A pump takes so many packets.
pub(crate) fn pumps<
    J: BookName,
    X: Screen<Shown<J>> + Drop,
    K: Recorder,
    S: StepRecorder,
    R: Abort,
>(rt: &R, device: &mut Device<J, X, K, S>, now: u64, packets: u64) {
    assert!(rt; 0 < device.lanes());
    assert!(rt; 0 < packets && packets <= MAX_BURST);
    assert_eq!(rt; device.pump(0, now, packets), Ok(packets));
}

/// A dequeue gives that packet.
fn gives<J: BookName, X: Screen<Shown<J>> + Drop, R: Abort>(
    rt: &R,
    device: &mut Device<J, X>,
    now: u64,
    given: Given,
) {
    let Given(id, len, ecn, mark) = given;
    let wanted = Sent {
        id,
        moment: now,
        packet: packet(rt, len, ecn),
        mark,
    };
    assert_eq!(rt; device.dequeue(now), Ok(Some(wanted)));
}
