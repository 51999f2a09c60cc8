//! A device with more events than other tests have: it stores neither these nor its steps. Most of them wait for one
//! publish, and its monitor looks again after it.

ghost use Rattle.std.specs.Prelude.{◌≡◌};

use crate::calls::{SEED, publishes, pumps, submits};
use crate::fixtures::{one_flow, packet};
use packet_core::Ecn;
use port_core::{BookBlank, BookName, Layout, Opened, Screen, Seen, Shown, lanes_with_recorders};
use sched_core::{Event, NullRecorder, Recorder, Step, StepRecorder};
use std::alloc::Global;
use std::marker::Brand;
use std::process::Abort;
use std::sync::Wait;

/// So many packets have more than 2^22 events, since all but 10,240 of them are dropped at the limit.
const PACKETS: u64 = (1 << 21) + 10_000;

/// Their events are published at once, and then those of one packet more.
#[test]
fn many_events_at_once(rt: HostRuntime) {
    plays::<Brand, _>(&rt, rt.alloc(), BookBlank::new());
}

/// The packets come to a device that stores nothing.
fn plays<J: BookName, R: Wait + Abort>(rt: &R, alloc: Global, blank: BookBlank)
    requires { blank ≡ J.book }
{
    let (events, steps) = (NullRecorder::new(), NullRecorder::new());
    let layout = Layout {
        lanes: 1,
        capacity: 1,
        monitors: 1,
    };
    let mut opened = lanes_with_recorders::<J, _, _, _>(
        rt,
        alloc,
        blank,
        one_flow(rt),
        SEED,
        layout,
        events,
        steps,
    ).expect(rt, "lanes");
    comes(rt, &mut opened, PACKETS);
    is_seen(rt, &mut opened, 1 << 22);
    comes(rt, &mut opened, 1);
    is_seen(rt, &mut opened, 1 << 22);
}

/// So many packets come, one by one.
fn comes<J: BookName, X: Screen<Shown<J>> + Drop, K: Recorder, S: StepRecorder, R: Abort>(
    rt: &R,
    opened: &mut Opened<J, X, K, S>,
    packets: u64,
) {
    let packet = packet(rt, 100, Ecn::NotEct);
    for _packet in 0..packets {
        submits(rt, &mut opened.senders, packet);
        pumps(rt, &mut opened.device, 7, 1);
    }
}

/// The device publishes more than so many events, and its monitor sees them all.
fn is_seen<J: BookName, X: Screen<Shown<J>> + Drop, K: Recorder, S: StepRecorder, R: Abort>(
    rt: &R,
    opened: &mut Opened<J, X, K, S>,
    least: u64,
) {
    let engine = opened.device.engine();
    let (events, totals) = (engine.event_count(), engine.totals());
    assert!(rt; least < events);
    let _receipt = publishes(rt, &mut opened.device, events);
    assert!(rt; 0 < opened.monitors.len());
    assert_eq!(rt; opened.monitors[0].totals(), Seen { events, totals });
}
