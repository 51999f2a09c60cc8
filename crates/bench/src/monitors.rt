//! How long a publish and a monitor's read take, and how fast a device is while monitors read.

ghost use Rattle.std.specs.Prelude.{◌≡◌, ◌≤◌};
ghost use denote.Param.Send.{IsSync};

use crate::lanes::{has_sent_all, open, pump_one, submit_all, take_some};
use crate::times::{Times, no_times};
use crate::timing::{Fault, nanoseconds_since, now, packet_to};
use crate::workload::{REPETITIONS, ROUNDS};
use packet_core::{Ecn, Packet};
use port_core::{BookBlank, BookName, Device, LaneSender, Monitor, Opened, Screen, Shown};
use sched_core::{Event, Recorder, Step, StepRecorder};
use std::alloc::AllocError;
use std::marker::{Brand, Send, Sync};
use std::rt::Clock;
use std::sync::Wait;
use std::sync::atomic::{AtomicBool, Ordering};
use std::thread::{self, Threads};

/// How many publishes a repetition has.
pub const PUBLISHES: u32 = 1_000;

/// What the publishes took, each after so many new events. A look at the clock is part of each.
pub fn times_of_publishes<R: AllocGlobal + Clock + Wait>(
    rt: &R,
    events: u32,
) -> Result<Times, Fault> {
    let packet = packet_to(0, Ecn::NotEct)?;
    let mut times = no_times(rt.alloc(), REPETITIONS)?;
    for _ in 0..REPETITIONS {
        times.push(publishing::<Brand, _>(rt, BookBlank::new(), packet, events)?)?;
    }
    Times::of(times).ok_or(Fault::OutOfRange)
}

/// The time that they took once, on a device with one monitor.
fn publishing<J: BookName, R: AllocGlobal + Clock + Wait>(
    rt: &R,
    blank: BookBlank,
    packet: Packet,
    events: u32,
) -> Result<u128, Fault>
    requires { blank ≡ J.book }
{
    publishing_on(rt, open::<J, R>(rt, blank, 1, 1)?, packet, events)
}

/// The same, on a device that was opened.
fn publishing_on<J: BookName, X: Screen<Shown<J>> + Drop, R: Clock>(
    rt: &R,
    opened: Opened<J, X>,
    packet: Packet,
    events: u32,
) -> Result<u128, Fault> {
    let Opened {
        mut senders,
        mut device,
        monitors: _monitors,
    } = opened;
    publish_often(rt, &mut senders, &mut device, packet, events)
}

/// Accepts so many packets and publishes them, over and over, and gives the time that the publishes took.
fn publish_often<J: BookName, X: Screen<Shown<J>> + Drop, K: Recorder, S: StepRecorder, R: Clock>(
    rt: &R,
    senders: &mut Vec<LaneSender>,
    device: &mut Device<J, X, K, S>,
    packet: Packet,
    events: u32,
) -> Result<u128, Fault> {
    let mut took = Ok(0);
    for _ in 0..PUBLISHES {
        let is_accepted = accept(senders, device, packet, events);
        let published = publish_once(rt, device);
        took = with_time(took, is_accepted, published);
    }
    took
}

/// So many packets come out of the first lane. It answers whether none was refused.
fn accept<J: BookName, X: Screen<Shown<J>> + Drop, K: Recorder, S: StepRecorder>(
    senders: &mut Vec<LaneSender>,
    device: &mut Device<J, X, K, S>,
    packet: Packet,
    packets: u32,
) -> bool {
    let mut is_accepted = true;
    for _ in 0..packets {
        is_accepted = is_accepted && submit_all(senders, packet, 1) && pump_one(device, 0);
    }
    is_accepted
}

/// The time that a publish takes.
fn publish_once<J: BookName, X: Screen<Shown<J>> + Drop, K: Recorder, S: StepRecorder, R: Clock>(
    rt: &R,
    device: &mut Device<J, X, K, S>,
) -> Result<u128, Fault> {
    let begun = now(rt);
    let is_done = device.publish().is_ok();
    nanoseconds_since(rt, begun, is_done)
}

/// The time with that of one publish more, before which all was accepted or not.
fn with_time(
    took: Result<u128, Fault>,
    is_accepted: bool,
    published: Result<u128, Fault>,
) -> Result<u128, Fault> {
    let sum = took?.saturating_add(published?);
    if is_accepted {
        Ok(sum)
    } else {
        Err(Fault::Refused)
    }
}

/// Whether a device publishes while a monitor reads.
#[derive(Clone, Copy, Debug)]
pub enum Beside {
    /// It doesn't.
    Nothing,
    /// It does nothing else.
    Publishes,
}

/// What a repetition of a monitor's reads took.
pub fn times_of_reads<R: AllocGlobal + Clock + Threads + Wait + Sync>(
    rt: &R,
    beside: Beside,
) -> Result<Times, Fault> {
    let mut times = no_times(rt.alloc(), REPETITIONS)?;
    for _ in 0..REPETITIONS {
        times.push(reading::<Brand, _>(rt, BookBlank::new(), beside)?)?;
    }
    Times::of(times).ok_or(Fault::OutOfRange)
}

/// The time that they took once.
fn reading<J: BookName + Send + Sync, R: AllocGlobal + Clock + Threads + Wait + Sync>(
    rt: &R,
    blank: BookBlank,
    beside: Beside,
) -> Result<u128, Fault>
    requires { blank ≡ J.book }
{
    reading_of(rt, open::<J, R>(rt, blank, 1, 1)?, beside)
}

/// The same, of what a device that was opened shows.
fn reading_of<
    J: BookName + Send + Sync,
    X: Screen<Shown<J>> + Drop + Send,
    R: Clock + Threads + Wait + Sync,
>(rt: &R, opened: Opened<J, X>, beside: Beside) -> Result<u128, Fault> {
    let Opened {
        senders: _senders,
        device,
        mut monitors,
    } = opened;
    let monitor = monitors.pop();
    let ended = AtomicBool::new(matches!(beside, Beside::Nothing));
    let over = &ended;
    let read = move || {
        let took = read_often(rt, monitor);
        over.store(true, Ordering::SeqCst);
        took
    };
    let publish = move || publish_on(rt, device, over);
    // Where no thread can be made, `join` calls its first closure last: the reads end before the device publishes.
    let (_device, took) = thread::join(rt, publish, read);
    took
}

/// The time of a repetition of reads.
fn read_often<J: BookName, R: Clock>(rt: &R, monitor: Option<Monitor<J>>) -> Result<u128, Fault> {
    let Some(mut monitor) = monitor else {
        return Err(Fault::Refused);
    };
    let begun = now(rt);
    let is_done = read_all(&mut monitor);
    nanoseconds_since(rt, begun, is_done)
}

/// Reads so often. It answers whether no read showed less than the one before it.
fn read_all<J: BookName>(monitor: &mut Monitor<J>) -> bool {
    let mut before = 0;
    for _ in 0..ROUNDS {
        let events = monitor.totals().events;
        if events < before {
            return false;
        }
        before = events;
    }
    true
}

/// Publishes until the reads have ended, and gives the device back.
fn publish_on<J: BookName, X: Screen<Shown<J>> + Drop, K: Recorder, S: StepRecorder, R: Wait>(
    rt: &R,
    device: Device<J, X, K, S>,
    ended: &AtomicBool,
) -> Device<J, X, K, S> {
    let mut device = device;
    for _ in rt.forever() {
        if ended.load(Ordering::SeqCst) || device.publish().is_err() {
            break;
        }
    }
    device
}

/// What a device took for the packets of a repetition while so many monitors read all the time.
pub fn times_while_read<R: AllocGlobal + Clock + Threads + Wait + Sync>(
    rt: &R,
    monitors: u32,
) -> Result<Times, Fault>
    requires { monitors ≤ 4 }
{
    let packet = packet_to(0, Ecn::NotEct)?;
    let mut times = no_times(rt.alloc(), REPETITIONS)?;
    for _ in 0..REPETITIONS {
        times.push(while_read::<Brand, _>(rt, BookBlank::new(), packet, monitors)?)?;
    }
    Times::of(times).ok_or(Fault::OutOfRange)
}

/// The time that it took once.
fn while_read<J: BookName + Send + Sync, R: AllocGlobal + Clock + Threads + Wait + Sync>(
    rt: &R,
    blank: BookBlank,
    packet: Packet,
    monitors: u32,
) -> Result<u128, Fault>
    requires book { blank ≡ J.book }
    requires monitors { monitors ≤ 4 }
{
    while_read_on(rt, open::<J, R>(rt, blank, 1, monitors)?, packet)
}

/// The same, of a device that was opened. All packets stand in its lane before.
fn while_read_on<
    J: BookName + Send + Sync,
    X: Screen<Shown<J>> + Drop + Send,
    R: Clock + Threads + Wait + Sync,
>(rt: &R, opened: Opened<J, X>, packet: Packet) -> Result<u128, Fault> {
    let Opened {
        mut senders,
        device,
        monitors,
    } = opened;
    let submitted = submit_all(&mut senders, packet, ROUNDS);
    let ended = AtomicBool::new(false);
    let over = &ended;
    let part = move || {
        let begun = now(rt);
        let device = pass_all(device);
        let took = nanoseconds_since(rt, begun, submitted && has_sent_all(&device));
        over.store(true, Ordering::SeqCst);
        (device, took)
    };
    let read = move || -> Result<Vec<u64>, AllocError>
        requires { IsSync R.row }
    { read_each(rt, monitors, over) };
    // Where no thread can be made, `join` calls its first closure last: the device is through before a monitor reads.
    let (read, (_device, took)) = thread::join(rt, read, part);
    unless_refused(read, took)
}

/// The time, where memory wasn't refused to the monitors' threads.
fn unless_refused(
    read: Result<Vec<u64>, AllocError>,
    took: Result<u128, Fault>,
) -> Result<u128, Fault> {
    let _ = read?;
    took
}

/// Pumps the packets of the lane, sends what waits and publishes, until no packet is left or it is refused.
fn pass_all<J: BookName, X: Screen<Shown<J>> + Drop, K: Recorder, S: StepRecorder>(
    device: Device<J, X, K, S>,
) -> Device<J, X, K, S> {
    let mut device = device;
    for _ in 0..ROUNDS {
        if has_sent_all(&device) || !take_some(&mut device) || device.publish().is_err() {
            break;
        }
    }
    device
}

/// Each monitor reads in a thread of its own until the packets have passed.
fn read_each<J: BookName + Send + Sync, R: Threads + Wait + Sync>(
    rt: &R,
    monitors: Vec<Monitor<J>>,
    ended: &AtomicBool,
) -> Result<Vec<u64>, AllocError> {
    let read = move |monitor: Monitor<J>| read_on(rt, monitor, ended);
    thread::map_vec(rt, monitors, &read)
}

/// Reads until the packets have passed, and gives the events that were seen last.
fn read_on<J: BookName, R: Wait>(rt: &R, monitor: Monitor<J>, ended: &AtomicBool) -> u64 {
    let mut monitor = monitor;
    let mut events = 0;
    for _ in rt.forever() {
        events = monitor.totals().events;
        if ended.load(Ordering::SeqCst) {
            break;
        }
    }
    events
}
