//! How long packets take through lanes, and what the parts of that take.

ghost use Rattle.std.specs.Prelude.{◌≡◌, ◌≤◌, ◌<◌};
ghost use denote.Param.Send.{IsSync};

use crate::times::{Times, no_times};
use crate::timing::{Fault, SEED, START, nanoseconds_since, now, packet_to};
use crate::workload::{REPETITIONS, ROUNDS};
use packet_core::{Ecn, Packet, ParamFields, Params};
use port_core::{
    BookBlank, BookName, Device, LaneDone, LaneSender, Layout, LeftRight, Open, Opened, Screen,
    Shown, lanes, send_lane,
};
use rtrb::{Producer, RingBuffer};
use sched_core::{Engine, Event, Recorder, Step, StepRecorder};
use std::alloc::AllocError;
use std::marker::Brand;
use std::rt::Clock;
use std::sync::Wait;
use std::thread::{self, Threads};

/// The most packets that wait: all.
const LIMIT: u32 = 1_048_576;

/// A pump takes so many packets at most.
const BURST: u64 = 64;

/// The device looks so often for packets at most, so that it ends where no thread can be made for a sender.
const MAX_LOOKS: u32 = 10_000_000;

/// The moment of every step, in microseconds.
const MOMENT: u64 = START / 1_000;

/// A part of a packet's way through a lane, or what it is compared with.
#[derive(Clone, Copy, Debug)]
pub enum LanePart {
    /// The ring's own push.
    Push,
    /// A submit.
    Submit,
    /// A packet of a pump, with its enqueue.
    Pump,
    /// The engine's enqueue alone.
    Enqueue,
}

/// What the part took for all packets of a repetition.
pub fn times_of_part<R: AllocGlobal + Clock + Wait>(
    rt: &R,
    part: LanePart,
) -> Result<Times, Fault> {
    let packet = packet_to(0, Ecn::NotEct)?;
    let mut times = no_times(rt.alloc(), REPETITIONS)?;
    for _ in 0..REPETITIONS {
        let took = match part {
            LanePart::Push => pushing(rt, packet)?,
            LanePart::Submit => submitting::<Brand, _>(rt, BookBlank::new(), packet)?,
            LanePart::Pump => pumping::<Brand, _>(rt, BookBlank::new(), packet)?,
            LanePart::Enqueue => enqueuing(rt, packet)?,
        };
        times.push(took)?;
    }
    Times::of(times).ok_or(Fault::OutOfRange)
}

/// The parameters of each run: no packet is dropped for want of room.
pub fn params() -> Result<Params, Fault> {
    Ok(Params::try_new(ParamFields {
        limit: LIMIT,
        ..ParamFields::standard()
    })?)
}

/// So many lanes, each with room for all packets, to a device with so many monitors.
pub fn open<'a, J: BookName, R: AllocGlobal + Wait>(
    rt: &'a R,
    blank: BookBlank,
    number: u32,
    monitors: u32,
) -> Result<Opened<J, LeftRight<Shown<J>, &'a R>>, Fault>
    requires book { blank ≡ J.book }
    requires number { (0 < number) × (number ≤ 4) }
    requires monitors { monitors ≤ 4 }
{
    let layout = Layout {
        lanes: number,
        capacity: ROUNDS,
        monitors,
    };
    lanes(rt, rt.alloc(), blank, params()?, SEED, layout)
        .ok()
        .ok_or(Fault::Memory)
}

/// The time in which the packets are pushed into a ring.
fn pushing<R: AllocGlobal + Clock>(rt: &R, packet: Packet) -> Result<u128, Fault> {
    let (mut producer, _consumer) = RingBuffer::new(rt.alloc(), ROUNDS as usize)?;
    let begun = now(rt);
    let is_done = push_all(&mut producer, packet);
    nanoseconds_since(rt, begun, is_done)
}

/// Pushes the packets. It answers whether all found room.
fn push_all(producer: &mut Producer<Packet>, packet: Packet) -> bool {
    for _ in 0..ROUNDS {
        if producer.push(packet).is_err() {
            return false;
        }
    }
    true
}

/// The time in which the packets are submitted to a lane.
fn submitting<J: BookName, R: AllocGlobal + Clock + Wait>(
    rt: &R,
    blank: BookBlank,
    packet: Packet,
) -> Result<u128, Fault>
    requires { blank ≡ J.book }
{
    submitting_to(rt, open::<J, R>(rt, blank, 1, 0)?, packet)
}

/// The same, to the first of lanes that were opened.
fn submitting_to<J: BookName, X: Screen<Shown<J>> + Drop, R: Clock>(
    rt: &R,
    opened: Opened<J, X>,
    packet: Packet,
) -> Result<u128, Fault> {
    let Opened {
        mut senders,
        device: _device,
        monitors: _monitors,
    } = opened;
    let begun = now(rt);
    let is_done = submit_all(&mut senders, packet, ROUNDS);
    nanoseconds_since(rt, begun, is_done)
}

/// Submits so many packets by the first sender. It answers whether all found room.
pub fn submit_all(senders: &mut Vec<LaneSender>, packet: Packet, packets: u32) -> bool {
    let Some(sender) = senders.first_mut() else {
        return false;
    };
    for _ in 0..packets {
        if sender.submit(packet).is_err() {
            return false;
        }
    }
    true
}

/// The time in which the packets are pumped out of a lane.
fn pumping<J: BookName, R: AllocGlobal + Clock + Wait>(
    rt: &R,
    blank: BookBlank,
    packet: Packet,
) -> Result<u128, Fault>
    requires { blank ≡ J.book }
{
    pumping_from(rt, open::<J, R>(rt, blank, 1, 0)?, packet)
}

/// The same, out of the first of lanes that were opened.
fn pumping_from<J: BookName, X: Screen<Shown<J>> + Drop, R: Clock>(
    rt: &R,
    opened: Opened<J, X>,
    packet: Packet,
) -> Result<u128, Fault> {
    let Opened {
        mut senders,
        mut device,
        monitors: _monitors,
    } = opened;
    let submitted = submit_all(&mut senders, packet, ROUNDS);
    let begun = now(rt);
    let is_done = submitted && pump_out(&mut device);
    nanoseconds_since(rt, begun, is_done)
}

/// Pumps the packets out of the first lane. It answers whether all came.
fn pump_out<J: BookName, X: Screen<Shown<J>> + Drop, K: Recorder, S: StepRecorder>(
    device: &mut Device<J, X, K, S>,
) -> bool {
    for _ in 0..=u64::from(ROUNDS) / BURST {
        if !pump_one(device, 0) {
            return false;
        }
    }
    device.engine().totals().accepted == u64::from(ROUNDS)
}

/// Pumps that lane once. It answers whether there is such a lane, and memory.
pub fn pump_one<J: BookName, X: Screen<Shown<J>> + Drop, K: Recorder, S: StepRecorder>(
    device: &mut Device<J, X, K, S>,
    lane: u32,
) -> bool {
    lane < device.lanes() && device.pump(lane, MOMENT, BURST).is_ok()
}

/// The time in which an engine accepts the packets.
fn enqueuing<R: AllocGlobal + Clock>(rt: &R, packet: Packet) -> Result<u128, Fault> {
    let params = params()?;
    let mut engine = Engine::try_new(rt.alloc(), params, SEED)?;
    enqueuing_into(rt, &mut engine, packet)
}

/// The same, of an engine that was made.
fn enqueuing_into<K: Recorder, S: StepRecorder, R: Clock>(
    rt: &R,
    engine: &mut Engine<K, S>,
    packet: Packet,
) -> Result<u128, Fault> {
    let begun = now(rt);
    let is_done = enqueue_all(engine, packet);
    nanoseconds_since(rt, begun, is_done)
}

/// Enqueues the packets. It answers whether all were accepted.
fn enqueue_all<K: Recorder, S: StepRecorder>(engine: &mut Engine<K, S>, packet: Packet) -> bool {
    for _ in 0..ROUNDS {
        if engine.enqueue(MOMENT, 0, packet).is_err() {
            return false;
        }
    }
    true
}

/// What so many senders and the device took for all packets of a repetition.
pub fn times_through_lanes<R: AllocGlobal + Clock + Threads + Wait + Sync>(
    rt: &R,
    senders: u32,
) -> Result<Times, Fault>
    requires { (0 < senders) × (senders ≤ 4) }
{
    let packet = packet_to(0, Ecn::NotEct)?;
    let packets = vec![in rt.alloc(); packet; (ROUNDS / senders) as usize]?;
    times_of_packets(rt, senders, &packets)
}

/// The same, where each sender has these packets.
fn times_of_packets<R: AllocGlobal + Clock + Threads + Wait + Sync>(
    rt: &R,
    senders: u32,
    packets: &[Packet],
) -> Result<Times, Fault>
    requires { (0 < senders) × (senders ≤ 4) }
{
    let mut times = no_times(rt.alloc(), REPETITIONS)?;
    for _ in 0..REPETITIONS {
        times.push(opened_lanes::<Brand, _>(rt, BookBlank::new(), senders, packets)?)?;
    }
    Times::of(times).ok_or(Fault::OutOfRange)
}

/// The time that they took once.
fn opened_lanes<J: BookName, R: AllocGlobal + Clock + Threads + Wait + Sync>(
    rt: &R,
    blank: BookBlank,
    senders: u32,
    packets: &[Packet],
) -> Result<u128, Fault>
    requires book { blank ≡ J.book }
    requires number { (0 < senders) × (senders ≤ 4) }
{
    through_lanes(rt, open::<J, R>(rt, blank, senders, 0)?, packets)
}

/// The time in which each sender's packets go through its lane and out of the device.
fn through_lanes<J: BookName, X: Screen<Shown<J>> + Drop, R: Clock + Threads + Sync>(
    rt: &R,
    opened: Opened<J, X>,
    packets: &[Packet],
) -> Result<u128, Fault> {
    let Opened {
        senders,
        device,
        monitors: _monitors,
    } = opened;
    let begun = now(rt);
    let (done, device) = at_once(rt, senders, packets, device);
    nanoseconds_since(rt, begun, is_through(&done, &device))
}

/// Whether memory wasn't refused to the senders' threads, and all packets of a repetition were sent.
fn is_through<J: BookName, X: Screen<Shown<J>> + Drop>(
    done: &Result<Vec<LaneDone>, AllocError>,
    device: &Device<J, X>,
) -> bool {
    done.is_ok() && has_sent_all(device)
}

/// The device takes packets while the senders submit theirs.
fn at_once<J: BookName, X: Screen<Shown<J>> + Drop, R: Threads + Sync>(
    rt: &R,
    senders: Vec<LaneSender>,
    packets: &[Packet],
    device: Device<J, X>,
) -> (Result<Vec<LaneDone>, AllocError>, Device<J, X>) {
    let senders = move || -> Result<Vec<LaneDone>, AllocError>
        requires { IsSync R.row }
    { send_all(rt, senders, packets) };
    thread::join(rt, senders, move || take_all(device, u64::from(ROUNDS)))
}

/// Each lane's sender has a thread of its own.
fn send_all<R: Threads + Sync>(
    rt: &R,
    senders: Vec<LaneSender>,
    packets: &[Packet],
) -> Result<Vec<LaneDone>, AllocError> {
    let send = move |sender: LaneSender| send_lane(sender, packets, &Open);
    thread::map_vec(rt, senders, &send)
}

/// Whether all packets of a repetition were sent.
pub fn has_sent_all<J: BookName, X: Screen<Shown<J>> + Drop, K: Recorder, S: StepRecorder>(
    device: &Device<J, X, K, S>,
) -> bool {
    device.engine().totals().sent == u64::from(ROUNDS)
}

/// The device takes packets until it has sent so many, or is refused, or has looked too often.
pub fn take_all<J: BookName, X: Screen<Shown<J>> + Drop, K: Recorder, S: StepRecorder>(
    device: Device<J, X, K, S>,
    packets: u64,
) -> Device<J, X, K, S> {
    let mut device = device;
    for _ in 0..MAX_LOOKS {
        if device.engine().totals().sent == packets || !take_some(&mut device) {
            break;
        }
    }
    device
}

/// Pumps each lane once, and sends what waits then. It answers whether nothing was refused.
pub fn take_some<J: BookName, X: Screen<Shown<J>> + Drop, K: Recorder, S: StepRecorder>(
    device: &mut Device<J, X, K, S>,
) -> bool {
    for lane in 0..device.lanes() {
        if !pump_one(device, lane) {
            return false;
        }
    }
    if device.engine().queued() == 0 {
        thread::yield_now();
    }
    for _ in 0..device.engine().queued() {
        if device.dequeue(MOMENT).is_err() {
            return false;
        }
    }
    true
}
