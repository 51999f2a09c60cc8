//! Lanes that were just opened, and a list of calls with them, each with what it is answered. What owns the lanes makes
//! one call, which borrows them: so the proof drops them once.

ghost use Rattle.std.specs.Prelude.{◌≡◌, ◌≤◌, ◌<◌, Some, slice_get};
ghost use Rattle.port_core.specs.Devices.{rings_of};
ghost use Rattle.test_lanes.specs.Ends.{AreFirst, sender_rings};

use crate::fixtures::{open, open_unstored};
use crate::gates::Asked;
use packet_core::Packet;
use port_core::{
    BookBlank, BookName, Device, Gate, LaneEnd, LaneFull, LaneSender, MAX_BURST, MAX_CAPACITY,
    MAX_LANES, Open, Opened, Screen, Shown, Stop, send_lane,
};
use sched_core::{Event, MAX_ACCEPTED, Memory, Recorder, Refusal, Sent, Step, StepRecorder};
use std::alloc::Global;
use std::marker::Brand;
use std::process::Abort;
use std::sync::Wait;

/// What a sender is to do: its packets, how many of them it submits, why it stops, and how many packets are left in its
/// lane once it has ended.
#[derive(Clone, Copy)]
pub(crate) struct Sending<'a> {
    pub(crate) packets: &'a [Packet],
    pub(crate) submitted: u64,
    pub(crate) stop: Stop,
    pub(crate) left: u64,
}

/// A call, and what it is answered.
#[derive(Clone, Copy)]
pub(crate) enum Call<'a> {
    /// A packet that is submitted to that lane.
    Submit(u32, Packet, Result<(), LaneFull>),
    /// A pump of that lane at that moment, of so many packets at most.
    Pump(u32, u64, u64, Result<u64, Refusal>),
    /// Memory for so many steps.
    Reserve(u64, Result<(), Memory>),
    /// A dequeue at that moment.
    Dequeue(u64, Result<Option<Sent>, Refusal>),
    /// A close at that moment.
    Close(u64, Result<(), Refusal>),
    /// The statistics, of which so many packets were accepted and so many were sent.
    Counts(u64, u64),
    /// The last sender that is left finishes, and so many packets are left in its lane.
    Finish(u64),
    /// The same, where a pump at 7, of at most eight packets, takes so many of them before the lane is settled.
    FinishPumped(u64, u64),
    /// The last sender that is left is dropped, and its lane isn't settled.
    DropLast,
    /// The last sender that is left sends its packets, through an open gate.
    Send(Sending<'a>),
    /// The same through that gate.
    Ask(&'a Asked, Sending<'a>),
}

/// A packet goes into that lane.
pub(crate) fn put<'a>(lane: u32, packet: Packet) -> Call<'a> {
    Call::Submit(lane, packet, Ok(()))
}

/// A packet comes back, since that lane is full.
pub(crate) fn full<'a>(lane: u32, packet: Packet) -> Call<'a> {
    Call::Submit(lane, packet, Err(LaneFull(packet)))
}

/// A pump of that lane at 7, of at most so many packets, takes so many.
pub(crate) fn takes<'a>(lane: u32, burst: u64, taken: u64) -> Call<'a> {
    Call::Pump(lane, 7, burst, Ok(taken))
}

/// The calls are made with so many new lanes, with room for so many packets each. These events are the journal then.
pub(crate) fn plays<R: Wait + Abort>(
    rt: &R,
    alloc: Global,
    lanes: (u32, u32),
    calls: &[Call<'_>],
    events: &[Event],
) {
    let (number, capacity) = lanes;
    assert!(rt; 0 < number && number <= MAX_LANES);
    assert!(rt; 0 < capacity && capacity <= MAX_CAPACITY);
    at_lanes::<Brand, _>(rt, alloc, BookBlank::new(), number, capacity, calls, events);
}

fn at_lanes<J: BookName, R: Wait + Abort>(
    rt: &R,
    alloc: Global,
    blank: BookBlank,
    number: u32,
    capacity: u32,
    calls: &[Call<'_>],
    events: &[Event],
)
    requires book { blank ≡ J.book }
    requires number { (0 < number) × (number ≤ MAX_LANES) }
    requires capacity { (0 < capacity) × (capacity ≤ MAX_CAPACITY) }
{
    let mut opened = open::<J, R>(rt, alloc, blank, number, capacity);
    makes_all(rt, &mut opened, number, calls, events);
}

fn makes_all<J: BookName, X: Screen<Shown<J>> + Drop, R: Abort>(
    rt: &R,
    opened: &mut Opened<J, X>,
    number: u32,
    calls: &[Call<'_>],
    events: &[Event],
)
    requires { AreFirst (sender_rings opened.old.senders.items) (rings_of opened.old.device.lanes) }
{
    assert_eq!(rt; opened.device.lanes(), number);
    makes(rt, opened, calls);
    assert_eq!(rt; opened.device.engine().events(), events);
}

/// The calls are made with so many new lanes, with room for so many packets each, whose device keeps neither events nor
/// steps.
pub(crate) fn plays_unstored<R: Wait + Abort>(
    rt: &R,
    alloc: Global,
    lanes: (u32, u32),
    calls: &[Call<'_>],
) {
    let (number, capacity) = lanes;
    assert!(rt; 0 < number && number <= MAX_LANES);
    assert!(rt; 0 < capacity && capacity <= MAX_CAPACITY);
    at_unstored::<Brand, _>(rt, alloc, BookBlank::new(), number, capacity, calls);
}

fn at_unstored<J: BookName, R: Wait + Abort>(
    rt: &R,
    alloc: Global,
    blank: BookBlank,
    number: u32,
    capacity: u32,
    calls: &[Call<'_>],
)
    requires book { blank ≡ J.book }
    requires number { (0 < number) × (number ≤ MAX_LANES) }
    requires capacity { (0 < capacity) × (capacity ≤ MAX_CAPACITY) }
{
    let mut opened = open_unstored::<J, R>(rt, alloc, blank, number, capacity);
    makes(rt, &mut opened, calls);
}

/// A lane with room for so many packets is filled and emptied, two times.
pub(crate) fn fills_twice<R: Wait + Abort>(rt: &R, alloc: Global, capacity: u32, packet: Packet) {
    assert!(rt; 0 < capacity && capacity <= MAX_CAPACITY);
    at_one_lane::<Brand, _>(rt, alloc, BookBlank::new(), capacity, packet);
}

fn at_one_lane<J: BookName, R: Wait + Abort>(
    rt: &R,
    alloc: Global,
    blank: BookBlank,
    capacity: u32,
    packet: Packet,
)
    requires book { blank ≡ J.book }
    requires capacity { (0 < capacity) × (capacity ≤ MAX_CAPACITY) }
{
    let mut opened = open_unstored::<J, R>(rt, alloc, blank, 1, capacity);
    for _time in 0..2 {
        fills(rt, &mut opened, capacity, packet);
        empties(rt, &mut opened, capacity);
    }
    let all = u64::from(capacity).saturating_add(1).saturating_mul(2);
    assert_eq!(rt; opened.device.engine().totals().accepted, all);
}

/// So many packets fill the lane. Where one is taken, there is room for one.
fn fills<J: BookName, X: Screen<Shown<J>> + Drop, K: Recorder, S: StepRecorder, R: Abort>(
    rt: &R,
    opened: &mut Opened<J, X, K, S>,
    capacity: u32,
    packet: Packet,
) {
    for _packet in 0..capacity {
        submits(rt, &mut opened.senders, 0, packet, Ok(()));
    }
    submits(rt, &mut opened.senders, 0, packet, Err(LaneFull(packet)));
    pumps(rt, &mut opened.device, 0, 7, 1, Ok(1));
    submits(rt, &mut opened.senders, 0, packet, Ok(()));
    submits(rt, &mut opened.senders, 0, packet, Err(LaneFull(packet)));
}

/// Pumps take so many packets, and the last of them finds fewer than 1,024.
fn empties<J: BookName, X: Screen<Shown<J>> + Drop, K: Recorder, S: StepRecorder, R: Abort>(
    rt: &R,
    opened: &mut Opened<J, X, K, S>,
    packets: u32,
) {
    let mut left = packets;
    for _pump in 0..=packets / 1_024 {
        let burst = left.min(1_024);
        pumps(rt, &mut opened.device, 0, 7, 1_024, Ok(u64::from(burst)));
        left = left.saturating_sub(burst);
    }
}

/// The calls are made in turn.
fn makes<J: BookName, X: Screen<Shown<J>> + Drop, K: Recorder, S: StepRecorder, R: Abort>(
    rt: &R,
    opened: &mut Opened<J, X, K, S>,
    calls: &[Call<'_>],
)
    requires { AreFirst (sender_rings opened.old.senders.items) (rings_of opened.old.device.lanes) }
{
    for call in calls {
        match *call {
            Call::Submit(lane, packet, wanted) => {
                submits(rt, &mut opened.senders, lane, packet, wanted);
            }
            Call::Finish(left) => finishes(rt, opened, left),
            Call::FinishPumped(taken, left) => finishes_pumped(rt, opened, taken, left),
            Call::DropLast => drops_last(rt, opened),
            Call::Send(sending) => sends(rt, opened, &Open, sending),
            Call::Ask(gate, sending) => sends(rt, opened, gate, sending),
            _ => is_answered(rt, &mut opened.device, call),
        }
    }
}

/// The sender of that lane submits the packet, which is answered like that.
#[tactic(auto, using(crate::proofs::LaneEndLemmas::rings_kept))]
pub(crate) fn submits<R: Abort>(
    rt: &R,
    senders: &mut Vec<LaneSender>,
    lane: u32,
    packet: Packet,
    wanted: Result<(), LaneFull>,
)
    ensures { sender_rings senders.new.items ≡ sender_rings senders.old.items }
{
    assert!(rt; (lane as usize) < senders.len());
    let sender = &mut senders[lane as usize];
    assert_eq!(rt; sender.lane(), lane);
    assert_eq!(rt; sender.submit(packet), wanted);
}

/// The last sender and the number of its lane.
#[tactic(auto, using(crate::proofs::LaneEndLemmas::first_rest))]
fn last<J: BookName, X: Screen<Shown<J>> + Drop, K: Recorder, S: StepRecorder, R: Abort>(
    rt: &R,
    opened: &mut Opened<J, X, K, S>,
) -> (LaneSender, usize)
    requires { AreFirst (sender_rings opened.old.senders.items) (rings_of opened.old.device.lanes) }
    ensures first { AreFirst (sender_rings opened.new.senders.items) (rings_of opened.new.device.lanes) }
    ensures ring { slice_get (rings_of opened.new.device.lanes) result.1 ≡ Some result.0.ring }
{
    let sender = opened.senders.pop().expect(rt, "a sender");
    (sender, opened.senders.len())
}

/// The last sender submits nothing more, and so many packets are left in its lane.
fn finishes<J: BookName, X: Screen<Shown<J>> + Drop, K: Recorder, S: StepRecorder, R: Abort>(
    rt: &R,
    opened: &mut Opened<J, X, K, S>,
    left: u64,
)
    requires { AreFirst (sender_rings opened.old.senders.items) (rings_of opened.old.device.lanes) }
    ensures { AreFirst (sender_rings opened.new.senders.items) (rings_of opened.new.device.lanes) }
{
    let (sender, lane) = last(rt, opened);
    let end = sender.finish().expect(rt, "an end");
    settles(rt, &mut opened.device, lane, end, left);
}

/// The last sender submits nothing more, a pump takes so many packets from its lane, and so many are left there.
fn finishes_pumped<J: BookName, X: Screen<Shown<J>> + Drop, K: Recorder, S: StepRecorder, R: Abort>(
    rt: &R,
    opened: &mut Opened<J, X, K, S>,
    taken: u64,
    left: u64,
)
    requires { AreFirst (sender_rings opened.old.senders.items) (rings_of opened.old.device.lanes) }
    ensures { AreFirst (sender_rings opened.new.senders.items) (rings_of opened.new.device.lanes) }
{
    let (sender, lane) = last(rt, opened);
    let end = sender.finish().expect(rt, "an end");
    pumps(rt, &mut opened.device, end.lane(), 7, 8, Ok(taken));
    settles(rt, &mut opened.device, lane, end, left);
}

/// The last sender goes, without an end of its lane.
fn drops_last<J: BookName, X: Screen<Shown<J>> + Drop, K: Recorder, S: StepRecorder, R: Abort>(
    rt: &R,
    opened: &mut Opened<J, X, K, S>,
)
    requires { AreFirst (sender_rings opened.old.senders.items) (rings_of opened.old.device.lanes) }
    ensures { AreFirst (sender_rings opened.new.senders.items) (rings_of opened.new.device.lanes) }
{
    let (sender, _lane) = last(rt, opened);
    drop(sender);
}

/// The last sender sends its packets through the gate, and so many packets are left in its lane.
fn sends<J: BookName, X: Screen<Shown<J>> + Drop, K: Recorder, S: StepRecorder, G: Gate, R: Abort>(
    rt: &R,
    opened: &mut Opened<J, X, K, S>,
    gate: &G,
    sending: Sending<'_>,
)
    requires { AreFirst (sender_rings opened.old.senders.items) (rings_of opened.old.device.lanes) }
    ensures { AreFirst (sender_rings opened.new.senders.items) (rings_of opened.new.device.lanes) }
{
    let (sender, lane) = last(rt, opened);
    let done = send_lane(sender, sending.packets, gate);
    assert_eq!(rt;
        (done.submitted, done.stop),
        (sending.submitted, sending.stop)
    );
    let end = done.end.expect(rt, "an end");
    settles(rt, &mut opened.device, lane, end, sending.left);
}

/// The lane is settled by that end, and so many packets are left in it.
fn settles<J: BookName, X: Screen<Shown<J>> + Drop, K: Recorder, S: StepRecorder, R: Abort>(
    rt: &R,
    device: &mut Device<J, X, K, S>,
    lane: usize,
    end: LaneEnd,
    left: u64,
)
    requires { slice_get (rings_of device.old.lanes) lane ≡ Some end.ring }
    ensures { rings_of device.new.lanes ≡ rings_of device.old.lanes }
{
    let number = end.lane();
    assert!(rt; number as usize == lane);
    assert_eq!(rt; device.settle_lane(number, end), left);
}

/// The device answers the call as it has to.
fn is_answered<J: BookName, X: Screen<Shown<J>> + Drop, K: Recorder, S: StepRecorder, R: Abort>(
    rt: &R,
    device: &mut Device<J, X, K, S>,
    call: &Call<'_>,
)
    ensures { rings_of device.new.lanes ≡ rings_of device.old.lanes }
{
    match *call {
        Call::Pump(lane, now, burst, wanted) => pumps(rt, device, lane, now, burst, wanted),
        Call::Reserve(steps, wanted) => {
            assert!(rt; steps <= MAX_ACCEPTED);
            assert_eq!(rt; device.reserve(steps), wanted);
        }
        Call::Dequeue(now, wanted) => assert_eq!(rt; device.dequeue(now), wanted),
        Call::Close(now, wanted) => assert_eq!(rt; device.close(now), wanted),
        Call::Counts(accepted, sent) => {
            let totals = device.engine().totals();
            assert_eq!(rt; (totals.accepted, totals.sent), (accepted, sent));
        }
        Call::Submit(..)
        | Call::Finish(_)
        | Call::FinishPumped(..)
        | Call::DropLast
        | Call::Send(_)
        | Call::Ask(..) => {}
    }
}

/// The device's pump of the lane is answered like that.
fn pumps<J: BookName, X: Screen<Shown<J>> + Drop, K: Recorder, S: StepRecorder, R: Abort>(
    rt: &R,
    device: &mut Device<J, X, K, S>,
    lane: u32,
    now: u64,
    burst: u64,
    wanted: Result<u64, Refusal>,
)
    ensures { rings_of device.new.lanes ≡ rings_of device.old.lanes }
{
    assert!(rt; lane < device.lanes());
    assert!(rt; 0 < burst && burst <= MAX_BURST);
    assert_eq!(rt; device.pump(lane, now, burst), wanted);
}
