//! Opens lanes.

ghost use Rattle.std.specs.Prelude.{◌≡◌, ◌≢◌, ◌≤◌, ◌<◌, [], replicate, IfErr, IfOk};
ghost use Rattle.monitor_core.specs.declared.opening.OpenFault.TheVariants as open_fault;
ghost use Rattle.monitor_core.specs.Publishing.{nothing_published};
ghost use Rattle.port_core.specs.Devices.{AreNewEnds, AreNewLanes};
ghost use Rattle.port_core.specs.declared.device.TheConstants.{MAX_LANES};
ghost use Rattle.port_core.specs.declared.opening.TheConstants.{MAX_CAPACITY, MAX_MONITORS};
ghost use Rattle.sched_core.specs.Engines.{new_engine, new_engine_for};
ghost use Rattle.sched_core.specs.Schedulers.{IsMadeFor};

use crate::device::{Device, MAX_LANES};
use crate::lane::Lane;
use crate::lane_sender::LaneSender;
use monitor_core::{
    BookBlank, BookName, LeftRight, Monitor, OpenFault, Screen, Shown, open_publisher,
};
use packet_core::{Params, Seed};
use rtrb::RingBuffer;
use sched_core::{Engine, EventList, Recorder, StepList, StepRecorder};
use std::alloc::{AllocError, Global};
use std::sync::Wait;

/// A lane has room for at most so many packets, which take 48 MiB. A ring takes all of its memory when it is made. The
/// packets of a whole trace fit.
pub const MAX_CAPACITY: u32 = 1 << 20;

/// A device has at most so many monitors. A publish may wait for each of them.
pub const MAX_MONITORS: u32 = 64;

/// How many lanes and monitors a device has.
#[derive(Clone, Copy, Debug, PartialEq, Eq)]
pub struct Layout {
    /// The lanes, 1 to 64.
    pub lanes: u32,
    /// How many packets each lane has room for, 1 to 1,048,576.
    pub capacity: u32,
    /// The monitors, 0 to 64.
    pub monitors: u32,
}

/// Lanes with both of their ends, and monitors.
#[derive(Drop)]
pub struct Opened<
    J: BookName,
    X: Screen<Shown<J>> + Drop,
    K: Recorder = EventList,
    S: StepRecorder = StepList,
> {
    /// The senders, in the order of their lanes.
    pub senders: Vec<LaneSender>,
    /// The device.
    pub device: Device<J, X, K, S>,
    /// The monitors.
    pub monitors: Vec<Monitor<J>>,
}

/// Both ends of a lane.
fn new_lane(alloc: Global, lane: u32, capacity: u32) -> Result<(LaneSender, Lane), AllocError>
    ensures { IfOk result (λ ends. AreNewEnds ends.0 ends.1 lane capacity) }
{
    let (producer, consumer) = RingBuffer::new(alloc, capacity as usize)?;
    Ok((LaneSender::new(lane, producer), Lane::new(consumer)))
}

/// Both ends of so many lanes, in the order of their numbers.
#[tactic(auto, using(crate::proofs::LaneLemmas::lanes_none))]
fn new_lanes(
    alloc: Global,
    number: u32,
    capacity: u32,
) -> Result<(Vec<LaneSender>, Vec<Lane>), AllocError>
    ensures { IfOk result (λ ends. AreNewLanes ends.0.items ends.1.items number capacity) }
{
    let mut senders = Vec::new(alloc);
    let mut lanes = Vec::new(alloc);
    for next in 0..number {
        let (sender, lane) = new_lane(alloc, next, capacity)?;
        senders.push(sender)?;
        lanes.push(lane)?;
    }
    Ok((senders, lanes))
}

/// Opens lanes: a sender for each, a device whose engine has made no step, and monitors that have seen nothing. What
/// waits for monitors, at a publish alone, has the handle. It fails for want of memory, or of a place for a monitor.
pub fn lanes<J: BookName, R: Wait + Drop>(
    rt: R,
    alloc: Global,
    blank: BookBlank,
    params: Params,
    seed: Seed,
    layout: Layout,
) -> Result<Opened<J, LeftRight<Shown<J>, R>>, OpenFault>
    requires book { blank ≡ J.book }
    requires lanes { (0 < layout.lanes) × (layout.lanes ≤ MAX_LANES) }
    requires capacity { (0 < layout.capacity) × (layout.capacity ≤ MAX_CAPACITY) }
    requires monitors { layout.monitors ≤ MAX_MONITORS }
    ensures engine { IfOk result (λ o. o.device.engine ≡ new_engine params seed) }
    ensures lanes { IfOk result (λ o. AreNewLanes o.senders.items o.device.lanes layout.lanes layout.capacity) }
    ensures published { IfOk result (λ o. o.device.published ≡ nothing_published) }
    ensures monitors { IfOk result (λ o. o.monitors.items ≡ replicate layout.monitors []) }
    ensures no_place { IfErr result (λ why. layout.monitors ≡ 0 → why ≡ open_fault.Memory) }
{
    lanes_with_recorders(
        rt,
        alloc,
        blank,
        params,
        seed,
        layout,
        EventList::new(alloc),
        StepList::new(alloc),
    )
}

/// The same with a device whose engine tells its events and its steps to recorders that were told none. Where the one
/// of events says for how many packets it was made, these have to be `limit` and one more, or more than that.
pub fn lanes_with_recorders<J: BookName, R: Wait + Drop, K: Recorder, S: StepRecorder>(
    rt: R,
    alloc: Global,
    blank: BookBlank,
    params: Params,
    seed: Seed,
    layout: Layout,
    events: K,
    steps: S,
) -> Result<Opened<J, LeftRight<Shown<J>, R>, K, S>, OpenFault>
    requires book { blank ≡ J.book }
    requires lanes { (0 < layout.lanes) × (layout.lanes ≤ MAX_LANES) }
    requires capacity { (0 < layout.capacity) × (layout.capacity ≤ MAX_CAPACITY) }
    requires monitors { layout.monitors ≤ MAX_MONITORS }
    requires events { K.told events ≡ [] }
    requires none_sent { K.sent events ≡ [] }
    requires no_loss { K.lost events ≡ [] }
    requires made_for { IsMadeFor params.limit (K.made_for events) }
    requires steps { S.told steps ≡ [] }
    ensures engine { IfOk result (λ o. o.device.engine ≡ new_engine_for params seed (K.made_for events)) }
    ensures lanes { IfOk result (λ o. AreNewLanes o.senders.items o.device.lanes layout.lanes layout.capacity) }
    ensures published { IfOk result (λ o. o.device.published ≡ nothing_published) }
    ensures monitors { IfOk result (λ o. o.monitors.items ≡ replicate layout.monitors []) }
    ensures no_place { IfErr result (λ why. layout.monitors ≡ 0 → why ≡ open_fault.Memory) }
{
    let (publisher, monitors) = open_publisher(rt, alloc, blank, layout.monitors)?;
    let engine = Engine::try_with_recorders(alloc, params, seed, events, steps)?;
    let (senders, lanes) = new_lanes(alloc, layout.lanes, layout.capacity)?;
    Ok(Opened {
        senders,
        device: Device::new(engine, lanes, publisher),
        monitors,
    })
}
