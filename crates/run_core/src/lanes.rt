//! The run of steps by senders that are threads, through lanes into a device.
ghost use Rattle.std.specs.Prelude.{◌≡◌, ◌≢◌, ◌≤◌, ◌<◌, ◌-◌, ◌++◌, ◌⊎◌, [], ℕ, All, IfErr, IfOk, IsOk, None, OnErr, OnOk, false, length, map, max, slice_index_or, true};
ghost use denote.Param.Send.{IsSync};
ghost use Rattle.journal_core.specs.declared.step.Step.TheVariants.{Dequeue};
ghost use Rattle.journal_core.specs.State.{IsRefusal};
ghost use Rattle.port_core.specs.Devices.{Pumps, TakesAllLeft, fed_of, pump_refusal_of, rings_of};
ghost use Rattle.port_core.specs.Lanes.{LaneView, accepted};
ghost use Rattle.port_core.specs.declared.gate.Stop.TheVariants as stop;
ghost use Rattle.port_core.specs.declared.opening.TheConstants.{MAX_CAPACITY, MAX_MONITORS};
ghost use Rattle.sender_core.specs.declared.interleaving.TheConstants.{MAX_SENDERS};
ghost use Rattle.run_core.specs.DeviceRuns.{Dequeues, EmptiesLane, EndsRun, Finishes, HasServed, IsAny, IsBurst, IsDeviceRun, IsIdle, PumpsAll, ServesRow, closed_at, has_close, last_moment};
ghost use Rattle.run_core.specs.Journals.{AreLaneRows, AreLanesJournal, FitsLane, IsLaneRow, IsLanesRunOf, IsSameDevice, ShowsAll, ShowsRow, submitted_of};
ghost use Rattle.run_core.specs.LaneRooms.{AreLanesFor, IsTooLong, capacity_for};
ghost use Rattle.run_core.specs.Seeing.{AreTotalsOf, IsSeenOf};
ghost use Rattle.run_core.specs.SendersFaults.{IsDeviceFault, IsEndingFault, IsEndless, IsLanesRunFault, IsWatchingFault};
ghost use Rattle.run_core.specs.declared.senders_fault.SendersFault.TheVariants as senders_fault;

use crate::monitors::{read_all, seen_of_journal};
use crate::room::{BURST, stores};
use crate::senders_fault::SendersFault;
use packet_core::{Packet, Params, Seed};
use port_core::{
    BookBlank, BookName, Device, LaneDone, LaneSender, Layout, MAX_CAPACITY, MAX_MONITORS, Monitor,
    Open, Opened, PublishFault, Screen, Seen, Shown, lanes_with_recorders,
};
use sched_core::{Engine, Refusal, Step};
use sender_core::{Expected, MAX_SENDERS, device_moment, lists_of, packets_of, start_lanes};
use std::alloc::{AllocError, Global};
use std::marker::{Brand, Send, Sync};
use std::sync::Wait;
use std::sync::atomic::{AtomicBool, Ordering};
use std::thread::{self, Threads};
use trace_core::SenderRow;

/// Makes the steps by senders with a lane each and a device, while monitors read, as many as were asked for. It gives
/// the engine, the rows of the lanes, and what each monitor saw last.
pub fn run_lanes<H: Threads + Wait + Sync>(
    rt: &H,
    alloc: Global,
    params: Params,
    seed: Seed,
    senders: u32,
    monitors: u32,
    steps: &[Step],
) -> Result<(Engine, Vec<SenderRow>, Vec<Seen>), SendersFault>
    requires senders { (0 < senders) × (senders ≤ MAX_SENDERS) }
    requires monitors { monitors ≤ MAX_MONITORS }
    ensures journal { IfOk result (λ r. AreLanesJournal params seed senders steps.now
        r.0.sched.standing.events r.1.items) }
    ensures seen { IfOk result (λ r. (length r.2.items ≡ monitors)
        × All (IsSeenOf r.0.sched.standing.events) r.2.items) }
    ensures fault { IfErr result (IsLanesRunFault senders monitors) }
{
    let calls = lists_of(alloc, &params, &seed, senders, steps)?;
    let lists = packets_of(alloc, &calls)?;
    drop(calls);
    let layout = Layout {
        lanes: lists.len() as u32,
        capacity: capacity_of(&lists)?,
        monitors,
    };
    let blank = BookBlank::new();
    let run = run_in_book::<Brand, _>(rt, alloc, blank, params, seed, layout, steps, &lists)?;
    run.0.run_of_steps();
    let closed = run.0.is_closed();
    prove!(closed);
    Ok(run)
}

/// The room that a lane needs for all packets of any of these lists. The first that no lane has room for is a fault.
fn capacity_of(lists: &[Vec<Packet>]) -> Result<u32, SendersFault>
    requires { length lists.now ≤ MAX_SENDERS }
    ensures ok { IfOk result (λ capacity. (0 < capacity) × (capacity ≤ MAX_CAPACITY)) }
    ensures room { IfOk result (λ capacity. capacity ≡ capacity_for lists.now) }
    ensures too_long { IfErr result (IsTooLong lists.now) }
    ensures fault { IfErr result (IsDeviceFault (length lists.now)) }
{
    let mut capacity = 1;
    for lane in 0..lists.len() {
        let packets = lists[lane].len();
        if packets > MAX_CAPACITY as usize {
            return Err(SendersFault::Lane(lane as u32));
        }
        capacity = capacity.max(packets as u32);
    }
    Ok(capacity)
}

/// Opens a lane for each list, and monitors, which read what the device notes in that book, and makes the run.
fn run_in_book<J: BookName + Send + Sync, H: Threads + Wait + Sync>(
    rt: &H,
    alloc: Global,
    blank: BookBlank,
    params: Params,
    seed: Seed,
    layout: Layout,
    steps: &[Step],
    lists: &[Vec<Packet>],
) -> Result<(Engine, Vec<SenderRow>, Vec<Seen>), SendersFault>
    requires book { blank ≡ J.book }
    requires lanes { (layout.lanes ≡ length lists.now) × (0 < layout.lanes) × (layout.lanes ≤ MAX_SENDERS) }
    requires capacity { (0 < layout.capacity) × (layout.capacity ≤ MAX_CAPACITY) }
    requires room { capacity_for lists.now ≤ layout.capacity }
    requires monitors { layout.monitors ≤ MAX_MONITORS }
    ensures params { IfOk result (λ r. (r.0.sched.params ≡ params) × (r.0.sched.seed ≡ seed)) }
    ensures rows { IfOk result (λ r. AreLaneRows lists.now r.0.sched.standing.events r.1.items) }
    ensures made { IfOk result (λ r. IsDeviceRun (length lists.now) steps.now [] r.0.steps) }
    ensures idle { IfOk result (λ r. (moment : ℕ) × IsIdle moment r.0) }
    ensures none_left { IfOk result (λ r. has_close steps.now ≡ false → All (λ row. row.left ≡ 0) r.1.items) }
    ensures seen { IfOk result (λ r. (length r.2.items ≡ layout.monitors)
        × All (IsSeenOf r.0.sched.standing.events) r.2.items) }
    ensures fault { IfErr result (IsLanesRunFault (length lists.now) layout.monitors) }
{
    let (events, made) = stores(alloc, Expected::of(steps));
    let opened = lanes_with_recorders::<J, _, _, _>(
        rt, alloc, blank, params, seed, layout, events, made,
    )?;
    run_opened(rt, alloc, opened, steps, lists)
}

/// Makes the run through lanes that were just opened.
fn run_opened<
    J: BookName + Send + Sync,
    X: Screen<Shown<J>> + Drop + Send,
    H: Threads + Wait + Sync,
>(
    rt: &H,
    alloc: Global,
    opened: Opened<J, X>,
    steps: &[Step],
    lists: &[Vec<Packet>],
) -> Result<(Engine, Vec<SenderRow>, Vec<Seen>), SendersFault>
    requires lanes { AreLanesFor opened.senders.items opened.device.lanes lists.now }
    requires number { length lists.now ≤ MAX_SENDERS }
    ensures params { IfOk result (λ r. (r.0.sched.params ≡ opened.device.engine.sched.params)
        × (r.0.sched.seed ≡ opened.device.engine.sched.seed)) }
    ensures rows { IfOk result (λ r. AreLaneRows lists.now r.0.sched.standing.events r.1.items) }
    ensures made { IfOk result (λ r. IsDeviceRun (length lists.now) steps.now opened.device.engine.steps r.0.steps) }
    ensures idle { IfOk result (λ r. (moment : ℕ) × IsIdle moment r.0) }
    ensures none_left { IfOk result (λ r. has_close opened.device.engine.steps ≡ false → has_close steps.now ≡ false
        → All (λ row. row.left ≡ 0) r.1.items) }
    ensures seen { IfOk result (λ r. (length r.2.items ≡ length opened.monitors.items)
        × All (IsSeenOf r.0.sched.standing.events) r.2.items) }
    ensures fault { IfErr result (IsLanesRunFault (length lists.now) (length opened.monitors.items)) }
{
    let Opened {
        senders,
        device,
        monitors,
    } = opened;
    let readers = monitors.len();
    run_watched(rt, alloc, senders, device, monitors, readers, steps, lists)
}

/// Makes the run. Its monitors, of which the number is `readers`, read in threads of their own until it has ended.
/// Where no thread can be made, the run ends before the first of them reads.
fn run_watched<
    J: BookName + Send + Sync,
    X: Screen<Shown<J>> + Drop + Send,
    H: Threads + Wait + Sync,
>(
    rt: &H,
    alloc: Global,
    senders: Vec<LaneSender>,
    device: Device<J, X>,
    monitors: Vec<Monitor<J>>,
    readers: usize,
    steps: &[Step],
    lists: &[Vec<Packet>],
) -> Result<(Engine, Vec<SenderRow>, Vec<Seen>), SendersFault>
    requires lanes { AreLanesFor senders.items device.lanes lists.now }
    requires number { length lists.now ≤ MAX_SENDERS }
    requires readers { readers ≡ length monitors.items }
    ensures made { IfOk result (λ r. IsLanesRunOf device steps.now lists.now r.0 r.1.items) }
    ensures seen { IfOk result (λ r. (length r.2.items ≡ length monitors.items)
        × All (IsSeenOf r.0.sched.standing.events) r.2.items) }
    ensures fault { IfErr result (IsLanesRunFault (length lists.now) (length monitors.items)) }
{
    let ended = AtomicBool::new(false);
    let over = &ended;
    let run = move || -> Result<(Device<J, X>, Vec<SenderRow>), SendersFault>
        requires { IsSync H.row × AreLanesFor senders.items device.lanes lists.now
            × (length lists.now ≤ MAX_SENDERS) }
        ensures { IfOk result (λ r. IsLanesRunOf device steps.entry.now lists.entry.now r.0.engine r.1.items
            × (0 < readers → ShowsAll r.0))
            × IfErr result (IsDeviceFault (length lists.entry.now)) }
    {
        let made = run_device(rt, alloc, senders, device, steps, lists, readers);
        over.store(true, Ordering::SeqCst);
        made
    };
    let read = move || -> Result<Vec<(Monitor<J>, Seen)>, AllocError>
        requires { IsSync H.row }
        ensures { IfOk result (λ read. (length read.items ≡ length monitors.items)
            × All (λ r. AreTotalsOf r.0 r.1) read.items) }
    { read_all(rt, monitors, over) };
    // Where no thread can be made, `join` calls its first closure last: the run has ended before a monitor reads.
    let (read, made) = thread::join(rt, read, run);
    // The device is there until each monitor has read for the last time.
    let (device, rows) = made?;
    let seen = seen_of(alloc, &device, read?)?;
    Ok((device.into_engine(), rows, seen))
}

/// What the monitors of a device saw of its journal, which was shown to them, if there are any.
fn seen_of<J: BookName, X: Screen<Shown<J>> + Drop>(
    alloc: Global,
    device: &Device<J, X>,
    read: Vec<(Monitor<J>, Seen)>,
) -> Result<Vec<Seen>, SendersFault>
    requires saw { All (λ r. AreTotalsOf r.0 r.1) read.items }
    requires shown { 0 < length read.items → ShowsAll device.now }
    ensures number { IfOk result (λ seen. length seen.items ≡ length read.items) }
    ensures read { IfOk result (λ seen. seen.items ≡ map (λ r. r.1) read.items) }
    ensures each { IfOk result (λ seen. All (IsSeenOf device.now.engine.sched.standing.events) seen.items) }
    ensures fault { IfErr result (IsWatchingFault device.now.engine.sched.standing.events
        (map (λ r. r.1) read.items)) }
{
    if read.is_empty() {
        return Ok(Vec::new(alloc));
    }
    seen_of_journal(alloc, read, &device.receipt())
}

/// Has the packets of each list sent to its lane by a thread of its own and the other steps made by this one, and gives
/// the device and the rows of its lanes. Where somebody reads, the statistics are published at each dequeue of the
/// steps and at the end.
fn run_device<J: BookName, X: Screen<Shown<J>> + Drop, H: Threads + Sync>(
    rt: &H,
    alloc: Global,
    senders: Vec<LaneSender>,
    device: Device<J, X>,
    steps: &[Step],
    lists: &[Vec<Packet>],
    readers: usize,
) -> Result<(Device<J, X>, Vec<SenderRow>), SendersFault>
    requires lanes { AreLanesFor senders.items device.lanes lists.now }
    requires number { length lists.now ≤ MAX_SENDERS }
    ensures made { IfOk result (λ r. IsLanesRunOf device steps.now lists.now r.0.engine r.1.items) }
    ensures shown { 0 < readers → IfOk result (λ r. ShowsAll r.0) }
    ensures fault { IfErr result (IsDeviceFault (length lists.now)) }
{
    let gates = vec![in alloc; Open; lists.len()]?;
    let part = move || -> Result<Device<J, X>, SendersFault>
        ensures { IfOk result (λ d. IsSameDevice device d
            × HasServed (length device.lanes) device.engine.steps steps.entry.now d.engine.steps)
            × IfErr result (λ why. why ≡ senders_fault.Memory) }
    { device_part(device, steps, readers) };
    let (done, device) = start_lanes(rt, alloc, senders, lists, &gates, part)?;
    let mut device = device?;
    let rows = ended(alloc, &mut device, done)?;
    publish(&mut device, readers)?;
    device.engine().run_of_steps();
    Ok((device, rows))
}

/// The device's part: it makes the dequeues and closes of the steps, and gives the device back.
fn device_part<J: BookName, X: Screen<Shown<J>> + Drop>(
    device: Device<J, X>,
    steps: &[Step],
    readers: usize,
) -> Result<Device<J, X>, SendersFault>
    ensures same { IfOk result (λ d. IsSameDevice device d) }
    ensures rows { IfOk result (λ d. HasServed (length device.lanes) device.engine.steps steps.now d.engine.steps) }
    ensures shown { 0 < readers → IfOk result (λ d. ShowsRow steps.now (length steps.now) d) }
    ensures fault { IfErr result (λ why. why ≡ senders_fault.Memory) }
{
    let mut device = device;
    serve(&mut device, steps, readers)?;
    Ok(device)
}

/// Makes the dequeues and closes of the steps, in their order. Before each dequeue it takes packets from the lanes, and
/// publishes after it. The device's moment never falls, and a close after another one is passed over.
#[tactic(auto, using(crate::proofs::LaneRunLemmas::device_goes_on))]
fn serve<J: BookName, X: Screen<Shown<J>> + Drop>(
    device: &mut Device<J, X>,
    steps: &[Step],
    readers: usize,
) -> Result<(), SendersFault>
    ensures same { IsSameDevice device.old device.new }
    ensures rows { OnOk result (HasServed (length device.old.lanes) device.old.engine.steps steps.now
        device.new.engine.steps) }
    ensures shown { 0 < readers → OnOk result (ShowsRow steps.now (length steps.now) device.new) }
    ensures fault { IfErr result (λ why. why ≡ senders_fault.Memory) }
{
    let mut now = 0;
    for step in steps {
        now = serve_row(device, now, step, readers)?;
    }
    Ok(())
}

/// Makes a row of the trace, and answers the device's moment then.
#[tactic(auto, using(crate::proofs::LaneRunLemmas::device_goes_on))]
fn serve_row<J: BookName, X: Screen<Shown<J>> + Drop>(
    device: &mut Device<J, X>,
    now: u64,
    row: &Step,
    readers: usize,
) -> Result<u64, SendersFault>
    ensures same { IsSameDevice device.old device.new }
    ensures row { IfOk result (λ later. ServesRow (length device.old.lanes) now device.old.engine.steps row.now
        later device.new.engine.steps) }
    ensures shown { 0 < readers → (moment : ℕ) → row.now ≡ Dequeue moment → OnOk result (ShowsAll device.new) }
    ensures fault { IfErr result (λ why. why ≡ senders_fault.Memory) }
{
    match *row {
        Step::Enqueue { .. } => Ok(now),
        Step::Dequeue { moment } => {
            let now = device_moment(now, moment);
            pump_all(device, now)?;
            device.dequeue(now)?;
            publish(device, readers)?;
            Ok(now)
        }
        Step::Close { moment } => {
            let now = device_moment(now, moment);
            close(device, now)?;
            Ok(now)
        }
    }
}

/// Whether one of its steps is a close.
fn is_closed<J: BookName, X: Screen<Shown<J>> + Drop>(device: &Device<J, X>) -> bool
    ensures { result ≡ has_close device.now.engine.steps }
{
    let engine = device.engine();
    engine.run_of_steps();
    engine.is_closed()
}

/// The moment of its last step, and 0 before the first.
fn last_moment<J: BookName, X: Screen<Shown<J>> + Drop>(device: &Device<J, X>) -> u64
    ensures { result ≡ last_moment device.now.engine.steps }
{
    let engine = device.engine();
    engine.run_of_steps();
    engine.last_moment()
}

/// Publishes the statistics, unless nobody reads.
#[tactic(auto, using(crate::proofs::LaneRunLemmas::device_goes_on))]
fn publish<J: BookName, X: Screen<Shown<J>> + Drop>(
    device: &mut Device<J, X>,
    readers: usize,
) -> Result<(), PublishFault>
    ensures same { IsSameDevice device.old device.new }
    ensures engine { device.new.engine ≡ device.old.engine }
    ensures lanes { device.new.lanes ≡ device.old.lanes }
    ensures shown { 0 < readers → OnOk result (ShowsAll device.new) }
{
    if readers > 0 {
        device.publish()?;
    }
    Ok(())
}

/// Takes packets from each lane, by rising number, unless there was a close.
#[tactic(auto, using(crate::proofs::LaneRunLemmas::device_goes_on))]
fn pump_all<J: BookName, X: Screen<Shown<J>> + Drop>(
    device: &mut Device<J, X>,
    now: u64,
) -> Result<(), Refusal>
    ensures same { IsSameDevice device.old device.new }
    ensures pumped { OnOk result (PumpsAll IsBurst now device.old.engine.steps (length device.old.lanes)
        device.new.engine.steps) }
{
    if is_closed(device) {
        return Ok(());
    }
    for lane in 0..device.lanes() {
        pump(device, lane, now)?;
    }
    Ok(())
}

/// Takes packets from a lane, a burst at most, and answers how many.
fn pump<J: BookName, X: Screen<Shown<J>> + Drop>(
    device: &mut Device<J, X>,
    lane: u32,
    now: u64,
) -> Result<u64, Refusal>
    requires lane { lane < length device.old.lanes }
    ensures rest { device.new.published ≡ device.old.published }
    ensures pumped { IfOk result (λ k. Pumps (fed_of device.old) lane now k (fed_of device.new)) }
    ensures burst { IfOk result (λ k. k ≤ 64) }
    ensures left { IfOk result (λ k. TakesAllLeft device.old.lanes lane 64 k) }
    ensures room { IfOk result (λ k. device.new.engine.room ≡ max device.old.engine.room 64 - k) }
    ensures rings { rings_of device.new.lanes ≡ rings_of device.old.lanes }
    ensures fits { OnOk result (pump_refusal_of device.old.engine.sched.standing.state now 64 ≡ None) }
    ensures refused { IfErr result (IsRefusal (pump_refusal_of device.old.engine.sched.standing.state now 64)) }
    ensures unchanged { OnErr result (device.new ≡ device.old) }
{
    device.pump(lane, now, BURST)
}

/// Closes, unless there was a close.
#[tactic(auto, using(crate::proofs::LaneRunLemmas::device_goes_on))]
fn close<J: BookName, X: Screen<Shown<J>> + Drop>(
    device: &mut Device<J, X>,
    now: u64,
) -> Result<(), Refusal>
    ensures same { IsSameDevice device.old device.new }
    ensures accepted { (lane : ℕ) → accepted lane device.new.engine.sched.standing.events
        ≡ accepted lane device.old.engine.sched.standing.events }
    ensures closed { OnOk result (device.new.engine.steps ≡ closed_at now device.old.engine.steps) }
    ensures again { has_close device.old.engine.steps ≡ true → IsOk result }
{
    if is_closed(device) {
        return Ok(());
    }
    device.close(now)
}

/// What is done after the last row of a trace, and the rows of the lanes: the lanes are settled and emptied, and then
/// packets are taken until none is sent.
#[tactic(auto, using(crate::proofs::LaneRunLemmas::same_more))]
fn ended<J: BookName, X: Screen<Shown<J>> + Drop>(
    alloc: Global,
    device: &mut Device<J, X>,
    done: Vec<LaneDone>,
) -> Result<Vec<SenderRow>, SendersFault>
    requires number { (length done.items ≡ length device.old.lanes) × (length done.items ≤ MAX_SENDERS) }
    requires each { (i : ℕ) (d : _) → i < length done.items
        → FitsLane (rings_of device.old.lanes) i (slice_index_or done.items i d) }
    ensures same { IsSameDevice device.old device.new }
    ensures number { IfOk result (λ rows. length rows.items ≡ length done.items) }
    ensures rows { IfOk result (λ rows. (i : ℕ) (r : _) (d : _) → i < length done.items
        → IsLaneRow i (submitted_of (slice_index_or done.items i d).end) device.new.engine.sched.standing.events
        (slice_index_or rows.items i r)) }
    ensures done { OnOk result (All (λ d. (d.stop ≡ stop.Done) × (d.end ≢ None)) done.items) }
    ensures ends { OnOk result (EndsRun (length device.old.lanes) device.old.engine.steps device.new.engine.steps) }
    ensures idle { OnOk result ((moment : ℕ) × IsIdle moment device.new.engine) }
    ensures none_left { has_close device.old.engine.steps ≡ false
        → IfOk result (λ rows. All (λ row. row.left ≡ 0) rows.items) }
    ensures fault { IfErr result (IsEndingFault done.items) }
{
    let rows = rows_of(alloc, device, done)?;
    finish(device)?;
    Ok(rows)
}

/// The rows of the lanes, by rising number: each is settled, and then its packets are taken until none is left, unless
/// there was a close.
fn rows_of<J: BookName, X: Screen<Shown<J>> + Drop>(
    alloc: Global,
    device: &mut Device<J, X>,
    done: Vec<LaneDone>,
) -> Result<Vec<SenderRow>, SendersFault>
    requires number { (length done.items ≡ length device.old.lanes) × (length done.items ≤ MAX_SENDERS) }
    requires each { (i : ℕ) (d : _) → i < length done.items
        → FitsLane (rings_of device.old.lanes) i (slice_index_or done.items i d) }
    ensures same { IsSameDevice device.old device.new }
    ensures number { IfOk result (λ rows. length rows.items ≡ length done.items) }
    ensures rows { IfOk result (λ rows. (i : ℕ) (r : _) (d : _) → i < length done.items
        → IsLaneRow i (submitted_of (slice_index_or done.items i d).end) device.new.engine.sched.standing.events
        (slice_index_or rows.items i r)) }
    ensures done { OnOk result (All (λ d. (d.stop ≡ stop.Done) × (d.end ≢ None)) done.items) }
    ensures emptied { OnOk result (PumpsAll IsAny (last_moment device.old.engine.steps) device.old.engine.steps
        (length device.old.lanes) device.new.engine.steps) }
    ensures none_left { has_close device.old.engine.steps ≡ false
        → IfOk result (λ rows. All (λ row. row.left ≡ 0) rows.items) }
    ensures fault { IfErr result (IsEndingFault done.items) }
{
    let mut rows = Vec::new(alloc);
    let mut lane = 0;
    for one in done {
        rows.push(row_of(device, lane, one)?)?;
        lane += 1;
    }
    Ok(rows)
}

/// The row of a lane, to which its sender submitted all packets.
fn row_of<J: BookName, X: Screen<Shown<J>> + Drop>(
    device: &mut Device<J, X>,
    lane: u32,
    done: LaneDone,
) -> Result<SenderRow, SendersFault>
    requires lane { lane < length device.old.lanes }
    requires fits { FitsLane (rings_of device.old.lanes) lane done }
    ensures same { IsSameDevice device.old device.new }
    ensures row { IfOk result (IsLaneRow lane (submitted_of done.end) device.new.engine.sched.standing.events) }
    ensures done { OnOk result ((done.stop ≡ stop.Done) × (done.end ≢ None)) }
    ensures emptied { OnOk result (EmptiesLane lane device.old.engine.steps device.new.engine.steps) }
    ensures none_left { has_close device.old.engine.steps ≡ false → IfOk result (λ row. row.left ≡ 0) }
    ensures others { (i : ℕ) → i ≢ lane → accepted i device.new.engine.sched.standing.events
        ≡ accepted i device.old.engine.sched.standing.events }
    ensures fault { IfErr result (λ why. (why ≡ senders_fault.Memory) ⊎ IsEndless lane done why) }
{
    let LaneDone {
        submitted,
        stop: _,
        end,
    } = done;
    let Some(end) = end else {
        return Err(SendersFault::Lane(lane));
    };
    let left = device.settle_lane(lane, end);
    let left = emptied(device, lane, left)?;
    Ok(SenderRow {
        sender: lane,
        submitted,
        accepted: submitted - left,
        left,
    })
}

/// Takes the packets that are left in a settled lane, unless there was a close, and answers how many are left then.
fn emptied<J: BookName, X: Screen<Shown<J>> + Drop>(
    device: &mut Device<J, X>,
    lane: u32,
    left: u64,
) -> Result<u64, Refusal>
    requires lane { lane < length device.old.lanes }
    requires settled { (d : LaneView) → (slice_index_or device.old.lanes lane d).settled ≡ true }
    requires left { (d : LaneView) → left ≡ length (slice_index_or device.old.lanes lane d).known }
    ensures same { IsSameDevice device.old device.new }
    ensures left { IfOk result (λ n. (d : LaneView) → n ≡ length (slice_index_or device.new.lanes lane d).known) }
    ensures taken { (d : LaneView) → accepted lane device.new.engine.sched.standing.events
        ++ (slice_index_or device.new.lanes lane d).known
        ≡ accepted lane device.old.engine.sched.standing.events ++ (slice_index_or device.old.lanes lane d).known }
    ensures others { (i : ℕ) → i ≢ lane → accepted i device.new.engine.sched.standing.events
        ≡ accepted i device.old.engine.sched.standing.events }
    ensures emptied { OnOk result (EmptiesLane lane device.old.engine.steps device.new.engine.steps) }
    ensures none_left { has_close device.old.engine.steps ≡ false → IfOk result (λ n. n ≡ 0) }
{
    if is_closed(device) {
        return Ok(left);
    }
    let now = last_moment(device);
    let mut left = left;
    while left > 0 {
        left -= pump(device, lane, now)?;
    }
    Ok(left)
}

/// Closes, unless there was a close, and takes packets at the last moment until none is sent.
#[tactic(auto, using(crate::proofs::LaneRunLemmas::device_goes_on))]
fn finish<J: BookName, X: Screen<Shown<J>> + Drop>(device: &mut Device<J, X>) -> Result<(), Refusal>
    ensures same { IsSameDevice device.old device.new }
    ensures accepted { (lane : ℕ) → accepted lane device.new.engine.sched.standing.events
        ≡ accepted lane device.old.engine.sched.standing.events }
    ensures steps { OnOk result (Finishes device.old.engine.steps device.new.engine.steps) }
    ensures idle { OnOk result (IsIdle (last_moment device.old.engine.steps) device.new.engine) }
{
    let now = last_moment(device);
    close(device, now)?;
    empty(device, now)
}

/// Takes packets until none is sent.
fn empty<J: BookName, X: Screen<Shown<J>> + Drop>(
    device: &mut Device<J, X>,
    now: u64,
) -> Result<(), Refusal>
    ensures same { IsSameDevice device.old device.new }
    ensures accepted { (lane : ℕ) → accepted lane device.new.engine.sched.standing.events
        ≡ accepted lane device.old.engine.sched.standing.events }
    ensures steps { OnOk result (Dequeues now device.old.engine.steps device.new.engine.steps) }
    ensures idle { OnOk result (IsIdle now device.new.engine) }
{
    let totals = device.engine().totals();
    for _packet in 0..totals.accepted - totals.sent {
        if device.dequeue(now)?.is_none() {
            return Ok(());
        }
    }
    // Every packet that was accepted was sent.
    device.dequeue(now)?;
    let totals = device.engine().totals();
    prove!(totals.sent <= totals.accepted);
    Ok(())
}
