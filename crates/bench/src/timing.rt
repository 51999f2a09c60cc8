//! How long the rounds of a workload take.

ghost use Rattle.std.specs.Prelude.{◌≡◌, [], IfOk, vec_len};
ghost use Rattle.bench.specs.Traffic.{GoesTo, GoInTurn};
ghost use Rattle.packet_core.specs.Params.{standard_fields};

use crate::device::{Device, OnPort, Refused};
use crate::receiver::{Reading, Unread};
use crate::rounds::{Traffic, fill, rounds};
use crate::times::{Times, no_times};
use crate::workload::{Outgoing, Recording, Through, Workload};
use packet_core::{
    Ecn, FiveTuple, Ip, LengthOutOfRange, Packet, ParamFields, ParamName, Params, Seed,
};
use port_core::LockedPort;
use sched_core::{Engine, EventList, NullRecorder, Recorder, Sched};
use std::alloc::{AllocError, AllocFailed, Global};
use std::io;
use std::marker::Brand;
use std::rt::Clock;
use std::sync::Wait;
use std::sync::ledger::{Blank, Ledger};
use std::time::Instant;
use thiserror::Error;

/// The moment of the first round, in nanoseconds: ten seconds.
pub const START: u64 = 10_000_000_000;

/// The seed of every scheduler.
pub const SEED: Seed = Seed([0; 16]);

/// The length of each packet, in bytes.
const PACKET_BYTES: u32 = 1_000;

/// Why nothing was measured.
#[derive(Debug, Drop, Error)]
pub enum Fault {
    /// There is no workload of that name.
    #[error("no such workload")]
    UnknownWorkload,
    /// There is no such word with two dashes.
    #[error("no such setting")]
    UnknownSetting,
    /// The clock or the output failed.
    #[error("{0}")]
    Io(io::Error),
    /// A growth was refused.
    #[error("memory")]
    Memory,
    /// A step was refused.
    #[error("a step was refused")]
    Refused,
    /// The workload's own numbers are out of range.
    #[error("a number of the workload is out of range")]
    OutOfRange,
}

impl From<io::Error> for Fault {
    fn from(error: io::Error) -> Fault {
        Fault::Io(error)
    }
}

impl From<AllocError> for Fault {
    fn from(_: AllocError) -> Fault {
        Fault::Memory
    }
}

impl<T: Drop> From<AllocFailed<T>> for Fault {
    fn from(_: AllocFailed<T>) -> Fault {
        Fault::Memory
    }
}

impl From<Refused> for Fault {
    fn from(_: Refused) -> Fault {
        Fault::Refused
    }
}

impl From<ParamName> for Fault {
    fn from(_: ParamName) -> Fault {
        Fault::OutOfRange
    }
}

impl From<LengthOutOfRange> for Fault {
    fn from(_: LengthOutOfRange) -> Fault {
        Fault::OutOfRange
    }
}

/// The packets of a workload, one to each busy flow, the first flow's first. They are made before the clock runs.
fn packets_of(alloc: Global, workload: &Workload) -> Result<Vec<Packet>, Fault>
    ensures count { IfOk result (λ p. vec_len p ≡ workload.now.busy) }
    ensures each { IfOk result (λ p. GoInTurn workload.now.ecn p.items) }
{
    let mut packets = Vec::new(alloc);
    for flow in 0..workload.busy {
        let Ok(port) = u16::try_from(flow) else {
            return Err(Fault::OutOfRange);
        };
        if packets.push(packet_to(port, workload.ecn)?).is_err() {
            return Err(Fault::Memory);
        }
    }
    Ok(packets)
}

/// A packet to a flow.
pub fn packet_to(flow: u16, ecn: Ecn) -> Result<Packet, LengthOutOfRange>
    ensures { IfOk result (λ p. GoesTo flow ecn p) }
{
    let tuple = FiveTuple {
        proto: 17,
        src: Ip::V4([10, 0, 0, 1]),
        dst: Ip::V4([10, 0, 0, 2]),
        sport: 5_000,
        dport: flow,
    };
    Packet::try_new(tuple, PACKET_BYTES, ecn)
}

/// What the rounds of a workload took, and what was read in them.
#[derive(Clone, Copy, Debug)]
pub struct Measured {
    /// The times of the repetitions.
    pub times: Times,
    /// The sum that the last repetition's receiver read.
    pub sum: u64,
}

/// What the rounds took once, and what was read in them.
#[derive(Clone, Copy, Debug)]
struct Timed {
    nanoseconds: u128,
    sum: u64,
}

/// What the rounds took, each time with a new scheduler.
///
/// Nothing here touches memory for the rounds ahead, so what they write is fresh or not as the allocator has it. Minor
/// page faults between the two looks at the clock say which. They were counted for each repetition, with glibc 2.36 and
/// its own settings, on pages of 4 KiB:
///
/// - 1,000,000 rounds: 35,000 to 36,600 in every repetition, which is all of the journal, 144 bytes a round. Its block
///   grows past 32 MiB, where glibc maps a block of its own, moves it as it grows, and unmaps it after. With three
///   steps a round, or an engine, which stores its steps too, there are 1.9 to 2.4 times as many.
/// - 100,000 rounds: some 3,500 in each of the first two repetitions, and then hardly any: the block stays below
///   32 MiB, and once one of its size was freed, glibc takes the next from the heap.
/// - Not so where a workload says that its memory is fresh: some 7,050 in every repetition of `overflow_2to1` and
///   3,515 of `many_of_65536`, whose blocks are larger, and 9,700 or more of `unlocked` and `locked`, which leave so
///   much free at the heap's end that glibc gives it back. With `MALLOC_MMAP_MAX_=0` and
///   `MALLOC_TRIM_THRESHOLD_=17179869184` in the environment these have hardly any from the third on, too.
/// - A journal that stores no event: hardly any, in however many rounds.
pub fn times_of_rounds<R: AllocGlobal + Clock + Wait + Clone + Drop>(
    rt: &R,
    workload: &Workload,
) -> Result<Measured, Fault> {
    let mut times = no_times(rt.alloc(), workload.repetitions)?;
    let mut sum = 0;
    for _ in 0..workload.repetitions {
        let timed = run_once(rt, workload)?;
        times.push(timed.nanoseconds)?;
        sum = timed.sum;
    }
    let times = Times::of(times).ok_or(Fault::OutOfRange)?;
    Ok(Measured { times, sum })
}

/// The rounds once.
fn run_once<R: AllocGlobal + Clock + Wait + Clone + Drop>(
    rt: &R,
    workload: &Workload,
) -> Result<Timed, Fault> {
    match workload.through {
        Through::Sched(Recording::Stored) => {
            run_with_recorder(rt, workload, EventList::new(rt.alloc()))
        }
        Through::Sched(Recording::Unstored) => run_with_recorder(rt, workload, NullRecorder::new()),
        Through::Engine => {
            let mut engine = Engine::try_new(rt.alloc(), params_of(workload)?, SEED)?;
            run_through(rt, workload, &mut engine)
        }
        Through::LockedPort => {
            run_locked::<Brand, Brand, _>(rt, workload, Blank::new(1), Blank::new(1))
        }
    }
}

/// The same through a scheduler over that recorder.
fn run_with_recorder<R: AllocGlobal + Clock, K: Recorder>(
    rt: &R,
    workload: &Workload,
    recorder: K,
) -> Result<Timed, Fault>
    requires untold { K.told recorder ≡ [] }
    requires none_sent { K.sent recorder ≡ [] }
    requires no_loss { K.lost recorder ≡ [] }
    requires made_for { K.made_for recorder ≡ record { packets = 0; numbers = [] } }
{
    let mut sched = Sched::try_with_recorder(rt.alloc(), params_of(workload)?, SEED, recorder)?;
    run_through(rt, workload, &mut sched)
}

/// The same through a port of one seat with these ledgers.
fn run_locked<A: Ledger, S: Ledger, R: AllocGlobal + Clock + Wait + Clone + Drop>(
    rt: &R,
    workload: &Workload,
    accepted: Blank,
    sent: Blank,
) -> Result<Timed, Fault>
    requires accepted { (accepted.name ≡ A.name) × (accepted.parts ≡ A.parts) × (A.parts ≡ 1) }
    requires sent { (sent.name ≡ S.name) × (sent.parts ≡ S.parts) × (S.parts ≡ 1) }
{
    let params = params_of(workload)?;
    let own = rt.clone()?;
    let (port, seats) = LockedPort::<A, S>::start(rt.alloc(), params, SEED, 1, accepted, sent)?;
    match OnPort::new(own, port, seats) {
        Some(mut device) => run_through(rt, workload, &mut device),
        None => Err(Fault::Refused),
    }
}

/// The same through a device that has made no step. What makes the packets and fills the queues before isn't counted.
fn run_through<R: AllocGlobal + Clock, D: Device>(
    rt: &R,
    workload: &Workload,
    device: &mut D,
) -> Result<Timed, Fault> {
    let packets = packets_of(rt.alloc(), workload)?;
    let mut traffic = Traffic::over(&packets).ok_or(Fault::OutOfRange)?;
    fill(device, &mut traffic, workload)?;
    let begun = now(rt);
    let made = match workload.outgoing {
        Outgoing::Left => rounds::<D, Unread>(device, traffic, workload),
        Outgoing::Read => rounds::<D, Reading>(device, traffic, workload),
    };
    let nanoseconds = nanoseconds_since(rt, begun, made.is_ok())?;
    Ok(Timed {
        nanoseconds,
        sum: made?,
    })
}

/// The moment, by the clock.
pub fn now<R: Clock>(rt: &R) -> Result<Instant, Fault> {
    Ok(Instant::now(rt)?)
}

/// The time since then in nanoseconds, where what was timed was done. Whoever owns a scheduler, an engine or a port
/// calls it last, with what may fail: each way out of a function drops all that it owns, and the proof of it is as
/// long.
pub fn nanoseconds_since<R: Clock>(
    rt: &R,
    begun: Result<Instant, Fault>,
    is_done: bool,
) -> Result<u128, Fault> {
    let elapsed = begun?.elapsed(rt)?;
    if !is_done {
        return Err(Fault::Refused);
    }
    Ok(elapsed.as_nanos())
}

/// The workload's parameters, and otherwise the standard ones.
fn params_of(workload: &Workload) -> Result<Params, ParamName>
    ensures { IfOk result (λ p. p ≡ record standard_fields {
      limit = workload.now.limit;
      flows = workload.now.flows;
      ecn = workload.now.ecn_use;
      classify = workload.now.classify;
    }) }
{
    Params::try_new(ParamFields {
        limit: workload.limit,
        flows: workload.flows,
        ecn: workload.ecn_use,
        classify: workload.classify,
        ..ParamFields::standard()
    })
}
