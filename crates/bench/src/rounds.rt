//! The rounds of a workload, which are what is timed.
//!
//! What a round has beside the device's calls is merged into its loop: a packet is lent, and copied once, into the
//! call.

ghost use Rattle.std.specs.Prelude.{◌≡◌, ◌+◌, ◌<◌, [], IfSome, IsNone, if◌then◌else◌, length, nat_lt, slice_get};

use crate::device::{Device, Refused};
use crate::receiver::Receiver;
use crate::timing::START;
use crate::workload::{Round, Workload};
use packet_core::Packet;

/// Packets that come in turn, over and over.
#[derive(Debug, Drop)]
pub struct Traffic<'a> {
    packets: &'a [Packet],
    next: usize,
    ghost in_range: { next < length packets.now },
}

impl<'a> Traffic<'a> {
    /// These packets, from the first one on, if there is one.
    pub fn over(packets: &'a [Packet]) -> Option<Traffic<'a>>
        ensures packets { IfSome result (λ t. t.packets.now ≡ packets.now) }
        ensures first { IfSome result (λ t. t.next ≡ 0) }
        ensures none { IsNone result → packets.now ≡ [] }
    {
        if packets.is_empty() {
            return None;
        }
        Some(Traffic { packets, next: 0 })
    }

    /// The next packet. The first one comes after the last one.
    #[inline(always)]
    fn packet(&mut self) -> &'a Packet
        ensures packet { slice_get self.old.packets.now self.old.next ≡ Some result.now }
        ensures next { self.new.next
            ≡ (if nat_lt (self.old.next + 1) (length self.old.packets.now) then self.old.next + 1 else 0) }
        ensures packets { self.new.packets.now ≡ self.old.packets.now }
    {
        let packet = &self.packets[self.next];
        let after = self.next + 1;
        self.next = if after < self.packets.len() { after } else { 0 };
        packet
    }
}

/// The moments of the rounds.
#[derive(Clone, Copy, Debug)]
struct Moments {
    nanoseconds: u64,
    step: u64,
}

impl Moments {
    /// The moments that begin at the start of a workload's rounds.
    fn of(workload: &Workload) -> Moments {
        Moments {
            nanoseconds: START,
            step: u64::from(workload.step),
        }
    }

    /// The moment of the next round, in microseconds.
    #[inline(always)]
    fn tick(&mut self) -> u64 {
        self.nanoseconds = self.nanoseconds.wrapping_add(self.step);
        self.nanoseconds / 1_000
    }
}

/// The packets that come before the first round: those that wait in each flow, and in an overload as many as there is
/// room for.
pub fn fill<D: Device>(
    device: &mut D,
    traffic: &mut Traffic<'_>,
    workload: &Workload,
) -> Result<(), Refused> {
    let packets = match workload.round {
        Round::EnqueueDequeue | Round::RefillDequeue => workload.waiting_in_all(),
        Round::Enqueue | Round::TwoEnqueuesDequeue => {
            u64::from(workload.limit).max(workload.waiting_in_all())
        }
    };
    for _ in 0..packets {
        enqueue(device, traffic, START / 1_000)?;
    }
    Ok(())
}

/// All rounds of a workload, with the sum that a receiver read. There is a loop for each kind of round, so that the kind
/// isn't asked in the time that is measured.
pub fn rounds<D: Device, C: Receiver>(
    device: &mut D,
    traffic: Traffic<'_>,
    workload: &Workload,
) -> Result<u64, Refused> {
    match workload.round {
        Round::EnqueueDequeue => enqueues_and_dequeues::<D, C>(device, traffic, workload),
        Round::RefillDequeue => refills_and_dequeues::<D, C>(device, traffic, workload),
        Round::Enqueue => enqueues::<D>(device, traffic, workload),
        Round::TwoEnqueuesDequeue => overloads::<D, C>(device, traffic, workload),
    }
}

/// Rounds of one enqueue and one dequeue.
#[inline(never)]
fn enqueues_and_dequeues<D: Device, C: Receiver>(
    device: &mut D,
    traffic: Traffic<'_>,
    workload: &Workload,
) -> Result<u64, Refused> {
    let mut traffic = traffic;
    let mut receiver = C::new();
    let mut moments = Moments::of(workload);
    for _ in 0..workload.rounds {
        let moment = moments.tick();
        enqueue(device, &mut traffic, moment)?;
        device.dequeue(moment, &mut receiver)?;
    }
    Ok(receiver.sum())
}

/// Rounds of enqueues until one packet more waits than before the rounds, and one dequeue.
#[inline(never)]
fn refills_and_dequeues<D: Device, C: Receiver>(
    device: &mut D,
    traffic: Traffic<'_>,
    workload: &Workload,
) -> Result<u64, Refused> {
    let mut traffic = traffic;
    let mut receiver = C::new();
    let mut moments = Moments::of(workload);
    let filled = workload.waiting_in_all().saturating_add(1);
    for _ in 0..workload.rounds {
        let moment = moments.tick();
        for _ in device.queued()..filled {
            enqueue(device, &mut traffic, moment)?;
        }
        device.dequeue(moment, &mut receiver)?;
    }
    Ok(receiver.sum())
}

/// Rounds of one enqueue. Nothing comes out.
#[inline(never)]
fn enqueues<D: Device>(
    device: &mut D,
    traffic: Traffic<'_>,
    workload: &Workload,
) -> Result<u64, Refused> {
    let mut traffic = traffic;
    let mut moments = Moments::of(workload);
    for _ in 0..workload.rounds {
        enqueue(device, &mut traffic, moments.tick())?;
    }
    Ok(0)
}

/// Rounds of two enqueues and one dequeue.
#[inline(never)]
fn overloads<D: Device, C: Receiver>(
    device: &mut D,
    traffic: Traffic<'_>,
    workload: &Workload,
) -> Result<u64, Refused> {
    let mut traffic = traffic;
    let mut receiver = C::new();
    let mut moments = Moments::of(workload);
    for _ in 0..workload.rounds {
        let moment = moments.tick();
        enqueue(device, &mut traffic, moment)?;
        enqueue(device, &mut traffic, moment)?;
        device.dequeue(moment, &mut receiver)?;
    }
    Ok(receiver.sum())
}

/// The next packet comes, at a moment in microseconds.
#[inline(always)]
fn enqueue<D: Device>(
    device: &mut D,
    traffic: &mut Traffic<'_>,
    moment: u64,
) -> Result<(), Refused> {
    device.enqueue(moment, *traffic.packet())
}
