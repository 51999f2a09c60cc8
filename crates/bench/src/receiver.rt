//! Who takes the packets that come out of a device.

use sched_core::Sent;

/// What takes the packets that come out.
pub trait Receiver: Copy {
    /// One that took none yet.
    fn new() -> Self;

    /// A packet came out.
    fn receive(&mut self, sent: &Sent);

    /// The sum of what it read.
    fn sum(&self) -> u64;
}

/// One that reads nothing: the rounds have the calls alone.
#[derive(Clone, Copy, Debug)]
pub struct Unread;

impl Receiver for Unread {
    #[inline(always)]
    fn new() -> Unread {
        Unread
    }

    #[inline(always)]
    fn receive(&mut self, _: &Sent) {}

    #[inline(always)]
    fn sum(&self) -> u64 {
        0
    }
}

/// One that reads each packet's id, length and ECN field, as a device that sends it has to. Their sum is kept, so that
/// no compiler leaves the reading out.
#[derive(Clone, Copy, Debug)]
pub struct Reading {
    sum: u64,
}

impl Receiver for Reading {
    #[inline(always)]
    fn new() -> Reading {
        Reading { sum: 0 }
    }

    #[inline(always)]
    fn receive(&mut self, sent: &Sent) {
        let read = u64::from(sent.packet.len()) + u64::from(sent.packet.ecn() as u8);
        self.sum = self.sum.wrapping_add(sent.id).wrapping_add(read);
    }

    #[inline(always)]
    fn sum(&self) -> u64 {
        self.sum
    }
}
