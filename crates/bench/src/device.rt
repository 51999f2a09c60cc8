//! What the steps of a workload go through: a scheduler, an engine, or an engine behind a lock.
//!
//! Each call is merged into the loop that makes it, so that the timed rounds have the device's own calls alone.

use crate::receiver::Receiver;
use packet_core::Packet;
use port_core::{LockedPort, PortSeat};
use sched_core::{Engine, Event, Recorder, Sched};
use std::sync::Wait;
use std::sync::ledger::Ledger;

/// A step was refused. It is empty, so that the timed rounds carry no larger answer along.
#[derive(Clone, Copy, Debug)]
pub struct Refused;

/// What takes packets and gives them, each at a moment in microseconds.
pub trait Device {
    /// A packet comes.
    fn enqueue(&mut self, moment: u64, packet: Packet) -> Result<(), Refused>;

    /// A packet goes to a receiver, where one waits.
    fn dequeue<C: Receiver>(&mut self, moment: u64, receiver: &mut C) -> Result<(), Refused>;

    /// How many packets wait.
    fn queued(&mut self) -> u64;
}

impl<K: Recorder> Device for Sched<K> {
    #[inline(always)]
    fn enqueue(&mut self, moment: u64, packet: Packet) -> Result<(), Refused> {
        if self.enqueue(moment, 0, packet).is_err() {
            return Err(Refused);
        }
        Ok(())
    }

    #[inline(always)]
    fn dequeue<C: Receiver>(&mut self, moment: u64, receiver: &mut C) -> Result<(), Refused> {
        match &self.dequeue(moment) {
            Ok(Some(sent)) => receiver.receive(sent),
            Ok(None) => {}
            Err(_) => return Err(Refused),
        }
        Ok(())
    }

    #[inline(always)]
    fn queued(&mut self) -> u64 {
        Sched::queued(self)
    }
}

impl Device for Engine {
    #[inline(always)]
    fn enqueue(&mut self, moment: u64, packet: Packet) -> Result<(), Refused> {
        if self.enqueue(moment, 0, packet).is_err() {
            return Err(Refused);
        }
        Ok(())
    }

    #[inline(always)]
    fn dequeue<C: Receiver>(&mut self, moment: u64, receiver: &mut C) -> Result<(), Refused> {
        match &self.dequeue(moment) {
            Ok(Some(sent)) => receiver.receive(sent),
            Ok(None) => {}
            Err(_) => return Err(Refused),
        }
        Ok(())
    }

    #[inline(always)]
    fn queued(&mut self) -> u64 {
        Engine::queued(self)
    }
}

/// A locked port by its one seat.
#[derive(Drop)]
pub struct OnPort<A: Ledger, S: Ledger, R: Wait + Drop> {
    /// The runtime, which waits for the lock.
    pub rt: R,
    /// The port.
    pub port: LockedPort<A, S>,
    /// The seat.
    pub seat: PortSeat<A, S>,
}

impl<A: Ledger, S: Ledger, R: Wait + Drop> OnPort<A, S, R> {
    /// A port by the last of these seats, if there is one.
    pub fn new(
        rt: R,
        port: LockedPort<A, S>,
        mut seats: Vec<PortSeat<A, S>>,
    ) -> Option<OnPort<A, S, R>> {
        let seat = seats.pop()?;
        Some(OnPort { rt, port, seat })
    }
}

impl<A: Ledger, S: Ledger, R: Wait + Drop> Device for OnPort<A, S, R> {
    #[inline(always)]
    fn enqueue(&mut self, moment: u64, packet: Packet) -> Result<(), Refused> {
        if self
            .port
            .enqueue(&self.rt, &mut self.seat, moment, packet)
            .is_err()
        {
            return Err(Refused);
        }
        Ok(())
    }

    #[inline(always)]
    fn dequeue<C: Receiver>(&mut self, moment: u64, receiver: &mut C) -> Result<(), Refused> {
        match &self.port.dequeue(&self.rt, &mut self.seat, moment) {
            Ok(Some(sent)) => receiver.receive(sent),
            Ok(None) => {}
            Err(_) => return Err(Refused),
        }
        Ok(())
    }

    #[inline(always)]
    fn queued(&mut self) -> u64 {
        self.port.totals(&self.rt, &mut self.seat).queued
    }
}
