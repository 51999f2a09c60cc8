//! A locked port, by one thread.

ghost use Rattle.std.specs.Prelude.{◌≡◌};

use crate::calls::Memory::{EnqueueRooms, Keeps, Takes};
use crate::calls::{Answer, Calls, Row, Subject, compared};
use crate::pictures::first_of;
use crate::recorders::{take, take_steps};
use crate::steps::{admitted, gave, has_room};
use crate::values::{SEED, Values};
use packet_core::Packet;
use port_core::{LockedPort, Open, PortSeat, Stop, send_locked};
use sched_core::{Event, EventList, Refusal, StepList, Totals};
use std::marker::Brand;
use std::sync::Wait;
use std::sync::ledger::{Blank, Ledger};

/// So many packets come, and as many are sent by a sender.
const PACKETS: u64 = 5;

/// So many more come to a port over lists with memory, once there is room for them.
const MORE: u64 = 35;

/// What comes after the close is refused.
const CLOSED: Refusal = Refusal::ClosedAlready;

/// A call, and what it is answered.
#[derive(Clone, Copy)]
enum Call {
    /// An enqueue at that moment, and the packet's id.
    Enqueue(u64, Result<u64, Refusal>),
    /// So many enqueues at that moment, each of them accepted.
    Enqueues(u64, u64),
    /// The seat takes memory for so many packets more.
    Reserve(u64),
    /// A dequeue at that moment, and the id of the packet that it gives.
    Dequeue(u64, Result<Option<u64>, Refusal>),
    /// A close at that moment.
    Close(u64, Result<u64, Refusal>),
    /// The seat was told of so many acceptances, and so many packets were sent to it.
    Seat(u64, u64),
}

/// Packets come one by one, and go.
static COMES_AND_GOES: [Row<'static, Call>; 10] = [
    (Takes, Call::Enqueue(0, Ok(0)), "LockedPort::enqueue"),
    (Takes, Call::Enqueue(1, Ok(1)), "LockedPort::enqueue"),
    (Takes, Call::Enqueue(2, Ok(2)), "LockedPort::enqueue"),
    (Takes, Call::Enqueue(3, Ok(3)), "LockedPort::enqueue"),
    (Takes, Call::Enqueue(4, Ok(4)), "LockedPort::enqueue"),
    (Takes, Call::Dequeue(5, Ok(Some(0))), "LockedPort::dequeue"),
    (Takes, Call::Dequeue(5, Ok(Some(1))), "LockedPort::dequeue"),
    (Takes, Call::Dequeue(5, Ok(Some(2))), "LockedPort::dequeue"),
    (Takes, Call::Dequeue(5, Ok(Some(3))), "LockedPort::dequeue"),
    (Takes, Call::Dequeue(5, Ok(Some(4))), "LockedPort::dequeue"),
];

/// The port is closed. After that a packet is refused, and so is another close, and all is as before.
static CLOSES: [Row<'static, Call>; 4] = [
    (Takes, Call::Close(5, Ok(5)), "LockedPort::close"),
    (
        Keeps,
        Call::Enqueue(5, Err(CLOSED)),
        "LockedPort::enqueue after LockedPort::close",
    ),
    (
        Keeps,
        Call::Close(5, Err(CLOSED)),
        "LockedPort::close once more",
    ),
    (EnqueueRooms, Call::Seat(10, 5), "PortSeat"),
];

/// Packets come and go at a port over lists with memory for these steps, and it is closed. The first enqueue takes
/// memory for several packets. A seat that was told of packets has memory for as many more as it reserves.
static QUIET: [Row<'static, Call>; 11] = [
    (Takes, Call::Enqueue(0, Ok(0)), ENQUEUE_IN_ROOM),
    (EnqueueRooms, Call::Enqueue(1, Ok(1)), ENQUEUE_IN_ROOM),
    (EnqueueRooms, Call::Enqueue(2, Ok(2)), ENQUEUE_IN_ROOM),
    (EnqueueRooms, Call::Enqueue(3, Ok(3)), ENQUEUE_IN_ROOM),
    (EnqueueRooms, Call::Enqueue(4, Ok(4)), ENQUEUE_IN_ROOM),
    (Takes, Call::Reserve(MORE), "PortSeat::reserve"),
    (EnqueueRooms, Call::Enqueues(4, MORE), ENQUEUE_IN_ROOM),
    (EnqueueRooms, Call::Dequeue(5, Ok(Some(0))), DEQUEUE_IN_ROOM),
    (EnqueueRooms, Call::Dequeue(5, Ok(Some(1))), DEQUEUE_IN_ROOM),
    (
        EnqueueRooms,
        Call::Close(5, Ok(5)),
        "LockedPort::close over lists with memory",
    ),
    (EnqueueRooms, Call::Seat(PACKETS + MORE, 2), "PortSeat"),
];

/// The name of an enqueue there.
const ENQUEUE_IN_ROOM: &str = "LockedPort::enqueue over lists with memory";

/// The name of a dequeue there.
const DEQUEUE_IN_ROOM: &str = "LockedPort::dequeue over lists with memory";

/// The lists have memory for so many events and steps: a scheduler takes memory for those of 64 packets at once.
const ROOM: usize = 256;

/// A port is started with ledgers, which don't come back where memory is refused, and then with others.
pub(crate) fn locked<R: Wait>(rt: &R, values: &Values, calls: &mut Calls<'_>) {
    starts(rt, values, false, calls);
}

/// The same of a port over lists with memory.
pub(crate) fn quiet<R: Wait>(rt: &R, values: &Values, calls: &mut Calls<'_>) {
    starts(rt, values, true, calls);
}

/// The same of either.
fn starts<R: Wait>(rt: &R, values: &Values, is_quiet: bool, calls: &mut Calls<'_>) {
    let (accepted, sent) = (Blank::new(1), Blank::new(1));
    if !started::<Brand, Brand, _>(rt, values, is_quiet, calls, accepted, sent) {
        calls.note();
        let (accepted, sent) = (Blank::new(1), Blank::new(1));
        let again = started::<Brand, Brand, _>(rt, values, is_quiet, calls, accepted, sent);
        calls.wanted(again, "LockedPort::start");
    }
}

/// Starts a port and makes its calls. It answers whether it was started.
fn started<A: Ledger, S: Ledger, R: Wait>(
    rt: &R,
    values: &Values,
    is_quiet: bool,
    calls: &mut Calls<'_>,
    accepted: Blank,
    sent: Blank,
) -> bool
    requires accepted { (accepted.name ≡ A.name) × (accepted.parts ≡ A.parts) × (A.parts ≡ 1) }
    requires sent { (sent.name ≡ S.name) × (sent.parts ≡ S.parts) × (S.parts ≡ 1) }
{
    let Values { alloc, params, .. } = *values;
    let port = if is_quiet {
        let (mut events, mut steps) = (EventList::new(alloc), StepList::new(alloc));
        take(&mut events, ROOM, calls);
        take_steps(&mut steps, ROOM, calls);
        LockedPort::<A, S>::start_with_recorders(
            alloc, params, SEED, 1, accepted, sent, events, steps,
        )
    } else {
        LockedPort::<A, S>::start(alloc, params, SEED, 1, accepted, sent)
    };
    match port {
        Ok((port, seats)) => {
            let mut seats = seats;
            if is_quiet {
                make_room(&mut seats, calls);
            }
            port_calls(rt, &port, seats, is_quiet, values.packet, calls);
            true
        }
        Err(_) => false,
    }
}

/// Each seat takes memory for the first packets. Where it is refused it is taken once more.
fn make_room<A: Ledger, S: Ledger>(seats: &mut [PortSeat<A, S>], calls: &mut Calls<'_>) {
    for seat in 0..seats.len() {
        if seats[seat].reserve(PACKETS as usize).is_err() {
            calls.note();
            let again = seats[seat].reserve(PACKETS as usize);
            calls.wanted(again.is_ok(), "PortSeat::reserve");
        }
    }
}

/// Packets come and go, some are sent by a sender, and the port is closed. Where room was taken no sender sends.
fn port_calls<A: Ledger, S: Ledger, R: Wait>(
    rt: &R,
    port: &LockedPort<A, S>,
    seats: Vec<PortSeat<A, S>>,
    is_quiet: bool,
    packet: Packet,
    calls: &mut Calls<'_>,
) {
    let mut seats = seats;
    match seats.pop() {
        Some(seat) if is_quiet => {
            plays(rt, port, seat, packet, &QUIET, calls);
        }
        Some(seat) => {
            let seat = plays(rt, port, seat, packet, &COMES_AND_GOES, calls);
            let seat = sent_through(rt, port, seat, packet, calls);
            plays(rt, port, seat, packet, &CLOSES, calls);
        }
        None => calls.wanted(false, "LockedPort::start"),
    }
}

/// Makes the calls by that seat.
fn plays<'a, A: Ledger, S: Ledger, R: Wait>(
    rt: &R,
    port: &LockedPort<A, S>,
    seat: PortSeat<A, S>,
    packet: Packet,
    rows: &[Row<'a, Call>],
    calls: &mut Calls<'a>,
) -> PortSeat<A, S> {
    let mut at = AtPort { rt, port, seat };
    calls.makes(&mut at, packet, rows);
    let AtPort {
        rt: _,
        port: _,
        seat,
    } = at;
    seat
}

/// A port, by its one seat.
struct AtPort<'a, A: Ledger, S: Ledger, R: Wait> {
    rt: &'a R,
    port: &'a LockedPort<A, S>,
    seat: PortSeat<A, S>,
}

impl<A: Ledger, S: Ledger, R: Wait> Subject for AtPort<'_, A, S, R> {
    type Call = Call;

    /// What the seat was told and given, and the statistics.
    type Picture = ([Option<Event>; 24], u64, u64, Totals);

    fn picture(&mut self) -> ([Option<Event>; 24], u64, u64, Totals) {
        let totals = self.port.totals(self.rt, &mut self.seat);
        let told = first_of(self.seat.told());
        (told, self.seat.accepted(), self.seat.sent(), totals)
    }

    fn answer(&mut self, call: Call, packet: Packet) -> Answer {
        match call {
            Call::Enqueue(moment, wanted) => {
                let answer = self.port.enqueue(self.rt, &mut self.seat, moment, packet);
                compared(answer, admitted(moment, wanted))
            }
            Call::Enqueues(moment, many) => {
                let before = self.seat.accepted();
                for _ in 0..many {
                    let _ = self.port.enqueue(self.rt, &mut self.seat, moment, packet);
                }
                Answer::of(self.seat.accepted() == before.saturating_add(many))
            }
            Call::Reserve(packets) => has_room(self.seat.reserve(packets as usize)),
            Call::Dequeue(moment, wanted) => {
                gave(self.port.dequeue(self.rt, &mut self.seat, moment), wanted)
            }
            Call::Close(moment, wanted) => compared(self.port.close(self.rt, moment), wanted),
            Call::Seat(accepted, sent) => {
                Answer::of((self.seat.accepted(), self.seat.sent()) == (accepted, sent))
            }
        }
    }
}

/// A sender sends packets. Where it was refused, it has told of those before, and another sends the others.
fn sent_through<A: Ledger, S: Ledger, R: Wait>(
    rt: &R,
    port: &LockedPort<A, S>,
    seat: PortSeat<A, S>,
    packet: Packet,
    calls: &mut Calls<'_>,
) -> PortSeat<A, S> {
    let packets = [(PACKETS, packet); PACKETS as usize];
    let done = send_locked(rt, port, seat, &packets, &Open);
    if done.stop == Stop::Done {
        return done.seat;
    }
    calls.note();
    let accepted = done.calls.saturating_sub(1);
    let was_memory = done.stop == Stop::Refused(Refusal::Memory);
    calls.wanted(
        was_memory && done.seat.accepted() == PACKETS + accepted,
        "send_locked",
    );
    let rest = packets.get(accepted as usize..).unwrap_or(&[]);
    calls.wanted(!rest.is_empty(), "send_locked");
    let done = send_locked(rt, port, done.seat, rest, &Open);
    calls.wanted(done.stop == Stop::Done, "send_locked");
    done.seat
}
