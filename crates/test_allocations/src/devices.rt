//! A device with a lane and a monitor.

ghost use Rattle.std.specs.Prelude.{◌≡◌};

use crate::calls::Memory::{EnqueueRooms, Keeps, Takes, TakesOnce};
use crate::calls::{Answer, Calls, Row, Subject, compared};
use crate::pictures::{Picture, of_engine};
use crate::steps::{gave, has_room};
use crate::values::{SEED, Values};
use packet_core::Packet;
use port_core::{
    BookBlank, BookName, Device, LaneSender, Layout, MAX_BURST, Monitor, OpenFault, Opened,
    PublishFault, Receipt, Screen, Shown, lanes,
};
use sched_core::Refusal;
use std::marker::Brand;
use std::sync::Wait;

/// One lane with room for all packets, and one monitor.
const LAYOUT: Layout = Layout {
    lanes: 1,
    capacity: 16,
    monitors: 1,
};

/// What comes after the close is refused.
const CLOSED: Refusal = Refusal::ClosedAlready;

/// A call, and what it is answered.
#[derive(Clone, Copy)]
pub(crate) enum Call {
    /// A packet is submitted.
    Submit,
    /// A pump of the lane at that moment, of so many packets at most.
    Pump(u64, u64, Result<u64, Refusal>),
    /// A dequeue at that moment, and the id of the packet that it gives.
    Dequeue(u64, Result<Option<u64>, Refusal>),
    /// A close at that moment.
    Close(u64, Result<(), Refusal>),
    /// Memory for so many steps.
    Reserve(u8),
    /// All is published: so many events.
    Publish(u64),
    /// The receipt of the last publish: so many events.
    Receipt(u64),
    /// The monitor shows what was published last.
    Shown,
    /// The monitor shows so many events, and so many packets accepted and sent.
    Seen(u64, u64, u64),
    /// The statistics: so many packets accepted and sent.
    Totals(u64, u64),
}

/// Packets are submitted, pumped and sent one by one, then published, then some for which room was taken ahead, and
/// then the device is closed. After the close a packet stays in its lane, and so does the device.
static LANES: [Row<'static, Call>; 24] = [
    (EnqueueRooms, Call::Submit, "LaneSender::submit"),
    (Takes, Call::Pump(0, 8, Ok(1)), "Device::pump"),
    (EnqueueRooms, Call::Submit, "LaneSender::submit"),
    (Takes, Call::Pump(0, 8, Ok(1)), "Device::pump"),
    (EnqueueRooms, Call::Submit, "LaneSender::submit"),
    (Takes, Call::Pump(0, 8, Ok(1)), "Device::pump"),
    (EnqueueRooms, Call::Submit, "LaneSender::submit"),
    (Takes, Call::Pump(0, 8, Ok(1)), "Device::pump"),
    (EnqueueRooms, Call::Submit, "LaneSender::submit"),
    (Takes, Call::Pump(0, 8, Ok(1)), "Device::pump"),
    (Takes, Call::Dequeue(0, Ok(Some(0))), "Device::dequeue"),
    (Takes, Call::Dequeue(0, Ok(Some(1))), "Device::dequeue"),
    (Takes, Call::Dequeue(0, Ok(Some(2))), "Device::dequeue"),
    (Takes, Call::Dequeue(0, Ok(Some(3))), "Device::dequeue"),
    (Takes, Call::Dequeue(0, Ok(Some(4))), "Device::dequeue"),
    (Takes, Call::Publish(10), "Device::publish"),
    (Takes, Call::Reserve(8), "Device::reserve"),
    (EnqueueRooms, Call::Submit, "LaneSender::submit"),
    (
        EnqueueRooms,
        Call::Pump(0, 8, Ok(1)),
        "Device::pump after Device::reserve",
    ),
    (Takes, Call::Close(1, Ok(())), "Device::close"),
    (Keeps, Call::Submit, "LaneSender::submit"),
    (
        Keeps,
        Call::Pump(1, 8, Err(CLOSED)),
        "Device::pump after Device::close",
    ),
    (
        Keeps,
        Call::Close(1, Err(CLOSED)),
        "Device::close once more",
    ),
    (EnqueueRooms, Call::Totals(6, 5), "Engine::totals"),
];

/// Three packets are accepted, and all is published after each. A publish that is refused isn't made again: the next
/// one shows what it left out. Then the device is closed, and all is published then and after a departure.
static PUBLISH: [Row<'static, Call>; 20] = [
    (EnqueueRooms, Call::Submit, "LaneSender::submit"),
    (Takes, Call::Pump(0, 8, Ok(1)), "Device::pump"),
    (TakesOnce, Call::Publish(1), "Device::publish"),
    (EnqueueRooms, Call::Shown, "Monitor::totals"),
    (EnqueueRooms, Call::Submit, "LaneSender::submit"),
    (Takes, Call::Pump(0, 8, Ok(1)), "Device::pump"),
    (TakesOnce, Call::Publish(2), "Device::publish"),
    (EnqueueRooms, Call::Shown, "Monitor::totals"),
    (EnqueueRooms, Call::Submit, "LaneSender::submit"),
    (Takes, Call::Pump(0, 8, Ok(1)), "Device::pump"),
    (TakesOnce, Call::Publish(3), "Device::publish"),
    (EnqueueRooms, Call::Shown, "Monitor::totals"),
    (EnqueueRooms, Call::Receipt(3), "Device::publish"),
    (Takes, Call::Close(9, Ok(())), "Device::close"),
    (Takes, Call::Publish(4), "Device::publish"),
    (EnqueueRooms, Call::Shown, "Monitor::totals"),
    (Takes, Call::Dequeue(9, Ok(Some(0))), "Device::dequeue"),
    (Takes, Call::Publish(5), "Device::publish"),
    (EnqueueRooms, Call::Shown, "Monitor::totals"),
    (Takes, Call::Dequeue(9, Ok(Some(1))), "Device::dequeue"),
];

/// The device is closed before the first publish.
static PUBLISH_CLOSED: [Row<'static, Call>; 9] = [
    (EnqueueRooms, Call::Submit, "LaneSender::submit"),
    (Takes, Call::Pump(0, 8, Ok(1)), "Device::pump"),
    (Takes, Call::Close(9, Ok(())), "Device::close"),
    (Takes, Call::Publish(2), "Device::publish"),
    (EnqueueRooms, Call::Shown, "Monitor::totals"),
    (Takes, Call::Dequeue(9, Ok(Some(0))), "Device::dequeue"),
    (Takes, Call::Publish(3), "Device::publish"),
    (EnqueueRooms, Call::Shown, "Monitor::totals"),
    (Takes, Call::Dequeue(9, Ok(None)), "Device::dequeue"),
];

/// Makes the calls of a device that is closed at last.
pub(crate) fn lane<R: Wait>(rt: &R, values: &Values, calls: &mut Calls<'_>) {
    plays(rt, values, &LANES, calls);
}

/// A publish is refused: the monitor still has what it saw, the receipt is the one before, and the next publish shows
/// all that came meanwhile.
pub(crate) fn second_publish<R: Wait>(rt: &R, values: &Values, calls: &mut Calls<'_>) {
    plays(rt, values, &PUBLISH, calls);
}

/// The same of a device that was closed.
pub(crate) fn closed_publish<R: Wait>(rt: &R, values: &Values, calls: &mut Calls<'_>) {
    plays(rt, values, &PUBLISH_CLOSED, calls);
}

/// Lanes are opened with the name of a book, which doesn't come back where memory is refused, and then with another.
/// The calls are made with them.
pub(crate) fn plays<'a, R: Wait>(
    rt: &R,
    values: &Values,
    rows: &[Row<'a, Call>],
    calls: &mut Calls<'a>,
) {
    if !plays_in::<Brand, R>(rt, values, BookBlank::new(), rows, calls) {
        calls.note();
        let again = plays_in::<Brand, R>(rt, values, BookBlank::new(), rows, calls);
        calls.wanted(again, "lanes");
    }
}

/// Makes the calls with lanes that are opened with that name. It answers whether memory wasn't refused to their opening.
fn plays_in<'a, J: BookName, R: Wait>(
    rt: &R,
    values: &Values,
    blank: BookBlank,
    rows: &[Row<'a, Call>],
    calls: &mut Calls<'a>,
) -> bool
    requires { blank ≡ J.book }
{
    match lanes::<J, _>(rt, values.alloc, blank, values.params, SEED, LAYOUT) {
        Ok(mut opened) => {
            calls.makes(&mut opened, values.packet, rows);
            true
        }
        Err(OpenFault::Memory) => false,
        Err(OpenFault::NoPlace(_)) => {
            calls.wanted(false, "lanes");
            true
        }
    }
}

impl<J: BookName, X: Screen<Shown<J>> + Drop> Subject for Opened<J, X> {
    type Call = Call;

    type Picture = (Picture, u64);

    /// All that can be read of the device: of its engine, and how much was published.
    fn picture(&mut self) -> (Picture, u64) {
        (
            of_engine(self.device.engine()),
            self.device.receipt().events(),
        )
    }

    fn answer(&mut self, call: Call, packet: Packet) -> Answer {
        match call {
            Call::Submit => submits(&mut self.senders, packet),
            Call::Publish(events) => publishes(&mut self.device, &mut self.monitors, events),
            Call::Shown => sees(&mut self.monitors, self.device.receipt().events()),
            Call::Seen(events, accepted, sent) => {
                has_seen(&mut self.monitors, (events, accepted, sent))
            }
            _ => device_answer(&mut self.device, call),
        }
    }
}

/// The sender submits the packet.
fn submits(senders: &mut Vec<LaneSender>, packet: Packet) -> Answer {
    match senders.first_mut() {
        Some(sender) => Answer::of(sender.submit(packet).is_ok()),
        None => Answer::Wrong,
    }
}

/// The device publishes so many events, and the monitor learns of it.
fn publishes<J: BookName, X: Screen<Shown<J>> + Drop>(
    device: &mut Device<J, X>,
    monitors: &mut Vec<Monitor<J>>,
    events: u64,
) -> Answer {
    match device.publish() {
        Ok(receipt) => {
            learns(monitors, &receipt);
            Answer::of(receipt.events() == events && device.receipt().events() == events)
        }
        Err(PublishFault::Memory) => Answer::Refused,
    }
}

/// The monitor learns of a publish.
fn learns<J: BookName>(monitors: &mut Vec<Monitor<J>>, receipt: &Receipt<J>) {
    if let Some(monitor) = monitors.first_mut() {
        monitor.learn(receipt);
    }
}

/// The monitor shows so many events.
fn sees<J: BookName>(monitors: &mut Vec<Monitor<J>>, events: u64) -> Answer {
    match monitors.first_mut() {
        Some(monitor) => Answer::of(monitor.totals().events == events),
        None => Answer::Wrong,
    }
}

/// The monitor shows so many events, and so many packets accepted and sent.
fn has_seen<J: BookName>(monitors: &mut Vec<Monitor<J>>, wanted: (u64, u64, u64)) -> Answer {
    let Some(monitor) = monitors.first_mut() else {
        return Answer::Wrong;
    };
    let seen = monitor.totals();
    Answer::of((seen.events, seen.totals.accepted, seen.totals.sent) == wanted)
}

/// The device's own answer.
fn device_answer<J: BookName, X: Screen<Shown<J>> + Drop>(
    device: &mut Device<J, X>,
    call: Call,
) -> Answer {
    match call {
        Call::Pump(moment, burst, wanted) => pumps(device, moment, burst, wanted),
        Call::Dequeue(moment, wanted) => gave(device.dequeue(moment), wanted),
        Call::Close(moment, wanted) => compared(device.close(moment), wanted),
        Call::Reserve(steps) => has_room(device.reserve(u64::from(steps))),
        Call::Receipt(events) => Answer::of(device.receipt().events() == events),
        Call::Totals(accepted, sent) => {
            let totals = device.engine().totals();
            Answer::of((totals.accepted, totals.sent) == (accepted, sent))
        }
        Call::Submit | Call::Publish(_) | Call::Shown | Call::Seen(..) => Answer::Wrong,
    }
}

/// The lane is pumped.
fn pumps<J: BookName, X: Screen<Shown<J>> + Drop>(
    device: &mut Device<J, X>,
    moment: u64,
    burst: u64,
    wanted: Result<u64, Refusal>,
) -> Answer {
    if device.lanes() == 0 || burst == 0 || burst > MAX_BURST {
        return Answer::Wrong;
    }
    compared(device.pump(0, moment, burst), wanted)
}
