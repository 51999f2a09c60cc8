//! Senders in threads of their own, each with a lane.
ghost use Rattle.std.specs.Prelude.{◌≡◌, ◌<◌, ◌≤◌, length};

use crate::gates::{FEW_LOOKS, Held, has_asked};
use crate::packets::packet;
use packet_core::{Packet, Seed, read_params};
use port_core::{
    BookBlank, BookName, Device, LaneDone, LaneSender, Layout, Opened, Screen, Shown, Stop, lanes,
};
use program_core::start_lanes;
use std::alloc::Global;
use std::marker::Brand;
use std::process::Abort;
use std::sync::Wait;
use std::sync::atomic::{AtomicU64, Ordering};
use std::thread::{self, Threads};

/// Sender 1's second call waits for the answer of sender 0's first, and every other call for that of sender 1's first.
/// All of them wait for the device, which looks for sender 1's first packet. So no list can be sent after another one,
/// nor before or after the device's part: on one thread a gate would stay closed.
#[test]
fn gate_lanes(rt: HostRuntime) {
    by_gates::<Brand, _>(&rt, rt.alloc(), BookBlank::new(), 2);
}

/// The same with 62 other senders. All but the last two are held as sender 0 is, and each has a packet for which its
/// lane has no room. The last but one stalls before its second call, and the last one before its first. What all
/// senders did is given back all the same, with the ends of their lanes.
#[test]
fn gate_lanes_of_64_senders(rt: HostRuntime) {
    by_gates::<Brand, _>(&rt, rt.alloc(), BookBlank::new(), 64);
}

fn by_gates<J: BookName, R: Threads + Wait + Abort + Sync>(
    rt: &R,
    alloc: Global,
    blank: BookBlank,
    senders: u32,
)
    requires book { blank ≡ J.book }
    requires senders { (0 < senders) × (senders ≤ 64) }
{
    let params = read_params(&["classify", "dport", "flows", "4"]).expect(rt, "parameters");
    let layout = Layout {
        lanes: senders,
        capacity: 2,
        monitors: 0,
    };
    let opened = lanes::<J, _>(rt, alloc, blank, params, Seed([0; 16]), layout).expect(rt, "lanes");
    send_by_gates(rt, alloc, opened);
}

/// Two packets for each of so many senders, and three from the third sender on.
fn lists<R: Abort>(rt: &R, alloc: Global, senders: usize) -> Vec<Vec<Packet>> {
    let mut lists = Vec::new(alloc);
    for sender in 0..senders {
        let mut packets = vec![in alloc; packet(rt, 1), packet(rt, 2)].expect(rt, "memory");
        if sender >= 2 {
            packets.push(packet(rt, 3)).expect(rt, "memory");
        }
        lists.push(packets).expect(rt, "memory");
    }
    lists
}

/// The gates of so many senders: the second is held at its second call, and each other at its first. Of more than two
/// the last one is held at its first call for ever, and the one before it at its second.
fn gates<'a, R: Abort>(
    rt: &R,
    alloc: Global,
    senders: usize,
    zero: &'a AtomicU64,
    one: &'a AtomicU64,
    others: &'a AtomicU64,
    never: &'a AtomicU64,
    open: &'a AtomicU64,
) -> Vec<Held<'a>> {
    let mut gates = Vec::new(alloc);
    for sender in 0..senders {
        let (first_held, asked, asked_there) = match sender {
            0 => (1, zero, one),
            1 => (2, one, zero),
            _ if sender == senders - 1 => (1, others, never),
            _ if sender == senders.saturating_sub(2) => (2, others, never),
            _ => (1, others, one),
        };
        let held = Held {
            first_held,
            asked,
            asked_there,
            open,
            passed: AtomicU64::new(0),
        };
        gates.push(held).expect(rt, "memory");
    }
    gates
}

/// Senders that wait for one another's answers and for the device.
fn send_by_gates<J: BookName, X: Screen<Shown<J>> + Drop, R: Threads + Abort + Sync>(
    rt: &R,
    alloc: Global,
    opened: Opened<J, X>,
) {
    let Opened {
        senders,
        device,
        monitors: _monitors,
    } = opened;
    let (zero, one, others) = (AtomicU64::new(0), AtomicU64::new(0), AtomicU64::new(0));
    let (never, open) = (AtomicU64::new(0), AtomicU64::new(0));
    let count = senders.len();
    let lists = lists(rt, alloc, count);
    let gates = gates(rt, alloc, count, &zero, &one, &others, &never, &open);
    assert!(rt; lists.len() == count && gates.len() == count);
    let (done, took) = send_held(rt, alloc, senders, device, &lists, &gates, (&one, &open));
    assert!(rt; took);
    are_done(rt, count, &done);
    passed_once(rt, &done, &gates);
}

/// Starts the senders with these gates, and gives what they did and whether the device accepted the one packet.
fn send_held<J: BookName, X: Screen<Shown<J>> + Drop, R: Threads + Abort + Sync>(
    rt: &R,
    alloc: Global,
    senders: Vec<LaneSender>,
    device: Device<J, X>,
    lists: &[Vec<Packet>],
    gates: &[Held<'_>],
    one_and_open: (&AtomicU64, &AtomicU64),
) -> (Vec<LaneDone>, bool)
    requires { (length lists.now ≡ length senders.items) × (length gates.now ≡ length senders.items) }
{
    let (one, open) = one_and_open;
    let part = move || takes_one(device, one, open);
    let (done, (device, took)) = start_lanes(rt, alloc, senders, lists, gates, part).expect(
        rt, "memory",
    );
    (done, took && device.engine().totals().accepted == 1)
}

/// The device's part: once sender 1 has asked for its second call, it takes that sender's first packet, and sees that
/// there is no other. Then it opens the gates.
fn takes_one<J: BookName, X: Screen<Shown<J>> + Drop>(
    device: Device<J, X>,
    asked: &AtomicU64,
    open: &AtomicU64,
) -> (Device<J, X>, bool) {
    let mut device = device;
    let took = has_asked(asked, 2) && took_one(&mut device);
    if took {
        open.store(1, Ordering::SeqCst);
    }
    (device, took)
}

/// Whether a packet stood in lane 1, and no other comes through lanes 0 and 1 for some time.
fn took_one<J: BookName, X: Screen<Shown<J>> + Drop>(device: &mut Device<J, X>) -> bool {
    if !pumps(device, 1, 1) {
        return false;
    }
    for _look in 0..FEW_LOOKS {
        if !pumps(device, 0, 0) || !pumps(device, 1, 0) {
            return false;
        }
        thread::yield_now();
    }
    true
}

/// Whether a pump of the lane takes so many packets.
fn pumps<J: BookName, X: Screen<Shown<J>> + Drop>(
    device: &mut Device<J, X>,
    lane: u32,
    wanted: u64,
) -> bool {
    lane < device.lanes() && device.pump(lane, 0, 2) == Ok(wanted)
}

/// Each of so many senders submitted two packets, and its lane has an end. From the third sender on the lane was full
/// then. Of more than two senders the last one stalled before its first packet, and the one before it after that.
fn are_done<R: Abort>(rt: &R, senders: usize, done: &[LaneDone]) {
    assert_eq!(rt; done.len(), senders);
    let last = senders.saturating_sub(1);
    for (number, sender) in done.iter().enumerate() {
        let wanted = match number {
            0 | 1 => (2, Stop::Done),
            _ if number == last => (0, Stop::Stalled),
            _ if number == last.saturating_sub(1) => (1, Stop::Stalled),
            _ => (2, Stop::Full),
        };
        assert_eq!(rt; (sender.submitted, sender.stop), wanted);
        assert!(rt; sender.end.is_some());
    }
}

/// Each gate let a call through once for each packet that its sender submitted, and once for the one that found its
/// lane full.
fn passed_once<R: Abort>(rt: &R, done: &[LaneDone], gates: &[Held<'_>]) {
    assert_eq!(rt; gates.len(), done.len());
    for (sender, gate) in done.iter().zip(gates) {
        let full = if sender.stop == Stop::Full { 1 } else { 0 };
        let passed = gate.passed.load(Ordering::SeqCst);
        assert_eq!(rt; passed, sender.submitted.saturating_add(full));
    }
}
