//! Monitors at the end of a run: one that reads until then, and one that read more than the journal has.
ghost use Rattle.std.specs.Prelude.{◌≡◌};

use crate::packets::packet;
use packet_core::{Seed, read_params};
use port_core::{BookBlank, BookName, Device, Layout, Opened, Screen, Shown, lanes};
use program_core::{Ending, SendersFault, of_journal, read_on};
use std::alloc::Global;
use std::marker::Brand;
use std::process::Abort;
use std::sync::atomic::{AtomicU64, Ordering};
use std::sync::{Mutex, Wait};

/// A run that makes a part each time it is asked whether it has ended, and publishes it: nothing, two packets of which
/// one is dropped, a departure, and at last the close.
#[derive(Drop)]
struct Late<'a, J: BookName, X: Screen<Shown<J>> + Drop, R> {
    rt: &'a R,
    asked: AtomicU64,
    device: Mutex<Device<J, X>>,
}

impl<J: BookName, X: Screen<Shown<J>> + Drop, R: Wait> Ending for Late<'_, J, X, R> {
    fn has_ended(&self) -> bool {
        let asked = self.asked.fetch_add(1, Ordering::SeqCst);
        let mut device = self.device.lock(self.rt);
        let made = makes_part(&mut device, asked);
        device.publish().is_ok() && made && asked == 3
    }
}

/// Makes one part of the run.
fn makes_part<J: BookName, X: Screen<Shown<J>> + Drop>(
    device: &mut Device<J, X>,
    part: u64,
) -> bool {
    match part {
        0 => true,
        1 => device.lanes() > 0 && device.pump(0, 0, 2) == Ok(2),
        2 => device.dequeue(1).is_ok(),
        _ => device.close(7).is_ok(),
    }
}

/// A monitor reads until the end, whatever it sees before, and once more then: it asks first.
#[test]
fn reads_once_more_after_the_end(rt: HostRuntime) {
    sees_the_end::<Brand, _>(&rt, rt.alloc(), BookBlank::new());
}

fn sees_the_end<J: BookName, R: Wait + Abort>(rt: &R, alloc: Global, blank: BookBlank)
    requires { blank ≡ J.book }
{
    let params = read_params(&[
        "classify",
        "dport",
        "flows",
        "1",
        "limit",
        "1",
        "drop_batch",
        "1",
    ])
    .expect(rt, "parameters");
    let layout = Layout {
        lanes: 1,
        capacity: 2,
        monitors: 1,
    };
    let opened = lanes::<J, _>(rt, alloc, blank, params, Seed([0; 16]), layout).expect(rt, "lanes");
    reads_to_the_end(rt, opened);
}

fn reads_to_the_end<J: BookName, X: Screen<Shown<J>> + Drop, R: Wait + Abort>(
    rt: &R,
    opened: Opened<J, X>,
) {
    let Opened {
        mut senders,
        device,
        mut monitors,
    } = opened;
    let mut sender = senders.pop().expect(rt, "a sender");
    for _packet in 0..2 {
        assert_eq!(rt; sender.submit(packet(rt, 53)), Ok(()));
    }
    let monitor = monitors.pop().expect(rt, "a monitor");
    let late = Late {
        rt,
        asked: AtomicU64::new(0),
        device: Mutex::new(device),
    };
    let seen = read_on(rt, monitor, &late);
    let totals = seen.totals;
    assert_eq!(rt;
        (totals.accepted, totals.sent, totals.dropped_overflow),
        (2, 1, 1)
    );
    assert_eq!(rt; (seen.events, totals.closed), (5, true));
}

/// A monitor that read more events than the journal has is a fault, by its number. What another one read is told as it is.
#[test]
fn a_monitor_ahead_of_the_journal_is_a_fault(rt: HostRuntime) {
    is_ahead::<Brand, _>(&rt, rt.alloc(), BookBlank::new());
}

fn is_ahead<J: BookName, R: Wait + Abort>(rt: &R, alloc: Global, blank: BookBlank)
    requires { blank ≡ J.book }
{
    let params = read_params(&["flows", "1"]).expect(rt, "parameters");
    let layout = Layout {
        lanes: 1,
        capacity: 1,
        monitors: 2,
    };
    let opened = lanes::<J, _>(rt, alloc, blank, params, Seed([0; 16]), layout).expect(rt, "lanes");
    reads_beside_receipts(rt, opened);
}

/// Two monitors read what was published last, the close. One of them is compared with the journal before it.
fn reads_beside_receipts<J: BookName, X: Screen<Shown<J>> + Drop, R: Abort>(
    rt: &R,
    opened: Opened<J, X>,
) {
    let Opened {
        senders: _senders,
        mut device,
        mut monitors,
    } = opened;
    let early = device.publish().expect(rt, "memory");
    assert!(rt; device.close(7).is_ok());
    let late = device.publish().expect(rt, "memory");

    let mut ahead = monitors.pop().expect(rt, "a monitor");
    let seen = ahead.totals();
    assert_eq!(rt; (seen.events, early.events(), late.events()), (1, 0, 1));
    let fault = SendersFault::Monitor(3);
    assert_eq!(rt; of_journal(3, ahead, seen, &early), Err(fault));

    let mut other = monitors.pop().expect(rt, "another monitor");
    let seen = other.totals();
    assert_eq!(rt; of_journal(0, other, seen, &late), Ok(seen));
}
