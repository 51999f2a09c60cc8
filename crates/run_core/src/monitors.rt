//! The monitors of a run: threads that read its statistics while it lasts.
ghost use Rattle.std.specs.Prelude.{◌≡◌, ◌<◌, ◌↔◌, All, IfErr, IfOk, IsErr, IsTrue, length, map};
ghost use Rattle.std.specs.Result.{IsOkUnless};
ghost use Rattle.run_core.specs.Seeing.{AreTotalsOf, IsSeen, IsSeenOf};
ghost use Rattle.run_core.specs.SendersFaults.{IsWatchingFault};
ghost use Rattle.run_core.specs.declared.senders_fault.SendersFault.TheVariants as senders_fault;

use crate::senders_fault::SendersFault;
use port_core::{BookName, Monitor, Receipt, Seen};
use std::alloc::{AllocError, Global};
use std::marker::{Send, Sync};
use std::sync::Wait;
use std::sync::atomic::{AtomicBool, Ordering};
use std::thread::{self, Threads};

/// What knows whether a run has ended.
pub trait Ending {
    /// What is known once it has.
    ghost Ended: { Self → Type 0 } = { λ _. Unit {0} };

    /// Whether it has.
    fn has_ended(&self) -> bool
        ensures { IsTrue result → Ended self.now };
}

impl Ending for AtomicBool {
    fn has_ended(&self) -> bool {
        self.load(Ordering::SeqCst)
    }
}

/// Has each monitor read, in a thread of its own where one can be made, until the run has ended, and gives them back
/// with what each saw last, in their order.
pub(crate) fn read_all<J: BookName + Send + Sync, H: Threads + Wait + Sync>(
    rt: &H,
    monitors: Vec<Monitor<J>>,
    ended: &AtomicBool,
) -> Result<Vec<(Monitor<J>, Seen)>, AllocError>
    ensures number { IfOk result (λ read. length read.items ≡ length monitors.items) }
    ensures each { IfOk result (λ read. All (λ r. AreTotalsOf r.0 r.1) read.items) }
{
    let read = move |monitor: Monitor<J>| -> (Monitor<J>, Seen)
        ensures { AreTotalsOf result.0 result.1 }
    { read_until(rt, monitor, ended) };
    thread::map_vec(rt, monitors, &read)
}

/// Reads until the run has ended, and gives what was seen last: no less than what was published before the end.
pub fn read_on<J: BookName, H: Wait, E: Ending>(rt: &H, monitor: Monitor<J>, ended: &E) -> Seen
    ensures seen { IsSeen result }
    ensures ended { E.Ended ended.now }
{
    let (_, seen) = read_until(rt, monitor, ended);
    seen
}

/// Reads until the run has ended, and gives the monitor with what it saw last.
fn read_until<J: BookName, H: Wait, E: Ending>(
    rt: &H,
    monitor: Monitor<J>,
    ended: &E,
) -> (Monitor<J>, Seen)
    ensures seen { AreTotalsOf result.0 result.1 }
    ensures ended { E.Ended ended.now }
{
    let mut monitor = monitor;
    for _ in rt.forever() {
        // What is read after the end is what was published at the end.
        let last = ended.has_ended();
        let seen = monitor.totals();
        if last {
            return (monitor, seen);
        }
        thread::yield_now();
    }
    unreachable!()
}

/// What each of them read last, of the journal that the receipt stands for. A monitor that read more is a fault.
pub(crate) fn seen_of_journal<J: BookName>(
    alloc: Global,
    read: Vec<(Monitor<J>, Seen)>,
    receipt: &Receipt<J>,
) -> Result<Vec<Seen>, SendersFault>
    requires { All (λ r. AreTotalsOf r.0 r.1) read.items }
    ensures number { IfOk result (λ seen. length seen.items ≡ length read.items) }
    ensures read { IfOk result (λ seen. seen.items ≡ map (λ r. r.1) read.items) }
    ensures each { IfOk result (λ seen. All (IsSeenOf receipt.now) seen.items) }
    ensures fault { IfErr result (IsWatchingFault receipt.now (map (λ r. r.1) read.items)) }
{
    let mut seen = Vec::new(alloc);
    for one in read {
        let (monitor, last) = one;
        seen.push(of_journal(seen.len(), monitor, last, receipt)?)?;
    }
    Ok(seen)
}

/// What the monitor of that number read last, where it is of the journal that the receipt stands for. It fails where
/// the monitor read more events than the journal has. Nobody published more, but that stands in no contract of another
/// thread.
pub fn of_journal<J: BookName>(
    number: usize,
    monitor: Monitor<J>,
    last: Seen,
    receipt: &Receipt<J>,
) -> Result<Seen, SendersFault>
    requires { AreTotalsOf monitor last }
    ensures read { IfOk result (λ seen. seen ≡ last) }
    ensures seen { IfOk result (IsSeenOf receipt.now) }
    ensures more { IsErr result ↔ (length receipt.now < last.events) }
    ensures fault { IsOkUnless result (senders_fault.Monitor number) }
{
    if last.events > receipt.events() {
        return Err(SendersFault::Monitor(number));
    }
    let mut monitor = monitor;
    // From here on what it read and the journal are beginnings of one list.
    monitor.learn(receipt);
    Ok(last)
}
