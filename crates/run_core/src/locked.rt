//! The run of steps by senders that are threads, through a locked port.
ghost use Rattle.std.specs.Prelude.{◌≡◌, ◌≢◌, ◌≤◌, ◌<◌, ◌+◌, ◌-◌, ◌∷◌, ◌⊎◌, [], ℕ, All, IfErr, IfOk, None, OnOk, false, length, map, true};
ghost use Rattle.journal_core.specs.declared.step.Refusal.TheVariants.{ClosedAlready};
ghost use Rattle.journal_core.specs.declared.step.Step.TheVariants.{Close};
ghost use Rattle.port_core.specs.LockedCalls.{IsClosedBy, IsRefusedBy, IsServedBy};
ghost use Rattle.sender_core.specs.Senders.{AreCalls};
ghost use Rattle.sender_core.specs.declared.interleaving.TheConstants.{MAX_SENDERS};
ghost use Rattle.port_core.specs.declared.gate.Stop.TheVariants as stop;
ghost use Rattle.run_core.specs.DeviceRuns.{has_close};
ghost use Rattle.run_core.specs.Journals.{AreLockedJournal, sender_row_of};
ghost use Rattle.run_core.specs.SendersFaults.{IsLockedRunFault};
ghost use Rattle.run_core.specs.declared.senders_fault.SendersFault.TheVariants as senders_fault;

use crate::room::stores;
use crate::senders_fault::SendersFault;
use packet_core::{Packet, Params, Seed};
use port_core::{LockedDone, LockedPort, Open, PortSeat, Stop};
use sched_core::{Engine, Refusal, Step};
use sender_core::{Expected, MAX_SENDERS, closed_once, is_whole, lists_of, start_locked};
use std::alloc::Global;
use std::marker::Brand;
use std::sync::Wait;
use std::sync::ledger::{Blank, Ledger};
use std::thread::Threads;
use trace_core::SenderRow;

/// Makes the steps by so many senders and this thread, through a locked port, and gives the engine and the rows of the
/// senders.
pub fn run_locked<H: Threads + Wait + Sync>(
    rt: &H,
    alloc: Global,
    params: Params,
    seed: Seed,
    senders: u32,
    steps: &[Step],
) -> Result<(Engine, Vec<SenderRow>), SendersFault>
    requires { (0 < senders) × (senders ≤ MAX_SENDERS) }
    ensures journal { IfOk result (λ r. AreLockedJournal params seed senders steps.now
        r.0.sched.standing.events r.1.items) }
    ensures fault { IfErr result IsLockedRunFault }
{
    let lists = lists_of(alloc, &params, &seed, senders, steps)?;
    let (accepted, sent) = (
        Blank::new(u64::from(senders) + 1),
        Blank::new(u64::from(senders) + 1),
    );
    run_lists::<Brand, Brand, _>(rt, alloc, params, seed, steps, &lists, accepted, sent)
}

/// Makes the packets of each list by a sender of its own, and the other steps by this thread, through a port with these
/// ledgers.
fn run_lists<A: Ledger + Send + Sync, S: Ledger + Send + Sync, H: Threads + Wait + Sync>(
    rt: &H,
    alloc: Global,
    params: Params,
    seed: Seed,
    steps: &[Step],
    lists: &[Vec<(u64, Packet)>],
    accepted: Blank,
    sent: Blank,
) -> Result<(Engine, Vec<SenderRow>), SendersFault>
    requires lists { AreCalls params seed (length lists.now) steps.now lists.now }
    requires number { (0 < length lists.now) × (length lists.now ≤ MAX_SENDERS) }
    requires accepted { (accepted.name ≡ A.name) × (accepted.parts ≡ A.parts) × (A.parts ≡ length lists.now + 1) }
    requires sent { (sent.name ≡ S.name) × (sent.parts ≡ S.parts) × (S.parts ≡ length lists.now + 1) }
    ensures journal { IfOk result (λ r. AreLockedJournal params seed (length lists.now) steps.now
        r.0.sched.standing.events r.1.items) }
    ensures fault { IfErr result IsLockedRunFault }
{
    let count = lists.len() as u32 + 1;
    let expected = Expected::of(steps);
    let (events, made) = stores(alloc, expected);
    let (port, mut seats) = LockedPort::<A, S>::start_with_recorders(
        alloc, params, seed, count, accepted, sent, events, made,
    )?;
    let Some(seat) = seats.pop() else {
        unreachable!()
    };
    let seats = with_room(seats, lists, expected);
    let gates = vec![in alloc; Open; lists.len()]?;
    let shared = &port;
    let part = move || -> Result<PortSeat<A, S>, Refusal>
        ensures { IfOk result (λ r. (r.lane ≡ seat.lane) × (r.told ≡ seat.told)) }
    { device_part(rt, shared, seat, steps) };
    let (done, part) = start_locked(rt, alloc, &port, seats, lists, &gates, part)?;
    let seat = emptied(rt, &port, part?, steps)?;
    let (rows, mut seats) = rows_of(alloc, done)?;
    seats.push(seat)?;
    match port.settle(seats) {
        Ok(engine) => {
            if leaves(&rows, steps) {
                return Err(SendersFault::Settle);
            }
            if !is_whole(&engine, lists, steps) {
                return Err(SendersFault::Settle);
            }
            engine.run_of_steps();
            Ok((engine, rows))
        }
        Err(_) => Err(SendersFault::Settle),
    }
}

/// The seats with memory for the acceptances that are expected of the packets of each list. Where it is refused a seat
/// takes some as it is told.
fn with_room<A: Ledger, S: Ledger>(
    seats: Vec<PortSeat<A, S>>,
    lists: &[Vec<(u64, Packet)>],
    expected: Expected,
) -> Vec<PortSeat<A, S>>
    ensures { result.items ≡ seats.items }
{
    let mut seats = seats;
    for sender in 0..seats.len().min(lists.len()) {
        let _ = seats[sender].reserve(expected.acceptances(lists[sender].len()));
    }
    seats
}

/// The device's part: the dequeues and closes of the steps, in their order. A close after another one is passed over.
fn device_part<A: Ledger, S: Ledger, H: Wait>(
    rt: &H,
    port: &LockedPort<A, S>,
    seat: PortSeat<A, S>,
    steps: &[Step],
) -> Result<PortSeat<A, S>, Refusal>
    ensures { IfOk result (λ r. (r.lane ≡ seat.lane) × (r.told ≡ seat.told)) }
{
    let mut seat = seat;
    for step in steps {
        match *step {
            Step::Enqueue { .. } => {}
            Step::Dequeue { moment } => {
                port.dequeue(rt, &mut seat, moment)?;
            }
            Step::Close { moment } => close(rt, port, moment)?,
        }
    }
    Ok(seat)
}

/// Closes, unless there was a close.
fn close<A: Ledger, S: Ledger, H: Wait>(
    rt: &H,
    port: &LockedPort<A, S>,
    moment: u64,
) -> Result<(), Refusal>
    ensures made { OnOk result (((at : ℕ) × IsClosedBy moment at) ⊎ IsRefusedBy Close moment ClosedAlready) }
    ensures refused { IfErr result (IsRefusedBy Close moment) }
    ensures other { IfErr result (λ why. why ≢ ClosedAlready) }
{
    closed_once(port.close(rt, moment))
}

/// Closes, unless there was a close, and takes packets at the last moment until none waits, or one more than there are
/// steps are taken.
fn emptied<A: Ledger, S: Ledger, H: Wait>(
    rt: &H,
    port: &LockedPort<A, S>,
    seat: PortSeat<A, S>,
    steps: &[Step],
) -> Result<PortSeat<A, S>, Refusal>
    ensures closed { OnOk result (((at : ℕ) × IsClosedBy 0 at) ⊎ IsRefusedBy Close 0 ClosedAlready) }
    ensures seat { IfOk result (λ r. (r.lane ≡ seat.lane) × (r.told ≡ seat.told)) }
    ensures ends { IfOk result (λ r. IsServedBy 0 None ⊎ (r.sent ≡ seat.sent + (length steps.now + 1))) }
    ensures most { IfOk result (λ r. (seat.sent ≤ r.sent) × (r.sent ≤ seat.sent + (length steps.now + 1))) }
{
    let mut seat = seat;
    // A step at 0 is made at the last moment.
    close(rt, port, 0)?;
    for _packet in 0..=steps.len() {
        if port.dequeue(rt, &mut seat, 0)?.is_none() {
            return Ok(seat);
        }
    }
    Ok(seat)
}

/// Whether a packet is left, though no row of the trace is a close: somebody closed too early then.
fn leaves(rows: &[SenderRow], steps: &[Step]) -> bool
    ensures none { result ≡ false → has_close steps.now ≡ false → All (λ row. row.left ≡ 0) rows.now }
    ensures some { result ≡ true → (has_close steps.now ≡ false) × ¬ All (λ row. row.left ≡ 0) rows.now }
{
    !leave_none(rows) && !has_close(steps)
}

/// Whether each sender's packets were accepted.
fn leave_none(rows: &[SenderRow]) -> bool
    ensures none { result ≡ true → All (λ row. row.left ≡ 0) rows.now }
    ensures some { result ≡ false → ¬ All (λ row. row.left ≡ 0) rows.now }
{
    for row in rows {
        if is_left(row) {
            return false;
        }
    }
    true
}

/// Whether a packet of this sender is left.
fn is_left(row: &SenderRow) -> bool
    ensures none { result ≡ false → row.now.left ≡ 0 }
    ensures some { result ≡ true → 0 < row.now.left }
{
    row.left > 0
}

/// Whether one of these is a close.
fn has_close(steps: &[Step]) -> bool
    ensures { result ≡ has_close steps.now }
{
    for step in steps {
        if is_close(step) {
            return true;
        }
    }
    false
}

/// Whether it is one.
fn is_close(step: &Step) -> bool
    ensures { result ≡ has_close (step.now ∷ []) }
{
    matches!(step, Step::Close { .. })
}

/// The rows of the senders, in their order, and their seats.
fn rows_of<A: Ledger, S: Ledger>(
    alloc: Global,
    done: Vec<LockedDone<A, S>>,
) -> Result<(Vec<SenderRow>, Vec<PortSeat<A, S>>), SendersFault>
    ensures rows { IfOk result (λ r. r.0.items ≡ map (λ d. sender_row_of d.calls d.seat) done.items) }
    ensures seats { IfOk result (λ r. r.1.items ≡ map (λ d. d.seat) done.items) }
    ensures done { OnOk result (All (λ d. d.stop ≡ stop.Done) done.items) }
    ensures fault { IfErr result (λ fault. fault ≡ senders_fault.Memory) }
{
    let mut rows = Vec::new(alloc);
    let mut seats = Vec::new(alloc);
    for sender in done {
        let LockedDone { calls, stop, seat } = sender;
        // The gates are open, each moment is below 2^60 and ids go to 2^40, so memory alone stops a sender.
        if stop != Stop::Done {
            return Err(SendersFault::Memory);
        }
        rows.push(row_of(calls, &seat))?;
        seats.push(seat)?;
    }
    Ok((rows, seats))
}

/// The row of a sender that made so many calls.
fn row_of<A: Ledger, S: Ledger>(calls: u64, seat: &PortSeat<A, S>) -> SenderRow
    ensures { result ≡ sender_row_of calls seat.now }
{
    let accepted = seat.accepted();
    SenderRow {
        sender: seat.lane(),
        submitted: calls,
        accepted,
        left: calls.saturating_sub(accepted),
    }
}
