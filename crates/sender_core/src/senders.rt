//! The senders of a trace: the packets of each, and their threads.
ghost use Rattle.std.specs.Prelude.{◌≡◌, ◌<◌, ℕ, IfOk, length, map, slice_index_or};
ghost use denote.Param.Send.{IsSend, IsSync};
ghost use Rattle.sender_core.specs.Rooms.{enqueue_count};
ghost use Rattle.sender_core.specs.Senders.{AreCalls, IsDone, IsHeldUp, LetsThrough};

use packet_core::{Packet, Params, Seed};
use port_core::{Gate, LockedDone, LockedPort, PortSeat, send_locked};
use sched_core::{FlowChooser, Step};
use std::alloc::{AllocError, Global};
use std::sync::Wait;
use std::sync::ledger::Ledger;
use std::thread::{self, Threads};

/// The packets of each sender with their moments, in the order of the steps. A packet of flow F belongs to sender F
/// modulo the number of senders.
pub fn lists_of(
    alloc: Global,
    params: &Params,
    seed: &Seed,
    senders: u32,
    steps: &[Step],
) -> Result<Vec<Vec<(u64, Packet)>>, AllocError>
    requires { 0 < senders }
    ensures { IfOk result (λ lists. AreCalls params.now seed.now senders steps.now lists.items) }
{
    let mut lists = Vec::new(alloc);
    for _sender in 0..senders {
        lists.push(Vec::new(alloc))?;
    }
    // A digest takes more time than all else that is done for a packet.
    let mut chooser = FlowChooser::try_new_for(alloc, *params, *seed, enqueues_in(steps))?;
    for step in steps {
        if let Step::Enqueue { moment, packet, .. } = *step {
            let sender = chooser.flow_of(&packet) % senders;
            lists[sender as usize].push((moment, packet))?;
        }
    }
    Ok(lists)
}

/// How many of the steps are enqueues.
fn enqueues_in(steps: &[Step]) -> u64
    ensures { result ≡ enqueue_count steps.now }
{
    steps
        .iter()
        .filter(|step| matches!(step, Step::Enqueue { .. }))
        .count() as u64
}

/// What one sender is given.
#[derive(Drop)]
struct Job<'a, A: Ledger, S: Ledger, G> {
    seat: PortSeat<A, S>,
    packets: &'a [(u64, Packet)],
    gate: &'a G,
}

/// The jobs of the senders, in their order.
fn jobs_of<'a, A: Ledger, S: Ledger, G>(
    alloc: Global,
    seats: Vec<PortSeat<A, S>>,
    lists: &'a [Vec<(u64, Packet)>],
    gates: &'a [G],
) -> Result<Vec<Job<'a, A, S, G>>, AllocError>
    requires { (length lists.now ≡ length seats.items) × (length gates.now ≡ length seats.items) }
    ensures seats { IfOk result (λ jobs. map (λ j. j.seat) jobs.items ≡ seats.items) }
    ensures packets { IfOk result (λ jobs. map (λ j. j.packets.now) jobs.items ≡ map (λ l. l.items) lists.now) }
    ensures gates { IfOk result (λ jobs. map (λ j. j.gate.now) jobs.items ≡ gates.now) }
{
    let mut jobs = Vec::new(alloc);
    let mut next = 0;
    for seat in seats {
        jobs.push(Job {
            seat,
            packets: &lists[next],
            gate: &gates[next],
        })?;
        next += 1;
    }
    Ok(jobs)
}

/// Starts the senders, each in a thread of its own with its seat, its list and its gate, calls the main thread's part
/// once meanwhile, joins the senders, and gives what each of them did, in their order. The gate of each let every call of
/// its sender through, and held the next one up where the sender stalled. Where a thread can't be made, another one runs
/// its part. It fails where a growth is refused.
pub fn start_locked<
    A: Ledger + Send + Sync,
    S: Ledger + Send + Sync,
    H: Threads + Wait + Sync,
    G: Gate + Sync,
    F: FnOnce() -> X,
    X: Drop,
>(
    rt: &H,
    alloc: Global,
    port: &LockedPort<A, S>,
    seats: Vec<PortSeat<A, S>>,
    lists: &[Vec<(u64, Packet)>],
    gates: &[G],
    part: F,
) -> Result<(Vec<LockedDone<A, S>>, X), AllocError>
    requires part { F.pre part }
    requires each { (length lists.now ≡ length seats.items) × (length gates.now ≡ length seats.items) }
    ensures part { IfOk result (λ r. F.post part r.1) }
    ensures number { IfOk result (λ r. length r.0.items ≡ length seats.items) }
    ensures each { IfOk result (λ r. (i : ℕ) (d : _) (s : _) (l : _) → i < length seats.items
        → IsDone (slice_index_or seats.items i s) (slice_index_or lists.now i l).items
        (slice_index_or r.0.items i d).calls (slice_index_or r.0.items i d).stop (slice_index_or r.0.items i d).seat) }
    ensures gates { IfOk result (λ r. (i : ℕ) (d : _) (g : _) → i < length seats.items
        → LetsThrough (G.LetThrough (slice_index_or gates.now i g)) (slice_index_or r.0.items i d).calls) }
    ensures held { IfOk result (λ r. (i : ℕ) (d : _) (g : _) → i < length seats.items
        → IsHeldUp (G.HeldUp (slice_index_or gates.now i g)) (slice_index_or r.0.items i d).calls
        (slice_index_or r.0.items i d).stop) }
{
    let jobs = jobs_of(alloc, seats, lists, gates)?;
    let senders = move || -> Result<Vec<LockedDone<A, S>>, AllocError>
        requires { IsSync H.row × IsSync G.row × IsSend A.row × IsSend S.row × IsSync A.row × IsSync S.row }
        ensures { IfOk result (λ done. (length done.items ≡ length jobs.entry.items)
            × ((i : ℕ) (d : _) (j : _) → i < length jobs.entry.items
            → IsDone (slice_index_or jobs.entry.items i j).seat (slice_index_or jobs.entry.items i j).packets.now
            (slice_index_or done.items i d).calls (slice_index_or done.items i d).stop
            (slice_index_or done.items i d).seat)
            × ((i : ℕ) (d : _) (j : _) → i < length jobs.entry.items
            → LetsThrough (G.LetThrough (slice_index_or jobs.entry.items i j).gate.now)
            (slice_index_or done.items i d).calls)
            × ((i : ℕ) (d : _) (j : _) → i < length jobs.entry.items
            → IsHeldUp (G.HeldUp (slice_index_or jobs.entry.items i j).gate.now)
            (slice_index_or done.items i d).calls (slice_index_or done.items i d).stop)) }
    { send_all(rt, port, jobs) };
    let (done, answer) = thread::join(rt, senders, part);
    Ok((done?, answer))
}

/// Does all jobs, each in a thread of its own where one can be made.
fn send_all<
    A: Ledger + Send + Sync,
    S: Ledger + Send + Sync,
    H: Threads + Wait + Sync,
    G: Gate + Sync,
>(
    rt: &H,
    port: &LockedPort<A, S>,
    jobs: Vec<Job<A, S, G>>,
) -> Result<Vec<LockedDone<A, S>>, AllocError>
    ensures number { IfOk result (λ done. length done.items ≡ length jobs.entry.items) }
    ensures each { IfOk result (λ done. (i : ℕ) (d : _) (j : _) → i < length jobs.entry.items
        → IsDone (slice_index_or jobs.entry.items i j).seat (slice_index_or jobs.entry.items i j).packets.now
        (slice_index_or done.items i d).calls (slice_index_or done.items i d).stop
        (slice_index_or done.items i d).seat) }
    ensures gates { IfOk result (λ done. (i : ℕ) (d : _) (j : _) → i < length jobs.entry.items
        → LetsThrough (G.LetThrough (slice_index_or jobs.entry.items i j).gate.now)
        (slice_index_or done.items i d).calls) }
    ensures held { IfOk result (λ done. (i : ℕ) (d : _) (j : _) → i < length jobs.entry.items
        → IsHeldUp (G.HeldUp (slice_index_or jobs.entry.items i j).gate.now)
        (slice_index_or done.items i d).calls (slice_index_or done.items i d).stop) }
{
    let send = move |job: Job<A, S, G>| -> LockedDone<A, S>
        ensures { IsDone job.entry.seat job.entry.packets.now result.calls result.stop result.seat
            × LetsThrough (G.LetThrough job.entry.gate.now) result.calls
            × IsHeldUp (G.HeldUp job.entry.gate.now) result.calls result.stop }
    { send_locked(rt, port, job.seat, job.packets, job.gate) };
    thread::map_vec(rt, jobs, &send)
}
