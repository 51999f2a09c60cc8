//! The senders of a run through lanes: their packets, and their threads.
ghost use Rattle.std.specs.Prelude.{◌≡◌, ◌<◌, ℕ, IfOk, length, map, slice_index_or};
ghost use denote.Param.Send.{IsSync};
ghost use Rattle.sender_core.specs.Senders.{IsHeldUp, IsLaneDone, LetsThrough};

use packet_core::Packet;
use port_core::{Gate, LaneDone, LaneSender, send_lane};
use std::alloc::{AllocError, Global};
use std::thread::{self, Threads};

/// The packets of each list, without their moments.
pub fn packets_of(
    alloc: Global,
    lists: &[Vec<(u64, Packet)>],
) -> Result<Vec<Vec<Packet>>, AllocError>
    ensures { IfOk result (λ all. map (λ l. l.items) all.items
        ≡ map (λ l. map (λ call. call.1) l.items) lists.now) }
{
    let mut all = Vec::new(alloc);
    for list in lists {
        all.push(packets_in(alloc, list)?)?;
    }
    Ok(all)
}

/// The packets of a list, without their moments.
fn packets_in(alloc: Global, calls: &[(u64, Packet)]) -> Result<Vec<Packet>, AllocError>
    ensures { IfOk result (λ packets. packets.items ≡ map (λ call. call.1) calls.now) }
{
    let mut packets = Vec::new(alloc);
    packets.reserve(calls.len())?;
    for (_, packet) in calls {
        packets.push(*packet)?;
    }
    Ok(packets)
}

/// What one sender is given.
#[derive(Drop)]
struct LaneJob<'a, G> {
    sender: LaneSender,
    packets: &'a [Packet],
    gate: &'a G,
}

/// The jobs of the senders, in their order.
fn lane_jobs_of<'a, G>(
    alloc: Global,
    senders: Vec<LaneSender>,
    lists: &'a [Vec<Packet>],
    gates: &'a [G],
) -> Result<Vec<LaneJob<'a, G>>, AllocError>
    requires { (length lists.now ≡ length senders.items) × (length gates.now ≡ length senders.items) }
    ensures senders { IfOk result (λ jobs. map (λ j. j.sender) jobs.items ≡ senders.items) }
    ensures packets { IfOk result (λ jobs. map (λ j. j.packets.now) jobs.items ≡ map (λ l. l.items) lists.now) }
    ensures gates { IfOk result (λ jobs. map (λ j. j.gate.now) jobs.items ≡ gates.now) }
{
    let mut jobs = Vec::new(alloc);
    let mut next = 0;
    for sender in senders {
        jobs.push(LaneJob {
            sender,
            packets: &lists[next],
            gate: &gates[next],
        })?;
        next += 1;
    }
    Ok(jobs)
}

/// Starts the senders, each in a thread of its own with its lane, its list and its gate, calls the device's part once
/// meanwhile, joins the senders, and gives what each of them did, in their order. The gate of each let every submit of its
/// sender through, and held the next one up where the sender stalled. Where a thread can't be made, another one runs its
/// part. It fails where a growth is refused.
pub fn start_lanes<H: Threads + Sync, G: Gate + Sync, F: FnOnce() -> X, X: Drop>(
    rt: &H,
    alloc: Global,
    senders: Vec<LaneSender>,
    lists: &[Vec<Packet>],
    gates: &[G],
    part: F,
) -> Result<(Vec<LaneDone>, X), AllocError>
    requires part { F.pre part }
    requires each { (length lists.now ≡ length senders.items) × (length gates.now ≡ length senders.items) }
    ensures part { IfOk result (λ r. F.post part r.1) }
    ensures number { IfOk result (λ r. length r.0.items ≡ length senders.items) }
    ensures each { IfOk result (λ r. (i : ℕ) (d : _) (s : _) (l : _) → i < length senders.items
        → IsLaneDone (slice_index_or senders.items i s) (slice_index_or lists.now i l).items
        (slice_index_or r.0.items i d).submitted (slice_index_or r.0.items i d).stop
        (slice_index_or r.0.items i d).end) }
    ensures gates { IfOk result (λ r. (i : ℕ) (d : _) (g : _) → i < length senders.items
        → LetsThrough (G.LetThrough (slice_index_or gates.now i g)) (slice_index_or r.0.items i d).submitted) }
    ensures held { IfOk result (λ r. (i : ℕ) (d : _) (g : _) → i < length senders.items
        → IsHeldUp (G.HeldUp (slice_index_or gates.now i g)) (slice_index_or r.0.items i d).submitted
        (slice_index_or r.0.items i d).stop) }
{
    let jobs = lane_jobs_of(alloc, senders, lists, gates)?;
    let senders = move || -> Result<Vec<LaneDone>, AllocError>
        requires { IsSync H.row × IsSync G.row }
        ensures { IfOk result (λ done. (length done.items ≡ length jobs.entry.items)
            × ((i : ℕ) (d : _) (j : _) → i < length jobs.entry.items
            → IsLaneDone (slice_index_or jobs.entry.items i j).sender (slice_index_or jobs.entry.items i j).packets.now
            (slice_index_or done.items i d).submitted (slice_index_or done.items i d).stop
            (slice_index_or done.items i d).end)
            × ((i : ℕ) (d : _) (j : _) → i < length jobs.entry.items
            → LetsThrough (G.LetThrough (slice_index_or jobs.entry.items i j).gate.now)
            (slice_index_or done.items i d).submitted)
            × ((i : ℕ) (d : _) (j : _) → i < length jobs.entry.items
            → IsHeldUp (G.HeldUp (slice_index_or jobs.entry.items i j).gate.now)
            (slice_index_or done.items i d).submitted (slice_index_or done.items i d).stop)) }
    { send_all(rt, jobs) };
    let (done, answer) = thread::join(rt, senders, part);
    Ok((done?, answer))
}

/// Does all jobs, each in a thread of its own where one can be made.
fn send_all<H: Threads + Sync, G: Gate + Sync>(
    rt: &H,
    jobs: Vec<LaneJob<G>>,
) -> Result<Vec<LaneDone>, AllocError>
    ensures number { IfOk result (λ done. length done.items ≡ length jobs.entry.items) }
    ensures each { IfOk result (λ done. (i : ℕ) (d : _) (j : _) → i < length jobs.entry.items
        → IsLaneDone (slice_index_or jobs.entry.items i j).sender (slice_index_or jobs.entry.items i j).packets.now
        (slice_index_or done.items i d).submitted (slice_index_or done.items i d).stop
        (slice_index_or done.items i d).end) }
    ensures gates { IfOk result (λ done. (i : ℕ) (d : _) (j : _) → i < length jobs.entry.items
        → LetsThrough (G.LetThrough (slice_index_or jobs.entry.items i j).gate.now)
        (slice_index_or done.items i d).submitted) }
    ensures held { IfOk result (λ done. (i : ℕ) (d : _) (j : _) → i < length jobs.entry.items
        → IsHeldUp (G.HeldUp (slice_index_or jobs.entry.items i j).gate.now)
        (slice_index_or done.items i d).submitted (slice_index_or done.items i d).stop) }
{
    let send = move |job: LaneJob<G>| -> LaneDone
        ensures { IsLaneDone job.entry.sender job.entry.packets.now result.submitted result.stop result.end
            × LetsThrough (G.LetThrough job.entry.gate.now) result.submitted
            × IsHeldUp (G.HeldUp job.entry.gate.now) result.submitted result.stop }
    { send_lane(job.sender, job.packets, job.gate) };
    thread::map_vec(rt, jobs, &send)
}
