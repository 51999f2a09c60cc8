//! Whether the steps of a run by senders are made by their calls and the main thread's: one pass over the steps, with a
//! place for each sender on the stack.

ghost use Rattle.std.specs.Prelude.{◌≡◌, ◌<◌, ◌≤◌, ◌∷◌, ◌++◌, ◌↔◌, ℕ, IfSome, IsSome, IsTrue, List, [], drop, length, slice_index_or, true};
ghost use Rattle.journal_core.specs.Statistics.{statistics};
ghost use Rattle.journal_core.specs.declared.step.Step.{Step as StepShown};
ghost use Rattle.journal_core.specs.declared.step.Step.TheVariants.{Enqueue};
ghost use Rattle.sender_core.specs.Interleavings.{CallsNext, Comes, IsInterleaving, IsMadeBy, MayCome, main_call, main_rows};

use packet_core::Packet;
use sched_core::{Engine, Step};

/// The most senders of a run. Each is a thread of its own, and few machines run more of them at once. A place for each
/// stands on the stack.
pub const MAX_SENDERS: u32 = 64;

/// There is a place for each sender.
const PLACES: usize = MAX_SENDERS as usize;

/// How far some steps have come through the calls that made them.
#[derive(Drop)]
struct Walk {
    /// The moment of the last step, in microseconds.
    last: u64,
    /// How many of each sender's calls were met.
    met: [usize; PLACES],
    /// The main thread's calls for the rows before this one were met.
    row: usize,
    /// Whether a close was among them.
    closed: bool,
}

/// The next call of the main thread from that row on, the row after it, and whether there was a close then. Where it
/// has none left for the rows it closes, unless there was a close, and then makes dequeues, at the moment of the last
/// step.
fn next_call(rows: &[Step], row: usize, closed: bool) -> (Step, usize, bool)
    ensures { CallsNext (main_rows closed (drop row rows.now)) result.0
        (main_rows result.2 (drop result.1 rows.now)) }
{
    for next in row..rows.len() {
        match rows[next] {
            Step::Enqueue { .. } => {}
            Step::Dequeue { moment } => return (Step::Dequeue { moment }, next + 1, closed),
            Step::Close { moment } => {
                if !closed {
                    return (Step::Close { moment }, next + 1, true);
                }
            }
        }
    }
    if closed {
        (Step::Dequeue { moment: 0 }, rows.len(), true)
    } else {
        (Step::Close { moment: 0 }, rows.len(), true)
    }
}

/// Whether the main thread has no call left for the rows from that one on.
fn is_done(rows: &[Step], row: usize, closed: bool) -> bool
    ensures { IsTrue result ↔ main_rows closed (drop row rows.now) ≡ [] }
{
    if !closed {
        return false;
    }
    for next in row..rows.len() {
        if let Step::Dequeue { .. } = rows[next] {
            return false;
        }
    }
    true
}

/// The moment of the step, where that call of the main thread makes it after a step at that moment.
fn moment_made(last: u64, call: &Step, step: &Step) -> Option<u64>
    ensures made { IfSome result (IsMadeBy last call.now step.now) }
    ensures whole { (moment : ℕ) → IsMadeBy last call.now step.now moment → IsSome result }
{
    match (*call, *step) {
        (Step::Dequeue { moment: own }, Step::Dequeue { moment }) if moment == own.max(last) => {
            Some(moment)
        }
        (Step::Close { moment: own }, Step::Close { moment }) if moment == own.max(last) => {
            Some(moment)
        }
        _ => None,
    }
}

/// One step of the main thread more.
fn meet_main(lists: &[Vec<(u64, Packet)>], rows: &[Step], walk: &mut Walk, step: &Step) -> bool
    ensures met { IsTrue result → (before : List StepShown)
        → Comes lists.now rows.now before walk.old.last walk.old.met walk.old.row walk.old.closed
        → Comes lists.now rows.now (before ++ step.now ∷ [])
        walk.new.last walk.new.met walk.new.row walk.new.closed }
    ensures whole { main_call step.now ≡ step.now ∷ [] → (rest : List StepShown)
        → MayCome lists.now rows.now (step.now ∷ rest) walk.old.last walk.old.met walk.old.row walk.old.closed
        → IsTrue result × MayCome lists.now rows.now rest walk.new.last walk.new.met walk.new.row walk.new.closed }
{
    let (call, row, closed) = next_call(rows, walk.row, walk.closed);
    let Some(moment) = moment_made(walk.last, &call, step) else {
        return false;
    };
    walk.last = moment;
    walk.row = row;
    walk.closed = closed;
    true
}

/// One acceptance from that lane more.
fn meet_sender(
    lists: &[Vec<(u64, Packet)>],
    walk: &mut Walk,
    moment: u64,
    lane: u32,
    packet: &Packet,
) -> bool
    ensures met { IsTrue result → (rows before : List StepShown)
        → Comes lists.now rows before walk.old.last walk.old.met walk.old.row walk.old.closed
        → Comes lists.now rows (before ++ Enqueue moment lane packet.now ∷ [])
        walk.new.last walk.new.met walk.new.row walk.new.closed }
    ensures whole { length lists.now ≤ MAX_SENDERS → (rows rest : List StepShown)
        → MayCome lists.now rows (Enqueue moment lane packet.now ∷ rest)
        walk.old.last walk.old.met walk.old.row walk.old.closed
        → IsTrue result × MayCome lists.now rows rest walk.new.last walk.new.met walk.new.row walk.new.closed }
{
    let sender = lane as usize;
    if sender >= PLACES || sender >= lists.len() {
        return false;
    }
    let next = walk.met[sender];
    let calls = &lists[sender];
    if next >= calls.len() {
        return false;
    }
    let (own, call) = &calls[next];
    let own = *own;
    if moment != own.max(walk.last) || !call.is_same(packet) {
        return false;
    }
    walk.met[sender] = next + 1;
    walk.last = moment;
    true
}

/// One step more.
fn meet(lists: &[Vec<(u64, Packet)>], rows: &[Step], walk: &mut Walk, step: &Step) -> bool
    ensures met { IsTrue result → (before : List StepShown)
        → Comes lists.now rows.now before walk.old.last walk.old.met walk.old.row walk.old.closed
        → Comes lists.now rows.now (before ++ step.now ∷ [])
        walk.new.last walk.new.met walk.new.row walk.new.closed }
    ensures whole { length lists.now ≤ MAX_SENDERS → (rest : List StepShown)
        → MayCome lists.now rows.now (step.now ∷ rest) walk.old.last walk.old.met walk.old.row walk.old.closed
        → IsTrue result × MayCome lists.now rows.now rest walk.new.last walk.new.met walk.new.row walk.new.closed }
{
    match *step {
        Step::Enqueue {
            moment,
            lane,
            packet,
        } => meet_sender(lists, walk, moment, lane, &packet),
        _ => meet_main(lists, rows, walk, step),
    }
}

/// Whether the steps are made by the calls of the senders, a list for each, and the main thread's for the rows.
fn is_interleaving(lists: &[Vec<(u64, Packet)>], rows: &[Step], steps: &[Step]) -> bool
    ensures made { IsTrue result → (calls_of : ℕ → _)
        → ((i : ℕ) (d : _) → i < length lists.now → (slice_index_or lists.now i d).items ≡ calls_of i)
        → IsInterleaving (length lists.now) calls_of rows.now steps.now }
    ensures whole { length lists.now ≤ MAX_SENDERS → (calls_of : ℕ → _)
        → ((i : ℕ) (d : _) → i < length lists.now → (slice_index_or lists.now i d).items ≡ calls_of i)
        → IsInterleaving (length lists.now) calls_of rows.now steps.now → IsTrue result }
{
    let mut walk = Walk {
        last: 0,
        met: [0; PLACES],
        row: 0,
        closed: false,
    };
    for step in steps {
        if !meet(lists, rows, &mut walk, step) {
            return false;
        }
    }
    is_done(rows, walk.row, walk.closed)
}

/// Whether the engine is that of a whole run: its steps are made by the calls of the senders, a list for each, and of
/// the main thread, it is closed, and nothing waits. Of up to `MAX_SENDERS` lists it is so exactly then.
pub fn is_whole(engine: &Engine, lists: &[Vec<(u64, Packet)>], steps: &[Step]) -> bool
    ensures calls { IsTrue result → (calls_of : ℕ → _)
        → ((i : ℕ) (d : _) → i < length lists.now → (slice_index_or lists.now i d).items ≡ calls_of i)
        → IsInterleaving (length lists.now) calls_of steps.now engine.now.steps }
    ensures closed { IsTrue result → (statistics engine.now.sched.standing.events).closed ≡ true }
    ensures none_waits { IsTrue result → (statistics engine.now.sched.standing.events).queued ≡ 0 }
    ensures whole { length lists.now ≤ MAX_SENDERS → (calls_of : ℕ → _)
        → ((i : ℕ) (d : _) → i < length lists.now → (slice_index_or lists.now i d).items ≡ calls_of i)
        → IsInterleaving (length lists.now) calls_of steps.now engine.now.steps
        → (statistics engine.now.sched.standing.events).closed ≡ true
        → (statistics engine.now.sched.standing.events).queued ≡ 0 → IsTrue result }
{
    engine.is_closed() && engine.queued() == 0 && is_interleaving(lists, steps, engine.steps())
}
