//! The calls that tags come back by which no dequeue gives: drops and flushes.

ghost use Rattle.std.specs.Prelude.{◌≡◌, ◌<◌, ◌≤◌, IfSome, IsNone, None, drop, length, min, take};
ghost use Rattle.queue_disc_core.specs.QueueDiscs.{FindsNone, IsFlushed};
ghost use Rattle.maltcove_c.specs.Calls.{Behind, Flushes, FlushesAllTold, IfBehind, ReadsDrops};
ghost use Rattle.maltcove_c.specs.declared.status.TheConstants.{NOT_OPEN, OK};

use crate::records::{MaltcoveDropped, MaltcoveFlushed, dropped_of, flushed_of};
use crate::scheduler::Maltcove;
use crate::status::{NOT_OPEN, OK};
use queue_disc_core::{Handle, QueueDisc};

/// Reads drops into the places, as many as there are of both, and says how many.
fn read_drops(disc: &mut QueueDisc, out: &mut [MaltcoveDropped]) -> usize
    ensures many { result ≡ min (length out.old) disc.old.unread }
    ensures read { ReadsDrops disc.old (take result out.new) disc.new }
    ensures rest { drop result out.new ≡ drop result out.old }
{
    for place in 0..out.len() {
        let Some(dropped) = disc.next_drop() else {
            return place;
        };
        out[place] = dropped_of(&dropped);
    }
    out.len()
}

/// Reads the drops that weren't read yet, as many as there is room for.
#[unsafe(no_mangle)]
pub extern "C" fn maltcove_raw_drops(
    m: &mut Maltcove,
    out: &mut [MaltcoveDropped],
    read: &mut u64,
) -> i32
    ensures none { m.old.handle.value ≡ None
        → (result ≡ NOT_OPEN) × (m.new.handle.value ≡ None) × (read.new ≡ 0) × (out.new ≡ out.old) }
    ensures many { IfBehind (λ a. (result ≡ OK) × (read.new ≡ min (length out.old) a.unread)) m.old.handle.value }
    ensures read { result ≡ OK
        → Behind (λ a b. ReadsDrops a (take read.new out.new) b) m.old.handle.value m.new.handle.value }
    ensures rest { drop read.new out.new ≡ drop read.new out.old }
{
    if !m.is_open {
        *read = 0;
        return NOT_OPEN;
    }
    *read = read_drops(m.handle.disc(), out) as u64;
    OK
}

/// Takes out the next packet, or none where none waits.
fn flush_next(disc: &mut QueueDisc) -> Option<Handle>
    ensures flushed { IfSome result (λ packet. IsFlushed disc.old packet disc.new) }
    ensures none { IsNone result → FindsNone disc.old disc.new }
{
    let mut place = [Handle { tag: 0, id: 0 }];
    if disc.flush(&mut place) == 0 {
        return None;
    }
    Some(place[0])
}

/// Takes packets out into the places, as many as there are of both, and says how many.
fn flush_into(disc: &mut QueueDisc, out: &mut [MaltcoveFlushed]) -> usize
    ensures within { result ≤ length out.old }
    ensures full { result ≡ length out.old → Flushes disc.old (take result out.new) disc.new }
    ensures all { result < length out.old → FlushesAllTold disc.old (take result out.new) disc.new }
    ensures rest { drop result out.new ≡ drop result out.old }
{
    for place in 0..out.len() {
        let Some(packet) = flush_next(disc) else {
            return place;
        };
        out[place] = flushed_of(&packet);
    }
    out.len()
}

/// Takes packets that wait out, as many as there is room for.
#[unsafe(no_mangle)]
pub extern "C" fn maltcove_raw_flush(
    m: &mut Maltcove,
    out: &mut [MaltcoveFlushed],
    given: &mut u64,
) -> i32
    ensures none { m.old.handle.value ≡ None
        → (result ≡ NOT_OPEN) × (m.new.handle.value ≡ None) × (given.new ≡ 0) × (out.new ≡ out.old) }
    ensures open { IfBehind (λ a. result ≡ OK) m.old.handle.value }
    ensures within { given.new ≤ length out.old }
    ensures full { result ≡ OK → given.new ≡ length out.old
        → Behind (λ a b. Flushes a (take given.new out.new) b) m.old.handle.value m.new.handle.value }
    ensures all { result ≡ OK → given.new < length out.old
        → Behind (λ a b. FlushesAllTold a (take given.new out.new) b) m.old.handle.value m.new.handle.value }
    ensures rest { drop given.new out.new ≡ drop given.new out.old }
{
    if !m.is_open {
        *given = 0;
        return NOT_OPEN;
    }
    *given = flush_into(m.handle.disc(), out) as u64;
    OK
}
