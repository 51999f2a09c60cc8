//! CoDel's loop: each head of a line is judged where it is, and only a drop takes it out.

ghost use Rattle.std.specs.Prelude.{◌≡◌, ◌+◌, ◌^◌, ◌<◌, ◌≤◌, ◌↔◌, [], length, slice_get, IsNone, IsTrue, Some};
ghost use Rattle.packet_core.specs.Params.{IsIntervalInRange};
ghost use Rattle.codel_core.specs.Schedule.{IsStateInRange};
ghost use Rattle.codel_core.specs.Queue.{IsDroppable, IsLate};
ghost use Rattle.codel_core.specs.Verdict.{FirstAbove, ServesLine, threshold_mark};
ghost use Rattle.codel_core.specs.Heads.{DropsHead, JudgesLine, MarksHead};

use crate::control_law::spacing;
use crate::judge::{enter, may_mark, passes, should_drop};
use crate::limits::MAX_WAITING;
use crate::line::{DropSink, Judged, Peek, take_head};
use crate::served::{Mark, Served, mark_by_threshold};
use crate::state::CodelState;
use packet_core::{Params, Waiting};

/// Serves as `Codel::serve_in_place` does, over the numbers alone.
#[inline(always)]
pub(crate) fn serve_heads<L: Peek, S: DropSink>(
    state: &mut CodelState,
    line: &mut L,
    now: u64,
    params: &Params,
    sink: &mut S,
) -> Option<Served>
    requires room { length (L.items line.old) ≤ S.room sink.old }
    requires size { length (L.items line.old) ≤ MAX_WAITING }
    requires moment { now < 2 ^ 60 }
    requires numbers { IsStateInRange state.old }
    ensures none { IsNone result ↔ (L.items line.old ≡ []) }
    ensures served { ServesLine L.items L.pulled S.taken params.now now
        state.old line.old sink.old result state.new line.new sink.new }
    ensures interval { IsIntervalInRange params.now.interval }
{
    let mark = judge_heads(state, line, now, params, sink);
    let pulled = line.pull();
    // Only looked at: taken out of its `Some`, a packet is copied once more.
    let Some(head) = &pulled else {
        return None;
    };
    Some(Served::with_mark(head, mark))
}

/// Drops those heads of the line that CoDel drops. The packet after them stays at the head, and the answer is the mark
/// with which it is to be given. Where the line is empty the answer says nothing.
// Merged into a dequeue: most packets are sent by it as they came.
#[inline(always)]
pub(crate) fn judge_heads<L: Judged, S: DropSink>(
    state: &mut CodelState,
    line: &mut L,
    now: u64,
    params: &Params,
    sink: &mut S,
) -> Mark
    requires room { length (L.judged line.old) ≤ S.room sink.old }
    requires size { length (L.judged line.old) ≤ MAX_WAITING }
    requires moment { now < 2 ^ 60 }
    requires numbers { IsStateInRange state.old }
    ensures judges { JudgesLine L.judged L.advanced S.taken params.now now
        state.old line.old sink.old result state.new line.new sink.new }
    ensures interval { IsIntervalInRange params.now.interval }
{
    let _interval = params.interval();
    let Some(first) = line.look() else {
        // An empty line is no standing queue: the next packet that is late begins the interval anew.
        state.first_above = None;
        state.dropping = false;
        return Mark::NoMark;
    };
    if passes(state, first, line.behind(first), now, params) {
        return mark_by_threshold(first, now, params);
    }
    judge_droppable_head(state, line, now, params, sink)
}

/// Goes on where the head of the line is droppable: it is marked or dropped, or sent where no drop is due yet.
// Kept out of its caller, which sends most packets without it: those that aren't droppable, and those that are while
// no drop is due yet.
#[inline(never)]
fn judge_droppable_head<L: Judged, S: DropSink>(
    state: &mut CodelState,
    line: &mut L,
    now: u64,
    params: &Params,
    sink: &mut S,
) -> Mark
    requires room { length (L.judged line.old) ≤ S.room sink.old }
    requires size { length (L.judged line.old) ≤ MAX_WAITING }
    requires moment { now < 2 ^ 60 }
    requires numbers { IsStateInRange state.old }
    requires droppable { IsDroppable params.now now (L.judged line.old) state.old.first_above 0 }
    ensures { JudgesLine L.judged L.advanced S.taken params.now now
        state.old line.old sink.old result state.new line.new sink.new }
{
    let interval = params.interval();
    if !state.dropping {
        if may_mark(params, head_of(line)) {
            enter(state, now, params);
            return Mark::CodelMark;
        }
        drop_head(line, sink);
        // The next packet is sent, late or not: the next drop is due a spacing from now. The judgement keeps
        // `first_above` right.
        judge_head(state, line, now, params);
        enter(state, now, params);
        return mark_head(line, now, params);
    }
    while state.drop_next <= now {
        state.count += 1;
        let head = head_of(line);
        if may_mark(params, head) {
            // The mark tells the sender as a drop would. So it counts as one, and nothing has to leave in its place.
            state.drop_next += spacing(interval, state.count);
            return Mark::CodelMark;
        }
        drop_head(line, sink);
        if !judge_head(state, line, now, params) {
            // No further drop is due, so `drop_next` stays at the moment at which the last one was: should dropping
            // begin again, `first_count` takes the time since then for the time since that drop.
            state.dropping = false;
            return mark_head(line, now, params);
        }
        state.drop_next += spacing(interval, state.count);
    }
    mark_head(line, now, params)
}

/// The head of a line that isn't empty.
fn head_of<L: Judged>(line: &L) -> &Waiting
    requires { 0 < length (L.judged line.now) }
    ensures { Some result.now ≡ slice_get (L.judged line.now) 0 }
{
    let Some(head) = line.look() else {
        unreachable!()
    };
    head
}

/// Whether the head of a line that isn't empty is droppable. It keeps `first_above`.
fn judge_head<L: Judged>(state: &mut CodelState, line: &L, now: u64, params: &Params) -> bool
    requires some { 0 < length (L.judged line.now) }
    requires size { length (L.judged line.now) ≤ MAX_WAITING }
    requires moment { now < 2 ^ 60 }
    ensures droppable { IsTrue result ↔ IsDroppable params.now now (L.judged line.now) state.old.first_above 0 }
    ensures first_above { FirstAbove (IsLate params.now now (L.judged line.now) 0) params.now.interval now
        state.old.first_above state.new.first_above }
    ensures rest { record state.new { first_above = state.old.first_above } ≡ state.old }
{
    let head = head_of(line);
    should_drop(state, head, line.behind(head), now, params)
}

/// The head of a line that isn't empty goes to the sink.
fn drop_head<L: Judged, S: DropSink>(line: &mut L, sink: &mut S)
    requires some { 0 < length (L.judged line.old) }
    requires room { 0 < S.room sink.old }
    ensures dropped { DropsHead L.judged L.advanced S.taken line.old sink.old line.new sink.new }
    ensures room { S.room sink.new + 1 ≡ S.room sink.old }
{
    sink.take(take_head(line));
}

/// The mark of the head of a line that isn't empty, where CoDel doesn't mark it.
fn mark_head<L: Judged>(line: &L, now: u64, params: &Params) -> Mark
    requires { 0 < length (L.judged line.now) }
    ensures { MarksHead L.judged (threshold_mark params.now now) line.now result }
{
    mark_by_threshold(head_of(line), now, params)
}
