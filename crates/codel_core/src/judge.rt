//! The judgements of a serve: whether a packet is late, droppable, markable or past the threshold, and how dropping
//! begins.

ghost use Rattle.std.specs.Prelude.{◌≡◌, ◌+◌, ◌^◌, ◌<◌, ◌≤◌, ◌↔◌, IsTrue, false};
ghost use Rattle.codel_core.specs.Queue.{IsLateWith, HasCome, is_markable, is_past_threshold};
ghost use Rattle.codel_core.specs.Schedule.{IsStateInRange, entered, resumed_count};
ghost use Rattle.codel_core.specs.Verdict.{FirstAbove, SendsHead};

use crate::control_law::spacing;
use crate::state::CodelState;
use packet_core::{Ecn, EcnUse, Params, Waiting};

/// Whether a packet is late: it waited for the target, and more than `mtu` bytes are left behind it.
///
/// However long it waited, a packet with at most one packet's worth of bytes behind it is no sign of a standing
/// queue: the link sends those bytes next, and then the queue is gone. A drop would only leave the link with less to
/// send (RFC 8289, section 4.2). The packet's own bytes don't count, since it leaves the queue either way.
fn is_late(head: &Waiting, behind: u64, now: u64, params: &Params) -> bool
    ensures { IsTrue result ↔ IsLateWith params.now now head.now behind }
{
    head.stamp <= now && params.target() <= now - head.stamp && u64::from(params.mtu()) < behind
}

/// Whether the head of a queue, with so many bytes behind it, is droppable (RFC 8289, section 5.6, `dodequeue`). It
/// keeps `first_above`.
pub(crate) fn should_drop(
    state: &mut CodelState,
    head: &Waiting,
    behind: u64,
    now: u64,
    params: &Params,
) -> bool
    requires { now < 2 ^ 60 }
    ensures droppable { IsTrue result
        ↔ (IsLateWith params.now now head.now behind × HasCome state.old.first_above now) }
    ensures first_above { FirstAbove (IsLateWith params.now now head.now behind) params.now.interval now
        state.old.first_above state.new.first_above }
    ensures rest { record state.new { first_above = state.old.first_above } ≡ state.old }
{
    if !is_late(head, behind, now, params) {
        state.first_above = None;
        return false;
    }
    match state.first_above {
        None => {
            state.first_above = Some(now + params.interval());
            false
        }
        Some(first_above) => first_above <= now,
    }
}

/// Whether the first packet of a serve, with so many bytes behind it, is sent without a mark of CoDel's: it isn't
/// droppable, so that the queue stops to drop, or the queue drops and no drop is due yet.
// Merged into a dequeue: most packets are judged by it alone.
#[inline(always)]
pub(crate) fn passes(
    state: &mut CodelState,
    head: &Waiting,
    behind: u64,
    now: u64,
    params: &Params,
) -> bool
    requires { now < 2 ^ 60 }
    ensures sent { IsTrue result → SendsHead params.now now head.now behind state.old state.new }
    ensures droppable { result ≡ false → IsLateWith params.now now head.now behind × HasCome state.old.first_above now }
    ensures unchanged { result ≡ false → state.new ≡ state.old }
{
    if !should_drop(state, head, behind, now, params) {
        state.dropping = false;
        return true;
    }
    state.dropping && now < state.drop_next
}

/// Whether a packet that would be dropped is marked and sent instead (RFC 8290, section 4.2).
pub(crate) fn may_mark(params: &Params, head: &Waiting) -> bool
    ensures { result ≡ is_markable params.now.ecn head.now.packet.ecn }
{
    match params.ecn() {
        EcnUse::Drop => false,
        EcnUse::Mark => match head.packet.ecn() {
            Ecn::NotEct => false,
            Ecn::Ect1 | Ecn::Ect0 | Ecn::Ce => true,
        },
    }
}

/// Whether the threshold marks a packet that CoDel doesn't mark (RFC 8290, section 5.2.7; tc-fq_codel(8),
/// `ce_threshold`). It is a signal of its own, for senders that slow down a little at each mark. So it looks at this
/// packet alone and leaves CoDel's state as it is, and `ecn` doesn't turn it off. A packet that had CE has told
/// already.
pub(crate) fn is_past_threshold(head: &Waiting, now: u64, params: &Params) -> bool
    ensures { result ≡ is_past_threshold params.now now head.now }
{
    let Some(threshold) = params.ce_threshold() else {
        return false;
    };
    match head.packet.ecn() {
        Ecn::NotEct | Ecn::Ce => false,
        Ecn::Ect1 | Ecn::Ect0 => threshold < now.saturating_sub(head.stamp),
    }
}

/// The count that dropping begins with.
///
/// Where a queue drops again soon after it stopped, its load is most likely the same, and the rate of drops that
/// controlled it then is the place to start from: from a count of one the drops would have to grow as dense again,
/// and the queue would stand that long (RFC 8289, section 5.5). That rate is in what the count grew by, without what
/// it began with: else each cycle would begin with more than the last one needed. `drop_next` is near the moment of
/// the last drop, as it doesn't move when dropping ends, so it tells how long ago that was.
fn first_count(state: &CodelState, now: u64, params: &Params) -> u64
    requires { IsStateInRange state.now }
    ensures value { result ≡ resumed_count params.now now state.now }
    ensures range { (1 ≤ result) × (result ≤ 2 ^ 61) }
{
    let grown = state.count.saturating_sub(state.lastcount);
    // Sixteen intervals are RFC 8289's own bound (section 5.5): a queue that was quiet for longer has another load.
    if grown > 1 && now < state.drop_next + 16 * params.interval() {
        grown
    } else {
        1
    }
}

/// Begins to drop (RFC 8289, section 5.5).
pub(crate) fn enter(state: &mut CodelState, now: u64, params: &Params)
    requires numbers { IsStateInRange state.old }
    requires moment { now < 2 ^ 60 }
    ensures { state.new ≡ entered params.now now state.old }
{
    let count = first_count(state, now, params);
    state.dropping = true;
    state.count = count;
    state.lastcount = count;
    state.drop_next = now + spacing(params.interval(), count);
}
