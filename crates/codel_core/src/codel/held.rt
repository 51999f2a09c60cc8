//! CoDel over a line that can only be pulled: its head is in hand while it is judged. The scheduler looks at heads
//! where they stand (`Codel::serve_in_place`). This way is for lines that can't show their head.

ghost use Rattle.std.specs.Prelude.{◌≡◌, ◌^◌, ◌<◌, ◌≤◌, ◌↔◌, [], length, IsNone, None, Some};
ghost use Rattle.packet_core.specs.Params.{IsIntervalInRange};
ghost use Rattle.codel_core.specs.Schedule.{IsStateInRange, StaysInRange};
ghost use Rattle.codel_core.specs.Verdict.{ServesLine};

use crate::codel::Codel;
use crate::heads::judge_heads;
use crate::limits::MAX_WAITING;
use crate::line::{DropSink, Judged, Pull};
use crate::served::Served;
use crate::state::CodelState;
use packet_core::{Params, Waiting};

impl Codel {
    /// Takes packets from the head of the line: drops those that CoDel drops, and gives the next one, marked by CoDel,
    /// for the threshold, or not at all. None where the line is empty.
    pub fn serve<L: Pull, S: DropSink>(
        &mut self,
        line: &mut L,
        now: u64,
        params: &Params,
        sink: &mut S,
    ) -> Option<Served>
        requires room { length (L.items line.old) ≤ S.room sink.old }
        requires size { length (L.items line.old) ≤ MAX_WAITING }
        requires moment { now < 2 ^ 60 }
        requires numbers { IsStateInRange self.old }
        ensures none { IsNone result ↔ (L.items line.old ≡ []) }
        ensures served { ServesLine L.items L.pulled S.taken params.now now
            self.old line.old sink.old result self.new line.new sink.new }
        ensures range { StaysInRange params.now now
            self.old (length (L.items line.old)) self.new (length (L.items line.new)) }
    {
        serve_held(&mut self.state, line, now, params, sink)
    }
}

/// Serves as `Codel::serve` does, over the numbers alone.
fn serve_held<L: Pull, S: DropSink>(
    state: &mut CodelState,
    line: &mut L,
    now: u64,
    params: &Params,
    sink: &mut S,
) -> Option<Served>
    requires room { length (L.items line.old) ≤ S.room sink.old }
    requires size { length (L.items line.old) ≤ MAX_WAITING }
    requires moment { now < 2 ^ 60 }
    requires numbers { IsStateInRange state.old }
    ensures none { IsNone result ↔ (L.items line.old ≡ []) }
    ensures served { ServesLine L.items L.pulled S.taken params.now now
        state.old line.old sink.old result state.new line.new sink.new }
    ensures interval { IsIntervalInRange params.now.interval }
{
    let head = line.pull();
    let mut held = Held { head, line };
    let mark = judge_heads(state, &mut held, now, params, sink);
    let Some(head) = &held.head else {
        return None;
    };
    Some(Served::with_mark(head, mark))
}

/// A line whose head was pulled: it is in hand.
#[derive(Drop)]
pub(crate) struct Held<'a, L> {
    /// The head. None where nothing waited.
    pub(crate) head: Option<Waiting>,
    /// The packets behind it.
    pub(crate) line: &'a mut L,
}

impl<L: Pull> Judged for Held<'_, L> {
    ghost use Rattle.codel_core.specs.Held.{held, PullsHeld, pulls_none, pulls_more};

    ghost judged = { λ h. held h.head (L.items h.line.now) };

    ghost advanced = { λ a n b. PullsHeld L.items L.pulled a.head a.line n b.head b.line };

    ghost advanced_none = { λ a. pulls_none a.head a.line };

    ghost advanced_more = { λ a b c n first then'.
        pulls_more L.pulled_more a.head a.line b.head b.line c.head c.line n first then' };

    fn look(&self) -> Option<&Waiting> {
        self.head.as_ref()
    }

    fn behind(&self, _head: &Waiting) -> u64 {
        self.line.bytes_left()
    }

    fn advance(&mut self) -> Option<Waiting> {
        let head = self.head?;
        self.head = self.line.pull();
        Some(head)
    }
}
