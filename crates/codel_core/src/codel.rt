//! CoDel for one queue: what is kept of it, and the serve that drops, marks and gives.

mod held;

ghost use Rattle.std.specs.Prelude.{◌≡◌, ◌^◌, ◌<◌, ◌≤◌, ◌↔◌, [], length, IsNone, None, Some, false};
ghost use Rattle.codel_core.specs.Schedule.{IsStateInRange, StaysInRange};
ghost use Rattle.codel_core.specs.Verdict.{ServesLine};

use crate::heads::serve_heads;
use crate::limits::MAX_WAITING;
use crate::line::{DropSink, Peek};
use crate::served::Served;
use crate::state::CodelState;
use packet_core::Params;
use std::marker::Model;

/// CoDel for one queue (RFC 8289, section 5, with the marks of RFC 8290, sections 4 and 5.2.7).
#[derive(Clone, Copy, Debug, PartialEq, Eq)]
pub struct Codel {
    state: CodelState,
}

impl Model for Codel {
    ghost use Rattle.codel_core.specs.declared.state.CodelState.{CodelState};

    ghost Value = { CodelState };

    ghost view = { λ c. c.state };

    ghost inverse = { λ v. record { state = v } };
}

impl Codel {
    ghost use Rattle.codel_core.specs.Verdict.{opening};

    /// CoDel of a queue that nothing was taken from.
    pub fn new() -> Codel
        ensures { result ≡ opening }
    {
        Codel {
            state: CodelState {
                first_above: None,
                drop_next: 0,
                count: 0,
                lastcount: 0,
                dropping: false,
            },
        }
    }

    /// CoDel that goes on from that state.
    pub fn from_state(state: CodelState) -> Codel
        ensures { result ≡ state }
    {
        Codel { state }
    }

    /// What is kept of the queue.
    pub fn state(&self) -> CodelState
        ensures { result ≡ self.now }
    {
        self.state
    }

    /// Takes packets from the head of the line: drops those that CoDel drops, and gives the next one, marked by CoDel,
    /// for the threshold, or not at all. None where the line is empty. Each packet stays where it stands until it is
    /// dropped or given.
    #[inline(always)]
    pub fn serve_in_place<L: Peek, S: DropSink>(
        &mut self,
        line: &mut L,
        now: u64,
        params: &Params,
        sink: &mut S,
    ) -> Option<Served>
        requires room { length (L.items line.old) ≤ S.room sink.old }
        requires size { length (L.items line.old) ≤ MAX_WAITING }
        requires moment { now < 2 ^ 60 }
        requires numbers { IsStateInRange self.old }
        ensures none { IsNone result ↔ (L.items line.old ≡ []) }
        ensures served { ServesLine L.items L.pulled S.taken params.now now
            self.old line.old sink.old result self.new line.new sink.new }
        ensures range { StaysInRange params.now now
            self.old (length (L.items line.old)) self.new (length (L.items line.new)) }
    {
        serve_heads(&mut self.state, line, now, params, sink)
    }
}
