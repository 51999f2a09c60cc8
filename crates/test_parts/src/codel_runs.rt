//! CoDel's drops, marks and state, as it serves the queue of one of two flows.

ghost use Rattle.std.specs.Prelude.{◌+◌, ◌^◌, ◌<◌};

use crate::parameters::STANDARD;
use crate::queued::{push, waiting};
use codel_core::{Codel, CodelState, DropSink, Mark};
use flow_core::Flows;
use packet_core::{Ecn, EcnUse, ParamFields, Params, Waiting};
use std::process::Abort;

/// How many packets were dropped, and the id of the last one.
#[derive(Drop)]
struct Dropped {
    count: u64,
    last: Option<u64>,
    room: u64,
    ghost fits: { count + room < 2 ^ 64 },
}

impl DropSink for Dropped {
    ghost use Rattle.std.specs.Prelude.{◌≡◌, ◌+◌, ◌∷◌, [], length};
    ghost use Rattle.std.proofs.Common.{◌∙◌, sym, ap, add-zero, add_assoc, length-append};

    ghost room = { λ s. s.room };

    ghost taken = { λ a ws b. b.count ≡ a.count + length ws };

    ghost taken_none = { λ a. sym (add-zero a.count) };

    ghost taken_more = { λ a b c ws w first then'.
        then' ∙ ap (λ n. n + 1) first ∙ add_assoc a.count (length ws) 1
        ∙ ap (λ n. a.count + n) (sym (length-append ws (w ∷ []))) };

    fn take(&mut self, dropped: Waiting) {
        self.room -= 1;
        self.count += 1;
        self.last = Some(dropped.id);
    }
}

/// Id of a packet that is given, its field as sent, and its mark.
type Given = Option<(u64, (Ecn, Mark))>;

/// A packet that is given as it came.
const SENT: (Ecn, Mark) = (Ecn::NotEct, Mark::NoMark);

/// A packet that CoDel marks.
const MARKED: (Ecn, Mark) = (Ecn::Ce, Mark::CodelMark);

/// A packet that is past the threshold, which marks it.
const PAST: (Ecn, Mark) = (Ecn::Ce, Mark::Threshold);

/// CoDel's state: when packets will have been late for an interval, when the next drop is due, and both counts.
#[derive(Clone, Copy)]
enum Phase {
    /// Of a queue that drops nothing.
    Calm(Option<u64>, u64, u64, u64),
    /// Of a queue that drops.
    Dropping(Option<u64>, u64, u64, u64),
}

/// A serve: its moment, what it gives, how many packets are dropped by then, the id of the last of them, and CoDel's
/// state after it.
type Serve = (u64, Given, u64, Option<u64>, Phase);

/// A run: the parameters, the length of the packets and their fields, CoDel's state at first, and the serves.
#[derive(Clone, Copy)]
struct Run<'a> {
    fields: ParamFields,
    len: u32,
    codes: &'a [Ecn],
    before: Phase,
    serves: &'a [Serve],
}

/// The state as CoDel has it.
fn state(of: Phase) -> CodelState {
    let (dropping, (first_above, drop_next, count, lastcount)) = match of {
        Phase::Calm(first, next, count, last) => (false, (first, next, count, last)),
        Phase::Dropping(first, next, count, last) => (true, (first, next, count, last)),
    };
    CodelState {
        first_above,
        drop_next,
        count,
        lastcount,
        dropping,
    }
}

/// Which of CoDel's two serves is called.
#[derive(Clone, Copy)]
enum Way {
    /// `Codel::serve`.
    Pulled,
    /// `Codel::serve_in_place`.
    InPlace,
}

/// Packets come at 0, and CoDel, which begins in a state, serves them. Both serves give the same.
fn plays(rt: &(impl Abort + AllocGlobal), run: &Run<'_>) {
    plays_by(rt, run, Way::Pulled);
    plays_by(rt, run, Way::InPlace);
}

fn plays_by(rt: &(impl Abort + AllocGlobal), run: &Run<'_>, way: Way) {
    let params = Params::try_new(run.fields).expect(rt, "parameters");
    let mut flows = Flows::try_new(rt.alloc(), 2).expect(rt, "memory");
    serves_all(rt, &mut flows, &params, run, way);
}

fn serves_all(rt: &impl Abort, flows: &mut Flows, params: &Params, run: &Run<'_>, way: Way) {
    arrive(rt, flows, run.len, run.codes);
    compare_serves(rt, flows, params, run, way);
    assert!(rt; 0 < flows.flows());
    assert_eq!(rt; flows.len(0), 1);
}

/// Packets of `len` bytes with those fields come to flow 1 at 0, numbered from 0, and one before them to flow 0.
fn arrive(rt: &impl Abort, flows: &mut Flows, len: u32, codes: &[Ecn]) {
    push(rt, flows, 0, waiting(rt, 99, 1000, Ecn::NotEct));
    let mut id = 0u64;
    for &ecn in codes {
        push(rt, flows, 1, waiting(rt, id, len, ecn));
        id = id.wrapping_add(1);
    }
}

/// CoDel begins in a state, and serves flow 1 at some moments. What it reports at each is compared.
fn compare_serves(rt: &impl Abort, flows: &mut Flows, params: &Params, run: &Run<'_>, way: Way) {
    let mut sink = Dropped {
        count: 0,
        last: None,
        room: 20,
    };
    let mut codel = Codel::from_state(state(run.before));
    for &(now, given, dropped, last, after) in run.serves {
        let served = serve(rt, flows, &mut codel, now, params, &mut sink, way);
        assert_eq!(rt;
            (served, sink.count, sink.last, codel.state()),
            (given, dropped, last, state(after)),
            "at {now}"
        );
    }
}

/// A serve of flow 1, whose conditions are tested.
fn serve(
    rt: &impl Abort,
    flows: &mut Flows,
    codel: &mut Codel,
    now: u64,
    params: &Params,
    sink: &mut Dropped,
    way: Way,
) -> Given {
    let state = codel.state();
    assert!(rt; now < 1 << 60);
    assert!(rt; state.drop_next <= 1 << 61);
    assert!(rt; state.count <= 1 << 61);
    assert!(rt; state.lastcount <= 1 << 61);
    assert!(rt; 1 < flows.flows());
    assert!(rt; flows.len(1) <= sink.room);
    let line = &mut flows.line(1);
    let served = match way {
        Way::Pulled => codel.serve(line, now, params, sink)?,
        Way::InPlace => codel.serve_in_place(line, now, params, sink)?,
    };
    Some((
        served.waiting.id,
        (served.waiting.packet.ecn(), served.mark),
    ))
}

/// Two flows, and a queue that drops.
const DROPS: ParamFields = ParamFields {
    flows: 2,
    ecn: EcnUse::Drop,
    ..STANDARD
};

/// Two flows, and a queue that marks.
const MARKS: ParamFields = ParamFields {
    flows: 2,
    ecn: EcnUse::Mark,
    ..STANDARD
};

/// The state at first.
const NEW: Phase = Phase::Calm(None, 0, 0, 0);

/// When packets that are late at 5,000 will have been late for an interval.
const LATE: Option<u64> = Some(105_000);

/// The state after four drops, where little is left.
const STOPPED: Phase = Phase::Calm(None, 333_445, 4, 1);

#[test]
fn ten_packets_drop_and_send(rt: HostRuntime) {
    plays(&rt, &TEN_PACKETS);
}

const TEN_PACKETS: Run<'static> = Run {
    fields: DROPS,
    len: 1000,
    codes: &[Ecn::NotEct; 10],
    before: NEW,
    serves: &[
        (5_000, Some((0, SENT)), 0, None, Phase::Calm(LATE, 0, 0, 0)),
        (
            105_000,
            Some((2, SENT)),
            1,
            Some(1),
            Phase::Dropping(LATE, 205_000, 1, 1),
        ),
        (
            205_000,
            Some((4, SENT)),
            2,
            Some(3),
            Phase::Dropping(LATE, 275_710, 2, 1),
        ),
        (
            275_710,
            Some((6, SENT)),
            3,
            Some(5),
            Phase::Dropping(LATE, 333_445, 3, 1),
        ),
        (333_445, Some((8, SENT)), 4, Some(7), STOPPED),
        (333_446, Some((9, SENT)), 4, Some(7), STOPPED),
        (333_447, None, 4, Some(7), STOPPED),
    ],
};

#[test]
fn marks_in_place_of_drops(rt: HostRuntime) {
    plays(&rt, &MARKS_IN_PLACE);
}

const MARKS_IN_PLACE: Run<'static> = Run {
    fields: MARKS,
    len: 1000,
    codes: &[Ecn::Ect0; 10],
    before: NEW,
    serves: &[
        (
            5_000,
            Some((0, (Ecn::Ect0, Mark::NoMark))),
            0,
            None,
            Phase::Calm(LATE, 0, 0, 0),
        ),
        (
            105_000,
            Some((1, MARKED)),
            0,
            None,
            Phase::Dropping(LATE, 205_000, 1, 1),
        ),
        (
            205_000,
            Some((2, MARKED)),
            0,
            None,
            Phase::Dropping(LATE, 275_710, 2, 1),
        ),
    ],
};

#[test]
fn little_behind_no_drop(rt: HostRuntime) {
    plays(&rt, &LITTLE_BEHIND);
}

const LITTLE_BEHIND: Run<'static> = Run {
    fields: DROPS,
    len: 1000,
    codes: &[Ecn::NotEct; 3],
    before: NEW,
    serves: &[
        (5_000, Some((0, SENT)), 0, None, Phase::Calm(LATE, 0, 0, 0)),
        (105_000, Some((1, SENT)), 0, None, NEW),
        (105_001, Some((2, SENT)), 0, None, NEW),
    ],
};

#[test]
fn drop_burst(rt: HostRuntime) {
    plays(&rt, &BURST);
}

const BURST: Run<'static> = Run {
    fields: ParamFields {
        target: 0,
        interval: 1,
        mtu: 0,
        ..DROPS
    },
    len: 100,
    codes: &[Ecn::NotEct; 7],
    before: NEW,
    serves: &[
        (0, Some((0, SENT)), 0, None, Phase::Calm(Some(1), 0, 0, 0)),
        (
            1,
            Some((2, SENT)),
            1,
            Some(1),
            Phase::Dropping(Some(1), 2, 1, 1),
        ),
        (2, Some((6, SENT)), 4, Some(5), Phase::Calm(None, 2, 4, 1)),
    ],
};

#[test]
fn count_resumes_within_sixteen_intervals(rt: HostRuntime) {
    plays(&rt, &RESUMES);
    plays(&rt, &BEGINS_ANEW);
}

/// A microsecond before sixteen intervals have gone.
const RESUMES: Run<'static> = Run {
    fields: DROPS,
    len: 1000,
    codes: &[Ecn::NotEct; 3],
    before: Phase::Calm(Some(1_000), 333_445, 4, 1),
    serves: &[(
        1_933_444,
        Some((1, SENT)),
        1,
        Some(0),
        Phase::Dropping(None, 1_991_179, 3, 3),
    )],
};

const BEGINS_ANEW: Run<'static> = Run {
    serves: &[(
        1_933_445,
        Some((1, SENT)),
        1,
        Some(0),
        Phase::Dropping(None, 2_033_445, 1, 1),
    )],
    ..RESUMES
};

#[test]
fn a_drop_and_then_a_mark(rt: HostRuntime) {
    plays(&rt, &DROP_AND_MARK);
}

const DROP_AND_MARK: Run<'static> = Run {
    fields: MARKS,
    len: 1000,
    codes: &[
        Ecn::NotEct,
        Ecn::Ect1,
        Ecn::NotEct,
        Ecn::NotEct,
        Ecn::NotEct,
    ],
    before: Phase::Dropping(Some(1_000), 2_000, 1, 1),
    serves: &[(
        150_000,
        Some((1, MARKED)),
        1,
        Some(0),
        Phase::Dropping(Some(1_000), 130_445, 3, 1),
    )],
};

#[test]
fn longer_waits_than_the_threshold_are_marked(rt: HostRuntime) {
    plays(&rt, &LONGER_WAITS);
    plays(&rt, &LONGER_WAITS_OF_MARKS);
}

const LONGER_WAITS: Run<'static> = Run {
    fields: ParamFields {
        ce_threshold: Some(1_000),
        ..DROPS
    },
    len: 100,
    codes: &[Ecn::Ect0, Ecn::NotEct, Ecn::Ect1, Ecn::Ce, Ecn::Ect0],
    before: NEW,
    serves: &[
        (1_000, Some((0, (Ecn::Ect0, Mark::NoMark))), 0, None, NEW),
        (1_001, Some((1, SENT)), 0, None, NEW),
        (1_001, Some((2, PAST)), 0, None, NEW),
        (1_001, Some((3, (Ecn::Ce, Mark::NoMark))), 0, None, NEW),
        (4_999, Some((4, PAST)), 0, None, NEW),
    ],
};

const LONGER_WAITS_OF_MARKS: Run<'static> = Run {
    fields: ParamFields {
        ce_threshold: Some(1_000),
        ..MARKS
    },
    ..LONGER_WAITS
};

#[test]
fn a_threshold_of_zero_marks_any_wait(rt: HostRuntime) {
    plays(&rt, &ANY_WAIT);
}

const ANY_WAIT: Run<'static> = Run {
    fields: ParamFields {
        ce_threshold: Some(0),
        ..DROPS
    },
    len: 100,
    codes: &[Ecn::Ect1; 2],
    before: NEW,
    serves: &[
        (0, Some((0, (Ecn::Ect1, Mark::NoMark))), 0, None, NEW),
        (1, Some((1, PAST)), 0, None, NEW),
    ],
};

/// The drops and the states are those of `ten_packets_drop_and_send`.
#[test]
fn the_threshold_leaves_drops_and_states(rt: HostRuntime) {
    plays(&rt, &TEN_PACKETS_PAST);
}

const TEN_PACKETS_PAST: Run<'static> = Run {
    fields: ParamFields {
        ce_threshold: Some(1),
        ..DROPS
    },
    len: 1000,
    codes: &[Ecn::Ect0; 10],
    before: NEW,
    serves: &[
        (5_000, Some((0, PAST)), 0, None, Phase::Calm(LATE, 0, 0, 0)),
        (
            105_000,
            Some((2, PAST)),
            1,
            Some(1),
            Phase::Dropping(LATE, 205_000, 1, 1),
        ),
        (
            205_000,
            Some((4, PAST)),
            2,
            Some(3),
            Phase::Dropping(LATE, 275_710, 2, 1),
        ),
        (
            275_710,
            Some((6, PAST)),
            3,
            Some(5),
            Phase::Dropping(LATE, 333_445, 3, 1),
        ),
        (333_445, Some((8, PAST)), 4, Some(7), STOPPED),
        (333_446, Some((9, PAST)), 4, Some(7), STOPPED),
        (333_447, None, 4, Some(7), STOPPED),
    ],
};

/// The states are those of `marks_in_place_of_drops`.
#[test]
fn codels_marks_stay_codels(rt: HostRuntime) {
    plays(&rt, &CODELS_MARKS);
}

const CODELS_MARKS: Run<'static> = Run {
    fields: ParamFields {
        ce_threshold: Some(1),
        ..MARKS
    },
    serves: &[
        (5_000, Some((0, PAST)), 0, None, Phase::Calm(LATE, 0, 0, 0)),
        (
            105_000,
            Some((1, MARKED)),
            0,
            None,
            Phase::Dropping(LATE, 205_000, 1, 1),
        ),
        (
            205_000,
            Some((2, MARKED)),
            0,
            None,
            Phase::Dropping(LATE, 275_710, 2, 1),
        ),
    ],
    ..MARKS_IN_PLACE
};

#[test]
fn marks_between_codels_are_the_thresholds(rt: HostRuntime) {
    plays(&rt, &MARKS_BETWEEN);
}

const MARKS_BETWEEN: Run<'static> = Run {
    fields: ParamFields {
        ce_threshold: Some(1_000),
        ..MARKS
    },
    len: 1000,
    codes: &[Ecn::Ect1; 5],
    before: Phase::Dropping(Some(1_000), 200_000, 1, 1),
    serves: &[
        (
            199_999,
            Some((0, PAST)),
            0,
            None,
            Phase::Dropping(Some(1_000), 200_000, 1, 1),
        ),
        (
            200_000,
            Some((1, MARKED)),
            0,
            None,
            Phase::Dropping(Some(1_000), 270_710, 2, 1),
        ),
        (
            200_001,
            Some((2, PAST)),
            0,
            None,
            Phase::Dropping(Some(1_000), 270_710, 2, 1),
        ),
    ],
};
