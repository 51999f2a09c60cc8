//! The workloads: what comes, what waits and what a round does.

ghost use Rattle.std.specs.Prelude.{◌≡◌, ◌*◌};

use packet_core::{Classify, Ecn, EcnUse};

/// How many rounds a repetition has, where nothing else is said.
pub const ROUNDS: u32 = 100_000;

/// How many repetitions there are, where nothing else is said.
pub const REPETITIONS: u32 = 15;

/// How many rounds a repetition has that is to run on fresh memory.
const COLD_ROUNDS: u32 = 1_000_000;

/// How many of these there are.
const COLD_REPETITIONS: u32 = 5;

/// What a round does.
#[derive(Clone, Copy, Debug, PartialEq, Eq)]
pub enum Round {
    /// One enqueue, one dequeue.
    EnqueueDequeue,
    /// Enqueues until one packet more waits than before the rounds, then one dequeue.
    RefillDequeue,
    /// One enqueue.
    Enqueue,
    /// Two enqueues, one dequeue.
    TwoEnqueuesDequeue,
}

/// What becomes of the events.
#[derive(Clone, Copy, Debug, PartialEq, Eq)]
pub enum Recording {
    /// All are stored.
    Stored,
    /// None is.
    Unstored,
}

/// What the steps go through.
#[derive(Clone, Copy, Debug, PartialEq, Eq)]
pub enum Through {
    /// A scheduler, with that recording of its events.
    Sched(Recording),
    /// An engine, which stores its events and its steps.
    Engine,
    /// A locked port with such an engine, by its one seat.
    LockedPort,
}

/// What becomes of the packets that come out.
#[derive(Clone, Copy, Debug, PartialEq, Eq)]
pub enum Outgoing {
    /// Nothing: the rounds have the calls alone.
    Left,
    /// They are read, as a device that sends them has to.
    Read,
}

/// What memory the rounds run on (`times_of_rounds` says how far).
#[derive(Clone, Copy, Debug, PartialEq, Eq)]
pub enum Memory {
    /// Such as earlier repetitions used, where the workload doesn't say otherwise.
    Warm,
    /// Such as no repetition used: each of its pages is new to the process.
    Cold,
}

/// A workload: packets of 1,000 bytes that come to some flows in turn. Before its rounds as many packets wait in
/// each flow, and in an overload as many as the limit allows.
#[derive(Clone, Copy, Debug, PartialEq, Eq)]
pub struct Workload {
    /// Its name.
    pub name: &'static str,
    /// What it does, in a line.
    pub about: &'static str,
    /// What a round does.
    pub round: Round,
    /// How many rounds a repetition has.
    pub rounds: u32,
    /// How many repetitions there are, an odd number.
    pub repetitions: u32,
    /// How many flows there are, from 1 to 65,536.
    pub flows: u32,
    /// How many of them packets come to, from 1 on.
    pub busy: u32,
    /// How many packets wait in each of them before the rounds.
    pub waiting: u16,
    /// The time between two rounds, in nanoseconds.
    pub step: u32,
    /// The most packets that wait.
    pub limit: u32,
    /// The ECN field of each packet.
    pub ecn: Ecn,
    /// Whether CoDel marks or drops.
    pub ecn_use: EcnUse,
    /// How a packet's flow is found.
    pub classify: Classify,
    /// What the steps go through.
    pub through: Through,
    /// What becomes of the packets that come out.
    pub outgoing: Outgoing,
}

impl Workload {
    /// How many packets wait before the rounds, in all flows.
    pub fn waiting_in_all(&self) -> u64
        ensures { result ≡ self.now.busy * self.now.waiting }
    {
        u64::from(self.busy) * u64::from(self.waiting)
    }

    /// The same with so many rounds that they run on fresh memory, and fewer repetitions.
    pub fn cold(self) -> Workload
        ensures { result ≡ record self { rounds = COLD_ROUNDS; repetitions = COLD_REPETITIONS } }
    {
        Workload {
            rounds: COLD_ROUNDS,
            repetitions: COLD_REPETITIONS,
            ..self
        }
    }

    /// The same with one repetition of so many rounds.
    pub fn once(self, rounds: u32) -> Workload
        ensures { result ≡ record self { rounds = rounds; repetitions = 1 } }
    {
        Workload {
            rounds,
            repetitions: 1,
            ..self
        }
    }
}

/// Sixteen flows that share a limit of 1,000 packets.
const OVERLOAD: Workload = Workload {
    name: "overflow",
    about: "16 flows at the limit of 1,000 packets; one enqueue, which overflows where no room is left",
    round: Round::Enqueue,
    rounds: ROUNDS,
    repetitions: REPETITIONS,
    flows: 1_024,
    busy: 16,
    waiting: 62,
    step: 100,
    limit: 1_000,
    ecn: Ecn::NotEct,
    ecn_use: EcnUse::Drop,
    classify: Classify::Dport,
    through: Through::Sched(Recording::Stored),
    outgoing: Outgoing::Left,
};

/// One flow in which ten packets wait.
const ONE: Workload = Workload {
    name: "one",
    about: "10 packets wait in one flow; one enqueue, one dequeue",
    round: Round::EnqueueDequeue,
    busy: 1,
    waiting: 10,
    limit: 10_240,
    ..OVERLOAD
};

/// Sixteen flows with 64 packets each.
const FEW: Workload = Workload {
    name: "few",
    about: "64 packets wait in each of 16 flows; one enqueue, one dequeue",
    busy: 16,
    waiting: 64,
    ..ONE
};

/// As many busy flows as there are, with eight packets each.
const MANY: Workload = Workload {
    name: "many",
    about: "8 packets wait in each of 1,024 flows; one enqueue, one dequeue",
    busy: 1_024,
    waiting: 8,
    ..ONE
};

/// Packets that wait for ten milliseconds, above the target.
const CODEL: Workload = Workload {
    name: "codel",
    about: "1,024 packets wait for 10 ms; as many enqueues as were sent or dropped, one dequeue",
    round: Round::RefillDequeue,
    step: 10_000,
    ..FEW
};

/// All workloads. It is a static, since a constant is written out wherever it is named.
pub static WORKLOADS: [Workload; 25] = [
    ONE,
    FEW,
    MANY,
    Workload {
        name: "one_of_1",
        about: "as one, where it is the only flow",
        flows: 1,
        ..ONE
    },
    Workload {
        name: "one_of_16",
        about: "as one, where there are 16 flows",
        flows: 16,
        ..ONE
    },
    Workload {
        name: "one_of_1024",
        about: "the same as one: there are 1,024 flows, but where a word says another number",
        ..ONE
    },
    Workload {
        name: "one_of_65536",
        about: "as one, where there are 65,536 flows",
        flows: 65_536,
        ..ONE
    },
    Workload {
        name: "many_of_16",
        about: "as many, with 16 flows, all busy",
        flows: 16,
        busy: 16,
        ..MANY
    },
    Workload {
        name: "many_of_1024",
        about: "the same as many: all of 1,024 flows are busy",
        ..MANY
    },
    // A round in 8 ns: the 524,288 packets before it are gone in less than CoDel's target.
    Workload {
        name: "many_of_65536",
        about: "as many, with 65,536 flows, all busy; its memory is fresh each time",
        flows: 65_536,
        busy: 65_536,
        step: 8,
        limit: 1_048_576,
        ..MANY
    },
    OVERLOAD,
    Workload {
        name: "overflow_b64",
        about: "the same as overflow: a batch is always half of the fattest flow, 64 packets at most",
        ..OVERLOAD
    },
    Workload {
        name: "overflow_2to1",
        about: "16 flows at the limit of 1,000 packets; two enqueues, one dequeue; its memory is fresh each time",
        round: Round::TwoEnqueuesDequeue,
        ..OVERLOAD
    },
    CODEL,
    Workload {
        name: "codel_mark",
        about: "the same as codel, with marks in place of drops",
        ecn: Ecn::Ect0,
        ecn_use: EcnUse::Mark,
        ..CODEL
    },
    Workload {
        name: "one_hash",
        about: "as one, with flows chosen by the hash",
        classify: Classify::Hash,
        ..ONE
    },
    Workload {
        name: "few_hash",
        about: "as few, with flows chosen by the hash",
        classify: Classify::Hash,
        ..FEW
    },
    Workload {
        name: "many_hash",
        about: "as many, with flows chosen by the hash",
        classify: Classify::Hash,
        ..MANY
    },
    Workload {
        name: "one_unstored",
        about: "as one, with a journal that stores no event",
        through: Through::Sched(Recording::Unstored),
        ..ONE
    },
    Workload {
        name: "few_unstored",
        about: "as few, with a journal that stores no event",
        through: Through::Sched(Recording::Unstored),
        ..FEW
    },
    Workload {
        name: "many_unstored",
        about: "as many, with a journal that stores no event",
        through: Through::Sched(Recording::Unstored),
        ..MANY
    },
    Workload {
        name: "overflow_unstored",
        about: "as overflow, with a journal that stores no event",
        through: Through::Sched(Recording::Unstored),
        ..OVERLOAD
    },
    Workload {
        name: "codel_unstored",
        about: "as codel, with a journal that stores no event",
        through: Through::Sched(Recording::Unstored),
        ..CODEL
    },
    Workload {
        name: "unlocked",
        about: "as few, through an engine, which stores its steps too; its memory is fresh each time",
        through: Through::Engine,
        ..FEW
    },
    Workload {
        name: "locked",
        about: "as unlocked, with the engine behind a lock: one thread, with the one seat of a locked port",
        through: Through::LockedPort,
        ..FEW
    },
];
