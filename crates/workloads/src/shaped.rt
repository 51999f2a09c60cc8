//! Packets through an embedded scheduler: rounds of an enqueue and a dequeue.

use crate::Fault;
use crate::digest::Digest;
use crate::packets::{packet, tuples, words_of};
use crate::random::Random;
use packet_core::{Ecn, FiveTuple, Seed, read_params};
use queue_disc_core::{QueueDisc, QueueDiscTotals};
use sched_core::{Cause, Mark, Sent};
use std::alloc::Global;

/// The rounds of a plan.
const ROUNDS: u32 = 1_600_000;

/// How packets come and go.
#[derive(Clone, Copy)]
struct Plan {
    /// How many five-tuples there are: a power of two.
    tuples: u16,
    is_ipv6: bool,
    /// Whether five-tuples come in turn, and not at random.
    in_turn: bool,
    /// Whether packets take part in ECN.
    is_ect: bool,
    /// How many packets wait when the rounds begin.
    waiting: u32,
    /// The microseconds of a round.
    gap: u64,
    /// In a round of so many nothing is taken out, as a mask: none where it is 0.
    pause: u32,
}

/// Sixteen flows in turn, none of which waits for long.
const FEW: Plan = Plan {
    tuples: 16,
    is_ipv6: false,
    in_turn: true,
    is_ect: false,
    waiting: 32,
    gap: 10,
    pause: 0,
};

/// One flow.
const ONE: Plan = Plan {
    tuples: 1,
    waiting: 2,
    ..FEW
};

/// Many flows at random.
const MANY: Plan = Plan {
    tuples: 1_024,
    in_turn: false,
    waiting: 2_048,
    gap: 1,
    ..FEW
};

/// Many flows of IPv6.
const MANY_OF_IPV6: Plan = Plan {
    is_ipv6: true,
    ..MANY
};

/// Packets wait too long, and CoDel drops some.
const LATE: Plan = Plan {
    waiting: 512,
    gap: 100,
    ..FEW
};

/// The same, but CoDel marks them.
const LATE_WITH_ECN: Plan = Plan {
    is_ect: true,
    ..LATE
};

/// Twice as many packets come as go.
const FULL: Plan = Plan {
    in_turn: false,
    waiting: 900,
    pause: 1,
    ..FEW
};

/// A queue disc's parameter words, and how its packets come and go.
struct Job {
    words: [&'static str; 4],
    plan: Plan,
}

/// The words for flows by the port.
const BY_PORT: [&str; 4] = ["classify", "dport", "limit", "10000"];

/// The words for flows by the hash.
const BY_HASH: [&str; 4] = ["classify", "hash", "limit", "10000"];

/// One flow, sixteen and 1,024, by the port and by the hash, above the target with drops and with marks, and at the
/// limit with batches of 64 and of one.
static JOBS: [Job; 9] = [
    Job {
        words: BY_PORT,
        plan: ONE,
    },
    Job {
        words: BY_PORT,
        plan: FEW,
    },
    Job {
        words: BY_PORT,
        plan: MANY,
    },
    Job {
        words: BY_HASH,
        plan: MANY,
    },
    Job {
        words: BY_HASH,
        plan: MANY_OF_IPV6,
    },
    Job {
        words: BY_PORT,
        plan: LATE,
    },
    Job {
        words: BY_PORT,
        plan: LATE_WITH_ECN,
    },
    Job {
        words: ["limit", "1000", "drop_batch", "64"],
        plan: FULL,
    },
    Job {
        words: ["limit", "1000", "drop_batch", "1"],
        plan: FULL,
    },
];

/// The digest of all that was sent and dropped.
pub(crate) fn rounds(alloc: Global, seed: u64, parts: u32) -> Result<u64, Fault> {
    let mut random = Random::of(seed, 5);
    let mut digest = Digest::new();
    for job in &JOBS {
        run(alloc, job, parts, &mut random, &mut digest)?;
    }
    Ok(digest.value())
}

/// Opens a queue disc, lets packets come and go, and adds what was sent and dropped.
fn run(
    alloc: Global,
    job: &Job,
    parts: u32,
    random: &mut Random,
    digest: &mut Digest,
) -> Result<(), Fault> {
    let Ok(params) = read_params(&job.words) else {
        return Err(Fault::Words);
    };
    let tuples = tuples(alloc, job.plan.tuples, job.plan.is_ipv6, random)?;
    let mut disc = QueueDisc::open(alloc, params, Seed([7; 16]))?;
    for number in 0..job.plan.waiting {
        come(
            &mut disc,
            &job.plan,
            &tuples,
            u64::from(number),
            0,
            random,
            digest,
        )?;
    }
    let rounds = ROUNDS.checked_div(parts).unwrap_or(0);
    let mut moment = 0u64;
    for number in 0..rounds {
        moment = moment.wrapping_add(job.plan.gap) & ((1 << 50) - 1);
        come(
            &mut disc,
            &job.plan,
            &tuples,
            u64::from(number),
            moment,
            random,
            digest,
        )?;
        if number & job.plan.pause == 0 {
            go(&mut disc, moment, digest)?;
        }
    }
    add_totals(&disc.totals(), digest);
    Ok(())
}

/// Adds all totals.
fn add_totals(totals: &QueueDiscTotals, digest: &mut Digest) {
    digest.add(totals.accepted);
    digest.add(totals.accepted_bytes);
    digest.add(totals.sent);
    digest.add(totals.sent_bytes);
    digest.add(totals.dropped_codel);
    digest.add(totals.dropped_overflow);
    digest.add(totals.dropped_bytes);
    digest.add(totals.marked);
    digest.add(totals.threshold_marked);
    digest.add(totals.flushed);
    digest.add(totals.flushed_bytes);
    digest.add(totals.queued);
    digest.add(totals.queued_bytes);
    digest.add(u64::from(totals.closed));
}

/// A packet comes, and the drops for it are read.
fn come(
    disc: &mut QueueDisc,
    plan: &Plan,
    tuples: &[FiveTuple],
    number: u64,
    moment: u64,
    random: &mut Random,
    digest: &mut Digest,
) -> Result<(), Fault> {
    let bits = random.next();
    let place = if plan.in_turn { number } else { bits >> 8 };
    let place = place & u64::from(plan.tuples.saturating_sub(1));
    let Some(tuple) = tuples.get(place as usize) else {
        return Err(Fault::Refused);
    };
    let packet = packet(tuple, bits, plan.is_ect, number)?;
    let Ok(enqueued) = disc.enqueue(moment, packet) else {
        return Err(Fault::Refused);
    };
    digest.add(enqueued.id << 20 ^ u64::from(enqueued.flow));
    if enqueued.drops > 0 {
        read_drops(disc, enqueued.drops, digest);
    }
    Ok(())
}

/// A packet goes, and the drops before it are read.
fn go(disc: &mut QueueDisc, moment: u64, digest: &mut Digest) -> Result<(), Fault> {
    let (sent, drops) = match disc.dequeue(moment) {
        Ok(dequeued) => (dequeued.sent, dequeued.drops),
        Err(_) => return Err(Fault::Refused),
    };
    match sent {
        Some(sent) => add_sent(&sent, digest),
        None => digest.add(0),
    }
    if drops > 0 {
        read_drops(disc, drops, digest);
    }
    Ok(())
}

/// Adds all that is said of a packet that is sent.
fn add_sent(sent: &Sent, digest: &mut Digest) {
    let mark = match sent.mark {
        Mark::NoMark => 0u64,
        Mark::CodelMark => 1,
        Mark::Threshold => 2,
    };
    let ecn = match sent.packet.ecn() {
        Ecn::NotEct => 0u64,
        Ecn::Ect1 => 1,
        Ecn::Ect0 => 2,
        Ecn::Ce => 3,
    };
    let marks = u64::from(sent.packet.len()) << 4 | mark << 2 | ecn;
    let (ends, ports) = words_of(&sent.packet.tuple());
    digest.add_four([sent.id, sent.moment, sent.packet.tag(), marks]);
    digest.add(ends ^ ports.rotate_left(20));
}

/// Reads so many drops.
fn read_drops(disc: &mut QueueDisc, drops: u64, digest: &mut Digest) {
    for _ in 0..drops {
        if let Some(dropped) = disc.next_drop() {
            let cause = match dropped.cause {
                Cause::Codel => 0u64,
                Cause::Overflow => 1,
            };
            digest.add_four([dropped.tag, dropped.id, cause, 1]);
        }
    }
}
