//! A router's buffers: one pool, and each buffer is given back once: after its packet's bytes were sent, where the packet
//! is lost, or at the end.
#![tactic(auto)]

ghost use Rattle.std.specs.Prelude.{◌≡◌, []};

use anyhow::Result;
use maltcove::{
    Cause, Ecn, Event, FiveTuple, GhostList, Ip, LengthOutOfRange, Memory, Packet, Recorder, Sched,
    Seed, Served, Waiting, read_params,
};
use std::cell::Cell;

/// How many buffers there are. A packet's tag is the number of its buffer, from 0.
const BUFFERS: u64 = 4;

/// The buffers: a bit of each, 1 where it is free.
#[derive(Drop)]
struct Pool {
    free: Cell<u64>,
}

impl Pool {
    /// Takes a free buffer, if there is one.
    fn take(&self) -> Option<u64> {
        for buffer in 0..BUFFERS {
            if self.is_free(buffer) {
                self.free.set(self.free.get() & !(1 << buffer));
                return Some(buffer);
            }
        }
        None
    }

    /// The packet's buffer is free again.
    fn give_back(&self, packet: &Packet) {
        if packet.tag() < BUFFERS {
            self.free.set(self.free.get() | 1 << packet.tag());
        }
    }

    /// Whether a buffer is free.
    fn is_free(&self, buffer: u64) -> bool {
        buffer < BUFFERS && self.free.get() & (1 << buffer) != 0
    }

    /// How many are free.
    fn count(&self) -> usize {
        (0..BUFFERS).filter(|buffer| self.is_free(*buffer)).count()
    }
}

/// It gives a packet's buffer back where the packet is lost. What it was told stands in proofs alone.
#[derive(Drop)]
struct Returns<'a> {
    pool: &'a Pool,
    told: GhostList<Event>,
    sent: GhostList<Waiting>,
    lost: GhostList<Waiting>,
}

impl<'a> Returns<'a> {
    /// Over that pool. It was told nothing.
    fn to(pool: &'a Pool) -> Returns<'a>
        ensures told { result.told.items ≡ [] }
        ensures sent { result.sent.items ≡ [] }
        ensures lost { result.lost.items ≡ [] }
    {
        Returns {
            pool,
            told: GhostList::new(),
            sent: GhostList::new(),
            lost: GhostList::new(),
        }
    }
}

impl Recorder for Returns<'_> {
    ghost told = { λ returns. returns.told.items };

    ghost sent = { λ returns. returns.sent.items };

    ghost lost = { λ returns. returns.lost.items };

    ghost room = { λ returns. returns.told.room };

    fn accept(&mut self, packet: &Waiting, lane: u32, flow: u32) {
        self.told = self.told.and(&Event::acceptance(packet, lane, flow));
    }

    fn send(&mut self, served: &Served, moment: u64) {
        self.told = self.told.and(&Event::departure(served, moment));
        self.sent = self.sent.and(&served.waiting);
        // The dequeue answers with the packet next. Its buffer has the bytes that go out then.
    }

    fn lose(&mut self, packet: &Waiting, moment: u64, cause: Cause) {
        self.told = self.told.and(&Event::loss(packet, moment, cause));
        self.lost = self.lost.and(packet);
        self.pool.give_back(&packet.packet);
    }

    fn close(&mut self, moment: u64) {
        self.told = self.told.and(&Event::Closed { moment });
    }

    fn reserve(&mut self, more: usize) -> Result<(), Memory> {
        self.told = self.told.with_room(more);
        Ok(())
    }
}

fn main(rt: HostRuntime) -> Result<()> {
    let pool = Pool {
        free: Cell::new((1 << BUFFERS) - 1),
    };
    let params = read_params(&["classify", "dport", "flows", "64", "limit", "2"])?;
    let seed = Seed([0; 16]);
    let mut sched = Sched::try_with_recorder(rt.alloc(), params, seed, Returns::to(&pool))?;
    for moment in 0..5 {
        receive(&rt, &pool, &mut sched, moment)?;
    }
    if let Some(sent) = sched.dequeue(5)? {
        // Here a router sends the buffer's bytes. Then the buffer is free.
        pool.give_back(&sent.packet);
        println!(rt;
            "buffer {} leaves, {} are free",
            sent.packet.tag(),
            pool.count()
        )?;
    }
    let waiting = sched.queued();
    let mut given_up = sched.give_up();
    for _ in 0..waiting {
        if let Some(left) = given_up.remains.next() {
            pool.give_back(&left.packet);
        }
    }
    println!(rt; "at the end {} are free", pool.count())?;
    Ok(())
}

/// A packet comes, into a buffer that is free. Where it is refused, the buffer is free again.
fn receive(
    rt: &impl Print,
    pool: &Pool,
    sched: &mut Sched<Returns<'_>>,
    moment: u64,
) -> Result<()> {
    let packet = query()?;
    match pool.take() {
        Some(buffer) => {
            let admitted = sched.enqueue(moment, 0, packet.with_tag(buffer));
            if admitted.is_err() {
                pool.give_back(&packet.with_tag(buffer));
            }
            admitted?;
            println!(rt; "buffer {buffer} comes, {} are free", pool.count())?;
        }
        None => println!(rt; "no buffer is free")?,
    }
    Ok(())
}

/// A packet of 1,000 bytes, of UDP from port 5000 of 10.0.0.1 to port 53 of 10.0.0.2.
fn query() -> Result<Packet, LengthOutOfRange> {
    let tuple = FiveTuple {
        proto: 17,
        src: Ip::V4([10, 0, 0, 1]),
        dst: Ip::V4([10, 0, 0, 2]),
        sport: 5000,
        dport: 53,
    };
    Packet::try_new(tuple, 1_000, Ecn::NotEct)
}
