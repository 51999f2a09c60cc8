//! The scheduler as a library: three packets come where two may wait, and the device takes one.
#![tactic(auto)]

ghost use Rattle.std.specs.Prelude.{◌≡◌, ◌+◌};
ghost use Rattle.maltcove.specs.Statistics.{statistics};

use anyhow::Result;
use maltcove::{Ecn, Engine, Event, FiveTuple, Ip, LengthOutOfRange, Packet, Seed, read_params};

fn main(rt: HostRuntime) -> Result<()> {
    // The parameters that aren't said are the standard ones.
    let params = read_params(&["classify", "dport", "flows", "64", "limit", "2"])?;
    let mut engine = Engine::try_new(rt.alloc(), params, Seed([0; 16]))?;
    make_steps(&rt, &mut engine)?;
    for event in engine.events() {
        tell(&rt, event)?;
    }
    let dropped = count_drops(&engine);
    let totals = engine.totals();
    println!(rt;
        "{} sent, {dropped} dropped, {} queued",
        totals.sent, totals.queued
    )?;
    Ok(())
}

/// How many packets were dropped, by the statistics of the engine's journal.
fn count_drops(engine: &Engine) -> u64
    ensures { let said = statistics engine.now.sched.standing.events in
        result ≡ said.dropped_codel + said.dropped_overflow }
{
    let totals = engine.totals();
    totals.dropped_codel + totals.dropped_overflow
}

/// Three packets come at 0, 1 and 2 microseconds from lane 0, and one goes at 3.
fn make_steps(rt: &impl Print, engine: &mut Engine) -> Result<()> {
    engine.reserve(4)?; // the next four steps take no memory
    for moment in 0..3 {
        engine.enqueue(moment, 0, query()?)?;
    }
    if let Some(sent) = engine.dequeue(3)? {
        println!(rt; "packet {} goes out", sent.id)?;
    }
    Ok(())
}

/// A packet of 1,000 bytes, of UDP from port 5000 of 10.0.0.1 to port 53 of 10.0.0.2.
fn query() -> Result<Packet, LengthOutOfRange> {
    let tuple = FiveTuple {
        proto: 17,
        src: Ip::V4([10, 0, 0, 1]),
        dst: Ip::V4([10, 0, 0, 2]),
        sport: 5000,
        dport: 53,
    };
    Packet::try_new(tuple, 1_000, Ecn::NotEct)
}

/// Writes an event as a line.
fn tell(rt: &impl Print, event: &Event) -> Result<()> {
    match event {
        Event::Accepted { id, moment, .. } => println!(rt; "{moment}: {id} was accepted")?,
        Event::Sent { id, moment, .. } => println!(rt; "{moment}: {id} was sent")?,
        Event::Dropped { id, moment, cause } => println!(rt; "{moment}: {cause:?} dropped {id}")?,
        Event::Closed { moment } => println!(rt; "{moment}: closed")?,
    }
    Ok(())
}
