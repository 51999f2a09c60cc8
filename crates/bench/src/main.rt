//! Times the scheduler: how long a round of enqueues and dequeues takes under a workload, and what a locked port, lanes
//! and monitors take.
#![tactic(auto)]

ghost use Rattle.std.specs.Prelude.{◌<◌, ◌≤◌, IfSome};

mod device;
mod lanes;
mod monitors;
mod receiver;
mod rounds;
mod sending;
mod settling;
mod times;
mod timing;
mod unstored;
mod workload;

use crate::lanes::{LanePart, times_of_part, times_through_lanes};
use crate::monitors::{Beside, PUBLISHES, times_of_publishes, times_of_reads, times_while_read};
use crate::sending::times_sending;
use crate::settling::{SETTLED, times_settling};
use crate::times::Times;
use crate::timing::{Fault, Measured, times_of_rounds};
use crate::unstored::{PASSING, times_of_passing, totals_of_passing};
use crate::workload::{Memory, Outgoing, ROUNDS, WORKLOADS, Workload};
use std::env::{self, Env};
use std::process::ExitCode;
use std::rt::Clock;
use std::sync::Wait;
use std::thread::Threads;

/// What the words that set something begin with.
const DASHES: &str = "--";

/// The word for fresh memory.
const COLD: &str = "--cold";

/// The word for packets that are read.
const READ: &str = "--read";

/// What the word for one repetition begins with. The number of its rounds stands after it.
const ROUNDS_ARE: &str = "--rounds=";

/// The word for the settling of a locked port.
const SETTLE: &str = "settle";

/// The word for a run through lanes that stores nothing.
const UNSTORED: &str = "unstored";

fn main(rt: HostRuntime) -> ExitCode {
    match bench(&rt) {
        Ok(()) => ExitCode::SUCCESS,
        Err(fault) => {
            let _ = eprintln!(rt; "bench: {fault}");
            ExitCode::FAILURE
        }
    }
}

/// How the workloads that the words name are run.
#[derive(Clone, Copy, Debug)]
struct Settings {
    memory: Memory,
    outgoing: Outgoing,
    /// The rounds of one repetition, where a word sets them.
    rounds: Option<u32>,
}

impl Settings {
    /// Those that the words set, wherever they stand. Words with no dashes are passed over.
    fn of(words: &[String]) -> Result<Settings, Fault> {
        let mut settings = Settings {
            memory: Memory::Warm,
            outgoing: Outgoing::Left,
            rounds: None,
        };
        for word in words {
            if is_setting(word) {
                settings.set(word)?;
            }
        }
        Ok(settings)
    }

    /// Sets what the word says.
    fn set(&mut self, word: &str) -> Result<(), Fault> {
        if word == COLD {
            self.memory = Memory::Cold;
        } else if word == READ {
            self.outgoing = Outgoing::Read;
        } else {
            let rounds = word.strip_prefix(ROUNDS_ARE).ok_or(Fault::UnknownSetting)?;
            self.rounds = Some(rounds.parse::<u32>().ok().ok_or(Fault::UnknownSetting)?);
        }
        Ok(())
    }

    /// A workload as it is run with them.
    fn applied_to(self, workload: Workload) -> Workload {
        let workload = match self.memory {
            Memory::Warm => workload,
            Memory::Cold => workload.cold(),
        };
        let workload = match self.rounds {
            None => workload,
            Some(rounds) => workload.once(rounds),
        };
        Workload {
            outgoing: self.outgoing,
            ..workload
        }
    }
}

/// Whether the word sets something, and names nothing to measure.
fn is_setting(word: &str) -> bool {
    word.starts_with(DASHES)
}

/// Without a name it says what it measures; else it measures what each names.
fn bench<R: AllocGlobal + Clock + Env + Print + Threads + Wait + Sync + Clone + Drop>(
    rt: &R,
) -> Result<(), Fault> {
    let words: Vec<String> = env::args(rt)?.skip(1).collect(rt.alloc())?;
    let settings = Settings::of(&words)?;
    let mut is_asked = false;
    for word in &words {
        if !is_setting(word) {
            measure(rt, word, settings)?;
            is_asked = true;
        }
    }
    if !is_asked {
        return tell_words(rt);
    }
    Ok(())
}

/// Measures what that word names. The settings are a workload's: what else there is runs as ever.
fn measure<R: AllocGlobal + Clock + Print + Threads + Wait + Sync + Clone + Drop>(
    rt: &R,
    name: &str,
    settings: Settings,
) -> Result<(), Fault> {
    if name == SETTLE {
        return measure_settling(rt);
    }
    if name == UNSTORED {
        return tell_passing(rt);
    }
    if let Some(part) = lane_part_of(name) {
        return tell_each(rt, name, ROUNDS, times_of_part(rt, part)?);
    }
    if let Some(events) = events_of(name) {
        return tell_each(rt, name, PUBLISHES, times_of_publishes(rt, events)?);
    }
    if let Some(beside) = reads_of(name) {
        return tell_each(rt, name, ROUNDS, times_of_reads(rt, beside)?);
    }
    measure_threads(rt, name, settings)
}

/// Measures what is told as a rate, and else a workload.
fn measure_threads<R: AllocGlobal + Clock + Print + Threads + Wait + Sync + Clone + Drop>(
    rt: &R,
    name: &str,
    settings: Settings,
) -> Result<(), Fault> {
    if let Some(monitors) = monitors_of(name) {
        return tell_rate(rt, name, times_while_read(rt, monitors)?);
    }
    if let Some(senders) = senders_of(name, "senders_") {
        return tell_rate(rt, name, times_sending(rt, senders)?);
    }
    if let Some(senders) = senders_of(name, "lanes_") {
        return tell_rate(rt, name, times_through_lanes(rt, senders)?);
    }
    if let Some(senders) = senders_of(name, "passing_") {
        return tell_passing_rate(rt, name, times_of_passing(rt, senders)?);
    }
    measure_rounds(rt, name, settings)
}

/// Measures the workload of that name.
fn measure_rounds<R: AllocGlobal + Clock + Print + Wait + Clone + Drop>(
    rt: &R,
    name: &str,
    settings: Settings,
) -> Result<(), Fault> {
    let named = named(name).ok_or(Fault::UnknownWorkload)?;
    let workload = settings.applied_to(*named);
    let measured = times_of_rounds(rt, &workload)?;
    match workload.outgoing {
        Outgoing::Left => tell_each(rt, name, workload.rounds, measured.times),
        Outgoing::Read => tell_read(rt, name, workload.rounds, measured),
    }
}

/// Tells how long each of the rounds took, in nanoseconds: at the least, and in the median.
fn tell_each(rt: &impl Print, name: &str, rounds: u32, times: Times) -> Result<(), Fault> {
    let least = tenths_of(times.least, rounds);
    let median = tenths_of(times.median, rounds);
    tell_tenths(rt, name, rounds, least, median)
}

/// Tells the same, with the sum of what was read.
fn tell_read(rt: &impl Print, name: &str, rounds: u32, measured: Measured) -> Result<(), Fault> {
    let least = tenths_of(measured.times.least, rounds);
    let median = tenths_of(measured.times.median, rounds);
    println!(rt;
        "{name},{rounds},{}.{},{}.{},{}",
        least / 10,
        least % 10,
        median / 10,
        median % 10,
        measured.sum
    )?;
    Ok(())
}

/// The share of each of the rounds in a time, in tenths.
fn tenths_of(time: u128, rounds: u32) -> u128 {
    time.saturating_mul(10) / u128::from(rounds.max(1))
}

/// Tells the least and the median, which are given in tenths.
fn tell_tenths(
    rt: &impl Print,
    name: &str,
    number: u32,
    least: u128,
    median: u128,
) -> Result<(), Fault> {
    println!(rt;
        "{name},{number},{}.{},{}.{}",
        least / 10,
        least % 10,
        median / 10,
        median % 10
    )?;
    Ok(())
}

/// Tells how many packets went through in a second: at the most, and in the median.
fn tell_rate(rt: &impl Print, name: &str, times: Times) -> Result<(), Fault> {
    let most = rate_of(u64::from(ROUNDS), times.least);
    let median = rate_of(u64::from(ROUNDS), times.median);
    println!(rt; "{name},{ROUNDS},{most},{median}")?;
    Ok(())
}

/// Tells the same of the packets of a run that stores nothing.
fn tell_passing_rate(rt: &impl Print, name: &str, times: Times) -> Result<(), Fault> {
    let most = rate_of(PASSING, times.least);
    let median = rate_of(PASSING, times.median);
    println!(rt; "{name},{PASSING},{most},{median}")?;
    Ok(())
}

/// How many packets went through in a second, where so many took that time, in nanoseconds.
fn rate_of(packets: u64, nanoseconds: u128) -> u128 {
    u128::from(packets) * 1_000_000_000 / nanoseconds.max(1)
}

/// Measures the settling of a locked port.
fn measure_settling<R: AllocGlobal + Clock + Print + Wait>(rt: &R) -> Result<(), Fault> {
    let times = times_settling(rt)?;
    tell_tenths(
        rt,
        SETTLE,
        SETTLED,
        times.least / 100_000,
        times.median / 100_000,
    )
}

/// Tells what became of the packets of a run through lanes that stores nothing.
fn tell_passing<R: AllocGlobal + Print + Threads + Wait + Sync>(rt: &R) -> Result<(), Fault> {
    let totals = totals_of_passing(rt, 2)?;
    println!(rt;
        "{UNSTORED},{},{},{}",
        totals.accepted, totals.sent, totals.queued
    )?;
    Ok(())
}

/// The number of senders that the word asks for, after those letters.
fn senders_of(name: &str, front: &str) -> Option<u32>
    ensures { IfSome result (λ n. (0 < n) × (n ≤ 4)) }
{
    match name.strip_prefix(front)? {
        "1" => Some(1),
        "2" => Some(2),
        "4" => Some(4),
        _ => None,
    }
}

/// The part of a packet's way through a lane that the word asks for.
fn lane_part_of(name: &str) -> Option<LanePart> {
    match name {
        "lane_push" => Some(LanePart::Push),
        "lane_submit" => Some(LanePart::Submit),
        "lane_pump" => Some(LanePart::Pump),
        "lane_enqueue" => Some(LanePart::Enqueue),
        _ => None,
    }
}

/// The number of new events after which the word asks for publishes.
fn events_of(name: &str) -> Option<u32> {
    match name {
        "publish_0" => Some(0),
        "publish_1" => Some(1),
        "publish_1000" => Some(1_000),
        _ => None,
    }
}

/// What the device does while a monitor reads, where the word asks for reads.
fn reads_of(name: &str) -> Option<Beside> {
    match name {
        "monitor_alone" => Some(Beside::Nothing),
        "monitor_beside" => Some(Beside::Publishes),
        _ => None,
    }
}

/// The number of monitors that the word asks for.
fn monitors_of(name: &str) -> Option<u32>
    ensures { IfSome result (λ n. n ≤ 4) }
{
    match name {
        "monitors_0" => Some(0),
        "monitors_1" => Some(1),
        "monitors_4" => Some(4),
        _ => None,
    }
}

/// The workload of that name.
fn named(name: &str) -> Option<&'static Workload> {
    WORKLOADS.iter().find(|workload| workload.name == name)
}

/// Says what each word measures.
fn tell_words(rt: &impl Print) -> Result<(), Fault> {
    tell_settings(rt)?;
    for workload in &WORKLOADS {
        println!(rt; "{}: {}", workload.name, workload.about)?;
    }
    tell_others(rt)
}

/// Says what the words mean that set something.
fn tell_settings(rt: &impl Print) -> Result<(), Fault> {
    println!(rt;
        "bench [{COLD}] [{READ}] [{ROUNDS_ARE}N] NAME... prints name,rounds,least,median: nanoseconds per round, of some repetitions"
    )?;
    println!(rt;
        "A workload has 15 of 100,000 rounds, from the third on in memory that was used before, but for what says not"
    )?;
    println!(rt;
        "{COLD}: a workload has 5 of 1,000,000 rounds, which store in fresh memory; settle and the rest are as ever"
    )?;
    println!(rt;
        "{READ}: a workload's rounds read the id, the length and the ECN field of each packet that comes out; it prints name,rounds,least,median,sum: the sum is that of all they read in a repetition"
    )?;
    println!(rt;
        "{ROUNDS_ARE}N: a workload has one repetition of N rounds, as to count its instructions"
    )?;
    Ok(())
}

/// Says what the words measure that name no workload.
fn tell_others(rt: &impl Print) -> Result<(), Fault> {
    println!(rt;
        "{SETTLE}: the settling of a locked port of 64 seats; it prints name,packets,least,median: milliseconds in all"
    )?;
    println!(rt;
        "lane_submit, lane_pump: a submit, and a packet of a pump of 64; beside them lane_push and lane_enqueue, the ring's push and the engine's enqueue alone"
    )?;
    println!(rt;
        "senders_1, senders_2, senders_4: so many threads send through a locked port and one takes; it prints name,packets,most,median: packets a second"
    )?;
    println!(rt; "lanes_1, lanes_2, lanes_4: the same through lanes")?;
    println!(rt;
        "publish_0, publish_1, publish_1000: a publish after so many new events, with a look at the clock"
    )?;
    println!(rt;
        "monitor_alone, monitor_beside: a monitor's read, alone and while a device publishes all the time"
    )?;
    println!(rt;
        "monitors_0, monitors_1, monitors_4: packets that a device takes out of a lane, with a publish after each 64, while so many monitors read all the time; it prints name,packets,most,median: packets a second"
    )?;
    println!(rt;
        "{UNSTORED}: 5,000,000 packets through two lanes, where neither events nor steps are stored; it prints name,accepted,sent,queued"
    )?;
    println!(rt;
        "passing_1, passing_2, passing_4: the same through so many lanes; it prints name,packets,most,median: packets a second"
    )?;
    Ok(())
}
