//! The flow numbers of packets whose five-tuples come again and again, beside those that `flow_of` answers. Where there
//! are few flows, there are fewer places for numbers than five-tuples, so that many are remembered and forgotten in
//! turn.

use crate::schedulers::{come, packet_of, params_of, seeded};
use packet_core::{Classify, Ecn, FiveTuple, Ip, ParamFields, Params, Seed, flow_of};
use sched_core::{Event, FlowChooser, Sched};
use std::process::Abort;
use std::test::Fail;

/// How many five-tuples come.
const TUPLES: u16 = 200;

/// How often each of them comes.
const TIMES: u16 = 3;

/// How many packets these are.
const PACKETS: u64 = 600;

/// A seed.
const SEED: Seed = Seed([1, 2, 3, 4, 5, 6, 7, 8, 9, 10, 11, 12, 13, 14, 15, 16]);

/// Five-tuples with addresses of either kind at either end.
fn five_tuple(number: u16) -> FiveTuple {
    let [high, low] = number.to_be_bytes();
    let short = Ip::V4([10, 0, high, low]);
    let long = Ip::V6([
        0x20, 0x01, 0x0d, 0xb8, 0, 0, 0, 0, 0, 0, 0, 0, 0, 0, high, low,
    ]);
    let (src, dst) = match number % 4 {
        0 => (short, short),
        1 => (short, long),
        2 => (long, short),
        _ => (long, long),
    };
    FiveTuple {
        proto: 17,
        src,
        dst,
        sport: 5000,
        dport: number % 8,
    }
}

/// Each five-tuple comes once.
fn arrive_once<R: Abort>(rt: &R, sched: &mut Sched) {
    for number in 0..TUPLES {
        let packet = packet_of(rt, five_tuple(number), 100, Ecn::NotEct);
        come(rt, sched, 1, 0, packet);
    }
}

/// Compares the number of each accepted packet's flow.
fn expect_numbers(rt: &(impl Abort + AllocGlobal), flows: u32, classify: Classify, seed: Seed) {
    let mut fields = ParamFields::standard();
    fields.flows = flows;
    fields.classify = classify;
    let params = params_of(rt, fields);
    has_numbers(rt, &mut seeded(rt, params, seed), &params, &seed);
}

/// The five-tuples come, and the number of each packet's flow is that of its five-tuple.
fn has_numbers<R: Abort>(rt: &R, sched: &mut Sched, params: &Params, seed: &Seed) {
    for _ in 0..TIMES {
        arrive_once(rt, sched);
    }
    assert!(rt; sched.totals().accepted == PACKETS);
    assert!(rt; are_numbered(sched.events(), params, seed));
}

/// Whether the number of each accepted packet's flow is that of its five-tuple.
fn are_numbered(events: &[Event], params: &Params, seed: &Seed) -> bool {
    for event in events {
        if let Event::Accepted { flow, packet, .. } = event {
            if *flow != flow_of(params, seed, &packet.tuple()) {
                return false;
            }
        }
    }
    true
}

#[test]
fn numbers_of_many_flows(rt: HostRuntime) {
    expect_numbers(&rt, 1024, Classify::Hash, SEED);
}

#[test]
fn numbers_of_few_flows(rt: HostRuntime) {
    expect_numbers(&rt, 5, Classify::Hash, SEED);
}

#[test]
fn numbers_of_one_flow(rt: HostRuntime) {
    expect_numbers(&rt, 1, Classify::Hash, SEED);
}

#[test]
fn numbers_behind_zeros(rt: HostRuntime) {
    expect_numbers(&rt, 64, Classify::Hash, Seed([0; 16]));
}

#[test]
fn numbers_of_ports(rt: HostRuntime) {
    expect_numbers(&rt, 5, Classify::Dport, SEED);
}

/// What is shown of the factors by which five-tuples have their places in a table.
fn factors_in(shown: &str) -> Option<&str> {
    let (_, rest) = shown.split_once("factors: ")?;
    let (factors, _) = rest.split_once(")")?;
    Some(factors)
}

/// No look-up of a chooser depends on the seed, and those of a scheduler do.
#[test]
fn places_of_a_chooser_need_no_seed(rt: HostRuntime) -> Result<(), Fail> {
    let mut fields = ParamFields::standard();
    fields.flows = 1;
    fields.classify = Classify::Hash;
    let params = params_of(&rt, fields);
    let other_seed = Seed([7; 16]);
    let one = FlowChooser::try_new(rt.alloc(), params, SEED).expect(&rt, "a chooser");
    let other = FlowChooser::try_new(rt.alloc(), params, other_seed).expect(&rt, "a chooser");
    let one = format!(in rt.alloc(); "{one:?}")?;
    let other = format!(in rt.alloc(); "{other:?}")?;
    assert!(&rt; factors_in(&one).is_some());
    assert!(&rt; factors_in(&one) == factors_in(&other));
    let one = seeded(&rt, params, SEED);
    let other = seeded(&rt, params, other_seed);
    let one = format!(in rt.alloc(); "{one:?}")?;
    let other = format!(in rt.alloc(); "{other:?}")?;
    assert!(&rt; factors_in(&one).is_some());
    assert!(&rt; factors_in(&one) != factors_in(&other));
    Ok(())
}

/// How many places a table has, as it is shown.
fn places_in(shown: &str) -> usize {
    shown.split("later: ").skip(1).count()
}

/// How many places there are in the table of a chooser for so many packets of 64 flows.
fn places_for(rt: &(impl Abort + AllocGlobal), packets: u64) -> Result<usize, Fail> {
    let mut fields = ParamFields::standard();
    fields.flows = 64;
    fields.classify = Classify::Hash;
    let params = params_of(rt, fields);
    let chooser = FlowChooser::try_new_for(rt.alloc(), params, SEED, packets).expect(
        rt,
        "a chooser",
    );
    let shown = format!(in rt.alloc(); "{chooser:?}")?;
    Ok(places_in(&shown))
}

/// The table of a chooser is the smaller, the fewer packets come: there are an eighth as many places, or up to twice as
/// many as that, and no more than four for each flow.
#[test]
fn places_of_a_chooser_follow_the_packets(rt: HostRuntime) -> Result<(), Fail> {
    for (packets, places) in [
        (0, 0),
        (15, 0),
        (16, 2),
        (23, 2),
        (24, 4),
        (136, 32),
        (1024, 128),
        (2048, 256),
        (1_000_000, 256),
    ] {
        assert!(&rt; places_for(&rt, packets)? == places);
    }
    Ok(())
}

/// How many times five-tuples of these tests stand in a table, as it is shown.
fn remembered_in(shown: &str) -> usize {
    shown.split("sport: 5000").skip(1).count()
}

/// A chooser remembers the five-tuples that come, each once, so that a later packet of theirs takes no digest. Of eight
/// in 128 places no three share one.
#[test]
fn a_chooser_remembers_five_tuples(rt: HostRuntime) -> Result<(), Fail> {
    let mut fields = ParamFields::standard();
    fields.flows = 64;
    fields.classify = Classify::Hash;
    let params = params_of(&rt, fields);
    let mut chooser = FlowChooser::try_new_for(rt.alloc(), params, SEED, 1_024).expect(
        &rt,
        "a chooser",
    );
    let shown = format!(in rt.alloc(); "{chooser:?}")?;
    assert_eq!(&rt; remembered_in(&shown), 0);
    for _ in 0..TIMES {
        for number in 0..8 {
            let packet = packet_of(&rt, five_tuple(number), 100, Ecn::NotEct);
            assert!(&rt; chooser.flow_of(&packet) < 64);
        }
        let shown = format!(in rt.alloc(); "{chooser:?}")?;
        assert_eq!(&rt; remembered_in(&shown), 8);
    }
    Ok(())
}
