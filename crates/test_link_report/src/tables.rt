//! The tables of a journal.

ghost use Rattle.std.specs.Prelude.{◌<◌};

use crate::journals::{closed_journal, crowd, journal, late_journal};
use codel_core::Served;
use journal_core::{Event, Recorder, Step};
use link_report::{
    Binned, Gathered, MAX_EVENTS, Packets, Queue, RunEvents, RunPackets, flows_text, flows_text_of,
    packets_text, packets_text_of, percentile, series_text, steps_text,
};
use packet_core::{Ecn, FiveTuple, Ip, Packet, Seed, Waiting};
use std::process::Abort;

/// The bytes are this text.
fn are<R: Abort>(rt: &R, bytes: &[u8], wanted: &str) {
    assert_eq!(rt; str::from_utf8(bytes).ok(), Some(wanted));
}

/// The table of a journal whose packets are sent at that moment.
fn flows_by<R: Abort + AllocGlobal>(rt: &R, events: &[Event], end: u64) -> Vec<u8> {
    assert!(rt; events.len() <= MAX_EVENTS);
    flows_text(rt.alloc(), RunEvents { events, end }, None).expect(rt, "memory")
}

/// Delays are those of packets sent alone; both kinds of marks are counted; the rate is that of the whole run. The packets
/// are sent before the last fate, at 5,000.
#[test]
fn flows_of_two_tuples(rt: HostRuntime) {
    let events = journal(&rt);
    let text = flows_by(&rt, &events, 4_999);
    are(
        &rt,
        &text,
        "queue,tuple,proto,src,dst,sport,dport,flow,packets,bytes,sent,sent_bytes,dropped_codel,\
dropped_overflow,marked,delay_min,delay_mean,delay_p50,delay_p95,delay_p99,delay_max,rate\n\
fq_codel,0,6,10.0.0.1,10.0.0.9,5000,443,443,4,2150,2,1050,1,1,0,0,0,0,1,1,1,1680000\n\
fq_codel,1,17,10.0.0.2,10.0.0.9,6000,53,53,2,500,2,500,0,0,2,500,1000,500,1500,1500,1500,800000\n\
fq_codel,all,,,,,,,6,2650,4,1550,1,1,2,0,500,1,1500,1500,1500,2480000\n",
    );
}

/// The last packet starts at 5,000 and is sent at 5,500: 1,050, 500 and 1,550 bytes in 5,500 microseconds.
#[test]
fn rates_to_the_end_of_the_last_packet(rt: HostRuntime) {
    let text = flows_by(&rt, &journal(&rt), 5_500);
    let text = str::from_utf8(&text).unwrap_or("");
    for (row, rate) in [(1, ",1527272"), (2, ",727272"), (3, ",2254545")] {
        assert!(&rt;
            text.lines()
                .nth(row)
                .is_some_and(|line| line.ends_with(rate)),
            "{text}"
        );
    }
}

/// Nothing arrived, in either queue: an `all` row for each, with no delay and no rate.
#[test]
fn flows_of_nothing(rt: HostRuntime) {
    let nothing = RunEvents {
        events: &[],
        end: 0,
    };
    let text = flows_text(rt.alloc(), nothing, Some(nothing))
        .ok()
        .expect(&rt, "memory");
    are(
        &rt,
        &text,
        "queue,tuple,proto,src,dst,sport,dport,flow,packets,bytes,sent,sent_bytes,dropped_codel,\
dropped_overflow,marked,delay_min,delay_mean,delay_p50,delay_p95,delay_p99,delay_max,rate\n\
fq_codel,all,,,,,,,0,0,0,0,0,0,0,,,,,,,\n\
fifo,all,,,,,,,0,0,0,0,0,0,0,,,,,,,\n",
    );
}

/// A row for each packet, of whatever fate.
#[test]
fn packets_of_all_fates(rt: HostRuntime) {
    let events = journal(&rt);
    let text = packets_text(rt.alloc(), &events, None)
        .ok()
        .expect(&rt, "memory");
    are(
        &rt,
        &text,
        "queue,id,tuple,flow,len,ecn,arrived,fate,at,delay,ecn_sent,mark,place\n\
fq_codel,0,0,443,1000,2,0,sent,0,0,2,,0\n\
fq_codel,1,0,443,1000,2,0,codel,999,999,,,\n\
fq_codel,2,1,53,200,2,500,sent,1000,500,3,codel,1\n\
fq_codel,3,0,443,100,0,1000,overflow,1500,500,,,\n\
fq_codel,4,1,53,300,1,2500,sent,4000,1500,3,threshold,2\n\
fq_codel,5,0,443,50,0,4999,sent,5000,1,0,,3\n",
    );
}

/// A bin begins with its first moment, and ends before that of the next one: packet 3 comes at 1000, and packet 5 is sent
/// at 5000. A bin where a packet only waits has a row too.
#[test]
fn series_by_bins(rt: HostRuntime) {
    let events = journal(&rt);
    let text = series_text(rt.alloc(), 1_000, &events, Some(&events[..3]))
        .ok()
        .expect(&rt, "memory");
    are(
        &rt,
        &text,
        "queue,from,tuple,packets,bytes,sent,sent_bytes,dropped,marked,delay_mean,delay_max,waiting,waiting_bytes\n\
fq_codel,0,0,2,2000,1,1000,1,0,0,0,0,0\n\
fq_codel,0,1,1,200,0,0,0,0,,,1,200\n\
fq_codel,1000,0,1,100,0,0,1,0,,,0,0\n\
fq_codel,1000,1,0,0,1,200,0,1,500,500,0,0\n\
fq_codel,2000,1,1,300,0,0,0,0,,,1,300\n\
fq_codel,3000,1,0,0,0,0,0,0,,,1,300\n\
fq_codel,4000,0,1,50,0,0,0,0,,,1,50\n\
fq_codel,4000,1,0,0,1,300,0,1,1500,1500,0,0\n\
fq_codel,5000,0,0,0,1,50,0,0,1,1,0,0\n\
fifo,0,0,2,2000,1,1000,0,0,0,0,1,1000\n",
    );
}

/// Where bins have no width, all is in one.
#[test]
fn series_of_one_bin(rt: HostRuntime) {
    let events = journal(&rt);
    let text = series_text(rt.alloc(), 0, &events, None).expect(&rt, "memory");
    are(
        &rt,
        &text,
        "queue,from,tuple,packets,bytes,sent,sent_bytes,dropped,marked,delay_mean,delay_max,waiting,waiting_bytes\n\
fq_codel,0,0,4,2150,2,1050,2,0,0,1,0,0\n\
fq_codel,0,1,2,500,2,500,0,2,1000,1500,0,0\n",
    );
}

/// Bins without a row are passed at once: here are more of them than a program can go through one by one.
#[test]
fn series_with_a_long_gap(rt: HostRuntime) {
    let events = late_journal(&rt);
    let text = series_text(rt.alloc(), 1_000, &events, None).expect(&rt, "memory");
    are(
        &rt,
        &text,
        "queue,from,tuple,packets,bytes,sent,sent_bytes,dropped,marked,delay_mean,delay_max,waiting,waiting_bytes\n\
fq_codel,0,0,1,1000,1,1000,0,0,0,0,0,0\n\
fq_codel,1700000000000000,0,1,500,1,500,0,0,1,1,0,0\n",
    );
}

/// A five-tuple has a row for each bin through which its packet waits. A close falls in no bin.
#[test]
fn series_of_a_long_wait(rt: HostRuntime) {
    let events = closed_journal(&rt);
    let text = series_text(rt.alloc(), 1_000, &events, None).expect(&rt, "memory");
    are(
        &rt,
        &text,
        "queue,from,tuple,packets,bytes,sent,sent_bytes,dropped,marked,delay_mean,delay_max,waiting,waiting_bytes\n\
fq_codel,0,0,1,1000,0,0,0,0,,,1,1000\n\
fq_codel,1000,0,0,0,0,0,0,0,,,1,1000\n\
fq_codel,2000,0,0,0,0,0,0,0,,,1,1000\n\
fq_codel,3000,0,0,0,0,0,0,0,,,1,1000\n\
fq_codel,4000,0,0,0,0,0,0,0,,,1,1000\n\
fq_codel,5000,0,0,0,1,1000,0,0,5500,5500,0,0\n",
    );
}

/// Where bins have no width, all of either queue is in one.
#[test]
fn series_of_one_bin_for_each_queue(rt: HostRuntime) {
    let events = journal(&rt);
    let text = series_text(rt.alloc(), 0, &events[..3], Some(&events[..7])).expect(&rt, "memory");
    are(
        &rt,
        &text,
        "queue,from,tuple,packets,bytes,sent,sent_bytes,dropped,marked,delay_mean,delay_max,waiting,waiting_bytes\n\
fq_codel,0,0,2,2000,1,1000,0,0,0,0,1,1000\n\
fifo,0,0,3,2100,1,1000,1,0,0,0,1,100\n\
fifo,0,1,1,200,1,200,0,1,500,500,0,0\n",
    );
}

/// A bin has a row for each of its five-tuples, however many they are.
#[test]
fn series_of_a_crowd(rt: HostRuntime) {
    let events = crowd(&rt, 3_000);
    let text = series_text(rt.alloc(), 1_000, &events, None).expect(&rt, "memory");
    let text = str::from_utf8(&text).unwrap_or("");
    assert_eq!(rt; text.lines().count(), 3_001);
}

/// A journal with a close has the tables of the one without it.
#[test]
fn tables_of_a_closed_journal(rt: HostRuntime) {
    let events = closed_journal(&rt);
    let flows = flows_by(&rt, &events, 0);
    let open = flows_by(&rt, &events[..2], 0);
    assert_eq!(rt; flows.as_slice(), open.as_slice());
    let rows = packets_text(rt.alloc(), &events, None).expect(&rt, "memory");
    let open = packets_text(rt.alloc(), &events[..2], None).expect(&rt, "memory");
    assert_eq!(rt; rows.as_slice(), open.as_slice());
    assert!(rt; told(&rt, &events, 3).packets().is_some());
    let others = journal(&rt);
    let whole = &others[..];
    assert!(rt; packets_text(rt.alloc(), &whole[5..], None).is_ok());
}

/// The recorder is told that event. A packet that leaves is any that has the field which it is sent with, and it came at
/// another moment than that at which it leaves.
fn tell<R: Abort, K: Recorder>(rt: &R, recorder: &mut K, event: &Event)
    requires { 0 < K.room recorder.old }
{
    match *event {
        Event::Accepted {
            lane,
            id,
            moment,
            flow,
            packet,
        } => recorder.accept(&waiting(id, moment, packet), lane, flow),
        Event::Sent {
            id,
            moment,
            ecn,
            mark,
        } => {
            let served = Served {
                waiting: waiting(id, another(moment), any_packet(rt, ecn)),
                mark,
            };
            recorder.send(&served, moment);
        }
        Event::Dropped { id, moment, cause } => {
            recorder.lose(
                &waiting(id, another(moment), any_packet(rt, Ecn::NotEct)),
                moment,
                cause,
            );
        }
        Event::Closed { moment } => recorder.close(moment),
    }
}

/// The packet, as it waits from that moment on.
fn waiting(id: u64, stamp: u64, packet: Packet) -> Waiting {
    Waiting { id, stamp, packet }
}

/// A moment that isn't this one.
fn another(moment: u64) -> u64 {
    moment ^ 1_000_000
}

/// A packet with that field.
fn any_packet<R: Abort>(rt: &R, ecn: Ecn) -> Packet {
    let tuple = FiveTuple {
        proto: 17,
        src: Ip::V4([10, 0, 0, 1]),
        dst: Ip::V4([10, 0, 0, 2]),
        sport: 5_000,
        dport: 53,
    };
    Packet::try_new(tuple, 100, ecn).expect(rt, "a packet")
}

/// A recorder that was told these events, and makes packets of so many.
fn told<R: Abort + AllocGlobal>(rt: &R, events: &[Event], most: u64) -> Gathered {
    let mut gathered = Gathered::new(rt.alloc(), &Seed([0; 16]), most);
    for event in events {
        gathered.reserve(1).expect(rt, "memory");
        tell(rt, &mut gathered, event);
    }
    assert_eq!(rt; gathered.event_count(), events.len() as u64);
    gathered
}

/// A recorder has packets of as many events as it takes, and none of more.
#[test]
fn packets_of_so_many_events(rt: HostRuntime) {
    let events = journal(&rt);
    let count = events.len() as u64;
    for (most, is_enough) in [
        (0, false),
        (1, false),
        (count.saturating_sub(1), false),
        (count, true),
        (u64::MAX, true),
    ] {
        let gathered = told(&rt, &events, most);
        assert_eq!(rt; gathered.packets().is_some(), is_enough, "{most}");
    }
    assert!(rt; told(&rt, &[], 0).packets().is_some());
}

/// A recorder that is told a journal makes the same tables of it, and counts its events.
#[test]
fn tables_of_a_recorder(rt: HostRuntime) {
    let events = journal(&rt);
    let gathered = told(&rt, &events, events.len() as u64);
    let packets = gathered.packets().expect(&rt, "packets");
    assert!(rt; packets.records().len() <= MAX_EVENTS);
    let first = Packets::of(rt.alloc(), &events[..3]).expect(&rt, "memory");
    assert!(rt; first.records().len() <= MAX_EVENTS);
    let run = RunEvents {
        events: &events,
        end: 5_500,
    };
    let fifo = RunEvents {
        events: &events[..3],
        end: 1_800,
    };
    let flows = flows_text(rt.alloc(), run, Some(fifo)).expect(&rt, "memory");
    let (run, fifo) = (
        RunPackets {
            packets,
            end: 5_500,
        },
        RunPackets {
            packets: &first,
            end: 1_800,
        },
    );
    let same = flows_text_of(rt.alloc(), run, Some(fifo)).expect(&rt, "memory");
    assert_eq!(rt; same.as_slice(), flows.as_slice());
    let rows = packets_text(rt.alloc(), &events, Some(&events[..3])).expect(&rt, "memory");
    let same = packets_text_of(rt.alloc(), packets, Some(&first)).expect(&rt, "memory");
    assert_eq!(rt; same.as_slice(), rows.as_slice());
}

/// The text of a recorder of bins of `every` microseconds that was told these events of that queue.
fn binned<R: Abort + AllocGlobal>(rt: &R, queue: Queue, every: u64, events: &[Event]) -> Vec<u8> {
    let made = Binned::try_new(rt.alloc(), &Seed([7; 16]), queue, every);
    let mut binned = made.expect(rt, "memory");
    for event in events {
        binned.reserve(1).expect(rt, "memory");
        tell(rt, &mut binned, event);
    }
    assert!(rt; binned.queue() == queue && binned.every() == every && !binned.is_short());
    binned.into_text().expect(rt, "memory")
}

/// A recorder that is told a journal makes the same rows of bins, whether five-tuples or bins are few or many. The rows of
/// the FIFO have no header.
#[test]
fn series_of_a_recorder(rt: HostRuntime) {
    let (some, late, closed) = (journal(&rt), late_journal(&rt), closed_journal(&rt));
    let many = crowd(&rt, 300);
    for events in [&some[..], &late[..], &closed[..], &many[..]] {
        for every in [0, 1, 1_000, u64::MAX] {
            let mut text = binned(&rt, Queue::FqCodel, every, events);
            let whole = series_text(rt.alloc(), every, events, None).expect(&rt, "memory");
            assert_eq!(&rt; text.as_slice(), whole.as_slice(), "bins of {every}");
            let front = &events[..events.len() / 2];
            let rest = binned(&rt, Queue::Fifo, every, front);
            text.extend_from_slice(&rest).expect(&rt, "memory");
            let whole = series_text(rt.alloc(), every, events, Some(front)).expect(&rt, "memory");
            assert_eq!(&rt;
                text.as_slice(),
                whole.as_slice(),
                "of two, bins of {every}"
            );
        }
    }
}

/// The nearest rank: of ten delays the 50th percentile is the fifth, the 91st the tenth, and the 0th the first.
#[test]
fn nearest_rank(rt: HostRuntime) {
    let delays = [1, 2, 3, 4, 5, 6, 7, 8, 9, 100];
    for (percent, wanted) in [
        (0, 1),
        (10, 1),
        (11, 2),
        (50, 5),
        (90, 9),
        (91, 100),
        (100, 100),
    ] {
        assert_eq!(rt; percentile(&delays, percent), wanted, "at {percent}");
    }
}

/// A trace with an address of IPv6 begins with its version.
#[test]
fn steps_of_ipv6(rt: HostRuntime) {
    let tuple = FiveTuple {
        proto: 17,
        src: Ip::V6([0x20, 1, 0xd, 0xb8, 0, 0, 0, 0, 0, 0, 0, 0, 0, 0, 0, 1]),
        dst: Ip::V6([0x20, 1, 0xd, 0xb8, 0, 0, 0, 0, 0, 0, 0, 0, 0, 0, 0, 2]),
        sport: 1,
        dport: 53,
    };
    let steps = [
        Step::Enqueue {
            moment: 7,
            lane: 0,
            packet: Packet::try_new(tuple, 60, Ecn::Ect1).expect(&rt, "a packet"),
        },
        Step::Dequeue { moment: 7 },
    ];
    let text = steps_text(rt.alloc(), &steps).ok().expect(&rt, "memory");
    are(
        &rt,
        &text,
        "version,2\n\
enq,7,17,20010db8000000000000000000000001,20010db8000000000000000000000002,1,53,60,1\n\
deq,7\n",
    );
}

/// 2^25 events: a trace of a million rows has two million at most.
#[test]
fn most_events(rt: HostRuntime) {
    assert_eq!(rt; MAX_EVENTS, 33_554_432);
}
