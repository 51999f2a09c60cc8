//! The texts of help.

use crate::runs::ends;
use std::process::Abort;
use std::str;
use std::sync::Wait;
use std::thread::Threads;

/// What the help of the program says.
static PROGRAM: [&str; 11] = [
    "RFC 8290",
    "Usage: fqsim <COMMAND>\n",
    "\n  trace  ",
    "\n  locked  ",
    "\n  lanes  ",
    "'fqsim trace --help'",
    "'fqsim locked --help'",
    "'fqsim lanes --help'",
    "Exit status:\n  0  ",
    "\n  1  ",
    "\n  2  ",
];

/// What it says of the parameters.
static PARAMETERS: [&str; 14] = [
    "Usage: fqsim trace [OPTIONS] [PARAM]...\n",
    "--seed <HEX32>",
    "  limit PACKETS         1 to 1048576 packets   10240 packets\n",
    "  flows NUMBER          1 to 65536             1024\n",
    "  quantum BYTES         1 to 1000000 bytes     1514 bytes\n",
    "  mtu BYTES             0 to 65535 bytes       1514 bytes\n",
    "  target TIME           0 to 1000000000us      5ms\n",
    "  interval TIME         1us to 1000000000us    100ms\n",
    "  ce_threshold TIME     0 to 1000000000us      none\n",
    "  memory_limit BYTES    1 to 1099511627776     none\n",
    "  drop_batch PACKETS    1 to 1048576 packets   64 packets\n",
    "  ecn | noecn                                  ecn\n",
    "  classify hash|dport                          hash\n",
    " us, usec, usecs, ms, msec, msecs, s, sec\nor secs",
];

/// What it says of senders that share the scheduler.
static SENDERS: [&str; 9] = [
    "Usage: fqsim locked [OPTIONS] [PARAM]...\n",
    "--seed <HEX32>",
    "--senders <N>",
    "1 to 64",
    "[default: 2]",
    "\n  accepted,ID,FLOW ",
    "\n  closed ",
    "\n  sender,I,SUBMITTED,ACCEPTED,LEFT\n",
    "'fqsim: settle'",
];

/// What it says of senders with a lane each.
static LANES: [&str; 17] = [
    "Usage: fqsim lanes [OPTIONS] [PARAM]...\n",
    "--seed <HEX32>",
    "--senders <N>",
    "1 to 64",
    "[default: 2]",
    "'fqsim trace --help'",
    "'fqsim locked --help'",
    "moments of 'enq' rows aren't used",
    "at most 64 of its packets",
    "--monitors <M>",
    "0 to 64",
    "[default: 0]",
    "\n  monitor I EVENTS ACCEPTED SENT DROPPED QUEUED\n",
    "'fqsim: lane LANE'",
    "that lane has no end",
    "more than 1048576 packets",
    "'fqsim: monitor I'",
];

/// What it says of the formats.
static FORMATS: [&str; 21] = [
    "\n  version,2 ",
    "\n  enq,MOMENT,PROTO,SRC,DST,SPORT,DPORT,LEN,ECN ",
    "\n  deq,MOMENT ",
    "\n  close,MOMENT ",
    "An IPv6 address\nis 32 hexadecimal digits of either case",
    "\n  accepted,ID,FLOW ",
    "\n  dropped,ID,overflow ",
    "\n  dropped,ID,codel ",
    "\n  sent,ID,ECN ",
    "\n  idle ",
    "\n  closed ",
    "\n  refused,closed ",
    "\n  refused,backwards,LAST ",
    "\n  totals,ACCEPTED,ACCEPTED_BYTES,SENT,SENT_BYTES,DROPPED_CODEL,\n",
    "\n      DROPPED_OVERFLOW,DROPPED_BYTES,MARKED,THRESHOLD_MARKED,QUEUED,\n      QUEUED_BYTES,STATE\n",
    "\n  tuple,PROTO,SRC,DST,SPORT,DPORT,FLOW,ACCEPTED,SENT,DROPPED,QUEUED\n",
    "\nExample:\n",
    "'fqsim: a word isn't UTF-8'",
    "'fqsim: seed'",
    "'fqsim: parameter word PLACE: NAME'",
    "'fqsim: row ROW: NAME'",
];

/// What it says of the faults.
static FAULTS: [&str; 15] = [
    "\nFaults of a parameter word, ",
    "\n  UnknownWord   ",
    "\n  MissingValue   ",
    "\n  NotANumber   ",
    "\n  OutOfRange   ",
    "\nFaults of the trace, ",
    "\n  BadKind   ",
    "\n  BadFieldCount   ",
    "\n  BadNumber   ",
    "\n  BadAddress   ",
    "\n  LengthOutOfRange   ",
    "\n  BadEcn   ",
    "\n  TooLarge   ",
    "\n  Read   ",
    "\n  Memory   ",
];

/// Runs the program with words that ask for help, on a trace that is wrong, and looks for these texts in what it
/// writes. No line of it has more than 80 columns.
fn expect_help(
    rt: &(impl Abort + AllocGlobal + Threads + Wait + Sync),
    words: &[&str],
    texts: &[&str],
) {
    let mut written = Vec::new(rt.alloc());
    ends(rt, words, &mut "foo\n".as_bytes(), &mut written, 0, "");
    let help = str::from_utf8(&written).expect(rt, "a text");
    for text in texts {
        assert!(rt; help.contains(text), "{text} isn't in {help}");
    }
    for line in help.lines() {
        assert!(rt; line.chars().count() <= 80, "{line}");
    }
}

#[test]
fn help_on_the_program(rt: HostRuntime) {
    expect_help(&rt, &["--help"], &PROGRAM);
    expect_help(&rt, &["help"], &PROGRAM);
    expect_help(&rt, &["-h"], &PROGRAM[1..]);
}

#[test]
fn help_on_the_parameters(rt: HostRuntime) {
    expect_help(&rt, &["trace", "--help"], &PARAMETERS);
    expect_help(&rt, &["help", "trace"], &PARAMETERS);
    expect_help(&rt, &["trace", "flows", "0", "--help"], &PARAMETERS);
    expect_help(&rt, &["trace", "-h"], &PARAMETERS[..2]);
}

#[test]
fn help_on_the_senders(rt: HostRuntime) {
    expect_help(&rt, &["locked", "--help"], &SENDERS);
    expect_help(&rt, &["help", "locked"], &SENDERS);
    expect_help(&rt, &["locked", "--senders", "3", "--help"], &SENDERS);
}

#[test]
fn help_on_the_lanes(rt: HostRuntime) {
    expect_help(&rt, &["lanes", "--help"], &LANES);
    expect_help(&rt, &["help", "lanes"], &LANES);
    expect_help(&rt, &["lanes", "--monitors", "3", "--help"], &LANES);
}

#[test]
fn help_on_the_formats(rt: HostRuntime) {
    expect_help(&rt, &["trace", "--help"], &FORMATS);
}

#[test]
fn help_on_the_faults(rt: HostRuntime) {
    expect_help(&rt, &["trace", "--help"], &FAULTS);
}

#[test]
fn failed_writes_of_help_refused(rt: HostRuntime) {
    let mut taken = [0; 5];
    let mut room = &mut taken[..];
    ends(
        &rt,
        &["--help"],
        &mut "deq,0\n".as_bytes(),
        &mut room,
        1,
        "fqsim: write\n",
    );
    assert_eq!(rt; &taken, b"Run a");
}
