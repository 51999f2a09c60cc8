//! The rows that the program reports: their numbers, and what it shows of them.

use crate::calls::called;
use std::process::Abort;

/// The program with this input answers 2, writes nothing, and reports these lines.
fn reports<R: Abort + AllocGlobal>(rt: &R, input: &str, wanted: &str) {
    let (status, output, told) = called(rt, &["--rate", "10mbit"], input);
    assert_eq!(rt; str::from_utf8(&told).ok(), Some(wanted));
    assert_eq!(rt; status, 2);
    assert_eq!(rt; output.len(), 0);
}

/// The row of the version is counted and empty lines aren't, where no arrival was read yet. A fault in the grammar of a
/// later row comes first.
#[test]
fn rows_after_the_version(rt: HostRuntime) {
    let table = [
        (
            "version,2\ndeq,9\n",
            "maltlink: row 2: NotAnArrival\n  row 2, field 1 (KIND): \"deq\" isn't an arrival; expected enq\n",
        ),
        (
            "\n\"\"\nversion,2\n\ndeq,9\nenq,7,6,10.0.0.1,10.0.0.9,5000,443,1514,2\n",
            "maltlink: row 2: NotAnArrival\n  row 2, field 1 (KIND): \"deq\" isn't an arrival; expected enq\n",
        ),
        (
            "version,2\ndeq,9\nclose\n",
            "maltlink: row 3: BadFieldCount\n  row 3: \"close\" has the wrong number of fields; expected \
enq,MOMENT,PROTO,SRC,DST,SPORT,DPORT,LEN,ECN\n",
        ),
        (
            "\ndeq,9\n",
            "maltlink: row 1: NotAnArrival\n  row 1, field 1 (KIND): \"deq\" isn't an arrival; expected enq\n",
        ),
    ];
    for (input, wanted) in table {
        reports(&rt, input, wanted);
    }
}

/// A row with a field too many is shown whole. Without a row of the version an address of IPv6 is none, and SRC stands
/// first. A row that begins with `#` is a row like others.
#[test]
fn rows_that_are_shown(rt: HostRuntime) {
    let table = [
        (
            "enq,0,6,10.0.0.1,10.0.0.9,5000,443,1514,2,7\n",
            "maltlink: row 1: BadFieldCount\n  row 1: \"enq,0,6,10.0.0.1,10.0.0.9,5000,443,1514,2,7\" has the wrong number of \
fields; expected enq,MOMENT,PROTO,SRC,DST,SPORT,DPORT,LEN,ECN\n",
        ),
        (
            "enq,0,6,20010db8000000000000000000000001,20010db8000000000000000000000002,5000,443,1514,2\n",
            "maltlink: row 1: BadAddress\n  row 1, field 4 (SRC): \"20010db8000000000000000000000001\" isn't an address; \
expected an IPv4 address such as 10.0.0.1, or after a row version,2 an IPv6 address of 32 hexadecimal digits\n",
        ),
        (
            "#enq,0\nenq,0,6,10.0.0.1,10.0.0.9,5000,443,1514,2\n",
            "maltlink: row 1: BadKind\n  row 1, field 1 (KIND): \"#enq\" isn't a kind of row; expected enq\n",
        ),
    ];
    for (input, wanted) in table {
        reports(&rt, input, wanted);
    }
}

/// A row after 100,000 others is shown as any other.
#[test]
fn a_late_row_is_shown(rt: HostRuntime) {
    let mut input = String::new(rt.alloc());
    for _row in 0..100_000u32 {
        input
            .push_str("enq,0,6,10.0.0.1,10.0.0.9,5000,443,1514,2\n")
            .expect(&rt, "memory");
    }
    input
        .push_str("enq,0,6,10.0.0.1,10.0.0.300,5000,443,1514,2\n")
        .expect(&rt, "memory");
    let wanted =
        "maltlink: row 100001: BadAddress\n  row 100001, field 5 (DST): \"10.0.0.300\" isn't an address of the same \
family as SRC; expected an IPv4 address such as 10.0.0.1, or after a row version,2 an IPv6 address of 32 hexadecimal digits\n";
    reports(&rt, &input, wanted);
}
