//! What the program reports of faults, and to who watches it.

use crate::calls::{called, called_at};
use crate::runs::rows;
use link_command::{Terminals, plain_words, program};
use std::process::Abort;

/// The program with these words and this input answers the status, writes nothing, and reports these lines.
fn faults<R: Abort + AllocGlobal>(rt: &R, words: &[&str], input: &str, status: u8, wanted: &str) {
    let (found, output, told) = called(rt, words, input);
    assert_eq!(rt; found, status, "{input}");
    assert_eq!(rt; output.len(), 0);
    assert_eq!(rt; str::from_utf8(&told).ok(), Some(wanted));
}

/// The second line names the row, the field by its number and name, what was found and what is wanted.
#[test]
fn fields_of_rows(rt: HostRuntime) {
    let table = [
        (
            "enq,0,6,10.0.0.300,10.0.0.9,5000,443,1514,2\n",
            "maltlink: row 1: BadAddress\n  row 1, field 4 (SRC): \"10.0.0.300\" isn't an address; expected \
an IPv4 address such as 10.0.0.1, or after a row version,2 an IPv6 address of 32 hexadecimal digits\n",
        ),
        (
            "version,2\nenq,0,6,10.0.0.1,20010db8000000000000000000000001,5000,443,1514,2\n",
            "maltlink: row 2: BadAddress\n  row 2, field 5 (DST): \"20010db8000000000000000000000001\" isn't an address of the same family as SRC; \
expected an IPv4 address such as 10.0.0.1, or after a row version,2 an IPv6 address of 32 hexadecimal digits\n",
        ),
        (
            "version,2\nenq,0,6,10.0.0.300,10.0.0.9,5000,443,1514,2\n",
            "maltlink: row 2: BadAddress\n  row 2, field 4 (SRC): \"10.0.0.300\" isn't an address; expected \
an IPv4 address such as 10.0.0.1, or after a row version,2 an IPv6 address of 32 hexadecimal digits\n",
        ),
        (
            "enq,0,6,20010db8000000000000000000000001,20010db8000000000000000000000002,5000,443,1514,2\n",
            "maltlink: row 1: BadAddress\n  row 1, field 4 (SRC): \"20010db8000000000000000000000001\" isn't an address; \
expected an IPv4 address such as 10.0.0.1, or after a row version,2 an IPv6 address of 32 hexadecimal digits\n",
        ),
        (
            "enq,0,256,10.0.0.1,10.0.0.9,5000,443,1514,2\n",
            "maltlink: row 1: BadNumber\n  row 1, field 3 (PROTO): \"256\" isn't a valid number; expected 0 to 255\n",
        ),
        (
            "enq,0,6,10.0.0.1,10.0.0.9,5000,65536,1514,2\r\n",
            "maltlink: row 1: BadNumber\n  row 1, field 7 (DPORT): \"65536\" isn't a valid number; expected 0 to 65535\n",
        ),
        (
            "\nenq,0,6,10.0.0.1,10.0.0.9,5000,443,1514,2\n\"\"\nenq,1,6,10.0.0.1,10.0.0.9,5000,443,1514,4\n",
            "maltlink: row 2: BadEcn\n  row 2, field 9 (ECN): \"4\" isn't a valid number; expected one digit from 0 to 3\n",
        ),
        (
            "enq,0,6,10.0.0.1,10.0.0.9,5000,443,0,2\n",
            "maltlink: row 1: LengthOutOfRange\n  row 1, field 8 (LEN): \"0\" isn't a valid number; expected \
1 to 65535, in bytes\n",
        ),
        (
            "version,3\n",
            "maltlink: row 1: BadNumber\n  row 1, field 2 (VERSION): \"3\" isn't a valid number; expected 2\n",
        ),
        (
            "deq,9\n",
            "maltlink: row 1: NotAnArrival\n  row 1, field 1 (KIND): \"deq\" isn't an arrival; expected enq\n",
        ),
        (
            "enq,0,6,10.0.0.1\n",
            "maltlink: row 1: BadFieldCount\n  row 1: \"enq,0,6,10.0.0.1\" has the wrong number of fields; expected \
enq,MOMENT,PROTO,SRC,DST,SPORT,DPORT,LEN,ECN\n",
        ),
    ];
    for (input, wanted) in table {
        faults(&rt, &["--rate", "10mbit"], input, 2, wanted);
    }
}

/// Lines end in CR LF, one of them has an empty field in quotes, fields are in quotes, and a byte order mark comes first:
/// the fields are those that the reader of rows had.
#[test]
fn fields_of_rows_in_other_forms(rt: HostRuntime) {
    let table = [
        (
            "enq,0,6,10.0.0.1,10.0.0.9,5000,443,1514,2\r\n\"\"\r\nenq,1,6,10.0.0.1,10.0.0.9,5000,443,1514,2\r\n\
enq,2,17,10.0.0.300,10.0.0.2,5000,53,1000,2\r\n",
            "maltlink: row 3: BadAddress\n  row 3, field 4 (SRC): \"10.0.0.300\" isn't an address; expected \
an IPv4 address such as 10.0.0.1, or after a row version,2 an IPv6 address of 32 hexadecimal digits\n",
        ),
        (
            "enq,0,6,10.0.0.1,\"10.0.0.300\",5000,443,1514,2\n",
            "maltlink: row 1: BadAddress\n  row 1, field 5 (DST): \"10.0.0.300\" isn't an address of the same family as SRC; \
expected an IPv4 address such as 10.0.0.1, or after a row version,2 an IPv6 address of 32 hexadecimal digits\n",
        ),
        (
            "\u{feff}version,2\nenq,0,6,20010db8000000000000000000000001,10.0.0.1,5000,443,1514,2\n",
            "maltlink: row 2: BadAddress\n  row 2, field 5 (DST): \"10.0.0.1\" isn't an address of the same family as SRC; \
expected an IPv4 address such as 10.0.0.1, or after a row version,2 an IPv6 address of 32 hexadecimal digits\n",
        ),
        (
            "\"version\",\"2\"\nenq,0,6,20010db8000000000000000000000001,10.0.0.1,5000,443,1514,2\n",
            "maltlink: row 2: BadAddress\n  row 2, field 5 (DST): \"10.0.0.1\" isn't an address of the same family as SRC; \
expected an IPv4 address such as 10.0.0.1, or after a row version,2 an IPv6 address of 32 hexadecimal digits\n",
        ),
    ];
    for (input, wanted) in table {
        faults(&rt, &["--rate", "10mbit"], input, 2, wanted);
    }
}

/// A row that isn't an arrival has its number, empty lines aside, whatever comes after it. A fault of the grammar in a later
/// row comes before it.
#[test]
fn rows_that_are_no_arrivals(rt: HostRuntime) {
    let table = [
        (
            "\nenq,5,6,10.0.0.1,10.0.0.9,5000,443,1514,2\n\"\"\nenq,5,6,10.0.0.1,10.0.0.9,5000,443,1514,2\n\n\
deq,9\nenq,7,6,10.0.0.1,10.0.0.9,5000,443,1514,2\n",
            "maltlink: row 3: NotAnArrival\n  row 3, field 1 (KIND): \"deq\" isn't an arrival; expected enq\n",
        ),
        (
            "version,2\nenq,5,6,10.0.0.1,10.0.0.9,5000,443,1514,2\nclose,9\ndeq,9\nenq,7,6,10.0.0.1,10.0.0.9,5000,443,1514,2",
            "maltlink: row 3: NotAnArrival\n  row 3, field 1 (KIND): \"close\" isn't an arrival; expected enq\n",
        ),
        (
            "enq,5,6,10.0.0.1,10.0.0.9,5000,443,1514,2\nenq,4,6,10.0.0.1,10.0.0.9,5000,443,1514,2\ndeq,9\n",
            "maltlink: row 2: Backwards\n  row 2, field 2 (MOMENT): \"4\" is earlier than the row before; expected \
0 to 576460752303423487, in microseconds, never decreasing\n",
        ),
        (
            "deq,9\nenq,7,6,10.0.0.1,10.0.0.9,5000,443,1514,2\nclose\nenq\n",
            "maltlink: row 3: BadFieldCount\n  row 3: \"close\" has the wrong number of fields; expected \
enq,MOMENT,PROTO,SRC,DST,SPORT,DPORT,LEN,ECN\n",
        ),
    ];
    for (input, wanted) in table {
        faults(&rt, &["--rate", "10mbit"], input, 2, wanted);
    }
}

/// Words are looked at in their order, before the input.
#[test]
fn words_before_rows(rt: HostRuntime) {
    faults(
        &rt,
        &["--rate", "999bit", "--overhead", "x", "limit"],
        "deq,9\n",
        2,
        "maltlink: rate: OutOfRange\n  --rate \"999bit\": expected a rate from 1000bit to 1tbit, such as 10mbit or 1250kbps\n",
    );
    faults(
        &rt,
        &["--rate", "1mbit", "--every", "0.5ms", "--seed", "00"],
        "",
        2,
        "maltlink: every: NotANumber\n  --every \"0.5ms\": expected a time from 1ms to 1000s\n",
    );
    faults(
        &rt,
        &["--rate", "1mbit", "target", "5.0001ms"],
        "",
        2,
        "maltlink: parameter word 2: NotANumber\n  \"5.0001ms\": expected a time such as 5.5ms: one to six digits \
after the point, and us, ms or s, to a whole microsecond\n",
    );
}

/// At a terminal the program reports that it reads arrivals there.
#[test]
fn reads_at_a_terminal(rt: HostRuntime) {
    let terminals = Terminals {
        input: true,
        faults: true,
    };
    let mut output = Vec::new(rt.alloc());
    let mut told = Vec::new(rt.alloc());
    let mut reader: &[u8] = b"";
    let words = ["--rate", "10mbit"];
    let status = program(
        rt.alloc(),
        &words,
        &mut reader,
        &mut output,
        &mut told,
        terminals,
    );
    assert_eq!(rt; status, 0);
    assert_eq!(rt;
        str::from_utf8(&told).ok(),
        Some(
            "maltlink: reading arrivals from the terminal; Ctrl-D at the start of a line ends them\n\
maltlink: no packet arrived\n  standard input has no 'enq' row; arrivals are read from there, as in \
'maltlink --rate 10mbit < arrivals.csv'\n"
        )
    );
}

/// What the program reports of a run of these arrivals where standard error alone is a terminal.
fn watched<R: Abort + AllocGlobal>(rt: &R, words: &[&str], input: &str, wanted: &str) {
    let terminals = Terminals {
        input: false,
        faults: true,
    };
    let (status, _, told) = called_at(rt, words, input, terminals);
    assert_eq!(rt; str::from_utf8(&told).ok(), Some(wanted));
    assert_eq!(rt; status, 0);
}

/// Who watches a run of 100,000 arrivals sees how far it is. Of a shorter one nothing is reported. The steps are those
/// of the link alone.
#[test]
fn stages_of_a_long_run(rt: HostRuntime) {
    let flows = ["--rate", "100mbit", "--write", "flows"];
    let both_flows = ["--rate", "100mbit", "--compare", "fifo", "--write", "flows"];
    let both_series = [
        "--rate",
        "100mbit",
        "--compare",
        "fifo",
        "--write",
        "series",
    ];
    let series = ["--rate", "100mbit", "--write", "series"];
    let steps = ["--rate", "100mbit", "--write", "steps"];
    let both_steps = ["--rate", "100mbit", "--compare", "fifo", "--write", "steps"];
    let mut text = rows(&rt, 99_999);
    watched(&rt, &both_flows, &text, "");
    watched(&rt, &both_series, &text, "");
    watched(&rt, &both_steps, &text, "");
    text.push_str("enq,100000000,17,10.0.0.1,10.0.0.9,1,443,40,0\n")
        .expect(&rt, "memory");
    let run = "maltlink: read 100000 arrivals\nmaltlink: the link has sent its last packet\n";
    let both = "maltlink: read 100000 arrivals\nmaltlink: the link has sent its last packet\n\
maltlink: the FIFO has sent its last packet\n";
    watched(&rt, &flows, &text, run);
    watched(&rt, &both_flows, &text, both);
    watched(&rt, &both_series, &text, both);
    watched(&rt, &series, &text, run);
    watched(&rt, &steps, &text, run);
    watched(&rt, &both_steps, &text, run);
}

/// The line `limit 10240p flows 1024 quantum 1514 target 5.0ms interval 100.0ms memory_limit 32Mb ecn drop_batch 64`, as
/// `tc -s qdisc show` prints it, and values that stay as they are.
#[test]
fn words_of_tc(rt: HostRuntime) {
    let words = [
        "limit",
        "10240p",
        "flows",
        "1024p",
        "quantum",
        "1514b",
        "target",
        "4.999ms",
        "interval",
        "100.0ms",
        "memory_limit",
        "32Mb",
        "ecn",
        "mtu",
        "2Kb",
        "ce_threshold",
        "1.0000001s",
        "limit",
        "limit",
        "target",
        "4.9999ms",
        "interval",
        "5.ms",
        "memory_limit",
        "1Gb",
    ];
    let wanted = [
        "limit",
        "10240",
        "flows",
        "1024p",
        "quantum",
        "1514",
        "target",
        "4999",
        "interval",
        "100000",
        "memory_limit",
        "33554432",
        "ecn",
        "mtu",
        "2048",
        "ce_threshold",
        "1.0000001s",
        "limit",
        "limit",
        "target",
        "4.9999ms",
        "interval",
        "5.ms",
        "memory_limit",
        "1073741824",
    ];
    let plain = plain_words(rt.alloc(), &words).ok().expect(&rt, "memory");
    assert_eq!(rt; plain.len(), wanted.len());
    for place in 0..plain.len() {
        assert_eq!(rt; plain[place].as_str(), wanted[place], "at {place}");
    }
}
