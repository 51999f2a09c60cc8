//! Words of the command line: an option that stands twice, and as many parameter words as `tc` prints.

use crate::calls::called;

/// An option that is given twice is a mistake of the command line, and not a fault of the machine.
#[test]
fn an_option_given_twice(rt: HostRuntime) {
    let (status, output, told) = called(&rt, &["--rate", "1mbit", "--rate", "2mbit"], "");
    assert_eq!(rt; status, 2);
    assert_eq!(rt; output.len(), 0);
    let told = str::from_utf8(&told).unwrap_or("");
    let wanted = "error: the argument '--rate <RATE>' cannot be used multiple times\n";
    assert!(rt; told.starts_with(wanted), "{told}");
}

/// The line that `tc -s qdisc show` prints of the standard parameters may be pasted before further words. The table is that
/// of the first example of the manual.
#[test]
fn parameters_as_tc_prints_them(rt: HostRuntime) {
    let words = [
        "--rate",
        "10mbit",
        "--write",
        "packets",
        "limit",
        "10240p",
        "flows",
        "1024",
        "quantum",
        "1514",
        "target",
        "5.0ms",
        "interval",
        "100.0ms",
        "memory_limit",
        "32Mb",
        "ecn",
        "drop_batch",
        "64",
        "classify",
        "dport",
    ];
    let input = "enq,0,6,10.0.0.1,10.0.0.9,5000,443,1514,2\n";
    let (status, output, told) = called(&rt, &words, input);
    assert_eq!(rt; str::from_utf8(&told).ok(), Some(""));
    assert_eq!(rt; status, 0);
    let wanted = "queue,id,tuple,flow,len,ecn,arrived,fate,at,delay,ecn_sent,mark,place\n\
fq_codel,0,0,443,1514,2,0,sent,0,0,2,,0\n";
    assert_eq!(rt; str::from_utf8(&output).ok(), Some(wanted));
}

/// A bin may be no whole number of milliseconds wide. A packet takes 800 microseconds.
#[test]
fn bins_of_a_millisecond_and_a_half(rt: HostRuntime) {
    let words = ["--rate", "10mbit", "--every", "1500us", "--write", "series"];
    let input =
        "enq,0,6,10.0.0.1,10.0.0.9,5000,443,1000,2\nenq,1600,6,10.0.0.1,10.0.0.9,5000,443,1000,2\n";
    let (status, output, told) = called(&rt, &words, input);
    assert_eq!(rt; str::from_utf8(&told).ok(), Some(""));
    assert_eq!(rt; status, 0);
    let wanted =
        "queue,from,tuple,packets,bytes,sent,sent_bytes,dropped,marked,delay_mean,delay_max,waiting,waiting_bytes\n\
fq_codel,0,0,1,1000,1,1000,0,0,0,0,0,0\nfq_codel,1500,0,1,1000,1,1000,0,0,0,0,0,0\n";
    assert_eq!(rt; str::from_utf8(&output).ok(), Some(wanted));
}
