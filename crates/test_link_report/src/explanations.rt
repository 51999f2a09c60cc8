//! The two lines of each fault: one for programs, and one that says what was found and what is wanted.

use crate::calls::called;
use link_command::{FieldName, Found, ProgramFault, RowFault, Terminals, program, tell};
use row_core::{MAX_BYTES, TraceFaultKind};
use std::io::{self, ErrorKind, Read};
use std::process::Abort;

/// The program with these words and this input answers 2, writes nothing, and reports these lines.
fn refuses<R: Abort + AllocGlobal>(rt: &R, words: &[&str], input: &str, wanted: &str) {
    let (status, output, told) = called(rt, words, input);
    assert_eq!(rt; status, 2, "{input}");
    assert_eq!(rt; output.len(), 0);
    assert_eq!(rt; str::from_utf8(&told).ok(), Some(wanted));
}

/// Each option, each fault of a parameter word, and a mistake of the command line.
#[test]
fn words_are_explained(rt: HostRuntime) {
    let table: [(&[&str], &str); 7] = [
        (
            &["--rate", "1mbit", "--overhead", "1001"],
            "maltlink: overhead: OutOfRange\n  --overhead \"1001\": expected a number from 0 to 1000, in bytes\n",
        ),
        (
            &["--rate", "1mbit", "--mpu", "65536"],
            "maltlink: mpu: OutOfRange\n  --mpu \"65536\": expected a number from 0 to 65535, in bytes\n",
        ),
        (
            &["--rate", "1mbit", "--seed", "00"],
            "maltlink: seed\n  --seed \"00\": expected 32 hexadecimal digits\n",
        ),
        (
            &["--rate", "1mbit", "brown"],
            "maltlink: parameter word 1: UnknownWord\n  \"brown\": unknown parameter \
('maltlink --help' lists them)\n",
        ),
        (
            &["--rate", "1mbit", "ecn", "limit"],
            "maltlink: parameter word 2: MissingValue\n  \"limit\": this parameter needs a value after it\n",
        ),
        (
            &["--rate", "1mbit", "flows", "0"],
            "maltlink: parameter word 2: OutOfRange\n  \"0\": out of range ('maltlink --help' lists the ranges)\n",
        ),
        (
            &["--overhead", "3"],
            "error: the following required arguments were not provided:\n  --rate <RATE>\n\n\
Usage: maltlink --rate <RATE> --overhead <N> [PARAM]...\n\nFor more information, try '--help'.\n",
        ),
    ];
    for (words, wanted) in table {
        refuses(&rt, words, "", wanted);
    }
}

/// A control character of a word that is a mistake, other than a line feed, is written as its number. Here these are the
/// escape, the bell, the carriage return, the delete and the introducer of a sequence.
#[test]
fn control_characters_of_mistakes_are_numbers(rt: HostRuntime) {
    let table: [(&[&str], &str); 2] = [
        (
            &["--rate", "1mbit", "--\u{1b}[2Jred"],
            "error: unexpected argument '--\\u{1b}[2Jred' found\n  \"--\\u{1b}[2Jred\": unknown option \
('maltlink --help' lists them)\n\nUsage: maltlink --rate <RATE> [PARAM]...\n\nFor more information, try '--help'.\n",
        ),
        (
            &["--rate", "1mbit", "--write", "a\nb\u{7}\rc\u{7f}\u{9b}31m"],
            "error: invalid value 'a\nb\\u{07}\\u{0d}c\\u{7f}\\u{9b}31m' for '--write <TABLE>'\n  \
[possible values: flows, packets, series, steps, svg]\n\nFor more information, try '--help'.\n",
        ),
    ];
    for (words, wanted) in table {
        refuses(&rt, words, "", wanted);
    }
}

/// So are those of a value, a seed and a parameter word, which stand in quotes.
#[test]
fn control_characters_of_words_are_numbers(rt: HostRuntime) {
    let table: [(&[&str], &str); 4] = [
        (
            &["--rate", "\u{1b}[31m1\u{9b}mbit"],
            "maltlink: rate: NotANumber\n  --rate \"\\u{1b}[31m1\\u{9b}mbit\": expected a rate from \
1000bit to 1tbit, such as 10mbit or 1250kbps\n",
        ),
        (
            &["--rate", "1mbit", "--seed", "\u{1b}c"],
            "maltlink: seed\n  --seed \"\\u{1b}c\": expected 32 hexadecimal digits\n",
        ),
        (
            &["--rate", "1mbit", "\u{1b}c\u{7}"],
            "maltlink: parameter word 1: UnknownWord\n  \"\\u{1b}c\\u{7}\": unknown parameter \
('maltlink --help' lists them)\n",
        ),
        (
            &["--rate", "1mbit", "limit", "1\u{7f}"],
            "maltlink: parameter word 2: NotANumber\n  \"1\\u{7f}\": expected a number, or a time such as 5ms\n",
        ),
    ];
    for (words, wanted) in table {
        refuses(&rt, words, "", wanted);
    }
}

/// And those of a field and of a row.
#[test]
fn control_characters_of_rows_are_numbers(rt: HostRuntime) {
    let table = [
        (
            "enq,\u{1b}[2J,6,10.0.0.1,10.0.0.9,1,443,1514,2\n",
            "maltlink: row 1: BadNumber\n  row 1, field 2 (MOMENT): \"\\u{1b}[2J\" isn't a valid number; expected \
0 to 576460752303423487, in microseconds, never decreasing\n",
        ),
        (
            "enq,\u{9b}2J\u{7}\n",
            "maltlink: row 1: BadFieldCount\n  row 1: \"enq,\\u{9b}2J\\u{7}\" has the wrong number of \
fields; expected enq,MOMENT,PROTO,SRC,DST,SPORT,DPORT,LEN,ECN\n",
        ),
    ];
    for (input, wanted) in table {
        refuses(&rt, &["--rate", "10mbit"], input, wanted);
    }
}

/// A word with a dash that is no option: a parameter, the value of a parameter or of an option, or none of these. What
/// `clap` says of a name that is nearly right stays.
#[test]
fn words_with_dashes_are_explained(rt: HostRuntime) {
    let one =
        "\n\nUsage: maltlink --rate <RATE> [PARAM]...\n\nFor more information, try '--help'.\n";
    let any =
        "\n\nUsage: maltlink [OPTIONS] --rate <RATE> [PARAM]...\n\nFor more information, try '--help'.\n";
    let table: [(&[&str], &str, &str, &str); 9] = [
        (
            &["--rate", "1mbit", "--limit", "200"],
            "'--limit'",
            "  \"--limit\": parameters have no dashes; write 'limit 10240'",
            one,
        ),
        (
            &["--rate", "1mbit", "--noecn"],
            "'--noecn'",
            "  \"--noecn\": parameters have no dashes; write 'noecn'",
            one,
        ),
        (
            &["--rate", "1mbit", "limit", "-5"],
            "'-5'",
            "  limit \"-5\": expected a value without a sign, as in 'limit 10240'",
            any,
        ),
        (
            &["--rate", "1mbit", "--overhead", "-14"],
            "'-1'",
            "  --overhead \"-14\": expected a number from 0 to 1000, in bytes",
            any,
        ),
        (
            &["--rate", "-20mbit"],
            "'-2'",
            "  --rate \"-20mbit\": expected a rate from 1000bit to 1tbit, such as 10mbit or 1250kbps",
            any,
        ),
        (
            &["--rate", "1mbit", "--seed", "-1"],
            "'-1'",
            "  --seed \"-1\": expected 32 hexadecimal digits",
            any,
        ),
        (
            &["--rate", "1mbit", "--write", "-f"],
            "'-f'",
            "  --write \"-f\": expected one of the names that 'maltlink --help' lists",
            any,
        ),
        (
            &["--rate", "1mbit", "ecn", "-x"],
            "'-x'",
            "  \"-x\": unknown option ('maltlink --help' lists them)",
            any,
        ),
        (
            &["--rate", "1mbit", "--rates", "3"],
            "'--rates'",
            "\n  tip: a similar argument exists: '--rate'",
            one,
        ),
    ];
    for (words, found, line, rest) in table {
        let wanted = format!(in rt.alloc();
            "error: unexpected argument {found} found\n{line}{rest}"
        );
        refuses(&rt, words, "", wanted.expect(&rt, "memory").as_str());
    }
}

/// A parameter with dashes is shown as it is written without, where an option looks like it, too: `--mpu` like `--mtu`
/// and `--rate` like `--target`.
#[test]
fn parameters_with_dashes(rt: HostRuntime) {
    let rest =
        "\n\nUsage: maltlink --rate <RATE> [PARAM]...\n\nFor more information, try '--help'.\n";
    for (word, form) in FORMS {
        let wanted = format!(in rt.alloc();
            "error: unexpected argument '{word}' found\n  \"{word}\": parameters have no dashes; \
write '{form}'{rest}"
        );
        let words = ["--rate", "1mbit", word];
        refuses(&rt, &words, "", wanted.expect(&rt, "memory").as_str());
    }
    let mtu = "error: unexpected argument '--mtu' found\n  \"--mtu\": parameters have no dashes; \
write 'mtu 1514'\n\nUsage: maltlink --rate <RATE> --mpu <N> [PARAM]...\n\nFor more information, try '--help'.\n";
    refuses(&rt, &["--rate", "1mbit", "--mtu"], "", mtu);
}

/// With one dash, and with its value behind `=`, a parameter is shown as it is written, too.
#[test]
fn parameters_with_a_dash_or_a_value(rt: HostRuntime) {
    let table = [
        ("-limit", "'-l'", "limit 10240", "[OPTIONS] "),
        ("--limit=200", "'--limit'", "limit 10240", ""),
        ("--target=5ms", "'--target'", "target 5ms", ""),
    ];
    for (word, found, form, options) in table {
        let wanted = format!(in rt.alloc();
            "error: unexpected argument {found} found\n  \"{word}\": parameters have no dashes; \
write '{form}'\n\nUsage: maltlink {options}--rate <RATE> [PARAM]...\n\nFor more information, try '--help'.\n"
        );
        let words = ["--rate", "1mbit", word];
        refuses(&rt, &words, "", wanted.expect(&rt, "memory").as_str());
    }
}

const FORMS: [(&str, &str); 10] = [
    ("--limit", "limit 10240"),
    ("--flows", "flows 1024"),
    ("--quantum", "quantum 1514"),
    ("--target", "target 5ms"),
    ("--interval", "interval 100ms"),
    ("--ce_threshold", "ce_threshold 1ms"),
    ("--memory_limit", "memory_limit 32Mb"),
    ("--drop_batch", "drop_batch 64"),
    ("--ecn", "ecn"),
    ("--classify", "classify dport"),
];

/// The word that is explained is the one that is no option: behind a dash alone, behind an option with its value after
/// `=`, and behind a parameter that has no value.
#[test]
fn the_word_that_is_no_option(rt: HostRuntime) {
    let rest =
        "\n\nUsage: maltlink [OPTIONS] --rate <RATE> [PARAM]...\n\nFor more information, try '--help'.\n";
    let table: [(&[&str], &str, &str); 9] = [
        (
            &["--rate", "1mbit", "--compare", "fifo", "-x"],
            "'-x'",
            "  \"-x\": unknown option ('maltlink --help' lists them)",
        ),
        (
            &["--rate", "1mbit", "--compare=fifo", "--every=5ms", "-x"],
            "'-x'",
            "  \"-x\": unknown option ('maltlink --help' lists them)",
        ),
        (
            &["--rate", "1mbit", "--every", "5ms", "-x"],
            "'-x'",
            "  \"-x\": unknown option ('maltlink --help' lists them)",
        ),
        (
            &["--rate", "1mbit", "--every", "-5ms"],
            "'-5'",
            "  --every \"-5ms\": expected a time from 1ms to 1000s",
        ),
        (
            &["--rate", "1mbit", "--compare", "-x"],
            "'-x'",
            "  --compare \"-x\": expected one of the names that 'maltlink --help' lists",
        ),
        (
            &["--rate=1mbit", "-x"],
            "'-x'",
            "  \"-x\": unknown option ('maltlink --help' lists them)",
        ),
        (
            &["--rate", "1mbit", "-", "-x"],
            "'-x'",
            "  \"-x\": unknown option ('maltlink --help' lists them)",
        ),
        (
            &["--rate", "1mbit", "noecn", "-x"],
            "'-x'",
            "  \"-x\": unknown option ('maltlink --help' lists them)",
        ),
        (
            &["--rate", "1mbit", "--mpu", "-1"],
            "'-1'",
            "  --mpu \"-1\": expected a number from 0 to 65535, in bytes",
        ),
    ];
    for (words, found, line) in table {
        let wanted = format!(in rt.alloc();
            "error: unexpected argument {found} found\n{line}{rest}"
        );
        refuses(&rt, words, "", wanted.expect(&rt, "memory").as_str());
    }
}

/// A mistyped parameter: a letter missing, doubled or wrong, letters swapped, another sign, or the value with it. A word
/// that is like no parameter has no such question.
#[test]
fn mistyped_parameters(rt: HostRuntime) {
    for (word, name) in [
        ("limt", "limit"),
        ("limti", "limit"),
        ("limits", "limit"),
        ("limit=5", "limit"),
        ("flow", "flows"),
        ("quantom", "quantum"),
        ("mttu", "mtu"),
        ("taget", "target"),
        ("tarrget", "target"),
        ("intreval", "interval"),
        ("ce-threshold", "ce_threshold"),
        ("ce-treshold", "ce_threshold"),
        ("memory-limit", "memory_limit"),
        ("dropbatch", "drop_batch"),
        ("enc", ""),
        ("ecm", "ecn"),
        ("no_ecn", "noecn"),
        ("clasify", "classify"),
        ("", ""),
        ("5ms", ""),
        ("fifo", ""),
        ("limit-of-packets", ""),
    ] {
        let wanted = if name.is_empty() {
            format!(in rt.alloc(); "unknown parameter ('maltlink --help' lists them)")
        } else {
            format!(in rt.alloc(); "unknown parameter; did you mean '{name}'?")
        };
        let line = wanted.expect(&rt, "memory");
        let text = format!(in rt.alloc();
            "maltlink: parameter word 1: UnknownWord\n  \"{word}\": {line}\n"
        );
        let words = ["--rate", "1mbit", word];
        refuses(&rt, &words, "", text.expect(&rt, "memory").as_str());
    }
    let dashed =
        "error: unexpected argument '--quantom' found\n  \"--quantom\": unknown option; did you mean the \
parameter 'quantum', without dashes?\n\nUsage: maltlink --rate <RATE> [PARAM]...\n\nFor more information, try '--help'.\n";
    refuses(&rt, &["--rate", "1mbit", "--quantom", "5"], "", dashed);
}

/// A word that is no parameter, as a file's name is, and values in forms that aren't read.
#[test]
fn words_that_are_no_parameters(rt: HostRuntime) {
    let table: [(&[&str], &str); 4] = [
        (
            &["--rate", "1mbit", "arrivals.csv"],
            "maltlink: parameter word 1: UnknownWord\n  \"arrivals.csv\": unknown parameter; arrivals are read from \
standard input, as in 'maltlink .. < FILE'\n",
        ),
        (
            &["--rate", "1mbit", "ecn", "/tmp/arrivals"],
            "maltlink: parameter word 2: UnknownWord\n  \"/tmp/arrivals\": unknown parameter; arrivals are read from \
standard input, as in 'maltlink .. < FILE'\n",
        ),
        (
            &["--rate", "1mbit", "limit", "10,240"],
            "maltlink: parameter word 2: NotANumber\n  \"10,240\": expected a number without commas, such as 10240\n",
        ),
        (
            &["--rate", "1mbit", "target", "5.5msec"],
            "maltlink: parameter word 2: NotANumber\n  \"5.5msec\": expected a time such as 5.5ms: one to six \
digits after the point, and us, ms or s, to a whole microsecond\n",
        ),
    ];
    for (words, wanted) in table {
        refuses(&rt, words, "", wanted);
    }
}

/// Of a long field the first 200 bytes are shown.
#[test]
fn fields_are_shown(rt: HostRuntime) {
    for length in [63, 64, 65, 199, 200, 201] {
        let field = "x".repeat(rt.alloc(), length).expect(&rt, "memory");
        let seen = "x"
            .repeat(rt.alloc(), length.min(200))
            .expect(&rt, "memory");
        let input = format!(in rt.alloc(); "enq,{field},6,10.0.0.1,10.0.0.9,1,443,1514,2\n");
        let wanted = format!(in rt.alloc();
            "maltlink: row 1: BadNumber\n  row 1, field 2 (MOMENT): \"{seen}\" isn't a valid number; \
expected 0 to 576460752303423487, in microseconds, never decreasing\n"
        );
        let input = input.expect(&rt, "memory");
        refuses(
            &rt,
            &["--rate", "10mbit"],
            input.as_str(),
            wanted.expect(&rt, "memory").as_str(),
        );
    }
}

/// A row of one byte, without a line feed, is shown.
#[test]
fn a_row_of_one_byte_is_shown(rt: HostRuntime) {
    let wanted =
        "maltlink: row 1: BadKind\n  row 1, field 1 (KIND): \"x\" isn't a kind of row; expected enq\n";
    refuses(&rt, &["--rate", "10mbit"], "x", wanted);
}

/// Rows that are nearly right: the row of the version at another place, and a moment in seconds.
#[test]
fn rows_that_are_nearly_right(rt: HostRuntime) {
    let table = [
        (
            "enq,0,6,10.0.0.1,10.0.0.9,5000,443,1514,2\nversion,2\n",
            "maltlink: row 2: BadKind\n  row 2, field 1 (KIND): \"version\" is allowed in the first row only; expected enq\n",
        ),
        (
            "enq,0.25,6,10.0.0.1,10.0.0.9,5000,443,1514,2\n",
            "maltlink: row 1: BadNumber\n  row 1, field 2 (MOMENT): \"0.25\" isn't a whole number; expected \
0 to 576460752303423487, in microseconds, never decreasing\n",
        ),
    ];
    for (input, wanted) in table {
        refuses(&rt, &["--rate", "10mbit"], input, wanted);
    }
}

/// The program refuses these bytes, and reports these lines.
fn refuses_bytes<R: Abort + AllocGlobal>(rt: &R, input: &[u8], wanted: &str) {
    let mut output = Vec::new(rt.alloc());
    let mut told = Vec::new(rt.alloc());
    let terminals = Terminals {
        input: false,
        faults: false,
    };
    let words = ["--rate", "10mbit"];
    let mut reader = input;
    let status = program(
        rt.alloc(),
        &words,
        &mut reader,
        &mut output,
        &mut told,
        terminals,
    );
    assert_eq!(rt; status, 2);
    assert_eq!(rt; output.len(), 0);
    assert_eq!(rt; str::from_utf8(&told).ok(), Some(wanted));
}

/// Input that isn't rows at all: captures, by the magic numbers of pcap in both orders of bytes, with microseconds and with
/// nanoseconds, and of pcapng; and text in UTF-16.
#[test]
fn input_of_other_kinds(rt: HostRuntime) {
    let captures: [&[u8]; 6] = [
        b"\xd4\xc3\xb2\xa1\x02\x00\x04\x00",
        b"\xa1\xb2\xc3\xd4\x00\x02\x00\x04",
        b"\x4d\x3c\xb2\xa1\x02\x00\x04\x00",
        b"\xa1\xb2\x3c\x4d\x00\x02\x00\x04",
        b"\x0a\x0d\x0d\x0a\x1c\x00\x00\x00\x4d\x3c\x2b\x1a\x01\x00\x00\x00",
        b"\x0a\x0d\x0d\x0a\x00\x00\x00\x1c\x1a\x2b\x3c\x4d\x00\x01\x00\x00",
    ];
    for input in captures {
        refuses_bytes(
            &rt,
            input,
            "maltlink: row 1: BadKind\n  the input is a packet capture; \
'tools/pcap-to-arrivals FILE' converts it\n",
        );
    }
    let texts: [&[u8]; 4] = [
        b"\xff\xfee\x00n\x00q\x00,\x000\x00\n\x00",
        b"\xfe\xff\x00e\x00n\x00q\x00,\x000\x00\n",
        b"e\x00n\x00q\x00,\x000\x00\n\x00",
        b"\x00e\x00n\x00q\x00,\x000\x00\n",
    ];
    for input in texts {
        refuses_bytes(
            &rt,
            input,
            "maltlink: row 1: BadKind\n  the input is UTF-16; 'iconv -f UTF-16 -t UTF-8' converts it\n",
        );
    }
}

/// What a fault is reported as.
fn explains<R: Abort + AllocGlobal>(rt: &R, fault: &ProgramFault, status: u8, wanted: &str) {
    let mut told = Vec::new(rt.alloc());
    assert_eq!(rt; tell(&mut told, fault), status);
    assert_eq!(rt; str::from_utf8(&told).ok(), Some(wanted));
}

/// Faults of the machine at a row, and a row too many.
#[test]
fn faults_at_a_row(rt: HostRuntime) {
    for (what, status, wanted) in [
        (
            TraceFaultKind::Memory,
            1,
            "maltlink: row 7: Memory\n  row 7: \"enq,0\" couldn't be stored: out of memory\n",
        ),
        (
            TraceFaultKind::Read,
            1,
            "maltlink: row 7: Read\n  row 7: \"enq,0\" couldn't be read\n",
        ),
        (
            TraceFaultKind::TooLarge,
            2,
            "maltlink: row 7: TooLarge\n  row 7: \"enq,0\" is one too many; expected at most 1000000 rows\n",
        ),
    ] {
        let found = String::from_str(rt.alloc(), "enq,0").expect(&rt, "memory");
        let fault = ProgramFault::Row(7, RowFault::Trace(what), Found::Row(found));
        explains(&rt, &fault, status, wanted);
    }
    let found = String::from_str(rt.alloc(), "7").expect(&rt, "memory");
    let fault = ProgramFault::Row(
        0,
        RowFault::Trace(TraceFaultKind::Memory),
        Found::Field(FieldName::Len, found),
    );
    explains(
        &rt,
        &fault,
        1,
        "maltlink: row 0: Memory\n  the input couldn't be stored: out of memory\n",
    );
}

/// Fields that no other test has wrong, and a row of more than 32 bytes, which is shown whole.
#[test]
fn rows_are_explained(rt: HostRuntime) {
    let table = [
        (
            "enq,0,6,10.0.0.1,10.0.0.9,65536,443,1514,2\n",
            "maltlink: row 1: BadNumber\n  row 1, field 6 (SPORT): \"65536\" isn't a valid number; expected 0 to 65535\n",
        ),
        (
            "deq,x\n",
            "maltlink: row 1: BadNumber\n  row 1, field 2 (MOMENT): \"x\" isn't a valid number; expected \
0 to 576460752303423487, in microseconds, never decreasing\n",
        ),
        (
            "enq,576460752303423488,6,10.0.0.1,10.0.0.9,5000,443,1514,2\n",
            "maltlink: row 1: TooLate\n  row 1, field 2 (MOMENT): \"576460752303423488\" is too late; expected \
0 to 576460752303423487, in microseconds, never decreasing\n",
        ),
        (
            "put,1\n",
            "maltlink: row 1: BadKind\n  row 1, field 1 (KIND): \"put\" isn't a kind of row; expected enq\n",
        ),
        (
            "enq,0,6,10.0.0.1,10.0.0.9,5000,443,1514\n",
            "maltlink: row 1: BadFieldCount\n  row 1: \"enq,0,6,10.0.0.1,10.0.0.9,5000,443,1514\" has the wrong number of \
fields; expected enq,MOMENT,PROTO,SRC,DST,SPORT,DPORT,LEN,ECN\n",
        ),
    ];
    for (input, wanted) in table {
        refuses(&rt, &["--rate", "10mbit"], input, wanted);
    }
}

/// The last moment at which a packet may come is 2^59 - 1.
#[test]
fn the_last_moment_is_read(rt: HostRuntime) {
    let input = "enq,576460752303423487,6,10.0.0.1,10.0.0.9,5000,443,1514,2\n";
    let (status, _, told) = called(&rt, &["--rate", "10mbit"], input);
    assert_eq!(rt; str::from_utf8(&told).ok(), Some(""));
    assert_eq!(rt; status, 0);
}

/// A reader that fails.
#[derive(Drop)]
struct Failing;

impl Read for Failing {
    fn read(&mut self, _buf: &mut [u8]) -> io::Result<usize> {
        Err(io::Error::from(ErrorKind::BrokenPipe))
    }
}

/// Where the machine fails, the table stays empty, and the fault is reported beside it.
#[test]
fn a_failed_read_is_explained(rt: HostRuntime) {
    let mut output = Vec::new(rt.alloc());
    let mut told = Vec::new(rt.alloc());
    let terminals = Terminals {
        input: false,
        faults: false,
    };
    let words = ["--rate", "10mbit"];
    let status = program(
        rt.alloc(),
        &words,
        &mut Failing,
        &mut output,
        &mut told,
        terminals,
    );
    assert_eq!(rt; status, 1);
    assert_eq!(rt; output.len(), 0);
    let wanted = "maltlink: row 0: Read\n  the input couldn't be read\n";
    assert_eq!(rt; str::from_utf8(&told).ok(), Some(wanted));
}

/// A reader of one byte more than a trace may have.
#[derive(Drop)]
struct Endless {
    left: usize,
}

impl Read for Endless {
    fn read(&mut self, buf: &mut [u8]) -> io::Result<usize> {
        let count = buf.len().min(self.left);
        self.left -= count;
        Ok(count)
    }
}

/// Too many bytes are a fault of the input, and not of the machine.
#[test]
fn too_many_bytes_are_explained(rt: HostRuntime) {
    let mut output = Vec::new(rt.alloc());
    let mut told = Vec::new(rt.alloc());
    let terminals = Terminals {
        input: false,
        faults: false,
    };
    let mut reader = Endless {
        left: MAX_BYTES + 1,
    };
    let words = ["--rate", "10mbit"];
    let status = program(
        rt.alloc(),
        &words,
        &mut reader,
        &mut output,
        &mut told,
        terminals,
    );
    let wanted =
        "maltlink: row 0: TooLarge\n  the input has more than 134217728 bytes; expected at most that many, in at most \
1000000 rows\n";
    assert_eq!(rt; str::from_utf8(&told).ok(), Some(wanted));
    assert_eq!(rt; status, 2);
    assert_eq!(rt; output.len(), 0);
}
