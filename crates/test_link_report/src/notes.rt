//! What the program reports beside a table: that it reads from a terminal, that no packet came, and that marks are in
//! vain.

use crate::calls::{called, called_at};
use link_command::{Terminals, program};
use std::cell::Cell;
use std::io::{self, Read, Write};
use std::process::Abort;

/// The tables, and the picture.
const TABLES: [&str; 5] = ["flows", "packets", "series", "steps", "svg"];

/// A writer that counts its writes where a reader sees them.
#[derive(Drop)]
struct Counted<'a> {
    writes: &'a Cell<u32>,
}

impl Write for Counted<'_> {
    fn write(&mut self, buf: &[u8]) -> io::Result<usize> {
        self.writes.set(self.writes.get().saturating_add(1));
        Ok(buf.len())
    }

    fn flush(&mut self) -> io::Result<()> {
        Ok(())
    }
}

/// A reader of no byte, which notes whether something was written before it was read.
#[derive(Drop)]
struct Watching<'a> {
    writes: &'a Cell<u32>,
    was_after: bool,
}

impl Read for Watching<'_> {
    fn read(&mut self, _buf: &mut [u8]) -> io::Result<usize> {
        self.was_after = self.writes.get() > 0;
        Ok(0)
    }
}

/// The report comes before the first byte is read: whoever sits there knows what the program waits for.
#[test]
fn note_before_the_reading(rt: HostRuntime) {
    let terminals = Terminals {
        input: true,
        faults: true,
    };
    let writes = Cell::new(0);
    let mut reader = Watching {
        writes: &writes,
        was_after: false,
    };
    let mut told = Counted { writes: &writes };
    let mut output = Vec::new(rt.alloc());
    let words = ["--rate", "10mbit"];
    let status = program(
        rt.alloc(),
        &words,
        &mut reader,
        &mut output,
        &mut told,
        terminals,
    );
    assert_eq!(rt; status, 0);
    assert!(rt; reader.was_after);
}

/// Wrong words are told at once: nothing is said of a reading that isn't made.
#[test]
fn wrong_words_at_a_terminal(rt: HostRuntime) {
    let terminals = Terminals {
        input: true,
        faults: true,
    };
    let words = ["--rate", "8mbit", "limit"];
    let (status, output, told) = called_at(&rt, &words, "", terminals);
    assert_eq!(rt; status, 2);
    assert!(rt; output.is_empty());
    assert!(rt; told.starts_with(b"maltlink: parameter word 1: MissingValue\n"));
}

/// A run with these words and this input ends well and reports this, whatever it writes. Only the steps of no packet are no
/// text.
fn notes<R: Abort + AllocGlobal>(rt: &R, words: &[&str], input: &str, wanted: &str) {
    for table in TABLES {
        let mut all = Vec::new(rt.alloc());
        all.extend_from_slice(&["--rate", "8mbit", "--write", table])
            .expect(rt, "memory");
        all.extend_from_slice(words).expect(rt, "memory");
        let (status, output, told) = called(rt, &all, input);
        assert_eq!(rt; status, 0, "{table}");
        assert_eq!(rt; told.as_slice(), wanted.as_bytes(), "{table}");
        let has_none = table == "steps" && wanted.starts_with("maltlink: no packet");
        assert_eq!(rt; output.is_empty(), has_none, "{table}");
    }
}

/// Where no row came, that is reported with each table, in a script as well as at a terminal. The status stays 0.
#[test]
fn no_packet_is_reported(rt: HostRuntime) {
    let wanted =
        "maltlink: no packet arrived\n  standard input has no 'enq' row; arrivals are read from there, as in \
'maltlink --rate 10mbit < arrivals.csv'\n";
    for input in ["", "\n\n", "\"\"\n", "version,2\n"] {
        notes(&rt, &[], input, wanted);
        notes(&rt, &["--compare", "fifo", "noecn"], input, wanted);
    }
    let terminals = Terminals {
        input: false,
        faults: true,
    };
    let (status, _, told) = called_at(&rt, &["--rate", "8mbit"], "", terminals);
    assert_eq!(rt; status, 0);
    assert_eq!(rt; str::from_utf8(&told).ok(), Some(wanted));
}

/// Rows of packets of 1,000 bytes, one each `gap` microseconds, so that one in 32 has another sender. That one's ECN field
/// is 0.
fn fast_rows<R: Abort + AllocGlobal>(rt: &R, gap: usize, source: &str, ecn: u8) -> String {
    let mut rows = String::new(rt.alloc());
    for k in 0..2_000 {
        let moment = gap.saturating_mul(k);
        let row = if k % 32 == 0 {
            format!(in rt.alloc(); "enq,{moment},17,10.0.0.7,10.0.0.9,53,53,100,0\n")
        } else {
            format!(in rt.alloc(); "enq,{moment},6,{source},10.0.0.9,5000,443,1000,{ecn}\n")
        };
        rows.push_str(row.expect(rt, "memory").as_str())
            .expect(rt, "memory");
    }
    rows
}

/// A sender of twice the link's rate takes part in ECN and never slows down. That is reported with each table, of the first
/// such five-tuple, by its number in the tables. There is no note where its packets can't be marked, where CoDel drops in
/// their place, where few are marked, where none waits longer than the interval, and where the link is fast enough.
#[test]
fn marks_in_vain_are_reported(rt: HostRuntime) {
    let rows = fast_rows(&rt, 500, "10.0.0.1", 2);
    let rows = rows.as_str();
    let wanted =
        "maltlink: five-tuple 1 (6,10.0.0.1,10.0.0.9,5000,443): more than half of its packets sent are marked, and its \
delay_p99 is above the interval\n  arrivals are open loop, so no sender slows down at a mark; with 'noecn' CoDel drops \
instead\n";
    let fast = ["target", "1ms", "interval", "10ms"];
    notes(&rt, &fast, rows, wanted);
    notes(
        &rt,
        &[
            "--compare",
            "fifo",
            "target",
            "1ms",
            "interval",
            "10ms",
            "ecn",
        ],
        rows,
        wanted,
    );
    notes(
        &rt,
        &["target", "1ms", "interval", "10ms", "noecn"],
        rows,
        "",
    );
    notes(&rt, &[], rows, "");
    notes(&rt, &["ce_threshold", "1ms", "interval", "10s"], rows, "");
    notes(&rt, &fast, fast_rows(&rt, 500, "10.0.0.1", 0).as_str(), "");
    notes(
        &rt,
        &fast,
        fast_rows(&rt, 1_100, "10.0.0.1", 2).as_str(),
        "",
    );
}

/// A note that can't be written is passed over: the table is there, and the status is 0.
#[test]
fn a_note_without_a_writer(rt: HostRuntime) {
    let mut none: &mut [u8] = &mut [];
    let mut output = Vec::new(rt.alloc());
    let mut reader: &[u8] = b"";
    let terminals = Terminals {
        input: false,
        faults: false,
    };
    let words = ["--rate", "10mbit"];
    let status = program(
        rt.alloc(),
        &words,
        &mut reader,
        &mut output,
        &mut none,
        terminals,
    );
    assert_eq!(rt; status, 0);
    assert!(rt; output.len() > 0);
}
