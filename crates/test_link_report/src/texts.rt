//! What the program writes where no run is asked for.

use crate::calls::{called, called_interrupted};
use std::process::Abort;

/// How many lines the page of the manual has.
const PAGE_LINES: usize = 194;

/// The version is its number and the toolchain, and help is the page of the manual.
#[test]
fn version_and_help(rt: HostRuntime) {
    for word in ["--version", "-V"] {
        let (status, output, told) = called(&rt, &[word], "");
        assert_eq!(rt; status, 0);
        assert_eq!(rt; told.len(), 0);
        let text = str::from_utf8(&output).unwrap_or("");
        assert!(rt; text.starts_with("maltlink 0.1.0\nproved with "), "{text}");
        assert_eq!(rt; text.lines().count(), 2);
    }
    for word in ["--help", "-h"] {
        let (status, output, told) = called(&rt, &[word], "");
        assert_eq!(rt; status, 0);
        assert_eq!(rt; told.len(), 0);
        let text = str::from_utf8(&output).unwrap_or("");
        assert!(rt;
            text.starts_with(
                "NAME\n    maltlink - run packets through a bottleneck link with FQ-CoDel before it\n"
            ),
            "{text}"
        );
        assert!(rt; text.contains("\n    --rate RATE\n"));
        is_whole(&rt, text);
    }
}

/// Help lists each parameter with its range, as `fqsim trace --help` does.
#[test]
fn help_lists_the_parameters(rt: HostRuntime) {
    let (_, output, _) = called(&rt, &["--help"], "");
    let text = str::from_utf8(&output).unwrap_or("");
    let (_, behind) = text.split_once("\nPARAMETERS\n").expect(&rt, "parameters");
    let (page, _) = behind.split_once("\nTABLES\n").expect(&rt, "tables");
    for (name, range) in [
        ("limit", "1 to 1048576"),
        ("flows", "1 to 65536"),
        ("quantum", "1 to 1000000"),
        ("mtu", "0 to 65535"),
        ("target", "0 to 1000s"),
        ("interval", "1us to 1000s"),
        ("ce_threshold", "0 to 1000s"),
        ("memory_limit", "1 to 1099511627776"),
        ("drop_batch", "1 to 1048576"),
        ("ecn | noecn", ""),
        ("classify hash|dport", ""),
    ] {
        let begin = format!(in rt.alloc(); "        {name} ").expect(&rt, "memory");
        let mut found = 0u32;
        for line in page.lines() {
            if line.starts_with(begin.as_str()) && line.contains(range) {
                found = found.saturating_add(1);
            }
        }
        assert_eq!(rt; found, 1, "{name}");
    }
}

/// The page has its sections in their order, ends with what the status 2 is, and has as many lines as the manual.
fn is_whole<R: Abort>(rt: &R, text: &str) {
    let mut rest = text;
    for section in [
        "\nSYNOPSIS\n",
        "\nDESCRIPTION\n",
        "\nOPTIONS\n",
        "\nPARAMETERS\n",
        "\nTABLES\n",
        "\nERRORS\n",
        "\nNOTES\n",
        "\nEXAMPLES\n",
        "\nEXIT STATUS\n",
    ] {
        let (_, behind) = rest.split_once(section).expect(rt, section);
        rest = behind;
    }
    let last =
        "    2   The command line or the input is wrong. Nothing was written to standard\n        output.\n";
    assert!(rt; rest.ends_with(last), "{rest}");
    assert_eq!(rt; text.lines().count(), PAGE_LINES);
}

/// The words write that text, and the same where its writer is interrupted, up to 1,000 times.
fn written_again<R: Abort + AllocGlobal>(rt: &R, words: &[&str]) {
    let input = "enq,0,17,10.0.0.1,10.0.0.2,5000,53,1000,2\n";
    let (_, whole, _) = called(rt, words, input);
    assert!(rt; !whole.is_empty());
    for interruptions in [1, 1_000] {
        let (status, output, told) = called_interrupted(rt, words, input, interruptions);
        assert_eq!(rt; status, 0, "{words:?}");
        assert!(rt; output == whole, "{words:?}");
        assert_eq!(rt; told.len(), 0);
    }
    let (status, output, told) = called_interrupted(rt, words, input, 1_001);
    assert_eq!(rt; status, 1);
    assert_eq!(rt; output.len(), 0);
    assert_eq!(rt; str::from_utf8(&told).ok(), Some("maltlink: write\n"));
}

/// Help, the version and tables are written where their writer is interrupted.
#[test]
fn interruptions_are_tried_again(rt: HostRuntime) {
    written_again(&rt, &["--help"]);
    written_again(&rt, &["--version"]);
    for table in ["flows", "packets", "series", "steps", "svg"] {
        written_again(&rt, &["--rate", "10mbit", "--write", table]);
    }
}
