//! Parameter words, their faults and their places.

use packet_core::{Classify, EcnUse, ParamFault, ParamFields, ParamName, Params, read_params};
use std::process::Abort;

/// Ten thousand, in forty digits.
const FORTY_DIGITS: &str = "0000000000000000000000000000000000010000";

/// Ten to the thirty-ninth, which has forty digits.
const GREAT: &str = "1000000000000000000000000000000000000000";

/// 2^64 + 5.
const GREAT_WORD: &str = "18446744073709551621";

/// The words of the parameters that have a range.
const RANGED: [&str; 9] = [
    "limit",
    "flows",
    "quantum",
    "mtu",
    "target",
    "interval",
    "ce_threshold",
    "memory_limit",
    "drop_batch",
];

/// Those of them whose value is no time.
const WHOLE: [&str; 6] = [
    "limit",
    "flows",
    "quantum",
    "mtu",
    "memory_limit",
    "drop_batch",
];

/// The standard parameters.
pub(crate) const STANDARD: ParamFields = ParamFields {
    limit: 10240,
    flows: 1024,
    quantum: 1514,
    mtu: 1514,
    target: 5000,
    interval: 100000,
    ce_threshold: None,
    memory_limit: None,
    drop_batch: 64,
    ecn: EcnUse::Mark,
    classify: Classify::Hash,
};

/// Tests that the words say these parameters.
fn says(rt: &impl Abort, words: &[&str], fields: ParamFields) {
    let params = Params::try_new(fields).ok();
    assert!(rt; params.is_some());
    assert_eq!(rt; read_params(words).ok(), params);
}

/// Words, and the parameters that they say.
type Said<'a> = (&'a [&'a str], ParamFields);

/// Tests each of these.
fn all_say(rt: &impl Abort, table: &[Said<'_>]) {
    for &(words, fields) in table {
        says(rt, words, fields);
    }
}

/// A text of a time, and the time that it says, in microseconds.
type Timed<'a> = (&'a str, u64);

/// Tests each of these as a target, and as a target and a threshold.
fn all_time(rt: &impl Abort, table: &[Timed<'_>]) {
    for &(text, time) in table {
        let target = ParamFields {
            target: time,
            ..STANDARD
        };
        says(rt, &["target", text], target);
        let both = ParamFields {
            ce_threshold: Some(time),
            ..target
        };
        says(rt, &["target", text, "ce_threshold", text], both);
    }
}

/// Tests that each of these words with its value is read.
fn are_read(rt: &impl Abort, table: &[[&str; 2]]) {
    for words in table {
        assert!(rt; read_params(words).is_ok());
    }
}

/// Words, and the fault that they have.
type Failed<'a> = (&'a [&'a str], ParamFault);

/// Tests each of these.
fn all_fail(rt: &impl Abort, table: &[Failed<'_>]) {
    for &(words, fault) in table {
        fails(rt, words, fault);
    }
}

/// Tests that each of these words with its value is out of range.
fn are_beyond(rt: &impl Abort, table: &[[&str; 2]]) {
    for words in table {
        fails(rt, words, ParamFault::OutOfRange(2));
    }
}

/// Tests that none of these texts is a value of any of these parameters, at the first place and at a later one.
fn are_no_values(rt: &impl Abort, parameters: &[&str], texts: &[&str]) {
    for parameter in parameters {
        for text in texts {
            fails(rt, &[parameter, text], ParamFault::NotANumber(2));
            fails(rt, &["ecn", parameter, text], ParamFault::NotANumber(3));
        }
    }
}

/// Tests that a number of many digits counts by its value, for each of these parameters: ten to the thirty-ninth and
/// 2^64 + 5 are out of its range, and ten thousand is in it.
fn are_counted_by_value(rt: &impl Abort, parameters: &[&str]) {
    for parameter in parameters {
        fails(rt, &[parameter, GREAT], ParamFault::OutOfRange(2));
        fails(rt, &[parameter, GREAT_WORD], ParamFault::OutOfRange(2));
        assert!(rt; read_params(&[parameter, FORTY_DIGITS]).is_ok());
    }
}

/// Tests that each of these parameters wants a value.
fn want_values(rt: &impl Abort, parameters: &[&str]) {
    for parameter in parameters {
        let words = ["noecn", "flows", "5", parameter];
        fails(rt, &words, ParamFault::MissingValue(4));
    }
}

/// Tests that none of these words is known after that one.
fn are_unknown(rt: &impl Abort, before: &str, words: &[&str]) {
    for word in words {
        fails(rt, &[before, word], ParamFault::UnknownWord(2));
        fails(rt, &[before, word, "5"], ParamFault::UnknownWord(2));
    }
}

/// Tests that the words have this fault.
fn fails(rt: &impl Abort, words: &[&str], fault: ParamFault) {
    assert_eq!(rt; read_params(words).err(), Some(fault));
}

#[test]
fn words_of_numbers(rt: HostRuntime) {
    all_say(&rt, &NUMBERS);
}

const NUMBERS: [Said<'static>; 9] = [
    (&[], STANDARD),
    (
        &["limit", "5"],
        ParamFields {
            limit: 5,
            ..STANDARD
        },
    ),
    (
        &["limit", FORTY_DIGITS],
        ParamFields {
            limit: 10000,
            ..STANDARD
        },
    ),
    (
        &["limit", "5", "limit", "6"],
        ParamFields {
            limit: 6,
            ..STANDARD
        },
    ),
    (
        &["flows", "6"],
        ParamFields {
            flows: 6,
            ..STANDARD
        },
    ),
    (
        &["quantum", "7"],
        ParamFields {
            quantum: 7,
            ..STANDARD
        },
    ),
    (&["mtu", "8"], ParamFields { mtu: 8, ..STANDARD }),
    (
        &["interval", "10"],
        ParamFields {
            interval: 10,
            ..STANDARD
        },
    ),
    (
        &["target", "5ms", "target", "7"],
        ParamFields {
            target: 7,
            ..STANDARD
        },
    ),
];

#[test]
fn words_of_the_threshold_and_of_overflow(rt: HostRuntime) {
    all_say(&rt, &THRESHOLD_AND_OVERFLOW);
}

const THRESHOLD_AND_OVERFLOW: [Said<'static>; 4] = [
    (
        &["ce_threshold", "5ms"],
        ParamFields {
            ce_threshold: Some(5000),
            ..STANDARD
        },
    ),
    (
        &["memory_limit", "1099511627776"],
        ParamFields {
            memory_limit: Some(1 << 40),
            ..STANDARD
        },
    ),
    (
        &["memory_limit", "5", "memory_limit", "6"],
        ParamFields {
            memory_limit: Some(6),
            ..STANDARD
        },
    ),
    (
        &["drop_batch", "7"],
        ParamFields {
            drop_batch: 7,
            ..STANDARD
        },
    ),
];

#[test]
fn words_of_uses(rt: HostRuntime) {
    all_say(&rt, &USES);
}

/// The standard parameters, without marks in place of drops.
const DROPS: ParamFields = ParamFields {
    ecn: EcnUse::Drop,
    ..STANDARD
};

/// The standard parameters, with flows chosen by the destination port.
const BY_PORT: ParamFields = ParamFields {
    classify: Classify::Dport,
    ..STANDARD
};

const USES: [Said<'static>; 7] = [
    (&["noecn"], DROPS),
    (&["ecn"], STANDARD),
    (&["ecn", "noecn"], DROPS),
    (&["noecn", "ecn"], STANDARD),
    (&["classify", "dport"], BY_PORT),
    (&["classify", "hash"], STANDARD),
    (&["classify", "dport", "classify", "hash"], STANDARD),
];

/// Each parameter in words, in no order.
const ALL_WORDS: [&str; 21] = [
    "noecn",
    "drop_batch",
    "8",
    "interval",
    "80ms",
    "classify",
    "dport",
    "limit",
    "100",
    "target",
    "4ms",
    "ce_threshold",
    "2ms",
    "mtu",
    "0",
    "flows",
    "16",
    "memory_limit",
    "65536",
    "quantum",
    "300",
];

#[test]
fn all_words_at_once(rt: HostRuntime) {
    says(&rt, &ALL_WORDS, ALL_FIELDS);
}

const ALL_FIELDS: ParamFields = ParamFields {
    limit: 100,
    flows: 16,
    quantum: 300,
    mtu: 0,
    target: 4000,
    interval: 80000,
    ce_threshold: Some(2000),
    memory_limit: Some(65536),
    drop_batch: 8,
    ecn: EcnUse::Drop,
    classify: Classify::Dport,
};

#[test]
fn each_unit(rt: HostRuntime) {
    all_time(&rt, &UNITS);
}

const UNITS: [Timed<'static>; 13] = [
    ("3", 3),
    ("3us", 3),
    ("3usec", 3),
    ("3usecs", 3),
    ("3ms", 3000),
    ("3msec", 3000),
    ("3msecs", 3000),
    ("3s", 3000000),
    ("3sec", 3000000),
    ("3secs", 3000000),
    ("0", 0),
    ("0s", 0),
    ("007ms", 7000),
];

#[test]
fn other_texts_are_no_value(rt: HostRuntime) {
    are_no_values(&rt, &RANGED, &NO_VALUES);
    are_no_values(&rt, &WHOLE, &TIMES);
}

/// Times, which are no values of what is no time.
const TIMES: [&str; 3] = ["5ms", "5us", "5s"];

const NO_VALUES: [&str; 31] = [
    "",
    "ms",
    "s",
    "5MS",
    "5Us",
    "5S",
    "5 ms",
    " 5",
    "5 ",
    "5m",
    "5u",
    "5k",
    "5mss",
    "5msecss",
    "5se",
    "5min",
    "5us5",
    "5.0",
    "5.0ms",
    "5e3",
    "-5",
    "+5",
    "0x10",
    "1_000",
    "1,000",
    "flows",
    "ecn",
    "5\u{b5}s",
    "\u{0665}",
    "\u{ff15}",
    "\u{ff15}ms",
];

#[test]
fn ends_of_ranges(rt: HostRuntime) {
    are_read(&rt, &ENDS);
}

const ENDS: [[&str; 2]; 24] = [
    ["limit", "1"],
    ["limit", "1048576"],
    ["flows", "1"],
    ["flows", "65536"],
    ["quantum", "1"],
    ["quantum", "1000000"],
    ["mtu", "0"],
    ["mtu", "65535"],
    ["target", "0"],
    ["target", "1000000000"],
    ["target", "0s"],
    ["target", "1000s"],
    ["interval", "1"],
    ["interval", "1000000000"],
    ["interval", "1us"],
    ["interval", "1000000ms"],
    ["ce_threshold", "0"],
    ["ce_threshold", "1000000000"],
    ["ce_threshold", "0s"],
    ["ce_threshold", "1000s"],
    ["memory_limit", "1"],
    ["memory_limit", "1099511627776"],
    ["drop_batch", "1"],
    ["drop_batch", "1048576"],
];

#[test]
fn values_beyond_ranges(rt: HostRuntime) {
    are_beyond(&rt, &BEYOND);
}

/// A parameter, and a value beyond its range.
const BEYOND: [[&str; 2]; 30] = [
    ["limit", "0"],
    ["limit", "1048577"],
    ["flows", "0"],
    ["flows", "65537"],
    ["quantum", "0"],
    ["quantum", "1000001"],
    ["mtu", "65536"],
    ["target", "1000000001"],
    ["target", "1001s"],
    ["interval", "0"],
    ["interval", "0ms"],
    ["interval", "1000000001"],
    ["interval", "1000001msecs"],
    ["ce_threshold", "1000000001"],
    ["ce_threshold", "1001s"],
    ["memory_limit", "0"],
    ["memory_limit", "1099511627777"],
    ["drop_batch", "0"],
    ["drop_batch", "1048577"],
    // 2^32 + 5
    ["limit", "4294967301"],
    ["flows", "4294967301"],
    ["quantum", "4294967301"],
    ["mtu", "4294967301"],
    ["drop_batch", "4294967301"],
    // 2^64 seconds, and the fewest milliseconds that are more than 2^64 microseconds
    ["target", "18446744073709551616s"],
    ["target", "18446744073709552ms"],
    ["interval", "18446744073709551616s"],
    ["interval", "18446744073709552ms"],
    ["ce_threshold", "18446744073709551616s"],
    ["ce_threshold", "18446744073709552ms"],
];

#[test]
fn numbers_of_many_digits(rt: HostRuntime) {
    are_counted_by_value(&rt, &RANGED);
}

/// Gives a parameter its standard value.
fn mend(fields: &mut ParamFields, name: ParamName) {
    let standard = STANDARD;
    match name {
        ParamName::Limit => fields.limit = standard.limit,
        ParamName::Flows => fields.flows = standard.flows,
        ParamName::Quantum => fields.quantum = standard.quantum,
        ParamName::Mtu => fields.mtu = standard.mtu,
        ParamName::Target => fields.target = standard.target,
        ParamName::Interval => fields.interval = standard.interval,
        ParamName::CeThreshold => fields.ce_threshold = standard.ce_threshold,
        ParamName::MemoryLimit => fields.memory_limit = standard.memory_limit,
        ParamName::DropBatch => fields.drop_batch = standard.drop_batch,
    }
}

/// The first of these parameters that isn't mended yet is the one that is refused.
fn are_tested_in_order(rt: &impl Abort, fields: ParamFields, names: &[ParamName]) {
    let mut fields = fields;
    for &name in names {
        assert_eq!(rt; Params::try_new(fields).err(), Some(name));
        mend(&mut fields, name);
    }
    assert_eq!(rt; Params::try_new(fields).ok(), Some(Params::standard()));
}

#[test]
fn ranges_are_tested_in_order(rt: HostRuntime) {
    are_tested_in_order(&rt, OUT_OF_RANGE, &IN_ORDER);
}

/// Each parameter is out of its range.
const OUT_OF_RANGE: ParamFields = ParamFields {
    limit: 0,
    flows: 65537,
    quantum: 0,
    mtu: 65536,
    target: 1000000001,
    interval: 0,
    ce_threshold: Some(1000000001),
    memory_limit: Some(0),
    drop_batch: 1048577,
    ..STANDARD
};

const IN_ORDER: [ParamName; 9] = [
    ParamName::Limit,
    ParamName::Flows,
    ParamName::Quantum,
    ParamName::Mtu,
    ParamName::Target,
    ParamName::Interval,
    ParamName::CeThreshold,
    ParamName::MemoryLimit,
    ParamName::DropBatch,
];

#[test]
fn the_first_fault_counts(rt: HostRuntime) {
    all_fail(&rt, &FIRST_FAULTS);
}

const FIRST_FAULTS: [Failed<'static>; 9] = [
    (
        &["target", "5ms", "interval", "100", "flows", "0"],
        ParamFault::OutOfRange(6),
    ),
    (&["rate", "flows", "0"], ParamFault::UnknownWord(1)),
    (&["flows", "0", "rate"], ParamFault::OutOfRange(2)),
    (&["flows", "5ms", "limit"], ParamFault::NotANumber(2)),
    (&["noecn", "limit", "5", "mtu"], ParamFault::MissingValue(4)),
    (&["limit", "0", "limit", "5"], ParamFault::OutOfRange(2)),
    (&["limit", "flows", "5"], ParamFault::NotANumber(2)),
    (
        &["classify", "classify", "hash"],
        ParamFault::UnknownWord(2),
    ),
    (
        &["drop_batch", "0", "memory_limit", "0"],
        ParamFault::OutOfRange(2),
    ),
];

#[test]
fn no_other_word_is_known(rt: HostRuntime) {
    are_unknown(&rt, "ecn", &UNKNOWN);
    are_unknown(&rt, "classify", &NO_CHOICES);
}

/// No ways to choose a flow.
const NO_CHOICES: [&str; 7] = ["", "Hash", "HASH", "dports", "port", "0", "ecn"];

const UNKNOWN: [&str; 16] = [
    "",
    "rate",
    "Limit",
    "LIMIT",
    "ECN",
    "noEcn",
    "limits",
    "limi",
    " limit",
    "ce_threshold_selector",
    "CE_threshold",
    "memory",
    "batch",
    "dport",
    "hash",
    "5",
];

#[test]
fn every_parameter_wants_its_value(rt: HostRuntime) {
    want_values(&rt, &RANGED);
    fails(&rt, &["classify"], ParamFault::MissingValue(1));
}

/// The text of the fault.
fn reads_as(rt: &(impl Abort + AllocGlobal), fault: ParamFault, text: &str) {
    let told = format!(in rt.alloc(); "{fault}").expect(rt, "memory");
    assert_eq!(rt; told.as_str(), text);
}

#[test]
fn texts_of_faults(rt: HostRuntime) {
    for &(fault, text) in &TEXTS {
        reads_as(&rt, fault, text);
    }
}

const TEXTS: [(ParamFault, &str); 4] = [
    (ParamFault::UnknownWord(1), "parameter word 1: UnknownWord"),
    (
        ParamFault::MissingValue(2),
        "parameter word 2: MissingValue",
    ),
    (ParamFault::NotANumber(30), "parameter word 30: NotANumber"),
    (ParamFault::OutOfRange(6), "parameter word 6: OutOfRange"),
];

/// The name of each parameter is its word.
#[test]
fn names_of_parameters(rt: HostRuntime) {
    for &(name, text) in &NAMES {
        let told = format!(in rt.alloc(); "{name}").expect(&rt, "memory");
        assert_eq!(rt; told.as_str(), text);
    }
}

const NAMES: [(ParamName, &str); 9] = [
    (ParamName::Limit, "limit"),
    (ParamName::Flows, "flows"),
    (ParamName::Quantum, "quantum"),
    (ParamName::Mtu, "mtu"),
    (ParamName::Target, "target"),
    (ParamName::Interval, "interval"),
    (ParamName::CeThreshold, "ce_threshold"),
    (ParamName::MemoryLimit, "memory_limit"),
    (ParamName::DropBatch, "drop_batch"),
];
