//! The second line of an error, for people: what was found, and what was expected.

use crate::faults::{Found, ProgramFault, RowFault, ValueName};
use crate::fields::FieldName;
use crate::nearest::nearest_name;
use packet_core::ParamFault;
use row_core::TraceFaultKind;
use std::io::{self, Write};

/// Writes the line for people. A write that fails is ignored: there is no other place for it.
pub(crate) fn explain<F: Write>(faults: &mut F, fault: &ProgramFault) {
    let _ = match fault {
        ProgramFault::Value(name, _, found) => {
            writeln!(faults, "  --{name} {found:?}: expected {}", wanted(*name))
        }
        ProgramFault::Seed(found) => {
            writeln!(faults, "  --seed {found:?}: expected 32 hexadecimal digits")
        }
        ProgramFault::Params(ParamFault::UnknownWord(_), found) => explain_unknown(faults, found),
        ProgramFault::Params(fault, found) => {
            writeln!(faults, "  {found:?}: {}", wanted_word(*fault, found))
        }
        ProgramFault::Row(0, what, _) => writeln!(faults, "  the input {}", amiss_input(*what)),
        ProgramFault::Row(_, _, Found::Capture) => writeln!(
            faults,
            "  the input is a packet capture; 'tools/pcap-to-arrivals FILE' converts it"
        ),
        ProgramFault::Row(_, _, Found::Utf16) => writeln!(
            faults,
            "  the input is UTF-16; 'iconv -f UTF-16 -t UTF-8' converts it"
        ),
        ProgramFault::Row(number, what, Found::Field(name, found)) => {
            writeln!(
                faults,
                "  row {number}, field {} ({name}): {found:?} {}; expected {}",
                name.number(),
                amiss(*what, *name, found),
                wanted_field(*name)
            )
        }
        ProgramFault::Row(number, what, Found::Row(found)) => {
            writeln!(faults, "  row {number}: {found:?} {}", amiss_row(*what))
        }
        ProgramFault::CommandLine(_)
        | ProgramFault::NotUtf8
        | ProgramFault::Memory
        | ProgramFault::Write => Ok(()),
    };
}

/// Writes the line on a word that is no parameter's name.
fn explain_unknown<F: Write>(faults: &mut F, found: &str) -> io::Result<()> {
    if found.contains('.') || found.contains('/') {
        return writeln!(
            faults,
            "  {found:?}: unknown parameter; arrivals are read from standard input, as in 'maltlink .. < FILE'"
        );
    }
    match nearest_name(found) {
        Some(name) => writeln!(
            faults,
            "  {found:?}: unknown parameter; did you mean '{name}'?"
        ),
        None => writeln!(
            faults,
            "  {found:?}: unknown parameter ('maltlink --help' lists them)"
        ),
    }
}

/// What value an option takes.
pub(crate) fn wanted(name: ValueName) -> &'static str {
    match name {
        ValueName::Rate => "a rate from 1000bit to 1tbit, such as 10mbit or 1250kbps",
        ValueName::Overhead => "a number from 0 to 1000, in bytes",
        ValueName::Mpu => "a number from 0 to 65535, in bytes",
        ValueName::Every => "a time from 1ms to 1000s",
    }
}

/// What is expected of a parameter.
fn wanted_word(fault: ParamFault, found: &str) -> &'static str {
    match fault {
        ParamFault::UnknownWord(_) => "unknown parameter",
        ParamFault::MissingValue(_) => "this parameter needs a value after it",
        ParamFault::NotANumber(_) => wanted_number(found),
        ParamFault::OutOfRange(_) => "out of range ('maltlink --help' lists the ranges)",
    }
}

/// What is expected of a parameter's value that isn't a number.
fn wanted_number(found: &str) -> &'static str {
    if found.contains(',') {
        "expected a number without commas, such as 10240"
    } else if found.contains('.') {
        "expected a time such as 5.5ms: one to six digits after the point, and us, ms or s, to a whole microsecond"
    } else {
        "expected a number, or a time such as 5ms"
    }
}

/// What is wrong with a field.
fn amiss(what: RowFault, name: FieldName, found: &str) -> &'static str {
    match what {
        RowFault::NotAnArrival => "isn't an arrival",
        RowFault::TooLate => "is too late",
        RowFault::Backwards => "is earlier than the row before",
        RowFault::Trace(TraceFaultKind::BadKind) => {
            if found == "version" {
                "is allowed in the first row only"
            } else {
                "isn't a kind of row"
            }
        }
        RowFault::Trace(TraceFaultKind::BadAddress) => match name {
            FieldName::Dst => "isn't an address of the same family as SRC",
            _ => "isn't an address",
        },
        RowFault::Trace(_) => {
            if found.contains('.') {
                "isn't a whole number"
            } else {
                "isn't a valid number"
            }
        }
    }
}

/// What is expected in a field.
fn wanted_field(name: FieldName) -> &'static str {
    match name {
        FieldName::Kind => "enq",
        FieldName::Version => "2",
        FieldName::Moment => "0 to 576460752303423487, in microseconds, never decreasing",
        FieldName::Proto => "0 to 255",
        FieldName::Src | FieldName::Dst => {
            "an IPv4 address such as 10.0.0.1, or after a row version,2 an IPv6 address of 32 hexadecimal digits"
        }
        FieldName::Sport | FieldName::Dport => "0 to 65535",
        FieldName::Len => "1 to 65535, in bytes",
        FieldName::Ecn => "one digit from 0 to 3",
    }
}

/// What is wrong with the input as a whole.
fn amiss_input(what: RowFault) -> &'static str {
    match what {
        RowFault::Trace(TraceFaultKind::TooLarge) => {
            "has more than 134217728 bytes; expected at most that many, in at most 1000000 rows"
        }
        _ => amiss_row(what),
    }
}

/// What is wrong with a row as a whole.
fn amiss_row(what: RowFault) -> &'static str {
    match what {
        RowFault::Trace(TraceFaultKind::Read) => "couldn't be read",
        RowFault::Trace(TraceFaultKind::Memory) => "couldn't be stored: out of memory",
        RowFault::Trace(TraceFaultKind::TooLarge) => {
            "is one too many; expected at most 1000000 rows"
        }
        RowFault::Trace(_) | RowFault::NotAnArrival | RowFault::TooLate | RowFault::Backwards => {
            "has the wrong number of fields; expected enq,MOMENT,PROTO,SRC,DST,SPORT,DPORT,LEN,ECN"
        }
    }
}
