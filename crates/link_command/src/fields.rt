//! The fields of a row, and the one that a fault stands in.

ghost use Rattle.std.specs.Prelude.{◌≡◌, ◌⊎◌, IfOk};
ghost use Rattle.csv.specs.Records.{fields_of};
ghost use Rattle.link_command.specs.Fields.{IsFaultOfField, first_amiss, greatest_of, is_amiss, numberless_field, field_place_of, text_in};

use crate::faults::RowFault;
use csv::ByteRecord;
use packet_core::read_numeral;
use row_core::{TraceFaultKind, TraceRows};
use std::alloc::{AllocError, Global};
use thiserror::Error;

/// A field of a row.
#[derive(Clone, Copy, Debug, PartialEq, Eq, Error)]
pub enum FieldName {
    /// What the row is.
    #[error("KIND")]
    Kind,
    /// The version of the trace, in its first row.
    #[error("VERSION")]
    Version,
    /// The moment, in microseconds.
    #[error("MOMENT")]
    Moment,
    /// The number of the protocol.
    #[error("PROTO")]
    Proto,
    /// The address that a packet comes from.
    #[error("SRC")]
    Src,
    /// The address that it goes to.
    #[error("DST")]
    Dst,
    /// The port that it comes from.
    #[error("SPORT")]
    Sport,
    /// The port that it goes to.
    #[error("DPORT")]
    Dport,
    /// Its length, in bytes.
    #[error("LEN")]
    Len,
    /// Its ECN field.
    #[error("ECN")]
    Ecn,
}

/// The fields of the row of an arrival with a number in them, from left to right.
const NUMBERS: [FieldName; 5] = [
    FieldName::Moment,
    FieldName::Proto,
    FieldName::Sport,
    FieldName::Dport,
    FieldName::Len,
];

impl FieldName {
    /// Its place in a row, from 1.
    pub fn number(self) -> usize
        ensures { result ≡ field_place_of self }
    {
        match self {
            FieldName::Kind => 1,
            FieldName::Version | FieldName::Moment => 2,
            FieldName::Proto => 3,
            FieldName::Src => 4,
            FieldName::Dst => 5,
            FieldName::Sport => 6,
            FieldName::Dport => 7,
            FieldName::Len => 8,
            FieldName::Ecn => 9,
        }
    }

    /// The greatest number that it may have, where it has a number.
    fn greatest(self) -> u64
        ensures { result ≡ greatest_of self }
    {
        match self {
            FieldName::Moment => (1 << 60) - 1,
            FieldName::Proto => 255,
            FieldName::Sport | FieldName::Dport => 65_535,
            _ => u64::MAX,
        }
    }

    /// Its bytes in a row, and none where the row ends before it.
    pub(crate) fn in_row(self, row: &ByteRecord) -> &[u8]
        ensures { result.now ≡ text_in (fields_of row.now) self }
    {
        let place = self.number().saturating_sub(1);
        match row.get(place) {
            Some(text) => text,
            None => &[],
        }
    }
}

/// The field that a row's fault stands in, where it stands in one. `first` is the trace's first row, which may tell its
/// version.
pub(crate) fn faulty_field(
    alloc: Global,
    what: RowFault,
    row: &ByteRecord,
    first: &ByteRecord,
) -> Result<Option<FieldName>, AllocError>
    ensures { IfOk result (IsFaultOfField (fields_of row.now) what) }
{
    Ok(match what {
        RowFault::NotAnArrival | RowFault::Trace(TraceFaultKind::BadKind) => Some(FieldName::Kind),
        RowFault::TooLate | RowFault::Backwards => Some(FieldName::Moment),
        RowFault::Trace(TraceFaultKind::BadNumber) => Some(faulty_number(row)),
        RowFault::Trace(TraceFaultKind::BadAddress) => Some(faulty_address(alloc, row, first)?),
        RowFault::Trace(TraceFaultKind::BadEcn) => Some(FieldName::Ecn),
        RowFault::Trace(TraceFaultKind::LengthOutOfRange) => Some(FieldName::Len),
        RowFault::Trace(
            TraceFaultKind::Read
            | TraceFaultKind::TooLarge
            | TraceFaultKind::BadFieldCount
            | TraceFaultKind::Memory,
        ) => None,
    })
}

/// The field of a row that has no number, or one that it may not have, where it is to have one.
fn faulty_number(row: &ByteRecord) -> FieldName
    ensures { result ≡ numberless_field (fields_of row.now) }
{
    let kind = FieldName::Kind.in_row(row);
    if kind == b"enq".as_slice() {
        first_amiss(row)
    } else if kind == b"version".as_slice() {
        FieldName::Version
    } else {
        FieldName::Moment
    }
}

/// The first field of an arrival that has no number, or one that it may not have, from left to right. It is LEN where
/// there is none.
fn first_amiss(row: &ByteRecord) -> FieldName
    ensures { result ≡ first_amiss (fields_of row.now) NUMBERS }
{
    for name in NUMBERS {
        if is_amiss(row, name) {
            return name;
        }
    }
    FieldName::Len
}

/// Whether a field has no number, or one that it may not have.
fn is_amiss(row: &ByteRecord, name: FieldName) -> bool
    ensures { result ≡ is_amiss (fields_of row.now) name }
{
    match read_numeral(name.in_row(row)) {
        Some(number) => name.greatest() < number,
        None => true,
    }
}

/// The field of a row with an address that isn't one, or isn't of the source's kind. It is DST where a row with the
/// address of SRC at both ends is one of a trace.
fn faulty_address(
    alloc: Global,
    row: &ByteRecord,
    first: &ByteRecord,
) -> Result<FieldName, AllocError>
    ensures { IfOk result (λ name. (name ≡ FieldName.Src) ⊎ (name ≡ FieldName.Dst)) }
{
    let address = FieldName::Src.in_row(row);
    let mut trace = Vec::new(alloc);
    if FieldName::Kind.in_row(first) == b"version".as_slice() {
        trace.extend_from_slice(b"version,2\n")?;
    }
    trace.extend_from_slice(b"enq,0,0,")?;
    trace.extend_from_slice(address)?;
    trace.push(b',')?;
    trace.extend_from_slice(address)?;
    trace.extend_from_slice(b",0,0,1,0\n")?;
    if reads(alloc, &trace) {
        Ok(FieldName::Dst)
    } else {
        Ok(FieldName::Src)
    }
}

/// Whether the first rows of a text are those of a trace.
fn reads(alloc: Global, text: &[u8]) -> bool {
    if text.len() > row_core::MAX_BYTES {
        return false;
    }
    let mut rows = TraceRows::new(alloc, text);
    for _row in 0..3 {
        if rows.next::<()>().is_err() {
            return false;
        }
    }
    true
}
