//! What cuts the records off the text of a trace.
ghost use Rattle.std.specs.Prelude.{◌≡◌, Bool, IfErr, IfOk, OnOk, Result, false, true, ⊤};
ghost use Rattle.csv.specs.Reading.{ExplainsRead, ReadRecord, Ready, error_kind, has_failed, is_flexible, reader_trim, stops_reader, took_first};
ghost use Rattle.csv.specs.Records.{fields_of};
ghost use Rattle.csv.specs.declared.error.Error.{Error};
ghost use Rattle.csv.specs.declared.reader.Trim.TheVariants as trim;
ghost use Rattle.row_core.specs.Traces.{TextReader, text_left};

use csv::{ByteRecord, Error, Reader};

/// What cuts the records off the text of a trace: the reader of `csv`. Every type is one, so a caller has nothing to do.
///
/// Its member `Cut` names the calls, as `Source::Answered` does for those of a source: which answer takes the reader from
/// one state to another. A reading is proved for every such relation, so for that of the calls which were made and no
/// others. Hence what `read_trace` says of the fault `Read` at a row: without a call of `csv` that was answered with an
/// error there is none.
pub trait Records {
    /// A call of `csv` was answered so, and took its reader from the first state to the second.
    ghost Cut: { TextReader → Result Bool Error → TextReader → Type 0 };

    /// Reads the next record, and says whether there was one.
    fn read_record(reader: &mut Reader<&[u8]>, row: &mut ByteRecord) -> Result<bool, Error>
        ensures reads { IfOk result (λ found. (reader_trim reader.old ≡ trim.None) → Ready reader.old
            → ReadRecord text_left reader.old reader.new found (fields_of row.new)) }
        ensures ready { (reader_trim reader.old ≡ trim.None) → OnOk result (took_first reader.new ≡ true) }
        ensures flexible { OnOk result (is_flexible reader.new ≡ is_flexible reader.old) }
        ensures fails { IfErr result (λ e. has_failed reader.new ≡ stops_reader (error_kind e)) }
        ensures why { IfErr result (λ e. Ready reader.old
            → ExplainsRead text_left reader.old reader.new false (error_kind e)) }
        ensures cut { Cut reader.old result reader.new };
}

impl<T> Records for T {
    ghost Cut = { λ _ _ _. ⊤ };

    fn read_record(reader: &mut Reader<&[u8]>, row: &mut ByteRecord) -> Result<bool, Error> {
        reader.read_byte_record(row)
    }
}
