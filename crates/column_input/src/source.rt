//! The records of a file, one after the other.

ghost use Rattle.std.specs.Prelude.{◌≡◌, ◌∷◌, [], IfOk, true, if◌then◌else◌, slice_index_or};
ghost use Rattle.csv.specs.Reading.{error_kind, stops_reader};
ghost use Rattle.csv.specs.Records.{fields_of};
ghost use Rattle.column_input.specs.Reader.{ahead, IsReading};
ghost use Rattle.column_input.specs.Records.{records_of};

use csv::{ByteRecord, Error, Reader, ReaderBuilder};
use std::alloc::{AllocError, Global};

/// A reader that stands before the first record. It drops the mark at the start, and takes records of any length.
pub(crate) fn open(alloc: Global, bytes: &[u8]) -> Reader<&[u8]>
    ensures reading { IsReading result }
    ensures records { ahead result ≡ records_of bytes.now }
{
    ReaderBuilder::new()
        .has_headers(false)
        .flexible(true)
        .from_reader(alloc, bytes)
}

/// The next record into `fields`, and whether there is one.
pub(crate) fn next_record(
    reader: &mut Reader<&[u8]>,
    fields: &mut ByteRecord,
) -> Result<bool, AllocError>
    requires { IsReading reader.old }
    ensures reading { IfOk result (λ found. found ≡ true → IsReading reader.new) }
    ensures records { IfOk result (λ found. ahead reader.old
        ≡ (if found then fields_of fields.new ∷ ahead reader.new else [])) }
{
    match reader.read_byte_record(fields) {
        Ok(found) => Ok(found),
        Err(error) => Err(want_of_memory(error)),
    }
}

/// The error of a reader that stopped. Bytes in memory always come, so what it lacked was memory.
fn want_of_memory(_error: Error) -> AllocError
    requires { stops_reader (error_kind _error) ≡ true }
{
    AllocError
}

/// The field at a place, which is empty where there is none.
pub(crate) fn field_of(fields: &ByteRecord, place: usize) -> &[u8]
    ensures { result.now ≡ slice_index_or (fields_of fields.now) place [] }
{
    match fields.get(place) {
        Some(field) => field,
        None => &[],
    }
}
