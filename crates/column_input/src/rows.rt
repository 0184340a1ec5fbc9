//! The rows below the header, which have the numbers.

ghost use Rattle.std.specs.Prelude.{◌≡◌, ◌≤◌, OnOk, IfOk, [], length, replicate};
ghost use Rattle.csv.specs.Records.{fields_of};
ghost use Rattle.column_input.specs.Reader.{ahead, IsReading};
ghost use Rattle.column_input.specs.Reading.{Gives, cells_in, check_numbers, check_row};
ghost use Rattle.column_input.specs.Rows.{put_below};

use crate::fault::{Cause, ColumnError};
use crate::source::{field_of, next_record};
use csv::{ByteRecord, Reader};
use std::alloc::{AllocError, Global};
use task_syntax::List;
use task_text::number_of;

const MOST_ROWS: u32 = 1_000_000;

fn empty_columns(alloc: Global, count: usize) -> Result<Vec<List<u64>>, AllocError>
    ensures { IfOk result (λ columns. columns.items ≡ replicate count []) }
{
    let mut columns = Vec::new(alloc);
    'columns: for _place in 0..count {
        columns.push(List::new(alloc))?;
    }
    Ok(columns)
}

/// Puts the numbers of a row below the columns.
fn add_row(columns: &mut Vec<List<u64>>, row: u32, fields: &ByteRecord) -> Result<(), ColumnError>
    requires { length columns.old.items ≤ 16 }
    ensures checked { Gives result
        (check_row (length columns.old.items) row (fields_of fields.now)) }
    ensures added { OnOk result
        (columns.new.items ≡ put_below columns.old.items (fields_of fields.now)) }
{
    if row > MOST_ROWS {
        return Err(ColumnError::Fault {
            cause: Cause::TooManyRows,
            row,
            column: 0,
        });
    }
    if fields.len() != columns.len() {
        return Err(ColumnError::Fault {
            cause: Cause::Ragged,
            row,
            column: 0,
        });
    }
    add_numbers(columns, row, fields)
}

fn add_numbers(
    columns: &mut Vec<List<u64>>,
    row: u32,
    fields: &ByteRecord,
) -> Result<(), ColumnError>
    requires few { length columns.old.items ≤ 16 }
    requires full { length (fields_of fields.now) ≡ length columns.old.items }
    ensures checked { Gives result (check_numbers row 1 (fields_of fields.now)) }
    ensures added { OnOk result
        (columns.new.items ≡ put_below columns.old.items (fields_of fields.now)) }
{
    'fields: for place in 0..columns.len() {
        let Some(number) = number_of(field_of(fields, place)) else {
            return Err(ColumnError::Fault {
                cause: Cause::BadNumber,
                row,
                column: place as u32 + 1,
            });
        };
        columns[place].push(number)?;
    }
    Ok(())
}

/// The columns of the rows that the reader has ahead.
pub(crate) fn read_rows(
    alloc: Global,
    width: usize,
    reader: &mut Reader<&[u8]>,
    fields: &mut ByteRecord,
) -> Result<List<List<u64>>, ColumnError>
    requires reading { IsReading reader.old }
    requires few { width ≤ 16 }
    ensures { Gives result (cells_in width (ahead reader.old)) }
{
    let mut columns = empty_columns(alloc, width)?;
    let mut row = 0u32;
    'rows: while next_record(reader, fields)? {
        row += 1;
        add_row(&mut columns, row, fields)?;
    }
    Ok(List::from_vec(columns))
}
