ghost use Rattle.std.specs.Prelude.{IfOk};
ghost use Rattle.task_syntax.specs.declared.columns.Columns.{Columns as ColumnsData};
ghost use Rattle.column_input.specs.Faults.{IsFirst, Tells, TellsFirst};
ghost use Rattle.column_input.specs.Reader.{ahead, IsReading};
ghost use Rattle.column_input.specs.Reading.{Fault, Gives, columns_in};
ghost use Rattle.column_input.specs.Records.{records_of};
ghost use Rattle.column_input.specs.Table.{Answers, Tabulates};

use crate::fault::{Cause, ColumnError};
use crate::header::names_of;
use crate::rows::read_rows;
use crate::source::{next_record, open};
use csv::{ByteRecord, Reader};
use std::alloc::Global;
use task_syntax::Columns;

/// The columns of the records that the reader has ahead.
fn columns_ahead(alloc: Global, reader: &mut Reader<&[u8]>) -> Result<Columns, ColumnError>
    requires { IsReading reader.old }
    ensures { Gives result (columns_in (ahead reader.old)) }
{
    let mut record = ByteRecord::new(alloc);
    if !next_record(reader, &mut record)? {
        return Err(ColumnError::Fault {
            cause: Cause::NoHeader,
            row: 0,
            column: 0,
        });
    }
    let names = names_of(alloc, &record)?;
    let cells = read_rows(alloc, names.len(), reader, &mut record)?;
    Ok(Columns { names, cells })
}

/// Reads columns of numbers: a record of names and, below it, a record of numbers for each row.
pub fn read_columns(alloc: Global, bytes: &[u8]) -> Result<Columns, ColumnError>
    ensures exact { Gives result (columns_in (records_of bytes.now)) }

    // What is answered is the table of the records, and where they have one it is answered.
    ensures tabulates { IfOk result (Tabulates (records_of bytes.now)) }
    ensures accepts { (columns : ColumnsData)
        → Tabulates (records_of bytes.now) columns → Answers columns result }

    // A fault that is told is the first of the records, and where they have one it is told.
    ensures first { TellsFirst (records_of bytes.now) result }
    ensures refuses { (fault : Fault) → IsFirst (records_of bytes.now) fault → Tells fault result }
{
    columns_ahead(alloc, &mut open(alloc, bytes))
}
