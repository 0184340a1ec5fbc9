//! The header, which has the names.

ghost use Rattle.std.specs.Prelude.{◌≡◌};
ghost use Rattle.csv.specs.Records.{fields_of};
ghost use Rattle.task_text.specs.Scan as text;
ghost use Rattle.column_input.specs.Reading.{Gives, names_in};

use crate::fault::{Cause, ColumnError};
use crate::source::field_of;
use csv::ByteRecord;
use std::alloc::Global;
use task_syntax::List;

const MOST_COLUMNS: usize = 16;

fn is_among(names: &[List<u8>], name: &[u8]) -> bool
    ensures { result ≡ text.is_among names.now name.now }
{
    names.iter().any(|known| name == known.as_slice())
}

/// The names of a header, at most 16 and all different.
pub(crate) fn names_of(alloc: Global, header: &ByteRecord) -> Result<List<List<u8>>, ColumnError>
    ensures { Gives result (names_in (fields_of header.now)) }
{
    if header.len() > MOST_COLUMNS {
        return Err(ColumnError::Fault {
            cause: Cause::TooManyColumns,
            row: 0,
            column: 17,
        });
    }
    let mut names = List::new(alloc);
    'names: for place in 0..header.len() {
        let name = field_of(header, place);
        if is_among(names.as_slice(), name) {
            return Err(ColumnError::Fault {
                cause: Cause::TwiceNamed,
                row: 0,
                column: place as u32 + 1,
            });
        }
        names.push(List::from_vec(name.to_vec(alloc)?))?;
    }
    Ok(names)
}
