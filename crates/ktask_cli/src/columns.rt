ghost use Rattle.std.specs.Prelude.{◌≡◌, Some, option_copied};
ghost use Rattle.ktask_cli.specs.Plan.{OrWants};
ghost use Rattle.ktask_cli.specs.Ready.{columns_read, columns_under};

use crate::fetch_file::fetch_file;
use crate::stop::{InputFile, Stop};
use column_input::{ColumnError, read_columns};
use std::alloc::Global;
use task_syntax::Columns;
use tool_io::Shelf;

/// Reads the text of columns.
fn read_cells(alloc: Global, text: &[u8]) -> Result<Columns, Stop>
    ensures { OrWants (λ r. r ≡ columns_read text.now) result }
{
    match read_columns(alloc, text) {
        Ok(columns) => Ok(columns),
        Err(ColumnError::Fault { cause, row, column }) => {
            Err(Stop::ColumnsFault { cause, row, column })
        }
        Err(ColumnError::Memory) => Err(Stop::WantOfMemory),
    }
}

/// Fetches and reads the columns under a name.
fn fetch_cells<S: Shelf>(alloc: Global, name: &str, shelf: &mut S) -> Result<Columns, Stop>
    ensures { columns_under (Some name.now)
        (S.seen shelf.old) (S.seen shelf.new) result }
{
    match fetch_file(alloc, shelf, InputFile::Columns, name) {
        Ok(text) => read_cells(alloc, &text),
        Err(stop) => Err(stop),
    }
}

/// Fetches and reads the columns under a name, where one is given.
pub(crate) fn fetch_columns<S: Shelf>(
    alloc: Global,
    name: Option<&str>,
    shelf: &mut S,
) -> Result<Columns, Stop>
    ensures { columns_under (option_copied name.entry)
        (S.seen shelf.old) (S.seen shelf.new) result }
{
    match name {
        None => Ok(Columns::none(alloc)),
        Some(name) => fetch_cells(alloc, name, shelf),
    }
}
