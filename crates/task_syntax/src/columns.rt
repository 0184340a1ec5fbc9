ghost use Rattle.std.specs.Prelude.{◌≡◌, ◌≤◌, ◌↔◌, IsNone};
ghost use Rattle.task_syntax.specs.Columns.{no_columns, cells_beside as beside, cells_of, rows_of, cell_of};

use crate::list::List;
use crate::name::Name;
use std::alloc::Global;

/// Columns of numbers: a name for each, and beside it the list of its cells.
#[derive(Debug, Drop)]
pub struct Columns {
    pub names: List<List<u8>>,
    pub cells: List<List<u64>>,
}

// The cells beside the first of these names that is this one.
fn cells_beside<'a>(name: &[u8], names: &[List<u8>], cells: &'a [List<u64>]) -> &'a [u64]
    ensures { result.now ≡ beside name.now names.now cells.now }
{
    let Some((first, names)) = names.split_first() else {
        return &[];
    };
    let Some((column, cells)) = cells.split_first() else {
        return &[];
    };
    if name == first.as_slice() {
        return column.as_slice();
    }
    cells_beside(name, names, cells)
}

impl Columns {
    /// No columns, which take no memory.
    pub fn none(alloc: Global) -> Columns
        ensures { result ≡ no_columns }
    {
        Columns {
            names: List::new(alloc),
            cells: List::new(alloc),
        }
    }

    // The cells of the first column of this name.
    fn column(&self, name: &Name) -> &[u64]
        ensures { result.now ≡ cells_of self.now name.now }
    {
        cells_beside(
            name.as_bytes(),
            self.names.as_slice(),
            self.cells.as_slice(),
        )
    }

    /// The number of rows of a column. A name that is not there has none.
    pub fn rows(&self, name: &Name) -> u64
        ensures { result ≡ rows_of self.now name.now }
    {
        self.column(name).len() as u64
    }

    /// The cell of a column in a row, counted from 0; none exactly where the column has no such row.
    pub fn cell(&self, name: &Name, row: u64) -> Option<u64>
        ensures cell { result ≡ cell_of self.now name.now row }
        ensures none { IsNone result ↔ rows_of self.now name.now ≤ row }
    {
        self.column(name).get(row as usize).copied()
    }
}
