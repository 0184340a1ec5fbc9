use crate::{Cause, ColumnError, read_columns};
use std::alloc::{AllocError, Global};
use std::test::Fail;
use task_syntax::Columns;

/// A fault: the number of its cause, its row and its column.
type Place = (u8, u32, u32);

/// The first fault of a file, or none where it is read.
fn fault_of(alloc: Global, bytes: &[u8]) -> Result<Option<Place>, AllocError> {
    match read_columns(alloc, bytes) {
        Ok(_) => Ok(None),
        Err(ColumnError::Fault { cause, row, column }) => Ok(Some((cause.code(), row, column))),
        Err(ColumnError::Memory) => Err(AllocError),
    }
}

/// The columns of a file, or none where it has a fault.
fn columns_of(alloc: Global, bytes: &[u8]) -> Result<Option<Columns>, AllocError> {
    match read_columns(alloc, bytes) {
        Ok(columns) => Ok(Some(columns)),
        Err(ColumnError::Fault { .. }) => Ok(None),
        Err(ColumnError::Memory) => Err(AllocError),
    }
}

const FILES: [(&[u8], Option<Place>); 33] = [
    // no record at all
    (b"", Some((1, 0, 0))),
    (b"\n\r\n\n", Some((1, 0, 0))),
    (b"\xef\xbb\xbf", Some((1, 0, 0))),
    (b"\"\"", None),
    // a name further to the left too
    (b"a,a\n", Some((2, 0, 2))),
    (b"a,b,c,b,a", Some((2, 0, 4))),
    (b"a,\"a\"\nx", Some((2, 0, 2))),
    (b"a,a \n", None),
    (b"\xef\xbb\xbfa,a\n", Some((2, 0, 2))),
    (b"\xef\xbb\xbf\xef\xbb\xbfa,a\n", None),
    // another number of fields
    (b"id,price\n1,10\n2\n", Some((3, 2, 0))),
    (b"a,b\n1,2,3\n", Some((3, 1, 0))),
    (b"a,b\n1,2\nx\n", Some((3, 2, 0))),
    (b"a\n1\n2,\n", Some((3, 2, 0))),
    // no number
    (b"a,b\n1,-2\n", Some((4, 1, 2))),
    (b"a,b\n1,2\n+3,x\n", Some((4, 2, 1))),
    (b"a,b\n1,x\n2\n", Some((4, 1, 2))),
    (b"a\n 1\n", Some((4, 1, 1))),
    (b"a\n1 \n", Some((4, 1, 1))),
    (b"a\n\"\"\n", Some((4, 1, 1))),
    (b"a,b\n1,\n", Some((4, 1, 2))),
    (b"a\n1\n\n\n\xff\n", Some((4, 2, 1))),
    (b"a\n18446744073709551615", None),
    (b"a\n18446744073709551616", Some((4, 1, 1))),
    (b"a\n00000000000000000001\n", None),
    (b"a\n000000000000000000001\n", Some((4, 1, 1))),
    // too many names
    (b"a,b,c,d,e,f,g,h,i,j,k,l,m,n,o,p\n", None),
    (b"a,b,c,d,e,f,g,h,i,j,k,l,m,n,o,p,q\n", Some((6, 0, 17))),
    (
        b"a,a,c,d,e,f,g,h,i,j,k,l,m,n,o,p,q,r\nx\n",
        Some((6, 0, 17)),
    ),
    // line ends
    (b"a,b\r\n1,2\r\n", None),
    (b"a,b\r1,2\r3", Some((3, 2, 0))),
    (b"a\n1\n\n\r\n2", None),
    (b"\n\na\nb\n", Some((4, 1, 1))),
];

#[test]
fn each_fault_has_its_place(rt: HostRuntime) -> Result<(), Fail> {
    for (bytes, fault) in &FILES {
        assert_eq!(rt; fault_of(rt.alloc(), bytes)?, *fault);
    }
    Ok(())
}

/// The cells of a column, and whether it has this name.
fn cells_under<'a>(columns: &'a Columns, place: usize, name: &[u8]) -> Option<&'a [u64]> {
    let under = columns.names.get(place)?;
    let cells = columns.cells.get(place)?;
    if under.as_slice() == name {
        Some(cells.as_slice())
    } else {
        None
    }
}

#[test]
fn names_and_cells_are_those_of_the_file(rt: HostRuntime) -> Result<(), Fail> {
    let bytes = b"\xef\xbb\xbf\"x\"\"y\",\"b,\nc\"\r\n\r\n1,\"02\"\n\n3,18446744073709551615";
    let columns = columns_of(rt.alloc(), bytes)?.ok_or("no columns")?;
    assert_eq!(rt; columns.names.len(), 2);
    assert_eq!(rt; columns.cells.len(), 2);
    assert_eq!(rt;
        cells_under(&columns, 0, b"x\"y").ok_or("x\"y")?,
        [1, 3].as_slice()
    );
    assert_eq!(rt;
        cells_under(&columns, 1, b"b,\nc").ok_or("b,c")?,
        [2, u64::MAX].as_slice()
    );
    Ok(())
}

#[test]
fn header_alone_has_empty_columns(rt: HostRuntime) -> Result<(), Fail> {
    let columns = columns_of(rt.alloc(), b"a,b")?.ok_or("no columns")?;
    assert_eq!(rt; cells_under(&columns, 0, b"a").ok_or("a")?.len(), 0);
    assert_eq!(rt; cells_under(&columns, 1, b"b").ok_or("b")?.len(), 0);
    Ok(())
}

/// A header and this many rows of one number.
fn long_file(alloc: Global, rows: u32) -> Result<Vec<u8>, AllocError> {
    let mut bytes = Vec::new(alloc);
    bytes.extend_from_slice(b"a\n")?;
    for _ in 0..rows {
        bytes.extend_from_slice(b"7\n")?;
    }
    Ok(bytes)
}

#[test]
fn rows_end_at_a_million(rt: HostRuntime) -> Result<(), Fail> {
    let mut bytes = long_file(rt.alloc(), 1_000_000)?;
    let columns = columns_of(rt.alloc(), bytes.as_slice())?.ok_or("no columns")?;
    assert_eq!(rt; cells_under(&columns, 0, b"a").ok_or("a")?.len(), 1_000_000);
    bytes.extend_from_slice(b"1,x")?;
    assert_eq!(rt;
        fault_of(rt.alloc(), bytes.as_slice())?,
        Some((5, 1_000_001, 0))
    );
    Ok(())
}

#[test]
fn causes_have_words(rt: HostRuntime) {
    assert_eq!(rt; Cause::TooManyColumns.word(), "TooManyColumns");
    assert_eq!(rt; Cause::BadNumber.word(), "BadNumber");
}
