use crate::{Columns, List, Name};
use std::test::Fail;

#[test]
fn a_list_keeps_what_it_is_given(rt: HostRuntime) -> Result<(), Fail> {
    let mut list = List::new(rt.alloc());
    assert_eq!(rt; list.len(), 0);
    list.push(7u16)?;
    list.push(9)?;
    assert_eq!(rt; list.as_slice(), [7u16, 9].as_slice());
    assert_eq!(rt; list.get(1), Some(&9));
    assert_eq!(rt; list.get(2), None);
    let items = list.into_vec();
    assert_eq!(rt; List::from_vec(items).len(), 2);
    Ok(())
}

#[test]
fn a_name_is_its_bytes(rt: HostRuntime) -> Result<(), Fail> {
    let name = Name::new(b"a_name_of_24_bytes_a_top");
    assert_eq!(rt; name.as_bytes(), b"a_name_of_24_bytes_a_top".as_slice());
    assert_eq!(rt; name.copy().as_bytes(), name.as_bytes());
    Ok(())
}

#[test]
fn a_column_is_found_by_its_name(rt: HostRuntime) -> Result<(), Fail> {
    let mut columns = Columns::none(rt.alloc());
    assert_eq!(rt; columns.rows(&Name::new(b"price")), 0);
    for (name, cell) in [
        (b"id".as_slice(), 7u64),
        (b"price".as_slice(), 30),
        (b"id".as_slice(), 9),
    ] {
        let mut bytes = List::new(rt.alloc());
        for byte in name {
            bytes.push(*byte)?;
        }
        let mut cells = List::new(rt.alloc());
        cells.push(cell)?;
        columns.names.push(bytes)?;
        columns.cells.push(cells)?;
    }
    assert_eq!(rt; columns.rows(&Name::new(b"price")), 1);
    assert_eq!(rt; columns.cell(&Name::new(b"price"), 0), Some(30));
    assert_eq!(rt; columns.cell(&Name::new(b"price"), 1), None);
    assert_eq!(rt; columns.cell(&Name::new(b"id"), 0), Some(7));
    assert_eq!(rt; columns.cell(&Name::new(b"pri"), 0), None);
    Ok(())
}
