use crate::fetch_error::FetchError;
use crate::file_shelf::FileShelf;
use crate::memory_shelf::MemoryShelf;
use crate::read_up_to::read_up_to;
use crate::shelf::Shelf;
use std::alloc::{AllocError, Global};
use std::io;
use std::io::{Error, ErrorKind, Read};
use std::test::Fail;

fn text(alloc: Global, bytes: &str) -> Result<String, AllocError> {
    let mut text = String::new(alloc);
    text.push_str(bytes)?;
    Ok(text)
}

fn bytes(alloc: Global, from: &[u8]) -> Result<Vec<u8>, AllocError> {
    let mut bytes = Vec::new(alloc);
    bytes.extend_from_slice(from)?;
    Ok(bytes)
}

// A shelf with two names, the first of which stands twice.
fn small_shelf(rt: &HostRuntime, fail: &[u64]) -> Result<MemoryShelf, AllocError> {
    let mut names = Vec::new(rt.alloc());
    for (name, content) in [("a", "one"), ("a", "two"), ("b", "")] {
        names.push((
            text(rt.alloc(), name)?,
            bytes(rt.alloc(), content.as_bytes())?,
        ))?;
    }
    let mut listed = Vec::new(rt.alloc());
    listed.extend_from_slice(fail)?;
    Ok(MemoryShelf::new(names, listed))
}

// The answer of a fetch, where memory was not wanting.
fn but_for_memory(answer: Result<(), FetchError>) -> Result<Result<(), FetchError>, AllocError> {
    match answer {
        Err(FetchError::Memory) => Err(AllocError),
        answer => Ok(answer),
    }
}

// What a shelf answers to one fetch into an empty vector, and what is in that then.
fn fetched<S: Shelf>(
    alloc: Global,
    shelf: &mut S,
    name: &str,
    most: u64,
) -> Result<(Result<(), FetchError>, Vec<u8>), AllocError> {
    let mut into = Vec::new(alloc);
    let answer = but_for_memory(shelf.fetch(name, most, &mut into))?;
    Ok((answer, into))
}

#[test]
fn memory_shelf_answers(rt: HostRuntime) -> Result<(), Fail> {
    let mut shelf = small_shelf(&rt, &[5])?;
    let failed = Err(FetchError::Failed);
    let rows = [
        ("a", 3, Ok(()), "one", 0),
        ("a", 2, Err(FetchError::TooLong), "", 0),
        ("b", 0, Ok(()), "", 0),
        ("c", 9, failed, "", 1),
        ("a", 2, failed, "", 2),
        ("a", 4, Ok(()), "one", 2),
    ];
    for (name, most, answer, content, faults) in rows {
        let (got, into) = fetched(rt.alloc(), &mut shelf, name, most)?;
        assert_eq!(rt; got, answer, "at {name}, {most}");
        assert_eq!(rt; into.as_slice(), content.as_bytes());
        assert_eq!(rt; shelf.last, Some(answer));
        assert_eq!(rt; shelf.faults, faults);
    }
    assert_eq!(rt; shelf.calls, 6);
    Ok(())
}

// Gives its bytes, and fails where they end.
#[derive(Drop)]
struct Broken<'b> {
    left: &'b [u8],
}

impl<'b> Read for Broken<'b> {
    fn read(&mut self, buf: &mut [u8]) -> io::Result<usize> {
        if self.left.is_empty() {
            return Err(Error::from(ErrorKind::Other));
        }
        self.left.read(buf)
    }
}

#[test]
fn a_reader_is_read_to_its_end_or_to_the_limit(rt: HostRuntime) -> Result<(), Fail> {
    let content = vec![in rt.alloc(); 7u8; 5000]?;
    let too_long = Err(FetchError::TooLong);
    for (most, answer, len) in [(5000, Ok(()), 5000), (4999, too_long, 0), (0, too_long, 0)] {
        let (mut into, mut faults) = (Vec::new(rt.alloc()), 0);
        let mut reader = content.as_slice();
        assert_eq!(rt;
            but_for_memory(read_up_to(&mut reader, most, &mut into, &mut faults))?,
            answer,
            "{most}"
        );
        assert_eq!(rt; into.len(), len);
        assert_eq!(rt; faults, 0);
    }
    let (mut into, mut faults) = (Vec::new(rt.alloc()), 0);
    let mut reader = Broken { left: &content };
    let answer = but_for_memory(read_up_to(&mut reader, 9000, &mut into, &mut faults))?;
    assert_eq!(rt; answer, Err(FetchError::Failed));
    assert_eq!(rt; into.len(), 0);
    assert_eq!(rt; faults, 1);
    Ok(())
}

#[test]
fn real_files_are_read(rt: HostRuntime) -> Result<(), Fail> {
    let mut shelf = FileShelf::new(&rt);
    let failed = Err(FetchError::Failed);
    let rows = [
        ("/dev/null", 0, Ok(()), 0),
        ("/dev/zero", 9999, Err(FetchError::TooLong), 0),
        ("/no/such/file", 9, failed, 1),
        ("/", 9, failed, 2),
    ];
    for (name, most, answer, faults) in rows {
        let (got, into) = fetched(rt.alloc(), &mut shelf, name, most)?;
        assert_eq!(rt; got, answer, "at {name}");
        assert_eq!(rt; into.len(), 0);
        assert_eq!(rt; shelf.last, Some(answer));
        assert_eq!(rt; shelf.faults, faults);
    }
    std::fs::write(&rt, "shelf_test.txt", "ktask 1\n")?;
    let (got, into) = fetched(rt.alloc(), &mut shelf, "shelf_test.txt", 8)?;
    std::fs::remove_file(&rt, "shelf_test.txt")?;
    assert_eq!(rt; got, Ok(()));
    assert_eq!(rt; into.as_slice(), b"ktask 1\n".as_slice());
    Ok(())
}
