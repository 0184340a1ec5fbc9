use crate::samples::{FETCHES, ONE, ONE_REPORT, TWO_ROOTS, WRITES};
use ktask_cli::{plain_tool, run_tool};
use std::alloc::{AllocError, Global};
use std::io;
use std::io::Write;
use std::test::Fail;
use tool_io::{MemoryShelf, MemorySink, OutSink};

/// What a command is run over: the texts of the files p and c, and which calls of the shelf and of
/// the two sinks fail.
#[derive(Clone, Copy)]
struct Given<'a> {
    program: &'a str,
    columns: &'a str,
    fetches: &'a [u64],
    out: &'a [u64],
    err: &'a [u64],
}

/// The status, and the shelf and the sinks behind the command.
#[derive(Drop)]
struct Told {
    status: u8,
    out: MemorySink,
    err: MemorySink,
    shelf: MemoryShelf,
}

/// The status, where memory was not wanting.
fn but_for_memory(status: u8) -> Result<u8, AllocError> {
    if status == 9 {
        Err(AllocError)
    } else {
        Ok(status)
    }
}

fn string_of(alloc: Global, text: &str) -> Result<String, AllocError> {
    let mut string = String::new(alloc);
    string.push_str(text)?;
    Ok(string)
}

fn strings_of(alloc: Global, words: &[&str]) -> Result<Vec<String>, AllocError> {
    let mut strings = Vec::new(alloc);
    for word in words {
        strings.push(string_of(alloc, word)?)?;
    }
    Ok(strings)
}

fn sink(alloc: Global, fail: &[u64]) -> Result<MemorySink, AllocError> {
    match MemorySink::new(alloc, 16_384, Vec::from_slice(alloc, fail)?) {
        Ok(sink) => Ok(sink),
        Err(_) => Err(AllocError),
    }
}

/// A file of a shelf.
fn file_of(alloc: Global, name: &str, text: &str) -> Result<(String, Vec<u8>), AllocError> {
    Ok((
        string_of(alloc, name)?,
        Vec::from_slice(alloc, text.as_bytes())?,
    ))
}

fn shelf_of(alloc: Global, given: &Given<'_>) -> Result<MemoryShelf, AllocError> {
    let mut names = Vec::new(alloc);
    names.push(file_of(alloc, "p", given.program)?)?;
    names.push(file_of(alloc, "c", given.columns)?)?;
    Ok(MemoryShelf::new(names, Vec::from_slice(alloc, given.fetches)?))
}

/// Runs the tool.
fn run_over(alloc: Global, words: &[&str], given: &Given<'_>) -> Result<Told, AllocError> {
    let words = strings_of(alloc, words)?;
    let mut shelf = shelf_of(alloc, given)?;
    let mut out = sink(alloc, given.out)?;
    let mut err = sink(alloc, given.err)?;
    let outcome = run_tool(alloc, &words, &mut shelf, &mut out, &mut err);
    Ok(Told {
        status: but_for_memory(outcome.status)?,
        out,
        err,
        shelf,
    })
}

/// The sink has taken this text, and no more.
fn has_taken(sink: &MemorySink, text: &str) -> bool {
    sink.bytes.as_slice() == text.as_bytes()
}

#[test]
fn a_sink_that_fails_has_the_lines_before(rt: HostRuntime) -> Result<(), Fail> {
    for (words, program, fail, status, out, err, fetches) in WRITES {
        let given = Given {
            program,
            columns: "",
            fetches: &[],
            out: fail,
            err: &[],
        };
        let told = run_over(rt.alloc(), words, &given)?;
        assert_eq!(rt; told.status, status);
        assert!(rt; has_taken(&told.out, out));
        assert!(rt; has_taken(&told.err, err));
        assert_eq!(rt; told.shelf.calls, fetches);
        assert_eq!(rt; told.shelf.faults, 0);
    }
    Ok(())
}

#[test]
fn files_are_fetched_once_and_in_their_order(rt: HostRuntime) -> Result<(), Fail> {
    for (words, program, columns, fail, status, out, err, fetches, faults) in FETCHES {
        let given = Given {
            program,
            columns,
            fetches: fail,
            out: &[],
            err: &[],
        };
        let told = run_over(rt.alloc(), words, &given)?;
        assert_eq!(rt; told.status, status);
        assert!(rt; has_taken(&told.out, out));
        assert!(rt; has_taken(&told.err, err));
        assert_eq!(rt; told.out.calls == 0, out.is_empty());
        assert_eq!(rt; told.err.calls, if err.is_empty() { 0 } else { 1 });
        assert_eq!(rt; told.shelf.calls, fetches);
        assert_eq!(rt; told.shelf.faults, faults);
    }
    Ok(())
}

#[test]
fn a_fetch_that_failed_is_not_tried_again(rt: HostRuntime) -> Result<(), Fail> {
    let given = Given {
        program: ONE,
        columns: "",
        fetches: &[1],
        out: &[],
        err: &[1],
    };
    for command in ["run", "check"] {
        let told = run_over(rt.alloc(), &[command, "p"], &given)?;
        assert_eq!(rt; told.status, 7);
        assert_eq!(rt; told.shelf.calls, 1);
        assert_eq!(rt; told.out.calls, 0);
        assert_eq!(rt; told.err.faults, 1);
        assert_eq!(rt; told.err.bytes.len(), 0);
    }
    Ok(())
}

/// A shelf without faults that has the text under the name p.
fn shelf_with(alloc: Global, program: &str) -> Result<MemoryShelf, AllocError> {
    let given = Given {
        program,
        columns: "",
        fetches: &[],
        out: &[],
        err: &[],
    };
    shelf_of(alloc, &given)
}

#[test]
fn the_plain_tool_does_all_but_runs(rt: HostRuntime) -> Result<(), Fail> {
    let rows = [
        ("run", 2, ""),
        ("bench", 2, ""),
        ("plain", 0, ONE_REPORT),
        ("check", 0, "kind one class 0 words 1\nkinds 1 roots 1\n"),
    ];
    for (command, status, text) in rows {
        let mut shelf = shelf_with(rt.alloc(), ONE)?;
        let words = strings_of(rt.alloc(), &[command, "p"])?;
        let mut out = sink(rt.alloc(), &[])?;
        let mut err = sink(rt.alloc(), &[])?;
        let answer = plain_tool(rt.alloc(), &words, &mut shelf, &mut out, &mut err);
        assert_eq!(rt; but_for_memory(answer)?, status);
        assert!(rt; has_taken(&out, text));
    }
    Ok(())
}

/// Takes one byte at a time.
#[derive(Drop)]
struct ByteWriter {
    taken: Vec<u8>,
}

impl Write for ByteWriter {
    fn write(&mut self, buf: &[u8]) -> io::Result<usize> {
        let first = &buf[..buf.len().min(1)];
        self.taken.extend_from_slice(first)?;
        Ok(first.len())
    }

    fn flush(&mut self) -> io::Result<()> {
        Ok(())
    }
}

#[test]
fn a_sink_of_single_bytes_gets_the_whole_report(rt: HostRuntime) -> Result<(), Fail> {
    let mut shelf = shelf_with(rt.alloc(), TWO_ROOTS)?;
    let words = strings_of(rt.alloc(), &["run", "p"])?;
    let mut out = OutSink::new(ByteWriter {
        taken: Vec::with_capacity(rt.alloc(), 128)?,
    });
    let mut err = sink(rt.alloc(), &[])?;
    let outcome = run_tool(rt.alloc(), &words, &mut shelf, &mut out, &mut err);
    assert_eq!(rt; but_for_memory(outcome.status)?, 0);
    assert_eq!(rt;
        out.writer.taken.as_slice(),
        b"root r 1\nroot s 1\nactivations 2\ntasks 2\nnulls 0\nheld 2 0 0 0\n".as_slice()
    );
    assert_eq!(rt; err.calls, 0);
    Ok(())
}
