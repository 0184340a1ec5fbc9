use ktask_cli::fetch_file::fetch_file;
use ktask_cli::refuse::refuse;
use ktask_cli::stop::{InputFile, Stop};
use std::alloc::{AllocError, Global};
use std::test::Fail;
use task_check::Cause;
use task_syntax::Name;
use tool_io::{MemoryShelf, MemorySink};

fn text(alloc: Global, bytes: &str) -> Result<String, AllocError> {
    let mut text = String::new(alloc);
    text.push_str(bytes)?;
    Ok(text)
}

#[test]
fn a_file_has_at_most_sixteen_mebibytes(rt: HostRuntime) -> Result<(), Fail> {
    for (len, is_read) in [(16_777_216, true), (16_777_217, false)] {
        let mut names = Vec::new(rt.alloc());
        names.push((
            text(rt.alloc(), "x.kt")?,
            vec![in rt.alloc(); 0u8; len as usize]?,
        ))?;
        let mut shelf = MemoryShelf::new(names, Vec::new(rt.alloc()));
        match fetch_file(rt.alloc(), &mut shelf, InputFile::Program, "x.kt") {
            Ok(content) => assert!(rt; is_read && content.len() as u64 == len),
            Err(Stop::WantOfMemory) => return Err(AllocError.into()),
            Err(stop) => assert!(rt; !is_read && matches!(stop, Stop::TooLong(InputFile::Program))),
        }
    }
    Ok(())
}

// Tells the reason on a sink with room for so many bytes, and answers the status and the sink.
fn told(rt: &HostRuntime, stop: Stop, room: u64) -> Result<(u8, MemorySink), AllocError> {
    match MemorySink::new(rt.alloc(), room, Vec::new(rt.alloc())) {
        Ok(mut err) => {
            let is_told = matches!(stop, Stop::WantOfMemory);
            let status = refuse(rt.alloc(), stop, "x.kt", &mut err);
            if status == 9 && !is_told {
                return Err(AllocError);
            }
            Ok((status, err))
        }
        Err(_) => Err(AllocError),
    }
}

// The reason at a place of the table below.
fn stop_at(place: usize) -> Stop {
    match place {
        0 => Stop::WordsRefused,
        1 => Stop::CannotRead(InputFile::Program),
        2 => Stop::TooLong(InputFile::Program),
        3 => Stop::CheckFault {
            cause: Cause::FrameTooLarge,
            line: u32::MAX,
            name: Name::new(b"abcdefghijklmnopqrstuvwx"),
        },
        4 => Stop::WriteFault,
        _ => Stop::WantOfMemory,
    }
}

#[test]
fn a_reason_is_told_in_one_piece(rt: HostRuntime) -> Result<(), Fail> {
    let rows = [
        (2, "ktask: words refused, see ktask help\n"),
        (7, "ktask: cannot read x.kt\n"),
        (7, "ktask: x.kt is longer than 16777216 bytes\n"),
        (
            5,
            "ktask: program line 4294967295 check 5 FrameTooLarge abcdefghijklmnopqrstuvwx\n",
        ),
        (8, "ktask: write fault\n"),
        (9, "ktask: want of memory\n"),
    ];
    for (place, (status, line)) in rows.into_iter().enumerate() {
        for (room, taken, faults) in [(100, line, 0), (5, "", 1)] {
            let (got, err) = told(&rt, stop_at(place), room)?;
            assert_eq!(rt; got, status);
            assert_eq!(rt; err.bytes.as_slice(), taken.as_bytes());
            assert_eq!(rt; err.calls, 1);
            assert_eq!(rt; err.faults, faults);
        }
    }
    Ok(())
}
