use crate::failed::Failed;
use crate::memory_sink::MemorySink;
use crate::out_sink::OutSink;
use crate::put::put_all;
use crate::sink::Sink;
use std::io;
use std::io::{Error, ErrorKind, Write};
use std::test::Fail;

#[test]
fn memory_sink_fails_as_told_and_where_its_room_ends(rt: HostRuntime) -> Result<(), Fail> {
    let mut listed = Vec::new(rt.alloc());
    listed.push(1)?;
    let mut sink = MemorySink::new(rt.alloc(), 3, listed)?;
    let rows = [
        ("x", Err(Failed), "", 1),
        ("ab", Ok(2), "ab", 1),
        ("cd", Err(Failed), "ab", 2),
        ("c", Ok(1), "abc", 2),
        ("", Ok(0), "abc", 2),
    ];
    for (piece, answer, taken, faults) in rows {
        assert_eq!(rt; sink.put(piece.as_bytes()), answer, "at {piece}");
        assert_eq!(rt; sink.bytes.as_slice(), taken.as_bytes());
        assert_eq!(rt; sink.faults, faults);
    }
    assert_eq!(rt; sink.calls, 5);
    Ok(())
}

// Takes one byte at a time, and fails at one of its writes.
#[derive(Drop)]
struct ByteWriter {
    taken: Vec<u8>,
    writes: u64,
    fails_at: u64,
}

impl Write for ByteWriter {
    fn write(&mut self, buf: &[u8]) -> io::Result<usize> {
        self.writes = self.writes.saturating_add(1);
        if self.writes == self.fails_at {
            return Err(Error::from(ErrorKind::Other));
        }
        match buf.first() {
            Some(byte) => {
                self.taken.push(*byte)?;
                Ok(1)
            }
            None => Ok(0),
        }
    }

    fn flush(&mut self) -> io::Result<()> {
        Ok(())
    }
}

#[test]
fn a_piece_is_offered_again_from_where_the_sink_stopped(rt: HostRuntime) -> Result<(), Fail> {
    let rows = [
        (0, "whole", Ok(()), "whole", 5, 0),
        (0, "", Ok(()), "", 0, 0),
        (1, "whole", Err(Failed), "", 1, 1),
        (3, "whole", Err(Failed), "wh", 3, 1),
    ];
    for (fails_at, piece, answer, taken, writes, faults) in rows {
        let mut out = OutSink::new(ByteWriter {
            taken: Vec::new(rt.alloc()),
            writes: 0,
            fails_at,
        });
        assert_eq!(rt;
            put_all(&mut out, piece.as_bytes()),
            answer,
            "at {fails_at}, {piece}"
        );
        assert_eq!(rt; out.writer.taken.as_slice(), taken.as_bytes());
        assert_eq!(rt; out.writer.writes, writes);
        assert_eq!(rt; out.faults, faults);
    }
    Ok(())
}

#[test]
fn a_writer_that_takes_nothing_is_a_fault(rt: HostRuntime) -> Result<(), Fail> {
    let mut full: [u8; 0] = [];
    let mut out = OutSink::new(full.as_mut_slice());
    assert_eq!(rt; put_all(&mut out, b"x"), Err(Failed));
    assert_eq!(rt; out.faults, 1);
    assert_eq!(rt; out.put(b""), Ok(0));
    assert_eq!(rt; out.faults, 1);
    Ok(())
}
