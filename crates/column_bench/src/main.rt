//! Goes over each file that is named twice, with the csv reader alone and with `read_columns`, and tells on standard error how many
//! nanoseconds of the processor each took.
#![tactic(auto)]

use column_input::read_columns;
use csv::{ByteRecord, ReaderBuilder};
use std::alloc::Global;
use std::time::CpuClock;
use std::{env, fs, io};

/// How many records the csv reader finds.
fn count_records(alloc: Global, bytes: &[u8]) -> u64 {
    let mut reader = ReaderBuilder::new()
        .has_headers(false)
        .flexible(true)
        .from_reader(alloc, bytes);
    let mut record = ByteRecord::new(alloc);
    let mut count = 0u64;
    for _ in 0..u64::MAX {
        match reader.read_byte_record(&mut record) {
            Ok(true) => count = count.wrapping_add(1),
            _ => break,
        }
    }
    count
}

/// How many rows the columns have, where the file has columns.
fn count_rows(alloc: Global, bytes: &[u8]) -> Option<usize> {
    match read_columns(alloc, bytes) {
        Ok(columns) => match columns.cells.get(0) {
            Some(cells) => Some(cells.len()),
            None => None,
        },
        Err(_) => None,
    }
}

fn main(rt: HostRuntime) -> io::Result<()> {
    for path in env::args(&rt)?.skip(1) {
        let bytes = fs::read(&rt, path.as_str())?;
        let start = rt.thread_cpu_time()?.as_nanos();
        let records = count_records(rt.alloc(), bytes.as_slice());
        let between = rt.thread_cpu_time()?.as_nanos();
        let rows = count_rows(rt.alloc(), bytes.as_slice());
        let end = rt.thread_cpu_time()?.as_nanos();
        match rows {
            Some(rows) => println!(rt; "{records} records, {rows} rows")?,
            None => println!(rt; "{records} records, refused")?,
        }
        let by_csv = between.saturating_sub(start);
        let by_columns = end.saturating_sub(between);
        eprintln!(rt; "{by_csv} {by_columns}")?;
    }
    Ok(())
}
