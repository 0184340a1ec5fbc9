//! `ktask`: runs a task program and prints how each root ended, checks one, or prints its canonical text.
#![tactic(auto)]

use ktask_cli::refuse::refuse;
use ktask_cli::run_tool;
use ktask_cli::stop::Stop;
use std::alloc::Alloc;
use std::env::Env;
use std::process::ExitCode;
use std::{env, io};
use tool_io::{FileShelf, OutSink};

/// The words after the program's name.
fn words<R: Env + Alloc>(rt: &R) -> io::Result<Vec<String<R::A>, R::A>> {
    let mut words = Vec::new(rt.alloc());
    for word in env::args(rt)?.skip(1) {
        words.push(word)?;
    }
    Ok(words)
}

/// Why there are no words: memory ran out, or a word is no text.
fn stop_of(error: &io::Error) -> Stop {
    match error.kind() {
        io::ErrorKind::OutOfMemory => Stop::WantOfMemory,
        _ => Stop::WordsRefused,
    }
}

fn main(rt: HostRuntime) -> ExitCode {
    let mut shelf = FileShelf::new(&rt);
    let mut out = OutSink::new(rt.stdout());
    let mut err = OutSink::new(rt.stderr());
    let status = match words(&rt) {
        Ok(words) => run_tool(rt.alloc(), &words, &mut shelf, &mut out, &mut err).status,
        Err(error) => refuse(rt.alloc(), stop_of(&error), "", &mut err),
    };
    ExitCode::from(status)
}
