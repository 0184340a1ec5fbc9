use crate::words_samples::{BENCHES, RUNS};
use std::alloc::{AllocError, Global};
use std::test::Fail;
use tool_words::{Choice, WordsError, choose};

// The words of a line, which are parted by single blanks.
fn words_of(alloc: Global, line: &str) -> Result<Vec<String>, AllocError> {
    let mut words = Vec::new(alloc);
    for word in line.split(' ') {
        words.push(String::from_str(alloc, word)?)?;
    }
    Ok(words)
}

// What the words choose, or nothing where they are refused.
fn chosen<'w>(alloc: Global, words: &'w [String]) -> Result<Option<Choice<'w>>, AllocError> {
    match choose(alloc, words) {
        Ok(choice) => Ok(Some(choice)),
        Err(WordsError::Refused) => Ok(None),
        Err(WordsError::Memory) => Err(AllocError),
    }
}

#[test]
fn words_choose_a_run(rt: HostRuntime) -> Result<(), Fail> {
    for (line, program, columns, numbers, trace) in RUNS {
        let words = words_of(rt.alloc(), line)?;
        match chosen(rt.alloc(), &words)? {
            Some(Choice::Run(run)) => {
                let plan = run.plan;
                assert_eq!(rt; run.program, program);
                assert_eq!(rt; run.columns, columns);
                assert_eq!(rt; run.workers, numbers.0);
                assert_eq!(rt; plan.geometry.superblocks, numbers.1);
                assert_eq!(rt; plan.geometry.units, numbers.2);
                assert_eq!(rt; plan.limit, numbers.3);
                assert_eq!(rt; run.trace, trace);
            }
            _ => assert!(rt; false),
        }
    }
    Ok(())
}

#[test]
fn families_have_greatest_numbers(rt: HostRuntime) -> Result<(), Fail> {
    for (line, family, number, workers) in BENCHES {
        let words = words_of(rt.alloc(), line)?;
        match chosen(rt.alloc(), &words)? {
            Some(Choice::Bench(bench)) => {
                assert_eq!(rt; bench.family, family);
                assert_eq!(rt; bench.number, number);
                assert_eq!(rt; bench.workers, workers);
            }
            _ => assert!(rt; false),
        }
    }
    Ok(())
}

#[test]
fn the_other_commands_take_a_file_or_nothing(rt: HostRuntime) -> Result<(), Fail> {
    let plain = words_of(rt.alloc(), "plain p --units=8")?;
    match chosen(rt.alloc(), &plain)? {
        Some(Choice::Plain(run)) => assert_eq!(rt; run.plan.geometry.units, 8),
        _ => assert!(rt; false),
    }
    let check = words_of(rt.alloc(), "check p")?;
    match chosen(rt.alloc(), &check)? {
        Some(Choice::Check(program)) => assert_eq!(rt; program, "p"),
        _ => assert!(rt; false),
    }
    let print = words_of(rt.alloc(), "print -- -")?;
    match chosen(rt.alloc(), &print)? {
        Some(Choice::Print(program)) => assert_eq!(rt; program, "-"),
        _ => assert!(rt; false),
    }
    let help = words_of(rt.alloc(), "help")?;
    assert!(rt; matches!(chosen(rt.alloc(), &help)?, Some(Choice::Help)));
    Ok(())
}
