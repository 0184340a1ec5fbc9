ghost use Rattle.std.specs.Prelude.{◌≡◌, Some, None, true, map, option_map, string_bytes, if◌then◌else◌};
ghost use Rattle.std.specs.Result.{result_map_both};
ghost use Rattle.clap.specs.Faults.{is_simple_and_free};
ghost use Rattle.clap.specs.Matches.{found_of};
ghost use Rattle.clap.specs.Simple.{app_of};
ghost use Rattle.clap.specs.Walk.{rows_of};
ghost use Rattle.tool_words.specs.Choice as spec;
ghost use Rattle.tool_words.specs.Commands as commands;

use crate::choice::{BenchWords, Choice, RunWords};
use crate::commands::{bench_command, help_command, plain_command, program_command, run_command};
use crate::numbers::{plan_in, size_in, workers_in};
use crate::parse::parse;
use crate::words_error::WordsError;
use bench_programs::Family;
use clap::{ArgMatches, Command};
use std::alloc::Global;

/// Whether a flag is given.
fn has_flag(matches: &ArgMatches<'_>, name: &str) -> bool
    ensures { result ≡ spec.has_flag (rows_of (found_of matches.now)) name.now }
{
    match matches.get_str(name) {
        Some(word) => word == "true",
        None => false,
    }
}

/// What the words of a run choose, where each number is in its range.
fn run_in<'w>(matches: &ArgMatches<'w>) -> Option<RunWords<'w>>
    ensures { option_map spec.run_seen result
        ≡ (if spec.has_run (rows_of (found_of matches.now))
        then Some (spec.run_in (rows_of (found_of matches.now))) else None) }
{
    Some(RunWords {
        program: matches.get_str("program")?,
        columns: matches.get_str("columns"),
        workers: workers_in(matches)?,
        plan: plan_in(matches)?,
        trace: has_flag(matches, "trace"),
    })
}

/// What the words of a command for runs choose.
fn run_by<'w>(command: Command<'w>, words: &'w [String]) -> Result<RunWords<'w>, WordsError>
    requires { is_simple_and_free (app_of command) ≡ true }
    ensures { spec.GivesOrWants
        (spec.run_by (app_of command.entry) (map string_bytes words.entry.now))
        (result_map_both spec.run_seen (λ error. error) result) }
{
    let matches = parse(command, words)?;
    match run_in(&matches) {
        Some(run) => Ok(run),
        None => Err(WordsError::Refused),
    }
}

/// The family that is named.
fn family_in(matches: &ArgMatches<'_>) -> Option<Family>
    ensures { result ≡ spec.family_in (rows_of (found_of matches.now)) }
{
    match matches.get_str("family") {
        Some(word) => Family::of_word(word),
        None => None,
    }
}

/// What the words of `bench` choose, where the family has the number.
fn bench_in(matches: &ArgMatches<'_>) -> Option<BenchWords>
    ensures { result ≡ spec.bench_in (rows_of (found_of matches.now)) }
{
    let family = family_in(matches)?;
    let number = size_in(matches)?;
    let workers = workers_in(matches)?;
    if number > family.greatest() {
        return None;
    }
    Some(BenchWords {
        family,
        number,
        workers,
    })
}

/// What the words of `bench` choose.
fn bench_by(alloc: Global, words: &[String]) -> Result<BenchWords, WordsError>
    ensures { spec.GivesOrWants (spec.bench_by (map string_bytes words.now)) result }
{
    let command = bench_command(alloc)?;
    let matches = parse(command, words)?;
    match bench_in(&matches) {
        Some(bench) => Ok(bench),
        None => Err(WordsError::Refused),
    }
}

/// The name of the file that is the one further word of a command.
fn program_by<'w>(alloc: Global, name: &'w str, words: &'w [String]) -> Result<&'w str, WordsError>
    ensures { spec.GivesOrWants (spec.program_by name.entry.now (map string_bytes words.entry.now))
        (result_map_both (λ program. program.now) (λ error. error) result) }
{
    let command = program_command(alloc, name)?;
    let matches = parse(command, words)?;
    match matches.get_str("program") {
        Some(program) => Ok(program),
        None => Err(WordsError::Refused),
    }
}

fn choose_run<'w>(alloc: Global, words: &'w [String]) -> Result<Choice<'w>, WordsError>
    ensures { spec.GivesOrWants
        (option_map spec.Run (spec.run_by commands.run_app (map string_bytes words.entry.now)))
        (result_map_both spec.choice_seen (λ error. error) result) }
{
    let command = run_command(alloc)?;
    let run = run_by(command, words)?;
    Ok(Choice::Run(run))
}

fn choose_plain<'w>(alloc: Global, words: &'w [String]) -> Result<Choice<'w>, WordsError>
    ensures { spec.GivesOrWants
        (option_map spec.Plain (spec.run_by commands.plain_app (map string_bytes words.entry.now)))
        (result_map_both spec.choice_seen (λ error. error) result) }
{
    let command = plain_command(alloc)?;
    let run = run_by(command, words)?;
    Ok(Choice::Plain(run))
}

fn choose_help<'w>(alloc: Global, words: &'w [String]) -> Result<Choice<'w>, WordsError>
    ensures { spec.GivesOrWants
        (option_map (λ rows. spec.Help)
        (spec.rows_by commands.help_app (map string_bytes words.entry.now)))
        (result_map_both spec.choice_seen (λ error. error) result) }
{
    let _matches = parse(help_command(alloc), words)?;
    Ok(Choice::Help)
}

/// What the words of the command of this name choose.
fn choose_by<'w>(alloc: Global, first: &str, words: &'w [String]) -> Result<Choice<'w>, WordsError>
    ensures { spec.GivesOrWants (spec.choice_by first.now (map string_bytes words.entry.now))
        (result_map_both spec.choice_seen (λ error. error) result) }
{
    match first {
        "run" => choose_run(alloc, words),
        "bench" => Ok(Choice::Bench(bench_by(alloc, words)?)),
        "plain" => choose_plain(alloc, words),
        "check" => Ok(Choice::Check(program_by(alloc, "check", words)?)),
        "print" => Ok(Choice::Print(program_by(alloc, "print", words)?)),
        "help" => choose_help(alloc, words),
        _ => Err(WordsError::Refused),
    }
}

/// What the words choose; they are refused where they are not the words of one of the commands.
pub fn choose<'w>(alloc: Global, words: &'w [String]) -> Result<Choice<'w>, WordsError>
    ensures { spec.GivesOrWants (spec.choice_of (map string_bytes words.entry.now))
        (result_map_both spec.choice_seen (λ error. error) result) }
{
    match words {
        [first, ..] => choose_by(alloc, first.as_str(), words),
        [] => Err(WordsError::Refused),
    }
}
