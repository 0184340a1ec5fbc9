//! The commands, as `clap` reads their words.

ghost use Rattle.std.specs.Prelude.{◌≡◌, IfOk};
ghost use Rattle.clap.specs.Simple.{app_of, with_rule};
ghost use Rattle.tool_words.specs.Commands as spec;

use clap::{Arg, ArgAction, Command};
use std::alloc::{AllocError, Global};

/// A command without arguments, and without the flags for help and the version.
fn bare_command<'a>(alloc: Global, name: &'a str) -> Command<'a>
    ensures { app_of result ≡ spec.bare name.entry.now }
{
    Command::new(alloc, name)
        .disable_help_flag(true)
        .disable_version_flag(true)
}

/// The command with one more word in its place, which is required.
fn with_required<'a>(
    alloc: Global,
    command: Command<'a>,
    name: &'a str,
) -> Result<Command<'a>, AllocError>
    ensures { IfOk result (λ made.
        app_of made ≡ with_rule (app_of command.entry) (spec.required_rule name.entry.now)) }
{
    let arg = Arg::new(alloc, name).required(true);
    command.arg(arg)
}

/// The command with one more word in its place, which may be missing.
fn with_optional<'a>(
    alloc: Global,
    command: Command<'a>,
    name: &'a str,
) -> Result<Command<'a>, AllocError>
    ensures { IfOk result (λ made.
        app_of made ≡ with_rule (app_of command.entry) (spec.optional_rule name.entry.now)) }
{
    let arg = Arg::new(alloc, name);
    command.arg(arg)
}

/// The command with one more option, `--NAME VALUE`.
fn with_option<'a>(
    alloc: Global,
    command: Command<'a>,
    name: &'a str,
) -> Result<Command<'a>, AllocError>
    ensures { IfOk result (λ made.
        app_of made ≡ with_rule (app_of command.entry) (spec.option_rule name.entry.now)) }
{
    let arg = Arg::new(alloc, name).long(name);
    command.arg(arg)
}

/// The command with one more flag, `--NAME`.
fn with_flag<'a>(
    alloc: Global,
    command: Command<'a>,
    name: &'a str,
) -> Result<Command<'a>, AllocError>
    ensures { IfOk result (λ made.
        app_of made ≡ with_rule (app_of command.entry) (spec.flag_rule name.entry.now)) }
{
    let arg = Arg::new(alloc, name).long(name).action(ArgAction::SetTrue);
    command.arg(arg)
}

/// The command with the words that every run takes: the files, the pool, the limit and the trace.
fn with_run_words<'a>(alloc: Global, command: Command<'a>) -> Result<Command<'a>, AllocError>
    ensures { IfOk result (λ made. app_of made ≡ spec.with_run_rules (app_of command.entry)) }
{
    let command = with_required(alloc, command, "program")?;
    let command = with_optional(alloc, command, "columns")?;
    let command = with_option(alloc, command, "superblocks")?;
    let command = with_option(alloc, command, "units")?;
    let command = with_option(alloc, command, "limit")?;
    with_flag(alloc, command, "trace")
}

/// `plain PROGRAM [COLUMNS] [--superblocks S] [--units U] [--limit L] [--trace]`
pub(crate) fn plain_command<'a>(alloc: Global) -> Result<Command<'a>, AllocError>
    ensures { IfOk result (λ made. app_of made ≡ spec.plain_app) }
{
    let command = bare_command(alloc, "plain");
    with_run_words(alloc, command)
}

/// `run PROGRAM [COLUMNS] [--workers N]` and the options of `plain`.
pub(crate) fn run_command<'a>(alloc: Global) -> Result<Command<'a>, AllocError>
    ensures { IfOk result (λ made. app_of made ≡ spec.run_app) }
{
    let command = bare_command(alloc, "run");
    let command = with_run_words(alloc, command)?;
    with_option(alloc, command, "workers")
}

/// `bench FAMILY N [--workers N]`
pub(crate) fn bench_command<'a>(alloc: Global) -> Result<Command<'a>, AllocError>
    ensures { IfOk result (λ made. app_of made ≡ spec.bench_app) }
{
    let command = bare_command(alloc, "bench");
    let command = with_required(alloc, command, "family")?;
    let command = with_required(alloc, command, "number")?;
    with_option(alloc, command, "workers")
}

/// A command that takes the name of a program's file alone.
pub(crate) fn program_command<'a>(alloc: Global, name: &'a str) -> Result<Command<'a>, AllocError>
    ensures { IfOk result (λ made. app_of made ≡ spec.program_app name.entry.now) }
{
    let command = bare_command(alloc, name);
    with_required(alloc, command, "program")
}

/// A command that takes no further word.
pub(crate) fn help_command<'a>(alloc: Global) -> Command<'a>
    ensures { app_of result ≡ spec.help_app }
{
    bare_command(alloc, "help")
}
