//! The words of one command.

ghost use Rattle.std.specs.Prelude.{◌≡◌, true, map, string_bytes};
ghost use Rattle.std.specs.Result.{result_map_both};
ghost use Rattle.clap.specs.Faults.{is_simple_and_free};
ghost use Rattle.clap.specs.Matches.{found_of};
ghost use Rattle.clap.specs.Simple.{app_of};
ghost use Rattle.clap.specs.Values.{kind_of};
ghost use Rattle.clap.specs.Walk.{rows_of};
ghost use Rattle.tool_words.specs.Choice.{GivesOrWants, rows_by};
ghost use Rattle.tool_words.specs.Kinds.{error_of};

use crate::words_error::WordsError;
use clap::error::ErrorKind;
use clap::{ArgMatches, Command, Error};

/// Whether the words were refused, or memory ran out.
fn words_error(error: &Error) -> WordsError
    ensures { result ≡ error_of (kind_of error.now) }
{
    match error.kind() {
        ErrorKind::OutOfMemory => WordsError::Memory,
        _ => WordsError::Refused,
    }
}

/// What a command makes of the words, of which the first is its name.
pub(crate) fn parse<'w>(
    command: Command<'w>,
    words: &'w [String],
) -> Result<ArgMatches<'w>, WordsError>
    requires { is_simple_and_free (app_of command) ≡ true }
    ensures { GivesOrWants (rows_by (app_of command.entry) (map string_bytes words.entry.now))
        (result_map_both (λ found. rows_of (found_of found)) (λ error. error) result) }
{
    match command.try_get_matches_from(words) {
        Ok(matches) => Ok(matches),
        Err(error) => Err(words_error(&error)),
    }
}
