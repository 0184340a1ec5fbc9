//! The numbers of options.

ghost use Rattle.std.specs.Prelude.{◌≡◌, Some, None, option_map, if◌then◌else◌};
ghost use Rattle.clap.specs.Matches.{found_of};
ghost use Rattle.clap.specs.Walk.{rows_of};
ghost use Rattle.record_core.specs.EndSeen.{plan_of};
ghost use Rattle.tool_words.specs.Choice as spec;

use clap::ArgMatches;
use kt_words::{Geometry, Plan};
use task_text::number_of;

/// The number of an option: that of its word, and where it is not given the default.
fn number_at(matches: &ArgMatches<'_>, name: &str, default: u64) -> Option<u64>
    ensures { result ≡ spec.number_at (rows_of (found_of matches.now)) name.now default }
{
    match matches.get_str(name) {
        Some(word) => number_of(word.as_bytes()),
        None => Some(default),
    }
}

/// The plan of these numbers, where each is in its range.
fn plan_with(superblocks: u64, units: u64, limit: u64) -> Option<Plan>
    ensures { option_map plan_of result
        ≡ (if spec.fit_plan (Some superblocks) (Some units) (Some limit)
        then Some (spec.plan_with (Some superblocks) (Some units) (Some limit)) else None) }
{
    let superblocks = u32::try_from(superblocks).ok()?;
    let units = u32::try_from(units).ok()?;
    let geometry = Geometry::new(superblocks, units)?;
    Plan::new(geometry, limit, 0)
}

/// The plan that the options choose.
pub(crate) fn plan_in(matches: &ArgMatches<'_>) -> Option<Plan>
    ensures { option_map plan_of result
        ≡ (if spec.has_plan (rows_of (found_of matches.now))
        then Some (spec.plan_in (rows_of (found_of matches.now))) else None) }
{
    let superblocks = number_at(matches, "superblocks", 256)?;
    let units = number_at(matches, "units", 512)?;
    let limit = number_at(matches, "limit", 1_000_000)?;
    plan_with(superblocks, units, limit)
}

/// The number that is given in the place of this name.
pub(crate) fn size_in(matches: &ArgMatches<'_>) -> Option<u64>
    ensures { result ≡ spec.size_in (rows_of (found_of matches.now)) }
{
    match matches.get_str("number") {
        Some(word) => number_of(word.as_bytes()),
        None => None,
    }
}

/// How many threads are to work.
pub(crate) fn workers_in(matches: &ArgMatches<'_>) -> Option<u8>
    ensures { result
        ≡ (if spec.is_in_range 1 64 (spec.workers_in (rows_of (found_of matches.now)))
        then spec.workers_in (rows_of (found_of matches.now)) else None) }
{
    let workers = number_at(matches, "workers", 4)?;
    if workers == 0 || workers > 64 {
        return None;
    }
    Some(workers as u8)
}
