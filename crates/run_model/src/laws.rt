ghost use Rattle.run_model.specs.Laws.{BlocksAreApart, CountsWhereNothingIsRefused, EndsAreAsAsked, EndsAreComplete, EndsAreFaithful, EndsAreInOrder, EndsAreSound, EndsAskRootsFirst, EndsCount, EndsHaveEvidence, EndsHideNoCut, EndsHoldRoots, EndsSkipAsNamed, OneEnd, PlacesAsPoolsGive, PoolsAreSound, RunsEnd, StartsOnce};
ghost use Rattle.run_model.specs.Move.{RootsMove, StepsMove};
ghost use Rattle.run_model.specs.RuleRuns.{RuleRuns};
ghost use Rattle.run_model.specs.ExampleRuns.{ExampleRuns};

/// A run has one end: where it is over, it stands still.
pub fn one_end()
    ensures { OneEnd }
{}

/// A block is placed where a pool of `pool_core` gives it, and none is placed exactly where that
/// pool has no room.
pub fn places_as_pools_give()
    ensures { PlacesAsPoolsGive }
{}

/// The rules that no other law sees: small programs end as these rules say, row by row.
pub fn rules_by_example()
    ensures { RuleRuns }
{}

/// Worked runs: values, traps and cuts as their programs and plans have them.
pub fn worked_runs()
    ensures { ExampleRuns }
{}

/// A step changes nothing, for a reason, or makes one of seven moves; asking for a root makes one
/// of three.
pub fn steps_are_moves()
    ensures step { StepsMove }
    ensures root { RootsMove }
{}

/// Each accepted activation starts once, after its predecessor finished.
pub fn starts_once()
    ensures { StartsOnce }
{}

/// The end of a run is in order: all has started and finished, stamped once, and each cut has its
/// cause.
pub fn ends_are_in_order()
    ensures { EndsAreInOrder }
{}

/// The end of a run hides no cut, its roots have the tasks that they were asked for, before all
/// others, and it skips a root exactly where it names one without a task. Each of its tasks is of a
/// root, and its evidence is that of a refused block.
pub fn ends_are_faithful()
    ensures faithful { EndsAreFaithful }
    ensures cuts { EndsHideNoCut }
    ensures asked { EndsAreAsAsked }
    ensures first { EndsAskRootsFirst }
    ensures skipped { EndsSkipAsNamed }
{}

/// At each moment the blocks in use are those of a sound pool.
pub fn pools_are_sound()
    ensures { PoolsAreSound }
{}

/// No block is given that shares a unit with the block of a task to which something refers.
pub fn blocks_are_apart()
    ensures { BlocksAreApart }
{}

/// A run of a valid program is over after so many steps.
pub fn runs_end()
    ensures { RunsEnd }
{}

/// At the end only roots hold blocks, and a null answer has left its evidence.
pub fn ends_show_the_pool()
    ensures held { EndsHoldRoots }
    ensures evidence { EndsHaveEvidence }
{}

/// The end of a run of a valid program is sound: each value that a root shows is the meaning's, and
/// each cut has its cause.
pub fn ends_are_sound()
    ensures { EndsAreSound }
{}

/// The end of a run of a valid program is complete, where the program's meaning has counts, these
/// are within the limit, and the pool suffices: nothing is cut, each root has a value, and so many
/// tasks and activations are accepted.
pub fn ends_are_complete()
    ensures { EndsAreComplete }
{}

/// Where a run of a valid program, whose meaning has counts, refused nothing, so many tasks and
/// activations are accepted, and each root has a value, whatever the size of the pool is.
pub fn counts_where_nothing_is_refused()
    ensures { CountsWhereNothingIsRefused }
{}

/// So the end of a run of a valid program leaves no work out, and adds none.
pub fn ends_count()
    ensures { EndsCount }
{}
