ghost use Rattle.plain_state.specs.Laws.{AllAsked, LinesGo, NoneAsked, RootIsAsked};
ghost use Rattle.plain_state.specs.Laws.{NullIsStep, RootMayBeAsked, SpawnAtTheLimit, SpawnIsStep};

/// What the running task asks for is what it asks for in the run: it has a new task; at the limit
/// the block is back and the task is cut; without a block a null answer is counted.
pub fn new_tasks()
    ensures spawned { SpawnIsStep }
    ensures limit { SpawnAtTheLimit }
    ensures no_block { NullIsStep }
{}

/// An engine that was asked for some of the roots stands for the run that was: before the first,
/// after the next, and once all were asked for.
pub fn roots()
    ensures first { NoneAsked }
    ensures may { RootMayBeAsked }
    ensures next { RootIsAsked }
    ensures all { AllAsked }
{}

/// A frame never goes back among the lines of its state, and goes past the line that it asked at.
pub fn lines_run_out()
    ensures { LinesGo }
{}
