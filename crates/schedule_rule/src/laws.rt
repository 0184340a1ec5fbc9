ghost use Rattle.schedule_rule.specs.RuleLaws.{NewTablesHold, SplitsHold, JoinsHold};
ghost use Rattle.schedule_rule.specs.RuleLaws.{PoolStepsKeep, RecordStepsKeep, ReferenceStepsKeep};
ghost use Rattle.schedule_rule.specs.DrawLaws.{TotalLoadsKeep, DrawsKeep, RowWritesKeep};
ghost use Rattle.schedule_rule.specs.LifeLaws.{ListStepsKeep, LivingStepsKeep, RunStepsKeep};
ghost use Rattle.schedule_rule.specs.PlacingLaws.{MadePlacingsKeep, NextPlacingsKeep};
ghost use Rattle.schedule_rule.specs.CoveringLaws.{MoreCover, FewerRunsCover, ActsCover, ActsMove};
ghost use Rattle.schedule_rule.specs.CoveringMoves.{LinesCover, ReadsCover, CopiesCover, DropsCover};
ghost use Rattle.schedule_rule.specs.HeldNames.{LinesHoldNames, ReadsHoldNames, PutsHoldNames};
ghost use Rattle.schedule_rule.specs.HeldNames.{DropsHoldNames, EnteredHoldNames, EntriesHoldNames};
ghost use Rattle.schedule_rule.specs.HeldNames.{ActsNameUnits, SpawnsMayPass};
ghost use Rattle.schedule_rule.specs.SeeingLaws.{TaskLoadsKeep, KnownLoadsKeep, WaiterStepsKeep};
ghost use Rattle.schedule_rule.specs.NamingLaws.{RootStepsKeep};
ghost use Rattle.schedule_rule.specs.SoundViews.{SoundViews};
ghost use Rattle.schedule_rule.specs.TakingLaws.{TakesKeep};
ghost use Rattle.schedule_rule.specs.FrontLaws.{FrontsSayTheirBody, FramesAreTheirFront};
ghost use Rattle.schedule_rule.specs.StartLaws.{NumbersAreTakenOnce, TasksRunOnce};
ghost use Rattle.schedule_rule.specs.StartLaws.{RunsAreBehindNone, ReadyAreBehindNone};
ghost use Rattle.schedule_rule.specs.StartLaws.{TakenRunsOrIsOver};
ghost use Rattle.schedule_rule.specs.OverLaws.{QuietIsOver, HeldAreRecords, LimitIsMet};

/// The scheduler's rule holds of a new table, and passes may be split and joined under it.
pub fn rule_opens()
    ensures opens { NewTablesHold }
    ensures splits { SplitsHold }
    ensures joins { JoinsHold }
{}

/// The steps of the pool, on records and on references keep the scheduler's rule.
pub fn steps_keep_rule()
    ensures pool { PoolStepsKeep }
    ensures records { RecordStepsKeep }
    ensures references { ReferenceStepsKeep }
{}

/// The loads of the totals, the draws of numbers, and the writes of a number's two rows keep the
/// scheduler's rule.
pub fn draws_keep_rule()
    ensures totals { TotalLoadsKeep }
    ensures draws { DrawsKeep }
    ensures rows { RowWritesKeep }
{}

/// The steps on lists, on the count of living records and of finishing keep the scheduler's rule, and
/// so do the moves of frames.
pub fn life_keeps_rule()
    ensures lists { ListStepsKeep }
    ensures living { LivingStepsKeep }
    ensures runs { RunStepsKeep }
{}

/// The steps that place a number in the state word of its record keep the scheduler's rule.
pub fn placing_keeps_rule()
    ensures made { MadePlacingsKeep }
    ensures again { NextPlacingsKeep }
{}

/// Where a pass has enough references for its running frames, more are enough, and so are the same
/// without one of the runs. Past an act by which a run asked for a task, one more is enough, and
/// the frame has moved on.
pub fn references_cover()
    ensures more { MoreCover }
    ensures without { FewerRunsCover }
    ensures acts { ActsCover }
    ensures moves { ActsMove }
{}

/// A running frame that goes on over lines, or past a read, needs the same references; past a copy
/// one more is enough, and past a drop one less.
pub fn references_cover_moves()
    ensures lines { LinesCover }
    ensures reads { ReadsCover }
    ensures copies { CopiesCover }
    ensures drops { DropsCover }
{}

/// Where each future that a frame holds names a record, each does so wherever the frame moves: over
/// lines, past a read, past an act that puts a future into a variable, and past a drop.
pub fn held_names_move()
    ensures lines { LinesHoldNames }
    ensures reads { ReadsHoldNames }
    ensures puts { PutsHoldNames }
    ensures drops { DropsHoldNames }
{}

/// In a valid program each future that a frame holds names a record where a task begins with what
/// its kind asks for, and where it enters a next state. So does each future that an act asks for,
/// and what a spawn asks for may be passed.
pub fn held_names_begin()
    ensures entered { EnteredHoldNames }
    ensures entries { EntriesHoldNames }
    ensures acts { ActsNameUnits }
    ensures passes { SpawnsMayPass }
{}

/// The loads that tell of tasks, those that tell what is known already, and the store that makes a
/// waiter ready keep the scheduler's rule.
pub fn seeing_keeps_rule()
    ensures tasks { TaskLoadsKeep }
    ensures known { KnownLoadsKeep }
    ensures waiters { WaiterStepsKeep }
{}

/// The naming of roots, and the references that are taken to their records, keep the scheduler's
/// rule.
pub fn naming_keeps_rule()
    ensures roots { RootStepsKeep }
{}

/// The rule says of each view that what it has and knows is sound, so each step may tell it.
pub fn rule_tells()
    ensures { SoundViews }
{}

/// A take keeps the scheduler's rule: a record that is ready becomes a run of the hand.
pub fn taking_keeps_rule()
    ensures { TakesKeep }
{}

/// The words of a block begin with a frame that says what they say, so it may be read out of them.
pub fn words_begin_with_frame()
    ensures bodies { FrontsSayTheirBody }
    ensures whole { FramesAreTheirFront }
{}

/// Whatever the passes do, an activation is taken once at most, no task runs twice, and what is
/// ready or runs is behind no task that is not over. The last activation of a task that was taken
/// runs, or the task is over.
pub fn activations_are_taken_once()
    ensures taken { NumbersAreTakenOnce }
    ensures runs { TasksRunOnce }
    ensures behind { RunsAreBehindNone }
    ensures ready { ReadyAreBehindNone }
    ensures kept { TakenRunsOrIsOver }
{}

/// A pass that saw nothing living once all roots were asked for is right that all is over. What a
/// running frame holds is a record, whatever the passes do. Where a task ended by the limit, or a
/// root's word says that it was refused by it, the limit is met.
pub fn nothing_is_lost()
    ensures quiet { QuietIsOver }
    ensures held { HeldAreRecords }
    ensures limit { LimitIsMet }
{}
