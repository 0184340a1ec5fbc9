ghost use Rattle.task_meaning.specs.RootLaws.{RootTasksAreWorthTheirValue};
ghost use Rattle.task_meaning.specs.WorthLaws.{ActsKeepUnderNames, AggregatesAreWorthZero, CallsAreWorthTheirMean, FirstFrameGivesWorth, LaterCallsKeepRest, LaterCallsKeepWorths, MoreFuelKeepsWorths, StepsKeepRest};

/// No worth changes by a later accepted call, and none by more fuel.
pub fn worths_stay()
    ensures later { LaterCallsKeepWorths }
    ensures fuel { MoreFuelKeepsWorths }
{}

/// The worth of a call is what it means with the worths of the tasks that it names, and an aggregate is worth 0.
pub fn worths_are_means()
    ensures call { CallsAreWorthTheirMean }
    ensures aggregate { AggregatesAreWorthZero }
{}

/// What follows from a frame: from a call's first frame its worth, the same after a step, and the same whatever is
/// accepted later.
pub fn rests_of_frames()
    ensures first { FirstFrameGivesWorth }
    ensures step { StepsKeepRest }
    ensures later { LaterCallsKeepRest }
{}

/// An instruction does the same whatever a future is.
pub fn acts_keep_under_names()
    ensures { ActsKeepUnderNames }
{}

/// The worth of a root's task is the value of the root.
pub fn root_tasks()
    ensures { RootTasksAreWorthTheirValue }
{}
