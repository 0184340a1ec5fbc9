ghost use Rattle.task_meaning.specs.ActLaws.{CallsAddCounts, CallsKeepValue, EndsCount, EndsGive, LeadsAddCounts, LeadsKeepValue, OneCallCounts, OneCallValue, OneCounts, OneValue, RootsAddUp, RootsAreCalls};

/// A place and a call give at most one value, and one pair of counts.
pub fn one_meaning()
    ensures value { OneValue }
    ensures counts { OneCounts }
    ensures call_value { OneCallValue }
    ensures call_counts { OneCallCounts }
{}

/// Where a task goes on without a call, the next place gives the same value, and the counts differ by those of the act.
pub fn goes_on()
    ensures value { LeadsKeepValue }
    ensures counts { LeadsAddCounts }
{}

/// Behind a call that has a value, the task goes on with that value, and its counts are those of both together.
pub fn goes_on_behind_call()
    ensures value { CallsKeepValue }
    ensures counts { CallsAddCounts }
{}

/// Where a task ends, it gives this value, and counts no more.
pub fn ends()
    ensures value { EndsGive }
    ensures counts { EndsCount }
{}

/// The roots are calls that are made one by one, each with the values of those before it.
pub fn roots_in_turn()
    ensures value { RootsAreCalls }
    ensures counts { RootsAddUp }
{}
