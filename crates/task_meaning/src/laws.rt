ghost use Rattle.task_meaning.specs.Laws.{ActByAct, CallCountsAddUp, CountsAddUp, CountsNeedValue, MoreFuelKeepsMean, MoreFuelKeepsRest, MoreFuelKeepsRoots, NoLineNoMeaning};

/// More fuel gives the same value and the same counts.
pub fn more_fuel()
    ensures rest { MoreFuelKeepsRest }
    ensures mean { MoreFuelKeepsMean }
    ensures roots { MoreFuelKeepsRoots }
{}

/// Where the counts of a call are given, its value is.
pub fn counts_need_value()
    ensures { CountsNeedValue }
{}

/// What follows from a place is what follows the act of its line.
pub fn act_by_act()
    ensures line { ActByAct }
    ensures past { NoLineNoMeaning }
{}

/// The counts are those of the tasks that begin and the activations that start in a run to the value.
pub fn counts_add_up()
    ensures place { CountsAddUp }
    ensures call { CallCountsAddUp }
{}
