ghost use Rattle.task_meaning.specs.FrameCounts.{AggregatesAddCounts, EndsCountNoMore, ReadsKeepCounts, RespawnsAddCounts, SpawnsAddCounts, TrapsCountNoMore};
ghost use Rattle.task_meaning.specs.FrameLaws.{AggregatesKeepRest, EndsGiveRest, ReadsKeepRest, RespawnsKeepRest, SpawnsKeepRest, TrapsGiveRest};

/// What follows from a frame has the value of what follows from the next one, while calls are accepted.
pub fn frames_go_on()
    ensures spawn { SpawnsKeepRest }
    ensures aggregate { AggregatesKeepRest }
    ensures read { ReadsKeepRest }
    ensures respawn { RespawnsKeepRest }
{}

/// Where a task ends in a frame, what follows from it is the value.
pub fn frames_end()
    ensures finish { EndsGiveRest }
    ensures trap { TrapsGiveRest }
{}

/// What is counted from a frame is what its act counts and what is counted from the frames behind it.
pub fn frames_add_counts()
    ensures spawn { SpawnsAddCounts }
    ensures aggregate { AggregatesAddCounts }
    ensures read { ReadsKeepCounts }
    ensures respawn { RespawnsAddCounts }
    ensures finish { EndsCountNoMore }
    ensures trap { TrapsCountNoMore }
{}
