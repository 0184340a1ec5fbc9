ghost use Rattle.task_meaning.specs.AcceptedLaws.{AcceptedAggregatesAddCounts, AcceptedAggregatesKeepRest, AcceptedRespawnsAddCounts, AcceptedRespawnsKeepRest, AcceptedSpawnsAddCounts, AcceptedSpawnsKeepRest, RetriesKeepCounts, RetriesKeepRest};

/// What follows from a frame has the value of what follows from the next one, wherever its call was
/// accepted.
pub fn accepted_calls_keep_rest()
    ensures spawn { AcceptedSpawnsKeepRest }
    ensures aggregate { AcceptedAggregatesKeepRest }
    ensures respawn { AcceptedRespawnsKeepRest }
{}

/// What is counted from a frame is what its act counts and what is counted from the next frames,
/// wherever its call was accepted.
pub fn accepted_calls_add_counts()
    ensures spawn { AcceptedSpawnsAddCounts }
    ensures aggregate { AcceptedAggregatesAddCounts }
    ensures respawn { AcceptedRespawnsAddCounts }
{}

/// A frame that is asked again behind no task gives and counts what it does behind a task with a
/// worth.
pub fn retries_keep_rest()
    ensures value { RetriesKeepRest }
    ensures counts { RetriesKeepCounts }
{}
