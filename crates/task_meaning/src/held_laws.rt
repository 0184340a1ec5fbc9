ghost use Rattle.task_meaning.specs.HeldLaws.{HeldFuturesAloneMatter, HeldTasksAloneMatter, UnheldMayGo};

/// In a valid program two frames at one place, with the same numbers, mean the same where they
/// agree in the futures that are held there. So a frame may give up all others.
pub fn held_futures_alone_matter()
    ensures place { HeldFuturesAloneMatter }
    ensures frame { HeldTasksAloneMatter }
    ensures given_up { UnheldMayGo }
{}
