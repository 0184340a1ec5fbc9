ghost use Rattle.plain_state.specs.Laws.{AdvanceIsSteps, CopyIsStep, DropIsStep, ReadIsStep};
ghost use Rattle.plain_state.specs.Laws.{RespawnIsStep, RetryIsStep, RunningFrames};

/// What a line of a running task does is what the run does: the task goes on, copies or drops a
/// future, reads a task, tries again where there was no room, or respawns. Each call may be made.
pub fn lines()
    ensures frames { RunningFrames }
    ensures advance { AdvanceIsSteps }
    ensures copy { CopyIsStep }
    ensures drop { DropIsStep }
    ensures read { ReadIsStep }
    ensures retry { RetryIsStep }
    ensures respawn { RespawnIsStep }
{}
