ghost use Rattle.plain_state.specs.Laws.{EndIsSeen, EndIsStep, NextMayStart, NoneLeftIsTheEnd};
ghost use Rattle.plain_state.specs.Laws.{StartIsCut, StartRuns, TurnsEnd};

/// A turn is what the run does: the next activation starts or is cut, a task ends, and each turn
/// takes one of the starts that are left. With none that may start, the run is over, and the
/// engine answers its end.
pub fn turns()
    ensures start { StartRuns }
    ensures cut { StartIsCut }
    ensures ready { NextMayStart }
    ensures over { NoneLeftIsTheEnd }
    ensures ends { EndIsStep }
    ensures seen { EndIsSeen }
    ensures fewer { TurnsEnd }
{}
