ghost use Rattle.task_check.specs.Laws.{EachPlaceHasWay, AskedIsThere, ValidIsFaultless, SpawnsHandOverSettled, RespawnsHandOverSettled, RootsHandOverPredecessor, SpawnsHandOverHeld, RespawnsHandOverHeld, WhatIsKnownIsHeld};

/// The law that a way leads to each place of a well-formed state. It does nothing when it runs.
pub fn each_place_has_way()
    ensures { EachPlaceHasWay }
{}

/// The law that on each way in a valid program what is asked for is held, and settled. It does nothing when it runs.
pub fn asked_is_there()
    ensures { AskedIsThere }
{}

/// The law that in a valid program what is handed over as settled is settled, or will be once the
/// predecessor has its value. It does nothing when it runs.
pub fn handed_over_is_settled()
    ensures spawn { SpawnsHandOverSettled }
    ensures respawn { RespawnsHandOverSettled }
    ensures root { RootsHandOverPredecessor }
{}

/// The law that in a valid program what is handed over as held is held. It does nothing when it
/// runs.
pub fn handed_over_is_held()
    ensures spawn { SpawnsHandOverHeld }
    ensures respawn { RespawnsHandOverHeld }
{}

/// The law that on each way in a valid program what is settled, or a member, is held. It does
/// nothing when it runs.
pub fn known_is_held()
    ensures { WhatIsKnownIsHeld }
{}

/// The law that a well-formed program is valid exactly where it has no fault. It does nothing when it runs.
pub fn valid_is_faultless()
    ensures { ValidIsFaultless }
{}
