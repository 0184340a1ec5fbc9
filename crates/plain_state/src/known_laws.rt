ghost use Rattle.plain_state.specs.Known.{EndedRootsAreKnown, EndedRootsAreMany};
ghost use Rattle.plain_state.specs.Known.{EvidenceIsWhole, NamesAreKnown, RootsAreKnown};
ghost use Rattle.plain_state.specs.Known.{RunningIsKnown};

/// The tasks that an engine names are known to it: those of the running frame, the running one,
/// and those of the roots. Each root line has become something, and the first null answer has left
/// a word for each superblock.
pub fn known_records()
    ensures names { NamesAreKnown }
    ensures running { RunningIsKnown }
    ensures asked { RootsAreKnown }
    ensures ended { EndedRootsAreKnown }
    ensures many { EndedRootsAreMany }
    ensures evidence { EvidenceIsWhole }
{}
