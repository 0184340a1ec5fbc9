ghost use Rattle.frame_code.specs.Layout.{WordsAreTheirBody};
ghost use Rattle.frame_code.specs.Names.{OneNameChanges};
ghost use Rattle.frame_code.specs.Members.{AggregatesAreInTurn};
ghost use Rattle.frame_code.specs.Meant.{GoingKeepsMeaning, StopsAreActs, ActsAreHeld};
ghost use Rattle.frame_code.specs.Ways.{EntriesHaveWays, FuturesKeepWays};

/// The words of a frame are the control word, the numbers in order and the futures in order; of an
/// aggregate the control word and the members.
pub fn words_are_their_body()
    ensures { WordsAreTheirBody }
{}

/// To put a future into a frame changes one of the names there.
pub fn one_name_changes()
    ensures { OneNameChanges }
{}

/// The meaning of an aggregate is that of its activations in turn.
pub fn aggregates_are_in_turn()
    ensures { AggregatesAreInTurn }
{}

/// What `advance` does to a frame is what the meaning and the checker's rules say of it.
pub fn stops_are_acts()
    ensures goes { GoingKeepsMeaning }
    ensures stops { StopsAreActs }
    ensures held { ActsAreHeld }
{}

/// There is a way to the line of an entry, and to that of a frame whose future was set.
pub fn frames_have_ways()
    ensures entries { EntriesHaveWays }
    ensures futures { FuturesKeepWays }
{}
