ghost use Rattle.kt_words.specs.ClassLaws.{BlocksHaveWords, ClassIsLeast, ClassIsOneOfFour, ClassRises};
ghost use Rattle.kt_words.specs.GeometryLaws.{UnitsByName, BlocksFill, BlocksEndInside, UnitNamesPlace, RoomIsEither, NumbersMakeGeometry, NumbersMakePlan};
ghost use Rattle.kt_words.specs.SuperWordLaws.{SuperWordSaysItsNumbers, SuperWordIsItsNumbers, SuperWordSaysItsValue, SuperWordHasOneValue, SuperWordFits, CountRises, CountFalls, EverRises, ClassChanges, WordReserves, WordReservesSame, EverIsCounted};
ghost use Rattle.kt_words.specs.StateWordLaws.{StateWordSaysItsNumbers, StateWordIsItsNumbers, StateWordSaysItsValue, StateWordHasOneValue, PhaseHasOneCode, TagHasOneCode, PhaseChanges, PriorityChanges, TagChanges, NumberChanges};
ghost use Rattle.kt_words.specs.HeadWordLaws.{HeadWordSaysItsNumbers, HeadWordIsItsNumbers, HeadWordSaysItsValue, HeadWordHasOneValue, LinkHasOneCode, ListedIsNotClosed, LengthRises, LengthFalls, FirstChanges};
ghost use Rattle.kt_words.specs.RootWordLaws.{RootWordIsAmongThem, RootWordHasOneValue, ZeroIsNotAsked, EachUnitFits, EachAnswerFits};

/// What each geometry keeps.
pub fn geometries()
    ensures units { UnitsByName }
    ensures fill { BlocksFill }
    ensures inside { BlocksEndInside }
    ensures place { UnitNamesPlace }
    ensures room { RoomIsEither }
    ensures numbers { NumbersMakeGeometry }
{}

/// Which class holds so many words.
pub fn classes()
    ensures words { BlocksHaveWords }
    ensures least { ClassIsLeast }
    ensures four { ClassIsOneOfFour }
    ensures rises { ClassRises }
{}

/// Plans are told apart by their numbers.
pub fn plans()
    ensures { NumbersMakePlan }
{}

/// A superblock's word and its numbers say the same.
pub fn super_words()
    ensures says { SuperWordSaysItsNumbers }
    ensures is { SuperWordIsItsNumbers }
    ensures value { SuperWordSaysItsValue }
    ensures one_value { SuperWordHasOneValue }
    ensures fits { SuperWordFits }
{}

/// What a superblock's word becomes.
pub fn super_words_change()
    ensures more { CountRises }
    ensures less { CountFalls }
    ensures ever { EverRises }
    ensures class { ClassChanges }
    ensures reserved { WordReserves }
    ensures reserved_same { WordReservesSame }
    ensures counted { EverIsCounted }
{}

/// A state's word and its numbers say the same.
pub fn state_words()
    ensures says { StateWordSaysItsNumbers }
    ensures is { StateWordIsItsNumbers }
    ensures value { StateWordSaysItsValue }
    ensures one_value { StateWordHasOneValue }
    ensures phases { PhaseHasOneCode }
    ensures tags { TagHasOneCode }
{}

/// What a state's word becomes.
pub fn state_words_change()
    ensures phase { PhaseChanges }
    ensures priority { PriorityChanges }
    ensures tag { TagChanges }
    ensures number { NumberChanges }
{}

/// The head of a waiting list and its numbers say the same.
pub fn head_words()
    ensures says { HeadWordSaysItsNumbers }
    ensures is { HeadWordIsItsNumbers }
    ensures value { HeadWordSaysItsValue }
    ensures one_value { HeadWordHasOneValue }
    ensures links { LinkHasOneCode }
    ensures open { ListedIsNotClosed }
{}

/// What the head of a waiting list becomes.
pub fn head_words_change()
    ensures more { LengthRises }
    ensures less { LengthFalls }
    ensures first { FirstChanges }
{}

/// The word of a root says one thing.
pub fn root_words()
    ensures among { RootWordIsAmongThem }
    ensures one_value { RootWordHasOneValue }
    ensures zero { ZeroIsNotAsked }
    ensures units { EachUnitFits }
    ensures answers { EachAnswerFits }
{}
