ghost use Rattle.bench_programs.specs.Laws.{EachIsWellFormed, EachIsValid, EachIsFaultless, EachReadsBack, EachTextFits};

/// The law that the program of a family is well formed, for each number. It does nothing when it runs.
pub fn each_is_well_formed()
    ensures { EachIsWellFormed }
{}

/// The law that the program of a family is valid, for each number. It does nothing when it runs.
pub fn each_is_valid()
    ensures { EachIsValid }
{}

/// The law that the program of a family has no fault, for each number. It does nothing when it runs.
pub fn each_is_faultless()
    ensures { EachIsFaultless }
{}

/// The law that the text of a family's program is read as that program, for each number. It does
/// nothing when it runs.
pub fn each_reads_back()
    ensures { EachReadsBack }
{}

/// The law that the text of a family's program has at most 400 bytes, for each number. It does
/// nothing when it runs.
pub fn each_text_fits()
    ensures { EachTextFits }
{}
