ghost use Rattle.task_writer.specs.Laws.{ReadsBack, KeepsTheRest, PrintsTheSame, PrintsCanonically, PrintsWhatItRead};

/// The law that the text of a program is read as that program. It does nothing when it runs.
pub fn reads_back()
    ensures { ReadsBack }
{}

/// The law that a program keeps all but its line numbers when it is written and read. It
/// does nothing when it runs.
pub fn keeps_the_rest()
    ensures { KeepsTheRest }
{}

/// The law that line numbers are not printed. It does nothing when it runs.
pub fn prints_the_same()
    ensures { PrintsTheSame }
{}

/// The law that the text of a program is canonical. It does nothing when it runs.
pub fn prints_canonically()
    ensures { PrintsCanonically }
{}

/// The law that what is read from a canonical text is written as that very text. It does nothing
/// when it runs.
pub fn prints_what_it_read()
    ensures { PrintsWhatItRead }
{}
