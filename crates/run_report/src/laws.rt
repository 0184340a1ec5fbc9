//! Laws of reports. The functions do nothing: a caller learns from the contract.

ghost use Rattle.run_report.specs.Laws.{PathsAreWhole, SoundEndsCanBeReported};

/// The tasks that a report names of a cut root lead to the refusal: the bound on their number never cuts them short.
pub fn paths_are_whole()
    ensures law { PathsAreWhole }
{}

/// Each sound end can be reported.
pub fn sound_ends_can_be_reported()
    ensures law { SoundEndsCanBeReported }
{}
