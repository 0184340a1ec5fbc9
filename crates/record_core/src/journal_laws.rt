ghost use Rattle.record_core.specs.JournalLaws.{EmptyIsJournal, AcceptKeepsJournal, BeginKeepsJournal, FinishKeepsJournal, AllStampsAreWritten, AcceptTells, BeginTells, FinishTells};

/// A journal stays one over each write that is made under its condition.
pub fn journal_keeps()
    ensures empty { EmptyIsJournal }
    ensures accept { AcceptKeepsJournal }
    ensures begin { BeginKeepsJournal }
    ensures finish { FinishKeepsJournal }
{}

/// Each write tells what was asked, and nothing that was written before changes.
pub fn journal_grows()
    ensures accept { AcceptTells }
    ensures begin { BeginTells }
    ensures finish { FinishTells }
{}

/// How many stamps there are once everything has started and finished.
pub fn journal_is_whole()
    ensures { AllStampsAreWritten }
{}
