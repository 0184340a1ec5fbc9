ghost use Rattle.record_core.specs.EndLaws.{NoOtherValue, NoCutWithoutRefusal, NoLimitToSpare, NoNullWithoutEvidence, NoOtherBlocks, NoCutByALater, NoCutShownAsValue, NoCutHidden, NoOtherPredecessor, NoValueBehindACut, NoRespawnOfTheCut, NoOwnExchanged, NoTaskWithoutRoot, NoOtherFirst, NoEvidenceUnasked, NoEvidenceOfNothing, NoCountTooLarge, NoNullWithRoom, NoWordsOfNothing, NoRootBehindNone, NoLaterNamed, NoOtherSpawn, NoTwoOfOneLine, NoBehindUnasked, NoRespawnUnasked, NoNullUnasked, NoLimitUnasked, NoAggregateBeforeMembers, NoNullsUncounted, NoWorkLeftOut, SoundByItems};

/// What no sound end shows, and that such an end is all items of it.
pub fn sound_ends()
    ensures value { NoOtherValue }
    ensures refusal { NoCutWithoutRefusal }
    ensures limit { NoLimitToSpare }
    ensures null { NoNullWithoutEvidence }
    ensures held { NoOtherBlocks }
    ensures earlier { NoCutByALater }
    ensures room { NoNullWithRoom }
    ensures items { SoundByItems }
{}

/// What no faithful end shows.
pub fn faithful_ends()
    ensures value { NoCutShownAsValue }
    ensures cut { NoCutHidden }
    ensures predecessor { NoOtherPredecessor }
    ensures behind { NoValueBehindACut }
    ensures respawn { NoRespawnOfTheCut }
    ensures own { NoOwnExchanged }
    ensures root { NoTaskWithoutRoot }
    ensures first { NoOtherFirst }
    ensures class { NoEvidenceUnasked }
    ensures nothing { NoEvidenceOfNothing }
    ensures count { NoCountTooLarge }
    ensures words { NoWordsOfNothing }
    ensures waits { NoRootBehindNone }
    ensures later { NoLaterNamed }
    ensures spawn { NoOtherSpawn }
    ensures line { NoTwoOfOneLine }
    ensures follows { NoBehindUnasked }
    ensures again { NoRespawnUnasked }
    ensures refused { NoNullUnasked }
    ensures spent { NoLimitUnasked }
    ensures gathered { NoAggregateBeforeMembers }
    ensures nulls { NoNullsUncounted }
{}

/// What no end shows that counts as the meaning does.
pub fn counted_ends()
    ensures { NoWorkLeftOut }
{}
