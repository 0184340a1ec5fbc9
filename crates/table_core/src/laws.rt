ghost use Rattle.table_core.specs.RuleLaws.{BlocksAreApart, RecordsAreApart, RecordsAndBlocksAreApart, UnusedPoolIsEmpty};
ghost use Rattle.table_core.specs.WaitLaws.{WaitersStandOnce, OnlyWaitersStand};

/// What the rule says of the pool: no two blocks share a unit, whether passes have them or records
/// stand in them, and a pool of which nobody has anything is empty.
pub fn pool_is_shared()
    ensures apart { BlocksAreApart }
    ensures records { RecordsAreApart }
    ensures records_and_blocks { RecordsAndBlocksAreApart }
    ensures empty { UnusedPoolIsEmpty }
{}

/// What the rule says of records that wait: each stands in one list, in one chain or in one hand,
/// once, and no other record does.
pub fn waiters_stand_once()
    ensures once { WaitersStandOnce }
    ensures only { OnlyWaitersStand }
{}
