ghost use Rattle.pool_core.specs.Laws.{SoundBlocksAreApart, SoundBlocksAreInside, SoundBlocksAreCounted, OneIsGiven, GivesOrHasNoRoom, NeverGivesWithoutRoom, NoRoomIsFull, SuperblocksAreCounted, SuperblockIsItsBlocks, PoolIsItsBlocks};

/// No two blocks that are out share a unit, each lies inside the pool, and they are as many as the counts say together.
pub fn blocks_that_are_out()
    ensures apart { SoundBlocksAreApart }
    ensures inside { SoundBlocksAreInside }
    ensures counted { SoundBlocksAreCounted }
{}

/// The blocks that are out of a superblock are all of its class, and as many as its count.
pub fn blocks_by_class()
    ensures { SuperblocksAreCounted }
{}

/// Class, ever and the blocks that are out say what a superblock is, and those of all superblocks what a pool is.
pub fn superblocks_are_their_blocks()
    ensures superblock { SuperblockIsItsBlocks }
    ensures pool { PoolIsItsBlocks }
{}

/// Of each class a pool can give a block or has no room for one, and not both.
pub fn gives_or_has_no_room()
    ensures either { GivesOrHasNoRoom }
    ensures not_both { NeverGivesWithoutRoom }
    ensures full { NoRoomIsFull }
{}

/// The pool before says which block is given, and what the pool is afterwards.
pub fn one_is_given()
    ensures { OneIsGiven }
{}
