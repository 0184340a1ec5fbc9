use step_table::Block;

/// What an allocation answers.
#[derive(Drop)]
pub enum Allocated {
    /// A block, which no other pass has.
    Block(Block),
    /// Each superblock was looked at, and each was without room.
    Null,
}
