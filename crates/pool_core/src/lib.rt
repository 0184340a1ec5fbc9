//! A pool of memory blocks for one thread: superblocks, each with blocks of one class at a time, and for each a count.
#![tactic(auto)]

mod block;
mod laws;
mod plain_pool;
mod superblock;
mod superblock_set;
#[cfg(test)]
mod tests;
mod unit_places;
mod vacancies;

pub use block::Block;
pub use laws::{
    blocks_by_class, blocks_that_are_out, gives_or_has_no_room, one_is_given,
    superblocks_are_their_blocks,
};
pub use plain_pool::PlainPool;
