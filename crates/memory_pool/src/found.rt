use step_table::Reserved;

/// What a search comes to.
#[derive(Drop)]
pub enum Found {
    /// A place, which is now reserved.
    Place(Reserved),
    /// No place yet; this superblock was seen empty, and its last blocks were of another class.
    Empty(u32),
    /// No place: each superblock was seen without room.
    Nothing,
}
