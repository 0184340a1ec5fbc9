use step_table::Linkable;

/// What joining a list answers.
#[derive(Drop)]
pub enum Joined {
    /// The record stands in the list, and in no pass's hand.
    Waits,
    /// The list is closed. The record comes back.
    Closed(Linkable),
}
