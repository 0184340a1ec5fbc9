use thiserror::Error;

/// A sink did not take what it was offered.
#[derive(Clone, Copy, Debug, PartialEq, Eq, Error)]
#[error("the write failed")]
pub struct Failed;
