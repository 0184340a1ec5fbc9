use thiserror::Error;

/// Why a shelf gave no content.
#[derive(Clone, Copy, Debug, PartialEq, Eq, Error)]
pub enum FetchError {
    #[error("the read failed")]
    Failed,
    #[error("the content is too long")]
    TooLong,
    #[error("out of memory")]
    Memory,
}
