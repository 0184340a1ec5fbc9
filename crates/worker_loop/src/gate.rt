//! What is called before an activation runs.

/// Is told of each activation that a worker runs, by its number, before its first line.
pub trait Gate: Sync {
    fn before(&self, number: u32);
}

/// Does nothing.
#[derive(Debug, Clone, Copy)]
pub struct NoGate;

impl Gate for NoGate {
    fn before(&self, _number: u32) {}
}
