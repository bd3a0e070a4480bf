//! Why a read or a write moved no byte.

/// Why a read or a write moved no byte.
#[derive(Clone, Copy, Debug, PartialEq, Eq)]
pub enum Halt {
    /// It failed, or a write wrote no byte.
    Failed,
    /// No turn was left for it.
    NoTurn,
}
