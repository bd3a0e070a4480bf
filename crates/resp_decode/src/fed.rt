//! The result of feeding a piece to a decoder.

/// The result of feeding a piece to a decoder of values `T`.
#[derive(Debug, PartialEq, Eq, Drop)]
pub struct Fed<T> {
    /// The number of bytes of the piece that were used. This is the whole piece if there is no
    /// value.
    pub used: usize,
    /// The value that ends with these bytes, if a value ends.
    pub value: Option<T>,
}
