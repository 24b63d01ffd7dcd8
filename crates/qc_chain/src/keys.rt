//! Keys of two numbers.

/// A pair of numbers that names what stands under it.
#[derive(Clone, Copy, Debug, PartialEq, Eq)]
pub struct Key {
    /// The first number.
    pub major: u64,
    /// The second number.
    pub minor: u64,
}
