//! Cells of a result, as rows of values give them and as packets carry their texts.

use qc_types::Text;

/// A cell of a row in a text result set, whose text is borrowed.
#[derive(Clone, Copy, Debug)]
pub enum Cell<'a> {
    /// No value, which differs from an empty text.
    Null,
    /// A number, sent as its decimal digits, after '-' where it is below 0.
    Int(i64),
    /// A number that may be past 64 bits, as a sum, sent in the same way.
    Wide(i128),
    /// Bytes, sent as they are.
    Str(&'a [u8]),
}

/// A cell of a row that holds its text; its variants are those of `Cell`.
#[derive(Drop)]
pub enum StoredCell {
    /// No value, which differs from an empty text.
    Null,
    /// A number, sent as its decimal digits, after '-' where it is below 0.
    Int(i64),
    /// A number that may be past 64 bits, as a sum, sent in the same way.
    Wide(i128),
    /// Bytes, sent as they are.
    Str(Text),
}
