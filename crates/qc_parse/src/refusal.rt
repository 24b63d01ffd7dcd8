//! Why a text is no statement.

use qc_types::Text;

/// Why a text is no statement.
#[derive(Drop)]
pub enum ParseRefusal {
    /// No text of the grammar goes on at this offset with what stands there: a token, or the end. In bytes, from 0 to the text's length.
    Syntax(u32),
    /// The text has this, which isn't supported.
    Unsupported(Text),
    /// FROM names more than eight tables.
    TooManyTables,
}
