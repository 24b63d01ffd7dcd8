//! What a session's statements depend on.

/// The flags of a session. They stand in the key of an entry.
#[derive(Clone, Copy, Debug, PartialEq, Eq)]
pub struct Flags {
    /// Whether a transaction is open.
    pub in_trans: bool,
    /// Whether each statement outside transactions is one by itself.
    pub autocommit: bool,
    /// The collation of the connection, by its number.
    pub charset: u16,
    /// Whether double quotes enclose names, as in the SQL mode ANSI_QUOTES.
    pub ansi: bool,
    /// The most rows that a select gives, as `sql_select_limit`.
    pub row_limit: u64,
    /// The protocol of the reply: 0 is the text protocol.
    pub protocol_form: u8,
    /// The form of the rows of the reply: 0 is the text form.
    pub row_form: u8,
}

/// Whether the cache is asked.
#[derive(Clone, Copy, Debug, PartialEq, Eq)]
pub enum Asked {
    /// It is asked.
    Yes,
    /// It has no memory, or the type is 0.
    Off,
    /// The statement or the type says that it is not.
    No,
}
