//! Replies of the server.

use qc_types::{Duplicate, NoMemory, OwnedList, SqlError, Text};
use std::alloc::Global;

/// What a result set says of a column.
#[derive(Drop)]
pub struct ColumnDef {
    /// The database of the table, or empty.
    pub schema: Text,
    /// The name by which the statement calls the table, or empty.
    pub table: Text,
    /// The table's own name, or empty.
    pub org_table: Text,
    /// The name of the column in the result.
    pub name: Text,
    /// The column's own name in its table, or empty.
    pub org_name: Text,
    /// The number of a collation, as in `SHOW COLLATION`: 63 for numbers.
    pub charset: u16,
    /// The most bytes that a value is shown with.
    pub length: u32,
    /// The type byte of the protocol, as 8 for BIGINT and 253 for VARCHAR.
    pub kind: u8,
    /// The flags of the protocol: 1 for NOT NULL, 2 for a primary key, and so on.
    pub flags: u16,
    /// The shown decimals.
    pub decimals: u8,
}

impl Duplicate for ColumnDef {
    fn duplicate(&self, alloc: Global) -> Result<ColumnDef, NoMemory> {
        Ok(ColumnDef {
            schema: self.schema.copy(alloc)?,
            table: self.table.copy(alloc)?,
            org_table: self.org_table.copy(alloc)?,
            name: self.name.copy(alloc)?,
            org_name: self.org_name.copy(alloc)?,
            charset: self.charset,
            length: self.length,
            kind: self.kind,
            flags: self.flags,
            decimals: self.decimals,
        })
    }
}

/// The columns of a result set, from left to right.
pub type ColumnDefs = OwnedList<ColumnDef>;

/// The cells of a row as texts, or null.
pub type TextRow = OwnedList<Option<Text>>;

/// The rows of a result set, in order.
pub type TextRows = OwnedList<TextRow>;

/// A whole reply.
#[derive(Drop)]
pub enum Reply {
    /// An OK packet.
    Ok {
        /// How many rows were changed.
        affected: u64,
        /// The status flags of the session: 1 in a transaction, 2 with autocommit.
        status: u16,
    },
    /// An ERR packet.
    Err(SqlError),
    /// A text result set.
    Rows {
        /// Its columns, from 1 to 64.
        columns: ColumnDefs,
        /// Its rows, each with a cell for each column.
        rows: TextRows,
        /// The status flags of the session, which both EOF packets carry.
        status: u16,
    },
}
