//! Names of tables, values of cells, and why a select is not cached.

use crate::duplicate::Duplicate;
use crate::memory::NoMemory;
use crate::owned_list::OwnedList;
use crate::text::Text;
use std::alloc::Global;

/// The whole name of a table: its database, and its name there.
#[derive(Debug, Drop)]
pub struct TableName {
    /// The database's name, its bytes as written.
    pub db: Text,
    /// The table's name in that database, its bytes as written.
    pub name: Text,
}

impl Duplicate for TableName {
    fn duplicate(&self, alloc: Global) -> Result<TableName, NoMemory> {
        Ok(TableName {
            db: self.db.copy(alloc)?,
            name: self.name.copy(alloc)?,
        })
    }
}

/// A value of a cell, of a literal or of an expression, by MySQL's types BIGINT and VARCHAR.
#[derive(Debug, Drop)]
pub enum Value {
    /// NULL, which a column of either type may hold.
    Null,
    /// A BIGINT, signed.
    Int(i64),
    /// The bytes of a VARCHAR, in whatever character set they came.
    Str(Text),
}

impl Duplicate for Value {
    fn duplicate(&self, alloc: Global) -> Result<Value, NoMemory> {
        match self {
            Value::Null => Ok(Value::Null),
            Value::Int(n) => Ok(Value::Int(*n)),
            Value::Str(t) => Ok(Value::Str(t.copy(alloc)?)),
        }
    }
}

/// Why a select has no part in the cache, by its text and the current database alone. Where several hold, the first of these is told.
#[derive(Debug, Drop)]
pub enum Why {
    /// It locks the rows that it reads: FOR UPDATE or LOCK IN SHARE MODE.
    Locking,
    /// It names no table.
    NoTables,
    /// It names this table, the first of a database `mysql`, `information_schema` or `performance_schema`.
    SystemTable(TableName),
    /// It calls this function, the first whose answer is not of the tables alone, as `NOW`. The name is in capitals.
    Function(Text),
}

impl Duplicate for Why {
    fn duplicate(&self, alloc: Global) -> Result<Why, NoMemory> {
        match self {
            Why::Locking => Ok(Why::Locking),
            Why::NoTables => Ok(Why::NoTables),
            Why::SystemTable(table) => Ok(Why::SystemTable(table.duplicate(alloc)?)),
            Why::Function(name) => Ok(Why::Function(name.copy(alloc)?)),
        }
    }
}

/// The exact sum of a column of BIGINT, which 64 bits may not hold. In MySQL `SUM` of such a column is a DECIMAL.
#[derive(Clone, Copy, Debug, PartialEq, Eq)]
pub struct Wide(pub i128);

impl Duplicate for Wide {
    fn duplicate(&self, _alloc: Global) -> Result<Wide, NoMemory> {
        Ok(*self)
    }
}

/// Names of tables, as those that a select reads.
pub type Tables = OwnedList<TableName>;

/// Texts, each on its own.
pub type Texts = OwnedList<Text>;
