//! Views of what is stored.

ghost use Rattle.std.specs.Prelude.{◌≡◌, ◌<◌, length, map, option_copied, Some};
ghost use Rattle.qc_sql.specs.declared.tables.Kind.TheVariants as kind;
ghost use Rattle.qc_sql.specs.Database.{key_value};
ghost use Rattle.qc_table.specs.Views.{int_value, text_value, kind_at, value_at, column_values, row_values, IsNulls, IsText, IsTextAt, IsWithin};

use crate::table_rows::TableRows;
use std::marker::Model;

/// A column of a version of a table, lent for as long as the version. Contracts see its kind and its value of each row, by rising key. A call costs
/// constant time.
#[derive(Drop)]
pub struct ColumnView<'a> {
    table: &'a TableRows,
    column: u8,
}

impl<'a> Model for ColumnView<'a> {
    ghost use Rattle.std.specs.Prelude.{◌<◌, length};
    ghost use Rattle.qc_table.specs.Views.{ColumnValues, column_values};

    ghost Value = { ColumnValues };

    ghost view = { λ v. column_values v.table.now v.column };

    ghost invariant = { λ v. v.column < length v.table.now.columns };
}

impl<'a> ColumnView<'a> {
    pub(crate) fn new(table: &'a TableRows, column: u8) -> ColumnView<'a>
        requires { column < length table.now.columns }
        ensures { result ≡ column_values table.now column }
    {
        ColumnView { table, column }
    }

    /// The numbers of a BIGINT column, one for each row, and 0 for each NULL.
    pub fn values(&self) -> &'a [i64]
        requires { self.now.kind ≡ kind.Int }
        ensures { result.now ≡ map key_value self.now.values }
    {
        self.table.numbers(self.column)
    }

    /// Which rows are NULL: a bit for each, from the lowest of the first word on, in words of 64, and 0 behind the last.
    pub fn nulls(&self) -> &'a [u64]
        ensures { IsNulls result.now self.now.values }
    {
        self.table.nulls(self.column)
    }

    /// The number of the row at this index in a BIGINT column, or `None` where it is NULL.
    pub fn int(&self, row: u32) -> Option<i64>
        requires int { self.now.kind ≡ kind.Int }
        requires row { row < length self.now.values }
        ensures { int_value result ≡ value_at self.now.values row }
    {
        self.table.int(row, self.column)
    }

    /// The bytes of the row at this index in a VARCHAR column, or `None` where it is NULL.
    pub fn text(&self, row: u32) -> Option<&'a [u8]>
        requires text { IsText self.now.kind }
        requires row { row < length self.now.values }
        ensures { text_value (option_copied result) ≡ value_at self.now.values row }
    {
        self.table.text(row, self.column)
    }
}

/// A row of a version of a table, lent for as long as the version. Contracts see the columns and its value of each. A call costs constant time.
#[derive(Drop)]
pub struct RowView<'a> {
    table: &'a TableRows,
    row: u32,
}

impl<'a> Model for RowView<'a> {
    ghost use Rattle.std.specs.Prelude.{◌<◌, length};
    ghost use Rattle.qc_table.specs.Views.{RowValues, row_values};

    ghost Value = { RowValues };

    ghost view = { λ v. row_values v.table.now v.row };

    ghost invariant = { λ v. v.row < length v.table.now.rows };
}

impl<'a> RowView<'a> {
    pub(crate) fn new(table: &'a TableRows, row: u32) -> RowView<'a>
        requires { row < length table.now.rows }
        ensures { result ≡ row_values table.now row }
    {
        RowView { table, row }
    }

    /// The number in the BIGINT column at this index, or `None` where it is NULL.
    pub fn int(&self, column: u8) -> Option<i64>
        requires { kind_at self.now.columns column ≡ Some kind.Int }
        ensures { int_value result ≡ value_at self.now.values column }
    {
        self.table.int(self.row, column)
    }

    /// The bytes in the VARCHAR column at this index, no more than its length, or `None` where it is NULL.
    pub fn text(&self, column: u8) -> Option<&'a [u8]>
        requires { IsTextAt self.now.columns column }
        ensures value { text_value (option_copied result) ≡ value_at self.now.values column }
        ensures within { IsWithin self.now.columns column (option_copied result) }
    {
        self.table.text(self.row, column)
    }
}
