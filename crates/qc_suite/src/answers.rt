//! What a command was answered, as a line.

use crate::line::Line;
use qc_sql::replies::{ColumnDef, Reply, TextRow};
use qc_types::{NoMemory, Or, SqlError, Text};
use qc_wire::read_reply;

/// In what form an answer is told.
#[derive(Clone, Copy, PartialEq, Eq)]
pub enum Form {
    /// The affected rows, the error or the rows, with the status.
    Whole,
    /// The bytes of the packets.
    Bytes,
    /// The names of the columns and the rows, or the error.
    Rows,
    /// What the reply says of its columns, with the names of databases and tables or without.
    Columns { with_names: bool },
    /// Whether the parser refuses it.
    Parsed,
}

impl Line {
    /// Puts the answer of these packets.
    pub fn put_answer(&mut self, packets: &[u8], form: Form) -> Result<(), NoMemory> {
        if form == Form::Bytes {
            self.put("bytes ")?;
            return self.put(hex::encode(self.alloc, packets)?.as_str());
        }
        match read_reply(self.alloc, packets) {
            Ok(reply) => self.put_reply(&reply, form),
            Err(Or::Other(_)) => self.put("no reply"),
            Err(Or::Memory) => Err(NoMemory),
        }
    }

    fn put_reply(&mut self, reply: &Reply, form: Form) -> Result<(), NoMemory> {
        match reply {
            Reply::Err(error) if form == Form::Parsed && !is_refusal(error.code) => self.put(
                "read",
            ),
            Reply::Err(error) => {
                self.put(if form == Form::Whole { "error " } else { "" })?;
                self.put_error(error)
            }
            _ if form == Form::Parsed => self.put("read"),
            Reply::Ok { affected, status } => {
                self.put_number("ok ", *affected)?;
                self.put_number(" status ", u64::from(*status))
            }
            Reply::Rows {
                columns,
                rows,
                status,
            } => self.put_result(columns.items(), rows.items(), *status, form),
        }
    }

    fn put_error(&mut self, error: &SqlError) -> Result<(), NoMemory> {
        self.put_number("", u64::from(error.code))?;
        self.put(" ")?;
        self.put_bytes(error.message.bytes())
    }

    fn put_result(
        &mut self,
        columns: &[ColumnDef],
        rows: &[TextRow],
        status: u16,
        form: Form,
    ) -> Result<(), NoMemory> {
        match form {
            Form::Columns { with_names } => self.put_columns(columns, with_names),
            Form::Rows => {
                self.put_names(columns)?;
                self.put(if rows.is_empty() { "" } else { " " })?;
                self.put_rows(rows, columns, ", ", " | ")
            }
            _ => {
                self.put(if rows.is_empty() { "no rows" } else { "rows " })?;
                self.put_rows(rows, &[], ",", ";")?;
                self.put_number(" status ", u64::from(status))
            }
        }
    }

    fn put_names(&mut self, columns: &[ColumnDef]) -> Result<(), NoMemory> {
        let mut between = "";
        for column in columns {
            self.put(between)?;
            self.put_bytes(column.name.bytes())?;
            between = ", ";
        }
        self.put(":")
    }

    /// Puts rows, with texts between two cells and two rows. Of columns that are given, texts stand in quotes.
    fn put_rows(
        &mut self,
        rows: &[TextRow],
        columns: &[ColumnDef],
        between_cells: &str,
        between_rows: &str,
    ) -> Result<(), NoMemory> {
        let mut between = "";
        for row in rows {
            self.put(between)?;
            for (place, cell) in row.items().iter().enumerate() {
                self.put(if place == 0 { "" } else { between_cells })?;
                self.put_cell(cell, columns.get(place))?;
            }
            between = between_rows;
        }
        Ok(())
    }

    fn put_cell(
        &mut self,
        cell: &Option<Text>,
        column: Option<&ColumnDef>,
    ) -> Result<(), NoMemory> {
        let quote = match column {
            Some(column) if column.kind == 253 => "'",
            _ => "",
        };
        match cell {
            Some(text) => {
                self.put(quote)?;
                self.put_bytes(text.bytes())?;
                self.put(quote)
            }
            None => self.put("NULL"),
        }
    }

    fn put_columns(&mut self, columns: &[ColumnDef], with_names: bool) -> Result<(), NoMemory> {
        let mut between = "";
        for column in columns {
            self.put(between)?;
            if with_names {
                for name in [&column.schema, &column.table, &column.org_table] {
                    self.put_bytes(name.bytes())?;
                    self.put(".")?;
                }
            }
            self.put_bytes(column.name.bytes())?;
            if with_names {
                self.put(".")?;
                self.put_bytes(column.org_name.bytes())?;
            }
            self.put_kind(column)?;
            between = " | ";
        }
        Ok(())
    }

    /// The kind of a column, its length and its flags, and its collation and its decimals where they aren't the usual ones.
    fn put_kind(&mut self, column: &ColumnDef) -> Result<(), NoMemory> {
        let (kind, charset) = match column.kind {
            8 => (" bigint ", 63),
            246 => (" decimal ", 63),
            253 => (" text ", 33),
            _ => (" other ", 63),
        };
        self.put_number(kind, u64::from(column.length))?;
        self.put_number(" flags ", u64::from(column.flags))?;
        if column.charset != charset {
            self.put_number(" charset ", u64::from(column.charset))?;
        }
        if column.decimals != 0 {
            self.put_number(" decimals ", u64::from(column.decimals))?;
        }
        Ok(())
    }
}

/// Whether it is the parser that refuses with this code.
fn is_refusal(code: u16) -> bool {
    code == 1064 || code == 1235 || code == 1116
}
