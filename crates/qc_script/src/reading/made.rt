//! The columns with which tables were last made.

ghost use Rattle.std.specs.Prelude.{◌≡◌, [], map, IfOk, OnOk};
ghost use Rattle.qc_script.specs.Told.{kinds_at, made_with};

use qc_sql::tables::{Column, Columns, Kind};
use qc_types::NoMemory;
use std::alloc::Global;
use std::collections::BTreeMap;
use std::marker::Model;

/// Of each table that was made so far, by its name as a report spells it, the kinds of its columns when it was last made.
#[derive(Drop)]
pub struct Made {
    alloc: Global,
    held: BTreeMap<Vec<u8>, Vec<Kind>>,
}

impl Model for Made {
    ghost use Rattle.std.specs.Prelude.{map};
    ghost use Rattle.std.specs.Coded.{coded_list, coded×, coded_ℕ};
    ghost use Rattle.qc_script.specs.Told.{KindsMade};

    ghost Value = { KindsMade };

    ghost view = { λ m. map (λ e. (e.0.items, e.1.items)) m.held.entries };
}

impl Made {
    /// No table so far.
    pub fn new(alloc: Global) -> Made
        ensures { result ≡ [] }
    {
        Made {
            alloc,
            held: BTreeMap::new(alloc),
        }
    }

    /// The kinds of a table's columns, of which there are none where the table wasn't made. Logarithmic in the number of tables.
    pub fn kinds(&self, table: &[u8]) -> &[Kind]
        ensures { result.now ≡ kinds_at table.now self.now }
    {
        match self.held.get(table) {
            Some(kinds) => kinds.as_slice(),
            None => &[],
        }
    }

    /// A table is made with these columns.
    pub fn make(&mut self, table: &[u8], columns: &Columns) -> Result<(), NoMemory>
        ensures { OnOk result (self.new ≡ made_with table.now columns.now self.old) }
    {
        let kinds = kinds_of(self.alloc, columns.items())?;
        let name = Vec::from_slice(self.alloc, table)?;
        self.held.insert(name, kinds)?;
        Ok(())
    }
}

fn kinds_of(alloc: Global, columns: &[Column]) -> Result<Vec<Kind>, NoMemory>
    ensures { IfOk result (λ kinds. kinds.items ≡ map (λ c. c.kind) columns.now) }
{
    let mut kinds = Vec::new(alloc);
    for column in columns {
        kinds.push(column.kind)?;
    }
    Ok(kinds)
}
