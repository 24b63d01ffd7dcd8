//! Maps from names.

ghost use Rattle.std.specs.Prelude.{◌≡◌, [], length, map, IfOk, OnOk, OnErr, option_copied};
ghost use Rattle.std.specs.Option.{option_copied_mut};
ghost use Rattle.std.specs.Borrow.{sem};
ghost use Rattle.std.specs.BTreeMap.{insert_entry, is_at};
ghost use Rattle.std.specs.List.Sorted.{IsStrictlySortedBy};
ghost use Rattle.std.specs.Map.{keys_of, remove_entry};
ghost use Rattle.qc_sql.specs.Database.{at_name, name_cmp};
ghost use Rattle.qc_table.specs.Borrowed.{borrows_value};
ghost use Rattle.qc_table.specs.Views.{table_in};

use qc_types::{NoMemory, TableName, Tables, Text};
use std::alloc::Global;
use std::collections::BTreeMap;
use std::marker::Model;

/// A map from names, by the order of their bytes. Contracts see its entries. Each call costs the logarithm of how many names it has.
#[derive(Drop)]
pub struct NameMap<V> {
    pub(crate) held: BTreeMap<Vec<u8>, V>,
}

impl<V> Model for NameMap<V> {
    ghost use Rattle.std.specs.Prelude.{List, ℕ, map};
    ghost use Rattle.std.specs.Coded.{coded_list, coded×, coded_ℕ};

    ghost Value = { List (List ℕ × V) };

    ghost coded = { coded_list (coded× (coded_list coded_ℕ) V.code) };

    ghost view = { λ m. map (λ e. (e.0.items, e.1)) m.held.entries };
}

impl<V: Drop> NameMap<V> {
    /// A map with no name.
    pub fn new(alloc: Global) -> NameMap<V>
        ensures { result ≡ [] }
    {
        NameMap {
            held: BTreeMap::new(alloc),
        }
    }

    /// A law, with no code: its names rise, each once.
    pub(crate) fn is_in_order(&self)
        ensures { IsStrictlySortedBy name_cmp (keys_of self.now) }
    {
        let _ = self.held.len();
    }

    /// How many names it has. Constant time.
    pub(crate) fn len(&self) -> u64
        ensures { result ≡ length self.now }
    {
        self.held.len() as u64
    }

    /// Its names as those of tables in a database, by rising name. Linear in what they hold.
    pub(crate) fn as_tables(&self, alloc: Global, db: &[u8]) -> Result<Tables, NoMemory>
        ensures { IfOk result (λ tables. tables ≡ map (table_in db.now) (keys_of self.now)) }
    {
        let mut tables = Tables::new(alloc);
        for (name, _) in &self.held {
            tables.push(table_name(alloc, db, name)?)?;
        }
        Ok(tables)
    }

    /// What the name has, where it has something.
    pub fn get(&self, name: &[u8]) -> Option<&V>
        ensures { option_copied result ≡ at_name name.now self.now }
    {
        self.held.get(name)
    }

    /// What the name has, where it has something, to be changed.
    pub fn get_mut(&mut self, name: &[u8]) -> Option<&mut V>
        ensures* writes_back { sem 𝓛 (borrows_value V.row self.entry name.now result) }
        ensures value { option_copied_mut result ≡ at_name name.now self.old }
    {
        self.held.get_mut(name)
    }

    /// Gives the name this value, in the place of the one that it may have. Where memory runs out, the map stays as it was.
    pub fn insert(&mut self, alloc: Global, name: &[u8], value: V) -> Result<(), NoMemory>
        ensures ok { OnOk result (self.new ≡ insert_entry name_cmp self.old name.now value) }
        ensures err { OnErr result (self.new ≡ self.old) }
    {
        let name = Vec::from_slice(alloc, name)?;
        self.held.insert(name, value)?;
        Ok(())
    }

    /// Takes out what the name may have.
    pub fn remove(&mut self, name: &[u8])
        ensures { self.new ≡ remove_entry (is_at (name_cmp name.now)) self.old }
    {
        let _ = self.held.remove(name);
    }
}

/// The whole name of a table.
pub(crate) fn table_name(alloc: Global, db: &[u8], name: &[u8]) -> Result<TableName, NoMemory>
    ensures { IfOk result (λ table. table ≡ table_in db.now name.now) }
{
    Ok(TableName {
        db: Text::of(alloc, db)?,
        name: Text::of(alloc, name)?,
    })
}
