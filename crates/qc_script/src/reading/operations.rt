//! Operations on the database, from the commits of a report.

ghost use Rattle.std.specs.Prelude.{◌≡◌, IfOk};
ghost use Rattle.std.specs.List.{All};
ghost use Rattle.qc_types.specs.Answers.{Gives};
ghost use Rattle.qc_model.specs.ReportText.{table_text};
ghost use Rattle.qc_script.specs.Told as told;
ghost use Rattle.qc_script.specs.ShortNames.{MakesShortColumns};

use crate::reading::fields::{bytes, cut, members_of, signed, table};
use crate::reading::made::Made;
use crate::reading::misspelt::Misspelt;
use crate::reading::payloads::{columns, row};
use crate::reports::fields::put_table;
use qc_sql::tables::{Ops, RowOp};
use qc_types::{NoMemory, Or, OwnedList, TableName, Text};
use std::alloc::Global;

/// The operations of a commit, with a comma between two. Linear in the list, but for the tables that are looked up.
pub fn operations(alloc: Global, made: &mut Made, list: &[u8]) -> Result<Ops, Or<Misspelt>>
    ensures short { IfOk result (All MakesShortColumns) }
    ensures told { Gives (λ ops. (ops, made.new)) (λ e. e) result (told.ops_told made.old list.now) }
{
    let mut ops = OwnedList::new(alloc);
    for member in &members_of(alloc, list)? {
        ops.push(operation(alloc, made, member)?)?;
    }
    Ok(ops)
}

#[tactic(auto, unfolding(crate::specs::Told::op_told))]
fn operation(alloc: Global, made: &mut Made, text: &[u8]) -> Result<RowOp, Or<Misspelt>>
    ensures short { IfOk result MakesShortColumns }
    ensures told { Gives (λ op. (op, made.new)) (λ e. e) result (told.op_told made.old text.now) }
{
    let (word, rest) = cut(b':', text);
    if word == b"create".as_slice() {
        return create(alloc, made, rest);
    }
    Ok(change(alloc, made, word, rest)?)
}

/// An operation that makes no table, by its word.
#[tactic(auto, unfolding(crate::specs::Told::change_told))]
fn change(alloc: Global, made: &Made, word: &[u8], rest: &[u8]) -> Result<RowOp, Or<Misspelt>>
    ensures short { IfOk result MakesShortColumns }
    ensures told { Gives (λ op. op) (λ e. e) result (told.change_told made.now word.now rest.now) }
{
    if word == b"put".as_slice() {
        return put(alloc, made, rest);
    }
    if word == b"del".as_slice() {
        return del(alloc, rest);
    }
    if word == b"drop".as_slice() {
        return Ok(RowOp::DropTable(table(alloc, rest)?));
    }
    if word == b"createdb".as_slice() {
        return Ok(RowOp::CreateDb(bytes(alloc, rest)?));
    }
    if word == b"dropdb".as_slice() {
        return Ok(RowOp::DropDb(bytes(alloc, rest)?));
    }
    Err(Or::Other(Misspelt))
}

#[tactic(auto, unfolding(crate::specs::Told::put_told))]
fn put(alloc: Global, made: &Made, text: &[u8]) -> Result<RowOp, Or<Misspelt>>
    ensures short { IfOk result MakesShortColumns }
    ensures told { Gives (λ op. op) (λ e. e) result (told.put_told made.now text.now) }
{
    let (name, payload) = cut(b':', text);
    let target = table(alloc, name)?;
    let payload = bytes(alloc, payload)?;
    let name = spelt_name(alloc, &target)?;
    let row = row(alloc, made.kinds(name.bytes()), payload.bytes())?;
    Ok(RowOp::Put(target, row))
}

#[tactic(auto, unfolding(crate::specs::Told::del_told))]
fn del(alloc: Global, text: &[u8]) -> Result<RowOp, Or<Misspelt>>
    ensures short { IfOk result MakesShortColumns }
    ensures told { Gives (λ op. op) (λ e. e) result (told.del_told text.now) }
{
    let (name, key) = cut(b':', text);
    Ok(RowOp::Del(table(alloc, name)?, signed(key)?))
}

/// A table is made. The rows that are put into it are read by its columns from there on.
#[tactic(auto, unfolding(crate::specs::Told::create_told))]
fn create(alloc: Global, made: &mut Made, text: &[u8]) -> Result<RowOp, Or<Misspelt>>
    ensures short { IfOk result MakesShortColumns }
    ensures told { Gives (λ op. (op, made.new)) (λ e. e) result (told.create_told made.old text.now) }
{
    let (name, payload) = cut(b':', text);
    let payload = bytes(alloc, payload)?;
    let columns = columns(alloc, payload.bytes())?;
    let target = table(alloc, name)?;
    let name = spelt_name(alloc, &target)?;
    made.make(name.bytes(), &columns)?;
    Ok(RowOp::CreateTable(target, columns))
}

/// The name of a table, as a report spells it.
fn spelt_name(alloc: Global, table: &TableName) -> Result<Text, NoMemory>
    ensures { IfOk result (λ name. name ≡ table_text table.now) }
{
    let mut name = Text::of(alloc, &[])?;
    put_table(alloc, table, &mut name)?;
    Ok(name)
}
