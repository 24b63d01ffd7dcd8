//! Statements that change rows.

ghost use Rattle.std.specs.Prelude.{◌≡◌};
ghost use Rattle.qc_sql.specs.Reading as meant;
ghost use Rattle.qc_sql.specs.Grammar as rule;
ghost use Rattle.qc_parse.specs.Cursors.{unread, Takes, Reads};
ghost use Rattle.qc_parse.specs.Rests.{insert_into, update_of};

use crate::cursor::Cursor;
use crate::halt::Halt;
use crate::lists::{Member, beside, followed, listed, listed_in_brackets};
use crate::literals::{literal, tuple};
use crate::names::{at_name, ends_value, name, table};
use crate::select::where_part;
use qc_sql::statements::{Assignment, Delete, Insert, Right, Statement, TableRef, Tuple, Update};
use qc_types::{Or, Text, Texts};
use std::alloc::Global;

/// `[( name {, name} )]`
#[tactic(auto, unfolding(qc_sql::specs::Grammar::names_part))]
fn names_part(alloc: Global, cursor: &mut Cursor<'_>) -> Result<Option<Texts>, Or<Halt>>
    ensures { Reads (λ x. x) result (unread cursor.new) (rule.names_part (unread cursor.old)) }
{
    if !cursor.at_sign(b"(") {
        return Ok(None);
    }
    Ok(Some(listed_in_brackets::<Text>(alloc, cursor)?))
}

#[tactic(auto, unfolding(qc_sql::specs::Grammar::insert))]
pub fn insert(alloc: Global, cursor: &mut Cursor<'_>) -> Result<Statement, Or<Halt>>
    ensures { Reads (λ x. x) result (unread cursor.new) (rule.insert (unread cursor.old)) }
{
    cursor.word(b"INSERT")?;
    cursor.word(b"INTO")?;
    let table = table(alloc, cursor)?;
    insert_into(alloc, cursor, table)
}

/// The rest of an INSERT, behind its table.
fn insert_into(
    alloc: Global,
    cursor: &mut Cursor<'_>,
    table: TableRef,
) -> Result<Statement, Or<Halt>>
    ensures { Reads (λ x. x) result (unread cursor.new) (insert_into table (unread cursor.old)) }
{
    let (table, names) = beside(table, names_part(alloc, cursor))?;
    let head = followed((table, names), cursor.word(b"VALUES"))?;
    let (head, rows) = beside(head, listed::<Tuple>(alloc, cursor))?;
    let (table, names) = head;
    Ok(Statement::Insert(Insert { table, names, rows }))
}

/// What UPDATE sets a column to: a literal, or another column.
#[tactic(auto, unfolding(qc_sql::specs::Grammar::right_side))]
fn right_side(alloc: Global, cursor: &mut Cursor<'_>) -> Result<Right, Or<Halt>>
    ensures { Reads (λ x. x) result (unread cursor.new) (rule.right_side (unread cursor.old)) }
{
    if !at_name(cursor) {
        return Ok(Right::Literal(literal(alloc, cursor)?));
    }
    let name = name(alloc, cursor)?;
    followed(Right::Column(name), ends_value(alloc, cursor))
}

/// `name = right`
#[tactic(auto, unfolding(qc_sql::specs::Grammar::assignment))]
fn assignment(alloc: Global, cursor: &mut Cursor<'_>) -> Result<Assignment, Or<Halt>>
    ensures { Reads (λ x. x) result (unread cursor.new) (rule.assignment (unread cursor.old)) }
{
    let name = name(alloc, cursor)?;
    let name = followed(name, cursor.sign(b"="))?;
    let (name, right) = beside(name, right_side(alloc, cursor))?;
    Ok(Assignment { name, right })
}

#[tactic(auto, unfolding(qc_sql::specs::Grammar::update))]
pub fn update(alloc: Global, cursor: &mut Cursor<'_>) -> Result<Statement, Or<Halt>>
    ensures { Reads (λ x. x) result (unread cursor.new) (rule.update (unread cursor.old)) }
{
    cursor.word(b"UPDATE")?;
    let table = table(alloc, cursor)?;
    update_of(alloc, cursor, table)
}

/// The rest of an UPDATE, behind its table.
fn update_of(alloc: Global, cursor: &mut Cursor<'_>, table: TableRef) -> Result<Statement, Or<Halt>>
    ensures { Reads (λ x. x) result (unread cursor.new) (update_of table (unread cursor.old)) }
{
    let table = followed(table, cursor.word(b"SET"))?;
    let (table, sets) = beside(table, listed::<Assignment>(alloc, cursor))?;
    let (head, cond) = beside((table, sets), where_part(alloc, cursor))?;
    let (table, sets) = head;
    Ok(Statement::Update(Update { table, sets, cond }))
}

#[tactic(auto, unfolding(qc_sql::specs::Grammar::delete))]
pub fn delete(alloc: Global, cursor: &mut Cursor<'_>) -> Result<Statement, Or<Halt>>
    ensures { Reads (λ x. x) result (unread cursor.new) (rule.delete (unread cursor.old)) }
{
    cursor.word(b"DELETE")?;
    cursor.word(b"FROM")?;
    let table = table(alloc, cursor)?;
    let (table, cond) = beside(table, where_part(alloc, cursor))?;
    Ok(Statement::Delete(Delete { table, cond }))
}

#[tactic(auto, unfolding(qc_sql::specs::Grammar::truncate))]
pub fn truncate(alloc: Global, cursor: &mut Cursor<'_>) -> Result<Statement, Or<Halt>>
    ensures { Reads (λ x. x) result (unread cursor.new) (rule.truncate (unread cursor.old)) }
{
    cursor.word(b"TRUNCATE")?;
    cursor.passed(b"TABLE");
    Ok(Statement::Truncate(table(alloc, cursor)?))
}

impl Member for Text {
    ghost use Rattle.qc_parse.specs.Rules.{shortens_name};

    ghost rule = { meant.name };

    ghost shortens = { shortens_name };

    fn read(alloc: Global, cursor: &mut Cursor<'_>) -> Result<Text, Or<Halt>> {
        name(alloc, cursor)
    }
}

impl Member for Tuple {
    ghost use Rattle.qc_parse.specs.Rules.{shortens_tuple};

    ghost rule = { rule.tuple };

    ghost shortens = { shortens_tuple };

    fn read(alloc: Global, cursor: &mut Cursor<'_>) -> Result<Tuple, Or<Halt>> {
        tuple(alloc, cursor)
    }
}

impl Member for Assignment {
    ghost use Rattle.qc_parse.specs.Rules.{shortens_assignment};

    ghost rule = { rule.assignment };

    ghost shortens = { shortens_assignment };

    fn read(alloc: Global, cursor: &mut Cursor<'_>) -> Result<Assignment, Or<Halt>> {
        assignment(alloc, cursor)
    }
}
