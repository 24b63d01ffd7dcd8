//! Statements that make and drop tables and databases.

ghost use Rattle.std.specs.Prelude.{◌≡◌, is_some};
ghost use Rattle.qc_sql.specs.Reading as meant;
ghost use Rattle.qc_sql.specs.Grammar as rule;
ghost use Rattle.qc_parse.specs.Cursors.{unread, Takes, Reads};

use crate::cursor::Cursor;
use crate::halt::{Halt, halted, unsupported};
use crate::lists::{Member, beside, closed, followed, listed_in_brackets, open_bracket};
use crate::names::{name, number, table};
use crate::words::is_reserved;
use qc_lex::{Ahead, Lexeme};
use qc_sql::statements::{Part, PartKind, Statement};
use qc_sql::words::in_capitals;
use qc_types::Or;
use std::alloc::Global;

/// Whether a word is next, whatever it is.
pub fn at_any_word(cursor: &Cursor<'_>) -> bool
    ensures { result ≡ meant.next_is (λ l. is_some (meant.word_in l)) (unread cursor.now) }
{
    matches!(
        cursor.ahead,
        Ahead::Token {
            what: Lexeme::Word(_),
            ..
        }
    )
}

/// Whether a token is next, whatever it is.
pub fn at_token(cursor: &Cursor<'_>) -> bool
    ensures { result ≡ meant.at_token (unread cursor.now) }
{
    matches!(cursor.ahead, Ahead::Token { .. })
}

/// What is next isn't supported, whatever it is; at the end nothing goes on. Always an error.
pub fn refuse_any<T>(alloc: Global, cursor: &Cursor<'_>, what: &[u8]) -> Result<T, Or<Halt>>
    ensures { Reads (λ x. x) result (unread cursor.now) (meant.refuse_any what.now (unread cursor.now)) }
{
    if at_token(cursor) {
        return Err(unsupported(alloc, what));
    }
    Err(Or::Other(Halt::Unexpected))
}

/// A column type but the two: a word that can be a name isn't supported. Always an error.
#[tactic(auto, unfolding(qc_sql::specs::Grammar::other_type))]
fn other_type(alloc: Global, cursor: &mut Cursor<'_>) -> Result<PartKind, Or<Halt>>
    ensures { Reads (λ x. x) result (unread cursor.new) (rule.other_type (unread cursor.old)) }
{
    let Ahead::Token {
        what: Lexeme::Word(word),
        ..
    } = cursor.ahead
    else {
        return Err(Or::Other(Halt::Unexpected));
    };
    if is_reserved(word) {
        return Err(Or::Other(Halt::Unexpected));
    }
    Err(halted(in_capitals(alloc, word)))
}

/// The length of a VARCHAR, in brackets.
#[tactic(auto, unfolding(qc_sql::specs::Grammar::length_part))]
fn length_part(alloc: Global, cursor: &mut Cursor<'_>) -> Result<u64, Or<Halt>>
    ensures { Reads (λ x. x) result (unread cursor.new) (rule.length_part (unread cursor.old)) }
{
    open_bracket(alloc, cursor)?;
    let length = number(cursor)?;
    Ok(closed(cursor, length)?)
}

/// `BIGINT | VARCHAR ( number )`
#[tactic(auto, unfolding(qc_sql::specs::Grammar::part_kind))]
fn part_kind(alloc: Global, cursor: &mut Cursor<'_>) -> Result<PartKind, Or<Halt>>
    ensures { Reads (λ x. x) result (unread cursor.new) (rule.part_kind (unread cursor.old)) }
{
    if cursor.at_word(b"BIGINT") {
        cursor.word(b"BIGINT")?;
        return Ok(PartKind::BigInt);
    }
    if cursor.at_word(b"VARCHAR") {
        cursor.word(b"VARCHAR")?;
        return Ok(PartKind::VarChar(length_part(alloc, cursor)?));
    }
    other_type(alloc, cursor)
}

/// `[NOT NULL | NULL]`, and whether it is the first.
#[tactic(auto, unfolding(qc_sql::specs::Grammar::null_part))]
fn null_part(cursor: &mut Cursor<'_>) -> Result<bool, Halt>
    ensures { Takes (λ x. x) result (unread cursor.new) (rule.null_part (unread cursor.old)) }
{
    if cursor.at_word(b"NOT") {
        cursor.word(b"NOT")?;
        cursor.word(b"NULL")?;
        return Ok(true);
    }
    cursor.passed(b"NULL");
    Ok(false)
}

/// `PRIMARY KEY`
#[tactic(auto, unfolding(qc_sql::specs::Grammar::primary_key))]
fn primary_key(cursor: &mut Cursor<'_>) -> Result<(), Halt>
    ensures { Takes (λ x. x) result (unread cursor.new) (rule.primary_key (unread cursor.old)) }
{
    cursor.word(b"PRIMARY")?;
    cursor.word(b"KEY")
}

/// `[PRIMARY KEY]`, and whether it is there.
#[tactic(auto, unfolding(qc_sql::specs::Grammar::key_part))]
fn key_part(cursor: &mut Cursor<'_>) -> Result<bool, Halt>
    ensures { Takes (λ x. x) result (unread cursor.new) (rule.key_part (unread cursor.old)) }
{
    if !cursor.at_word(b"PRIMARY") {
        return Ok(false);
    }
    primary_key(cursor)?;
    Ok(true)
}

/// The key as a part of its own: `PRIMARY KEY ( name )`.
#[tactic(auto, unfolding(qc_sql::specs::Grammar::key_of_table))]
fn key_of_table(alloc: Global, cursor: &mut Cursor<'_>) -> Result<Part, Or<Halt>>
    ensures { Reads (λ x. x) result (unread cursor.new) (rule.key_of_table (unread cursor.old)) }
{
    primary_key(cursor)?;
    open_bracket(alloc, cursor)?;
    let name = name(alloc, cursor)?;
    Ok(Part::Primary(closed(cursor, name)?))
}

/// A column: `name type [NOT NULL | NULL] [PRIMARY KEY]`.
#[tactic(auto, unfolding(qc_sql::specs::Grammar::column_part))]
fn column_part(alloc: Global, cursor: &mut Cursor<'_>) -> Result<Part, Or<Halt>>
    ensures { Reads (λ x. x) result (unread cursor.new) (rule.column_part (unread cursor.old)) }
{
    let name = name(alloc, cursor)?;
    let kind = part_kind(alloc, cursor)?;
    let not_null = null_part(cursor)?;
    let primary = key_part(cursor)?;
    Ok(Part::Column {
        name,
        kind,
        not_null,
        primary,
    })
}

/// A part of CREATE TABLE.
#[tactic(auto, unfolding(qc_sql::specs::Grammar::part))]
fn table_part(alloc: Global, cursor: &mut Cursor<'_>) -> Result<Part, Or<Halt>>
    ensures { Reads (λ x. x) result (unread cursor.new) (rule.part (unread cursor.old)) }
{
    if cursor.at_word(b"PRIMARY") {
        return key_of_table(alloc, cursor);
    }
    column_part(alloc, cursor)
}

/// No word stands behind the closing bracket of CREATE TABLE.
#[tactic(auto, unfolding(qc_sql::specs::Grammar::no_option))]
fn no_option(alloc: Global, cursor: &Cursor<'_>) -> Result<(), Or<Halt>>
    ensures { Reads (λ x. x) result (unread cursor.now) (rule.no_option (unread cursor.now)) }
{
    if at_any_word(cursor) {
        return Err(unsupported(alloc, b"table option"));
    }
    Ok(())
}

/// CREATE TABLE, behind CREATE.
#[tactic(auto, unfolding(qc_sql::specs::Grammar::create_table))]
fn create_table(alloc: Global, cursor: &mut Cursor<'_>) -> Result<Statement, Or<Halt>>
    ensures { Reads (λ x. x) result (unread cursor.new) (rule.create_table (unread cursor.old)) }
{
    cursor.word(b"TABLE")?;
    let table = table(alloc, cursor)?;
    let (table, parts) = beside(table, listed_in_brackets::<Part>(alloc, cursor))?;
    let statement = Statement::CreateTable(table, parts);
    followed(statement, no_option(alloc, cursor))
}

#[tactic(auto, unfolding(qc_sql::specs::Grammar::create))]
pub fn create(alloc: Global, cursor: &mut Cursor<'_>) -> Result<Statement, Or<Halt>>
    ensures { Reads (λ x. x) result (unread cursor.new) (rule.create (unread cursor.old)) }
{
    cursor.word(b"CREATE")?;
    if cursor.at_word(b"DATABASE") {
        cursor.word(b"DATABASE")?;
        return Ok(Statement::CreateDb(name(alloc, cursor)?));
    }
    if cursor.at_word(b"TABLE") {
        return create_table(alloc, cursor);
    }
    refuse_any(alloc, cursor, b"CREATE")
}

#[tactic(auto, unfolding(qc_sql::specs::Grammar::dropped))]
pub fn dropped(alloc: Global, cursor: &mut Cursor<'_>) -> Result<Statement, Or<Halt>>
    ensures { Reads (λ x. x) result (unread cursor.new) (rule.dropped (unread cursor.old)) }
{
    cursor.word(b"DROP")?;
    if cursor.at_word(b"DATABASE") {
        cursor.word(b"DATABASE")?;
        return Ok(Statement::DropDb(name(alloc, cursor)?));
    }
    if cursor.at_word(b"TABLE") {
        cursor.word(b"TABLE")?;
        return Ok(Statement::DropTable(table(alloc, cursor)?));
    }
    refuse_any(alloc, cursor, b"DROP")
}

impl Member for Part {
    ghost use Rattle.qc_parse.specs.Rules.{shortens_part};

    ghost rule = { rule.part };

    ghost shortens = { shortens_part };

    fn read(alloc: Global, cursor: &mut Cursor<'_>) -> Result<Part, Or<Halt>> {
        table_part(alloc, cursor)
    }
}
