//! SELECT.

ghost use Rattle.std.specs.Prelude.{◌≡◌, take, drop, [], ◌∷◌, ◌++◌, option_to_list, IfOk};
ghost use Rattle.qc_sql.specs.Reading as meant;
ghost use Rattle.qc_sql.specs.Grammar as rule;
ghost use Rattle.qc_sql.specs.Grammar.{span_text};
ghost use Rattle.qc_parse.specs.Cursors.{unread, Takes, Reads};
ghost use Rattle.qc_parse.specs.Rests.{behind_sources};
ghost use Rattle.qc_parse.specs.Selects.{joined_view, behind_view};

use crate::conditions::{MOST_OPEN, condition};
use crate::cursor::Cursor;
use crate::halt::Halt;
use crate::lists::{Member, beside, followed, listed};
use crate::names::{at_name, column, name, number, table};
use crate::values::value;
use qc_lex::Ahead;
use qc_sql::statements::{
    Cond, Conds, Head, Item, Items, Limit, Order, Orders, Select, Source, Sources, Statement,
};
use qc_types::{NoMemory, Or, Text};
use std::alloc::Global;

/// How many tables may follow the first one in FROM.
const MOST_FURTHER: u8 = 7;

/// The most bytes of an item's text that are kept.
const MOST_WORDS: usize = 255;

/// `[[AS] name]`
#[tactic(auto, unfolding(qc_sql::specs::Grammar::alias))]
fn alias(alloc: Global, cursor: &mut Cursor<'_>) -> Result<Option<Text>, Or<Halt>>
    ensures { Reads (λ x. x) result (unread cursor.new) (rule.alias (unread cursor.old)) }
{
    if cursor.at_word(b"AS") {
        cursor.word(b"AS")?;
        return Ok(Some(name(alloc, cursor)?));
    }
    if at_name(cursor) {
        return Ok(Some(name(alloc, cursor)?));
    }
    Ok(None)
}

/// Where the next token begins; with none, where the last one ends.
fn place(cursor: &Cursor<'_>) -> u32
    ensures { result ≡ rule.place (unread cursor.now) }
{
    match cursor.ahead {
        Ahead::Token { from, .. } => from,
        _ => cursor.behind,
    }
}

/// At most so many bytes of a text.
fn prefix(text: &[u8], bytes: usize) -> &[u8]
    ensures { result.now ≡ take bytes text.now }
{
    text.get(..bytes).unwrap_or(text)
}

/// A text without so many bytes.
fn without_prefix(text: &[u8], bytes: usize) -> &[u8]
    ensures { result.now ≡ drop bytes text.now }
{
    text.get(bytes..).unwrap_or(&[])
}

/// The text of a span, up to 255 bytes of it.
fn span_text(text: &[u8], from: u32, to: u32) -> &[u8]
    ensures { result.now ≡ span_text from to text.now }
{
    let span = prefix(
        without_prefix(text, from as usize),
        to.saturating_sub(from) as usize,
    );
    prefix(span, MOST_WORDS)
}

/// An item: a value, with its span and text, and its name.
#[tactic(auto, unfolding(qc_sql::specs::Grammar::item))]
fn item(alloc: Global, cursor: &mut Cursor<'_>) -> Result<Item, Or<Halt>>
    ensures { Reads (λ x. x) result (unread cursor.new) (rule.item (unread cursor.old)) }
{
    let text = cursor.text;
    let from = place(cursor);
    let value = value(alloc, cursor, MOST_OPEN, true)?;
    let to = cursor.behind;
    let (value, name) = beside(value, alias(alloc, cursor))?;
    let words = Text::of(alloc, span_text(text, from, to));
    let (value, words) = beside(value, words)?;
    Ok(Item {
        value,
        name,
        from,
        to,
        words,
    })
}

/// A table of FROM, under its alias or its own name.
#[tactic(auto, unfolding(qc_sql::specs::Grammar::source))]
fn source(alloc: Global, cursor: &mut Cursor<'_>) -> Result<Source, Or<Halt>>
    ensures { Reads (λ x. x) result (unread cursor.new) (rule.source (unread cursor.old)) }
{
    let table = table(alloc, cursor)?;
    let name = match alias(alloc, cursor)? {
        Some(name) => name,
        None => table.name.copy(alloc)?,
    };
    Ok(Source { table, name })
}

/// Sees what is next, which may be no token.
#[tactic(auto, unfolding(qc_sql::specs::Grammar::look))]
pub fn look(cursor: &Cursor<'_>) -> Result<(), Halt>
    ensures { Takes (λ x. x) result (unread cursor.now) (rule.look (unread cursor.now)) }
{
    match cursor.ahead {
        Ahead::Refused(_) => Err(Halt::Unexpected),
        _ => Ok(()),
    }
}

/// The table of a source that is too many: always an error.
#[tactic(auto, unfolding(qc_sql::specs::Grammar::one_too_many))]
fn one_too_many(alloc: Global, cursor: &mut Cursor<'_>) -> Result<SoFar, Or<Halt>>
    ensures { Reads joined_view result (unread cursor.new) (rule.one_too_many (unread cursor.old)) }
{
    table(alloc, cursor)?;
    look(cursor)?;
    Err(Or::Other(Halt::TooManyTables))
}

/// Whether another source is next.
fn at_further(cursor: &Cursor<'_>) -> bool
    ensures { result ≡ rule.at_further (unread cursor.now) }
{
    cursor.at_sign(b",") || cursor.at_word(b"INNER") || cursor.at_word(b"JOIN")
}

/// `[INNER] JOIN`
#[tactic(auto, unfolding(qc_sql::specs::Grammar::join_words))]
fn join_words(cursor: &mut Cursor<'_>) -> Result<(), Halt>
    ensures { Takes (λ x. x) result (unread cursor.new) (rule.join_words (unread cursor.old)) }
{
    cursor.passed(b"INNER");
    cursor.word(b"JOIN")
}

/// Another source, with its condition where it is joined.
#[tactic(auto, unfolding(qc_sql::specs::Grammar::further_source))]
fn further_source(
    alloc: Global,
    cursor: &mut Cursor<'_>,
) -> Result<(Source, Option<Cond>), Or<Halt>>
    ensures { Reads (λ x. x) result (unread cursor.new) (rule.further_source (unread cursor.old)) }
{
    if cursor.at_sign(b",") {
        cursor.sign(b",")?;
        let source = source(alloc, cursor)?;
        return Ok((source, None));
    }
    join_words(cursor)?;
    let source = source(alloc, cursor)?;
    let source = followed(source, cursor.word(b"ON"))?;
    let (source, cond) = beside(source, condition(alloc, cursor))?;
    Ok((source, Some(cond)))
}

/// Another source where none may be: always an error.
#[tactic(auto, unfolding(qc_sql::specs::Grammar::too_many))]
fn too_many(alloc: Global, cursor: &mut Cursor<'_>) -> Result<SoFar, Or<Halt>>
    ensures { Reads joined_view result (unread cursor.new) (rule.too_many (unread cursor.old)) }
{
    if cursor.at_sign(b",") {
        cursor.sign(b",")?;
    } else {
        join_words(cursor)?;
    }
    one_too_many(alloc, cursor)
}

/// The sources so far, and the conditions of ON.
#[derive(Drop)]
struct SoFar {
    sources: Sources,
    conds: Conds,
}

/// Further sources, at most `most`, behind those so far.
#[tactic(auto, using(crate::proofs::Depth::joins_on), unfolding(qc_sql::specs::Grammar::joined))]
fn joined(
    alloc: Global,
    cursor: &mut Cursor<'_>,
    most: u8,
    so_far: SoFar,
) -> Result<SoFar, Or<Halt>>
    ensures { Reads joined_view result (unread cursor.new) (rule.joined most (joined_view so_far) (unread cursor.old)) }
{
    if !at_further(cursor) {
        return Ok(so_far);
    }
    if most == 0 {
        return too_many(alloc, cursor);
    }
    let (so_far, further) = beside(so_far, further_source(alloc, cursor))?;
    let (source, cond) = further;
    let joined_so_far = with_source(so_far, source, cond)?;
    joined(alloc, cursor, most - 1, joined_so_far)
}

/// One source more, and its condition if it has one.
fn with_source(so_far: SoFar, source: Source, cond: Option<Cond>) -> Result<SoFar, NoMemory>
    ensures { IfOk result (λ j. joined_view j ≡ rule.with_source (joined_view so_far) (source, cond)) }
{
    let SoFar { mut sources, conds } = with_cond(so_far, cond)?;
    sources.push(source)?;
    Ok(SoFar { sources, conds })
}

/// One condition more, if there is one.
fn with_cond(so_far: SoFar, cond: Option<Cond>) -> Result<SoFar, NoMemory>
    ensures sources { IfOk result (λ j. j.sources ≡ so_far.sources) }
    ensures conds { IfOk result (λ j. j.conds ≡ so_far.conds ++ option_to_list cond) }
{
    let SoFar { sources, mut conds } = so_far;
    if let Some(cond) = cond {
        conds.push(cond)?;
    }
    Ok(SoFar { sources, conds })
}

/// All of these hold: one by itself, and more as members of one AND.
fn all_conds(conds: Conds) -> Option<Cond>
    ensures { result ≡ rule.all_conds conds }
{
    let mut members = conds.into_vec();
    if members.len() > 1 {
        return Some(Cond::And(Conds::from_vec(members)));
    }
    members.pop()
}

/// A column of ORDER BY.
#[tactic(auto, unfolding(qc_sql::specs::Grammar::order))]
fn ordered(alloc: Global, cursor: &mut Cursor<'_>) -> Result<Order, Or<Halt>>
    ensures { Reads (λ x. x) result (unread cursor.new) (rule.order (unread cursor.old)) }
{
    let column = column(alloc, cursor)?;
    let desc = cursor.passed(b"DESC");
    if !desc && cursor.at_word(b"ASC") {
        cursor.pass();
    }
    Ok(Order { column, desc })
}

/// What stands behind LIMIT.
#[tactic(auto, unfolding(qc_sql::specs::Grammar::limit))]
fn limit(cursor: &mut Cursor<'_>) -> Result<Limit, Halt>
    ensures { Takes (λ x. x) result (unread cursor.new) (rule.limit (unread cursor.old)) }
{
    let first = number(cursor)?;
    if cursor.at_sign(b",") {
        cursor.sign(b",")?;
        let count = number(cursor)?;
        return Ok(Limit {
            offset: first,
            count,
        });
    }
    if cursor.at_word(b"OFFSET") {
        cursor.word(b"OFFSET")?;
        let offset = number(cursor)?;
        return Ok(Limit {
            offset,
            count: first,
        });
    }
    Ok(Limit {
        offset: 0,
        count: first,
    })
}

/// `[SQL_CACHE | SQL_NO_CACHE]`
#[tactic(auto, unfolding(qc_sql::specs::Grammar::cache_word))]
fn cache_word(cursor: &mut Cursor<'_>) -> Result<Head, Halt>
    ensures { Takes (λ x. x) result (unread cursor.new) (rule.cache_word (unread cursor.old)) }
{
    if cursor.passed(b"SQL_CACHE") {
        return Ok(Head::Cache);
    }
    if cursor.passed(b"SQL_NO_CACHE") {
        return Ok(Head::NoCache);
    }
    Ok(Head::Bare)
}

/// `*`, which is told, or the items.
#[tactic(auto, unfolding(qc_sql::specs::Grammar::items))]
fn items(alloc: Global, cursor: &mut Cursor<'_>) -> Result<(bool, Items), Or<Halt>>
    ensures { Reads (λ x. x) result (unread cursor.new) (rule.items (unread cursor.old)) }
{
    if cursor.at_sign(b"*") {
        cursor.sign(b"*")?;
        return Ok((true, Items::new(alloc)));
    }
    let items = listed::<Item>(alloc, cursor)?;
    Ok((false, items))
}

/// `[WHERE cond]`
#[tactic(auto, unfolding(qc_sql::specs::Grammar::where_part))]
pub fn where_part(alloc: Global, cursor: &mut Cursor<'_>) -> Result<Option<Cond>, Or<Halt>>
    ensures { Reads (λ x. x) result (unread cursor.new) (rule.where_part (unread cursor.old)) }
{
    if !cursor.at_word(b"WHERE") {
        return Ok(None);
    }
    cursor.word(b"WHERE")?;
    Ok(Some(condition(alloc, cursor)?))
}

/// `[ORDER BY order {, order}]`
#[tactic(auto, unfolding(qc_sql::specs::Grammar::order_part))]
fn order_part(alloc: Global, cursor: &mut Cursor<'_>) -> Result<Orders, Or<Halt>>
    ensures { Reads (λ x. x) result (unread cursor.new) (rule.order_part (unread cursor.old)) }
{
    if !cursor.at_word(b"ORDER") {
        return Ok(Orders::new(alloc));
    }
    cursor.word(b"ORDER")?;
    cursor.word(b"BY")?;
    listed::<Order>(alloc, cursor)
}

/// What FROM says: the tables, the condition and the order.
#[derive(Drop)]
struct Behind {
    sources: Sources,
    cond: Option<Cond>,
    order: Orders,
}

/// FROM with all that belongs to it.
#[tactic(auto, unfolding(qc_sql::specs::Grammar::from))]
fn from(alloc: Global, cursor: &mut Cursor<'_>) -> Result<Behind, Or<Halt>>
    ensures { Reads behind_view result (unread cursor.new) (rule.from (unread cursor.old)) }
{
    cursor.word(b"FROM")?;
    let first = source(alloc, cursor)?;
    let first = only_source(alloc, first)?;
    let so_far = joined(alloc, cursor, MOST_FURTHER, first)?;
    behind_sources(alloc, cursor, so_far)
}

/// The first source, with no condition.
fn only_source(alloc: Global, source: Source) -> Result<SoFar, NoMemory>
    ensures { IfOk result (λ j. joined_view j ≡ record { sources = source ∷ []; conds = [] }) }
{
    let mut sources = Sources::new(alloc);
    sources.push(source)?;
    let conds = Conds::new(alloc);
    Ok(SoFar { sources, conds })
}

/// The condition and the order, behind the sources.
fn behind_sources(alloc: Global, cursor: &mut Cursor<'_>, so_far: SoFar) -> Result<Behind, Or<Halt>>
    ensures { Reads behind_view result (unread cursor.new) (behind_sources (joined_view so_far) (unread cursor.old)) }
{
    let (so_far, cond) = beside(so_far, where_part(alloc, cursor))?;
    let so_far = with_cond(so_far, cond)?;
    let (so_far, order) = beside(so_far, order_part(alloc, cursor))?;
    let SoFar { sources, conds } = so_far;
    let cond = all_conds(conds);
    Ok(Behind {
        sources,
        cond,
        order,
    })
}

/// `[FROM ..]`
#[tactic(auto, unfolding(qc_sql::specs::Grammar::from_part))]
fn from_part(alloc: Global, cursor: &mut Cursor<'_>) -> Result<Behind, Or<Halt>>
    ensures { Reads behind_view result (unread cursor.new) (rule.from_part (unread cursor.old)) }
{
    if cursor.at_word(b"FROM") {
        return from(alloc, cursor);
    }
    Ok(Behind {
        sources: Sources::new(alloc),
        cond: None,
        order: Orders::new(alloc),
    })
}

/// `[LIMIT limit]`
#[tactic(auto, unfolding(qc_sql::specs::Grammar::limit_part))]
fn limit_part(cursor: &mut Cursor<'_>) -> Result<Option<Limit>, Halt>
    ensures { Takes (λ x. x) result (unread cursor.new) (rule.limit_part (unread cursor.old)) }
{
    if !cursor.at_word(b"LIMIT") {
        return Ok(None);
    }
    cursor.word(b"LIMIT")?;
    Ok(Some(limit(cursor)?))
}

/// `[FOR UPDATE | LOCK IN SHARE MODE]`, and whether it is there.
#[tactic(auto, unfolding(qc_sql::specs::Grammar::lock_part))]
fn lock_part(cursor: &mut Cursor<'_>) -> Result<bool, Halt>
    ensures { Takes (λ x. x) result (unread cursor.new) (rule.lock_part (unread cursor.old)) }
{
    if cursor.at_word(b"FOR") {
        cursor.word(b"FOR")?;
        cursor.word(b"UPDATE")?;
        return Ok(true);
    }
    if cursor.at_word(b"LOCK") {
        cursor.word(b"LOCK")?;
        cursor.word(b"IN")?;
        cursor.word(b"SHARE")?;
        cursor.word(b"MODE")?;
        return Ok(true);
    }
    Ok(false)
}

#[tactic(auto, unfolding(qc_sql::specs::Grammar::select))]
pub fn select(alloc: Global, cursor: &mut Cursor<'_>) -> Result<Statement, Or<Halt>>
    ensures { Reads (λ x. x) result (unread cursor.new) (rule.select (unread cursor.old)) }
{
    cursor.word(b"SELECT")?;
    let cache = cache_word(cursor)?;
    let (star, items) = items(alloc, cursor)?;
    let (items, behind) = beside(items, from_part(alloc, cursor))?;
    let (parts, limit) = beside((items, behind), limit_part(cursor))?;
    let (parts, lock) = beside(parts, lock_part(cursor))?;
    let (items, behind) = parts;
    let Behind {
        sources,
        cond,
        order,
    } = behind;
    Ok(Statement::Select(Select {
        cache,
        star,
        items,
        from: sources,
        cond,
        order,
        limit,
        lock,
    }))
}

impl Member for Item {
    ghost use Rattle.qc_parse.specs.Rules.{shortens_item};

    ghost rule = { rule.item };

    ghost shortens = { shortens_item };

    fn read(alloc: Global, cursor: &mut Cursor<'_>) -> Result<Item, Or<Halt>> {
        item(alloc, cursor)
    }
}

impl Member for Order {
    ghost use Rattle.qc_parse.specs.Rules.{shortens_order};

    ghost rule = { rule.order };

    ghost shortens = { shortens_order };

    fn read(alloc: Global, cursor: &mut Cursor<'_>) -> Result<Order, Or<Halt>> {
        ordered(alloc, cursor)
    }
}
