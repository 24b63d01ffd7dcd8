//! Lists with commas.

ghost use Rattle.std.specs.Prelude.{◌≡◌, [], ◌∷◌, ◌++◌, IfOk, Result};
ghost use Rattle.qc_sql.specs.Reading as meant;
ghost use Rattle.qc_sql.specs.Reading.{Unread, Stop};
ghost use Rattle.qc_sql.specs.Grammar as rule;
ghost use Rattle.qc_parse.specs.Cursors.{unread, Takes, Reads, beside};
ghost use Rattle.qc_parse.specs.Rests.{followed};
ghost use Rattle.qc_parse.specs.Shorter.{Shortens};

use crate::cursor::Cursor;
use crate::halt::{Halt, unsupported};
use qc_types::{NoMemory, Or, OwnedList};
use std::alloc::Global;

/// What stands in a list with a comma between each two.
pub trait Member: Drop {
    /// How it is read.
    ghost rule: { Unread → Result (Self × Unread) Stop };

    /// It gives no tokens back.
    ghost shortens: { Shortens rule };

    /// Takes one.
    fn read(alloc: Global, cursor: &mut Cursor<'_>) -> Result<Self, Or<Halt>>
        ensures { Reads (λ x. x) result (unread cursor.new) (rule (unread cursor.old)) };
}

/// One or more, with a comma between each two. Linear in their number, beside what each of them costs.
pub fn listed<T: Member>(alloc: Global, cursor: &mut Cursor<'_>) -> Result<OwnedList<T>, Or<Halt>>
    ensures { Reads (λ x. x) result (unread cursor.new) (meant.listed T.rule (unread cursor.old)) }
{
    let first = T::read(alloc, cursor)?;
    let mut members = with_member(OwnedList::new(alloc), first)?;
    'commas: while cursor.at_sign(b",") {
        cursor.pass();
        let (so_far, next) = beside(members, T::read(alloc, cursor))?;
        members = with_member(so_far, next)?;
    }
    Ok(members)
}

/// One or more in brackets, with a comma between each two.
pub fn listed_in_brackets<T: Member>(
    alloc: Global,
    cursor: &mut Cursor<'_>,
) -> Result<OwnedList<T>, Or<Halt>>
    ensures { Reads (λ x. x) result (unread cursor.new) (meant.bracketed (meant.listed T.rule) (unread cursor.old)) }
{
    open_bracket(alloc, cursor)?;
    let members = listed::<T>(alloc, cursor)?;
    Ok(closed(cursor, members)?)
}

/// Takes an opening bracket, with no SELECT behind it.
#[tactic(auto, unfolding(qc_sql::specs::Reading::opened))]
pub fn open_bracket(alloc: Global, cursor: &mut Cursor<'_>) -> Result<(), Or<Halt>>
    ensures { Reads (λ x. x) result (unread cursor.new) (meant.opened (unread cursor.old)) }
{
    cursor.sign(b"(")?;
    if cursor.at_word(b"SELECT") {
        return Err(unsupported(alloc, b"subquery"));
    }
    Ok(())
}

/// Takes the closing bracket behind what stands inside.
#[inline(never)]
pub fn closed<T: Drop>(cursor: &mut Cursor<'_>, inside: T) -> Result<T, Halt>
    ensures { Takes (λ x. x) result (unread cursor.new) (meant.closes inside (unread cursor.old)) }
{
    followed(inside, cursor.sign(b")"))
}

/// A bracket that would be one too many open. Always an error.
pub fn too_deep<T>(alloc: Global, cursor: &mut Cursor<'_>) -> Result<T, Or<Halt>>
    ensures { Reads (λ x. x) result (unread cursor.new) (rule.too_deep (unread cursor.old)) }
{
    cursor.sign(b"(")?;
    Err(unsupported(alloc, b"nesting"))
}

/// What was read before, beside what a reader gives now; where it stops, only why.
pub fn beside<T: Drop, U, E>(before: T, now: Result<U, E>) -> Result<(T, U), E>
    ensures { result ≡ beside before now }
{
    match now {
        Ok(now) => Ok((before, now)),
        Err(why) => Err(why),
    }
}

/// What was read before, where what follows it is there too; where it isn't, only why.
pub fn followed<T: Drop, E>(before: T, now: Result<(), E>) -> Result<T, E>
    ensures { result ≡ followed before now }
{
    match now {
        Ok(()) => Ok(before),
        Err(why) => Err(why),
    }
}

/// A list with one member more.
pub fn with_member<T: Drop>(members: OwnedList<T>, member: T) -> Result<OwnedList<T>, NoMemory>
    ensures { IfOk result (λ ms. ms ≡ members ++ member ∷ []) }
{
    let mut members = members;
    members.push(member)?;
    Ok(members)
}
