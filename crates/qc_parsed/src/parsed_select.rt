//! A SELECT and its text.

ghost use Rattle.std.specs.Prelude.{◌≡◌, true, Ok, IfSome};
ghost use Rattle.qc_sql.specs.declared.statements.Statement.TheVariants as statement;
ghost use Rattle.qc_sql.specs.Grammar.{meaning};

use qc_key::hash;
use qc_sql::statements::Select;
use qc_types::{Boxed, Text};
use std::alloc::Global;
use std::marker::Model;

/// The most bytes of a text that is kept.
const MOST_BYTES: usize = 4_096;

/// A SELECT with the text that it was parsed from. Contracts see the SELECT.
#[derive(Drop)]
pub struct ParsedSelect {
    text: Text,
    /// The text's, which tells most others apart at once.
    hash: u64,
    ansi: bool,
    select: Boxed<Select>,
}

impl Model for ParsedSelect {
    ghost use Rattle.std.specs.Prelude.{◌≡◌, Ok};
    ghost use Rattle.std.specs.Coded.{codes};
    ghost use Rattle.qc_sql.specs.contracts.statements.Select as selects;
    ghost use Rattle.qc_sql.specs.declared.statements.Select.{Select};
    ghost use Rattle.qc_sql.specs.declared.statements.Statement.TheVariants as statement;
    ghost use Rattle.qc_sql.specs.Grammar.{meaning};

    ghost Value = { Select };

    ghost coded = { Prim.hlevel (codes, selects.the_row.coded) };

    ghost view = { λ p. p.select };

    ghost invariant = { λ p. meaning p.text p.ansi ≡ Ok (statement.Select p.select) };
}

impl ParsedSelect {
    /// The SELECT that a trimmed text means, with ANSI quotes on or off, with a copy of the text. None: the text has more than 4,096 bytes, or memory lacks.
    /// Linear in the text.
    pub fn of(alloc: Global, text: &[u8], ansi: bool, select: Select) -> Option<ParsedSelect>
        requires means { meaning text.now ansi ≡ Ok (statement.Select select) }
        ensures { IfSome result (λ p. p ≡ select) }
    {
        let hash = hash(text);
        let select = Boxed::new(alloc, select).ok();
        let (text, select) = kept_text(alloc, text).zip(select)?;
        Some(ParsedSelect {
            text,
            hash,
            ansi,
            select,
        })
    }

    /// Whether it is what this trimmed text with this hash means, with ANSI quotes on or off, as the same text was parsed. Constant time where the hash is
    /// another, and else linear in the text.
    pub fn is_of(&self, text: &[u8], hash: u64, ansi: bool) -> bool
        ensures { result ≡ true → meaning text.now ansi ≡ Ok (statement.Select self.now) }
    {
        self.hash == hash && self.ansi == ansi && self.text.bytes() == text
    }

    /// The SELECT.
    pub fn select(&self) -> &Select
        ensures { result.now ≡ self.now }
    {
        self.select.get()
    }
}

/// A copy of a text that isn't too long. None where memory lacks, too.
fn kept_text(alloc: Global, text: &[u8]) -> Option<Text>
    ensures { IfSome result (λ t. t ≡ text.now) }
{
    if text.len() > MOST_BYTES {
        return None;
    }
    Text::of(alloc, text).ok()
}
