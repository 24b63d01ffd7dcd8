//! The SELECTs that were parsed last.

ghost use Rattle.std.specs.Prelude.{◌≡◌, Ok, IfSome};
ghost use Rattle.qc_sql.specs.declared.statements.Statement.TheVariants as statement;
ghost use Rattle.qc_sql.specs.Grammar.{meaning};

use crate::parsed_select::ParsedSelect;
use qc_key::hash;
use std::alloc::Global;
use std::marker::Model;

/// The most SELECTs that are kept.
const MOST_SELECTS: usize = 16;

/// The SELECTs that were asked for last, at most 16. Contracts see nothing of it, since what it keeps changes no answer.
#[derive(Drop)]
pub struct ParsedSelects {
    /// Those that were asked for last stand at the end.
    kept: Vec<ParsedSelect>,
}

impl Model for ParsedSelects {
    ghost Value = { Unit {0} };

    ghost view = { λ p. tt };
}

impl ParsedSelects {
    /// None. Takes no memory yet.
    pub fn new(alloc: Global) -> ParsedSelects {
        ParsedSelects {
            kept: Vec::new(alloc),
        }
    }

    /// Takes the SELECT of a trimmed text out, with ANSI quotes on or off, where it is kept. Linear in the text.
    pub fn take(&mut self, text: &[u8], ansi: bool) -> Option<ParsedSelect>
        ensures { IfSome result (λ p. meaning text.now ansi ≡ Ok (statement.Select p)) }
    {
        let hash = hash(text);
        for at in 0..self.kept.len() {
            if self.kept[at].is_of(text, hash, ansi) {
                return Some(self.kept.remove(at));
            }
        }
        None
    }

    /// Keeps a SELECT, in place of the one that wasn't asked for longest where there are 16. Where memory lacks, it is dropped.
    pub fn keep(&mut self, parsed: ParsedSelect) {
        if self.kept.len() >= MOST_SELECTS {
            self.kept.remove(0);
        }
        let _ = self.kept.push(parsed);
    }
}
