//! Commands that change no data.

ghost use Rattle.std.specs.Prelude.{◌≡◌};
ghost use Rattle.qc_model.specs.declared.events.Event.TheVariants as event;
ghost use Rattle.qc_model.specs.declared.events.How.TheVariants as how;
ghost use Rattle.qc_serve.specs.Ends.{Makes};
ghost use Rattle.qc_serve.specs.Holding.{HasOne, next_in};

use crate::holding::share_base;
use crate::request::Request;
use qc_core::{Server, flush, note, reset};
use qc_model::events::{How, Who};
use qc_table::Database;
use qc_turn::{Held, Task};
use qc_types::NoMemory;

/// A command that changes no data. It is answered the number of its event.
#[derive(Clone, Copy)]
pub(crate) enum Note {
    /// FLUSH QUERY CACHE.
    Flush,
    /// RESET QUERY CACHE, and FLUSH TABLES.
    Reset,
    /// Any other.
    Other,
}

impl Request for Note {
    ghost use Rattle.qc_serve.specs.Notes.{noted};

    type Answer = u64;

    ghost gives = { λ q s place now. HasOne s place now (λ journal e. e ≡ noted q (next_in s)) };

    fn decide(&mut self, held: &mut Held<'_, Server>, who: Who) -> Result<(u64, Task), NoMemory> {
        match *self {
            Note::Flush => Ok((flush(held, who), Task::Rest)),
            Note::Reset => Ok((reset(held, who), Task::Rest)),
            Note::Other => Ok((note(held, who, How::Other), Task::Rest)),
        }
    }

    ghost same = { λ q. tt };
}

/// Any other command that changes no data. It is answered the number of its event, and a share of the database that the journal makes before it.
#[derive(Clone, Copy)]
pub(crate) struct SharingNote;

impl Request for SharingNote {
    type Answer = (u64, Database);

    ghost gives = { λ q s r now. HasOne s r.0 now (λ journal e. (e ≡ event.Run (next_in s) how.Other) × Makes journal r.1) };

    fn decide(
        &mut self,
        held: &mut Held<'_, Server>,
        who: Who,
    ) -> Result<((u64, Database), Task), NoMemory> {
        let database = share_base(held, who)?;
        let place = note(held, who, How::Other);
        Ok(((place, database), Task::Rest))
    }

    ghost same = { λ q. tt };
}
