//! SHOW STATUS.

ghost use Rattle.std.specs.Prelude.{◌≡◌};
ghost use Rattle.qc_model.specs.declared.events.Event.TheVariants as event;
ghost use Rattle.qc_model.specs.declared.events.How.TheVariants as how;
ghost use Rattle.qc_model.specs.Cache.{counters};
ghost use Rattle.qc_serve.specs.Holding.{HasOne, next_in};

use crate::request::Request;
use qc_core::{Server, status};
use qc_model::events::{Counters, Who};
use qc_turn::{Held, Task};
use qc_types::{NoMemory, Totals};

/// What SHOW STATUS is told: the number of its event, the counters before it, and the totals of the blocks.
#[derive(Clone, Copy)]
pub(crate) struct ToldStatus {
    pub(crate) place: u64,
    pub(crate) counters: Counters,
    pub(crate) totals: Totals,
}

/// SHOW STATUS.
#[derive(Clone, Copy)]
pub(crate) struct ShowStatus;

impl Request for ShowStatus {
    type Answer = ToldStatus;

    ghost gives = { λ q s told now. HasOne s told.place now (λ journal e. (e ≡ event.Run (next_in s) (how.Status told.totals)) × (told.counters ≡ counters journal)) };

    fn decide(
        &mut self,
        held: &mut Held<'_, Server>,
        who: Who,
    ) -> Result<(ToldStatus, Task), NoMemory> {
        let (place, counters, totals) = status(held, who);
        let told = ToldStatus {
            place,
            counters,
            totals,
        };
        Ok((told, Task::Rest))
    }

    ghost same = { λ q. tt };
}
