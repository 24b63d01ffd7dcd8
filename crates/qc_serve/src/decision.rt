//! A SELECT is decided.

ghost use Rattle.std.specs.Prelude.{◌≡◌};
ghost use Rattle.qc_serve.specs.Asking as asking;

use crate::holding::share_base;
use crate::request::Request;
use qc_core::Server;
use qc_model::events::Who;
use qc_rules::Asked;
use qc_select::{Selected, run_select};
use qc_sql::statements::Select;
use qc_table::Database;
use qc_trx::SessionState;
use qc_turn::{Held, Task};
use qc_types::{NoMemory, Text};
use std::alloc::Global;
use std::mem::replace;

/// What was decided of a SELECT, and a share of the database that the journal makes before its event.
#[derive(Drop)]
pub(crate) struct Decision {
    pub(crate) selected: Selected,
    pub(crate) database: Database,
}

/// Decides a SELECT in the state in which it has arrived. The seat then streams the entry that answers it, or fills the one that was begun for it, or rests
/// again.
#[derive(Drop)]
pub(crate) struct Decide<'a> {
    pub(crate) alloc: Global,
    pub(crate) key: Text,
    pub(crate) select: &'a Select,
    pub(crate) asked: Asked,
    pub(crate) state: &'a SessionState,
}

impl Request for Decide<'_> {
    type Answer = Decision;

    ghost asks = { λ q s. asking.DecideAsks q.key q.select.now q.asked q.state.now s };

    ghost gives = { λ q s d now. asking.DecideGives q.key q.select.now q.asked q.state.now.state s d now };

    ghost keeps = { λ q d k. asking.DecideKeeps q.key d k };

    ghost leaves = { asking.task_decided };

    fn decide(
        &mut self,
        held: &mut Held<'_, Server>,
        who: Who,
    ) -> Result<(Decision, Task), NoMemory> {
        let database = share_base(held, who)?;
        let key = replace(&mut self.key, Text::from_vec(Vec::new(self.alloc)));
        let selected = run_select(
            held,
            self.alloc,
            who,
            key,
            self.select,
            self.asked,
            self.state,
        )?;
        let task = task_of(&selected);
        Ok((Decision { selected, database }, task))
    }

    ghost same = { λ q. tt };
}

/// The task of a seat after a SELECT was decided.
fn task_of(selected: &Selected) -> Task
    ensures { result ≡ asking.task_of selected.now }
{
    match selected {
        Selected::Hit(hit) => Task::Stream(hit.serial),
        Selected::Start { serial, .. } => Task::Fill(*serial),
        Selected::Plain { .. } => Task::Rest,
    }
}
