//! A hit is looked for.

ghost use Rattle.std.specs.Prelude.{◌≡◌, IfOk};
ghost use Rattle.qc_serve.specs.Asking as asking;
ghost use Rattle.qc_serve.specs.Asking.{Shares};
ghost use Rattle.qc_serve.specs.Seats.{IsReady, IsSameSeat};

use crate::holding::share_base;
use crate::request::Request;
use qc_core::{Hit, Server, look};
use qc_model::events::Who;
use qc_table::Database;
use qc_trx::SessionState;
use qc_turn::{Held, Task};
use qc_types::NoMemory;

/// A hit that a seat streams, and a share of the database that the journal makes before its event, where the session takes its snapshot there.
#[derive(Drop)]
pub(crate) struct Found {
    pub(crate) hit: Hit,
    pub(crate) database: Option<Database>,
}

/// Looks for a complete entry of the key that the session may see. Where there is one, the seat streams it; else it rests again.
#[derive(Clone, Copy)]
pub(crate) struct Lookup<'a> {
    pub(crate) key: &'a [u8],
    pub(crate) state: &'a SessionState,
}

impl Request for Lookup<'_> {
    type Answer = Option<Found>;

    ghost asks = { λ q s. asking.LookAsks q.state.now.state s };

    ghost gives = { λ q s o now. asking.LookGives s q.key.now q.state.now.state o now };

    ghost keeps = { λ q o k. asking.LookKeeps q.key.now o k };

    ghost leaves = { asking.task_found };

    fn decide(
        &mut self,
        held: &mut Held<'_, Server>,
        who: Who,
    ) -> Result<(Option<Found>, Task), NoMemory> {
        let database = share_for(held, who, self.state)?;
        match look(held, who, self.key, self.state) {
            Some(hit) => {
                let task = Task::Stream(hit.serial);
                Ok((Some(Found { hit, database }), task))
            }
            None => Ok((None, Task::Rest)),
        }
    }

    ghost same = { λ q. tt };
}

/// A share of the database for a session that takes its snapshot now, and none for another, since a share is counted in memory that all threads write.
/// Nothing changes.
fn share_for(
    held: &mut Held<'_, Server>,
    who: Who,
    state: &SessionState,
) -> Result<Option<Database>, NoMemory>
    requires { IsReady who held.old }
    ensures ready { IsReady who held.new × IsSameSeat held.old held.new × (held.new.value ≡ held.old.value) }
    ensures shares { IfOk result (Shares held.old.value.journal.events state.now.state) }
{
    if !takes_snapshot(state) {
        return Ok(None);
    }
    let database = share_base(held, who)?;
    Ok(Some(database))
}

/// Whether a session takes a snapshot where it reads rows: its transaction, which is open or opens then, has none.
fn takes_snapshot(state: &SessionState) -> bool
    ensures { result ≡ asking.takes_snapshot state.now.state }
{
    let flags = state.flags();
    (flags.in_trans || !flags.autocommit) && state.snapshot().is_none()
}
