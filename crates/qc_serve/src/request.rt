//! What a session asks in one holding of the turn.

use qc_core::Server;
use qc_model::events::Who;
use qc_turn::{Held, Task};
use qc_types::NoMemory;

/// What a session asks in one holding of the turn.
pub(crate) trait Request {
    ghost use Rattle.std.specs.Prelude.{◌≡◌, IfOk, OnErr};
    ghost use Rattle.qc_model.specs.declared.events.Event.{Event};
    ghost use Rattle.qc_model.specs.Journal.{Journal};
    ghost use Rattle.qc_turn.specs.declared.task.Task.{Task};
    ghost use Rattle.qc_turn.specs.declared.task.Task.TheVariants as task;
    ghost use Rattle.qc_turn.specs.Seats.{Held, holder};
    ghost use Rattle.qc_core.specs.contracts.server.ServerKept.TheImpl.{ghosts};
    ghost use Rattle.qc_core.specs.declared.server_state.ServerState.{ServerState};
    ghost use Rattle.qc_serve.specs.Holding.{IsPrepared, Standing, TurnsHeld, next_task, standing_in};
    ghost use Rattle.qc_serve.specs.Seats.{GoesOn};

    /// What it is answered.
    type Answer;

    /// What it asks of where the session stands.
    ghost asks: { Self → Standing → Type 0 } = { λ _ _. Unit {0} };

    /// What the answer says, by where the session stood, of the journal that it sees now.
    ghost gives: { Self → Standing → Self.Answer → Journal → Type 0 };

    /// What the answer says of the holding that is given back.
    ghost keeps: { Self → Self.Answer → Held ServerState Event ghosts → Type 0 } = { λ _ _ _. Unit {0} };

    /// What the request itself is after an answer: the one before, and the one then.
    ghost becomes: { Self → Self.Answer → Self → Type 0 } = { λ _ _ _. Unit {0} };

    /// And where memory lacks.
    ghost fails: { Self → Self → Type 0 } = { λ _ _. Unit {0} };

    /// What the seat goes on with.
    ghost leaves: { Self.Answer → Task } = { λ _. task.Rest };

    /// Decides under the turn, by a seat that is ready for its next event, and says what the seat goes on with. The one error is want of memory, and then no
    /// event comes.
    fn decide(
        &mut self,
        held: &mut Held<'_, Server>,
        who: Who,
    ) -> Result<(Self::Answer, Task), NoMemory>
        requires prepared { IsPrepared who held.old }
        requires asks { asks self.old (standing_in who.session held.old) }
        ensures turns { TurnsHeld (next_task result) held.old held.new }
        ensures task { IfOk result (λ r. r.1 ≡ leaves r.0) }
        ensures gives { IfOk result (λ r. gives self.old (standing_in who.session held.old) r.0 held.new.value.journal.events) }
        ensures keeps { IfOk result (λ r. keeps self.old r.0 held.new) }
        ensures none { OnErr result (GoesOn who.session (holder held.old).seen held.new.value.journal.events) }
        ensures becomes { IfOk result (λ r. becomes self.old r.0 self.new) }
        ensures fails { OnErr result (fails self.old self.new) };

    /// Where memory lacks before it is asked, it is as it was.
    ghost same: { (q : Self) → fails q q };
}
