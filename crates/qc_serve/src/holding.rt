//! One request, one holding of the turn.

ghost use Rattle.std.specs.Prelude.{◌≡◌, IfOk, OnErr};
ghost use Rattle.qc_model.specs.declared.events.Event.{Event};
ghost use Rattle.qc_turn.specs.Seats.{Held, IsSeatOf, holder, view, words};
ghost use Rattle.qc_turn.specs.Tasks.{is_stream};
ghost use Rattle.qc_turn.specs.Views.{after_release, with_word_set};
ghost use Rattle.qc_core.specs.contracts.server.ServerKept.TheImpl.{ghosts};
ghost use Rattle.qc_core.specs.declared.server_state.ServerState.{ServerState};
ghost use Rattle.qc_serve.specs.Ends.{Makes};
ghost use Rattle.qc_serve.specs.Holding.{IsReleased, IsTaken, MayGoOn, TurnsHeld, TurnsTo, next_task, standing_at, standing_in, task_left};
ghost use Rattle.qc_serve.specs.Seats.{GoesOn, IsIdle, IsReady, IsSameSeat, MayRest, SameBooks, SeatRests};

use crate::desk::Desk;
use crate::request::Request;
use qc_core::{Server, reserve};
use qc_model::events::Who;
use qc_table::Database;
use qc_turn::{Held, Seat, Task};
use qc_types::NoMemory;
use std::sync::Wait;

/// A session that rests takes the turn, has its request decided, and gives the turn back. The one error is want of memory: then no event comes, and the
/// seat rests again.
pub(crate) fn hold<R: Wait, Q: Request>(
    desk: Desk<'_, R>,
    seat: &mut Seat<Server>,
    session: u8,
    request: &mut Q,
) -> Result<Q::Answer, NoMemory>
    requires rests { SeatRests desk.turn.now session seat.old }
    requires asks { Q.asks request.old (standing_at session seat.old) }
    ensures turns { TurnsTo desk.entry.turn.now session (task_left Q.leaves result) seat.old seat.new }
    ensures gives { IfOk result (λ a. Q.gives request.old (standing_at session seat.old) a (view seat.new).seen) }
    ensures keeps { IfOk result (λ a. (k : Held ServerState Event ghosts) × IsReleased (Q.leaves a) k seat.new × Q.keeps request.old a k) }
    ensures none { OnErr result (GoesOn session (view seat.old).seen (view seat.new).seen) }
    ensures becomes { IfOk result (λ a. Q.becomes request.old a request.new) }
    ensures fails { OnErr result (Q.fails request.old request.new) }
{
    let mut held = desk.turn.take(desk.rt, seat);
    match decide_held(&mut held, session, request) {
        Ok((answer, task)) => {
            go_on(held, task);
            Ok(answer)
        }
        Err(NoMemory) => {
            go_on(held, Task::Rest);
            Err(NoMemory)
        }
    }
}

/// The same under the turn.
fn decide_held<Q: Request>(
    held: &mut Held<'_, Server>,
    session: u8,
    request: &mut Q,
) -> Result<(Q::Answer, Task), NoMemory>
    requires taken { IsTaken session held.old }
    requires asks { Q.asks request.old (standing_in session held.old) }
    ensures turns { TurnsHeld (next_task result) held.old held.new }
    ensures task { IfOk result (λ r. r.1 ≡ Q.leaves r.0) }
    ensures gives { IfOk result (λ r. Q.gives request.old (standing_in session held.old) r.0 held.new.value.journal.events) }
    ensures keeps { IfOk result (λ r. Q.keeps request.old r.0 held.new) }
    ensures none { OnErr result (GoesOn session (holder held.old).seen held.new.value.journal.events) }
    ensures becomes { IfOk result (λ r. Q.becomes request.old r.0 request.new) }
    ensures fails { OnErr result (Q.fails request.old request.new) }
{
    let who = prepare(held, session)?;
    request.decide(held, who)
}

/// Makes ready for the event of a command, and gives the session with the event's number. The one error is want of memory, and then the turn may be given
/// back.
fn prepare(held: &mut Held<'_, Server>, session: u8) -> Result<Who, NoMemory>
    requires idle { IsIdle session held.old }
    ensures ready { IfOk result (λ who. (who.session ≡ session) × IsReady who held.new) }
    ensures rest { OnErr result (MayRest held.new) }
    ensures same { IsSameSeat held.old held.new }
    ensures books { SameBooks held.old.value held.new.value }
{
    reserve(held)?;
    let number = held.value().next_number(session);
    Ok(Who { session, number })
}

/// Gives the turn back, and goes on with the task that is listed for the seat.
fn go_on(held: Held<'_, Server>, task: Task)
    requires { MayGoOn task held }
    ensures seated { IsSeatOf held.entry.turn.now held.exit.1.0.now }
    ensures view { view held.exit.1.0.now ≡ after_release ghosts (with_word_set (holder held.entry) (is_stream task)) held.entry.value (words held.entry) }
    ensures ranges { held.exit.1.0.now.ranges ≡ held.entry.ranges }
{
    held.release(task);
}

/// A share of the database of a seat that is ready for its next event. Nothing changes.
pub(crate) fn share_base(held: &mut Held<'_, Server>, who: Who) -> Result<Database, NoMemory>
    requires { IsReady who held.old }
    ensures ready { IsReady who held.new × IsSameSeat held.old held.new × (held.new.value ≡ held.old.value) }
    ensures makes { IfOk result (Makes held.old.value.journal.events) }
{
    held.value().database().share()
}
