//! Fills end under the turn.

ghost use Rattle.std.specs.Prelude.{◌≡◌, ℕ, ◌*◌, ◌<◌, ◌≤◌, [], length, IfOk, true};
ghost use Rattle.std.specs.Result.{IfErr};
ghost use Rattle.qc_model.specs.declared.events.Event.TheVariants as event;
ghost use Rattle.qc_model.specs.declared.events.GoneWhy.TheVariants as why;
ghost use Rattle.qc_model.specs.Agrees.{is_ended};
ghost use Rattle.qc_turn.specs.declared.task.Task.TheVariants as task;
ghost use Rattle.qc_turn.specs.Seats.{view, IsSeatOf};
ghost use Rattle.qc_chain.specs.Words.{words_of};
ghost use Rattle.qc_core.specs.Calls.{IsInWant};
ghost use Rattle.qc_core.specs.OvertakenFill.{IsOvertaken};
ghost use Rattle.qc_core.specs.declared.server_state.ServerState.{ServerState};
ghost use Rattle.qc_flow.specs.Seats.{GoesOn, IsAtRest, HasEnded, EndsIn, EndsAlone};
ghost use Rattle.qc_flow.specs.Fills.{IsWholeAnswer, Ends, Abandons, IsLargeIn, limit_of};
ghost use Rattle.qc_flow.specs.Endings.{IsGrantedFor, IsTooLong};
ghost use Rattle.qc_flow.specs.declared.fills.FillStep.TheVariants as step;

use crate::fills::{Ended, FillStep};
use qc_core::{Server, done, gone};
use qc_model::events::GoneWhy;
use qc_turn::{Seat, Task, Turn};
use std::sync::Wait;

/// Ends the fill of an entry whose whole answer is stored, of so many bytes.
pub(crate) fn end_whole<R: Wait>(
    rt: &R,
    turn: &Turn<Server>,
    seat: &mut Seat<Server>,
    serial: u64,
    bytes: u32,
) -> Ended
    requires seated { IsSeatOf turn.now seat.old × ((view seat.old).task ≡ task.Fill serial) }
    requires whole { IsWholeAnswer serial (view seat.old) }
    requires bytes { (bytes ≡ length (view seat.old).content) × (bytes ≤ 8 * words_of (view seat.old).blocks) × (bytes ≤ limit_of (view seat.old)) }
    ensures seated { IsSeatOf turn.now seat.new × (seat.new.ranges ≡ seat.old.ranges) }
    ensures goes_on { GoesOn (view seat.old) (view seat.new) }
    ensures ended { HasEnded serial (view seat.new) }
    ensures ends { Ends serial (view seat.new) result }
{
    match complete(rt, turn, seat, serial, bytes) {
        Ok(place) => Ended::Done(place),
        Err(by) => Ended::Overtaken(by),
    }
}

/// Completes the entry that the seat fills, with so many bytes, and answers the number of its event, or else of the one that took the entry out.
fn complete<R: Wait>(
    rt: &R,
    turn: &Turn<Server>,
    seat: &mut Seat<Server>,
    serial: u64,
    bytes: u32,
) -> Result<u64, u64>
    requires seated { IsSeatOf turn.now seat.old × ((view seat.old).task ≡ task.Fill serial) }
    requires whole { IsWholeAnswer serial (view seat.old) }
    requires bytes { (bytes ≡ length (view seat.old).content) × (bytes ≤ 8 * words_of (view seat.old).blocks) × (bytes ≤ limit_of (view seat.old)) }
    ensures seated { IsSeatOf turn.now seat.new × (seat.new.ranges ≡ seat.old.ranges) }
    ensures goes_on { GoesOn (view seat.old) (view seat.new) }
    ensures rests { IsAtRest (view seat.new) }
    ensures ok { IfOk result (λ place. (place ≡ length (view seat.new).seen) × EndsIn (event.Done serial) (view seat.new).seen) }
    ensures err { IfErr result (λ by. IsOvertaken (view seat.new).seen serial by × (is_ended serial [] (view seat.new).seen ≡ true)) }
{
    let mut held = turn.take(rt, seat);
    let ended = done(&mut held, serial, bytes);
    held.release(Task::Rest);
    ended
}

/// Gives up the fill of an entry, for a reason that is licensed wherever the entry is there still.
fn give_up<R: Wait>(
    rt: &R,
    turn: &Turn<Server>,
    seat: &mut Seat<Server>,
    serial: u64,
    why: GoneWhy,
) -> Result<u64, u64>
    requires seated { IsSeatOf turn.now seat.old × ((view seat.old).task ≡ task.Fill serial) }
    requires granted { IsGrantedFor serial why (view seat.old) }
    requires other { (seat : ℕ) (s : ServerState) → IsInWant seat serial why s }
    ensures seated { IsSeatOf turn.now seat.new × (seat.new.ranges ≡ seat.old.ranges) }
    ensures goes_on { GoesOn (view seat.old) (view seat.new) }
    ensures rests { IsAtRest (view seat.new) }
    ensures alone { EndsAlone (event.Gone serial why) (view seat.old) (view seat.new) }
    ensures ok { IfOk result (λ place. EndsIn (event.Gone serial why) (view seat.new).seen) }
    ensures err { IfErr result (λ by. IsOvertaken (view seat.new).seen serial by × (is_ended serial [] (view seat.new).seen ≡ true)) }
{
    let mut held = turn.take(rt, seat);
    let ended = gone(&mut held, serial, why);
    held.release(Task::Rest);
    ended
}

/// Ends the fill of an entry whose reply is longer than the limit.
pub(crate) fn end_large<R: Wait>(
    rt: &R,
    turn: &Turn<Server>,
    seat: &mut Seat<Server>,
    serial: u64,
    length: u64,
    limit: u32,
) -> FillStep
    requires seated { IsSeatOf turn.now seat.old × ((view seat.old).task ≡ task.Fill serial) }
    requires long { IsTooLong serial length limit (view seat.old) }
    ensures seated { IsSeatOf turn.now seat.new × (seat.new.ranges ≡ seat.old.ranges) }
    ensures goes_on { GoesOn (view seat.old) (view seat.new) }
    ensures step { (result ≡ step.TooLarge length) × HasEnded serial (view seat.new) × IsLargeIn serial length limit (view seat.new).seen × EndsAlone (event.Gone serial (why.TooLarge length limit)) (view seat.old) (view seat.new) }
{
    let _ended = give_up(rt, turn, seat, serial, GoneWhy::TooLarge { length, limit });
    FillStep::TooLarge(length)
}

/// Gives up the fill of an entry for a session that ends.
pub(crate) fn abandon<R: Wait>(rt: &R, turn: &Turn<Server>, seat: &mut Seat<Server>, serial: u64)
    requires seated { IsSeatOf turn.now seat.old × ((view seat.old).task ≡ task.Fill serial) }
    ensures seated { IsSeatOf turn.now seat.new × (seat.new.ranges ≡ seat.old.ranges) }
    ensures goes_on { GoesOn (view seat.old) (view seat.new) }
    ensures rests { IsAtRest (view seat.new) }
    ensures abandons { Abandons serial (view seat.new) }
{
    let _ended = give_up(rt, turn, seat, serial, GoneWhy::Ended);
}
