//! A SELECT runs plain.

ghost use Rattle.std.specs.Prelude.{◌≡◌, length};
ghost use Rattle.qc_model.specs.declared.events.Event.TheVariants as event;
ghost use Rattle.qc_model.specs.declared.events.How.TheVariants as how;
ghost use Rattle.qc_turn.specs.Seats.{MayRelease, SameHolder};
ghost use Rattle.qc_core.specs.Calls.{IsNext, HasSpare};
ghost use Rattle.qc_core.specs.PlainRun.{MayRunPlain};
ghost use Rattle.qc_core.specs.Whole.{with_event};

use crate::server::Server;
use qc_model::events::{Event, How, Reason, Who};
use qc_turn::Held;

/// Pushes the event of a SELECT that runs plain, for any reason but want of room, and answers its number. Nothing else changes. Constant time.
pub fn plain(held: &mut Held<'_, Server>, who: Who, reason: Reason) -> u64
    requires stands { MayRelease held.old }
    requires next { IsNext held.old who }
    requires may { MayRunPlain held.old.value who reason }
    requires room { HasSpare held.old.value }
    ensures stands { MayRelease held.new × SameHolder held.old held.new }
    ensures number { result ≡ length held.new.value.journal.events }
    ensures pushed { held.new.value ≡ with_event (event.Run who (how.Plain reason)) held.old.value }
    ensures ranges { held.new.ranges ≡ held.old.ranges }
{
    held.value().push(Event::Run {
        who,
        how: How::Plain(reason),
    })
}
