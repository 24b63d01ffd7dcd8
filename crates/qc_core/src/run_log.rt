//! Events that change nothing of the cache.

ghost use Rattle.std.specs.Prelude.{◌≡◌, length};
ghost use Rattle.qc_model.specs.declared.events.Event.TheVariants as event;
ghost use Rattle.qc_turn.specs.Seats.{MayRelease, SameHolder};
ghost use Rattle.qc_core.specs.Calls.{IsNext, IsNoted, ChangesNothing, HasSpare};
ghost use Rattle.qc_core.specs.Whole.{with_event};

use crate::server::Server;
use qc_model::events::{Event, How, Who};
use qc_turn::Held;

/// Pushes the event of a command that ran and changed no data, or of a transaction that met a conflict, and answers its number. Constant time.
pub fn note(held: &mut Held<'_, Server>, who: Who, how: How) -> u64
    requires stands { MayRelease held.old }
    requires next { IsNext held.old who }
    requires noted { IsNoted held.old.value how }
    requires room { HasSpare held.old.value }
    ensures stands { MayRelease held.new × SameHolder held.old held.new }
    ensures number { result ≡ length held.new.value.journal.events }
    ensures pushed { held.new.value ≡ with_event (event.Run who how) held.old.value }
    ensures ranges { held.new.ranges ≡ held.old.ranges }
{
    push_run(held, who, how)
}

/// The same of any run that changes nothing of the cache.
pub(crate) fn push_run(held: &mut Held<'_, Server>, who: Who, how: How) -> u64
    requires stands { MayRelease held.old }
    requires next { IsNext held.old who }
    requires nothing { ChangesNothing held.old.value how }
    requires room { HasSpare held.old.value }
    ensures stands { MayRelease held.new × SameHolder held.old held.new }
    ensures number { result ≡ length held.new.value.journal.events }
    ensures pushed { held.new.value ≡ with_event (event.Run who how) held.old.value }
    ensures ranges { held.new.ranges ≡ held.old.ranges }
{
    held.value().push(Event::Run { who, how })
}
