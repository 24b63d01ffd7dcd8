//! SHOW STATUS.

ghost use Rattle.std.specs.Prelude.{◌≡◌, List, []};
ghost use Rattle.qc_tiles.specs.Tiles.{totals_of};
ghost use Rattle.qc_turn.specs.declared.view.FoundWord.{FoundWord};
ghost use Rattle.qc_turn.specs.Tasks.{listed_for};
ghost use Rattle.qc_turn.specs.Seats.{MayRelease, SameHolder, holder};
ghost use Rattle.qc_core.specs.Whole.{tasks_of};
ghost use Rattle.qc_core.specs.Calls.{IsNext, HasSpare};
ghost use Rattle.qc_core.specs.EndedStreams.{swept, ReadsStreams, Finds};
ghost use Rattle.qc_core.specs.ServerStatus.{TellsStatus};

use crate::ended_streams::reap_ended_streams;
use crate::run_log::push_run;
use crate::server::Server;
use qc_model::events::{Counters, How, Who};
use qc_turn::Held;
use qc_types::Totals;

impl Server {
    /// How many blocks there are, how many of them are free, and the words of these. The chain of a stream that has ended counts until its end is noticed.
    /// Constant time.
    pub fn totals(&self) -> Totals
        ensures { result ≡ totals_of self.now.tiles }
    {
        self.parts.tiles.totals()
    }
}

/// Pushes the event of a SHOW STATUS, and answers its number, the counters there, and the totals of the blocks, as in MySQL's "Query Cache Status and
/// Maintenance". Before that it reads the task words of the other seats whose streams are listed, and strikes those streams off that have ended, so that no
/// block counts for them. Costs one load for each of these streams, and the blocks of those that are struck off.
pub fn status(held: &mut Held<'_, Server>, who: Who) -> (u64, Counters, Totals)
    requires stands { MayRelease held.old }
    requires next { IsNext held.old who }
    requires room { HasSpare held.old.value }
    ensures stands { MayRelease held.new }
    ensures told { (found : List FoundWord) × ReadsStreams (holder held.old).number held.old.value found × Finds held.old held.new found × TellsStatus who (swept found held.old.value) held.new.value result }
    ensures rests { listed_for (holder held.old).number (tasks_of held.new.value) ≡ [] }
{
    reap_ended_streams(held);
    push_status(held, who)
}

/// Pushes the event of a SHOW STATUS.
fn push_status(held: &mut Held<'_, Server>, who: Who) -> (u64, Counters, Totals)
    requires stands { MayRelease held.old }
    requires next { IsNext held.old who }
    requires room { HasSpare held.old.value }
    ensures stands { MayRelease held.new × SameHolder held.old held.new }
    ensures told { TellsStatus who held.old.value held.new.value result }
    ensures ranges { held.new.ranges ≡ held.old.ranges }
{
    let totals = held.value().totals();
    let place = push_run(held, who, How::Status(totals));
    let counters = held.value().counters();
    (place, counters, totals)
}
