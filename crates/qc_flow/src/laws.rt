//! Laws of hits and fills: functions with no code, of which the contract is the law.

ghost use Rattle.qc_flow.specs.Begins.{FillsAnswer, FillsBegin, PacketsFollow};
ghost use Rattle.qc_flow.specs.Hits.{HitsAnswer, StreamsBegin};

/// The words that a hit has in hand spell what its key answers, and its stream is listed for the seat.
pub fn hits_answer()
    ensures { HitsAnswer }
{}

/// After the release the seat streams the hit, and its bytes are what the key answers.
pub fn streams_begin()
    ensures { StreamsBegin }
{}

/// After the release the seat fills the entry that was started, and nothing of it is stored.
pub fn fills_begin()
    ensures { FillsBegin }
{}

/// Once a packet of the answer is stored, the one behind it comes next, and behind the last one the answer is whole.
pub fn packets_follow()
    ensures { PacketsFollow }
{}

/// What a fill stored whole is what its entry answers for as long as it is in the cache.
pub fn fills_answer()
    ensures { FillsAnswer }
{}
