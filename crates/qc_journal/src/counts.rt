//! How many events of each counted kind there are, and how many of each session.

ghost use Rattle.std.specs.Prelude.{◌≡◌, ◌+◌, ◌<◌, ◌^◌, ◌||◌, if◌then◌else◌, length, option_map, slice_index, IfSome};
ghost use Rattle.qc_model.specs.Journal.{decider};
ghost use Rattle.qc_model.specs.Cache.{is_hit, is_not_cached, is_plain, is_prune, is_run, is_start};
ghost use Rattle.qc_journal.specs.Counting.{IsSmall, raised};

use qc_model::events::{Event, How, Reason};

/// What is counted of the events of a journal.
#[derive(Clone, Copy, Debug, PartialEq, Eq)]
pub(crate) struct Counts {
    /// Selects that began an entry or ran outside the cache.
    pub(crate) com_select: u64,
    /// Selects that were answered from entries.
    pub(crate) hits: u64,
    /// Entries that were begun.
    pub(crate) inserts: u64,
    /// Selects that ran outside the cache without an error.
    pub(crate) not_cached: u64,
    /// Entries that went to make room.
    pub(crate) lowmem_prunes: u64,
}

impl Counts {
    /// The counts of no events.
    pub(crate) const NONE: Counts = Counts {
        com_select: 0,
        hits: 0,
        inserts: 0,
        not_cached: 0,
        lowmem_prunes: 0,
    };

    /// Counts one event more. Constant time.
    pub(crate) fn raise(&mut self, event: &Event)
        requires { IsSmall self.old }
        ensures com_select { self.new.com_select
            ≡ self.old.com_select + (if is_run (λ h. is_start h || is_plain h) event.now then 1 else 0) }
        ensures hits { self.new.hits ≡ self.old.hits + (if is_run is_hit event.now then 1 else 0) }
        ensures inserts { self.new.inserts ≡ self.old.inserts + (if is_run is_start event.now then 1 else 0) }
        ensures not_cached { self.new.not_cached
            ≡ self.old.not_cached + (if is_run is_not_cached event.now then 1 else 0) }
        ensures lowmem_prunes { self.new.lowmem_prunes ≡ self.old.lowmem_prunes + (if is_prune event.now then 1 else 0) }
    {
        match event {
            Event::Run { who: _, how } => self.raise_by(how),
            Event::Prune { .. } => self.lowmem_prunes += 1,
            _ => {}
        }
    }

    fn raise_by(&mut self, how: &How)
        requires { IsSmall self.old }
        ensures com_select { self.new.com_select
            ≡ self.old.com_select + (if is_start how.now || is_plain how.now then 1 else 0) }
        ensures hits { self.new.hits ≡ self.old.hits + (if is_hit how.now then 1 else 0) }
        ensures inserts { self.new.inserts ≡ self.old.inserts + (if is_start how.now then 1 else 0) }
        ensures not_cached { self.new.not_cached ≡ self.old.not_cached + (if is_not_cached how.now then 1 else 0) }
        ensures lowmem_prunes { self.new.lowmem_prunes ≡ self.old.lowmem_prunes }
    {
        match how {
            How::Hit(_) => self.hits += 1,
            How::Start { .. } => {
                self.com_select += 1;
                self.inserts += 1;
            }
            How::Plain(Reason::Error(_)) => self.com_select += 1,
            How::Plain(_) => {
                self.com_select += 1;
                self.not_cached += 1;
            }
            _ => {}
        }
    }
}

/// How many numbers of sessions there are.
pub(crate) const SESSIONS: usize = 256;

/// One more event of a session, where there is one.
pub(crate) fn raise_session(counts: &mut [u64; SESSIONS], session: Option<u8>)
    requires small { IfSome session (λ n. slice_index counts.old n + 1 < 2 ^ 64) }
    ensures { counts.new ≡ raised session counts.old }
{
    if let Some(session) = session {
        counts[session as usize] += 1;
    }
}

/// The session of a deciding event.
pub(crate) fn session_of(event: &Event) -> Option<u8>
    ensures { result ≡ option_map (λ who. who.session) (decider event.now) }
{
    match event {
        Event::Run { who, .. }
        | Event::Commit { who, .. }
        | Event::Reset { who }
        | Event::Flush { who } => Some(who.session),
        Event::Done { .. } | Event::Gone { .. } | Event::Prune { .. } => None,
    }
}
