//! Laws of lawful journals: functions with no code, of which the contract is the law.

ghost use Rattle.qc_laws.specs.history.Answers.{HitsAnswer, StartsAnswer};
ghost use Rattle.qc_laws.specs.history.Few.{TablesAreApart, TablesAreFew};
ghost use Rattle.qc_laws.specs.history.Fillings.{FillsAreLast};
ghost use Rattle.qc_laws.specs.history.Named.{TablesAreThere};
ghost use Rattle.qc_laws.specs.history.Runs.{AnswersStay, EntriesAreApart, HitsAreWhole, KeysAreApart, StartsOnce};
ghost use Rattle.qc_laws.specs.history.Seen.{SeesPresent};

/// Each entry is started once.
pub fn starts_are_apart()
    ensures { StartsOnce }
{}

/// An entry of the cache answers what it answered at its start.
pub fn answers_stay()
    ensures { AnswersStay }
{}

/// What is hit was completed before.
pub fn hits_are_whole()
    ensures { HitsAreWhole }
{}

/// No two entries of the cache have one serial.
pub fn entries_are_apart()
    ensures { EntriesAreApart }
{}

/// A session sees a table as it is now where it hasn't changed since the session's snapshot, and its own transaction hasn't written it.
pub fn unchanged_tables_are_seen()
    ensures { SeesPresent }
{}

/// An entry of a text's key that a session may see holds the packets that the text's select gives the session.
pub fn hits_answer()
    ensures { HitsAnswer }
{}

/// The key of a select's text has the packets of its rows where the cache may keep the select and the session may see its tables.
pub fn starts_answer()
    ensures { StartsAnswer }
{}

/// No two entries of the cache have one key.
pub fn keys_are_apart()
    ensures { KeysAreApart }
{}

/// Where an entry of the cache isn't complete, its start is the last event of a session.
pub fn fills_are_last()
    ensures { FillsAreLast }
{}

/// A text's select names at most eight tables, each once.
pub fn tables_are_few()
    ensures few { TablesAreFew }
    ensures apart { TablesAreApart }
{}

/// An entry of the cache names only tables that are there.
pub fn tables_are_there()
    ensures { TablesAreThere }
{}
