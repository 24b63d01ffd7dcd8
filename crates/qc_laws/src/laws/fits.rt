//! Laws on operations that fit.

ghost use Rattle.qc_sql.specs.Database.{empty_database};
ghost use Rattle.qc_model.specs.Sound.{IsSoundDatabase};
ghost use Rattle.qc_laws.specs.fits.Laws.{ArrivedHaveSnapshots, ArrivedOnesFit, ChangesAreOfTable, ChangesAreRows, ChangesFit, ChangesStayWithin, CommandsMayCommit, CommandsRest, CommitsGrow, EndingsFit, FittingStays, FormsChange, FormsStay, GrownOnesFit, JournalsAreSound, JournalsKeep, KeptSnapshotsFit, LawfulCommitsFit, LawfulStaysWithin, LocalsRest, NewOnesFit, NoneIsFull, OthersRest, RowsStay, SoundStays, StatementsMayCommit, ViewsAreSound, ViewsAreWithin, ViewsKeep, WithinIsNotFull};

/// A law, with no code: a sound database is sound after operations that fit. The empty database is.
pub fn sound_stays()
    ensures stays { SoundStays }
    ensures empty { IsSoundDatabase empty_database }
{}

/// A law, with no code: what a statement does to a sound database fits it, operation by operation, and leaves no table with more rows than it may
/// have.
pub fn changes_fit()
    ensures fit { ChangesFit }
    ensures within { ChangesStayWithin }
{}

/// A law, with no code: INSERT, UPDATE and DELETE put and delete rows of their table alone, and a statement that creates, drops or truncates
/// changes something.
pub fn changes_by_kind()
    ensures rows { ChangesAreRows }
    ensures table { ChangesAreOfTable }
    ensures forms { FormsChange }
{}

/// A law, with no code: the commits of a lawful journal fit and make no table with more rows than it may have. Where the commits fit, the database
/// is sound, at the end of the journal and at each snapshot.
pub fn journals_are_sound()
    ensures fit { LawfulCommitsFit }
    ensures within { LawfulStaysWithin }
    ensures sound { JournalsAreSound }
{}

/// A law, with no code: operations keep the columns of each table whose form they don't change, and each row that they don't write there.
pub fn unwritten_rows_stay()
    ensures columns { FormsStay }
    ensures rows { RowsStay }
{}

/// A law, with no code: the row operations of a transaction that fit at its snapshot fit at the end of the journal, where no commit since then
/// conflicts.
pub fn kept_snapshots_fit()
    ensures fit { KeptSnapshotsFit }
{}

/// A law, with no code: what a session sees is sound and leaves room, where its open transaction fits.
pub fn views_are_sound()
    ensures sound { ViewsAreSound }
    ensures within { ViewsAreWithin }
{}

/// A law, with no code: a test of databases that operations of some kind keep, as a bound on names and values, is passed by what a session sees
/// where the journal's operations and its own are of that kind.
pub fn views_keep()
    ensures journals { JournalsKeep }
    ensures views { ViewsKeep }
{}

/// A law, with no code: an open transaction fits as it begins, as a statement arrives, with what a statement adds, and after each event.
pub fn open_transactions_fit()
    ensures begun { NewOnesFit }
    ensures arrived { ArrivedOnesFit }
    ensures snapshots { ArrivedHaveSnapshots }
    ensures grown { GrownOnesFit }
    ensures later { FittingStays }
{}

/// A law, with no code: what may be committed. A fitting transaction that ends without a conflict fits the present, and so do operations that fit
/// there with those of a statement behind them.
pub fn endings_may_commit()
    ensures fit { EndingsFit }
    ensures none { NoneIsFull }
    ensures full { WithinIsNotFull }
    ensures statements { StatementsMayCommit }
    ensures journal { CommitsGrow }
{}

/// A law, with no code: where each open transaction fits between two events, what a command commits may be committed, and each fits again after it.
pub fn commands_may_commit()
    ensures commits { CommandsMayCommit }
    ensures rest { CommandsRest }
    ensures locals { LocalsRest }
    ensures others { OthersRest }
{}
