//! How far a session's transaction is.

ghost use Rattle.std.specs.Prelude.{◌≡◌, Some};
ghost use Rattle.qc_trx.specs.Progresses.{current, after_change};

use qc_table::Database;

/// How far a session's transaction is.
#[derive(Drop)]
pub(crate) enum TransactionProgress {
    /// None is open.
    Closed,
    /// One is open, and no statement of it has read or written rows.
    Opened,
    /// Its statements see the database as it was at a place.
    Seen(Snapshot),
}

/// What the statements of a transaction see.
#[derive(Drop)]
pub(crate) struct Snapshot {
    /// The number of the event at which it was taken.
    pub(crate) place: u64,
    /// The database before that event.
    pub(crate) origin: Database,
    /// The same with the transaction's own operations, once there are some.
    pub(crate) changed: Option<Database>,
}

impl Snapshot {
    /// What the next statement sees.
    pub(crate) fn current(&self) -> &Database
        ensures { result.now ≡ current self.now }
    {
        match &self.changed {
            Some(changed) => changed,
            None => &self.origin,
        }
    }
}

/// The next statement of the transaction, where it has a snapshot, sees another database.
pub(crate) fn see_changed(progress: &mut TransactionProgress, next: Database)
    ensures { progress.new ≡ after_change next progress.old }
{
    if let TransactionProgress::Seen(snapshot) = progress {
        snapshot.changed = Some(next);
    }
}
