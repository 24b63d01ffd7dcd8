//! The state of a session.

ghost use Rattle.std.specs.Prelude.{◌≡◌, ◌++◌, None, OnOk, OnErr, IfOk};
ghost use Rattle.qc_types.specs.Answers.{Gives};
ghost use Rattle.qc_model.specs.Session.{starting, flags_of, own_operations, status_of, snapshot_of};
ghost use Rattle.qc_model.specs.Settings.{set_to};
ghost use Rattle.qc_model.specs.Choice as choice;
ghost use Rattle.qc_sql.specs.declared.statements.Setting.TheVariants as setting;
ghost use Rattle.qc_trx.specs.Endings.{meant, end_of, StandsIn};
ghost use Rattle.qc_trx.specs.SnapshotStates.{IsSnapshotState, seen_on, in_database, after_begin, after_arrival, after_end, after_sight, after_more, MayAdd};

use crate::conflict::{Conflict, first_conflict};
use crate::noting::rows_of;
use crate::progress::{Snapshot, TransactionProgress, see_changed};
use crate::settings::{
    NO_LIMIT, UTF8, cache_kind, character_set, found_or_wrong, quotes, select_limit, switch,
};
use crate::writes::{OwnRow, Writes};
use qc_journal::{Journal, any_touches};
use qc_lex::is_same_word;
use qc_sql::errors::unknown_variable;
use qc_sql::session::Flags;
use qc_sql::statements::{SetValue, Setting};
use qc_sql::tables::Ops;
use qc_table::{Database, TableFull};
use qc_types::{NoMemory, Or, SqlError, TableName, Text};
use std::alloc::Global;
use std::marker::Model;
use std::mem;

/// What one session keeps from command to command: its current database, its variables, and its transaction with a snapshot and its own operations.
/// Contracts see that, and the database at the snapshot.
#[derive(Drop)]
pub struct SessionState {
    alloc: Global,
    number: u8,
    db: Text,
    autocommit: bool,
    charset: u16,
    ansi: bool,
    row_limit: u64,
    kind: u8,
    progress: TransactionProgress,
    own: Ops,
    writes: Writes,
}

impl Model for SessionState {
    ghost use Rattle.qc_trx.specs.SnapshotStates.{SnapshotState};

    ghost Value = { SnapshotState };

    ghost use Rattle.qc_trx.specs.Progresses.{transaction_of, origin_of, IsProgress};

    ghost view = { λ s. record {
      state = record { session = s.number; db = s.db; autocommit = s.autocommit; charset = s.charset; ansi = s.ansi; row_limit = s.row_limit; kind = s.kind; transaction = transaction_of s.progress s.own };
      origin = origin_of s.progress;
    } };

    ghost invariant = { λ s. IsProgress s.progress s.own s.writes };
}

impl SessionState {
    /// The state of a session with this number that has just begun, with this cache type: no current database, autocommit on, no transaction, and
    /// MySQL's defaults for the rest. Takes no memory yet.
    pub fn new(alloc: Global, session: u8, kind: u8) -> SessionState
        ensures { result ≡ record { state = starting session kind; origin = None } }
    {
        SessionState {
            alloc,
            number: session,
            db: Text::from_vec(Vec::new(alloc)),
            autocommit: true,
            charset: UTF8,
            ansi: false,
            row_limit: NO_LIMIT,
            kind,
            progress: TransactionProgress::Closed,
            own: Ops::new(alloc),
            writes: Writes::new(alloc),
        }
    }

    /// The session's number.
    pub fn session(&self) -> u8
        ensures { result ≡ self.now.state.session }
    {
        self.number
    }

    /// What its statements depend on beside the database. It stands in the keys of entries.
    pub fn flags(&self) -> Flags
        ensures { result ≡ flags_of self.now.state }
    {
        Flags {
            in_trans: self.is_open(),
            autocommit: self.autocommit,
            charset: self.charset,
            ansi: self.ansi,
            row_limit: self.row_limit,
            protocol_form: 0,
            row_form: 0,
        }
    }

    /// The name of the current database, empty where there is none.
    pub fn db(&self) -> &[u8]
        ensures { result.now ≡ self.now.state.db }
    {
        self.db.bytes()
    }

    /// The cache type: 0 is OFF, 1 is ON, 2 is DEMAND, as `query_cache_type`.
    pub fn kind(&self) -> u8
        ensures { result ≡ self.now.state.kind }
    {
        self.kind
    }

    /// The status that its replies tell: bit 1 where a transaction is open, bit 2 where autocommit is on, as the client/server protocol numbers them.
    pub fn status(&self) -> u16
        ensures { result ≡ status_of (flags_of self.now.state) }
    {
        let in_trans = if self.is_open() { 1 } else { 0 };
        let autocommit = if self.autocommit { 2 } else { 0 };
        in_trans + autocommit
    }

    /// The number of the event at which its transaction took its snapshot. `None` where no transaction is open, or none that has one yet.
    pub fn snapshot(&self) -> Option<u64>
        ensures place { result ≡ snapshot_of self.now.state }
        ensures state { IsSnapshotState self.now }
    {
        match &self.progress {
            TransactionProgress::Closed => None,
            TransactionProgress::Opened => None,
            TransactionProgress::Seen(snapshot) => Some(snapshot.place),
        }
    }

    /// Whether its transaction has an operation of its own that touches the table. Linear in how many it has.
    pub fn wrote(&self, table: &TableName) -> bool
        ensures { result ≡ choice.wrote self.now.state table.now }
    {
        any_touches(table, self.own.items())
    }

    fn is_open(&self) -> bool
        ensures { result ≡ (flags_of self.now.state).in_trans }
    {
        match &self.progress {
            TransactionProgress::Closed => false,
            TransactionProgress::Opened => true,
            TransactionProgress::Seen(_) => true,
        }
    }

    /// Carries out SET of a variable or of the character set, as in MySQL's "SET Syntax for Variable Assignment". It leaves the transaction alone.
    ///
    /// Refused with 1193 for a variable that there is none of, and with 1231 for a value that the variable doesn't take; the state stays then, and
    /// where memory runs out. Linear in the name and the value.
    pub fn set(&mut self, alloc: Global, setting: &Setting) -> Result<(), Or<SqlError>>
        ensures gives { Gives (λ _. self.new.state) (λ e. e) result (set_to self.old.state setting.now) }
        ensures same { self.new.origin ≡ self.old.origin }
        ensures err { OnErr result (self.new ≡ self.old) }
    {
        match setting {
            Setting::Names(name) => self.set_names(alloc, name.bytes()),
            Setting::Variable(name, value) => self.set_variable(alloc, name.bytes(), value),
        }
    }

    fn set_names(&mut self, alloc: Global, name: &[u8]) -> Result<(), Or<SqlError>>
        ensures gives { Gives (λ _. self.new.state) (λ e. e) result (set_to self.old.state (setting.Names name.now)) }
        ensures same { self.new.origin ≡ self.old.origin }
        ensures err { OnErr result (self.new ≡ self.old) }
    {
        self.charset = found_or_wrong(alloc, b"NAMES", character_set(name))?;
        Ok(())
    }

    fn set_variable(
        &mut self,
        alloc: Global,
        name: &[u8],
        value: &SetValue,
    ) -> Result<(), Or<SqlError>>
        ensures gives { Gives (λ _. self.new.state) (λ e. e) result (set_to self.old.state (setting.Variable name.now value.now)) }
        ensures same { self.new.origin ≡ self.old.origin }
        ensures err { OnErr result (self.new ≡ self.old) }
    {
        if is_same_word(name, b"autocommit") {
            self.autocommit = found_or_wrong(alloc, name, switch(value))?;
        } else if is_same_word(name, b"sql_select_limit") {
            self.row_limit = found_or_wrong(alloc, name, select_limit(value))?;
        } else if is_same_word(name, b"sql_mode") {
            self.ansi = found_or_wrong(alloc, name, quotes(value))?;
        } else if is_same_word(name, b"query_cache_type") {
            self.kind = found_or_wrong(alloc, name, cache_kind(value))?;
        } else {
            return Err(Or::Other(unknown_variable(alloc, name)?));
        }
        Ok(())
    }

    /// Makes a database the current one, as USE does. Constant time.
    pub fn use_db(&mut self, name: Text)
        ensures { self.new ≡ in_database name self.old }
    {
        self.db = name;
    }

    /// Opens a transaction without snapshot, as BEGIN does. None may be open.
    pub fn begin(&mut self)
        requires { self.old.state.transaction ≡ None }
        ensures { self.new ≡ after_begin self.old }
    {
        self.progress = TransactionProgress::Opened;
    }

    /// Opens a transaction where autocommit is off and none is open, as a statement does that reads or writes rows. Constant time.
    pub fn arrive(&mut self)
        ensures { self.new ≡ after_arrival self.old }
    {
        if !self.autocommit && !self.is_open() {
            self.begin();
        }
    }

    /// Takes the snapshot of an open transaction that has none: its statements see the database as it is now, before the event with this number. Else
    /// nothing changes. Constant time.
    pub fn see(&mut self, place: u64, now: Database)
        ensures { self.new ≡ after_sight place now self.old }
    {
        if let TransactionProgress::Opened = &self.progress {
            now.is_in_order();
            self.progress = TransactionProgress::Seen(Snapshot {
                place,
                origin: now,
                changed: None,
            });
        }
    }

    /// The database that the next statement sees: the one now where no transaction has a snapshot, and else the one at the snapshot with the
    /// transaction's own operations. Constant time, since it is shared. Fails where memory runs out.
    pub fn view(&self, now: &Database) -> Result<Database, NoMemory>
        ensures seen { IfOk result (λ d. d ≡ seen_on now.now self.now) }
        ensures state { IsSnapshotState self.now }
    {
        match &self.progress {
            TransactionProgress::Closed => now.share(),
            TransactionProgress::Opened => now.share(),
            TransactionProgress::Seen(snapshot) => snapshot.current().share(),
        }
    }

    /// Adds operations to the transaction's own, behind those that it has. There has to be a snapshot, and they have to fit what the statements see.
    ///
    /// Refused with the first table that would have too many rows; nothing changes then, nor where memory runs out. Costs what the tables hold that
    /// the operations touch.
    pub fn add_ops(&mut self, alloc: Global, ops: Ops) -> Result<(), Or<TableFull>>
        requires { MayAdd ops self.old }
        ensures gives { Gives (λ _. self.new) (λ full. full.table) result (after_more ops self.old) }
        ensures err { OnErr result (self.new ≡ self.old) }
    {
        let TransactionProgress::Seen(snapshot) = &self.progress else {
            unreachable!()
        };
        let next = snapshot.current().apply(alloc, &ops)?;
        let rows = rows_of(alloc, snapshot.current(), ops.items())?;
        keep(&mut self.own, &mut self.writes, ops, rows)?;
        see_changed(&mut self.progress, next);
        Ok(())
    }

    /// What a commit of the transaction at the end of the journal would carry out: its own operations, which are none where no transaction is open.
    /// Its snapshot, where it has one, has to be of this journal.
    ///
    /// Refused where a commit above the snapshot changed a row that an own operation writes, or made or dropped its table, or dropped its database.
    /// Only want of memory is refused beside that. Costs, for each operation of a commit above the snapshot, the logarithm of how many own operations
    /// there are, and nothing for the events below.
    pub fn finish(&self, alloc: Global, journal: &Journal) -> Result<&Ops, Or<Conflict>>
        requires { StandsIn journal.now.events self.now }
        ensures gives { Gives (λ ops. ops.now) meant result (end_of self.now.state journal.now.events) }
        ensures state { IsSnapshotState self.now }
    {
        match &self.progress {
            TransactionProgress::Closed => Ok(&self.own),
            TransactionProgress::Opened => Ok(&self.own),
            TransactionProgress::Seen(snapshot) => {
                let (place, origin) = (snapshot.place, &snapshot.origin);
                match first_conflict(alloc, place, origin, &self.writes, journal)? {
                    None => Ok(&self.own),
                    Some(conflict) => Err(Or::Other(conflict)),
                }
            }
        }
    }

    /// Ends the transaction, if one is open, and hands out its own operations. Constant time.
    pub fn end(&mut self) -> Ops
        ensures own { result ≡ own_operations self.old.state }
        ensures ended { self.new ≡ after_end self.old }
    {
        self.progress = TransactionProgress::Closed;
        self.writes = Writes::new(self.alloc);
        mem::replace(&mut self.own, Ops::new(self.alloc))
    }

    /// Ends the transaction, if one is open, with all that it has. Costs the operations that are dropped.
    pub fn clear(&mut self)
        ensures { self.new ≡ after_end self.old }
    {
        self.progress = TransactionProgress::Closed;
        self.own = Ops::new(self.alloc);
        self.writes = Writes::new(self.alloc);
    }
}

/// Keeps more operations, and what they write, or neither.
fn keep(
    own: &mut Ops,
    writes: &mut Writes,
    ops: Ops,
    rows: Vec<Option<OwnRow>>,
) -> Result<(), NoMemory>
    ensures ok { OnOk result ((own.new ≡ own.old ++ ops) × (writes.new ≡ writes.old ++ rows.items)) }
    ensures err { OnErr result ((own.new ≡ own.old) × (writes.new ≡ writes.old)) }
{
    let count = writes.len();
    writes.append(rows)?;
    if own.append(ops).is_err() {
        writes.truncate(count);
        return Err(NoMemory);
    }
    Ok(())
}
