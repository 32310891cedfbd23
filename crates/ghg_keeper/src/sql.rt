ghost use Rattle.std.specs.Prelude.{◌≡◌, ◌⊎◌, ◌-◌, ◌≤◌, ◌^◌, pos, [], ◌∷◌, length, slice_get, Some, Ok, Err, IsTrue, IfOk, IfErr, IsErrOf, OnOk, OnErr, false, true};
ghost use Rattle.sqlite.specs.declared.types.Value.TheVariants.{Int, Text, Blob};
ghost use Rattle.sqlite.specs.State.{HasCleanDisk};
ghost use Rattle.ghg_outer.specs.Counts.{IsCounted};
ghost use Rattle.ghg_keeper.specs.Id.{is_id};
ghost use Rattle.ghg_keeper.specs.Shelf.{Adds, CountsFaults, Keeps, KeepsRows, StaysTold};
ghost use Rattle.ghg_units.specs.Format.{format_in};
ghost use Rattle.ghg_keeper.specs.Accepted.{has_kept_tables, is_referred_to};
ghost use Rattle.ghg_keeper.specs.Course.{LacksTable, Prepares};
ghost use Rattle.ghg_keeper.specs.Errors.{CountsRows, HasCause, InsertsRow, IsCount, IsKept, IsNotReady, ReadsRow, Refuses, RefusesRow, told_of};
ghost use Rattle.ghg_keeper.specs.Listed.{IsAtRest, IsBeforeOrAfter, IsSafe, IsSafeAs, ListsStore};
ghost use Rattle.ghg_keeper.specs.Moving.{IsBeforeOrMoved, IsReady, Rests};
ghost use Rattle.ghg_keeper.specs.Texts.{count_text, insert_text, row_text};

use crate::moves::prepare;
use crate::statements::{MOST, count_rows, insert_row, kept_count, kept_row, read_row};
use crate::table::{has_kept_tables, is_referred_to};
use crate::{KeepError, Keeper, KeptRow};
use sqlite::{Alter, Connection, Error, FileStore, Files};
use sqlite_disk::Disk;

/// Rows in a table of a database, over any store: a file or memory. The table is `accepted2`, with columns
/// `seq INTEGER PRIMARY KEY`, `id TEXT UNIQUE NOT NULL`, `format INTEGER NOT NULL` and `body BLOB NOT NULL`.
/// A store of the first version has its rows in the table `accepted`, which lacks the format, and `attach`
/// moves them from there. Until that has answered Ok each other call fails.
///
/// It tells its rows while its store is clean, its tables of the two names are these, one of them alone has
/// rows, and these are numbered from 1 on. Other tables and indexes in the store change nothing, unless a
/// table refers to `accepted` by a foreign key, which `attach` refuses. A statement that is refused for
/// another cause than memory is counted as a fault, and so are a row that is not there and a transaction that
/// somebody left open.
#[derive(Drop)]
pub struct SqlKeeper<S: Alter> {
    connection: Connection<S>,
    is_attached: bool,
    faults: u64,
}

impl<S: Alter> SqlKeeper<S> {
    ghost use Rattle.ghg_keeper.specs.Databases.{attached, held, kept_shelf};

    /// A keeper over an open connection. It takes no memory.
    pub fn over(connection: Connection<S>) -> SqlKeeper<S>
        ensures connection { held result ≡ connection }
        ensures attached { attached result ≡ false }
        ensures faults { (kept_shelf S.Store result).faults ≡ 0 }
    {
        SqlKeeper {
            connection,
            is_attached: false,
            faults: 0,
        }
    }

    /// Gives the connection back, as to close its files.
    pub fn into_connection(self) -> Connection<S>
        ensures { result ≡ held self }
    {
        let SqlKeeper {
            connection,
            is_attached: _,
            faults: _,
        } = self;
        connection
    }

    // Counts one fault.
    fn fault(&mut self) -> KeepError
        ensures result { result ≡ KeepError.Failed }
        ensures same { self.new.connection ≡ self.old.connection }
        ensures attached { self.new.is_attached ≡ self.old.is_attached }
        ensures faults { IsCounted self.old.faults self.new.faults (result ≡ KeepError.Failed) }
    {
        self.faults = self.faults.saturating_add(1);
        KeepError::Failed
    }

    // What is told of the answer of a statement. An error is counted, but for want of memory.
    fn told<T>(&mut self, answer: Result<T, Error>) -> Result<T, KeepError>
        ensures answer { result ≡ told_of answer }
        ensures same { self.new.connection ≡ self.old.connection }
        ensures attached { self.new.is_attached ≡ self.old.is_attached }
        ensures faults { IsCounted self.old.faults self.new.faults (IsErrOf result KeepError.Failed) }
    {
        match answer {
            Ok(value) => Ok(value),
            Err(error) => Err(match KeepError::from(error) {
                KeepError::Memory => KeepError::Memory,
                KeepError::Failed => self.fault(),
            }),
        }
    }
}

impl<D: Disk + Drop> SqlKeeper<FileStore<D>> {
    ghost use Rattle.sqlite_store.specs.FileStore.{view};
    ghost use Rattle.sqlite_trees.specs.View.{IsClean};
    ghost use Rattle.sqlite_wal.specs.Reads.{AreClean};
    ghost use Rattle.sqlite.specs.Closing.{IsCopied};
    ghost use Rattle.sqlite.specs.Files.{FailsToClose, IsClosed};
    ghost use Rattle.ghg_keeper.specs.Databases.{held};

    /// Ends the use of a store in files. Its log is copied into the database file, which then has all rows
    /// by itself. After an error the two files are the store, as before.
    pub fn close(self) -> Result<Files<D>, (Error, FileStore<D>)>
        // What was committed stands in the database file alone, as that reads now and after a crash.
        ensures copied { IfOk result
            (λ files. AreClean D.Disk files.log files.db → IsCopied (held self) files) }
        // A crash has no new outcome, and the error has a cause.
        ensures failed { IfErr result (λ left. IsClosed (held self) left.1
            × (IsClean (view left.1) → FailsToClose (held self) left.1 left.0)) }
    {
        self.into_connection().close_files()
    }
}

impl<S: Alter> Keeper for SqlKeeper<S> {
    ghost use Rattle.ghg_keeper.specs.Databases.{NeedsAttached, StaysAttached, attached, database, held, kept_shelf};

    ghost shelf = { kept_shelf S.Store };

    /// Makes each table where the store has none, and moves the rows of the first one to the second in one
    /// transaction. It does not look at the name. A store that has rows in both, another table of one of the
    /// two names, or a foreign key that refers to the first table, is refused, and its rows stay as they are.
    fn attach(&mut self, name: &str) -> Result<(), KeepError>
        ensures rows { KeepsRows (kept_shelf S.Store self.old) (kept_shelf S.Store self.new) }
        ensures told { StaysTold (kept_shelf S.Store self.old) (kept_shelf S.Store self.new) result }
        ensures faults { CountsFaults (kept_shelf S.Store self.old) (kept_shelf S.Store self.new) result }
        // A store in which a table refers to the first one is refused, and nothing is done to it: rows that
        // refer to one that is moved would be deleted or changed with it.
        ensures referred { IsTrue (is_referred_to (database S.Store self.old).now.schema)
            → (held self.new ≡ held self.old) × IsErrOf result KeepError.Failed }
        // The keeper is attached once that is acknowledged, and else it is as it was.
        ensures attached { OnOk result (attached self.new ≡ true) }
        ensures err { OnErr result (attached self.new ≡ attached self.old) }
        // Over any store there are tables of both names, and with the columns of kept submissions.
        ensures tables { OnOk result (IsTrue (has_kept_tables (database S.Store self.new).now.schema)) }
        // The first attach that is acknowledged leaves the first of the two empty.
        ensures moved { attached self.old ≡ false → HasCleanDisk (database S.Store self.new)
            → OnOk result (IsReady (database S.Store self.new)) }
        // Over a clean disk no transaction is left open, with any answer.
        ensures rest { IsAtRest (database S.Store self.old) → Rests (database S.Store self.new) }
        // The first attach that is acknowledged ran all of this, and a later one runs nothing.
        ensures runs { attached self.old ≡ false
            → OnOk result (Prepares S.Store (held self.old) (held self.new) (Ok tt)) }
        ensures again { attached self.old ≡ true → held self.new ≡ held self.old }
        // A crash at the end of the call, with any answer, leaves the list as it was, in one of the tables.
        ensures safe { IsSafeAs ListsStore (database S.Store self.old) (database S.Store self.new) result
            (IsBeforeOrMoved (database S.Store self.old).now) }
        ensures cause { HasCause result
            (IsTrue (database S.Store self.old).in_transaction
            ⊎ IsTrue (is_referred_to (database S.Store self.old).now.schema)
            ⊎ LacksTable S.Store (attached self.old) (held self.old) (held self.new))
            (λ e. (attached self.old ≡ false) × Prepares S.Store (held self.old) (held self.new) (Err e)) }
    {
        let _ = name;
        if !self.connection.is_autocommit() {
            return Err(self.fault());
        }
        if is_referred_to(self.connection.schema()) {
            return Err(self.fault());
        }
        if !self.is_attached {
            let prepared = prepare(&mut self.connection);
            self.told(prepared)?;
        }
        if !has_kept_tables(self.connection.schema()) {
            return Err(self.fault());
        }
        self.is_attached = true;
        Ok(())
    }

    fn count(&mut self) -> Result<u64, KeepError>
        ensures attached { StaysAttached self.old self.new result }
        ensures unattached { NeedsAttached self.old self.new result }
        ensures count { (kept_shelf S.Store self.new).tells
            → IfOk result (λ n. n ≡ length (kept_shelf S.Store self.old).rows) }
        ensures keeps { Keeps (kept_shelf S.Store self.old) (kept_shelf S.Store self.new) }
        ensures faults { CountsFaults (kept_shelf S.Store self.old) (kept_shelf S.Store self.new) result }
        ensures safe { IsSafe (database S.Store self.old) (database S.Store self.new) result
            (λ db. db ≡ (database S.Store self.old).now.trees) }
        ensures reads { IfOk result (CountsRows (database S.Store self.old) (database S.Store self.new)) }
        ensures cause { HasCause result (IsNotReady (attached self.old) (database S.Store self.old))
            (RefusesRow count_text [] (database S.Store self.old) (database S.Store self.new) IsCount) }
    {
        if !self.is_attached || !self.connection.is_autocommit() {
            return Err(self.fault());
        }
        match count_rows(&mut self.connection) {
            Ok(row) => self.told(kept_count(&row)),
            Err(error) => self.told(Err(error)),
        }
    }

    /// A row that is not there is a fault, so any number from 1 on may be asked for.
    fn row(&mut self, seq: u64) -> Result<KeptRow, KeepError>
        requires { 1 ≤ seq }
        ensures attached { StaysAttached self.old self.new result }
        ensures unattached { NeedsAttached self.old self.new result }
        ensures row { (kept_shelf S.Store self.new).tells → IfOk result (λ row.
            slice_get (kept_shelf S.Store self.old).rows (seq - 1) ≡ Some row) }
        ensures keeps { Keeps (kept_shelf S.Store self.old) (kept_shelf S.Store self.new) }
        ensures faults { CountsFaults (kept_shelf S.Store self.old) (kept_shelf S.Store self.new) result }
        ensures safe { IsSafe (database S.Store self.old) (database S.Store self.new) result
            (λ db. db ≡ (database S.Store self.old).now.trees) }
        ensures reads { IfOk result (ReadsRow seq (database S.Store self.old) (database S.Store self.new)) }
        ensures cause { HasCause result
            (IsNotReady (attached self.old) (database S.Store self.old) ⊎ (2 ^ 63 ≤ seq))
            (RefusesRow row_text (Int (pos seq) ∷ []) (database S.Store self.old)
            (database S.Store self.new) IsKept) }
    {
        if !self.is_attached || seq > MOST || !self.connection.is_autocommit() {
            return Err(self.fault());
        }
        match read_row(&mut self.connection, seq) {
            Ok(row) => match kept_row(&row) {
                Ok(kept) => Ok(kept),
                Err(error) => self.told(Err(error)),
            },
            Err(error) => self.told(Err(error)),
        }
    }

    fn append(&mut self, id: &[u8], body: &[u8]) -> Result<u64, KeepError>
        requires { IsTrue (is_id id.now) }
        ensures attached { StaysAttached self.old self.new result }
        ensures unattached { NeedsAttached self.old self.new result }
        ensures ok { OnOk result (Adds (kept_shelf S.Store self.old) (kept_shelf S.Store self.new)
            (record { id = id.now; body = body.now })) }
        ensures number { (kept_shelf S.Store self.new).tells
            → IfOk result (λ seq. seq ≡ length (kept_shelf S.Store self.new).rows) }
        ensures err { OnErr result (Keeps (kept_shelf S.Store self.old) (kept_shelf S.Store self.new)) }
        ensures faults { CountsFaults (kept_shelf S.Store self.old) (kept_shelf S.Store self.new) result }
        // A crash at the end of the call, with any answer, leaves the rows as they were, or with the new one.
        ensures safe { IsSafe (database S.Store self.old) (database S.Store self.new) result
            (IsBeforeOrAfter (database S.Store self.old).now id.now body.now) }
        // An acknowledged row was inserted, also where no rows are told, and got the number that is answered.
        ensures runs { IfOk result
            (InsertsRow id.now body.now (database S.Store self.old) (database S.Store self.new)) }
        ensures cause { HasCause result (IsNotReady (attached self.old) (database S.Store self.old))
            (Refuses insert_text (Text id.now ∷ Int (pos (format_in body.now)) ∷ Blob body.now ∷ [])
            (database S.Store self.old)
            (database S.Store self.new)) }
    {
        let Ok(id) = std::str::from_utf8(id) else {
            return Err(self.fault());
        };
        if !self.is_attached || !self.connection.is_autocommit() {
            return Err(self.fault());
        }
        match insert_row(&mut self.connection, id, body) {
            Ok(_) => Ok(self.connection.last_insert_rowid().unsigned_abs()),
            Err(error) => self.told(Err(error)),
        }
    }
}
