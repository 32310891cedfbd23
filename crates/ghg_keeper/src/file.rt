// The keeper of the program, over a database file.
ghost use Rattle.std.specs.Prelude.{◌≡◌, ◌⊎◌, ◌-◌, ◌≤◌, ◌^◌, pos, [], ◌∷◌, length, slice_get, codes, None, Some, IsTrue, IfOk, IsErrOf, IsSomeAnd, OnOk, OnErr};
ghost use Rattle.sqlite.specs.declared.types.Value.TheVariants.{Int, Text, Blob};
ghost use Rattle.sqlite.specs.Files.{over_files};
ghost use Rattle.sqlite_wal.specs.Files.{image_at};
ghost use Rattle.ghg_outer.specs.Counts.{IsCounted};
ghost use Rattle.ghg_units.specs.Format.{format_in};
ghost use Rattle.ghg_keeper.specs.Databases.{AttachesFrom, IsInUse};
ghost use Rattle.ghg_keeper.specs.Files.{BeginsWith, TellsList, is_beside};
ghost use Rattle.ghg_keeper.specs.Errors.{CountsRows, HasCause, InsertsRow, IsCount, IsKept, IsNotReady, ReadsRow, Refuses, RefusesRow};
ghost use Rattle.ghg_keeper.specs.Id.{is_id};
ghost use Rattle.ghg_keeper.specs.Listed.{IsBeforeOrAfter, IsSafe};
ghost use Rattle.ghg_keeper.specs.Shelf.{Adds, CountsFaults, Keeps};
ghost use Rattle.ghg_keeper.specs.Texts.{count_text, insert_text, row_text};

use crate::{KeepError, Keeper, KeptRow, SqlKeeper};
use sqlite::{Alter, Connection, FileFrom, FileStore, Start};
use std::rt::HostRuntime;

/// Rows in the tables of a database file, which `attach` opens, or makes where there is none. That call and
/// each later one are passed to a [`SqlKeeper`] over the file.
///
/// It is part of the trusted edge and, as a [`Keeper`], tells nothing of its rows. It is proved what each
/// call does with the store in use, and that this begins with the rows that the file held. A file that does
/// not open for another cause than memory, and a call before `attach`, fail and are counted: a folder, a file
/// that is no database or that this process may not write, a database that another process has open, and a
/// name that ends in `-wal`, `-shm` or `-journal`, of which nothing is opened. Want of memory at the open is
/// told as such, and not counted. A file whose table of that name is another one fails too, as does one in
/// which a table refers to `accepted`, and no store of it is in use.
///
/// The file has its log beside it, named as the file with `-wal` behind that, and the two are one store. A
/// row that was acknowledged has been synced. It outlives a crash where the disk has what a sync
/// acknowledged, where each byte of a write that is cut off is the old or the new one and no other byte
/// changes, and where nobody else writes the two files. [`SqlKeeper::close`] makes one file of the two.
///
/// `S` stands for what the two files hold as they are opened. All clauses hold for each such contents, which
/// no code can read, and `main` names `Unknown`. They are those of one open, which uses `start` up: after it,
/// also if it failed, `attach` fails. `T` is the store over the files, `FileStore<FileFrom<S>>`; it is a
/// parameter since the prover cannot state a struct with a field of that type.
#[derive(Drop)]
pub struct FileKeeper<'a, S: Start, T: Alter> {
    rt: &'a HostRuntime,
    start: Option<S>,
    store: Option<SqlKeeper<T>>,
    faults: u64,
}

impl<'a, S: Start> FileKeeper<'a, S, FileStore<FileFrom<S>>> {
    ghost use Rattle.ghg_keeper.specs.Files.{file_shelf};

    /// A keeper with no store in use. It takes no memory.
    pub fn new(rt: &'a HostRuntime, start: S) -> FileKeeper<'a, S, FileStore<FileFrom<S>>>
        ensures unopened { result.start ≡ Some start }
        ensures unused { result.store ≡ None }
        ensures faults { (file_shelf result).faults ≡ 0 }
    {
        FileKeeper {
            rt,
            start: Some(start),
            store: None,
            faults: 0,
        }
    }
}

impl<S: Start, T: Alter> FileKeeper<'_, S, T> {
    /// Gives the store in use back, as to close it.
    pub fn into_store(self) -> Option<SqlKeeper<T>>
        ensures { result ≡ self.entry.store }
    {
        self.store
    }

    // Passes an answer on, and counts a failure.
    fn passed<A>(&mut self, answer: Result<A, KeepError>) -> Result<A, KeepError>
        ensures answer { result ≡ answer }
        ensures store { self.new.store ≡ self.old.store }
        ensures start { self.new.start ≡ self.old.start }
        ensures faults { IsCounted self.old.faults self.new.faults (IsErrOf answer KeepError.Failed) }
    {
        match answer {
            Err(KeepError::Failed) => {
                self.faults = self.faults.saturating_add(1);
                Err(KeepError::Failed)
            }
            other => other,
        }
    }
}

impl<S: Start> Keeper for FileKeeper<'_, S, FileStore<FileFrom<S>>> {
    ghost use Rattle.ghg_keeper.specs.Files.{IsHandedOn, IsPassed, file_shelf, is_beside};

    ghost shelf = { file_shelf };

    fn attach(&mut self, name: &str) -> Result<(), KeepError>
        // The store in use is attached, and has the tables.
        ensures used { OnOk result (IsSomeAnd self.new.store (IsInUse over_files)) }
        // It was attached to the files as they were opened.
        ensures opened { OnOk result (IsSomeAnd self.new.store (BeginsWith (image_at S.Start))) }
        // Over a clean disk the list that the files held is told, and each crash leaves it.
        ensures found { OnOk result (IsSomeAnd self.new.store (TellsList (image_at S.Start))) }
        // Files are opened once.
        ensures once { self.old.start ≡ None → IsErrOf result KeepError.Failed }
        ensures spent { OnOk result (self.new.start ≡ None) }
        ensures unspent { IsTrue (is_beside name.now) → self.new.start ≡ self.old.start }
        ensures err { OnErr result (self.new.store ≡ self.old.store) }
        // This is the name of a store in memory, and of no file.
        ensures memory { name.now ≡ codes ":memory:" → IsErrOf result KeepError.Failed }
        // The name is that of another store's log or journal, which an open would write over.
        ensures beside { IsTrue (is_beside name.now) → IsErrOf result KeepError.Failed }
        ensures faults { CountsFaults (file_shelf self.old) (file_shelf self.new) result }
    {
        if is_beside(name) {
            return self.passed(Err(KeepError::Failed));
        }
        let Some(start) = self.start.take() else {
            return self.passed(Err(KeepError::Failed));
        };
        match opened(self.rt, name, start) {
            Ok(store) => {
                self.store = Some(store);
                Ok(())
            }
            Err(error) => self.passed(Err(error)),
        }
    }

    fn count(&mut self) -> Result<u64, KeepError>
        ensures passed { IsPassed self.old self.new result (λ before after.
            (after.tells → IfOk result (λ n. n ≡ length before.rows)) × Keeps before after) }
        ensures handed_on { IsHandedOn self.old self.new (λ attached old new.
            IsSafe old new result (λ db. db ≡ old.now.trees)
            × IfOk result (CountsRows old new)
            × HasCause result (IsNotReady attached old) (RefusesRow count_text [] old new IsCount)) }
        ensures start { self.new.start ≡ self.old.start }
        ensures faults { CountsFaults (file_shelf self.old) (file_shelf self.new) result }
    {
        let Some(store) = &mut self.store else {
            return self.passed(Err(KeepError::Failed));
        };
        let answer = store.count();
        self.passed(answer)
    }

    fn row(&mut self, seq: u64) -> Result<KeptRow, KeepError>
        requires { 1 ≤ seq }
        ensures passed { IsPassed self.old self.new result (λ before after.
            (after.tells → IfOk result (λ row. slice_get before.rows (seq - 1) ≡ Some row))
            × Keeps before after) }
        ensures handed_on { IsHandedOn self.old self.new (λ attached old new.
            IsSafe old new result (λ db. db ≡ old.now.trees)
            × IfOk result (ReadsRow seq old new)
            × HasCause result (IsNotReady attached old ⊎ (2 ^ 63 ≤ seq))
            (RefusesRow row_text (Int (pos seq) ∷ []) old new IsKept)) }
        ensures start { self.new.start ≡ self.old.start }
        ensures faults { CountsFaults (file_shelf self.old) (file_shelf self.new) result }
    {
        let Some(store) = &mut self.store else {
            return self.passed(Err(KeepError::Failed));
        };
        let answer = store.row(seq);
        self.passed(answer)
    }

    fn append(&mut self, id: &[u8], body: &[u8]) -> Result<u64, KeepError>
        requires { IsTrue (is_id id.now) }
        ensures passed { IsPassed self.old self.new result (λ before after.
            OnOk result (Adds before after (record { id = id.now; body = body.now }))
            × (after.tells → IfOk result (λ seq. seq ≡ length after.rows))
            × OnErr result (Keeps before after)) }
        ensures handed_on { IsHandedOn self.old self.new (λ attached old new.
            IsSafe old new result (IsBeforeOrAfter old.now id.now body.now)
            × IfOk result (InsertsRow id.now body.now old new)
            × HasCause result (IsNotReady attached old)
            (Refuses insert_text (Text id.now ∷ Int (pos (format_in body.now)) ∷ Blob body.now ∷ []) old
            new)) }
        ensures start { self.new.start ≡ self.old.start }
        ensures faults { CountsFaults (file_shelf self.old) (file_shelf self.new) result }
    {
        let Some(store) = &mut self.store else {
            return self.passed(Err(KeepError::Failed));
        };
        let answer = store.append(id, body);
        self.passed(answer)
    }
}

// Whether a name is that of a file that SQLite keeps beside a database.
fn is_beside(name: &str) -> bool
    ensures { result ≡ is_beside name.now }
{
    let name = name.as_bytes();
    name.ends_with(b"-wal") || name.ends_with(b"-shm") || name.ends_with(b"-journal")
}

// A keeper over the database file of this name, attached to it.
fn opened<S: Start>(
    rt: &HostRuntime,
    name: &str,
    start: S,
) -> Result<SqlKeeper<FileStore<FileFrom<S>>>, KeepError>
    ensures memory { name.now ≡ codes ":memory:" → IsErrOf result KeepError.Failed }
    ensures used { IfOk result (IsInUse over_files) }
    ensures opened { IfOk result (BeginsWith (image_at S.Start)) }
    ensures found { IfOk result (TellsList (image_at S.Start)) }
{
    match Connection::open_from(rt, name, false, start) {
        Ok(connection) => attached(connection, name),
        Err((error, _)) => Err(KeepError::from(error)),
    }
}

// A keeper over a connection that was opened, attached to its store. It is over any store, since a proof goes
// over all parts of what a function owns.
fn attached<S: Alter + Drop>(
    connection: Connection<S>,
    name: &str,
) -> Result<SqlKeeper<S>, KeepError>
    ensures used { IfOk result (IsInUse S.Store) }
    ensures from { IfOk result (AttachesFrom S.Store connection) }
{
    let mut keeper = SqlKeeper::over(connection);
    keeper.attach(name)?;
    Ok(keeper)
}
