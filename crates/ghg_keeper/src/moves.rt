//! The move of the rows of the first table to the second, in one transaction.

ghost use Rattle.std.specs.Prelude.{◌≡◌, ◌+◌, ◌-◌, ◌<◌, ◌^◌, pos, [], ◌∷◌, ℕ, true, length, IsTrue, IfOk, OnOk, OnErr};
ghost use Rattle.sqlite.specs.Held.{state};
ghost use Rattle.sqlite.specs.State.{HasCleanDisk, IsUnchanged, Survives};
ghost use Rattle.sqlite.specs.Effect.{IsDatabase};
ghost use Rattle.ghg_keeper.specs.Accepted.{HasBoth, has_kept_tables};
ghost use Rattle.ghg_keeper.specs.Course.{ClearsFirst, CopiesRow, Counts, EmptiesFirst, MakesTables, MovesAll, MovesRows, Prepares, ReadsFirst, Runs};
ghost use Rattle.ghg_keeper.specs.Listed.{IsAtRest, TellsStore, first_rows, kept_first, second_rows, with_number};
ghost use Rattle.ghg_keeper.specs.Moving.{CommitsList, CommitsMove, CommitsNone, IsCleared, IsCommitted, IsMoved, IsMoving, IsReady, IsWithin, KeepsList, Leaves, Rests};
ghost use Rattle.ghg_keeper.specs.Texts.{begin_text, commit_text, count_text, create_text, first_count_text, roll_back_text, second_text};

use crate::KeptRow;
use crate::statements::{count_rows, kept_count, kept_row, put_row};
use crate::table::has_kept_tables;
use sqlite::{Alter, Connection, Error, params};

/// Makes each table where the store has none, and moves the rows of the first to the second. A store that has
/// rows in both is refused, as is one whose rows are not numbered from 1 on, and its rows stay as they are.
pub(crate) fn prepare<S: Alter>(connection: &mut Connection<S>) -> Result<(), Error>
    requires { IsAtRest (state S.Store connection.old) }
    ensures keeps { KeepsList (state S.Store connection.old) (state S.Store connection.new) }
    ensures survives { Survives (state S.Store connection.old) (state S.Store connection.new)
        (CommitsList (state S.Store connection.old)) }
    ensures rest { Rests (state S.Store connection.new) }
    ensures ready { HasCleanDisk (state S.Store connection.new)
        → OnOk result (IsReady (state S.Store connection.new)) }
    ensures runs { Prepares S.Store connection.old connection.new result }
{
    make_tables(connection)?;
    empty_first(connection)
}

// Makes each table where the store has none.
fn make_tables<S: Alter>(connection: &mut Connection<S>) -> Result<(), Error>
    requires { IsAtRest (state S.Store connection.old) }
    ensures keeps { KeepsList (state S.Store connection.old) (state S.Store connection.new) }
    ensures survives { Survives (state S.Store connection.old) (state S.Store connection.new)
        (CommitsList (state S.Store connection.old)) }
    ensures told { HasCleanDisk (state S.Store connection.new) → TellsStore (state S.Store connection.old)
        → OnOk result (TellsStore (state S.Store connection.new)) }
    ensures rest { Rests (state S.Store connection.new) }
    ensures tables { OnOk result (IsTrue (has_kept_tables (state S.Store connection.new).now.schema)) }
    ensures runs { MakesTables S.Store connection.old connection.new result }
{
    make_first(connection)?;
    make_second(connection)?;
    if !has_kept_tables(connection.schema()) {
        return Err(Error::QueryReturnedNoRows);
    }
    Ok(())
}

fn make_first<S: Alter>(connection: &mut Connection<S>) -> Result<usize, Error>
    requires { Rests (state S.Store connection.old) }
    ensures keeps { KeepsList (state S.Store connection.old) (state S.Store connection.new) }
    ensures survives { Survives (state S.Store connection.old) (state S.Store connection.new)
        (CommitsList (state S.Store connection.old)) }
    ensures told { HasCleanDisk (state S.Store connection.new) → TellsStore (state S.Store connection.old)
        → OnOk result (TellsStore (state S.Store connection.new)) }
    ensures rest { Rests (state S.Store connection.new) }
    ensures runs { Runs S.Store create_text [] connection.old connection.new result }
{
    connection.execute(
        "CREATE TABLE IF NOT EXISTS accepted(\
            seq INTEGER PRIMARY KEY, id TEXT UNIQUE NOT NULL, body BLOB NOT NULL)",
        &[],
    )
}

fn make_second<S: Alter>(connection: &mut Connection<S>) -> Result<usize, Error>
    requires { Rests (state S.Store connection.old) }
    ensures keeps { KeepsList (state S.Store connection.old) (state S.Store connection.new) }
    ensures survives { Survives (state S.Store connection.old) (state S.Store connection.new)
        (CommitsList (state S.Store connection.old)) }
    ensures told { HasCleanDisk (state S.Store connection.new) → TellsStore (state S.Store connection.old)
        → OnOk result (TellsStore (state S.Store connection.new)) }
    ensures rest { Rests (state S.Store connection.new) }
    ensures runs { Runs S.Store second_text [] connection.old connection.new result }
{
    connection.execute(
        "CREATE TABLE IF NOT EXISTS accepted2(\
            seq INTEGER PRIMARY KEY, id TEXT UNIQUE NOT NULL, format INTEGER NOT NULL, body BLOB NOT NULL)",
        &[],
    )
}

// Moves the rows of the first table to the second, where it has rows.
fn empty_first<S: Alter>(connection: &mut Connection<S>) -> Result<(), Error>
    requires rest { Rests (state S.Store connection.old) }
    requires tables { IsTrue (has_kept_tables (state S.Store connection.old).now.schema) }
    ensures keeps { KeepsList (state S.Store connection.old) (state S.Store connection.new) }
    ensures survives { Survives (state S.Store connection.old) (state S.Store connection.new)
        (CommitsList (state S.Store connection.old)) }
    ensures rest { Rests (state S.Store connection.new) }
    ensures ready { HasCleanDisk (state S.Store connection.new) → OnOk result (IsReady (state S.Store
        connection.new)) }
    ensures runs { EmptiesFirst S.Store connection.old connection.new result }
{
    let first = count_first(connection)?;
    if first == 0 {
        return Ok(());
    }
    if count_second(connection)? > 0 {
        return Err(Error::QueryReturnedNoRows);
    }
    move_rows(connection, first)
}

// The number of rows of the first table.
fn count_first<S: Alter>(connection: &mut Connection<S>) -> Result<u64, Error>
    ensures survives { Survives (state S.Store connection.old) (state S.Store connection.new) CommitsNone }
    ensures left { HasCleanDisk (state S.Store connection.new) → Leaves (state S.Store connection.old)
        (state S.Store connection.new) }
    ensures same { HasCleanDisk (state S.Store connection.new) → OnOk result (IsUnchanged (state S.Store
        connection.old) (state S.Store connection.new)) }
    ensures most { IfOk result (λ n. n < 2 ^ 63 - 1) }
    ensures size { HasCleanDisk (state S.Store connection.new)
        → HasBoth (state S.Store connection.old).now.schema
        → IfOk result (λ n. n ≡ length (first_rows (state S.Store connection.old).now)) }
    ensures runs { Counts S.Store first_count_text connection.old connection.new result }
{
    let row = connection.query_row("SELECT count(*) FROM accepted", &[])?;
    kept_count(&row)
}

// The number of rows of the second table.
fn count_second<S: Alter>(connection: &mut Connection<S>) -> Result<u64, Error>
    requires { Rests (state S.Store connection.old) }
    ensures survives { Survives (state S.Store connection.old) (state S.Store connection.new) CommitsNone }
    ensures left { HasCleanDisk (state S.Store connection.new) → Leaves (state S.Store connection.old)
        (state S.Store connection.new) }
    ensures same { HasCleanDisk (state S.Store connection.new) → OnOk result (IsUnchanged (state S.Store
        connection.old) (state S.Store connection.new)) }
    ensures size { HasCleanDisk (state S.Store connection.new)
        → HasBoth (state S.Store connection.old).now.schema
        → IfOk result (λ n. n ≡ length (second_rows (state S.Store connection.old).now)) }
    ensures runs { Counts S.Store count_text connection.old connection.new result }
{
    let row = count_rows(connection)?;
    kept_count(&row)
}

// Moves so many rows in one transaction, which is rolled back where a part of it is refused.
fn move_rows<S: Alter>(connection: &mut Connection<S>, count: u64) -> Result<(), Error>
    requires rest { Rests (state S.Store connection.old) }
    requires most { count < 2 ^ 63 - 1 }
    ensures survives { Survives (state S.Store connection.old) (state S.Store connection.new)
        (CommitsMove count (state S.Store connection.old).committed) }
    ensures rest { Rests (state S.Store connection.new) }
    ensures moved { HasCleanDisk (state S.Store connection.new) → OnOk result (IsMoved count (state S.Store
        connection.old) (state S.Store connection.new)) }
    ensures undone { OnErr result (IsWithin (state S.Store connection.old) (state S.Store connection.new)) }
    ensures runs { MovesRows S.Store count connection.old connection.new result }
{
    begin(connection)?;
    let moved = move_all(connection, count);
    if moved.is_err() && !connection.is_autocommit() {
        let _ = roll_back(connection);
    }
    moved
}

fn begin<S: Alter>(connection: &mut Connection<S>) -> Result<usize, Error>
    requires { Rests (state S.Store connection.old) }
    ensures within { IsWithin (state S.Store connection.old) (state S.Store connection.new) }
    ensures survives { Survives (state S.Store connection.old) (state S.Store connection.new) CommitsNone }
    ensures refused { OnErr result (Rests (state S.Store connection.new)) }
    ensures begun { HasCleanDisk (state S.Store connection.new) → OnOk result (IsMoving 0 (state S.Store
        connection.new)) }
    ensures runs { Runs S.Store begin_text [] connection.old connection.new result }
{
    connection.execute("BEGIN", &[])
}

// Moves so many rows and commits it.
fn move_all<S: Alter>(connection: &mut Connection<S>, count: u64) -> Result<(), Error>
    requires moving { HasCleanDisk (state S.Store connection.old) → IsMoving 0 (state S.Store
        connection.old) }
    requires most { count < 2 ^ 63 - 1 }
    ensures survives { Survives (state S.Store connection.old) (state S.Store connection.new)
        (CommitsMove count (state S.Store connection.old).committed) }
    ensures moved { HasCleanDisk (state S.Store connection.new) → OnOk result (IsMoved count (state S.Store
        connection.old) (state S.Store connection.new)) }
    ensures undone { OnErr result (IsWithin (state S.Store connection.old) (state S.Store connection.new)) }
    ensures runs { MovesAll S.Store count connection.old connection.new result }
{
    for copied in 0..count {
        move_row(connection, copied)?;
    }
    clear(connection)?;
    commit(connection)?;
    Ok(())
}

/// Copies one row more, where so many were copied. Nothing is committed.
pub(crate) fn move_row<S: Alter>(connection: &mut Connection<S>, copied: u64) -> Result<(), Error>
    requires moving { HasCleanDisk (state S.Store connection.old) → IsMoving copied (state S.Store
        connection.old) }
    requires most { copied < 2 ^ 63 - 1 }
    ensures within { IsWithin (state S.Store connection.old) (state S.Store connection.new) }
    ensures survives { Survives (state S.Store connection.old) (state S.Store connection.new) CommitsNone }
    ensures moved { HasCleanDisk (state S.Store connection.new) → OnOk result (IsMoving (copied + 1) (state
        S.Store connection.new)) }
    ensures runs { CopiesRow S.Store (copied + 1) connection.old connection.new result }
{
    let row = read_first(connection, copied + 1)?;
    let Ok(id) = std::str::from_utf8(row.id.as_slice()) else {
        return Err(Error::QueryReturnedNoRows);
    };
    put_row(connection, id, row.body.as_slice())?;
    Ok(())
}

// The row of the first table with this number, where it is the only one.
fn read_first<S: Alter>(connection: &mut Connection<S>, seq: u64) -> Result<KeptRow, Error>
    requires { seq < 2 ^ 63 }
    ensures survives { Survives (state S.Store connection.old) (state S.Store connection.new) CommitsNone }
    ensures left { HasCleanDisk (state S.Store connection.new) → Leaves (state S.Store connection.old)
        (state S.Store connection.new) }
    ensures same { HasCleanDisk (state S.Store connection.new) → OnOk result (IsUnchanged (state S.Store
        connection.old) (state S.Store connection.new)) }
    ensures found { HasCleanDisk (state S.Store connection.new)
        → HasBoth (state S.Store connection.old).now.schema → IfOk result (λ row. (r : _)
        × (with_number seq (first_rows (state S.Store connection.old).now) ≡ r ∷ []) × (row ≡ kept_first r)) }
    ensures runs { ReadsFirst S.Store seq connection.old connection.new result }
{
    let rows = connection.query_all(
        "SELECT id, body FROM accepted WHERE seq = ?1",
        params![seq as i64],
    )?;
    match rows.as_slice() {
        [row] => kept_row(row),
        _ => Err(Error::QueryReturnedNoRows),
    }
}

/// Takes all rows out of the first table. Nothing is committed.
pub(crate) fn clear<S: Alter>(connection: &mut Connection<S>) -> Result<(), Error>
    requires { HasCleanDisk (state S.Store connection.old) → (state S.Store connection.old).in_transaction ≡
        true }
    ensures within { IsWithin (state S.Store connection.old) (state S.Store connection.new) }
    ensures survives { Survives (state S.Store connection.old) (state S.Store connection.new) CommitsNone }
    ensures sound { HasCleanDisk (state S.Store connection.new) → OnOk result (IsDatabase (state S.Store
        connection.new).now) }
    ensures cleared { HasCleanDisk (state S.Store connection.new) → (count : ℕ) → IsMoving count (state
        S.Store connection.old)
        → OnOk result (IsCleared count (state S.Store connection.new)) }
    ensures runs { ClearsFirst S.Store connection.old connection.new result }
{
    connection.execute("DELETE FROM accepted", &[])?;
    if count_first(connection)? > 0 {
        return Err(Error::QueryReturnedNoRows);
    }
    Ok(())
}

/// Commits the transaction.
pub(crate) fn commit<S: Alter>(connection: &mut Connection<S>) -> Result<usize, Error>
    requires { HasCleanDisk (state S.Store connection.old) → (state S.Store connection.old).in_transaction ≡
        true }
    ensures survives { Survives (state S.Store connection.old) (state S.Store connection.new)
        (λ db. db ≡ (state S.Store connection.old).now.trees) }
    ensures committed { HasCleanDisk (state S.Store connection.new) → OnOk result (IsCommitted (state
        S.Store connection.old) (state S.Store connection.new)) }
    ensures refused { OnErr result (IsWithin (state S.Store connection.old) (state S.Store connection.new)) }
    ensures runs { Runs S.Store commit_text [] connection.old connection.new result }
{
    connection.execute("COMMIT", &[])
}

/// Rolls the transaction back.
pub(crate) fn roll_back<S: Alter>(connection: &mut Connection<S>) -> Result<usize, Error>
    requires { HasCleanDisk (state S.Store connection.old) → (state S.Store connection.old).in_transaction ≡
        true }
    ensures within { IsWithin (state S.Store connection.old) (state S.Store connection.new) }
    ensures survives { Survives (state S.Store connection.old) (state S.Store connection.new) CommitsNone }
    ensures rest { Rests (state S.Store connection.new) }
    ensures runs { Runs S.Store roll_back_text [] connection.old connection.new result }
{
    connection.execute("ROLLBACK", &[])
}
