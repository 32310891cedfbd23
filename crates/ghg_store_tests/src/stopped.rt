//! A store of the first version that is stopped at each call of its files, while its rows are moved, one more
//! is appended, or the store is closed: the next open finds the rows as they were, or with the new one, and
//! with it if that was acknowledged.
//!
//! The files are disks in memory. One of them passes so many calls on and then fails at each; after that both
//! crash. All calls of the keeper stand in functions over any keeper, where the proof sees nothing of a
//! database.

ghost use Rattle.std.specs.Prelude.{◌≤◌, length};
ghost use Rattle.ghg_keeper.specs.Shelf.{Keeps};

use ghg_keeper::{Keeper, SqlKeeper};
use sqlite::{Connection, FileStore, Files, Options};
use sqlite_disk::{Crash, Disk, Fuse, Memory};
use std::alloc::Global;
use std::process::Abort;
use std::test::Fail;

// More calls of either file than an open, a move, an append and a close make.
const MOST_CALLS: u64 = 1000;

// A store of the first version, with two rows.
const FIRST_VERSION: &str =
    "CREATE TABLE accepted(seq INTEGER PRIMARY KEY, id TEXT UNIQUE NOT NULL, body BLOB NOT NULL);\
    INSERT INTO accepted(id, body) VALUES ('first', x'31'), ('second', x'32')";

// Attaches the store, and puts the third row into it.
#[tactic(auto, unfolding(ghg_keeper::specs::Id::is_id))]
fn appends<K: Keeper>(keeper: &mut K) -> bool {
    keeper.attach("s").is_ok() && keeper.append(b"third", b"3").is_ok()
}

// Whether the row of this number, which is there, is this one.
fn is_row<K: Keeper>(keeper: &mut K, seq: u64, id: &[u8], body: &[u8]) -> bool
    requires counted { 1 ≤ seq }
    requires present { (K.shelf keeper.old).tells → seq ≤ length (K.shelf keeper.old).rows }
    ensures keeps { Keeps (K.shelf keeper.old) (K.shelf keeper.new) }
{
    match keeper.row(seq) {
        Ok(row) => row.id.as_slice() == id && row.body.as_slice() == body,
        Err(_) => false,
    }
}

// How many rows there are once the store is attached: the first two, or all three.
fn rows_in<K: Keeper>(keeper: &mut K) -> Option<u64> {
    if keeper.attach("s").is_err() {
        return None;
    }
    let Ok(count) = keeper.count() else {
        return None;
    };
    let is_listed = 2 <= count
        && is_row(keeper, 1, b"first", b"1")
        && is_row(keeper, 2, b"second", b"2")
        && (count < 3 || is_row(keeper, 3, b"third", b"3"));
    is_listed.then_some(count)
}

// Files that pass so many calls on.
fn fused<D: Disk>(files: Files<D>, log_calls: u64, table_calls: u64) -> Files<Fuse<D>> {
    let Files { log, db } = files;
    Files {
        log: Fuse::new(log, log_calls),
        db: Fuse::new(db, table_calls),
    }
}

// A connection to these files, or what is left of them.
fn opened<D: Disk + Drop>(
    alloc: Global,
    files: Files<D>,
) -> Result<Connection<FileStore<D>>, Option<Files<D>>> {
    if !files.may_be_used() {
        return Err(None);
    }
    match Connection::open_files(alloc, files, Options::new(7)) {
        Ok(connection) => Ok(connection),
        Err((_, left)) => Err(Some(left.into_files())),
    }
}

// The files of a store of the first version.
fn begun<D: Disk + Drop>(alloc: Global, files: Files<D>) -> Option<Files<D>> {
    let Ok(mut connection) = opened(alloc, files) else {
        return None;
    };
    if connection.execute_batch(FIRST_VERSION).is_err() {
        return None;
    }
    match connection.close_files() {
        Ok(files) => Some(files),
        Err((_, store)) => {
            drop(store.close());
            None
        }
    }
}

// How far files that stop come: whether the third row is acknowledged, and whether the store is closed.
#[derive(Clone, Copy, Drop)]
struct Progress {
    acknowledged: bool,
    closed: bool,
}

// How far files come, and what is left of them.
fn stopped<D: Disk + Drop>(
    alloc: Global,
    files: Files<Fuse<D>>,
) -> Option<(Progress, Files<Fuse<D>>)> {
    match opened(alloc, files) {
        Ok(connection) => {
            let mut keeper = SqlKeeper::over(connection);
            let acknowledged = appends(&mut keeper);
            let (closed, files) = match keeper.close() {
                Ok(files) => (true, files),
                Err((_, store)) => (false, store.close()),
            };
            let progress = Progress {
                acknowledged,
                closed,
            };
            Some((progress, files))
        }
        Err(Some(files)) => {
            let progress = Progress {
                acknowledged: false,
                closed: false,
            };
            Some((progress, files))
        }
        Err(None) => None,
    }
}

// How many rows the next open finds after a crash.
fn found<D: Crash + Drop>(alloc: Global, mut files: Files<D>) -> Option<u64> {
    files.log.crash();
    files.db.crash();
    match opened(alloc, files) {
        Ok(connection) => rows_in(&mut SqlKeeper::over(connection)),
        Err(_) => None,
    }
}

// How far files come that pass so many calls on, and how many rows the next open finds.
fn outcome(alloc: Global, log_calls: u64, table_calls: u64) -> Option<(Progress, u64)> {
    let files = Files {
        log: Memory::new(alloc),
        db: Memory::new(alloc),
    };
    let files = begun(alloc, files)?;
    let (progress, left) = stopped(alloc, fused(files, log_calls, table_calls))?;
    Some((progress, found(alloc, left)?))
}

// Fails the test where the next open finds other rows, and says whether the store was closed.
fn check(rt: &(impl Abort + AllocGlobal), log_calls: u64, table_calls: u64) -> Result<bool, Fail> {
    let (kept, closed) = match outcome(rt.alloc(), log_calls, table_calls) {
        Some((progress, rows)) => (
            rows == 3 || rows == 2 && !progress.acknowledged,
            progress.acknowledged && progress.closed,
        ),
        None => (false, false),
    };
    assert!(rt;
        kept,
        "{log_calls} calls of the log, {table_calls} of the database file"
    );
    Ok(closed)
}

#[test]
fn a_log_that_stops(rt: HostRuntime) -> Result<(), Fail> {
    let mut closed = false;
    for calls in 0..MOST_CALLS {
        closed = check(&rt, calls, u64::MAX)?;
        if closed {
            break;
        }
    }
    assert!(rt; closed);
    Ok(())
}

#[test]
fn a_database_file_that_stops(rt: HostRuntime) -> Result<(), Fail> {
    let mut closed = false;
    for calls in 0..MOST_CALLS {
        closed = check(&rt, u64::MAX, calls)?;
        if closed {
            break;
        }
    }
    assert!(rt; closed);
    Ok(())
}
