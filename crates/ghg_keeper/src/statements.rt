// The statements of the keeper, each a function of its own with one call of the database.
ghost use Rattle.std.specs.Prelude.{◌≡◌, ◌≢◌, ◌+◌, ◌-◌, ◌<◌, ◌≤◌, ◌^◌, pos, [], ◌∷◌, codes, length, slice_get, Some, IfOk, IfErr, OnOk, OnErr};
ghost use Rattle.sqlite_sql.specs.Aggregate.{count};
ghost use Rattle.sqlite.specs.Order.{column};
ghost use Rattle.sqlite.specs.declared.types.Value.TheVariants.{Int, Text as Words, Blob};
ghost use Rattle.sqlite.specs.State.{CommitsBy, HasCleanDisk, Executes, QueriesRow, Survives};
ghost use Rattle.sqlite.specs.Held.{state};
ghost use Rattle.ghg_units.specs.Format.{format_in};
ghost use Rattle.ghg_keeper.specs.Errors.{IsCount, IsKept};
ghost use Rattle.ghg_keeper.specs.Listed.{TellsRows, IsAtRest, Stays, Appends, IsSafe, IsBeforeOrAfter, second_rows, value_of};
ghost use Rattle.ghg_keeper.specs.Accepted.{second};
ghost use Rattle.ghg_keeper.specs.Moving.{CommitsNone, Rests};
ghost use Rattle.ghg_keeper.specs.Texts.{count_text, insert_text, row_text};

use crate::KeptRow;
use ghg_units::{Text, format_of};
use sqlite::{Alter, Connection, Error, ErrorCode, Row, params};

/// The greatest number of a row, and the greatest count that SQL tells.
pub(crate) const MOST: u64 = 9_223_372_036_854_775_807;

/// The number of rows, as SQL counts them.
pub(crate) fn count_rows<S: Alter>(connection: &mut Connection<S>) -> Result<Row, Error>
    requires { Rests (state S.Store connection.old) }
    ensures stays { Stays (state S.Store connection.old) (state S.Store connection.new) }
    ensures count { TellsRows (state S.Store connection.new) → IfOk result
        (λ row. row ≡ count (length (second_rows (state S.Store connection.old).now)) ∷ []) }
    ensures safe { IsSafe (state S.Store connection.old) (state S.Store connection.new) result
        (λ db. db ≡ (state S.Store connection.old).now.trees) }
    ensures survives { Survives (state S.Store connection.old) (state S.Store connection.new) CommitsNone }
    ensures reads { HasCleanDisk (state S.Store connection.new)
        → QueriesRow count_text [] (state S.Store connection.old) (state S.Store connection.new) result }
{
    connection.query_row("SELECT count(*) FROM accepted2", &[])
}

/// The id and the body of the row with this number.
pub(crate) fn read_row<S: Alter>(connection: &mut Connection<S>, seq: u64) -> Result<Row, Error>
    requires rest { IsAtRest (state S.Store connection.old) }
    requires from { 1 ≤ seq }
    requires to { seq < 2 ^ 63 }
    ensures stays { Stays (state S.Store connection.old) (state S.Store connection.new) }
    ensures row { TellsRows (state S.Store connection.new) → IfOk result (λ row. (r : _)
        × (slice_get (second_rows (state S.Store connection.old).now) (seq - 1) ≡ Some r)
        × (row ≡ value_of second (codes "id") r ∷ value_of second (codes "body") r ∷ [])) }
    ensures safe { IsSafe (state S.Store connection.old) (state S.Store connection.new) result
        (λ db. db ≡ (state S.Store connection.old).now.trees) }
    ensures reads { HasCleanDisk (state S.Store connection.new)
        → QueriesRow row_text (Int (pos seq) ∷ []) (state S.Store connection.old)
        (state S.Store connection.new) result }
{
    connection.query_row(
        "SELECT id, body FROM accepted2 WHERE seq = ?1",
        params![seq as i64],
    )
}

/// Puts one row behind the others, and commits it.
pub(crate) fn insert_row<S: Alter>(
    connection: &mut Connection<S>,
    id: &str,
    body: &[u8],
) -> Result<usize, Error>
    requires { IsAtRest (state S.Store connection.old) }
    ensures appends { TellsRows (state S.Store connection.new) → OnOk result
        (Appends (state S.Store connection.old) (state S.Store connection.new) id.now body.now) }
    ensures refused { OnErr result (Stays (state S.Store connection.old) (state S.Store connection.new)) }
    ensures safe { IsSafe (state S.Store connection.old) (state S.Store connection.new) result
        (IsBeforeOrAfter (state S.Store connection.old).now id.now body.now) }
    ensures runs { HasCleanDisk (state S.Store connection.new)
        → Executes insert_text (Words id.now ∷ Int (pos (format_in body.now)) ∷ Blob body.now ∷ []) (state
        S.Store connection.old)
        (state S.Store connection.new) result }
{
    put_row(connection, id, body)
}

/// Puts one row behind the others.
pub(crate) fn put_row<S: Alter>(
    connection: &mut Connection<S>,
    id: &str,
    body: &[u8],
) -> Result<usize, Error>
    ensures runs { HasCleanDisk (state S.Store connection.new)
        → Executes insert_text (Words id.now ∷ Int (pos (format_in body.now)) ∷ Blob body.now ∷ []) (state
        S.Store connection.old) (state S.Store connection.new) result }
    ensures survives { Survives (state S.Store connection.old) (state S.Store connection.new)
        (CommitsBy insert_text (Words id.now ∷ Int (pos (format_in body.now)) ∷ Blob body.now ∷ []) (state
        S.Store connection.old)) }
{
    connection.execute(
        "INSERT INTO accepted2(id, format, body) VALUES (?1, ?2, ?3)",
        params![id, format_of(body), body],
    )
}

/// The count that a query showed.
pub(crate) fn kept_count(row: &Row) -> Result<u64, Error>
    ensures count { IfOk result (λ n. (n < 2 ^ 63 - 1) × (column row.now 0 ≡ Int (pos n))) }
    ensures none { IfErr result (λ e. e ≢ Error.SqliteFailure ErrorCode.OutOfMemory → ¬ IsCount row.now) }
{
    let count: u64 = row.get(0)?;
    if count < MOST {
        Ok(count)
    } else {
        Err(Error::IntegralValueOutOfRange(0))
    }
}

/// The kept row that a query showed.
pub(crate) fn kept_row(row: &Row) -> Result<KeptRow, Error>
    ensures id { IfOk result (λ kept. column row.now 0 ≡ Words kept.id) }
    ensures body { IfOk result (λ kept. column row.now 1 ≡ Blob kept.body) }
    ensures none { IfErr result (λ e. e ≢ Error.SqliteFailure ErrorCode.OutOfMemory → ¬ IsKept row.now) }
{
    let id: String = row.get(0)?;
    let body: Vec<u8> = row.get(1)?;
    Ok(KeptRow {
        id: Text::new(id.into_bytes()),
        body: Text::new(body),
    })
}
