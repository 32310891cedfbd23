//! Whether a store has the tables of kept submissions, and whether a table refers to the first of them.
ghost use Rattle.std.specs.Prelude.{◌≡◌, codes};
ghost use Rattle.ghg_keeper.specs.Accepted.{are_kept_columns, are_second_columns, has_first, has_kept_tables, has_second, has_unique_id, is_body, is_format, is_id, is_kept_table, is_keyed, is_referred_to, is_second_table, is_seq};
ghost use Rattle.sqlite_rules.specs.Audit.{refers_to};

use sqlite_items::Items;
use sqlite_schema::names::same_name;
use sqlite_schema::schema::{Column, Kind, Schema, Table};

/// Whether a table has a foreign key that refers to the first one.
pub(crate) fn is_referred_to(schema: &Schema) -> bool
    ensures { result ≡ is_referred_to schema.now }
{
    let tables = schema.tables.as_slice();
    tables.iter().any(|table| refers_to_first(table))
}

fn refers_to_first(table: &Table) -> bool
    ensures { result ≡ refers_to (codes "accepted") table.now }
{
    let references = table.references.as_slice();
    references.iter().any(|reference| same_name(b"accepted", reference.parent.as_slice()))
}

/// Whether there are tables of both names with the columns of kept submissions.
pub(crate) fn has_kept_tables(schema: &Schema) -> bool
    ensures { result ≡ has_kept_tables schema.now }
{
    has_first(schema) && has_second(schema)
}

fn has_first(schema: &Schema) -> bool
    ensures { result ≡ has_first schema.now }
{
    let tables = schema.tables.as_slice();
    tables.iter().any(|table| is_kept_table(table))
}

fn has_second(schema: &Schema) -> bool
    ensures { result ≡ has_second schema.now }
{
    let tables = schema.tables.as_slice();
    tables.iter().any(|table| is_second_table(table))
}

fn is_kept_table(table: &Table) -> bool
    ensures { result ≡ is_kept_table table.now }
{
    same_name(table.name.as_slice(), b"accepted")
        && are_kept_columns(table.columns.as_slice())
        && is_keyed(table)
}

fn is_second_table(table: &Table) -> bool
    ensures { result ≡ is_second_table table.now }
{
    same_name(table.name.as_slice(), b"accepted2")
        && are_second_columns(table.columns.as_slice())
        && is_keyed(table)
}

fn is_keyed(table: &Table) -> bool
    ensures { result ≡ is_keyed table.now }
{
    matches!(table.key, Some(0)) && has_unique_id(table.uniques.as_slice())
}

fn are_kept_columns(columns: &[Column]) -> bool
    ensures { result ≡ are_kept_columns columns.now }
{
    match columns {
        [seq, id, body] => is_seq(seq) && is_id(id) && is_body(body),
        _ => false,
    }
}

fn are_second_columns(columns: &[Column]) -> bool
    ensures { result ≡ are_second_columns columns.now }
{
    match columns {
        [seq, id, format, body] => is_seq(seq) && is_id(id) && is_format(format) && is_body(body),
        _ => false,
    }
}

fn is_seq(column: &Column) -> bool
    ensures { result ≡ is_seq column.now }
{
    same_name(column.name.as_slice(), b"seq") && matches!(column.kind, Kind::Integer)
}

fn is_id(column: &Column) -> bool
    ensures { result ≡ is_id column.now }
{
    same_name(column.name.as_slice(), b"id") && matches!(column.kind, Kind::Text) && column.not_null
}

fn is_format(column: &Column) -> bool
    ensures { result ≡ is_format column.now }
{
    same_name(column.name.as_slice(), b"format")
        && matches!(column.kind, Kind::Integer)
        && column.not_null
}

fn is_body(column: &Column) -> bool
    ensures { result ≡ is_body column.now }
{
    same_name(column.name.as_slice(), b"body")
        && matches!(column.kind, Kind::Any)
        && column.not_null
}

fn has_unique_id(uniques: &[Items<usize>]) -> bool
    ensures { result ≡ has_unique_id uniques.now }
{
    match uniques {
        [places] => match places.as_slice() {
            [place] => *place == 2,
            _ => false,
        },
        _ => false,
    }
}
