//! Rows in a `Vec` in the order of their keys, and their changes.
ghost use Rattle.std.specs.Prelude.{◌≡◌, ◌+◌, ◌<◌, ◌≤◌, length, IsTrue, ◌↔◌};
ghost use Rattle.std.specs.Ordering.{is_lt};
ghost use Rattle.std.specs.Vec.{vec_len, vec_capacity};
ghost use Rattle.chat_model.specs.Rows.{IsAscending, rows_below, changed, changed_all, key_cmp, key_of};
ghost use Rattle.chat_model.specs.Places.{stands_at};

use crate::{Row, RowChange, RowKey};
use std::cmp::Ordering;

/// Whether the row's key is below the key.
fn is_below(row: &Row, key: RowKey) -> bool
    ensures { result ≡ is_lt (key_cmp (key_of row.now) key) }
{
    row.key().compare(key) == Ordering::Less
}

/// How many rows stand below the key, which is the place of the key among the rows.
pub fn place(rows: &[Row], key: RowKey) -> usize
    requires { IsAscending rows.now }
    ensures { result ≡ length (rows_below key rows.now) }
{
    let mut low = 0;
    let mut high = rows.len();
    while low < high {
        let middle = low + (high - low) / 2;
        if is_below(&rows[middle], key) {
            low = middle + 1;
        } else {
            high = middle;
        }
    }
    low
}

/// Whether the row at the place has the key.
fn has_key_at(rows: &[Row], at: usize, key: RowKey) -> bool
    ensures { result ≡ stands_at key rows.now at }
{
    at < rows.len() && rows[at].key().compare(key) == Ordering::Equal
}

/// Puts the row at its key's place. There is room for it.
fn put(rows: &mut Vec<Row>, row: Row)
    requires ascending { IsAscending rows.old.items }
    requires room { vec_len rows.old < vec_capacity rows.old }
    ensures items { rows.new.items ≡ changed (RowChange.Put row) rows.old.items }
    ensures len { vec_len rows.new ≤ vec_len rows.old + 1 }
    ensures capacity { vec_capacity rows.old ≤ vec_capacity rows.new }
{
    let key = row.key();
    let at = place(rows.as_slice(), key);
    if has_key_at(rows.as_slice(), at, key) {
        rows[at] = row;
    } else if rows.insert(at, row).is_err() {
        unreachable!()
    }
}

/// Takes the row of the key away, if there is one.
fn remove(rows: &mut Vec<Row>, key: RowKey)
    requires { IsAscending rows.old.items }
    ensures items { rows.new.items ≡ changed (RowChange.Remove key) rows.old.items }
    ensures len { vec_len rows.new ≤ vec_len rows.old }
    ensures capacity { vec_capacity rows.old ≤ vec_capacity rows.new }
{
    let at = place(rows.as_slice(), key);
    if has_key_at(rows.as_slice(), at, key) {
        let _ = rows.remove(at);
    }
}

/// Makes one change. There is room for a further row.
fn change(rows: &mut Vec<Row>, change: RowChange)
    requires ascending { IsAscending rows.old.items }
    requires room { vec_len rows.old < vec_capacity rows.old }
    ensures items { rows.new.items ≡ changed change rows.old.items }
    ensures ascending { IsAscending rows.new.items }
    ensures len { vec_len rows.new ≤ vec_len rows.old + 1 }
    ensures capacity { vec_capacity rows.old ≤ vec_capacity rows.new }
{
    match change {
        RowChange::Put(row) => put(rows, row),
        RowChange::Remove(key) => remove(rows, key),
    }
}

/// Makes the changes, first to last. There is room for a further row at each.
pub fn change_all(rows: &mut Vec<Row>, changes: Vec<RowChange>)
    requires ascending { IsAscending rows.old.items }
    requires room { vec_len rows.old + vec_len changes ≤ vec_capacity rows.old }
    ensures items { rows.new.items ≡ changed_all changes.items rows.old.items }
    ensures ascending { IsAscending rows.new.items }
{
    for next in changes {
        change(rows, next);
    }
}
