//! The first row in which two lists of rows differ.
ghost use Rattle.std.specs.Prelude.{◌≡◌, ◌≢◌, ◌<◌, ◌≤◌, length, take, slice_get, MatchOption};
ghost use Rattle.chat_model.specs.Rows.{IsAscending};
ghost use Rattle.office.specs.Difference.{IsFirstDifference};

use chat_model::{List, Row, Same};
use std::cmp::Ordering;

/// How many rows the lists have in common, from the front on.
fn common(xs: &[Row], ys: &[Row]) -> usize
    ensures in_first { result ≤ length xs.now }
    ensures in_second { result ≤ length ys.now }
    ensures same { take result xs.now ≡ take result ys.now }
    ensures differ { result < length xs.now → slice_get xs.now result ≢ slice_get ys.now result }
{
    let mut count = 0;
    while count < xs.len() && count < ys.len() && xs[count].is_same(&ys[count]) {
        count += 1;
    }
    count
}

/// The row at a place.
fn row_from(rows: List<Row>, at: usize) -> Option<Row>
    ensures { result ≡ slice_get rows at }
{
    let mut rows = rows.into_vec();
    if at < rows.len() {
        Some(rows.remove(at))
    } else {
        None
    }
}

/// The first row in which the lists differ, by table and key; nothing where they are the same.
pub fn first_difference(kept: List<Row>, replayed: List<Row>) -> Option<(Option<Row>, Option<Row>)>
    requires kept { IsAscending kept }
    requires replayed { IsAscending replayed }
    ensures { MatchOption result (kept ≡ replayed) (λ pair. IsFirstDifference kept replayed pair.0 pair.1) }
{
    let at = common(kept.as_slice(), replayed.as_slice());
    match (row_from(kept, at), row_from(replayed, at)) {
        (Some(x), Some(y)) => match x.key().compare(y.key()) {
            Ordering::Less => Some((Some(x), None)),
            Ordering::Greater => Some((None, Some(y))),
            Ordering::Equal => Some((Some(x), Some(y))),
        },
        (Some(x), None) => Some((Some(x), None)),
        (None, Some(y)) => Some((None, Some(y))),
        (None, None) => None,
    }
}
