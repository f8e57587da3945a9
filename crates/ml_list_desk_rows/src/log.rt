//! What a log tells of its cursors.
ghost use Rattle.std.specs.Prelude.{◌≡◌, IsTrue, is_some, length, slice_get};
ghost use Rattle.ml_list_desk_rows.specs.Entries.{gave, gave_numbered, list_opened};
ghost use Rattle.ml_search.specs.Operations.{item_given, items_given, opened_lists};
ghost use Rattle.ml_search.specs.Seen.{log_seen};

use ml_search::{Op, Reply};

// The number of the list over which an entry opens a cursor.
fn list_opened(entry: &(Op, Reply)) -> Option<u32>
    ensures { result ≡ list_opened entry.now }
{
    match &entry.0 {
        Op::Open(d, _) => Some(*d),
        _ => None,
    }
}

/// The number of a cursor's list, if that cursor was opened.
pub fn list_under(log: &[(Op, Reply)], c: u32) -> Option<u32>
    ensures { result ≡ slice_get (opened_lists (log_seen log.now)) c }
{
    log.iter().filter_map(list_opened).nth(c as usize)
}

// Whether a cursor gave an item by an entry.
fn gave(entry: &(Op, Reply), c: u32) -> bool
    ensures { result ≡ gave c entry.now }
{
    match (&entry.0, &entry.1) {
        (Op::Next(k, _), Reply::Item(_)) => *k == c,
        _ => false,
    }
}

/// How many items a cursor gave.
pub fn count_given(log: &[(Op, Reply)], c: u32) -> usize
    ensures { result ≡ length (items_given (log_seen log.now) c) }
{
    log.iter().filter(|entry| gave(entry, c)).count()
}

// Whether a cursor gave the item with this number by an entry.
fn gave_numbered(entry: &(Op, Reply), c: u32, i: u32) -> bool
    ensures { result ≡ gave_numbered c i entry.now }
{
    match (&entry.0, &entry.1) {
        (Op::Next(k, n), Reply::Item(_)) => *k == c && *n == i,
        _ => false,
    }
}

/// Whether a cursor gave the item with this number.
pub fn was_given(log: &[(Op, Reply)], c: u32, i: u32) -> bool
    ensures { IsTrue result → IsTrue (is_some (item_given (log_seen log.now) c i)) }
{
    log.iter().any(|entry| gave_numbered(entry, c, i))
}
