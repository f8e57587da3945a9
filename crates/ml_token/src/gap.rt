//! Layout and comments, which separate tokens.
ghost use Rattle.std.specs.Prelude.{◌≡◌, ◌+◌, ◌≤◌, length, IfSome};
ghost use Rattle.ml_token.specs.inside.Gap.{block_comment_len, piece_len, slash_len, gap_len};
ghost use Rattle.ml_token.specs.Bytes.{begins_with};

use crate::bytes::{Run, is_layout, run_len};

pub fn begins_with(b: u8, bytes: &[u8]) -> bool
    ensures { result ≡ begins_with b bytes.now }
{
    match bytes {
        [] => false,
        [first, ..] => *first == b,
    }
}

// How many bytes a comment takes behind its `/*`, where `*/` closes it.
fn block_comment_len(bytes: &[u8]) -> Option<usize>
    ensures len { result ≡ block_comment_len bytes.now }
    ensures within { IfSome result (λ n. n ≤ length bytes.now) }
{
    let mut n = 0;
    let mut rest = bytes;
    while let [b, after @ ..] = rest {
        if *b == b'*' && begins_with(b'/', after) {
            return Some(n + 2);
        }
        n += 1;
        rest = after;
    }
    None
}

// How many bytes a comment behind a `/` takes.
fn slash_len(bytes: &[u8]) -> usize
    ensures len { result ≡ slash_len bytes.now }
    ensures within { result ≤ 1 + length bytes.now }
{
    let [b, after @ ..] = bytes else {
        return 0;
    };
    if *b != b'*' {
        return 0;
    }
    match block_comment_len(after) {
        Some(n) => n + 2,
        None => 0,
    }
}

// How many bytes the layout or the comment takes that stands first, if one does.
fn piece_len(bytes: &[u8]) -> usize
    ensures len { result ≡ piece_len bytes.now }
    ensures within { result ≤ length bytes.now }
{
    let [b, after @ ..] = bytes else {
        return 0;
    };
    if is_layout(*b) {
        1
    } else if *b == b'%' {
        1 + run_len(Run::Line, after)
    } else if *b == b'/' {
        slash_len(after)
    } else {
        0
    }
}

/// How many bytes of layout and comments stand first. A comment that nothing closes is none of
/// them.
pub fn gap_len(bytes: &[u8]) -> usize
    ensures len { result ≡ gap_len 0 bytes.now }
    ensures within { result ≤ length bytes.now }
{
    let mut n = 0;
    let mut rest = bytes;
    loop {
        let piece = piece_len(rest);
        if piece == 0 {
            return n;
        }
        n += piece;
        let (_, after) = rest.split_at(piece);
        rest = after;
    }
}
