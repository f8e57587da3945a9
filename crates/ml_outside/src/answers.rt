//! What tests of shelves share.
use crate::FetchStop;

/// Whether a fetch answered this.
pub fn is_same(got: &Result<Vec<u8>, FetchStop>, want: Result<&str, FetchStop>) -> bool {
    match (got, want) {
        (Ok(bytes), Ok(text)) => bytes.as_slice() == text.as_bytes(),
        (Err(stop), Err(other)) => *stop == other,
        _ => false,
    }
}
