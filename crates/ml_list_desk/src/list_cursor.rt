//! Cursors over plain lists.

/// A cursor: the place of its list, and the numbers of the items that it gives, in order.
#[derive(Drop)]
pub(crate) struct ListCursor {
    pub list: u32,
    pub members: Vec<usize>,
}
