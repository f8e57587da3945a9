//! What is left to do for a copy.
use ml_heap::Ref;

/// One task. The cells are those of the heap that is copied from.
#[derive(Clone, Copy)]
pub enum Task {
    /// The term of the cell is to be copied.
    Term(Ref),
    /// The arguments of the cell's compound have been copied: it is to be made of them.
    Compound(Ref),
}
