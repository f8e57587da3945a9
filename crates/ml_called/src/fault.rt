//! Why an argument is refused.

/// Why a term is no goal, no ball or no list. It holds no term: the layer above makes the raised
/// one.
#[derive(Clone, Copy)]
pub enum ArgumentFault {
    /// It is an unbound variable.
    Unbound,
    /// It has over 4,096 nodes.
    TooLarge,
    /// It isn't callable.
    NotCallable,
    /// It is no list, and no cells that end in a variable.
    NotAList,
}
