//! What is seen of a cell.
use crate::place::Ref;
use ml_term::Name;

/// What a cell stands for, past bindings.
#[derive(Clone, Copy)]
pub enum Look<'a> {
    /// The cell of the unbound variable.
    Var(Ref),
    /// The integer.
    Int(i64),
    /// The atom's name.
    Atom(&'a Name),
    /// The compound's name and arity, 1 to 255.
    Cmp(&'a Name, u8),
}
