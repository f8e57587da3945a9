//! Cells, and the steps that are kept so as to undo them.
use ml_term::{ArgsOf, Name};

/// What one cell holds.
#[derive(Drop)]
pub enum Cell {
    /// An unbound variable by its number.
    Unbound(u32),
    /// A variable by its number, and the place of the cell that it is bound to.
    Bound(u32, usize),
    /// An integer.
    Int(i64),
    /// An atom.
    Atom(Name),
    /// A compound of a name and the places of its arguments' cells, and whether it is known to be
    /// ground.
    Cmp(Name, ArgsOf<usize>, bool),
}

/// One step: a cell was made, the variable at the first place was bound to the cell at the second,
/// so many numbers of variables were left out, or the compound at a place was marked as ground.
#[derive(Clone, Copy)]
pub enum Step {
    Made,
    Binding(usize, usize),
    LeftOut(u32),
    Ground(usize),
}
