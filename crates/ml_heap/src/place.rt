//! Names of cells and of moments.
use std::marker::Model;

/// Names a cell of a heap. Contracts see its place, from 0.
#[derive(Clone, Copy)]
pub struct Ref {
    place: usize,
}

impl Model for Ref {
    ghost use Rattle.std.specs.Prelude.{ℕ};

    ghost Value = { ℕ };

    ghost view = { λ r. r.place };

    ghost inverse = { λ n. record { place = n } };
}

/// Names a moment of a heap. Contracts see how many changes had been made by then.
#[derive(Clone, Copy)]
pub struct Mark {
    steps: usize,
}

impl Model for Mark {
    ghost use Rattle.std.specs.Prelude.{ℕ};

    ghost Value = { ℕ };

    ghost view = { λ m. m.steps };

    ghost inverse = { λ n. record { steps = n } };
}

ghost use Rattle.std.specs.Prelude.{◌≡◌};

impl Ref {
    // The cell at a place.
    pub(crate) fn at(place: usize) -> Ref
        ensures { result ≡ place }
    {
        Ref { place }
    }

    // The place of the cell.
    pub(crate) fn place(&self) -> usize
        ensures { result ≡ self.now }
    {
        self.place
    }
}

impl Mark {
    // The moment after a number of steps.
    pub(crate) fn after(steps: usize) -> Mark
        ensures { result ≡ steps }
    {
        Mark { steps }
    }

    // The number of steps before the moment.
    pub(crate) fn steps(&self) -> usize
        ensures { result ≡ self.now }
    {
        self.steps
    }
}
