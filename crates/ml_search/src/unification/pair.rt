//! What is unified without being copied: terms whose variables are counted from a base.

use ml_term::Term;

// A term whose variable n is the variable base + n.
#[derive(Clone, Copy)]
pub(crate) struct Shifted<'a> {
    pub(crate) term: &'a Term,
    pub(crate) base: u64,
}

// Two terms that are to be made equal.
#[derive(Clone, Copy)]
pub(crate) struct Pair<'a> {
    pub(crate) left: Shifted<'a>,
    pub(crate) right: Shifted<'a>,
}

// A variable, and the term that it is bound to.
#[derive(Clone, Copy)]
pub(crate) struct Binding<'a> {
    pub(crate) variable: u64,
    pub(crate) to: Shifted<'a>,
}

// Arguments whose variable n is the variable base + n.
#[derive(Clone, Copy)]
pub(crate) struct Arguments<'a> {
    pub(crate) terms: &'a [Term],
    pub(crate) base: u64,
}

// What is done with two terms.
#[derive(Clone, Copy)]
pub(crate) enum Rule<'a> {
    // They are the same already.
    Dropped,
    // A variable is bound.
    Bound(Binding<'a>),
    // As many arguments of both are to be made equal.
    Split(Arguments<'a>, Arguments<'a>),
    // They can't be made equal.
    Clash,
}
