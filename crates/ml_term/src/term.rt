//! Terms: variables, integers, atoms and compounds.
ghost use Rattle.std.specs.Prelude.{◌≡◌, IfOk};
ghost use Rattle.ml_term.specs.Keys.{arguments};
ghost use Rattle.ml_term.specs.Seen.{seen};
ghost use Rattle.ml_term.specs.Tree.{arity};

use crate::args::ArgsOf;
use crate::list::ListOf;
use crate::name::Name;
use std::alloc::{AllocError, Global};

/// The arguments of a compound: 1 to 255 terms.
pub type Args = ArgsOf<Term>;

/// Any number of terms.
pub type Terms = ListOf<Term>;

/// A term of the language. Contracts see the tree that it stands for.
#[derive(Drop)]
pub enum Term {
    /// A variable by its number.
    Var(u32),
    /// An integer from -2305843009213693952 to 2305843009213693951.
    Int(i64),
    /// An atom by its name.
    Atom(Name),
    /// A compound of a name and 1 to 255 arguments.
    Cmp(Name, Args),
}

impl Term {
    /// The number of arguments, which only a compound has.
    pub fn arity(&self) -> usize
        ensures { result ≡ arity (arguments (seen self.now)) }
    {
        match self {
            Term::Cmp(_, ts) => ts.as_slice().len(),
            _ => 0,
        }
    }

    /// An equal term.
    #[cycle(copy)]
    pub fn copy_of(&self, alloc: Global) -> Result<Term, AllocError>
        ensures { IfOk result (λ term. term ≡ self.now) }
    {
        match self {
            Term::Var(n) => Ok(Term::Var(*n)),
            Term::Int(z) => Ok(Term::Int(*z)),
            Term::Atom(f) => Ok(Term::Atom(f.copy_of(alloc)?)),
            Term::Cmp(f, ts) => {
                let name = f.copy_of(alloc)?;
                let args = ts.copy_of(alloc)?;
                Ok(Term::Cmp(name, args))
            }
        }
    }
}

impl ArgsOf<Term> {
    /// Equal arguments.
    #[cycle(copy)]
    pub fn copy_of(&self, alloc: Global) -> Result<Args, AllocError>
        ensures { IfOk result (λ args. args ≡ self.now) }
    {
        Ok(ArgsOf::new(copy_terms(alloc, self.as_slice())?))
    }
}

impl ListOf<Term> {
    /// An equal list.
    pub fn copy_of(&self, alloc: Global) -> Result<Terms, AllocError>
        ensures { IfOk result (λ terms. terms ≡ self.now) }
    {
        Ok(ListOf::from_vec(copy_terms(alloc, self.as_slice())?))
    }
}

/// A vector of equal terms.
#[cycle(copy)]
pub fn copy_terms(alloc: Global, ts: &[Term]) -> Result<Vec<Term>, AllocError>
    ensures { IfOk result (λ terms. terms.items ≡ ts.now) }
{
    let mut terms = Vec::new(alloc);
    for t in ts {
        terms.push(t.copy_of(alloc)?)?;
    }
    Ok(terms)
}
