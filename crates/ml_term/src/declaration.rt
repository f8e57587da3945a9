//! Declared predicates: their names, kinds and keyed arguments.
ghost use Rattle.std.specs.Prelude.{◌≡◌, ◌≤◌, ◌↔◌, ◌&&◌, IsTrue, IfOk, nat_le};
ghost use Rattle.std.specs.List.{list_all};
ghost use Rattle.ml_term.specs.Keys.{are_different, are_keys, default_keys};
ghost use Rattle.ml_term.specs.Tree.{has};

use crate::limits::MAX_KEYED_ARGUMENTS;
use crate::name::Name;
use std::alloc::{AllocError, Global};
use std::marker::Model;

/// A predicate by its name and its arity, 0 to 255.
#[derive(PartialEq, Eq, Hash, Drop)]
pub struct Pred {
    pub name: Name,
    pub arity: u8,
}

impl Pred {
    /// An equal predicate.
    pub fn copy_of(&self, alloc: Global) -> Result<Pred, AllocError>
        ensures { IfOk result (λ pred. pred ≡ self.now) }
    {
        Ok(Pred {
            name: self.name.copy_of(alloc)?,
            arity: self.arity,
        })
    }

    /// Whether this is the other predicate.
    pub fn is(&self, other: &Pred) -> bool
        ensures { IsTrue result ↔ (self.now ≡ other.now) }
    {
        self.arity == other.arity && self.name.is(&other.name)
    }
}

/// What a declared predicate holds.
#[derive(Clone, Copy, PartialEq, Eq)]
pub enum Kind {
    /// Ground tuples, in the order of their keys and without repeats.
    Relation,
    /// Clauses, in the order in which they were put.
    Clauses,
}

// Whether a number is one of these.
fn has(k: u8, numbers: &[u8]) -> bool
    ensures { result ≡ has k numbers.now }
{
    match numbers.split_first() {
        None => false,
        Some((m, numbers)) => *m == k || has(k, numbers),
    }
}

// Whether no number stands twice among these.
fn are_different(numbers: &[u8]) -> bool
    ensures { result ≡ are_different numbers.now }
{
    match numbers.split_first() {
        None => true,
        Some((k, numbers)) => !has(*k, numbers) && are_different(numbers),
    }
}

// Whether all numbers are those of arguments.
fn are_in_range(arity: u8, numbers: &[u8]) -> bool
    ensures { result ≡ list_all (λ k. nat_le 1 k && nat_le k arity) numbers.now }
{
    numbers.iter().all(|k| 1 <= *k && *k <= arity)
}

/// Whether these may be the keys of a declaration: 1 to 8 different numbers from 1 to the arity. It
/// takes no memory.
pub fn are_keys(arity: u8, numbers: &[u8]) -> bool
    ensures { result ≡ are_keys arity numbers.now }
{
    let count = numbers.len();
    1 <= count
        && count <= usize::from(MAX_KEYED_ARGUMENTS)
        && are_in_range(arity, numbers)
        && are_different(numbers)
}

/// The numbers of the keyed arguments, from 1, in the order in which their codes take part in a
/// key. Contracts see the list.
#[derive(Drop)]
pub struct Keys {
    numbers: Vec<u8>,
}

impl Model for Keys {
    ghost use Rattle.std.specs.Prelude.{List, ℕ};

    ghost Value = { List ℕ };

    ghost view = { λ k. k.numbers.items };
}

impl Keys {
    /// The list of these numbers.
    pub fn new(alloc: Global, numbers: &[u8]) -> Result<Keys, AllocError>
        ensures { IfOk result (λ keys. keys ≡ numbers.now) }
    {
        Ok(Keys {
            numbers: Vec::from_slice(alloc, numbers)?,
        })
    }

    /// The keys of a declaration that names none: the first arguments, 8 at most.
    pub fn default_of(alloc: Global, arity: u8) -> Result<Keys, AllocError>
        ensures same { IfOk result (λ keys. keys ≡ default_keys arity) }
        ensures valid { 1 ≤ arity → IfOk result (λ keys. IsTrue (are_keys arity keys)) }
    {
        let count = arity.min(MAX_KEYED_ARGUMENTS);
        let mut numbers = Vec::new(alloc);
        for k in 0..count {
            numbers.push(k + 1)?;
        }
        Ok(Keys { numbers })
    }

    /// The numbers as a slice.
    pub fn as_slice(&self) -> &[u8]
        ensures { result.now ≡ self.now }
    {
        self.numbers.as_slice()
    }

    /// An equal list.
    pub fn copy_of(&self, alloc: Global) -> Result<Keys, AllocError>
        ensures { IfOk result (λ keys. keys ≡ self.now) }
    {
        Keys::new(alloc, self.as_slice())
    }

    /// The list of a vector's numbers.
    pub fn from_vec(numbers: Vec<u8>) -> Keys
        ensures { result ≡ numbers.items }
    {
        Keys { numbers }
    }

    /// The numbers as a vector.
    pub fn into_vec(self) -> Vec<u8>
        ensures { result.items ≡ self }
    {
        let Keys { numbers } = self;
        numbers
    }
}

/// A declaration: its keys are 1 to 8 different numbers from 1 to the arity.
#[derive(Drop)]
pub struct Decl {
    pub pred: Pred,
    pub kind: Kind,
    pub keys: Keys,
    pub ghost keyed: { IsTrue (are_keys pred.arity keys) },
}

impl Decl {
    /// The declaration of a predicate with these keys.
    pub fn new(pred: Pred, kind: Kind, keys: Keys) -> Decl
        requires { IsTrue (are_keys pred.arity keys) }
        ensures pred { result.pred ≡ pred }
        ensures kind { result.kind ≡ kind }
        ensures keys { result.keys ≡ keys }
    {
        Decl { pred, kind, keys }
    }

    /// The declaration of a predicate of at least one argument that names no keys.
    pub fn with_default_keys(alloc: Global, pred: Pred, kind: Kind) -> Result<Decl, AllocError>
        requires { 1 ≤ pred.arity }
        ensures pred { IfOk result (λ decl. decl.pred ≡ pred) }
        ensures kind { IfOk result (λ decl. decl.kind ≡ kind) }
        ensures keys { IfOk result (λ decl. decl.keys ≡ default_keys pred.arity) }
    {
        let keys = Keys::default_of(alloc, pred.arity)?;
        Ok(Decl { pred, kind, keys })
    }

    /// An equal declaration.
    pub fn copy_of(&self, alloc: Global) -> Result<Decl, AllocError>
        ensures { IfOk result (λ decl. decl ≡ self.now) }
    {
        Ok(Decl {
            pred: self.pred.copy_of(alloc)?,
            kind: self.kind,
            keys: self.keys.copy_of(alloc)?,
        })
    }
}
