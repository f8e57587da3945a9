//! A file of the relation t, of two or three arguments, all of them keyed.
ghost use Rattle.std.specs.Prelude.{◌≡◌, ◌≤◌, IfOk, IsTrue};
ghost use Rattle.ml_bench.specs.Tuples.{IsOfWidth, term_of};
ghost use Rattle.ml_search.specs.Db.{is_allowed};
ghost use Rattle.ml_search.specs.Program.{is_of};
ghost use Rattle.ml_term.specs.Seen.{seen};
ghost use Rattle.ml_term.specs.Tree.{integer, nodes};
ghost use Rattle.ml_term.specs.Valid.{is_in_range, is_valid};

use crate::tuples::{Row, Width, term_of};
use ml_file::{BangFile, OutOfMemory, Put};
use ml_key::{key_of, may_hold, pattern_of};
use ml_term::{Decl, Kind, Name, Pred, Term};
use std::alloc::{AllocError, Global};

/// Which arguments a match gives. All others are variables.
#[derive(Clone, Copy, PartialEq, Eq)]
pub enum Given {
    /// None.
    Neither,
    /// The first.
    First,
    /// The second.
    Second,
    /// The first and the second.
    Both,
}

impl Given {
    // Whether the first argument is given.
    fn has_first(self) -> bool {
        matches!(self, Given::First | Given::Both)
    }

    // Whether the second argument is given.
    fn has_second(self) -> bool {
        matches!(self, Given::Second | Given::Both)
    }
}

// The term of an integer.
fn number(value: i64) -> Term
    requires { IsTrue (is_in_range value) }
    ensures same { seen result ≡ integer value }
    ensures in_range { IsTrue (is_in_range value) }
{
    Term::Int(value)
}

// An integer where it is given, and else a variable.
fn argument(is_given: bool, value: i64, variable: u32) -> Term
    requires { IsTrue (is_in_range value) }
    ensures valid { IsTrue (is_valid (seen result)) }
    ensures single { nodes (seen result) ≤ 1 }
{
    if is_given {
        Term::Int(value)
    } else {
        Term::Var(variable)
    }
}

/// A file of t/2 or t/3.
#[derive(Drop)]
pub struct Relation {
    file: BangFile,
    width: Width,
    ghost declared: { IsOfWidth width file.decl },
}

impl Relation {
    /// A file without tuples.
    pub fn new(alloc: Global, width: Width) -> Result<Relation, AllocError> {
        let pred = Pred {
            name: Name::new(alloc, b"t")?,
            arity: width.arity(),
        };
        let decl = Decl::with_default_keys(alloc, pred, Kind::Relation)?;
        let file = BangFile::new(alloc, decl)?;
        Ok(Relation { file, width })
    }

    /// The number of regions.
    pub fn len(&self) -> usize {
        self.file.len()
    }

    // The tuple of a row.
    fn tuple(&self, alloc: Global, row: &Row) -> Result<Term, AllocError>
        ensures { IfOk result (λ t. IsTrue (is_allowed self.now.file.decl (seen t))) }
    {
        let name = &self.file.decl().pred.name;
        let _is_name = name.as_slice();
        let first = number(row.first);
        let second = number(row.second);
        let third = number(row.third);
        term_of(alloc, self.width, name, first, second, third)
    }

    // A term that asks for tuples with some of the arguments of a row.
    fn head(&self, alloc: Global, row: &Row, given: Given) -> Result<Term, AllocError>
        ensures declared { IfOk result (λ t.
            IsTrue (is_of self.now.file.decl.pred.name self.now.file.decl.pred.arity (seen t))) }
        ensures valid { IfOk result (λ t. IsTrue (is_valid (seen t))) }
        ensures small { IfOk result (λ t. nodes (seen t) ≤ 4096) }
    {
        let name = &self.file.decl().pred.name;
        let _is_name = name.as_slice();
        let first = argument(given.has_first(), row.first, 0);
        let second = argument(given.has_second(), row.second, 1);
        let third = argument(false, row.third, 2);
        term_of(alloc, self.width, name, first, second, third)
    }

    /// Puts the tuple of a row into the file, and says whether it wasn't there.
    pub fn insert(&mut self, alloc: Global, row: &Row) -> Result<bool, OutOfMemory> {
        let tuple = self.tuple(alloc, row)?;
        Ok(self.file.insert(tuple, 0)? == Put::Added)
    }

    /// Whether the file has the tuple of a row.
    pub fn has(&self, alloc: Global, row: &Row) -> Result<bool, OutOfMemory> {
        let tuple = self.tuple(alloc, row)?;
        let key = key_of(alloc, self.file.decl(), &tuple, 0)?;
        Ok(self.file.at(&key).is_some())
    }

    /// How many tuples have the given arguments of a row.
    pub fn answers(&self, alloc: Global, row: &Row, given: Given) -> Result<usize, OutOfMemory> {
        let head = self.head(alloc, row, given)?;
        Ok(self.file.matches(&head)?.len())
    }

    /// How many regions may hold a tuple with the given arguments of a row. A match looks at these
    /// alone.
    pub fn regions_looked_at(
        &self,
        alloc: Global,
        row: &Row,
        given: Given,
    ) -> Result<usize, OutOfMemory> {
        let head = self.head(alloc, row, given)?;
        let pattern = pattern_of(self.file.decl(), &head);
        let mut looked = 0;
        for i in 0..self.file.len() {
            if may_hold(&pattern, self.file.prefix(i)) {
                looked += 1;
            }
        }
        Ok(looked)
    }
}
