//! The tests of one term's type.
ghost use Rattle.std.specs.Prelude.{◌≡◌, ◌<◌, IfOk, MatchOption, None};
ghost use Rattle.ml_heap.specs.Changes.{cell_count, stands_for};
ghost use Rattle.ml_search.specs.Builtins.{type_tests};
ghost use Rattle.ml_search.specs.Names.{look_up};
ghost use Rattle.ml_builtin.specs.Tables.{test_name};
ghost use Rattle.ml_builtin.specs.inside.Meanings.{later_tests, type_test};

use crate::ground::is_ground;
use crate::seen_types::{is_atom, is_compound, is_integer, is_variable};
use ml_heap::{Heap, Ref};
use ml_term::Name;
use std::alloc::AllocError;

/// A test of one term's type.
#[derive(Clone, Copy)]
pub enum TypeTest {
    /// `var`
    Variable,
    /// `nonvar`
    NoVariable,
    /// `atom`
    Atom,
    /// `integer`
    Integer,
    /// `atomic`
    Atomic,
    /// `compound`
    Compound,
    /// `callable`
    Callable,
    /// `ground`
    Ground,
}

impl TypeTest {
    // The test of a name.
    pub(crate) fn of(name: &Name) -> Option<TypeTest>
        ensures { MatchOption result (look_up type_tests name.now ≡ None)
            (λ test. test_name test ≡ name.now) }
    {
        let name = name.as_slice();
        if b"var".as_slice() == name {
            Some(TypeTest::Variable)
        } else if b"nonvar".as_slice() == name {
            Some(TypeTest::NoVariable)
        } else if b"atom".as_slice() == name {
            Some(TypeTest::Atom)
        } else if b"integer".as_slice() == name {
            Some(TypeTest::Integer)
        } else {
            TypeTest::of_more_types(name)
        }
    }

    // The same of the tests of more than one type, of compounds, and of what stands in a term.
    fn of_more_types(name: &[u8]) -> Option<TypeTest>
        ensures { MatchOption result (look_up later_tests name.now ≡ None)
            (λ test. test_name test ≡ name.now) }
    {
        if b"atomic".as_slice() == name {
            Some(TypeTest::Atomic)
        } else if b"compound".as_slice() == name {
            Some(TypeTest::Compound)
        } else if b"callable".as_slice() == name {
            Some(TypeTest::Callable)
        } else if b"ground".as_slice() == name {
            Some(TypeTest::Ground)
        } else {
            None
        }
    }

    // Whether the test holds of a cell's term.
    pub(crate) fn holds(self, heap: &Heap, at: Ref) -> Result<bool, AllocError>
        requires { at < cell_count heap.now }
        ensures { IfOk result (λ holds. holds ≡ type_test self (stands_for heap.now at)) }
    {
        match self {
            TypeTest::Variable => Ok(is_variable(heap, at)),
            TypeTest::NoVariable => Ok(!is_variable(heap, at)),
            TypeTest::Atom => Ok(is_atom(heap, at)),
            TypeTest::Integer => Ok(is_integer(heap, at)),
            TypeTest::Atomic => Ok(is_atom(heap, at) || is_integer(heap, at)),
            TypeTest::Compound => Ok(is_compound(heap, at)),
            TypeTest::Callable => Ok(is_atom(heap, at) || is_compound(heap, at)),
            TypeTest::Ground => Ok(is_ground(heap, at)?),
        }
    }
}
