//! The checks of the predicate whose list is to change.
ghost use Rattle.std.specs.Prelude.{◌≡◌, ◌<◌, IfOk};
ghost use Rattle.ml_heap.specs.Changes.{cell_count, stands_for};
ghost use Rattle.ml_program.specs.LoadedProgram.{program_of};
ghost use Rattle.ml_search.specs.Changes.{list_for};
ghost use Rattle.ml_search.specs.Procedures.{is_reserved};
ghost use Rattle.ml_store_goals.specs.inside.Checks.{HasStatus, head_fault, IsListed, is_of_kind};
ghost use Rattle.ml_store_goals.specs.inside.Checks.{list_fault, list_named};
ghost use Rattle.ml_term.specs.declared.declaration.Decl.{Decl};

use crate::checked::Listed;
use ml_heap::{Heap, Look, Ref};
use ml_program::{Link, Loaded};
use ml_raise::{TermType, existence_error, instantiation_error, permission_error, type_error};
use ml_search::is_reserved;
use ml_term::{Kind, Name, Pred};
use std::alloc::{AllocError, Global};

/// What is known of a predicate before a list of it changes.
#[derive(Clone, Copy)]
pub(crate) enum Status {
    /// It is declared, as one of this kind, with a list of this number.
    Declared(Kind, u32),
    /// It isn't declared, but it is a control construct, or a built-in, or has clauses.
    Static,
    /// It is unknown.
    Unknown,
}

/// The number of the list of a cell's term, where its predicate is declared as one of this kind.
pub(crate) fn list_at(
    program: &Loaded,
    kind: Kind,
    heap: &Heap,
    at: Ref,
) -> Result<Listed, AllocError>
    requires { at < cell_count heap.now }
    ensures { IfOk result (λ listed. IsListed
        (head_fault (program_of program.now) kind (stands_for heap.now at))
        (list_for (program_of program.now).decls (stands_for heap.now at)) listed) }
{
    let alloc = heap.allocator();
    match heap.look(at) {
        Look::Var(_) => Ok(Listed::Raises(instantiation_error(alloc)?)),
        Look::Int(_) => Ok(Listed::Raises(type_error(heap, TermType::Callable, at)?)),
        Look::Atom(name) => list_of(alloc, program, kind, name, 0),
        Look::Cmp(name, arity) => list_of(alloc, program, kind, name, arity),
    }
}

// The number of the list of the predicate of this name and arity, where it is declared as one of
// this kind.
fn list_of(
    alloc: Global,
    program: &Loaded,
    kind: Kind,
    name: &Name,
    arity: u8,
) -> Result<Listed, AllocError>
    ensures { IfOk result (λ listed. IsListed
        (list_fault (program_of program.now) kind name.now arity)
        (list_named (program_of program.now) name.now arity) listed) }
{
    let name = name.copy_of(alloc)?;
    list_of_predicate(alloc, program, kind, &Pred { name, arity })
}

// The number of a predicate's list, where it is declared as one of this kind.
fn list_of_predicate(
    alloc: Global,
    program: &Loaded,
    kind: Kind,
    pred: &Pred,
) -> Result<Listed, AllocError>
    ensures { IfOk result (λ listed. IsListed
        (list_fault (program_of program.now) kind pred.now.name pred.now.arity)
        (list_named (program_of program.now) pred.now.name pred.now.arity) listed) }
{
    match status_of(program, pred) {
        Status::Declared(found, list) => {
            if is_same(kind, found) {
                return Ok(Listed::List(list));
            }
            Ok(Listed::Raises(permission_error(alloc, &pred.name, pred.arity)?))
        }
        Status::Static => Ok(Listed::Raises(permission_error(alloc, &pred.name, pred.arity)?)),
        Status::Unknown => Ok(Listed::Raises(existence_error(alloc, &pred.name, pred.arity)?)),
    }
}

// Whether the kinds are the same.
fn is_same(kind: Kind, found: Kind) -> bool
    ensures { (d : Decl) → d.kind ≡ found → is_of_kind kind d ≡ result }
{
    match (kind, found) {
        (Kind::Relation, Kind::Relation) => true,
        (Kind::Relation, Kind::Clauses) => false,
        (Kind::Clauses, Kind::Relation) => false,
        (Kind::Clauses, Kind::Clauses) => true,
    }
}

// What is known of a predicate. It takes no memory.
fn status_of(program: &Loaded, pred: &Pred) -> Status
    ensures { HasStatus (program_of program.now) pred.now.name pred.now.arity result }
{
    if let Some((kind, list)) = program.declared(pred) {
        return Status::Declared(kind, list);
    }
    if is_built_in(pred) {
        return Status::Static;
    }
    match program.link_of(pred) {
        Link::Unknown => Status::Unknown,
        _ => Status::Static,
    }
}

// Whether a predicate is a control construct or a built-in. It takes no memory.
fn is_built_in(pred: &Pred) -> bool
    ensures { result ≡ is_reserved pred.now.name pred.now.arity }
{
    is_reserved(&pred.name, usize::from(pred.arity))
}
