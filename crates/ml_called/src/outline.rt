//! The outline of a goal: its name, with a variable in place of each argument. The arguments' cells
//! go behind the slots of an environment, in which the variables are numbered.
ghost use Rattle.std.specs.Prelude.{◌≡◌, ◌-◌, ◌<◌, ◌≤◌, [], ◌∷◌, ◌++◌, false, IfOk, OnOk, length, vec_len};
ghost use Rattle.ml_heap.specs.Changes.{arguments_of, cell_count, stands_for};
ghost use Rattle.ml_term.specs.Seen.{all_seen, seen};
ghost use Rattle.ml_term.specs.Tree.{variable};
ghost use Rattle.ml_called.specs.Called.{numbered};
ghost use Rattle.ml_called.specs.inside.Outlines.{Begins, HasCells, outline, parts};
ghost use Rattle.ml_called.specs.inside.Pairs.{is_joined};

use ml_heap::{Heap, Look, Ref};
use ml_term::{ArgsOf, Term};
use std::alloc::AllocError;

/// The outline of a term that is no connective of two. Its variables are numbered from the first
/// slot on, which is at `env`. After a refusal some cells may stand behind the slots.
pub(crate) fn outline_goal(
    heap: &Heap,
    at: Ref,
    env: usize,
    slots: &mut Vec<Ref>,
) -> Result<Term, AllocError>
    requires inside { at < cell_count heap.now }
    requires env { env ≤ vec_len slots.old }
    requires goal { is_joined (stands_for heap.now at) ≡ false }
    ensures outline { IfOk result (λ term.
        seen term ≡ outline (vec_len slots.old - env) (stands_for heap.now at)) }
    ensures cells { OnOk result (HasCells heap.now slots.old.items slots.new.items
        (parts (stands_for heap.now at))) }
    ensures begins { Begins slots.old.items slots.new.items }
{
    match heap.look(at) {
        Look::Var(_) => variable_of(at, env, slots),
        Look::Int(value) => Ok(Term::Int(value)),
        Look::Atom(name) => Ok(Term::Atom(name.copy_of(heap.allocator())?)),
        Look::Cmp(name, arity) => {
            let name = name.copy_of(heap.allocator())?;
            let args = variables_of(heap, at, arity, env, slots)?;
            Ok(Term::Cmp(name, ArgsOf::new(args)))
        }
    }
}

// The variables of a compound's arguments, whose cells go behind the slots from the left.
fn variables_of(
    heap: &Heap,
    at: Ref,
    arity: u8,
    env: usize,
    slots: &mut Vec<Ref>,
) -> Result<Vec<Term>, AllocError>
    requires inside { at < cell_count heap.now }
    requires env { env ≤ vec_len slots.old }
    requires arity { arity ≡ length (arguments_of (stands_for heap.now at)) }
    ensures variables { IfOk result (λ args. all_seen args.items
        ≡ numbered (vec_len slots.old - env) (arguments_of (stands_for heap.now at))) }
    ensures cells { OnOk result (HasCells heap.now slots.old.items slots.new.items
        (arguments_of (stands_for heap.now at))) }
    ensures begins { Begins slots.old.items slots.new.items }
{
    let mut args = Vec::new(heap.allocator());
    for i in 0..arity {
        args.push(variable_of(heap.arg(at, i), env, slots)?)?;
    }
    Ok(args)
}

// The variable of a cell that goes behind the slots: its number is that of its slot.
fn variable_of(cell: Ref, env: usize, slots: &mut Vec<Ref>) -> Result<Term, AllocError>
    requires { env ≤ vec_len slots.old }
    ensures variable { IfOk result (λ term. seen term ≡ variable (vec_len slots.old - env)) }
    ensures slots { OnOk result (slots.new.items ≡ slots.old.items ++ cell ∷ []) }
    ensures begins { Begins slots.old.items slots.new.items }
{
    let Ok(number) = u32::try_from(slots.len() - env) else {
        return Err(AllocError);
    };
    slots.push(cell)?;
    Ok(Term::Var(number))
}
