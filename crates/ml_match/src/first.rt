//! First arguments that clash.
ghost use Rattle.std.specs.Prelude.{◌≡◌, ◌+◌, ◌<◌, ◌∷◌, ℕ, List, false, length, None};
ghost use Rattle.ml_term.specs.Tree.{Tree};
ghost use Rattle.ml_term.specs.Unify.{unifier};
ghost use Rattle.ml_search.specs.Program.{Clause, arity_of};
ghost use Rattle.ml_search.specs.Bodies.{goal_term};
ghost use Rattle.ml_search.specs.Actions.{shift_variables};
ghost use Rattle.ml_heap.specs.Changes.{cell_count, stands_for};
ghost use Rattle.ml_compile.specs.Spells.{SpellsClause};

use crate::mode::{Mode, mode_of};
use ml_compile::Instr;
use ml_heap::{Heap, Ref};

/// Whether the head of a clause may unify with a goal whose first argument is the term of a cell,
/// by the clause's code: false only where the first arguments clash, in kind, value, name or
/// arity, so that no unifier exists. It takes no memory.
pub fn may_match(heap: &Heap, code: &[Instr], first: Ref) -> bool
    requires { first < cell_count heap.now }
    ensures { result ≡ false → (c : Clause) (next : ℕ) (name : List ℕ) (ts : List Tree) →
        SpellsClause code.now c → arity_of c.head ≡ 1 + length ts →
        unifier (goal_term name (stands_for heap.now first ∷ ts)) (shift_variables next c.head)
        ≡ None }
{
    let Some(instr) = code.get(1) else {
        return true;
    };
    match mode_of(heap, first, instr) {
        Mode::Clash => false,
        _ => true,
    }
}
