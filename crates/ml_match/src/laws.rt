//! Laws of heads and their arguments. The functions do nothing: their contracts are the laws, for
//! the layers above and for the reader.
ghost use Rattle.std.specs.Prelude.{◌≡◌, ℕ, List, length};
ghost use Rattle.ml_term.specs.Tree.{Tree};
ghost use Rattle.ml_term.specs.Unify.{mgu, unifier};
ghost use Rattle.ml_search.specs.Bodies.{goal_term};
ghost use Rattle.ml_search.specs.Actions.{shift_variables};
ghost use Rattle.ml_match.specs.Entered.{head_equations};

/// A goal and a head of one name and as many arguments are unified by their arguments.
pub fn heads_are_matched_by_their_arguments()
    ensures { (next : ℕ) (name : List ℕ) (ts us : List Tree) (head : Tree) →
        head ≡ goal_term name us → length us ≡ length ts →
        unifier (goal_term name ts) (shift_variables next head)
        ≡ mgu (head_equations next ts head) }
{}
