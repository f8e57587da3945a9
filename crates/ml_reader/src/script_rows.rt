//! Worked rows of scripts: which clauses one is, and which clause is the first that none has there.
//! The function does nothing; its clauses are the rows.
ghost use Rattle.std.specs.Prelude.{◌≡◌, pos, [], ◌∷◌, Ok, Err, codes};
ghost use Rattle.ml_term.specs.Tree.{variable, integer, compound_2};
ghost use Rattle.ml_search.specs.Program.{commit, abort, unless};
ghost use Rattle.ml_reader.specs.Scripts.{query_term};
ghost use Rattle.ml_reader.specs.inside.script.ScriptItems.{script};
ghost use Rattle.ml_reader.specs.inside.script.ScriptRows.{reading, clause, clause_with_x, goal};
ghost use Rattle.ml_reader.specs.inside.script.ScriptRows.{goal_with_x, budget, p, p_of_x};
ghost use Rattle.ml_reader.specs.inside.script.ScriptRows.{abort_clause, condition};

/// Clauses with the script that they are, or the first of them that no script has there.
pub fn clauses_with_their_scripts()
    // no clause
    ensures empty { reading [] ≡ Ok (script 20000 [] commit) }
    // :- budget(200000). ?- p(X). ?- p. :- commit_unless(X).
    ensures all_parts { reading (budget (integer (pos 200000)) ∷ clause_with_x (query_term p_of_x)
        ∷ clause (query_term p) ∷ condition (variable 0) ∷ [])
        ≡ Ok (script 200000 (goal_with_x p_of_x ∷ goal p ∷ [])
        (unless (goal_with_x (variable 0)))) }
    // ?- p. :- abort.
    ensures aborts { reading (clause (query_term p) ∷ abort_clause ∷ [])
        ≡ Ok (script 20000 (goal p ∷ []) abort) }
    // :- budget(0).
    ensures no_budget { reading (budget (integer (pos 0)) ∷ []) ≡ Err (budget (integer (pos 0))) }
    // :- budget(200001).
    ensures too_large { reading (budget (integer (pos 200001)) ∷ [])
        ≡ Err (budget (integer (pos 200001))) }
    // :- budget(1). :- budget(2).
    ensures two_budgets { reading (budget (integer (pos 1)) ∷ budget (integer (pos 2)) ∷ [])
        ≡ Err (budget (integer (pos 2))) }
    // ?- p. :- budget(1).
    ensures late_budget { reading (clause (query_term p) ∷ budget (integer (pos 1)) ∷ [])
        ≡ Err (budget (integer (pos 1))) }
    // :- abort. ?- p.
    ensures late_goal { reading (abort_clause ∷ clause (query_term p) ∷ [])
        ≡ Err (clause (query_term p)) }
    // :- abort. :- commit_unless(p).
    ensures two_ends { reading (abort_clause ∷ condition p ∷ []) ≡ Err (condition p) }
    // ?- 1.
    ensures number { reading (clause (query_term (integer (pos 1))) ∷ [])
        ≡ Err (clause (query_term (integer (pos 1)))) }
    // ?- (p, 1).
    ensures number_in_body { reading
        (clause (query_term (compound_2 (codes ",") p (integer (pos 1)))) ∷ [])
        ≡ Err (clause (query_term (compound_2 (codes ",") p (integer (pos 1))))) }
    // p.
    ensures no_item { reading (clause p ∷ []) ≡ Err (clause p) }
{}
