//! What one turn of the search that asks is, in explicit states, under premises that a step of the
//! machine has at hand. The functions do nothing: their contracts are the laws.
ghost use Rattle.ml_asking.specs.Asking.{AskingSearch, request, finish, concludes, effect_of};
ghost use Rattle.ml_asking.specs.Asking.{ChoicePoint, item_choices, after_fetch, go_on, Member};
ghost use Rattle.ml_asking.specs.Asking.{push_branches, after_opening, FindallFrame, branch_choice};
ghost use Rattle.ml_asking.specs.Asking.{push_clauses, clause_choices, turn};
ghost use Rattle.ml_asking.specs.Expand.{is_stored};
ghost use Rattle.ml_asking.specs.TurnWords.{after_change, at_choices, at_goals, at_unified};
ghost use Rattle.ml_asking.specs.TurnWords.{behind_clause, goal_argument, outermost_found};
ghost use Rattle.ml_asking.specs.TurnWords.{raise_move, resume_from, throw_move, Turns, TurnsWith};
ghost use Rattle.ml_asking.specs.TurnWords.{uses_inference, with_left};
ghost use Rattle.ml_search.specs.Bodies.{ball_fault, Body, conjunction, call, once, catch};
ghost use Rattle.ml_search.specs.Bodies.{if_then_else, cut, disjunction, fail_goal, findall};
ghost use Rattle.ml_search.specs.Bodies.{goal_fault, goal_term, list_fault, if_then, predication};
ghost use Rattle.ml_search.specs.Bodies.{body_from, throw, true_goal, not_provable};
ghost use Rattle.ml_search.specs.Builtins.{binds, BuiltinResult, fails};
ghost use Rattle.ml_search.specs.Builtins as B;
ghost use Rattle.ml_search.specs.Changes.{change_made, no_change};
ghost use Rattle.ml_search.specs.Changes as C;
ghost use Rattle.ml_search.specs.Db.{body_of, head_of};
ghost use Rattle.ml_search.specs.Errors.{existence_error, is_too_large, resource_error};
ghost use Rattle.ml_search.specs.Procedures.{procedure_of};
ghost use Rattle.ml_search.specs.ListTerms.{list_term};
ghost use Rattle.ml_search.specs.Operations.{asserta, assertz, cursor, delete, delete_at, insert};
ghost use Rattle.ml_search.specs.Operations.{item, next, no_item, opens, Reply};
ghost use Rattle.ml_search.specs.Program.{Clause, Program, true_body};
ghost use Rattle.ml_search.specs.Replay.{item_head};
ghost use Rattle.ml_search.specs.Search.{last_of};
ghost use Rattle.ml_search.specs.Actions.{as_clause, as_tuple, assert_first, assert_last, ball};
ghost use Rattle.ml_search.specs.Actions.{run_body, Branch, catch_mark, copies, cut_to};
ghost use Rattle.ml_search.specs.Actions.{declared_predicate, program_predicate, delete_tuple};
ghost use Rattle.ml_search.specs.Actions.{success, out_of_inferences, end_of_answers};
ghost use Rattle.ml_search.specs.Actions.{shift_variables, Continuation, inner_branch};
ghost use Rattle.ml_search.specs.Actions.{insert_tuple, Procedure, next_after, plain_builtin};
ghost use Rattle.ml_search.specs.Actions.{raise_error, renamed_body, retract_clause, unify};
ghost use Rattle.ml_search.specs.Actions.{count_inference, erase, to_retract, unknown_procedure};
ghost use Rattle.ml_search.specs.Actions.{Usage, with_goals, with_map};
ghost use Rattle.ml_term.specs.Tree.{rename, Tree, width};
ghost use Rattle.ml_term.specs.Unify.{Map, unifier};
ghost use Rattle.std.specs.List.{flat_map};
ghost use Rattle.std.specs.Prelude.{codes, false, length, List, None, Option, Some, suc, true, ℕ};
ghost use Rattle.std.specs.Prelude.{[], ◌+◌, ◌++◌, ◌∷◌, ◌≡◌};

/// Turns by control constructs and by marks: they use no inference and ask for nothing.
pub fn turns_by_control()
    ensures true_goal { (p : Program) (h : ℕ) (gs : Continuation Member) →
        Turns p (run_body true_goal h gs) (at_goals gs) }
    ensures fail_goal { (p : Program) (h : ℕ) (gs : Continuation Member) →
        Turns p (run_body fail_goal h gs) (λ b r m. at_choices r m) }
    ensures conjunction { (p : Program) (x y : Body) (h : ℕ) (gs : Continuation Member) →
        Turns p (run_body (conjunction x y) h gs) (at_goals (run_body x h (run_body y h gs))) }
    ensures disjunction { (p : Program) (x y : Body) (h : ℕ) (gs : Continuation Member) →
        Turns p (run_body (disjunction x y) h gs) (λ b r m.
        at_goals (run_body x h gs) b (branch_choice (with_goals (run_body y h gs) b) ∷ r) m) }
    ensures if_then_else { (p : Program) (c x y : Body) (h : ℕ) (gs : Continuation Member) →
        Turns p (run_body (if_then_else c x y) h gs) (λ b r m.
        at_goals (run_body c (suc (length r)) (cut_to (length r) (run_body x h gs))) b
        (branch_choice (with_goals (run_body y h gs) b) ∷ r) m) }
    ensures if_then { (p : Program) (c x : Body) (h : ℕ) (gs : Continuation Member) →
        Turns p (run_body (if_then c x) h gs) (λ b r m.
        at_goals (run_body c (suc (length r)) (cut_to (length r) (run_body x h gs))) b
        (branch_choice (with_goals (run_body fail_goal h gs) b) ∷ r) m) }
    ensures cut { (p : Program) (h : ℕ) (gs : Continuation Member) →
        Turns p (run_body cut h gs) (λ b r m. at_goals gs b (last_of h r) m) }
    ensures cut_to { (p : Program) (h : ℕ) (gs : Continuation Member) →
        Turns p (cut_to h gs) (λ b r m. at_goals gs b (last_of h r) m) }
    ensures catch_mark { (p : Program) (h : ℕ) (c k : Tree) (saved : Continuation Member)
        (ts : List Tree) (gs : Continuation Member) →
        Turns p (catch_mark h c k saved ts gs) (at_goals gs) }
    ensures unify { (p : Program) (t u : Tree) (v : Map) (gs : Continuation Member) →
        unifier t u ≡ Some v →
        Turns p (unify t u gs) (λ b r m. at_unified v gs b.next b r m) }
    ensures unlike { (p : Program) (t u : Tree) (gs : Continuation Member) → unifier t u ≡ None →
        Turns p (unify t u gs) (λ b r m. at_choices r m) }
{}

/// Turns by goals that use an inference and ask for nothing, and by clauses that are left.
/// `goal_exhausted`, `goal_refused` speak of the control built-ins with a goal as their argument.
/// `clause`, `clash`: a clause whose renamed head unifies, and one whose doesn't; the next
/// clauses stay while there are any.
pub fn turns_by_calls()
    ensures goal_exhausted { (p : Program) (x : Body) (g : Tree) (h : ℕ)
        (gs : Continuation Member) →
        goal_argument x ≡ Some g → TurnsWith 0 p (run_body x h gs) (λ b r m.
        concludes m.frames out_of_inferences m.found 0) }
    ensures goal_refused { (p : Program) (x : Body) (g t : Tree) (h : ℕ) (gs : Continuation Member)
        (n : ℕ) →
        goal_argument x ≡ Some g → goal_fault g ≡ Some t →
        TurnsWith (suc n) p (run_body x h gs) (λ b r m. raise_move t gs b r (with_left n m)) }
    ensures call { (p : Program) (g : Tree) (h : ℕ) (gs : Continuation Member) (n : ℕ) →
        goal_fault g ≡ None → TurnsWith (suc n) p (run_body (call g) h gs) (λ b r m.
        at_goals (run_body (body_from g) (length r) gs) b r (with_left n m)) }
    ensures once { (p : Program) (g : Tree) (h : ℕ) (gs : Continuation Member) (n : ℕ) →
        goal_fault g ≡ None → TurnsWith (suc n) p (run_body (once g) h gs) (λ b r m.
        at_goals (run_body (body_from g) (length r) (cut_to (length r) gs)) b r
        (with_left n m)) }
    ensures not_provable { (p : Program) (g : Tree) (h : ℕ) (gs : Continuation Member) (n : ℕ) →
        goal_fault g ≡ None → TurnsWith (suc n) p (run_body (not_provable g) h gs) (λ b r m.
        at_goals
        (run_body (body_from g) (suc (length r))
        (cut_to (length r) (run_body fail_goal (length r) gs)))
        b (branch_choice (with_goals gs b) ∷ r) (with_left n m)) }
    ensures catch { (p : Program) (g c k : Tree) (h : ℕ) (gs : Continuation Member) (n : ℕ) →
        goal_fault g ≡ None → TurnsWith (suc n) p (run_body (catch g c k) h gs) (λ b r m.
        at_goals
        (run_body (body_from g) (length r) (catch_mark (length r) c k gs b.terms gs)) b r
        (with_left n m)) }
    ensures throw_exhausted { (p : Program) (t : Tree) (h : ℕ) (gs : Continuation Member) →
        TurnsWith 0 p (run_body (throw t) h gs)
        (λ b r m. concludes m.frames out_of_inferences m.found 0) }
    ensures throw { (p : Program) (t : Tree) (h : ℕ) (gs : Continuation Member) (n : ℕ) →
        ball_fault t ≡ None → TurnsWith (suc n) p (run_body (throw t) h gs) (λ b r m.
        throw_move t b.next gs r (with_left n m)) }
    ensures throw_refused { (p : Program) (t u : Tree) (h : ℕ) (gs : Continuation Member) (n : ℕ) →
        ball_fault t ≡ Some u → TurnsWith (suc n) p (run_body (throw t) h gs) (λ b r m.
        raise_move u gs b r (with_left n m)) }
    ensures predicate_exhausted { (p : Program) (f : List ℕ) (ts : List Tree) (h : ℕ)
        (gs : Continuation Member) → uses_inference (procedure_of p f ts) ≡ true →
        TurnsWith 0 p (run_body (predication f ts) h gs)
        (λ b r m. concludes m.frames out_of_inferences m.found 0) }
    ensures plain_fails { (p : Program) (f : List ℕ) (ts : List Tree) (d : ℕ → BuiltinResult)
        (h : ℕ)
        (gs : Continuation Member) (n k : ℕ) → procedure_of p f ts ≡ plain_builtin d → d k ≡ fails →
        (m : AskingSearch) (b : Branch Member) (r : List ChoicePoint) →
        m.choice_points ≡ branch_choice b ∷ r →
        b.goals ≡ run_body (predication f ts) h gs → b.next ≡ k → m.left ≡ suc n →
        turn p m ≡ at_choices r (with_left n m) }
    ensures plain_binds { (p : Program) (f : List ℕ) (ts : List Tree) (d : ℕ → BuiltinResult)
        (h : ℕ)
        (gs : Continuation Member) (n k : ℕ) (v : Map) (l : ℕ) →
        procedure_of p f ts ≡ plain_builtin d →
        d k ≡ binds v l → (m : AskingSearch) (b : Branch Member) (r : List ChoicePoint) →
        m.choice_points ≡ branch_choice b ∷ r → b.goals ≡ run_body (predication f ts) h gs →
        b.next ≡ k →
        m.left ≡ suc n → turn p m ≡ at_unified v gs l b r (with_left n m) }
    ensures plain_raises { (p : Program) (f : List ℕ) (ts : List Tree) (d : ℕ → BuiltinResult)
        (h : ℕ)
        (gs : Continuation Member) (n k : ℕ) (t : Tree) → procedure_of p f ts ≡ plain_builtin d →
        d k ≡ B.raises t → (m : AskingSearch) (b : Branch Member) (r : List ChoicePoint) →
        m.choice_points ≡ branch_choice b ∷ r → b.goals ≡ run_body (predication f ts) h gs →
        b.next ≡ k →
        m.left ≡ suc n → turn p m ≡ raise_move t gs b r (with_left n m) }
    ensures program { (p : Program) (f : List ℕ) (ts : List Tree) (cs : List Clause) (h : ℕ)
        (gs : Continuation Member) (n : ℕ) → procedure_of p f ts ≡ program_predicate cs →
        TurnsWith (suc n) p (run_body (predication f ts) h gs) (λ b r m.
        at_choices (clause_choices (goal_term f ts) (with_goals gs b) cs ∷ r) (with_left n m)) }
    ensures unknown { (p : Program) (f : List ℕ) (ts : List Tree) (h : ℕ)
        (gs : Continuation Member) →
        procedure_of p f ts ≡ unknown_procedure →
        Turns p (run_body (predication f ts) h gs) (λ b r m.
        raise_move (existence_error f (length ts)) gs b r m) }
    ensures store_refused { (p : Program) (f : List ℕ) (ts : List Tree) (t : Tree) (h : ℕ)
        (gs : Continuation Member) (n : ℕ) → procedure_of p f ts ≡ raise_error t →
        TurnsWith (suc n) p (run_body (predication f ts) h gs)
        (λ b r m. raise_move t gs b r (with_left n m)) }
    ensures no_clause { (p : Program) (goal : Tree) (b : Branch Member) (r : List ChoicePoint)
        (m : AskingSearch) → m.choice_points ≡ clause_choices goal b [] ∷ r →
        turn p m ≡ at_choices r m }
    ensures clash { (p : Program) (goal : Tree) (b : Branch Member) (c : Clause)
        (cs : List Clause) (r : List ChoicePoint) (m : AskingSearch) →
        m.choice_points ≡ clause_choices goal b (c ∷ cs) ∷ r →
        unifier goal (shift_variables b.next c.head) ≡ None →
        turn p m ≡ at_choices (push_clauses goal b cs r) m }
    ensures clause { (p : Program) (goal : Tree) (b : Branch Member) (c : Clause)
        (cs : List Clause) (r : List ChoicePoint) (m : AskingSearch) (v : Map) →
        m.choice_points ≡ clause_choices goal b (c ∷ cs) ∷ r →
        unifier goal (shift_variables b.next c.head) ≡ Some v →
        turn p m ≡ at_unified v (renamed_body c.body (length r) b)
        (behind_clause c.head c.body b) b (push_clauses goal b cs r) m }
{}

/// Turns that ask a desk, and what its replies lead to.
/// `opened`: the reply to an opening. `tuple`, `stored_clause`, `clause_to_retract`, `no_match`,
/// `no_item`: the reply to a wish for an item, by how it is used. `change_made`, `no_change`,
/// `change_limit`: what a reply to a change leads to.
pub fn turns_by_items()
    ensures opens { (p : Program) (f : List ℕ) (ts : List Tree) (how : Usage) (d h : ℕ)
        (gs : Continuation Member) (n : ℕ) → procedure_of p f ts ≡ declared_predicate how d →
        is_too_large (goal_term f ts) ≡ false →
        TurnsWith (suc n) p (run_body (predication f ts) h gs)
        (λ b r m. request (opens d (goal_term f ts)) (λ reply.
        after_opening reply how (goal_term f ts) (with_goals gs b) r (with_left n m))) }
    ensures too_large { (p : Program) (f : List ℕ) (ts : List Tree) (how : Usage) (d h : ℕ)
        (gs : Continuation Member) (n : ℕ) → procedure_of p f ts ≡ declared_predicate how d →
        is_too_large (goal_term f ts) ≡ true →
        TurnsWith (suc n) p (run_body (predication f ts) h gs)
        (λ b r m. raise_move (resource_error (codes "term")) gs b r (with_left n m)) }
    ensures retracts { (p : Program) (f : List ℕ) (ts : List Tree) (d h : ℕ) (head wanted : Tree)
        (gs : Continuation Member) (n : ℕ) → procedure_of p f ts ≡ retract_clause d head wanted →
        TurnsWith (suc n) p (run_body (predication f ts) h gs)
        (λ b r m. request (opens d head) (λ reply.
        after_opening reply (to_retract wanted) head (with_goals gs b) r (with_left n m))) }
    ensures opened { (c : ℕ) (how : Usage) (goal : Tree) (b : Branch Member) (r : List ChoicePoint)
        (m : AskingSearch) →
        after_opening (cursor c) how goal b r m ≡ at_choices (item_choices how goal b c 0 ∷ r) m }
    ensures fetches { (p : Program) (how : Usage) (goal : Tree) (b : Branch Member) (c i : ℕ)
        (r : List ChoicePoint) (m : AskingSearch) →
        m.choice_points ≡ item_choices how goal b c i ∷ r →
        turn p m ≡ request (next c i) (λ reply. after_fetch reply how goal b c i r m) }
    ensures tuple { (goal : Tree) (b : Branch Member) (c i : ℕ) (r : List ChoicePoint)
        (m : AskingSearch)
        (t : Tree) (v : Map) → unifier goal (shift_variables b.next t) ≡ Some v →
        after_fetch (item t) as_tuple goal b c i r m
        ≡ at_unified v (count_inference (renamed_body true_body (length r) b))
        (behind_clause t true_body b) b (item_choices as_tuple goal b c (suc i) ∷ r) m }
    ensures stored_clause { (goal : Tree) (b : Branch Member) (c i : ℕ) (r : List ChoicePoint)
        (m : AskingSearch) (t : Tree) (v : Map) →
        unifier goal (shift_variables b.next (head_of t)) ≡ Some v →
        after_fetch (item t) as_clause goal b c i r m
        ≡ at_unified v (count_inference (renamed_body (body_of t) (length r) b))
        (behind_clause (head_of t) (body_of t) b) b
        (item_choices as_clause goal b c (suc i) ∷ r) m }
    ensures clause_to_retract { (goal wanted : Tree) (b : Branch Member) (c i : ℕ)
        (r : List ChoicePoint)
        (m : AskingSearch) (t : Tree) (v : Map) →
        unifier goal (shift_variables b.next (head_of t)) ≡ Some v →
        after_fetch (item t) (to_retract wanted) goal b c i r m
        ≡ at_unified v
        (count_inference (unify wanted (shift_variables b.next (body_of t)) (erase
        (record { cursor_number = c; item_number = i }) b.goals)))
        (behind_clause (head_of t) (body_of t) b) b
        (item_choices (to_retract wanted) goal b c (suc i) ∷ r) m }
    ensures no_match { (how : Usage) (goal : Tree) (b : Branch Member) (c i : ℕ)
        (r : List ChoicePoint)
        (m : AskingSearch) (t : Tree) →
        unifier goal (shift_variables b.next (item_head (is_stored how) t)) ≡ None →
        after_fetch (item t) how goal b c i r m
        ≡ at_choices (item_choices how goal b c (suc i) ∷ r) m }
    ensures no_item { (how : Usage) (goal : Tree) (b : Branch Member) (c i : ℕ)
        (r : List ChoicePoint)
        (m : AskingSearch) → after_fetch no_item how goal b c i r m ≡ at_choices r m }
    ensures spends { (p : Program) (gs : Continuation Member) (n : ℕ) →
        TurnsWith (suc n) p (count_inference gs) (λ b r m. at_goals gs b r (with_left n m)) }
    ensures spends_exhausted { (p : Program) (gs : Continuation Member) →
        TurnsWith 0 p (count_inference gs)
        (λ b r m. concludes m.frames out_of_inferences m.found 0) }
    ensures inserts { (p : Program) (f : List ℕ) (ts : List Tree) (t : Tree) (h : ℕ)
        (gs : Continuation Member) (n : ℕ) → procedure_of p f ts ≡ insert_tuple t →
        TurnsWith (suc n) p (run_body (predication f ts) h gs)
        (λ b r m. request (insert t) (λ reply.
        after_change reply (with_goals gs b ∷ []) gs (with_goals gs b) r (with_left n m))) }
    ensures deletes { (p : Program) (f : List ℕ) (ts : List Tree) (t : Tree) (h : ℕ)
        (gs : Continuation Member) (n : ℕ) → procedure_of p f ts ≡ delete_tuple t →
        TurnsWith (suc n) p (run_body (predication f ts) h gs)
        (λ b r m. request (delete t) (λ reply.
        after_change reply [] gs (with_goals gs b) r (with_left n m))) }
    ensures asserts_first { (p : Program) (f : List ℕ) (ts : List Tree) (c : Tree) (h : ℕ)
        (gs : Continuation Member) (n : ℕ) → procedure_of p f ts ≡ assert_first c →
        TurnsWith (suc n) p (run_body (predication f ts) h gs)
        (λ b r m. request (asserta c) (λ reply.
        after_change reply (with_goals gs b ∷ []) gs (with_goals gs b) r (with_left n m))) }
    ensures asserts_last { (p : Program) (f : List ℕ) (ts : List Tree) (c : Tree) (h : ℕ)
        (gs : Continuation Member) (n : ℕ) → procedure_of p f ts ≡ assert_last c →
        TurnsWith (suc n) p (run_body (predication f ts) h gs)
        (λ b r m. request (assertz c) (λ reply.
        after_change reply (with_goals gs b ∷ []) gs (with_goals gs b) r (with_left n m))) }
    ensures takes_out { (p : Program) (x : Member) (gs : Continuation Member) →
        Turns p (erase x gs) (λ b r m. request (delete_at x.cursor_number x.item_number) (λ reply.
        after_change reply [] gs (with_goals gs b) r m)) }
    ensures change_made { (reply : Reply) (bs : List (Branch Member)) (gs : Continuation Member)
        (b : Branch Member) (r : List ChoicePoint) (m : AskingSearch) →
        effect_of reply ≡ change_made →
        after_change reply bs gs b r m ≡ at_goals gs b r m }
    ensures no_change { (reply : Reply) (bs : List (Branch Member)) (gs : Continuation Member)
        (b : Branch Member) (r : List ChoicePoint) (m : AskingSearch) →
        effect_of reply ≡ no_change →
        after_change reply bs gs b r m ≡ at_choices (push_branches bs r) m }
    ensures change_limit { (reply : Reply) (bs : List (Branch Member)) (gs : Continuation Member)
        (b : Branch Member) (r : List ChoicePoint) (m : AskingSearch) →
        effect_of reply ≡ C.change_limit →
        after_change reply bs gs b r m
        ≡ raise_move (resource_error (codes "changes")) b.goals b r m }
{}

/// Turns by which a search answers, waits for one inside it, or ends; and the way of a ball.
/// `findall_begins`, `findall_ends`, `findall_unlike`: the search inside a `findall/3` begins, and
/// its end.
/// `ball_`: from goals on, `passes_` those that are no `catch/3`, to the one that catches it, or
/// out of a `findall/3`, or out of the search.
pub fn turns_by_ends()
    ensures answers { (p : Program) → Turns p success (λ b r m. go_on (record {
      choice_points = r;
      found = m.found ++ b.terms ∷ [];
      left = m.left;
      frames = m.frames;
    })) }
    ensures findall_begins { (p : Program) (x g l : Tree) (h : ℕ) (gs : Continuation Member)
        (n : ℕ) →
        goal_fault g ≡ None → list_fault l ≡ None →
        TurnsWith (suc n) p (run_body (findall x g l) h gs) (λ b r m. go_on (record {
          choice_points = branch_choice (inner_branch x g b.next) ∷ [];
          found = [];
          left = n;
          frames =
              record { choice_points = r; found = m.found; branch = with_goals gs b; list = l }
              ∷ m.frames;
        })) }
    ensures findall_refused { (p : Program) (x g l t : Tree) (h : ℕ) (gs : Continuation Member)
        (n : ℕ) →
        goal_fault g ≡ None → list_fault l ≡ Some t →
        TurnsWith (suc n) p (run_body (findall x g l) h gs) (λ b r m.
        raise_move t gs b r (with_left n m)) }
    ensures finishes { (p : Program) (m : AskingSearch) → m.choice_points ≡ [] → m.frames ≡ [] →
        turn p m ≡ finish (record { found = m.found; end = end_of_answers; left = m.left }) }
    ensures findall_ends { (p : Program) (m : AskingSearch) (o : FindallFrame)
        (os : List FindallFrame) (v : Map) →
        m.choice_points ≡ [] → m.frames ≡ o ∷ os →
        unifier o.list (list_term (copies o.branch.next (flat_map (λ ts. ts) m.found))) ≡ Some v →
        turn p m ≡ at_unified v o.branch.goals
        (next_after o.branch.next (flat_map (λ ts. ts) m.found)) o.branch o.choice_points
        (resume_from o os m.left) }
    ensures findall_unlike { (p : Program) (m : AskingSearch) (o : FindallFrame)
        (os : List FindallFrame) →
        m.choice_points ≡ [] → m.frames ≡ o ∷ os →
        unifier o.list (list_term (copies o.branch.next (flat_map (λ ts. ts) m.found))) ≡ None →
        turn p m ≡ at_choices o.choice_points (resume_from o os m.left) }
    ensures exhausts { (os : List FindallFrame) (found : List (List Tree)) (left : ℕ) →
        concludes os out_of_inferences found left ≡ finish (record {
          found = outermost_found os found;
          end = out_of_inferences;
          left = left;
        }) }
    ensures ball_passes_goal { (t : Tree) (n : ℕ) (x : Body) (h : ℕ) (gs : Continuation Member)
        (r : List ChoicePoint) (m : AskingSearch) →
        throw_move t n (run_body x h gs) r m ≡ throw_move t n gs r m }
    ensures ball_passes_cut { (t : Tree) (n h : ℕ) (gs : Continuation Member) (r : List ChoicePoint)
        (m : AskingSearch) → throw_move t n (cut_to h gs) r m ≡ throw_move t n gs r m }
    ensures ball_caught { (t : Tree) (n h : ℕ) (c k : Tree) (saved : Continuation Member)
        (ts : List Tree) (gs : Continuation Member) (r : List ChoicePoint) (m : AskingSearch)
        (v : Map) →
        unifier (rename n t) c ≡ Some v →
        throw_move t n (catch_mark h c k saved ts gs) r m
        ≡ at_choices (branch_choice (with_map v (record {
          goals = run_body (call k) h saved;
          terms = ts;
          next = n + width t;
        })) ∷ last_of h r) m }
    ensures ball_not_caught { (t : Tree) (n h : ℕ) (c k : Tree) (saved : Continuation Member)
        (ts : List Tree) (gs : Continuation Member) (r : List ChoicePoint) (m : AskingSearch) →
        unifier (rename n t) c ≡ None →
        throw_move t n (catch_mark h c k saved ts gs) r m ≡ throw_move t n saved (last_of h r) m }
    ensures ball_out_of_findall { (t : Tree) (n : ℕ) (r : List ChoicePoint) (m : AskingSearch)
        (o : FindallFrame)
        (os : List FindallFrame) → m.frames ≡ o ∷ os → throw_move t n success r m
        ≡ throw_move t o.branch.next o.branch.goals o.choice_points (resume_from o os m.left) }
    ensures ball_out { (t : Tree) (n : ℕ) (r : List ChoicePoint) (m : AskingSearch) →
        m.frames ≡ [] →
        throw_move t n success r m
        ≡ finish (record { found = m.found; end = ball t; left = m.left }) }
{}
