//! Laws of runs and of unification. The functions do nothing: their contracts are the laws, for the
//! layers above and for the reader.
ghost use Rattle.std.specs.Prelude.{◌≡◌, ℕ, ◌+◌, ◌<◌, ◌≤◌, ◌↔◌, ◌⊎◌, Bool, IsTrue, List, [], ◌∷◌};
ghost use Rattle.std.specs.Prelude.{◌++◌, IsSome};
ghost use Rattle.std.proofs.Common.{inl, inr};
ghost use Rattle.ml_term.specs.Tree.{Tree, variable, has, occurs, variables, nodes, substitute};
ghost use Rattle.ml_term.specs.Tree.{rename, width, firsts, counts_from, is_numbered};
ghost use Rattle.ml_term.specs.Instances.{HaveACommonInstance, AreApart};
ghost use Rattle.ml_term.specs.Runs.{Next, now, ask, result_or, run};
ghost use Rattle.ml_term.specs.Falling.{AlwaysFalls, HoldsAfter};
ghost use Rattle.ml_term.specs.Keys.{are_different};
ghost use Rattle.ml_term.specs.Unify.{Equation, Map, UnifierState, step, turn, variables_left};
ghost use Rattle.ml_term.specs.Unify.{nodes_left, value_of, apply, solve_equations, mgu, unifier};
ghost use Rattle.ml_term.specs.Unifiers.{Unifies, HaveTheSameUnifiers, equations_under};
ghost use Rattle.ml_term.specs.Unifiers.{compose_result, solve_after, solve_by_step};
ghost use Rattle.ml_term.specs.Unifiers.{replaced_variables, variables_in};

/// Runs go by turns. Let every turn of a system lower a first number, or keep it and lower a
/// second.
/// `ends`: some number falls at each turn, so no run goes on forever.
/// `goes_on`, `is_over`, `asks`: a run gives what its first turn leads to.
/// `induction`: what holds of each state and its result, as soon as it holds where the state's turn
/// leads, holds of every run.
pub fn runs_go_by_turns<S, R>()
    ensures ends { (turn : S → Next S R) (first second : S → ℕ) (never : S → R) (last : R → ℕ) →
        AlwaysFalls first second last turn →
        (n : S → ℕ) × ((s t : S) → turn s ≡ now (inr t) → n t < n s) }
    ensures goes_on { (turn : S → Next S R) (first second : S → ℕ) (never : S → R) (last : R → ℕ) →
        AlwaysFalls first second last turn →
        (s t : S) → turn s ≡ now (inr t) →
        run turn first second never s ≡ run turn first second never t }
    ensures is_over { (turn : S → Next S R) (first second : S → ℕ) (never : S → R) (last : R → ℕ) →
        AlwaysFalls first second last turn →
        (s : S) (r : R) → turn s ≡ now (inl r) → run turn first second never s ≡ r }
    ensures asks { (turn : S → Next S R) (first second : S → ℕ) (never : S → R) (last : R → ℕ) →
        AlwaysFalls first second last turn →
        (s t : S) (k : R → R ⊎ S) → turn s ≡ ask t k →
        run turn first second never s ≡ result_or turn first second never
        (run turn first second never) (k (run turn first second never t)) }
    ensures induction { (turn : S → Next S R) (first second : S → ℕ) (never : S → R)
        (last : R → ℕ) → AlwaysFalls first second last turn →
        (p : S → R → Bool) → ((s : S) (r : R) → HoldsAfter (λ s r. IsTrue (p s r)) (turn s) r →
        IsTrue (p s r)) →
        (s : S) → IsTrue (p s (run turn first second never s)) }
{}

/// Unification is the rewriting of equations by its rules, one after another, and it ends.
/// `falls`: each turn lowers the number of different variables left, or keeps it and lowers the
/// number of nodes left.
/// `equal_sides`: an equation of two equal terms changes nothing.
pub fn unification_goes_by_its_rules()
    ensures nothing_left { (m : Map) → solve_equations [] m ≡ Some m }
    ensures first_equation { (e : Equation) (es : List Equation) (m : Map) →
        solve_equations (e ∷ es) m ≡ solve_by_step (step e.0 e.1) es m }
    ensures falls { (s t : UnifierState) → turn s ≡ now (inr t) →
        (variables_left t < variables_left s)
        ⊎ ((variables_left t ≡ variables_left s) × (nodes_left t < nodes_left s)) }
    ensures equal_sides { (t : Tree) (es : List Equation) (m : Map) →
        solve_equations ((t, t) ∷ es) m ≡ solve_equations es m }
{}

/// What unification gives is a most general unifier.
/// `unifies`: the map makes the sides of each equation equal.
/// `general`: each substitution that makes the sides equal factors through the map: it gives the
/// same, whether the map is applied first or not.
/// `idempotent`: the map applied twice is the map applied once.
pub fn unification_is_most_general()
    ensures unifies { (es : List Equation) (m : Map) → mgu es ≡ Some m → Unifies (value_of m) es }
    ensures general { (es : List Equation) (m : Map) (s : ℕ → Tree) → mgu es ≡ Some m →
        Unifies s es →
        (t : Tree) → substitute s (apply m t) ≡ substitute s t }
    ensures idempotent { (es : List Equation) (m : Map) → mgu es ≡ Some m → (t : Tree) →
        apply m (apply m t) ≡ apply m t }
{}

/// Unification gives none exactly where no substitution makes the sides of the equations equal, and
/// for two terms where none makes them equal.
pub fn unification_finds_each_unifier()
    ensures equations { (es : List Equation) → IsSome (mgu es) ↔ ((s : ℕ → Tree) × Unifies s es) }
    ensures terms { (t u : Tree) → IsSome (unifier t u)
        ↔ ((s : ℕ → Tree) × (substitute s t ≡ substitute s u)) }
{}

/// What a map of unification replaces, and what it leaves.
/// `once`: no variable is replaced twice. `gone`: no replaced variable is left in a term that the
/// map was applied to.
/// `of_them`: only variables of the equations are replaced. `no_others`: what stands for a variable
/// has the equations' variables alone.
/// `older`: a variable that is replaced by a variable is replaced by an older one.
pub fn unification_replaces_variables()
    ensures once { (es : List Equation) (m : Map) → mgu es ≡ Some m →
        IsTrue (are_different (replaced_variables m)) }
    ensures gone { (es : List Equation) (m : Map) (n : ℕ) (t : Tree) → mgu es ≡ Some m →
        IsTrue (has n (replaced_variables m)) → IsTrue (occurs n (apply m t)) → ⊥ }
    ensures of_them { (es : List Equation) (m : Map) (n : ℕ) → mgu es ≡ Some m →
        IsTrue (has n (replaced_variables m)) → IsTrue (has n (variables_in es)) }
    ensures no_others { (es : List Equation) (m : Map) (n k : ℕ) → mgu es ≡ Some m →
        IsTrue (occurs k (value_of m n)) →
        (k ≡ n) ⊎ IsTrue (has k (variables_in es)) }
    ensures older { (es : List Equation) (m : Map) (n k : ℕ) → mgu es ≡ Some m →
        value_of m n ≡ variable k → k ≤ n }
{}

/// The map of unification depends only on which substitutions make the sides equal: not on the
/// order of the equations, of the sides, or of the steps.
pub fn unification_has_one_result()
    ensures both { (es fs : List Equation) → HaveTheSameUnifiers es fs →
        IsSome (mgu es) ↔ IsSome (mgu fs) }
    ensures same { (es fs : List Equation) (m n : Map) → HaveTheSameUnifiers es fs →
        mgu es ≡ Some m → mgu fs ≡ Some n →
        (k : ℕ) → value_of m k ≡ value_of n k }
    ensures swapped { (t u : Tree) (m n : Map) → unifier t u ≡ Some m → unifier u t ≡ Some n →
        (k : ℕ) → value_of m k ≡ value_of n k }
{}

/// Unification in parts.
/// `from`: a map that is there before takes no part. What the equations give by themselves is put
/// after it.
/// `parts`: to solve some equations and others is to solve the first, and then the others under the
/// map that came.
pub fn unification_goes_in_parts()
    ensures from { (es : List Equation) (m : Map) →
        solve_equations es m ≡ compose_result m (mgu es) }
    ensures parts { (es fs : List Equation) → mgu (es ++ fs) ≡ solve_after fs (mgu es) }
    ensures parts_from { (es fs : List Equation) (m : Map) →
        solve_equations (es ++ equations_under m fs) m ≡ solve_after fs (solve_equations es m) }
{}

/// Unification with a term whose variables are numbered anew, as those of a clause when it is
/// entered.
/// `range`: its variables are the numbers from the given one on, as many as it has different
/// variables.
/// `apart`: where no variable stands in both, a unifier is found exactly if both terms have a
/// common instance, whatever numbers were taken.
/// `anyhow`: where one is found, they have a common instance, even if the two share variables.
pub fn unification_with_a_renamed_term()
    ensures range { (next : ℕ) (t : Tree) (n : ℕ) → IsTrue (occurs n (rename next t)) →
        (next ≤ n) × (n < next + width t) }
    ensures apart { (next : ℕ) (t u : Tree) → AreApart t (rename next u) →
        IsSome (unifier t (rename next u)) ↔ HaveACommonInstance t u }
    ensures anyhow { (next : ℕ) (t u : Tree) → IsSome (unifier t (rename next u)) →
        HaveACommonInstance t u }
{}

/// A term numbered anew, as a stored clause is from 0 and an entered one from the next number.
/// `counts`: by first place its variables are the given number and those that follow it. `again`:
/// what it was numbered before doesn't matter.
/// `stays`: a term that is numbered from 0 stays as it is. `width`, `nodes`: there are as many
/// different variables, and as many nodes.
pub fn renaming_numbers_anew()
    ensures counts { (next : ℕ) (t : Tree) →
        IsTrue (counts_from next (firsts (variables (rename next t)))) }
    ensures again { (next before : ℕ) (t : Tree) → rename next (rename before t) ≡ rename next t }
    ensures stays { (t : Tree) → IsTrue (is_numbered t) → rename 0 t ≡ t }
    ensures width { (next : ℕ) (t : Tree) → width (rename next t) ≡ width t }
    ensures nodes { (next : ℕ) (t : Tree) → nodes (rename next t) ≡ nodes t }
{}
