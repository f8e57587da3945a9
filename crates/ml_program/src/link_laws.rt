//! What links and loaded procedures tell: laws that tie them to the search. The functions do
//! nothing: their contracts are the laws, for the layers above and for the reader.
ghost use Rattle.std.specs.Prelude.{◌≡◌, ℕ, List, length, None, slice_get, Some};
ghost use Rattle.ml_builtin.specs.Tables.{plain_arity, plain_name};
ghost use Rattle.ml_builtin.specs.declared.plain.Plain as B;
ghost use Rattle.ml_compile.specs.Spells.{called_body, SpellsClause};
ghost use Rattle.ml_compile.specs.declared.instr.Instr.{Instr};
ghost use Rattle.ml_program.specs.LinkedGoals.{control_of, IsControlBody, IsProgramGoal, store_name};
ghost use Rattle.ml_program.specs.Links.{link_of};
ghost use Rattle.ml_program.specs.LoadedProgram.{IsLoaded, SpellEach};
ghost use Rattle.ml_program.specs.declared.link.ControlCall.{ControlCall};
ghost use Rattle.ml_program.specs.declared.link.Link.TheVariants.{Control, Declared, Plain, Procedure, Store, Unknown};
ghost use Rattle.ml_program.specs.declared.link.StoreCall.{StoreCall};
ghost use Rattle.ml_search.specs.Actions.{declared_predicate, unknown_procedure};
ghost use Rattle.ml_search.specs.Bodies.{predication};
ghost use Rattle.ml_search.specs.Procedures.{procedure_of, usage_of};
ghost use Rattle.ml_search.specs.Program.{Clause, Program};
ghost use Rattle.ml_search.specs.Standing.{IsPlainGoal, IsStoreGoal};
ghost use Rattle.ml_stack.specs.Memories.{CompiledProcedure};
ghost use Rattle.ml_term.specs.Tree.{Tree};
ghost use Rattle.ml_term.specs.declared.declaration.Kind.{Kind};

/// A call's link tells what the body of the call is, and, where that is no control construct, what
/// the search makes of the goal.
/// `control`: the control construct with these arguments. `other`: every other call is of a goal by
/// its name. `plain`, `store`, `declared`, `procedure`, `unknown`: what that goal is. `built_in`:
/// which of the plain built-ins it is. `name`: which of those that change lists.
pub fn a_link_tells_what_a_goal_is()
    ensures control { (program : Program) (ps : List CompiledProcedure) (f : List ℕ)
        (ts : List Tree) (c : ControlCall) → link_of program ps f (length ts) ≡ Control c →
        IsControlBody c ts (called_body f ts) }
    ensures other { (program : Program) (ps : List CompiledProcedure) (f : List ℕ)
        (ts : List Tree) → control_of (link_of program ps f (length ts)) ≡ None →
        called_body f ts ≡ predication f ts }
    ensures plain { (program : Program) (ps : List CompiledProcedure) (f : List ℕ)
        (ts : List Tree) (b : B.Plain) → link_of program ps f (length ts) ≡ Plain b →
        IsPlainGoal program f ts }
    ensures built_in { (program : Program) (ps : List CompiledProcedure) (f : List ℕ)
        (ts : List Tree) (b : B.Plain) → link_of program ps f (length ts) ≡ Plain b →
        (plain_name b ≡ f) × (plain_arity b ≡ length ts) }
    ensures store { (program : Program) (ps : List CompiledProcedure) (f : List ℕ)
        (ts : List Tree) (k : StoreCall) → link_of program ps f (length ts) ≡ Store k →
        IsStoreGoal program f ts }
    ensures name { (program : Program) (ps : List CompiledProcedure) (f : List ℕ)
        (ts : List Tree) (k : StoreCall) → link_of program ps f (length ts) ≡ Store k →
        f ≡ store_name k }
    ensures declared { (program : Program) (ps : List CompiledProcedure) (f : List ℕ)
        (ts : List Tree) (kind : Kind) (d : ℕ) →
        link_of program ps f (length ts) ≡ Declared kind d →
        procedure_of program f ts ≡ declared_predicate (usage_of program kind) d }
    ensures procedure { (program : Program) (ps : List CompiledProcedure) (f : List ℕ)
        (ts : List Tree) (p : ℕ) → IsLoaded program ps →
        link_of program ps f (length ts) ≡ Procedure p → IsProgramGoal program ps f ts p }
    ensures unknown { (program : Program) (ps : List CompiledProcedure) (f : List ℕ)
        (ts : List Tree) → link_of program ps f (length ts) ≡ Unknown →
        procedure_of program f ts ≡ unknown_procedure }
{}

/// Codes that spell clauses one for one are as many, and each is found at the place of its clause.
pub fn codes_spell_their_clauses()
    ensures many { (codes : List (List Instr)) (cs : List Clause) → SpellEach codes cs →
        length codes ≡ length cs }
    ensures clause { (codes : List (List Instr)) (cs : List Clause) (i : ℕ) (code : List Instr) →
        SpellEach codes cs → slice_get codes i ≡ Some code →
        (c : Clause) × (slice_get cs i ≡ Some c) × SpellsClause code c }
    ensures code { (codes : List (List Instr)) (cs : List Clause) (i : ℕ) (c : Clause) →
        SpellEach codes cs → slice_get cs i ≡ Some c →
        (code : List Instr) × (slice_get codes i ≡ Some code) × SpellsClause code c }
{}
