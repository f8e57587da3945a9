//! How predicates stand: laws that tie the standing of a predicate to what the search makes of a
//! goal. The functions do nothing: their contracts are the laws, for the layers above and for the
//! reader.
ghost use Rattle.ml_search.specs.Builtins.{is_plain};
ghost use Rattle.ml_search.specs.Procedures.{usage_of, control_names, has_name, is_defined, is_unknown, procedure_of, store_names};
ghost use Rattle.ml_search.specs.Program.{clauses_of, declaration_of, place_of, Program};
ghost use Rattle.ml_search.specs.Standing.{is_nothing, IsPlainGoal, IsStoreGoal, of_declared, of_nothing, of_plain, of_program, of_store, standing, standing_by};
ghost use Rattle.ml_search.specs.Actions.{declared_predicate, program_predicate, unknown_procedure};
ghost use Rattle.ml_term.specs.Tree.{Tree};
ghost use Rattle.ml_term.specs.declared.declaration.Kind.{Kind};
ghost use Rattle.std.specs.Prelude.{◌&&◌, ◌≡◌, length, List, not, unwrap_or, ℕ};

/// What a goal is, is decided by its name and the number of its arguments, but for what
/// a plain built-in does with the arguments and what the checks of a store built-in say.
/// `plain`, `store`, `declared`, `program`, `nothing`: what a goal of each standing is.
/// `tables`: the standing is what the tables, the declarations and the clauses say.
/// `unknown`: a predicate is unknown where it is no control construct and stands for nothing.
pub fn a_predicate_stands_one_way()
    ensures plain { (program : Program) (f : List ℕ) (ts : List Tree) →
        standing program f (length ts) ≡ of_plain → IsPlainGoal program f ts }
    ensures store { (program : Program) (f : List ℕ) (ts : List Tree) →
        standing program f (length ts) ≡ of_store → IsStoreGoal program f ts }
    ensures declared { (program : Program) (f : List ℕ) (ts : List Tree) (kind : Kind) (d : ℕ) →
        standing program f (length ts) ≡ of_declared kind d →
        procedure_of program f ts ≡ declared_predicate (usage_of program kind) d }
    ensures program { (program : Program) (f : List ℕ) (ts : List Tree) →
        standing program f (length ts) ≡ of_program →
        procedure_of program f ts ≡ program_predicate (clauses_of program.clauses f (length ts)) }
    ensures nothing { (program : Program) (f : List ℕ) (ts : List Tree) →
        standing program f (length ts) ≡ of_nothing →
        procedure_of program f ts ≡ unknown_procedure }
    ensures tables { (program : Program) (f : List ℕ) (n : ℕ) →
        standing program f n
        ≡ standing_by (is_plain f n) (has_name store_names f n)
        (declaration_of program.decls f n)
        (unwrap_or (place_of program.decls f n) 0) (is_defined program f n) }
    ensures unknown { (program : Program) (f : List ℕ) (n : ℕ) →
        is_unknown program f n
        ≡ not (has_name control_names f n) && is_nothing (standing program f n) }
{}
