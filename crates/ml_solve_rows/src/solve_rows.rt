//! A goal's answers by the clauses of a small program, over a desk that is asked nothing.
ghost use Rattle.std.specs.Prelude.{◌≡◌, [], ◌∷◌, IfOk, codes, pos};
ghost use Rattle.ml_term.specs.Seen.{seen};
ghost use Rattle.ml_term.specs.Tree.{atom, compound_1, integer, variable};

use ml_desk::{Desk, DeskStop};
use ml_program::Loaded;
use ml_search::{Clause, Clauses, Decls, Goal, Names, Op, Program, Reply};
use ml_solve::{Budget, Found, GoalEnd, has_answer, solve};
use ml_term::{Args, Name, Term};
use ml_writer::Lines;
use std::alloc::{AllocError, Global};
use std::test::Fail;

/// A desk that has memory for no reply.
#[derive(Drop)]
struct FullDesk {
    decls: Decls,
}

impl Desk for FullDesk {
    ghost use Rattle.std.specs.Prelude.{None, [], refl};

    type Site = u8;

    ghost log = { λ d. [] };

    ghost decls = { λ d. d.decls };

    ghost site = { λ d. 0 };

    ghost died = { λ d. None };

    ghost stays = { λ d e. Prim.Unit {0} };

    ghost stays_itself = { λ d. Prim.tt };

    ghost stays_on = { λ d e f p q. Prim.tt };

    ghost is_logged = { λ d. refl };

    fn ask(&mut self, _op: &Op) -> Result<Reply, DeskStop> {
        Err(DeskStop::OutOfMemory)
    }
}

// Such a desk without declarations.
fn full_desk(alloc: Global) -> FullDesk
    ensures { result.decls ≡ [] }
{
    FullDesk {
        decls: Decls::new(alloc),
    }
}

// `a(1)`.
fn a_of_one(alloc: Global) -> Result<Term, AllocError>
    ensures { IfOk result (λ t. seen t ≡ compound_1 (codes "a") (integer (pos 1))) }
{
    let args = vec![in alloc; Term::Int(1)]?;
    Ok(Term::Cmp(Name::new(alloc, b"a")?, Args::new(args)))
}

// `a(2)`.
fn a_of_two(alloc: Global) -> Result<Term, AllocError>
    ensures { IfOk result (λ t. seen t ≡ compound_1 (codes "a") (integer (pos 2))) }
{
    let args = vec![in alloc; Term::Int(2)]?;
    Ok(Term::Cmp(Name::new(alloc, b"a")?, Args::new(args)))
}

// `a(X)`.
fn a_of_x(alloc: Global) -> Result<Term, AllocError>
    ensures { IfOk result (λ t. seen t ≡ compound_1 (codes "a") (variable 0)) }
{
    let args = vec![in alloc; Term::Var(0)]?;
    Ok(Term::Cmp(Name::new(alloc, b"a")?, Args::new(args)))
}

// `true`.
fn true_atom(alloc: Global) -> Result<Term, AllocError>
    ensures { IfOk result (λ t. seen t ≡ atom (codes "true")) }
{
    Ok(Term::Atom(Name::new(alloc, b"true")?))
}

// `a(1).`
fn first_fact(alloc: Global) -> Result<Clause, AllocError> {
    Ok(Clause::new(a_of_one(alloc)?, true_atom(alloc)?))
}

// `a(2).`
fn second_fact(alloc: Global) -> Result<Clause, AllocError> {
    Ok(Clause::new(a_of_two(alloc)?, true_atom(alloc)?))
}

// Both facts, loaded.
fn loaded(alloc: Global) -> Result<Loaded, AllocError>
    ensures { IfOk result (λ loaded. loaded.program.decls ≡ []) }
{
    let mut clauses = Vec::new(alloc);
    clauses.push(first_fact(alloc)?)?;
    clauses.push(second_fact(alloc)?)?;
    let program = Program::new(Decls::new(alloc), Clauses::from_vec(clauses));
    let loaded = Loaded::new(alloc, &program)?;
    Ok(loaded)
}

// The name of the variable 0.
fn names(alloc: Global) -> Result<Names, AllocError>
    ensures { IfOk result (λ names. names ≡ (codes "X", 0) ∷ []) }
{
    let mut pairs = Vec::new(alloc);
    pairs.push((Name::new(alloc, b"X")?, 0))?;
    Ok(Names::from_vec(pairs))
}

// The goal `a(X)`.
fn goal(alloc: Global) -> Result<Goal, AllocError> {
    Ok(Goal::new(a_of_x(alloc)?, names(alloc)?))
}

#[test]
fn each_answer_has_its_line(rt: HostRuntime) -> Result<(), Fail> {
    let alloc = rt.alloc();
    let program = loaded(alloc)?;
    let goal = goal(alloc)?;
    let mut budget = Budget { left: 10 };
    let mut desk = full_desk(alloc);
    let mut lines = Lines::new(alloc);
    let end = solve(alloc, &program, &goal, &mut budget, &mut desk, &mut lines);
    assert!(rt; matches!(end, Ok(GoalEnd::Finished(2))));
    assert!(rt; lines.bytes() == b"  X = 1\n  X = 2\n".as_slice());
    assert!(rt; budget.left == 9);
    Ok(())
}

#[test]
fn a_search_stops_at_its_first_answer(rt: HostRuntime) -> Result<(), Fail> {
    let alloc = rt.alloc();
    let program = loaded(alloc)?;
    let goal = goal(alloc)?;
    let mut budget = Budget { left: 10 };
    let mut desk = full_desk(alloc);
    let found = has_answer(alloc, &program, &goal, &mut budget, &mut desk);
    assert!(rt; matches!(found, Ok(Found::Yes)));
    Ok(())
}

#[test]
fn a_search_without_inferences_raises_that(rt: HostRuntime) -> Result<(), Fail> {
    let alloc = rt.alloc();
    let program = loaded(alloc)?;
    let goal = goal(alloc)?;
    let mut budget = Budget { left: 0 };
    let mut desk = full_desk(alloc);
    let found = has_answer(alloc, &program, &goal, &mut budget, &mut desk);
    assert!(rt; matches!(found, Ok(Found::Raised(_))));
    Ok(())
}
