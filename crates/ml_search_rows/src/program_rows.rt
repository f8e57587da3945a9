//! Declarations, programs and scripts, made and copied with ample memory.
ghost use Rattle.std.specs.Prelude.{◌≡◌, IfOk, codes};
ghost use Rattle.ml_term.specs.Seen.{seen};
ghost use Rattle.ml_term.specs.Tree.{atom};

use ml_search::{
    Clause, Clauses, Decls, Goal, Goals, Last, Log, MAX_DECLARATIONS, Names, Program, Script,
    is_callable, is_clause_head, is_reserved,
};
use ml_term::{Args, Decl, Kind, Name, Pred, Term, is_name};
use std::alloc::{AllocError, Global};
use std::process::Abort;
use std::test::Fail;

fn named(rt: &impl Abort, alloc: Global, bytes: &[u8]) -> Result<Name, AllocError> {
    assert!(rt; is_name(bytes));
    Name::new(alloc, bytes)
}

fn pred_of(rt: &impl Abort, alloc: Global, name: &[u8], arity: u8) -> Result<Pred, AllocError>
    ensures { IfOk result (λ pred. pred.arity ≡ arity) }
{
    Ok(Pred {
        name: named(rt, alloc, name)?,
        arity,
    })
}

// Declares a predicate of one argument or more that isn't declared.
fn declare(
    rt: &impl Abort,
    alloc: Global,
    decls: &mut Decls,
    name: &[u8],
    arity: u8,
    kind: Kind,
) -> Result<(), AllocError> {
    assert!(rt; arity > 0);
    let decl = Decl::with_default_keys(alloc, pred_of(rt, alloc, name, arity)?, kind)?;
    assert!(rt; decls.place_of(&decl.pred).is_none() && decls.len() < MAX_DECLARATIONS);
    decls.add(decl)
}

// `p`.
fn p_atom(alloc: Global) -> Result<Term, AllocError>
    ensures { IfOk result (λ t. seen t ≡ atom (codes "p")) }
{
    Ok(Term::Atom(Name::new(alloc, b"p")?))
}

// `true`.
fn true_atom(alloc: Global) -> Result<Term, AllocError>
    ensures { IfOk result (λ t. seen t ≡ atom (codes "true")) }
{
    Ok(Term::Atom(Name::new(alloc, b"true")?))
}

// `p.`
fn p_clause(alloc: Global) -> Result<Clause, AllocError> {
    Ok(Clause::new(p_atom(alloc)?, true_atom(alloc)?))
}

// `?- X.`
fn variable_goal(alloc: Global) -> Result<Goal, AllocError> {
    let names = vec![in alloc; (Name::new(alloc, b"X")?, 0)]?;
    Ok(Goal::new(Term::Var(0), Names::from_vec(names)))
}

// The name of an atom.
fn atom_name(t: &Term) -> &[u8] {
    match t {
        Term::Atom(f) => f.as_slice(),
        _ => &[],
    }
}

// The place of a predicate's declaration.
fn place(
    rt: &impl Abort,
    alloc: Global,
    decls: &Decls,
    name: &[u8],
    arity: u8,
) -> Result<Option<usize>, AllocError> {
    let pred = pred_of(rt, alloc, name, arity)?;
    Ok(decls.place_of(&pred))
}

// p/1, q/2 and p/2.
fn three_declared(rt: &impl Abort, alloc: Global) -> Result<Decls, AllocError> {
    let mut decls = Decls::new(alloc);
    declare(rt, alloc, &mut decls, b"p", 1, Kind::Relation)?;
    declare(rt, alloc, &mut decls, b"q", 2, Kind::Clauses)?;
    declare(rt, alloc, &mut decls, b"p", 2, Kind::Relation)?;
    Ok(decls)
}

#[test]
fn declarations_are_found_by_their_predicates(rt: HostRuntime) -> Result<(), Fail> {
    let alloc = rt.alloc();
    let decls = three_declared(&rt, alloc)?.copy_of(alloc)?;
    let table: [(&[u8], u8, Option<usize>); 4] = [
        (b"p", 1, Some(0)),
        (b"q", 2, Some(1)),
        (b"p", 2, Some(2)),
        (b"q", 1, None),
    ];
    for (name, arity, want) in table {
        assert_eq!(rt; place(&rt, alloc, &decls, name, arity)?, want);
    }
    assert!(rt; decls.len() == 3);
    assert!(rt; decls.at(1).kind == Kind::Clauses && decls.at(2).pred.arity == 2);
    Ok(())
}

#[test]
fn programs_are_copied(rt: HostRuntime) -> Result<(), Fail> {
    let alloc = rt.alloc();
    let clauses = vec![in alloc; p_clause(alloc)?, p_clause(alloc)?]?;
    let program = Program::new(Decls::new(alloc), Clauses::from_vec(clauses));
    let Program { decls, clauses } = program.copy_of(alloc)?;
    assert_eq!(rt; decls.len(), 0);
    let clauses = clauses.into_vec();
    assert_eq!(rt; clauses.len(), 2);
    for clause in &clauses {
        assert_eq!(rt; atom_name(&clause.head), b"p".as_slice());
        assert_eq!(rt; atom_name(&clause.body), b"true".as_slice());
    }
    Ok(())
}

#[test]
fn scripts_are_copied(rt: HostRuntime) -> Result<(), Fail> {
    let alloc = rt.alloc();
    let goals = Goals::from_vec(vec![in alloc; variable_goal(alloc)?]?);
    let script = Script::new(7, goals, Last::Unless(variable_goal(alloc)?));
    let copy = script.copy_of(alloc)?;
    assert_eq!(rt; copy.budget, 7);
    for goal in copy.goals.as_slice() {
        assert!(rt; matches!(goal.term, Term::Var(0)));
        assert_eq!(rt; goal.names.as_slice().len(), 1);
    }
    let goals = copy.goals.into_vec();
    assert_eq!(rt; goals.len(), 1);
    assert!(rt; matches!(&copy.last, Last::Unless(goal) if goal.names.as_slice().len() == 1));
    assert!(rt; matches!(Last::Abort.copy_of(alloc)?, Last::Abort));
    assert!(rt; matches!(Last::Commit.copy_of(alloc)?, Last::Commit));
    Ok(())
}

#[test]
fn names_are_given_back(rt: HostRuntime) -> Result<(), Fail> {
    let alloc = rt.alloc();
    let names = Names::from_vec(vec![in alloc; (Name::new(alloc, b"X")?, 5)]?);
    let pairs = names.into_vec();
    assert_eq!(rt; pairs.len(), 1);
    for (name, variable) in &pairs {
        assert_eq!(rt; name.as_slice(), b"X".as_slice());
        assert_eq!(rt; *variable, 5);
    }
    Ok(())
}

#[test]
fn control_constructs_and_built_ins_are_reserved(rt: HostRuntime) -> Result<(), Fail> {
    let alloc = rt.alloc();
    let table: [(&[u8], usize, bool); 12] = [
        (b"true", 0, true),
        (b"true", 1, false),
        (b"call", 1, true),
        (b"retract", 1, true),
        (b"ground", 1, true),
        (b"->", 2, true),
        (b"is", 2, true),
        (b"@>=", 2, true),
        (b"throw", 2, false),
        (b"catch", 3, true),
        (b"arg", 3, true),
        (b"call", 4, false),
    ];
    for (name, arity, want) in table {
        let name = named(&rt, alloc, name)?;
        assert_eq!(rt; is_reserved(&name, arity), want, "{arity}");
    }
    Ok(())
}

#[test]
fn a_body_with_an_integer_in_a_control_construct_is_not_callable(
    rt: HostRuntime,
) -> Result<(), Fail> {
    let alloc = rt.alloc();
    for (name, want) in [(b",", false), (b";", false), (b"=", true)] {
        let args = vec![in alloc; Term::Var(0), Term::Int(1)]?;
        let term = Term::Cmp(named(&rt, alloc, name)?, Args::new(args));
        assert_eq!(rt; is_callable(&term), want);
        assert!(rt; !is_clause_head(&term));
    }
    assert!(rt; is_clause_head(&p_atom(alloc)?) && !is_clause_head(&true_atom(alloc)?));
    assert!(rt; !is_callable(&Term::Int(1)) && is_callable(&Term::Var(0)));
    Ok(())
}

fn shared<T: Send + Sync>(_value: &T) {}

// All of them may be sent to threads and shared by them.
#[test]
fn types_may_be_shared(rt: HostRuntime) -> Result<(), Fail> {
    let alloc = rt.alloc();
    shared(&Log::new(alloc));
    shared(&Program::new(Decls::new(alloc), Clauses::from_vec(Vec::new(alloc))));
    shared(&Script::new(1, Goals::from_vec(Vec::new(alloc)), Last::Commit));
    shared(&p_clause(alloc)?);
    Ok(())
}
