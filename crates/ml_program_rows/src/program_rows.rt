//! Programs are loaded with ample memory, and their predicates have links.
ghost use Rattle.std.specs.Prelude.{◌≡◌, IfOk, codes};
ghost use Rattle.ml_term.specs.Seen.{seen};
ghost use Rattle.ml_term.specs.Tree.{atom};

use ml_builtin::{Binary, Plain, Relation};
use ml_compile::compile_body;
use ml_program::{ControlCall, Link, Loaded, StoreCall};
use ml_search::{Clause, Clauses, Decls, Program};
use ml_stack::CodeName;
use ml_term::{Decl, Kind, Name, Pred, Term, is_name};
use std::alloc::{AllocError, Global};
use std::process::Abort;
use std::test::Fail;

// `p`.
fn p_atom(alloc: Global) -> Result<Term, AllocError>
    ensures { IfOk result (λ t. seen t ≡ atom (codes "p")) }
{
    Ok(Term::Atom(Name::new(alloc, b"p")?))
}

// `q`.
fn q_atom(alloc: Global) -> Result<Term, AllocError>
    ensures { IfOk result (λ t. seen t ≡ atom (codes "q")) }
{
    Ok(Term::Atom(Name::new(alloc, b"q")?))
}

// `true`.
fn true_atom(alloc: Global) -> Result<Term, AllocError>
    ensures { IfOk result (λ t. seen t ≡ atom (codes "true")) }
{
    Ok(Term::Atom(Name::new(alloc, b"true")?))
}

// `p.`
fn p_fact(alloc: Global) -> Result<Clause, AllocError> {
    Ok(Clause::new(p_atom(alloc)?, true_atom(alloc)?))
}

// `q :- p.`
fn q_rule(alloc: Global) -> Result<Clause, AllocError> {
    Ok(Clause::new(q_atom(alloc)?, p_atom(alloc)?))
}

// `p.`, `q :- p.` and `p.`, loaded.
fn loaded(alloc: Global) -> Result<Loaded, AllocError> {
    let mut clauses = Vec::new(alloc);
    clauses.push(p_fact(alloc)?)?;
    clauses.push(q_rule(alloc)?)?;
    clauses.push(p_fact(alloc)?)?;
    let program = Program::new(Decls::new(alloc), Clauses::from_vec(clauses));
    Loaded::new(alloc, &program)
}

fn pred_of(rt: &impl Abort, alloc: Global, name: &[u8], arity: u8) -> Result<Pred, AllocError>
    ensures { IfOk result (λ pred. pred.arity ≡ arity) }
{
    assert!(rt; is_name(name));
    Ok(Pred {
        name: Name::new(alloc, name)?,
        arity,
    })
}

// The link of a predicate in a program with no clauses and no declarations.
fn built_in(rt: &impl Abort, alloc: Global, name: &[u8], arity: u8) -> Result<Link, AllocError> {
    let program = Program::new(Decls::new(alloc), Clauses::from_vec(Vec::new(alloc)));
    let loaded = Loaded::new(alloc, &program)?;
    let pred = pred_of(rt, alloc, name, arity)?;
    Ok(loaded.link_of(&pred))
}

#[test]
fn a_predicate_is_found_by_name_and_arity(rt: HostRuntime) -> Result<(), Fail> {
    let alloc = rt.alloc();
    let loaded = loaded(alloc)?;
    let p = pred_of(&rt, alloc, b"p", 0)?;
    let q = pred_of(&rt, alloc, b"q", 0)?;
    let other = pred_of(&rt, alloc, b"p", 1)?;
    assert!(rt; matches!(loaded.link_of(&p), Link::Procedure(0)));
    assert!(rt; matches!(loaded.link_of(&q), Link::Procedure(1)));
    assert!(rt; matches!(loaded.link_of(&other), Link::Unknown));
    Ok(())
}

#[test]
fn the_call_of_a_clause_has_its_link(rt: HostRuntime) -> Result<(), Fail> {
    let alloc = rt.alloc();
    let loaded = loaded(alloc)?;
    let p = pred_of(&rt, alloc, b"p", 0)?;
    let link = loaded.link_at(CodeName::OfClause(1, 0), 1, &p);
    assert!(rt; matches!(link, Link::Procedure(0)));
    Ok(())
}

#[test]
fn links_stand_beside_a_called_body(rt: HostRuntime) -> Result<(), Fail> {
    let alloc = rt.alloc();
    let loaded = loaded(alloc)?;
    let code = compile_body(alloc, &q_atom(alloc)?)?;
    let links = loaded.links_beside(alloc, code.as_slice())?;
    assert!(rt; matches!(links.as_slice(), [Link::Procedure(1), Link::Unknown]));
    Ok(())
}

#[test]
fn built_ins_have_links(rt: HostRuntime) -> Result<(), Fail> {
    let alloc = rt.alloc();
    let call = built_in(&rt, alloc, b"call", 1)?;
    let compare = built_in(&rt, alloc, b"@=<", 2)?;
    let retract = built_in(&rt, alloc, b"retract", 1)?;
    let nothing = built_in(&rt, alloc, b"retract", 2)?;
    assert!(rt; matches!(call, Link::Control(ControlCall::Call)));
    assert!(rt;
        matches!(
            compare,
            Link::Plain(Plain::Two(Binary::Order(Relation::LessOrEqual)))
        )
    );
    assert!(rt; matches!(retract, Link::Store(StoreCall::Retract)));
    assert!(rt; matches!(nothing, Link::Unknown));
    Ok(())
}

#[test]
fn a_declared_predicate_has_the_link_of_its_list(rt: HostRuntime) -> Result<(), Fail> {
    let alloc = rt.alloc();
    let mut decls = Decls::new(alloc);
    let decl = Decl::with_default_keys(alloc, pred_of(&rt, alloc, b"r", 2)?, Kind::Relation)?;
    decls.add(decl)?;
    let program = Program::new(decls, Clauses::from_vec(Vec::new(alloc)));
    let loaded = Loaded::new(alloc, &program)?;
    let r = pred_of(&rt, alloc, b"r", 2)?;
    assert!(rt; matches!(loaded.link_of(&r), Link::Declared(Kind::Relation, 0)));
    Ok(())
}

fn shared<T: Send + Sync>(_value: &T) {}

// A loaded program may be sent to threads and shared by them.
#[test]
fn a_loaded_program_may_be_shared(rt: HostRuntime) -> Result<(), Fail> {
    let loaded = loaded(rt.alloc())?;
    shared(&loaded);
    Ok(())
}
