//! Unification, renaming and replacing with ample memory.
use ml_search::{Map, apply, mgu, rename, unifies};
use ml_term::{Args, Name, Term, compare, is_name, is_valid, nodes_up_to};
use std::alloc::{AllocError, Global};
use std::cmp::Ordering;
use std::process::Abort;
use std::test::Fail;

fn named(rt: &impl Abort, alloc: Global, bytes: &[u8]) -> Result<Name, AllocError> {
    assert!(rt; is_name(bytes));
    Name::new(alloc, bytes)
}

fn atom(rt: &impl Abort, alloc: Global, name: &[u8]) -> Result<Term, AllocError> {
    Ok(Term::Atom(named(rt, alloc, name)?))
}

fn one(rt: &impl Abort, alloc: Global, name: &[u8], t: Term) -> Result<Term, AllocError> {
    let arguments = vec![in alloc; t]?;
    Ok(Term::Cmp(named(rt, alloc, name)?, Args::new(arguments)))
}

fn two(rt: &impl Abort, alloc: Global, name: &[u8], t: Term, u: Term) -> Result<Term, AllocError> {
    let arguments = vec![in alloc; t, u]?;
    Ok(Term::Cmp(named(rt, alloc, name)?, Args::new(arguments)))
}

fn unified(rt: &impl Abort, alloc: Global, a: &Term, b: &Term) -> Result<Option<Map>, AllocError> {
    assert!(rt; is_valid(a) && is_valid(b));
    mgu(alloc, a, b)
}

fn meets(rt: &impl Abort, alloc: Global, pattern: &Term, head: &Term) -> Result<bool, AllocError> {
    assert!(rt; is_valid(pattern) && is_valid(head));
    unifies(alloc, pattern, head)
}

// Whether a map replaces a variable by a term.
fn has(map: &Map, variable: u32, wanted: &Term) -> bool {
    match map.get(variable) {
        Some(term) => compare(term, wanted) == Ordering::Equal,
        None => false,
    }
}

// Whether two terms have a unifier with so many variables replaced, under which they are one.
fn is_unified(
    rt: &impl Abort,
    alloc: Global,
    a: &Term,
    b: &Term,
    count: usize,
) -> Result<bool, AllocError> {
    assert!(rt; is_valid(a) && is_valid(b));
    let Some(map) = mgu(alloc, a, b)? else {
        return Ok(false);
    };
    let (a, b) = (apply(alloc, &map, a)?, apply(alloc, &map, b)?);
    Ok(map.as_slice().len() == count && compare(&a, &b) == Ordering::Equal)
}

#[test]
fn a_unifier_has_a_term_for_each_variable(rt: HostRuntime) -> Result<(), Fail> {
    let alloc = rt.alloc();
    let (a, b) = (atom(&rt, alloc, b"a")?, atom(&rt, alloc, b"b")?);
    let left = two(&rt, alloc, b"f", Term::Var(0), b.copy_of(alloc)?)?;
    let right = two(&rt, alloc, b"f", a.copy_of(alloc)?, Term::Var(1))?;
    let map = unified(&rt, alloc, &left, &right)?.expect(&rt, "they have a unifier");
    assert!(rt; is_valid(&left));
    assert!(rt; has(&map, 0, &a) && has(&map, 1, &b) && map.as_slice().len() == 2);
    let both = two(&rt, alloc, b"f", a, b)?;
    assert_eq!(rt;
        compare(&apply(alloc, &map, &left)?, &both),
        Ordering::Equal
    );
    assert_eq!(rt;
        compare(&apply(alloc, &map, &Term::Var(7))?, &Term::Var(7)),
        Ordering::Equal
    );
    Ok(())
}

#[test]
fn a_later_binding_stands_in_the_terms_of_earlier_ones(rt: HostRuntime) -> Result<(), Fail> {
    let alloc = rt.alloc();
    let left = two(&rt, alloc, b"f", Term::Var(0), Term::Var(1))?;
    let inner = two(&rt, alloc, b"g", Term::Var(1), Term::Var(1))?;
    let right = two(&rt, alloc, b"f", inner, Term::Int(3))?;
    let map = unified(&rt, alloc, &left, &right)?.expect(&rt, "they have a unifier");
    let three = two(&rt, alloc, b"g", Term::Int(3), Term::Int(3))?;
    assert!(rt; has(&map, 0, &three) && has(&map, 1, &Term::Int(3)));
    Ok(())
}

#[test]
fn of_two_variables_the_younger_is_replaced(rt: HostRuntime) -> Result<(), Fail> {
    let alloc = rt.alloc();
    for (m, n) in [(0, 1), (1, 0)] {
        let map = unified(&rt, alloc, &Term::Var(m), &Term::Var(n))?.expect(&rt, "variables");
        assert!(rt; has(&map, 1, &Term::Var(0)) && map.get(0).is_none());
    }
    let same = unified(&rt, alloc, &Term::Var(4), &Term::Var(4))?.expect(&rt, "one variable");
    assert!(rt; same.as_slice().is_empty());
    Ok(())
}

// f(X0,X0).
fn twice(rt: &impl Abort, alloc: Global) -> Result<Term, AllocError> {
    two(rt, alloc, b"f", Term::Var(0), Term::Var(0))
}

// g(X0).
fn under(rt: &impl Abort, alloc: Global) -> Result<Term, AllocError> {
    one(rt, alloc, b"g", Term::Var(0))
}

// f(X0,a).
fn before_a(rt: &impl Abort, alloc: Global) -> Result<Term, AllocError> {
    let a = atom(rt, alloc, b"a")?;
    two(rt, alloc, b"f", Term::Var(0), a)
}

// f(b,X0).
fn behind_b(rt: &impl Abort, alloc: Global) -> Result<Term, AllocError> {
    let b = atom(rt, alloc, b"b")?;
    two(rt, alloc, b"f", b, Term::Var(0))
}

// f(X0,g(X0)).
fn before_under(rt: &impl Abort, alloc: Global) -> Result<Term, AllocError> {
    let inner = under(rt, alloc)?;
    two(rt, alloc, b"f", Term::Var(0), inner)
}

// The first term of a pair: f(X0,a); X0; f(X0,X0), three times; f(X0,X1); 1; a.
fn left_of(rt: &impl Abort, alloc: Global, row: u8) -> Result<Term, AllocError> {
    match row {
        0 => before_a(rt, alloc),
        1 => Ok(Term::Var(0)),
        2..=4 => twice(rt, alloc),
        5 => two(rt, alloc, b"f", Term::Var(0), Term::Var(1)),
        6 => Ok(Term::Int(1)),
        7.. => atom(rt, alloc, b"a"),
    }
}

// The second term of a pair: f(b,X0); g(X0); f(X0,g(X0)); f(1,1); f(1,2); g(X0); 2; a.
fn right_of(rt: &impl Abort, alloc: Global, row: u8) -> Result<Term, AllocError> {
    match row {
        0 => behind_b(rt, alloc),
        1 => under(rt, alloc),
        2 => before_under(rt, alloc),
        3 => two(rt, alloc, b"f", Term::Int(1), Term::Int(1)),
        4 => two(rt, alloc, b"f", Term::Int(1), Term::Int(2)),
        5 => under(rt, alloc),
        6 => Ok(Term::Int(2)),
        7.. => atom(rt, alloc, b"a"),
    }
}

// Whether both orders of a pair unify where the second term is renamed apart, and whether its
// unifier is as wanted.
fn is_as_wanted(
    rt: &impl Abort,
    alloc: Global,
    row: u8,
    count: Option<usize>,
    apart: bool,
) -> Result<bool, AllocError> {
    let a = left_of(rt, alloc, row)?;
    let b = right_of(rt, alloc, row)?;
    let forwards = meets(rt, alloc, &a, &b)?;
    let backwards = meets(rt, alloc, &b, &a)?;
    let unified = match count {
        Some(count) => is_unified(rt, alloc, &a, &b, count)?,
        None => unified(rt, alloc, &a, &b)?.is_none(),
    };
    Ok(forwards == apart && backwards == apart && unified)
}

#[test]
fn a_head_is_renamed_apart_from_a_pattern(rt: HostRuntime) -> Result<(), Fail> {
    let alloc = rt.alloc();
    // the pair, how many variables its unifier replaces, and whether it unifies where the second
    // term is renamed apart
    let rows: [(u8, Option<usize>, bool); 8] = [
        (0, None, true),
        (1, None, true),
        (2, None, false),
        (3, Some(1), true),
        (4, None, false),
        (5, None, false),
        (6, None, false),
        (7, Some(0), true),
    ];
    for (row, count, apart) in rows {
        assert!(rt; is_as_wanted(&rt, alloc, row, count, apart)?, "row {row}");
    }
    Ok(())
}

// g(g(..)) of some levels round a term.
fn nested(rt: &impl Abort, alloc: Global, levels: usize, t: Term) -> Result<Term, AllocError> {
    let mut nested = t;
    for _ in 0..levels {
        nested = one(rt, alloc, b"g", nested)?;
    }
    Ok(nested)
}

#[test]
fn a_cycle_through_deep_terms_is_found(rt: HostRuntime) -> Result<(), Fail> {
    let alloc = rt.alloc();
    let deep = nested(&rt, alloc, 1000, Term::Var(1))?;
    let left = two(&rt, alloc, b"f", Term::Var(0), deep)?;
    let deep = nested(&rt, alloc, 1000, Term::Var(0))?;
    let right = two(&rt, alloc, b"f", deep, Term::Var(0))?;
    assert!(rt; meets(&rt, alloc, &left, &right)?);
    let left = two(
        &rt,
        alloc,
        b"f",
        Term::Var(0),
        nested(&rt, alloc, 1000, Term::Var(0))?,
    )?;
    assert!(rt; !meets(&rt, alloc, &left, &right)?);
    Ok(())
}

// A term of at most 100 nodes with variables from a number below 1,000 on.
fn renamed(rt: &impl Abort, alloc: Global, t: &Term, first: u32) -> Result<Term, AllocError> {
    assert!(rt; is_valid(t) && first < 1000);
    assert!(rt; nodes_up_to(t, 100) <= 100);
    rename(alloc, t, first)
}

#[test]
fn a_term_is_renamed_by_first_places(rt: HostRuntime) -> Result<(), Fail> {
    let alloc = rt.alloc();
    let inner = two(&rt, alloc, b"g", Term::Var(2), Term::Var(9))?;
    let term = two(&rt, alloc, b"f", Term::Var(9), inner)?;
    let inner = two(&rt, alloc, b"g", Term::Var(6), Term::Var(5))?;
    let wanted = two(&rt, alloc, b"f", Term::Var(5), inner)?;
    assert_eq!(rt;
        compare(&renamed(&rt, alloc, &term, 5)?, &wanted),
        Ordering::Equal
    );
    Ok(())
}
