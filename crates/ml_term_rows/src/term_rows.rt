//! Each call that allocates on its happy path, and tables of the two orders.
ghost use Rattle.std.specs.Prelude.{◌≡◌, IfOk};

use ml_term::{
    Args, Decl, Keys, Kind, Name, Pred, Term, Terms, are_keys, canonical_len_up_to, compare,
    is_in_range, is_name, is_valid, key_cmp, nodes_up_to,
};
use std::alloc::{AllocError, Global};
use std::cmp::Ordering;
use std::process::Abort;
use std::test::Fail;

// A term of a table: a variable, a number, an atom, or a compound of one or of two such arguments.
#[derive(Clone, Copy)]
enum Row {
    Variable(u32),
    Number(i64),
    Word(&'static [u8]),
    One(&'static [u8], i64),
    Two(&'static [u8], i64, &'static [u8]),
}

fn named(rt: &impl Abort, alloc: Global, bytes: &[u8]) -> Result<Name, AllocError> {
    assert!(rt; is_name(bytes));
    Name::new(alloc, bytes)
}

fn one(rt: &impl Abort, alloc: Global, name: &[u8], v: i64) -> Result<Term, AllocError> {
    let arguments = vec![in alloc; Term::Int(v)]?;
    Ok(Term::Cmp(named(rt, alloc, name)?, Args::new(arguments)))
}

fn two(
    rt: &impl Abort,
    alloc: Global,
    name: &[u8],
    first: Term,
    second: Term,
) -> Result<Term, AllocError> {
    let arguments = vec![in alloc; first, second]?;
    Ok(Term::Cmp(named(rt, alloc, name)?, Args::new(arguments)))
}

fn term_of(rt: &impl Abort, alloc: Global, row: Row) -> Result<Term, AllocError> {
    match row {
        Row::Variable(n) => Ok(Term::Var(n)),
        Row::Number(v) => Ok(Term::Int(v)),
        Row::Word(f) => Ok(Term::Atom(named(rt, alloc, f)?)),
        Row::One(f, v) => one(rt, alloc, f, v),
        Row::Two(f, v, g) => {
            let second = Term::Atom(named(rt, alloc, g)?);
            two(rt, alloc, f, Term::Int(v), second)
        }
    }
}

fn pred_of(rt: &impl Abort, alloc: Global, name: &[u8], arity: u8) -> Result<Pred, AllocError>
    ensures { IfOk result (λ pred. pred.arity ≡ arity) }
{
    Ok(Pred {
        name: named(rt, alloc, name)?,
        arity,
    })
}

#[test]
fn copies_of_terms_are_equal(rt: HostRuntime) -> Result<(), Fail> {
    let alloc = rt.alloc();
    let inner = term_of(&rt, alloc, Row::Two(b"f", -7, b"[]"))?;
    let term = two(&rt, alloc, b"g", inner, Term::Var(3))?;
    let copy = term.copy_of(alloc)?;
    assert_eq!(rt; compare(&term, &copy), Ordering::Equal);
    assert_eq!(rt; copy.arity(), 2);
    for (limit, want) in [(0, 1), (3, 4), (4, 5), (5, 5), (100, 5)] {
        assert_eq!(rt; nodes_up_to(&copy, limit), want, "{limit}");
    }
    Ok(())
}

#[test]
fn lists_of_terms_keep_their_terms(rt: HostRuntime) -> Result<(), Fail> {
    let alloc = rt.alloc();
    let list = Terms::from_vec(vec![in alloc; Term::Var(3), Term::Int(-4)]?);
    let copy = list.copy_of(alloc)?;
    let terms = Args::new(copy.into_vec()).into_vec();
    assert!(rt; terms.len() == 2 && list.as_slice().len() == 2);
    for (a, b) in terms.iter().zip(list.as_slice()) {
        assert_eq!(rt; compare(a, b), Ordering::Equal);
    }
    Ok(())
}

#[test]
fn canonical_bytes_are_counted_up_to_a_limit(rt: HostRuntime) -> Result<(), Fail> {
    let alloc = rt.alloc();
    let term = term_of(&rt, alloc, Row::Two(b"pair", -7, b"[]"))?;
    for (limit, want) in [(0, 1), (6, 7), (19, 20), (20, 20), (4096, 20)] {
        assert_eq!(rt; canonical_len_up_to(&term, limit), want, "{limit}");
    }
    for (row, want) in [
        (Row::Variable(3), 5),
        (Row::Number(3), 9),
        (Row::Word(b"abc"), 5),
    ] {
        assert_eq!(rt; canonical_len_up_to(&term_of(&rt, alloc, row)?, 100), want);
    }
    Ok(())
}

#[test]
fn copies_of_declarations_are_equal(rt: HostRuntime) -> Result<(), Fail> {
    let alloc = rt.alloc();
    let pred = pred_of(&rt, alloc, b"edge", 9)?;
    assert!(rt; pred.copy_of(alloc)? == pred);
    let decl = Decl::with_default_keys(alloc, pred, Kind::Clauses)?;
    let copy = decl.copy_of(alloc)?;
    assert!(rt; copy.pred == decl.pred && copy.kind == decl.kind);
    assert_eq!(rt; copy.keys.as_slice(), [1, 2, 3, 4, 5, 6, 7, 8].as_slice());
    Ok(())
}

#[test]
fn copies_of_keys_are_equal(rt: HostRuntime) -> Result<(), Fail> {
    let alloc = rt.alloc();
    let keys = Keys::new(alloc, &[2, 1])?;
    let copy = Keys::from_vec(keys.copy_of(alloc)?.into_vec());
    assert_eq!(rt; copy.as_slice(), [2, 1].as_slice());
    let pair = Keys::default_of(alloc, 2)?;
    assert_eq!(rt; pair.as_slice(), [1, 2].as_slice());
    Ok(())
}

#[test]
fn keys_are_different_numbers_of_arguments(rt: HostRuntime) {
    let table: [(&[u8], bool); 7] = [
        (&[], false),
        (&[2, 1], true),
        (&[1, 1], false),
        (&[0], false),
        (&[9], true),
        (&[10], false),
        (&[1, 2, 3, 4, 5, 6, 7, 8, 9], false),
    ];
    for (numbers, want) in table {
        assert_eq!(rt; are_keys(9, numbers), want, "{numbers:?}");
    }
}

#[test]
fn terms_stand_in_the_standard_order(rt: HostRuntime) -> Result<(), Fail> {
    let alloc = rt.alloc();
    let rising = [
        Row::Variable(0),
        Row::Variable(1),
        Row::Number(-2),
        Row::Number(-1),
        Row::Number(0),
        Row::Number(3),
        Row::Word(b""),
        Row::Word(b"a"),
        Row::Word(b"ab"),
        Row::Word(b"b"),
        Row::One(b"z", 9),
        Row::Two(b"a", 0, b"x"),
        Row::Two(b"b", 0, b"x"),
        Row::Two(b"b", 0, b"y"),
        Row::Two(b"b", 1, b"x"),
    ];
    for (i, a) in rising.iter().enumerate() {
        for (j, b) in rising.iter().enumerate() {
            let (a, b) = (term_of(&rt, alloc, *a)?, term_of(&rt, alloc, *b)?);
            assert_eq!(rt; compare(&a, &b), i.cmp(&j), "terms {i} and {j}");
        }
    }
    Ok(())
}

// An argument of a tuple: a small number, or one of three atoms, of which the last two have one
// code.
fn argument(rt: &impl Abort, alloc: Global, n: i8) -> Result<Term, AllocError> {
    let row = match n {
        100 => Row::Word(b"a"),
        101 => Row::Word(b"department_a"),
        102 => Row::Word(b"department_b"),
        _ => Row::Number(i64::from(n)),
    };
    term_of(rt, alloc, row)
}

// The order of two tuples q(m,n) by their keys.
fn tuples_cmp(
    rt: &impl Abort,
    alloc: Global,
    decl: &Decl,
    a: (i8, i8),
    b: (i8, i8),
) -> Result<Ordering, AllocError> {
    let a = two(
        rt,
        alloc,
        b"q",
        argument(rt, alloc, a.0)?,
        argument(rt, alloc, a.1)?,
    )?;
    let b = two(
        rt,
        alloc,
        b"q",
        argument(rt, alloc, b.0)?,
        argument(rt, alloc, b.1)?,
    )?;
    let arity = usize::from(decl.pred.arity);
    assert!(rt; a.arity() == arity && b.arity() == arity);
    assert!(rt; is_valid(&a) && is_valid(&b));
    Ok(key_cmp(decl, &a, &b))
}

#[test]
fn tuples_stand_in_the_order_of_their_keys(rt: HostRuntime) -> Result<(), Fail> {
    let alloc = rt.alloc();
    let decl = Decl::with_default_keys(alloc, pred_of(&rt, alloc, b"q", 2)?, Kind::Relation)?;
    let rising = [
        (-1, -1),
        (-1, 0),
        (0, -1),
        (0, 0),
        (0, 1),
        (1, 0),
        (1, 1),
        (0, 2),
        (1, 2),
        (2, 0),
        (0, 100),
        (0, 101),
        (0, 102),
        (100, 0),
        (101, 0),
        (102, 0),
        (101, 102),
        (102, 101),
    ];
    for (i, a) in rising.iter().enumerate() {
        for (j, b) in rising.iter().enumerate() {
            let order = tuples_cmp(&rt, alloc, &decl, *a, *b)?;
            assert_eq!(rt; order, i.cmp(&j), "tuples {i} and {j}");
        }
    }
    Ok(())
}

#[test]
fn limits_are_those_of_the_language(rt: HostRuntime) {
    for (v, want) in [
        (-2305843009213693953, false),
        (-2305843009213693952, true),
        (2305843009213693951, true),
        (2305843009213693952, false),
    ] {
        assert_eq!(rt; is_in_range(v), want, "{v}");
        assert_eq!(rt; is_valid(&Term::Int(v)), want, "{v}");
    }
    for (byte, want) in [
        (6, false),
        (7, true),
        (13, true),
        (14, false),
        (31, false),
        (32, true),
        (126, true),
        (127, false),
    ] {
        assert_eq!(rt; is_name(&[byte]), want, "{byte}");
    }
    assert!(rt; is_name(&[97; 255]) && !is_name(&[97; 256]));
}
