//! The table of codes, and keys and patterns of small items.
ghost use Rattle.std.specs.Prelude.{◌≡◌, IfOk};

use ml_bits::Bits;
use ml_key::{Pattern, code, key_of, may_hold, pattern_of};
use ml_term::{
    Args, Decl, Keys, Kind, Name, Pred, Term, argument_at, arguments_of, is_name, is_valid,
    nodes_up_to,
};
use std::alloc::{AllocError, Global};
use std::cmp::Ordering;
use std::process::Abort;
use std::test::Fail;

// An argument of a table.
#[derive(Clone, Copy)]
enum Row {
    Variable(u32),
    Number(i64),
    Word(&'static [u8]),
    OfVariable(&'static [u8]),
}

fn named(rt: &impl Abort, alloc: Global, bytes: &[u8]) -> Result<Name, AllocError> {
    assert!(rt; is_name(bytes));
    Name::new(alloc, bytes)
}

fn term_of(rt: &impl Abort, alloc: Global, row: Row) -> Result<Term, AllocError> {
    match row {
        Row::Variable(n) => Ok(Term::Var(n)),
        Row::Number(v) => Ok(Term::Int(v)),
        Row::Word(f) => Ok(Term::Atom(named(rt, alloc, f)?)),
        Row::OfVariable(f) => {
            let arguments = vec![in alloc; Term::Var(0)]?;
            Ok(Term::Cmp(named(rt, alloc, f)?, Args::new(arguments)))
        }
    }
}

// A compound of two arguments.
fn pair(
    rt: &impl Abort,
    alloc: Global,
    name: &[u8],
    first: Term,
    second: Term,
) -> Result<Term, AllocError> {
    let arguments = vec![in alloc; first, second]?;
    Ok(Term::Cmp(named(rt, alloc, name)?, Args::new(arguments)))
}

// A declaration of a predicate of two arguments of which these are keyed.
fn declared(
    rt: &impl Abort,
    alloc: Global,
    name: &[u8],
    kind: Kind,
    keyed: &[u8],
) -> Result<Decl, AllocError>
    ensures { IfOk result (λ decl. (decl.kind ≡ kind) × (decl.pred.arity ≡ 2)) }
{
    let pred = Pred {
        name: named(rt, alloc, name)?,
        arity: 2,
    };
    let keys = Keys::new(alloc, keyed)?;
    assert!(rt; keyed == [1].as_slice() || keyed == [2].as_slice() || keyed == [1, 2].as_slice());
    Ok(Decl::new(pred, kind, keys))
}

// The key of a tuple q(m,n).
fn tuple_key(
    rt: &impl Abort,
    alloc: Global,
    keyed: &[u8],
    m: i64,
    n: i64,
) -> Result<Bits, AllocError> {
    let decl = declared(rt, alloc, b"q", Kind::Relation, keyed)?;
    let tuple = pair(rt, alloc, b"q", Term::Int(m), Term::Int(n))?;
    assert!(rt; is_valid(&tuple) && tuple.arity() == 2 && nodes_up_to(&tuple, 4096) <= 4096);
    key_of(alloc, &decl, &tuple, 7)
}

// The key of a clause with a head price(first,second), stored with a number.
fn clause_key(
    rt: &impl Abort,
    alloc: Global,
    first: Row,
    second: Row,
    number: u64,
) -> Result<Bits, AllocError> {
    let decl = declared(rt, alloc, b"price", Kind::Clauses, &[1, 2])?;
    let head = pair(
        rt,
        alloc,
        b"price",
        term_of(rt, alloc, first)?,
        term_of(rt, alloc, second)?,
    )?;
    let body = Term::Atom(named(rt, alloc, b"true")?);
    let clause = pair(rt, alloc, b":-", head, body)?;
    assert!(rt; is_valid(&clause) && nodes_up_to(&clause, 4096) <= 4096);
    let arguments = arguments_of(&clause);
    assert!(rt; !arguments.is_empty() && argument_at(arguments, 1).arity() == 2);
    key_of(alloc, &decl, &clause, number)
}

// The pattern of a head price(first,second).
fn asked(rt: &impl Abort, alloc: Global, first: Row, second: Row) -> Result<Pattern, AllocError> {
    let decl = declared(rt, alloc, b"price", Kind::Clauses, &[1, 2])?;
    let head = pair(
        rt,
        alloc,
        b"price",
        term_of(rt, alloc, first)?,
        term_of(rt, alloc, second)?,
    )?;
    assert!(rt; is_valid(&head) && head.arity() == 2);
    Ok(pattern_of(&decl, &head))
}

#[test]
fn codes_are_those_of_the_table(rt: HostRuntime) -> Result<(), Fail> {
    let alloc = rt.alloc();
    for (row, want) in [
        (Row::Variable(7), 0),
        (Row::Number(0), 0x6000_0000_0000_0000),
        (Row::Number(1), 0x6000_0000_0000_0001),
        (Row::Number(-1), 0x5fff_ffff_ffff_ffff),
        (Row::Number(-2305843009213693952), 0x4000_0000_0000_0000),
        (Row::Word(b"a"), 0x9840_0000_0000_0001),
        (Row::Word(b"[]"), 0x96d7_4000_0000_0002),
        (Row::OfVariable(b"f"), 0xc059_8000_0000_0001),
    ] {
        let term = term_of(&rt, alloc, row)?;
        assert!(rt; is_valid(&term));
        assert_eq!(rt; code(&term), want, "{want:x}");
    }
    Ok(())
}

#[test]
fn keys_of_tuples_differ_at_the_first_bit_in_turn(rt: HostRuntime) -> Result<(), Fail> {
    let alloc = rt.alloc();
    for (keyed, common, order) in [
        ([1, 2].as_slice(), 125, Ordering::Greater),
        ([1].as_slice(), 63, Ordering::Less),
        ([2].as_slice(), 62, Ordering::Greater),
    ] {
        let first = tuple_key(&rt, alloc, keyed, 0, 2)?;
        let second = tuple_key(&rt, alloc, keyed, 1, 0)?;
        assert_eq!(rt; first.common_len(&second), common);
        assert_eq!(rt; first.cmp(&second), order);
        assert_eq!(rt; first.len(), 64 * keyed.len() + 8 * 22);
    }
    Ok(())
}

#[test]
fn keys_of_clauses_end_with_their_numbers(rt: HostRuntime) -> Result<(), Fail> {
    let alloc = rt.alloc();
    let first = clause_key(&rt, alloc, Row::Word(b"pear"), Row::Number(4), 5)?;
    let second = clause_key(&rt, alloc, Row::Word(b"pear"), Row::Number(4), 6)?;
    assert_eq!(rt; first.len(), 192);
    assert_eq!(rt; first.common_len(&second), 190);
    Ok(())
}

// A stored clause price(X,3) is looked for wherever price(apple,P) may be found, and price(pear,4)
// is not.
#[test]
fn regions_of_a_clause_with_a_variable_are_asked(rt: HostRuntime) -> Result<(), Fail> {
    let alloc = rt.alloc();
    let pattern = asked(&rt, alloc, Row::Word(b"apple"), Row::Variable(0))?;
    let all = asked(&rt, alloc, Row::Variable(0), Row::Variable(1))?;
    for (first, second, held) in [
        (Row::Variable(0), Row::Number(3), 192),
        (Row::Word(b"apple"), Row::Number(3), 192),
        (Row::Word(b"pear"), Row::Number(4), 10),
        (Row::Number(3), Row::Word(b"apple"), 2),
    ] {
        let key = clause_key(&rt, alloc, first, second, 0)?;
        for n in 0..=192 {
            assert!(rt; n <= key.len());
            let prefix = key.prefix(n)?;
            assert_eq!(rt; may_hold(&pattern, &prefix), n <= held, "{n} of {held}");
            assert!(rt; may_hold(&all, &prefix));
        }
    }
    Ok(())
}

// Patterns may be sent to threads and shared by them.
#[test]
fn may_be_shared(rt: HostRuntime) -> Result<(), Fail> {
    shared(&asked(&rt, rt.alloc(), Row::Variable(0), Row::Variable(1))?);
    Ok(())
}

fn shared<T: Send + Sync>(_pattern: &T) {}
