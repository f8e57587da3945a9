//! One clause of each form with its instructions.
use crate::texts::clause_in;
use ml_compile::{Instr, compile_clause};
use std::alloc::{AllocError, Global};
use std::fmt::Write;
use std::process::Abort;
use std::test::Fail;

/// What an instruction is told as: a word, a name, an integer, and numbers.
#[derive(Drop)]
struct Told<'a> {
    word: &'static str,
    name: &'a [u8],
    integer: Option<i64>,
    numbers: [Option<usize>; 3],
}

impl<'a> Told<'a> {
    fn plain(word: &'static str) -> Told<'a> {
        Told {
            word,
            name: &[],
            integer: None,
            numbers: [None, None, None],
        }
    }

    fn of_variable(word: &'static str, n: u32) -> Told<'a> {
        Told {
            word,
            name: &[],
            integer: None,
            numbers: [Some(n as usize), None, None],
        }
    }

    fn of_integer(word: &'static str, z: i64) -> Told<'a> {
        Told {
            word,
            name: &[],
            integer: Some(z),
            numbers: [None, None, None],
        }
    }

    fn of_name(
        word: &'static str,
        name: &'a [u8],
        count: Option<u8>,
        size: Option<usize>,
    ) -> Told<'a> {
        Told {
            word,
            name,
            integer: None,
            numbers: [count.map(usize::from), size, None],
        }
    }

    fn of_places(
        word: &'static str,
        first: usize,
        second: usize,
        third: Option<usize>,
    ) -> Told<'a> {
        Told {
            word,
            name: &[],
            integer: None,
            numbers: [Some(first), Some(second), third],
        }
    }
}

fn told_of(instr: &Instr) -> Told<'_> {
    match instr {
        Instr::Enter(n) => Told::of_variable("enter", *n),
        Instr::GetFirst(n) => Told::of_variable("get first", *n),
        Instr::GetAgain(n) => Told::of_variable("get again", *n),
        Instr::GetInt(z) => Told::of_integer("get", *z),
        Instr::GetAtom(name) => Told::of_name("get ", name.as_slice(), None, None),
        Instr::GetCmp(name, count, size) => {
            Told::of_name("get ", name.as_slice(), Some(*count), Some(*size))
        }
        Instr::PutVar(n) => Told::of_variable("put variable", *n),
        Instr::PutInt(z) => Told::of_integer("put", *z),
        Instr::PutAtom(name) => Told::of_name("put ", name.as_slice(), None, None),
        Instr::PutCmp(name, count) => Told::of_name("put ", name.as_slice(), Some(*count), None),
        Instr::Call(pred) => Told::of_name("call ", pred.name.as_slice(), Some(pred.arity), None),
        Instr::Proceed => Told::plain("proceed"),
        Instr::True => Told::plain("true"),
        Instr::Fail => Told::plain("fail"),
        Instr::Cut => Told::plain("cut"),
        Instr::Try(second, end) => Told::of_places("try", *second, *end, None),
        Instr::Choose(then, other, end) => Told::of_places("choose", *then, *other, Some(*end)),
    }
}

// Puts what is told of an instruction behind a text.
fn put(text: &mut String, told: &Told<'_>) -> Result<(), AllocError> {
    text.push_str(told.word)?;
    for byte in told.name {
        text.push(char::from(*byte))?;
    }
    if let Some(z) = told.integer {
        write!(text, " {z}")?;
    }
    for n in told.numbers.iter().flatten() {
        write!(text, " {n}")?;
    }
    text.push_str("; ")
}

// The instructions of a clause, or none where there is no clause.
fn listed(alloc: Global, text: &[u8]) -> Result<String, AllocError> {
    let mut list = String::new(alloc);
    let Some(clause) = clause_in(alloc, text)? else {
        return Ok(list);
    };
    let code = compile_clause(alloc, &clause)?;
    for instr in code.as_slice() {
        put(&mut list, &told_of(instr))?;
    }
    Ok(list)
}

// Whether each clause has the instructions that stand beside it.
fn check(rt: &impl Abort, alloc: Global, table: &[(&[u8], &str)]) -> Result<(), Fail> {
    for (text, want) in table {
        assert_eq!(rt; listed(alloc, text)?.as_str(), *want);
    }
    Ok(())
}

#[test]
fn heads(rt: HostRuntime) -> Result<(), Fail> {
    let table: [(&[u8], &str); 6] = [
        (b"p.", "enter 0; true; proceed; "),
        (b"p(7, a).", "enter 0; get 7; get a; true; proceed; "),
        (b"p(-1, []).", "enter 0; get -1; get []; true; proceed; "),
        (
            b"p(X, Y, X).",
            "enter 2; get first 0; get first 1; get again 0; true; proceed; ",
        ),
        (
            b"p(f(X, g(1)), X).",
            "enter 1; get f 2 4; get first 0; get g 1 2; get 1; get again 0; true; proceed; ",
        ),
        (
            b"append([H|T], L, [H|R]) :- append(T, L, R).",
            "enter 4; get . 2 3; get first 0; get first 1; get first 2; get . 2 3; get again 0; get first 3; put variable 1; put variable 2; put variable 3; call append 3; proceed; ",
        ),
    ];
    check(&rt, rt.alloc(), &table)
}

#[test]
fn goals(rt: HostRuntime) -> Result<(), Fail> {
    let table: [(&[u8], &str); 8] = [
        (b"p :- fail.", "enter 0; fail; proceed; "),
        (b"p :- !, q.", "enter 0; cut; call q 0; proceed; "),
        (
            b"p(X) :- X.",
            "enter 1; get first 0; put variable 0; call call 1; proceed; ",
        ),
        (
            b"p :- q(f(X, g(1)), b), X.",
            "enter 1; put variable 0; put 1; put g 1; put f 2; put b; call q 2; put variable 0; call call 1; proceed; ",
        ),
        (
            b"p(X) :- X = 1, \\+ X == 2.",
            "enter 1; get first 0; put variable 0; put 1; call = 2; put variable 0; put 2; put == 2; call \\+ 1; proceed; ",
        ),
        (
            b"p(X) :- catch(X, E, throw(E)).",
            "enter 2; get first 0; put variable 0; put variable 1; put variable 1; put throw 1; call catch 3; proceed; ",
        ),
        (
            b"p(L) :- findall(X, q(X), L).",
            "enter 2; get first 0; put variable 1; put variable 1; put q 1; put variable 0; call findall 3; proceed; ",
        ),
        (
            b"p :- once(q), call(r).",
            "enter 0; put q; call once 1; put r; call call 1; proceed; ",
        ),
    ];
    check(&rt, rt.alloc(), &table)
}

#[test]
fn branches(rt: HostRuntime) -> Result<(), Fail> {
    let table: [(&[u8], &str); 5] = [
        (
            b"p :- ( a ; b ).",
            "enter 0; try 3 5; call a 0; proceed; call b 0; proceed; proceed; ",
        ),
        (
            b"p :- ( a -> b ).",
            "enter 0; choose 3 5 7; call a 0; proceed; call b 0; proceed; fail; proceed; proceed; ",
        ),
        (
            b"p :- ( a -> b ; c ), !.",
            "enter 0; choose 3 5 7; call a 0; proceed; call b 0; proceed; call c 0; proceed; cut; proceed; ",
        ),
        (
            b"p :- ( a ; b ; c ).",
            "enter 0; try 3 9; call a 0; proceed; try 3 5; call b 0; proceed; call c 0; proceed; proceed; proceed; ",
        ),
        (
            b"p :- ( ( a ; b ) -> ! ; true ).",
            "enter 0; choose 7 9 11; try 3 5; call a 0; proceed; call b 0; proceed; proceed; cut; proceed; true; proceed; proceed; ",
        ),
    ];
    check(&rt, rt.alloc(), &table)
}
