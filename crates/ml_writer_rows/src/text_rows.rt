//! Each call that allocates on its happy path, and tables of texts.
ghost use Rattle.std.specs.Prelude.{◌≤◌, length};

use ml_term::{Args, Name, Term, is_name};
use ml_writer::{LineStop, Lines, MAX_ANSWER_BYTES, term_text, write_term};
use std::alloc::{AllocError, Global};
use std::process::Abort;
use std::test::Fail;

fn named(rt: &impl Abort, alloc: Global, bytes: &[u8]) -> Result<Name, AllocError> {
    assert!(rt; is_name(bytes));
    Name::new(alloc, bytes)
}

fn atom(rt: &impl Abort, alloc: Global, name: &[u8]) -> Result<Term, AllocError> {
    Ok(Term::Atom(named(rt, alloc, name)?))
}

fn one(rt: &impl Abort, alloc: Global, name: &[u8], t: Term) -> Result<Term, AllocError> {
    let args = vec![in alloc; t]?;
    Ok(Term::Cmp(named(rt, alloc, name)?, Args::new(args)))
}

fn two(rt: &impl Abort, alloc: Global, name: &[u8], t: Term, u: Term) -> Result<Term, AllocError> {
    let args = vec![in alloc; t, u]?;
    Ok(Term::Cmp(named(rt, alloc, name)?, Args::new(args)))
}

fn three(
    rt: &impl Abort,
    alloc: Global,
    name: &[u8],
    t: Term,
    u: Term,
    v: Term,
) -> Result<Term, AllocError> {
    let args = vec![in alloc; t, u, v]?;
    Ok(Term::Cmp(named(rt, alloc, name)?, Args::new(args)))
}

fn expect_text(rt: &impl Abort, alloc: Global, t: &Term, want: &[u8]) -> Result<(), AllocError> {
    let text = term_text(alloc, t)?;
    assert_eq!(rt; text.as_slice(), want);
    Ok(())
}

#[test]
fn names_stand_bare_or_in_quotes(rt: HostRuntime) -> Result<(), Fail> {
    let alloc = rt.alloc();
    let rows: [(&[u8], &[u8]); 44] = [
        (b"a", b"a"),
        (b"aB_9z", b"aB_9z"),
        (b"A", b"'A'"),
        (b"_a", b"'_a'"),
        (b"9a", b"'9a'"),
        (b"a b", b"'a b'"),
        (b"a-b", b"'a-b'"),
        (b"", b"''"),
        (b" ", b"' '"),
        (b"[]", b"[]"),
        (b"{}", b"{}"),
        (b"!", b"!"),
        (b";", b";"),
        (b"[ ]", b"'[ ]'"),
        (b"[", b"'['"),
        (b"!!", b"'!!'"),
        (b";;", b"';;'"),
        (b",", b"','"),
        (b"|", b"'|'"),
        (b"(", b"'('"),
        (b"%", b"'%'"),
        (b"\"", b"'\"'"),
        (b"`", b"'`'"),
        (b".", b"'.'"),
        (b"..", b".."),
        (b"+", b"+"),
        (b"=..", b"=.."),
        (b"\\+", b"\\+"),
        (b"+-*/\\^<>=~:.?@#&$", b"+-*/\\^<>=~:.?@#&$"),
        (b"/", b"/"),
        (b"/*", b"'/*'"),
        (b"/**/", b"'/**/'"),
        (b"*/", b"*/"),
        (b"//*", b"//*"),
        (b"\x07", b"'\\a'"),
        (b"\x08", b"'\\b'"),
        (b"\x09", b"'\\t'"),
        (b"\x0a", b"'\\n'"),
        (b"\x0b", b"'\\v'"),
        (b"\x0c", b"'\\f'"),
        (b"\x0d", b"'\\r'"),
        (b"it's", b"'it\\'s'"),
        (b"a\\b", b"'a\\\\b'"),
        (b"~ }\x0d!\x07", b"'~ }\\r!\\a'"),
    ];
    for (name, want) in rows {
        expect_text(&rt, alloc, &atom(&rt, alloc, name)?, want)?;
    }
    Ok(())
}

#[test]
fn integers_stand_in_decimal(rt: HostRuntime) -> Result<(), Fail> {
    let alloc = rt.alloc();
    let rows: [(i64, &[u8]); 9] = [
        (0, b"0"),
        (7, b"7"),
        (10, b"10"),
        (-1, b"-1"),
        (-10, b"-10"),
        (1000000, b"1000000"),
        (2305843009213693951, b"2305843009213693951"),
        (-2305843009213693952, b"-2305843009213693952"),
        (i64::MIN, b"-9223372036854775808"),
    ];
    for (v, want) in rows {
        expect_text(&rt, alloc, &Term::Int(v), want)?;
    }
    Ok(())
}

#[test]
fn compounds_stand_without_operators(rt: HostRuntime) -> Result<(), Fail> {
    let alloc = rt.alloc();
    let a = atom(&rt, alloc, b"a")?;
    expect_text(&rt, alloc, &one(&rt, alloc, b".", a)?, b"'.'(a)")?;
    let braces = atom(&rt, alloc, b"{}")?;
    expect_text(&rt, alloc, &one(&rt, alloc, b"[]", braces)?, b"[]({})")?;
    let pair = two(&rt, alloc, b"-", Term::Int(1), Term::Int(-1))?;
    expect_text(&rt, alloc, &pair, b"-(1,-1)")?;
    let nested = two(&rt, alloc, b",", pair, Term::Int(2))?;
    expect_text(&rt, alloc, &nested, b"','(-(1,-1),2)")?;
    let end = atom(&rt, alloc, b"[]")?;
    let wide = three(&rt, alloc, b".", nested, end, Term::Int(3))?;
    expect_text(&rt, alloc, &wide, b"'.'(','(-(1,-1),2),[],3)")?;
    Ok(())
}

#[test]
fn lists_stand_in_brackets(rt: HostRuntime) -> Result<(), Fail> {
    let alloc = rt.alloc();
    let end = atom(&rt, alloc, b"[]")?;
    let closed = two(&rt, alloc, b".", Term::Int(1), end)?;
    expect_text(&rt, alloc, &closed, b"[1]")?;
    let longer = two(&rt, alloc, b".", closed, Term::Int(-7))?;
    expect_text(&rt, alloc, &longer, b"[[1]|-7]")?;
    let end = one(&rt, alloc, b".", Term::Var(4))?;
    let other = two(&rt, alloc, b".", longer, end)?;
    expect_text(&rt, alloc, &other, b"[[[1]|-7]|'.'(_1)]")?;
    let name = atom(&rt, alloc, b"[")?;
    let open = two(&rt, alloc, b".", Term::Int(2), name)?;
    let two_elements = two(&rt, alloc, b".", Term::Int(1), open)?;
    expect_text(&rt, alloc, &two_elements, b"[1,2|'[']")?;
    Ok(())
}

#[test]
fn variables_are_numbered_by_first_place(rt: HostRuntime) -> Result<(), Fail> {
    let alloc = rt.alloc();
    let tail = two(&rt, alloc, b".", Term::Var(3), Term::Var(7))?;
    let list = two(&rt, alloc, b".", Term::Var(7), tail)?;
    expect_text(&rt, alloc, &list, b"[_1,_2|_1]")?;
    let term = three(&rt, alloc, b"f", Term::Var(9), list, Term::Var(3))?;
    expect_text(&rt, alloc, &term, b"f(_1,[_2,_3|_2],_3)")?;
    Ok(())
}

/// A binding of a name.
fn bound(rt: &impl Abort, alloc: Global, name: &[u8], t: Term) -> Result<(Name, Term), AllocError> {
    Ok((named(rt, alloc, name)?, t))
}

#[test]
fn a_sessions_lines_stand_one_after_another(rt: HostRuntime) -> Result<(), Fail> {
    let alloc = rt.alloc();
    let mut lines = Lines::new(alloc);
    assert!(rt; lines.bytes().is_empty());
    lines.goal(1)?;
    let pair = two(&rt, alloc, b"f", Term::Var(8), Term::Var(5))?;
    let list = two(&rt, alloc, b".", Term::Var(5), Term::Var(8))?;
    let bindings = vec![in alloc;
        bound(&rt, alloc, b"X", pair)?,
        bound(&rt, alloc, b"Long_1", list)?,
    ]?;
    lines.answer(bindings.as_slice())?;
    lines.answer(&[])?;
    lines.count(2)?;
    lines.goal(4294967295)?;
    let raised = one(&rt, alloc, b"resource_error", Term::Var(8))?;
    lines.error(&raised)?;
    write_term(&raised, &mut lines)?;
    lines.count(0)?;
    let want =
        b"goal 1\n  X = f(_1,_2), Long_1 = [_2|_1]\n  true\n  2 answers\ngoal 4294967295\n  error resource_error(_1)\nresource_error(_1)  0 answers\n";
    assert_eq!(rt; lines.bytes(), want.as_slice());
    assert_eq!(rt; lines.copy_of()?.bytes(), want.as_slice());
    Ok(())
}

/// Fills answer bytes up to 16 below the limit.
fn fill(rt: &impl Abort, alloc: Global, lines: &mut Lines) -> Result<(), Fail> {
    let long = atom(rt, alloc, &[b'a'; 255])?;
    for _ in 0..4112 {
        write_term(&long, lines)?;
    }
    Ok(())
}

#[test]
fn answers_fit_up_to_the_limit(rt: HostRuntime) -> Result<(), Fail> {
    let alloc = rt.alloc();
    let mut lines = Lines::new(alloc);
    fill(&rt, alloc, &mut lines)?;
    lines.goal(1)?;
    let full = lines.bytes().len();
    assert_eq!(rt; full, MAX_ANSWER_BYTES - 16 + 7);
    let ten = atom(&rt, alloc, &[b'a'; 10])?;
    let over = vec![in alloc; bound(&rt, alloc, b"X", ten)?]?;
    assert_eq!(rt; lines.answer(over.as_slice()), Err(LineStop::Full));
    assert_eq!(rt; lines.bytes().len(), full);
    let nine = atom(&rt, alloc, &[b'a'; 9])?;
    let fits = vec![in alloc; bound(&rt, alloc, b"X", nine)?]?;
    lines.answer(fits.as_slice())?;
    assert_eq!(rt; lines.bytes().len(), full + 16);
    assert_eq!(rt; write_term(&Term::Int(0), &mut lines), Err(LineStop::Full));
    assert_eq!(rt; lines.answer(&[]), Err(LineStop::Full));
    assert_eq!(rt; lines.bytes().len(), full + 16);
    lines.count(1)?;
    assert_eq!(rt; lines.bytes().len(), full + 28);
    assert!(rt; lines.bytes().ends_with(b"  X = aaaaaaaaa\n  1 answers\n"));
    Ok(())
}

#[test]
fn a_term_of_the_most_nodes_is_written(rt: HostRuntime) -> Result<(), Fail> {
    let alloc = rt.alloc();
    let mut nested = Term::Int(0);
    let mut list = atom(&rt, alloc, b"[]")?;
    for _ in 0..4095 {
        nested = one(&rt, alloc, b"s", nested)?;
    }
    for _ in 0..2047 {
        list = two(&rt, alloc, b".", Term::Int(0), list)?;
    }
    assert_eq!(rt; term_text(alloc, &nested)?.len(), 3 * 4095 + 1);
    assert_eq!(rt; term_text(alloc, &list)?.len(), 2 * 2047 + 1);
    Ok(())
}

#[test]
fn many_variables_keep_their_numbers(rt: HostRuntime) -> Result<(), Fail> {
    let alloc = rt.alloc();
    let mut bindings = Vec::new(alloc);
    bindings.push(bound(&rt, alloc, b"X", Term::Var(7000))?)?;
    let mut want = String::from_str(alloc, "  X = _1")?;
    for i in 1u32..2000 {
        let place = i % 1000;
        bindings.push(bound(&rt, alloc, b"X", Term::Var(7000 - 7 * place))?)?;
        let number = place + 1;
        let binding = format!(in alloc; ", X = _{number}")?;
        want.push_str(binding.as_str())?;
    }
    want.push_str("\n")?;
    let mut lines = Lines::new(alloc);
    lines.answer(bindings.as_slice())?;
    assert_eq!(rt; lines.bytes(), want.as_bytes());
    Ok(())
}

fn shared<T: Send + Sync>(_value: &T) {}

#[test]
fn lines_may_be_moved_and_shared_between_threads(rt: HostRuntime) {
    shared(&Lines::new(rt.alloc()));
    shared(&LineStop::Full);
}
