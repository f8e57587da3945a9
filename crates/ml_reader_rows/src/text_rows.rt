//! Texts through their bytes: what is read, and where the others go wrong first.
use ml_reader::{ReadKind, ReadStop, read_clauses};
use ml_term::nodes_up_to;
use std::alloc::{AllocError, Global};
use std::process::Abort;
use std::test::Fail;

/// What a text comes to: so many clauses, the last one of so many nodes, or its first fault.
#[derive(Clone, Copy, Debug, PartialEq, Eq)]
enum Told {
    Clauses(usize, usize),
    Fault(ReadKind, usize),
    Huge,
}

fn tell(alloc: Global, bytes: &[u8]) -> Result<Told, AllocError> {
    if bytes.len() > 1000000 {
        return Ok(Told::Huge);
    }
    match read_clauses(alloc, bytes) {
        Ok(clauses) => {
            let nodes = match clauses.as_slice().split_last() {
                Some((read, _)) => nodes_up_to(&read.term, 5000),
                None => 0,
            };
            Ok(Told::Clauses(clauses.len(), nodes))
        }
        Err(ReadStop::Fault(fault)) => Ok(Told::Fault(fault.kind, fault.place)),
        Err(ReadStop::OutOfMemory) => Err(AllocError),
    }
}

#[test]
fn texts_are_read_or_refused_at_their_first_fault(rt: HostRuntime) -> Result<(), Fail> {
    let alloc = rt.alloc();
    let table: [(&[u8], Told); 40] = [
        (b"", Told::Clauses(0, 0)),
        (b" \n% c", Told::Clauses(0, 0)),
        (b"a. b(c). c.", Told::Clauses(3, 1)),
        (b"/* \xff\x00 */a%", Told::Fault(ReadKind::Unexpected, 10)),
        (b"a/* \xff */.", Told::Clauses(1, 1)),
        (b"a. /* b", Told::Fault(ReadKind::OpenComment, 3)),
        (b"a\x00.", Told::Fault(ReadKind::BadCharacter, 1)),
        (b"'a\x01'.", Told::Fault(ReadKind::BadCharacter, 2)),
        (b"a 'b\n'.", Told::Fault(ReadKind::OpenQuote, 2)),
        (b"'a\\", Told::Fault(ReadKind::OpenQuote, 0)),
        (b"'a\\q'.", Told::Fault(ReadKind::BadEscape, 2)),
        (b"p(\"x\").", Told::Fault(ReadKind::LeftOutQuote, 2)),
        (
            b"p(2305843009213693953).",
            Told::Fault(ReadKind::NumberTooLarge, 2),
        ),
        (
            b"2305843009213693952.",
            Told::Fault(ReadKind::NumberTooLarge, 0),
        ),
        (b"-2305843009213693952.", Told::Clauses(1, 1)),
        (
            b"- 2305843009213693952.",
            Told::Fault(ReadKind::NumberTooLarge, 2),
        ),
        (
            b"a -2305843009213693952.",
            Told::Fault(ReadKind::NumberTooLarge, 3),
        ),
        (
            b"'-'2305843009213693952.",
            Told::Fault(ReadKind::NumberTooLarge, 3),
        ),
        (
            b"1 2305843009213693952.",
            Told::Fault(ReadKind::NumberTooLarge, 2),
        ),
        (b"- 1.", Told::Clauses(1, 2)),
        (b"a -1.", Told::Clauses(1, 3)),
        (b"- -1.", Told::Clauses(1, 2)),
        (b"a-a-a.", Told::Clauses(1, 5)),
        (b"a = b = c.", Told::Fault(ReadKind::PriorityClash, 6)),
        (b"p(:- a)", Told::Fault(ReadKind::PriorityClash, 5)),
        (b"a = :- = b", Told::Fault(ReadKind::PriorityClash, 7)),
        (b"a = \\+ b", Told::Fault(ReadKind::PriorityClash, 7)),
        (b":- :- a.", Told::Fault(ReadKind::PriorityClash, 6)),
        (b"f(a ',' b).", Told::Fault(ReadKind::PriorityClash, 4)),
        (b"= b", Told::Fault(ReadKind::Unexpected, 2)),
        (b"- = X.", Told::Fault(ReadKind::Unexpected, 4)),
        (b"[a|b,c]", Told::Fault(ReadKind::Unexpected, 4)),
        (b"p(1", Told::Fault(ReadKind::Unexpected, 3)),
        (b"p(1)", Told::Fault(ReadKind::Unexpected, 4)),
        (b":- relation(is/2).", Told::Fault(ReadKind::Unexpected, 14)),
        (b"a =(b).", Told::Clauses(1, 3)),
        (b"{ }(a, [ ](b), [c|d], {e,f}).", Told::Clauses(1, 11)),
        (b"[] (a).", Told::Fault(ReadKind::Unexpected, 3)),
        (b"f (a).", Told::Fault(ReadKind::Unexpected, 2)),
        (b"a;b->c,d:-e.", Told::Clauses(1, 9)),
    ];
    for (text, want) in table {
        assert_eq!(rt; tell(alloc, text)?, want, "{text:?}");
    }
    Ok(())
}

/// What a text of one byte comes to.
fn told_of_byte(b: u8) -> Told {
    match b {
        b'\t' | b'\n' | 12 | b'\r' | b' ' | b'%' => Told::Clauses(0, 0),
        b')' | b']' | b'}' | b',' | b'|' | b'.' => Told::Fault(ReadKind::Unexpected, 0),
        b'\'' => Told::Fault(ReadKind::OpenQuote, 0),
        b'"' | b'`' => Told::Fault(ReadKind::LeftOutQuote, 0),
        b'!'..=b'~' => Told::Fault(ReadKind::Unexpected, 1),
        _ => Told::Fault(ReadKind::BadCharacter, 0),
    }
}

#[test]
fn each_text_of_one_byte_is_told(rt: HostRuntime) -> Result<(), Fail> {
    let alloc = rt.alloc();
    for b in 0..=255u8 {
        assert_eq!(rt; tell(alloc, &[b])?, told_of_byte(b), "{b}");
    }
    Ok(())
}

/// A text with a piece so many times in its middle.
fn repeated(
    alloc: Global,
    before: &[u8],
    piece: &[u8],
    times: usize,
    after: &[u8],
) -> Result<Vec<u8>, AllocError> {
    let mut text = Vec::from_slice(alloc, before)?;
    for _ in 0..times {
        text.extend_from_slice(piece)?;
    }
    text.extend_from_slice(after)?;
    Ok(text)
}

/// What such a text comes to.
fn tell_repeated(
    alloc: Global,
    before: &[u8],
    piece: &[u8],
    times: usize,
    after: &[u8],
) -> Result<Told, AllocError> {
    let text = repeated(alloc, before, piece, times, after)?;
    tell(alloc, text.as_slice())
}

#[test]
fn limits_are_kept_exactly(rt: HostRuntime) -> Result<(), Fail> {
    let alloc = rt.alloc();
    let table: [(&[u8], &[u8], usize, &[u8], Told); 19] = [
        // 1,000 levels and one more, by brackets and by operators
        (b"", b"- ", 1000, b"a.", Told::Clauses(1, 1001)),
        (
            b"",
            b"- ",
            1001,
            b"a.",
            Told::Fault(ReadKind::TooDeep, 2000),
        ),
        (
            b"",
            b"- ",
            1001,
            b"\"",
            Told::Fault(ReadKind::TooDeep, 2000),
        ),
        (b"", b"- ", 1001, b"", Told::Fault(ReadKind::TooDeep, 2000)),
        (
            b"",
            b"(",
            1000,
            b"-)",
            Told::Fault(ReadKind::Unexpected, 1002),
        ),
        (b"", b"a,", 1000, b"a.", Told::Clauses(1, 2001)),
        (
            b"",
            b"a,",
            1001,
            b"a.",
            Told::Fault(ReadKind::TooDeep, 2001),
        ),
        (b"", b"(", 1001, b"a", Told::Fault(ReadKind::TooDeep, 1000)),
        (b"", b"(", 1000, b"[]", Told::Fault(ReadKind::TooDeep, 1000)),
        (
            b"f(:- ",
            b"(",
            1000,
            b"a",
            Told::Fault(ReadKind::PriorityClash, 5),
        ),
        // 255 arguments and one more
        (b"f(", b"a,", 254, b"a).", Told::Clauses(1, 256)),
        (
            b"f(",
            b"a,",
            255,
            b"a).",
            Told::Fault(ReadKind::ArityTooLarge, 511),
        ),
        // 16,384 tokens and one more
        (
            b"[a",
            b",(((((((((a)))))))))",
            819,
            b"].",
            Told::Clauses(1, 1641),
        ),
        (
            b"-[a",
            b",(((((((((a)))))))))",
            819,
            b"].",
            Told::Fault(ReadKind::ClauseTooLong, 16384),
        ),
        (
            b"a. [a",
            b",(((((((((a)))))))))",
            819,
            b"",
            Told::Fault(ReadKind::Unexpected, 16385),
        ),
        // 4,096 nodes and more
        (b" big([0", b",0", 2046, b"]).", Told::Clauses(1, 4096)),
        (
            b" big([0",
            b",0",
            2047,
            b"]).",
            Told::Fault(ReadKind::TooManyNodes, 1),
        ),
        (
            b" big([0",
            b",0",
            2047,
            b"]) b",
            Told::Fault(ReadKind::Unexpected, 4104),
        ),
        // names of 255 bytes and one more
        (
            b"b ",
            b"a",
            256,
            b".",
            Told::Fault(ReadKind::NameTooLong, 2),
        ),
    ];
    for (before, piece, times, after, want) in table {
        assert_eq!(rt;
            tell_repeated(alloc, before, piece, times, after)?,
            want,
            "{before:?}"
        );
    }
    // token 16,385 as a name that opens level 1,001, if what follows makes a prefix operator of it
    let deep = repeated(alloc, b"", b"(", 999, b"[")?;
    let endings: [(&[u8], Told); 4] = [
        (b"- b", Told::Fault(ReadKind::TooDeep, 16384)),
        (b"-", Told::Fault(ReadKind::TooDeep, 16384)),
        (b"-)", Told::Fault(ReadKind::ClauseTooLong, 16384)),
        (b"-(", Told::Fault(ReadKind::ClauseTooLong, 16384)),
    ];
    for (after, want) in endings {
        assert_eq!(rt;
            tell_repeated(alloc, deep.as_slice(), b"a,", 7692, after)?,
            want,
            "{after:?}"
        );
    }
    Ok(())
}

/// A bracket, and a prefix or infix operator, opens its level also where it is refused; with one
/// level fewer the other fault is told.
#[test]
fn refused_tokens_open_their_levels(rt: HostRuntime) -> Result<(), Fail> {
    let alloc = rt.alloc();
    let table: [(usize, &[u8], Told); 16] = [
        (1000, b"a (", Told::Fault(ReadKind::TooDeep, 1002)),
        (999, b"a (", Told::Fault(ReadKind::Unexpected, 1001)),
        (1000, b"a [", Told::Fault(ReadKind::TooDeep, 1002)),
        (999, b"a [", Told::Fault(ReadKind::Unexpected, 1001)),
        (999, b":- :- a", Told::Fault(ReadKind::TooDeep, 1002)),
        (998, b":- :- a", Told::Fault(ReadKind::PriorityClash, 1004)),
        (999, b":- :-", Told::Fault(ReadKind::TooDeep, 1002)),
        (998, b":- :-", Told::Fault(ReadKind::Unexpected, 1003)),
        (999, b"f(a :- ", Told::Fault(ReadKind::TooDeep, 1003)),
        (998, b"f(a :- ", Told::Fault(ReadKind::PriorityClash, 1002)),
        (999, b"f(:- a", Told::Fault(ReadKind::TooDeep, 1001)),
        (998, b"f(:- a", Told::Fault(ReadKind::PriorityClash, 1003)),
        (999, b"f(:- 'x\\q'", Told::Fault(ReadKind::TooDeep, 1001)),
        (998, b"f(:- 'x\\q'", Told::Fault(ReadKind::BadEscape, 1005)),
        (1000, b"= (", Told::Fault(ReadKind::TooDeep, 1002)),
        (999, b"= (", Told::Fault(ReadKind::Unexpected, 1001)),
    ];
    for (times, after, want) in table {
        assert_eq!(rt;
            tell_repeated(alloc, b"", b"(", times, after)?,
            want,
            "{times} and {after:?}"
        );
    }
    Ok(())
}

#[test]
fn clauses_tell_their_names_and_places(rt: HostRuntime) -> Result<(), Fail> {
    let alloc = rt.alloc();
    let clauses = match read_clauses(alloc, b" a. p(X,_,Y1,X,_,Y1,Z).") {
        Ok(clauses) => clauses,
        Err(_) => return Err(Fail::from(AllocError)),
    };
    assert_eq!(rt; clauses.len(), 2);
    let mut said = Vec::new(alloc);
    for read in clauses.as_slice() {
        said.push(read.place)?;
        for (name, variable) in read.names.as_slice() {
            said.push(name.as_slice().len())?;
            said.push(*variable as usize)?;
        }
    }
    let want: [usize; 8] = [1, 4, 1, 0, 2, 2, 1, 4];
    assert_eq!(rt; said.as_slice(), want.as_slice());
    Ok(())
}
