//! Rules of texts: what they come to, and their first faults.
use ml_reader::{Items, ReadFault, ReadKind, ReadStop, Rules, read_rules};
use std::alloc::Global;
use std::process::Abort;
use std::test::Fail;

/// How many declarations, clauses of the program and items rules have.
fn counts(rules: &Rules) -> (usize, usize, usize) {
    (
        rules.program.decls.len(),
        rules.program.clauses.as_slice().len(),
        rules.items.as_slice().len(),
    )
}

/// What a text comes to as rules: the counts, or the first fault.
type RulesRow = Result<(usize, usize, usize), ReadStop>;

fn rules_row(rt: &impl Abort, alloc: Global, text: &[u8]) -> RulesRow {
    assert!(rt; text.len() < 4294967296);
    let rules = read_rules(alloc, text)?;
    Ok(counts(&rules))
}

fn fault(kind: ReadKind, place: usize) -> ReadStop {
    ReadStop::Fault(ReadFault { place, kind })
}

fn check_rules(rt: &impl Abort, alloc: Global, text: &[u8], want: RulesRow) {
    assert!(rt; rules_row(rt, alloc, text) == want, "{text:?}");
}

#[test]
fn rules_are_declarations_clauses_and_items(rt: HostRuntime) -> Result<(), Fail> {
    let alloc = rt.alloc();
    let table: [(&[u8], (usize, usize, usize)); 11] = [
        (b"", (0, 0, 0)),
        (b":- relation(p/1). p(2). p(1).", (1, 0, 2)),
        (b"p(1). :- relation(p/1).", (1, 0, 1)),
        (b":- relation(p/1). p(1). p(1,2). q.", (1, 2, 1)),
        (b":- clauses(c/1). c(X) :- d(X). c(1). d(2).", (1, 1, 2)),
        (b":- relation(q/2,[2,1]). q(1,0).", (1, 0, 1)),
        (b":- relation(p/9). :- clauses(p/8). p(1).", (2, 1, 0)),
        (b"(?- a) :- b. (a :- b) :- c.", (0, 2, 0)),
        (b"a :- X, (b -> c ; d).", (0, 1, 0)),
        (b":- clauses((:-)/2).", (1, 0, 0)),
        (b":- relation(catch/2). call(1,2).", (1, 1, 0)),
    ];
    for (text, want) in table {
        check_rules(&rt, alloc, text, Ok(want));
    }
    Ok(())
}

#[test]
fn declarations_that_declare_nothing_are_bad(rt: HostRuntime) -> Result<(), Fail> {
    let alloc = rt.alloc();
    let table: [&[u8]; 20] = [
        b":- denial(p).",
        b":- p.",
        b":- relation(p).",
        b":- relation(p/0).",
        b":- relation(p/256).",
        b":- relation(p/X).",
        b":- relation(X/1).",
        b":- relation(p(1)/1).",
        b":- relation(call/1).",
        b":- relation(catch/3).",
        b":- clauses(throw/1).",
        b":- relation(q/2,[1,1]).",
        b":- relation(q/2,[]).",
        b":- relation(q/2,[0]).",
        b":- relation(q/2,[3]).",
        b":- relation(q/2,[1|X]).",
        b":- relation(q/2,1).",
        b":- relation(q/2,[1],[2]).",
        b":- relation(q/9,[1,2,3,4,5,6,7,8,9]).",
        b":- facts(q/2).",
    ];
    for text in table {
        check_rules(&rt, alloc, text, Err(fault(ReadKind::BadDeclaration, 0)));
    }
    Ok(())
}

#[test]
fn clauses_that_can_not_stand_are_bad(rt: HostRuntime) -> Result<(), Fail> {
    let alloc = rt.alloc();
    let table: [&[u8]; 11] = [
        b"?- p.",
        b"X.",
        b"1.",
        b"X :- a.",
        b"-1 :- a.",
        b"call(X) :- a.",
        b"throw(a).",
        b"a = b.",
        b"true.",
        b"a :- 1.",
        b"a :- b, (c ; 1).",
    ];
    for text in table {
        check_rules(&rt, alloc, text, Err(fault(ReadKind::BadClause, 0)));
    }
    Ok(())
}

#[test]
fn the_first_fault_of_rules_is_told(rt: HostRuntime) -> Result<(), Fail> {
    let alloc = rt.alloc();
    let table: [(&[u8], ReadKind, usize); 9] = [
        (
            b":- relation(p/1). :- relation(p/1).",
            ReadKind::TwiceDeclared,
            18,
        ),
        (
            b":- relation(p/1). :- clauses(p/1).",
            ReadKind::TwiceDeclared,
            18,
        ),
        (b":- relation(p/1). p(X).", ReadKind::BadClause, 18),
        (b":- relation(p/1). p(1) :- true.", ReadKind::BadClause, 18),
        (
            b"p(X). :- relation(p/1). :- p.",
            ReadKind::BadDeclaration,
            24,
        ),
        (
            b":- p. :- relation(p/1). :- relation(p/1).",
            ReadKind::BadDeclaration,
            0,
        ),
        (b":- p. a = b = c.", ReadKind::PriorityClash, 12),
        (b":- relation(is/2).", ReadKind::Unexpected, 14),
        (b"p. X. ?- p.", ReadKind::BadClause, 3),
    ];
    for (text, kind, place) in table {
        check_rules(&rt, alloc, text, Err(fault(kind, place)));
    }
    Ok(())
}

/// `:- relation(p/16). p(A, .., A).`, with so many atoms of 255 bytes, and the others of one.
fn long_item(alloc: Global, long: usize) -> Result<Vec<u8>, Fail> {
    let mut text = Vec::from_slice(alloc, b":- relation(p/16). p(")?;
    for i in 0..16 {
        if i > 0 {
            text.push(b',')?;
        }
        let bytes = if i < long { 255 } else { 1 };
        for _ in 0..bytes {
            text.push(b'a')?;
        }
    }
    text.push(b')')?;
    text.push(b'.')?;
    Ok(text)
}

#[test]
fn items_have_at_most_4096_canonical_bytes(rt: HostRuntime) -> Result<(), Fail> {
    let alloc = rt.alloc();
    check_rules(&rt, alloc, long_item(alloc, 15)?.as_slice(), Ok((1, 0, 1)));
    let too_large = Err(fault(ReadKind::ItemTooLarge, 19));
    check_rules(&rt, alloc, long_item(alloc, 16)?.as_slice(), too_large);
    Ok(())
}

#[test]
fn items_stand_in_the_order_of_the_text(rt: HostRuntime) -> Result<(), Fail> {
    let alloc = rt.alloc();
    let rules = read_rules(
        alloc,
        b":- relation(p/1). :- clauses(c/1). c(1). p(2). c(3).",
    )?;
    let items = Items::from_vec(rules.items.copy_of(alloc)?.into_vec());
    let wanted = [1, 0, 1];
    assert_eq!(rt; items.as_slice().len(), wanted.len());
    for ((place, term), want) in items.as_slice().iter().zip(wanted) {
        assert_eq!(rt; *place, want);
        assert_eq!(rt; term.arity(), if want == 0 { 1 } else { 2 });
    }
    Ok(())
}
