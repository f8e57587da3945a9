//! Which refusal is told, and by which line.
use crate::tests::{RULES, WORDS, shelf_of};
use crate::{Status, line_of, serial};
use ml_outside::{MemSink, Shelf};
use ml_reader::{ReadFault, ReadKind};
use std::alloc::Global;
use std::test::Fail;

// Rules, and what the line tells of their first fault.
const FAULTS: [(&[u8], &[u8]); 10] = [
    (b"a = b = c.", b"PriorityClash at 6"),
    (b"p(1", b"Unexpected at 3"),
    (b"p(1)", b"Unexpected at 4"),
    (
        b":- relation(p/1). :- relation(p/1).",
        b"TwiceDeclared at 18",
    ),
    (b"p(\"x\").", b"LeftOutQuote at 2"),
    (b":- relation(p/1). p(X).", b"BadClause at 18"),
    (b":- relation(p/1). p(9).p(9).", b"Unexpected at 22"),
    (b":- relation(p/1). p (9).", b"Unexpected at 20"),
    (b":- relation(atom/1).", b"BadDeclaration at 0"),
    (
        b":- relation(p/1). p(2305843009213693952).",
        b"NumberTooLarge at 20",
    ),
];

// `megalog: ` and a text, as a line.
fn line_with(alloc: Global, of: &[u8], text: &[u8]) -> Result<Vec<u8>, Fail> {
    let mut line = Vec::new(alloc);
    line.extend_from_slice(b"megalog: ")?;
    line.extend_from_slice(of)?;
    line.extend_from_slice(text)?;
    line.push(b'\n')?;
    Ok(line)
}

#[test]
fn rules_are_refused_at_their_first_fault(rt: HostRuntime) -> Result<(), Fail> {
    let alloc = rt.alloc();
    for (rules, text) in FAULTS {
        let mut shelf = shelf_of(alloc, rules, b"")?;
        let mut out = MemSink::new(alloc);
        let status = serial(alloc, &WORDS, &mut shelf, &mut out);
        assert_eq!(rt; status.number(), 6);
        assert!(rt; out.bytes().is_empty());
        let told = line_of(alloc, &status, &WORDS)?;
        let line = line_with(alloc, b"rules ", text)?;
        assert_eq!(rt; told.as_slice(), line.as_slice());
    }
    Ok(())
}

// Rules, a script with a fault, the number of the status, and what its line tells.
const OTHERS: [(&[u8], &[u8], u8, &[u8]); 2] = [
    (RULES, b"p(1).", 7, b"script 1 BadScriptItem at 0"),
    (RULES, b"?- p(X). ?- p(", 7, b"script 1 Unexpected at 14"),
];

#[test]
fn a_script_with_a_fault_is_told(rt: HostRuntime) -> Result<(), Fail> {
    let alloc = rt.alloc();
    for (rules, script, number, text) in OTHERS {
        let mut shelf = shelf_of(alloc, rules, script)?;
        let mut out = MemSink::new(alloc);
        let status = serial(alloc, &WORDS, &mut shelf, &mut out);
        assert_eq!(rt; status.number(), number);
        assert!(rt; out.bytes().is_empty());
        let told = line_of(alloc, &status, &WORDS)?;
        let line = line_with(alloc, b"", text)?;
        assert_eq!(rt; told.as_slice(), line.as_slice());
    }
    Ok(())
}

// Words, the number of the status, and its line, where `rules.pl` and `s1` are held and nothing
// else.
const REFUSED: [(&[&str], u8, &[u8]); 9] = [
    (&[], 2, b"megalog: bad words\n"),
    (&["serial"], 2, b"megalog: bad words\n"),
    (&["run", "rules.pl", "s1"], 2, b"megalog: bad words\n"),
    (
        &["serial", "rules.pl", "s1", "-s"],
        2,
        b"megalog: bad words\n",
    ),
    (&["serial", "none", "gone"], 3, b"megalog: no file none\n"),
    (
        &["serial", "rules.pl", "s1", "gone"],
        3,
        b"megalog: no file gone\n",
    ),
    (
        &["serial", "s1", "gone"],
        6,
        b"megalog: rules BadClause at 0\n",
    ),
    (
        &["serial", "rules.pl", "s1", "rules.pl", "gone"],
        7,
        b"megalog: script 2 BadScriptItem at 0\n",
    ),
    (&["serial", "rules.pl"], 0, b""),
];

#[test]
fn each_refusal_has_its_line(rt: HostRuntime) -> Result<(), Fail> {
    let alloc = rt.alloc();
    for (words, number, line) in REFUSED {
        let mut shelf = shelf_of(alloc, RULES, b"?- p(X).")?;
        let mut out = MemSink::new(alloc);
        let status = serial(alloc, words, &mut shelf, &mut out);
        assert_eq!(rt; status.number(), number);
        assert!(rt; out.bytes().is_empty());
        let told = line_of(alloc, &status, words)?;
        assert_eq!(rt; told.as_slice(), line);
    }
    Ok(())
}

#[test]
fn a_text_of_the_limit_is_read_and_one_byte_more_is_too_long(rt: HostRuntime) -> Result<(), Fail> {
    let alloc = rt.alloc();
    let words: [&str; 2] = ["serial", "rules.pl"];
    let mut rules = vec![in alloc; b'%'; 1048576]?;
    let mut shelf = shelf_of(alloc, &rules, b"")?;
    let mut out = MemSink::new(alloc);
    assert_eq!(rt; serial(alloc, &words, &mut shelf, &mut out), Status::Done);
    rules.push(b'%')?;
    shelf.put(alloc, "rules.pl", &rules)?;
    let status = serial(alloc, &words, &mut shelf, &mut out);
    assert_eq!(rt; status, Status::TooLong(1));
    assert_eq!(rt; status.number(), 4);
    assert!(rt; out.bytes().is_empty());
    let line = line_of(alloc, &status, &words)?;
    assert_eq!(rt; line.as_slice(), b"megalog: too long rules.pl\n".as_slice());
    Ok(())
}

// Rules of one tuple of so many atoms of 255 bytes.
fn rules_of_atoms(alloc: Global, atoms: usize) -> Result<Vec<u8>, Fail> {
    let atom = vec![in alloc; b'a'; 255]?;
    let mut rules = Vec::new(alloc);
    let declared = format!(in alloc; ":- relation(t/{atoms}). t(")?;
    rules.extend_from_slice(declared.as_bytes())?;
    for i in 0..atoms {
        if i > 0 {
            rules.push(b',')?;
        }
        rules.extend_from_slice(&atom)?;
    }
    rules.extend_from_slice(b").")?;
    Ok(rules)
}

#[test]
fn an_item_of_too_many_bytes_is_a_fault_at_its_first_token(rt: HostRuntime) -> Result<(), Fail> {
    let alloc = rt.alloc();
    let mut shelf = shelf_of(alloc, &rules_of_atoms(alloc, 15)?, b"")?;
    let mut out = MemSink::new(alloc);
    assert_eq!(rt; serial(alloc, &WORDS, &mut shelf, &mut out), Status::Done);
    shelf.put(alloc, "rules.pl", &rules_of_atoms(alloc, 16)?)?;
    let wanted = ReadFault {
        place: 19,
        kind: ReadKind::ItemTooLarge,
    };
    assert_eq!(rt;
        serial(alloc, &WORDS, &mut shelf, &mut out),
        Status::RulesRefused(wanted)
    );
    assert_eq!(rt; out.bytes(), b"session 1 committed\n".as_slice());
    Ok(())
}

// Rules of one fact with a list of so many zeros.
fn rules_of_zeros(alloc: Global, zeros: usize) -> Result<Vec<u8>, Fail> {
    let mut rules = Vec::new(alloc);
    rules.extend_from_slice(b"big([0")?;
    for _ in 1..zeros {
        rules.extend_from_slice(b",0")?;
    }
    rules.extend_from_slice(b"]).")?;
    Ok(rules)
}

#[test]
fn a_fact_of_4096_nodes_is_read_and_one_of_more_is_not(rt: HostRuntime) -> Result<(), Fail> {
    let alloc = rt.alloc();
    let mut shelf = shelf_of(alloc, &rules_of_zeros(alloc, 2047)?, b"")?;
    let mut out = MemSink::new(alloc);
    assert_eq!(rt; serial(alloc, &WORDS, &mut shelf, &mut out), Status::Done);
    shelf.put(alloc, "rules.pl", &rules_of_zeros(alloc, 2048)?)?;
    let wanted = ReadFault {
        place: 0,
        kind: ReadKind::TooManyNodes,
    };
    assert_eq!(rt;
        serial(alloc, &WORDS, &mut shelf, &mut out),
        Status::RulesRefused(wanted)
    );
    assert_eq!(rt; out.bytes(), b"session 1 committed\n".as_slice());
    Ok(())
}
