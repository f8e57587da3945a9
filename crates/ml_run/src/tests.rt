//! What no clause says: worked runs, and that none ends for want of memory while there is plenty.
ghost use Rattle.std.specs.Prelude.{None};

use crate::{Status, line_of, serial};
use ml_outside::{FetchStop, MemShelf, MemSink, PutStop, Shelf, Sink, WriteStop};
use std::alloc::Global;
use std::test::Fail;

pub const WORDS: [&str; 3] = ["serial", "rules.pl", "s1"];

pub const RULES: &[u8] = b":- relation(p/1). p(2). p(1).";

const PRINTED: &[u8] = b"session 1 committed\ngoal 1\n  X = 1\n  X = 2\n  2 answers\n";

// A shelf with these rules and this script.
pub fn shelf_of(alloc: Global, rules: &[u8], script: &[u8]) -> Result<MemShelf, PutStop> {
    let mut shelf = MemShelf::new(alloc);
    shelf.put(alloc, "rules.pl", rules)?;
    shelf.put(alloc, "s1", script)?;
    Ok(shelf)
}

// Rules, a script, and what is printed for them.
const RUNS: [(&[u8], &[u8], &[u8]); 18] = [
    (RULES, b"?- p(X).", PRINTED),
    (
        b":- relation(p/1). p(10). p(9). p(10). p(2305843009213693951).",
        b"?-p( Y )\t.",
        b"session 1 committed\ngoal 1\n  Y = 9\n  Y = 10\n  Y = 2305843009213693951\n  3 answers\n",
    ),
    (
        RULES,
        b"?- p(_X).",
        b"session 1 committed\ngoal 1\n  true\n  true\n  2 answers\n",
    ),
    (
        RULES,
        b"?- p(2).",
        b"session 1 committed\ngoal 1\n  true\n  1 answers\n",
    ),
    (
        b":- relation(p/1).",
        b"?- p(_).",
        b"session 1 committed\ngoal 1\n  0 answers\n",
    ),
    (
        b":- relation(q/2). q(0,2). q(1,0).",
        b"?- q(X,Y).",
        b"session 1 committed\ngoal 1\n  X = 1, Y = 0\n  X = 0, Y = 2\n  2 answers\n",
    ),
    (
        b":- relation(d/2). d(department_a,1). d(department_b,2).",
        b"?- d(department_b,N).",
        b"session 1 committed\ngoal 1\n  N = 2\n  1 answers\n",
    ),
    (
        b":- relation(e/2). e(a,b). e(c,c).",
        b"?- e(X,X).",
        b"session 1 committed\ngoal 1\n  X = c\n  1 answers\n",
    ),
    (
        b":- relation(t/3). t(f(a,[1,2]),'B c',-7). t(mod,x,y).",
        b"?- t(f(A,[H|T]),N,_). ?- t(mod,_,_).",
        b"session 1 committed\ngoal 1\n  A = a, H = 1, T = [2], N = 'B c'\n  1 answers\n\
goal 2\n  true\n  1 answers\n",
    ),
    (RULES, b":- budget(3). ?- p(X).", PRINTED),
    (
        RULES,
        b":- budget(2). ?- p(X).",
        b"session 1 failed at goal 1\ngoal 1\n  X = 1\n  error resource_error(inferences)\n",
    ),
    (
        RULES,
        b":- budget(4). ?- p(X). ?- p(Y).",
        b"session 1 failed at goal 2\ngoal 1\n  X = 1\n  X = 2\n  2 answers\n\
goal 2\n  error resource_error(inferences)\n",
    ),
    (RULES, b"", b"session 1 committed\n"),
    (
        b":- relation(a/1). :- relation(b/2, [2]). b(x,2). a(z). b(y,1).",
        b"?- a(_). ?- b(X,N).",
        b"session 1 committed\ngoal 1\n  true\n  1 answers\n\
goal 2\n  X = y, N = 1\n  X = x, N = 2\n  2 answers\n",
    ),
    (
        b"a(1). a(2). b(X) :- a(X), !.",
        b"?- b(X).",
        b"session 1 committed\ngoal 1\n  X = 1\n  1 answers\n",
    ),
    (
        b"a(1). a(2).",
        b"?- a(X), !, fail.",
        b"session 1 committed\ngoal 1\n  0 answers\n",
    ),
    (
        b":- clauses(c/1). c(1). c(X) :- a(X). a(2).",
        b"?- c(X).",
        b"session 1 committed\ngoal 1\n  X = 1\n  X = 2\n  2 answers\n",
    ),
    (
        b"a(1).",
        b"?- a(X). :- abort.",
        b"session 1 aborted\ngoal 1\n  X = 1\n  1 answers\n",
    ),
];

#[test]
fn each_run_prints_its_answers_in_key_order(rt: HostRuntime) -> Result<(), Fail> {
    let alloc = rt.alloc();
    for (rules, script, printed) in RUNS {
        let mut shelf = shelf_of(alloc, rules, script)?;
        let mut out = MemSink::new(alloc);
        let status = serial(alloc, &WORDS, &mut shelf, &mut out);
        assert_eq!(rt; status, Status::Done);
        assert_eq!(rt; out.bytes(), printed);
    }
    Ok(())
}

// The words of a run of so many scripts.
fn words_of(alloc: Global, scripts: usize) -> Result<Vec<&'static str>, Fail> {
    let mut words = Vec::new(alloc);
    words.push("serial")?;
    words.push("rules.pl")?;
    for _ in 0..scripts {
        words.push("s1")?;
    }
    Ok(words)
}

#[test]
fn sixty_four_scripts_are_run_in_order_and_not_one_more(rt: HostRuntime) -> Result<(), Fail> {
    let alloc = rt.alloc();
    let mut shelf = shelf_of(alloc, RULES, b"?- p(1).")?;
    let mut out = MemSink::new(alloc);
    let words = words_of(alloc, 64)?;
    assert_eq!(rt; serial(alloc, &words, &mut shelf, &mut out), Status::Done);
    let first =
        b"session 1 committed\ngoal 1\n  true\n  1 answers\nsession 2 committed\n".as_slice();
    let last = b"session 64 committed\ngoal 1\n  true\n  1 answers\n".as_slice();
    assert!(rt; out.bytes().starts_with(first));
    assert!(rt; out.bytes().ends_with(last));
    let mut more = MemSink::new(alloc);
    let words = words_of(alloc, 65)?;
    assert_eq!(rt;
        serial(alloc, &words, &mut shelf, &mut more),
        Status::BadWords
    );
    assert!(rt; more.bytes().is_empty());
    Ok(())
}

// Rules of so many tuples whose one atom has 255 bytes.
fn rules_of_long_names(alloc: Global, count: usize) -> Result<Vec<u8>, Fail> {
    let rest = vec![in alloc; b'x'; 250]?;
    let mut rules = Vec::new(alloc);
    rules.extend_from_slice(b":- relation(p/1).\n")?;
    for i in 0..count {
        let name = format!(in alloc; "p(a{i:04}")?;
        rules.extend_from_slice(name.as_bytes())?;
        rules.extend_from_slice(&rest)?;
        rules.extend_from_slice(b").\n")?;
    }
    Ok(rules)
}

#[test]
fn answer_lines_past_the_limit_are_an_error_of_their_goal(rt: HostRuntime) -> Result<(), Fail> {
    let alloc = rt.alloc();
    let mut script = Vec::new(alloc);
    for _ in 0..12 {
        script.extend_from_slice(b"?- p(X).\n")?;
    }
    let mut shelf = shelf_of(alloc, &rules_of_long_names(alloc, 400)?, &script)?;
    let mut out = MemSink::new(alloc);
    assert_eq!(rt; serial(alloc, &WORDS, &mut shelf, &mut out), Status::Done);
    assert!(rt;
        out.bytes()
            .starts_with(b"session 1 failed at goal 11\n".as_slice())
    );
    assert!(rt;
        out.bytes()
            .ends_with(b"x\n  error resource_error(output)\n".as_slice())
    );
    Ok(())
}

// A shelf whose second fetch fails.
#[derive(Drop)]
struct SecondFetchFails {
    inner: MemShelf,
    fetches: u64,
    faults: u64,
}

impl Shelf for SecondFetchFails {
    ghost held = { λ _. None };

    ghost faults = { λ shelf. shelf.faults };

    ghost put_faults = { λ _. 0 };

    fn fetch(&mut self, alloc: Global, name: &str, limit: usize) -> Result<Vec<u8>, FetchStop> {
        self.fetches = self.fetches.saturating_add(1);
        if self.fetches == 2 {
            self.faults = self.faults.saturating_add(1);
            return Err(FetchStop::Failed);
        }
        self.inner.fetch(alloc, name, limit)
    }

    fn put(&mut self, alloc: Global, name: &str, bytes: &[u8]) -> Result<(), PutStop> {
        self.inner.put(alloc, name, bytes)
    }
}

#[test]
fn a_failed_fetch_is_told_by_its_word_and_only_once(rt: HostRuntime) -> Result<(), Fail> {
    let alloc = rt.alloc();
    let mut shelf = SecondFetchFails {
        inner: shelf_of(alloc, RULES, b"?- p(X).")?,
        fetches: 0,
        faults: 0,
    };
    let mut out = MemSink::new(alloc);
    let status = serial(alloc, &WORDS, &mut shelf, &mut out);
    assert_eq!(rt; status, Status::ReadFailed(2));
    assert_eq!(rt; status.number(), 5);
    assert!(rt; out.bytes().is_empty());
    let line = line_of(alloc, &status, &WORDS)?;
    assert_eq!(rt; line.as_slice(), b"megalog: cannot read s1\n".as_slice());
    assert_eq!(rt; serial(alloc, &WORDS, &mut shelf, &mut out), Status::Done);
    assert_eq!(rt; out.bytes(), PRINTED);
    Ok(())
}

// A sink whose second write takes seven bytes and fails.
#[derive(Drop)]
struct SecondWriteFails {
    inner: MemSink,
    writes: u64,
    faults: u64,
}

impl Sink for SecondWriteFails {
    ghost written = { λ _. None };

    ghost faults = { λ sink. sink.faults };

    fn write_all(&mut self, alloc: Global, bytes: &[u8]) -> Result<(), WriteStop> {
        self.writes = self.writes.saturating_add(1);
        if self.writes != 2 {
            return self.inner.write_all(alloc, bytes);
        }
        let taken = bytes.len().min(7);
        self.inner.write_all(alloc, &bytes[..taken])?;
        self.faults = self.faults.saturating_add(1);
        Err(WriteStop::Failed)
    }
}

#[test]
fn a_failed_write_leaves_a_beginning_of_the_print(rt: HostRuntime) -> Result<(), Fail> {
    let alloc = rt.alloc();
    let words: [&str; 4] = ["serial", "rules.pl", "s1", "s1"];
    let mut shelf = shelf_of(alloc, RULES, b"?- p(X).")?;
    let mut out = SecondWriteFails {
        inner: MemSink::new(alloc),
        writes: 0,
        faults: 0,
    };
    let status = serial(alloc, &words, &mut shelf, &mut out);
    assert_eq!(rt; status, Status::WriteFailed);
    assert_eq!(rt; status.number(), 9);
    let mut wanted = Vec::from_slice(alloc, PRINTED)?;
    wanted.extend_from_slice(b"session")?;
    assert_eq!(rt; out.inner.bytes(), wanted.as_slice());
    let line = line_of(alloc, &status, &words)?;
    assert_eq!(rt; line.as_slice(), b"megalog: cannot write\n".as_slice());
    Ok(())
}
