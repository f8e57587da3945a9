//! Scripts through their bytes: what is read, and where the others go wrong first.
ghost use Rattle.std.specs.Prelude.{◌<◌, ◌^◌, length};

use ml_reader::{ReadKind, ReadStop, read_script};
use ml_search::{Goal, Last, Script};
use ml_term::Name;
use std::alloc::{AllocError, Global};
use std::process::Abort;
use std::test::Fail;

/// How a script ends.
#[derive(Clone, Copy, Debug, PartialEq, Eq)]
enum End {
    Commit,
    Abort,
    Unless,
}

/// What a text comes to: its budget, its number of goals and its end, or its first fault.
#[derive(Clone, Copy, Debug, PartialEq, Eq)]
enum Told {
    Script(u32, usize, End),
    Fault(ReadKind, usize),
}

fn told_of(alloc: Global, bytes: &[u8]) -> Result<Told, AllocError>
    requires { length bytes.now < 2 ^ 32 }
{
    match read_script(alloc, bytes) {
        Ok(script) => {
            let end = match &script.last {
                Last::Commit => End::Commit,
                Last::Abort => End::Abort,
                Last::Unless(_) => End::Unless,
            };
            Ok(Told::Script(script.budget, script.goals.as_slice().len(), end))
        }
        Err(ReadStop::Fault(fault)) => Ok(Told::Fault(fault.kind, fault.place)),
        Err(ReadStop::OutOfMemory) => Err(AllocError),
    }
}

#[test]
fn scripts_are_a_budget_then_goals_then_an_end(rt: HostRuntime) -> Result<(), Fail> {
    let alloc = rt.alloc();
    let table: [(&[u8], Told); 12] = [
        (b"", Told::Script(20000, 0, End::Commit)),
        (b":- budget(1).", Told::Script(1, 0, End::Commit)),
        (b":- budget(200000).", Told::Script(200000, 0, End::Commit)),
        (b":-(budget(7)).", Told::Script(7, 0, End::Commit)),
        (b"?- p.", Told::Script(20000, 1, End::Commit)),
        (
            b"?- p(X). ?- X. ?- (p, \\+ q).",
            Told::Script(20000, 3, End::Commit),
        ),
        (b"?- p. ?- q. :- abort.", Told::Script(20000, 2, End::Abort)),
        (
            b":- budget(2). ?- p. :- commit_unless(q).",
            Told::Script(2, 1, End::Unless),
        ),
        (b":- commit_unless(X).", Told::Script(20000, 0, End::Unless)),
        (b":- abort.", Told::Script(20000, 0, End::Abort)),
        (b":- budget(3). :- abort.", Told::Script(3, 0, End::Abort)),
        (
            b"?- commit_unless(1). ?- budget(0).",
            Told::Script(20000, 2, End::Commit),
        ),
    ];
    for (text, want) in table {
        assert_eq!(rt; told_of(alloc, text)?, want, "{text:?}");
    }
    Ok(())
}

#[test]
fn the_first_clause_that_no_script_has_is_told(rt: HostRuntime) -> Result<(), Fail> {
    let alloc = rt.alloc();
    let table: [(&[u8], usize); 18] = [
        (b"p(1).", 0),
        (b" % first\n  p :- q. q.", 11),
        (b":- budget(0).", 0),
        (b":- budget(200001).", 0),
        (b":- budget(-1).", 0),
        (b":- budget(N).", 0),
        (b":- budget(1). :- budget(2).", 14),
        (b"?- p. :- budget(1).", 6),
        (b":- abort. ?- p.", 10),
        (b":- abort. :- commit_unless(p).", 10),
        (b":- commit_unless(p). :- commit_unless(p).", 21),
        (b":- commit_unless((p, 1)).", 0),
        (b"?- p. ?- 1. ?- 2.", 6),
        (b"?- (p, 1).", 0),
        (b":- foo.", 0),
        (b":- budget(1, 2).", 0),
        (b"abort.", 0),
        (b":- budget(1). :- abort(p).", 14),
    ];
    for (text, place) in table {
        let want = Told::Fault(ReadKind::BadScriptItem, place);
        assert_eq!(rt; told_of(alloc, text)?, want, "{text:?}");
    }
    Ok(())
}

#[test]
fn a_text_of_no_clauses_has_its_own_fault_first(rt: HostRuntime) -> Result<(), Fail> {
    let alloc = rt.alloc();
    let table: [(&[u8], Told); 3] = [
        (b"p(1). ?- q", Told::Fault(ReadKind::Unexpected, 10)),
        (
            b"?- a = b = c. p(1).",
            Told::Fault(ReadKind::PriorityClash, 9),
        ),
        (b":- budget(0). ?- 'p", Told::Fault(ReadKind::OpenQuote, 17)),
    ];
    for (text, want) in table {
        assert_eq!(rt; told_of(alloc, text)?, want, "{text:?}");
    }
    Ok(())
}

/// Whether the names of a goal's variables are X, the first, and Y, the third.
fn are_x_and_y(names: &[(Name, u32)]) -> bool {
    match names {
        [x, y] => {
            let (first, second) = (x.0.as_slice(), y.0.as_slice());
            x.1 == 0 && y.1 == 2 && first == b"X".as_slice() && second == b"Y".as_slice()
        }
        _ => false,
    }
}

/// Whether a goal has so many arguments, and the names X and Y.
fn is_of_x_and_y(goal: &Goal, arity: usize) -> bool {
    goal.term.arity() == arity && are_x_and_y(goal.names.as_slice())
}

/// Whether each goal has so many arguments, and the names X and Y.
fn are_of_x_and_y(goals: &[Goal], arity: usize) -> bool {
    goals.iter().all(|goal| is_of_x_and_y(goal, arity))
}

#[test]
fn goals_have_the_names_of_their_clauses(rt: HostRuntime) -> Result<(), Fail> {
    let alloc = rt.alloc();
    let text = b"?- p(X, _, Y, X). :- commit_unless(q(X, _, Y)).".as_slice();
    let script = read_script(alloc, text);
    assert!(rt; matches!(&script, Ok(script) if are_of_x_and_y(script.goals.as_slice(), 4)));
    assert!(rt;
        matches!(&script, Ok(Script { last: Last::Unless(goal), .. }) if is_of_x_and_y(goal, 3))
    );
    Ok(())
}
