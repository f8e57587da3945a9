//! A desk over one list that is asked operations. Each is tested before at run time, so a test that
//! asks what may not be asked ends.
ghost use Rattle.std.specs.Prelude.{◌≡◌, ◌∷◌, [], IsTrue};
ghost use Rattle.ml_list_desk.specs.inside.TreeCodes.{decls_are_a_set};
ghost use Rattle.ml_list_desk.specs.Items.{lists_of_terms};
ghost use Rattle.ml_search.specs.Db.{is_allowed};
ghost use Rattle.ml_search.specs.Operations.{is_valid_after};
ghost use Rattle.ml_search.specs.Seen.{log_seen, operation_seen};
ghost use Rattle.ml_term.specs.Seen.{seen};

use crate::log::{count_given, list_under, was_given};
use crate::terms::{
    MEMORY, atom, compound_1, compound_2, declared, is_clause, is_pattern, is_tuple,
};
use ml_desk::Desk;
use ml_list_desk::ListDesk;
use ml_search::{Decls, Op, Reply};
use ml_term::{Decl, Kind, Term, Terms};
use std::alloc::Global;
use std::process::Abort;

/// What a test asks of the list of p/1, by the integers in its items. A clause is a fact.
#[derive(Clone, Copy, Debug)]
pub enum Step {
    /// A cursor over all items.
    Open,
    /// The next item of a cursor.
    Next(u32),
    Insert(i64),
    Delete(i64),
    Assertz(i64),
    Asserta(i64),
    /// The item that a cursor gave with this number.
    DeleteAt(u32, u32),
}

/// A reply, by the integer in its item.
#[derive(Clone, Copy, Debug, PartialEq, Eq)]
pub enum Told {
    Cursor(u32),
    Item(Option<i64>),
    End,
    Added,
    Present,
    Removed,
    Absent,
    Full,
}

/// A desk over the list of p/1.
#[derive(Drop)]
pub struct Asked {
    decl: Decl,
    desk: ListDesk,
    ghost alone: { desk.decls ≡ decl ∷ [] } by { Prim.hlevel (decls_are_a_set) },
}

// The tuple p(n).
fn tuple(rt: &impl Abort, alloc: Global, number: i64) -> Term {
    compound_1(rt, alloc, b"p", Term::Int(number))
}

// The head p(X).
fn pattern(rt: &impl Abort, alloc: Global) -> Term {
    compound_1(rt, alloc, b"p", Term::Var(0))
}

// The clause p(n) :- true.
fn clause(rt: &impl Abort, alloc: Global, number: i64) -> Term {
    let head = tuple(rt, alloc, number);
    compound_2(rt, alloc, b":-", head, atom(rt, alloc, b"true"))
}

// The integer in p(n), or in p(n) :- true.
fn number_of(t: &Term) -> Option<i64> {
    match t {
        Term::Cmp(_, ts) => match ts.as_slice() {
            [Term::Int(z)] => Some(*z),
            [Term::Cmp(_, us), _] => match us.as_slice() {
                [Term::Int(z)] => Some(*z),
                _ => None,
            },
            _ => None,
        },
        _ => None,
    }
}

fn told_of(reply: &Reply) -> Told {
    match reply {
        Reply::Cursor(c) => Told::Cursor(*c),
        Reply::Item(t) => Told::Item(number_of(t)),
        Reply::End => Told::End,
        Reply::Added => Told::Added,
        Reply::Present => Told::Present,
        Reply::Removed => Told::Removed,
        Reply::Absent => Told::Absent,
        Reply::Full => Told::Full,
    }
}

// The declaration of p/1.
fn declaration(rt: &impl Abort, alloc: Global, kind: Kind) -> Decl {
    declared(rt, alloc, b"p", 1, kind, &[1])
}

// Lists for one declaration, whose terms are one.
fn lists_of(rt: &impl Abort, alloc: Global, loaded: Term) -> Vec<Terms>
    ensures { lists_of_terms result.items ≡ (seen loaded ∷ []) ∷ [] }
{
    match vec![in alloc; loaded] {
        Ok(terms) => match vec![in alloc; Terms::from_vec(terms)] {
            Ok(lists) => lists,
            Err(_) => panic!(rt; "{MEMORY}"),
        },
        Err(_) => panic!(rt; "{MEMORY}"),
    }
}

impl Asked {
    /// The desk of a relation that holds p(1).
    pub fn relation(rt: &impl Abort, alloc: Global) -> Asked {
        let decl = declaration(rt, alloc, Kind::Relation);
        let loaded = tuple(rt, alloc, 1);
        assert!(rt; decl.kind == Kind::Relation);
        assert!(rt; is_tuple(&loaded, &decl));
        Asked::over(rt, alloc, decl, loaded)
    }

    /// The desk of clauses that holds p(1).
    pub fn clauses(rt: &impl Abort, alloc: Global) -> Asked {
        let decl = declaration(rt, alloc, Kind::Clauses);
        let loaded = clause(rt, alloc, 1);
        assert!(rt; decl.kind == Kind::Clauses);
        assert!(rt; is_clause(alloc, &loaded, &decl).unwrap_or(false));
        Asked::over(rt, alloc, decl, loaded)
    }

    // The desk over a list of one item.
    fn over(rt: &impl Abort, alloc: Global, decl: Decl, loaded: Term) -> Asked
        requires { IsTrue (is_allowed decl (seen loaded)) }
    {
        let mut decls = Decls::new(alloc);
        assert!(rt;
            decls.add(decl.copy_of(alloc).expect(rt, MEMORY)).is_ok(),
            "{MEMORY}"
        );
        let lists = lists_of(rt, alloc, loaded);
        let desk = ListDesk::new(alloc, &decls, lists).expect(rt, MEMORY);
        Asked { decl, desk }
    }

    /// Takes one step.
    pub fn take(&mut self, rt: &impl Abort, alloc: Global, step: Step) -> Told {
        match step {
            Step::Open => self.open(rt, pattern(rt, alloc)),
            Step::Next(c) => self.next(rt, c),
            Step::Insert(n) => self.insert(rt, tuple(rt, alloc, n)),
            Step::Delete(n) => self.delete(rt, tuple(rt, alloc, n)),
            Step::Assertz(n) => self.assertz(rt, alloc, clause(rt, alloc, n)),
            Step::Asserta(n) => self.asserta(rt, alloc, clause(rt, alloc, n)),
            Step::DeleteAt(c, i) => self.delete_at(rt, c, i),
        }
    }

    // Asks an operation that may be asked.
    fn ask(&mut self, rt: &impl Abort, op: &Op) -> Told
        requires { IsTrue (is_valid_after (self.old.decl ∷ []) (log_seen self.old.desk.log.items)
            (operation_seen op.now)) }
    {
        match self.desk.ask(op) {
            Ok(reply) => told_of(&reply),
            Err(_) => panic!(rt; "{MEMORY}"),
        }
    }

    fn open(&mut self, rt: &impl Abort, pattern: Term) -> Told {
        assert!(rt; is_pattern(&pattern, &self.decl));
        self.ask(rt, &Op::Open(0, pattern))
    }

    fn next(&mut self, rt: &impl Abort, c: u32) -> Told {
        let i = count_given(self.desk.log(), c);
        assert!(rt; list_under(self.desk.log(), c).is_some());
        assert!(rt; i <= u32::MAX as usize);
        self.ask(rt, &Op::Next(c, i as u32))
    }

    fn insert(&mut self, rt: &impl Abort, t: Term) -> Told {
        assert!(rt; self.decl.kind == Kind::Relation);
        assert!(rt; is_tuple(&t, &self.decl));
        self.ask(rt, &Op::Insert(t))
    }

    fn delete(&mut self, rt: &impl Abort, t: Term) -> Told {
        assert!(rt; self.decl.kind == Kind::Relation);
        assert!(rt; is_tuple(&t, &self.decl));
        self.ask(rt, &Op::Delete(t))
    }

    fn assertz(&mut self, rt: &impl Abort, alloc: Global, t: Term) -> Told {
        assert!(rt; self.decl.kind == Kind::Clauses);
        assert!(rt; is_clause(alloc, &t, &self.decl).unwrap_or(false));
        self.ask(rt, &Op::Assertz(t))
    }

    fn asserta(&mut self, rt: &impl Abort, alloc: Global, t: Term) -> Told {
        assert!(rt; self.decl.kind == Kind::Clauses);
        assert!(rt; is_clause(alloc, &t, &self.decl).unwrap_or(false));
        self.ask(rt, &Op::Asserta(t))
    }

    fn delete_at(&mut self, rt: &impl Abort, c: u32, i: u32) -> Told {
        assert!(rt; self.decl.kind == Kind::Clauses);
        assert!(rt; list_under(self.desk.log(), c) == Some(0));
        assert!(rt; was_given(self.desk.log(), c, i));
        self.ask(rt, &Op::DeleteAt(c, i))
    }
}
