//! Predicates that no declaration and no clause may define, and terms that may stand as bodies and
//! as heads.
ghost use Rattle.std.specs.Prelude.{◌≡◌};
ghost use Rattle.ml_search.specs.Bodies.{is_callable, joins_bodies};
ghost use Rattle.ml_search.specs.Procedures.{is_reserved};
ghost use Rattle.ml_search.specs.inside.Reserved.{is_among, reserved_names_0, reserved_names_1};
ghost use Rattle.ml_search.specs.inside.Reserved.{reserved_names_2, reserved_names_3};
ghost use Rattle.ml_search.specs.WellFormed.{is_clause_head};
ghost use Rattle.ml_term.specs.Seen.{seen};

use ml_term::{Name, Term};

// The control constructs without arguments.
const RESERVED_0: [&[u8]; 3] = [b"true", b"fail", b"!"];

// The control constructs and built-ins of one argument.
const RESERVED_1: [&[u8]; 17] = [
    b"call",
    b"\\+",
    b"once",
    b"throw",
    b"insert_tuple",
    b"delete_tuple",
    b"assertz",
    b"asserta",
    b"retract",
    b"var",
    b"nonvar",
    b"atom",
    b"integer",
    b"atomic",
    b"compound",
    b"callable",
    b"ground",
];

// The control constructs and built-ins of two arguments.
const RESERVED_2: [&[u8]; 20] = [
    b",",
    b";",
    b"->",
    b"=",
    b"\\=",
    b"=..",
    b"copy_term",
    b"is",
    b"==",
    b"\\==",
    b"@<",
    b"@=<",
    b"@>",
    b"@>=",
    b"=:=",
    b"=\\=",
    b"<",
    b"=<",
    b">",
    b">=",
];

// The control constructs and built-ins of three arguments.
const RESERVED_3: [&[u8]; 4] = [b"findall", b"catch", b"functor", b"arg"];

fn is_reserved_0(name: &[u8]) -> bool
    ensures { result ≡ is_among reserved_names_0 name.now }
{
    RESERVED_0.contains(&name)
}

fn is_reserved_1(name: &[u8]) -> bool
    ensures { result ≡ is_among reserved_names_1 name.now }
{
    RESERVED_1.contains(&name)
}

fn is_reserved_2(name: &[u8]) -> bool
    ensures { result ≡ is_among reserved_names_2 name.now }
{
    RESERVED_2.contains(&name)
}

fn is_reserved_3(name: &[u8]) -> bool
    ensures { result ≡ is_among reserved_names_3 name.now }
{
    RESERVED_3.contains(&name)
}

/// Whether a predicate is a control construct or a built-in, which no declaration and no clause may
/// define. It takes no memory.
pub fn is_reserved(name: &Name, arity: usize) -> bool
    ensures { result ≡ is_reserved name.now arity }
{
    let name = name.as_slice();
    match arity {
        0 => is_reserved_0(name),
        1 => is_reserved_1(name),
        2 => is_reserved_2(name),
        3 => is_reserved_3(name),
        4.. => false,
    }
}

// Whether a compound of this name and two arguments is callable only where both arguments are.
fn joins_bodies(name: &Name) -> bool
    ensures { result ≡ joins_bodies name.now }
{
    let name = name.as_slice();
    name == b",".as_slice() || name == b";".as_slice() || name == b"->".as_slice()
}

/// Whether a term is callable: an integer isn't, and `,`, `;` and `->` of two arguments are where
/// both of these are. It takes no memory.
pub fn is_callable(t: &Term) -> bool
    ensures { result ≡ is_callable (seen t.now) }
{
    match t {
        Term::Var(_) => true,
        Term::Int(_) => false,
        Term::Atom(_) => true,
        Term::Cmp(f, ts) => match ts.as_slice() {
            [t, u] if joins_bodies(f) => is_callable(t) && is_callable(u),
            _ => true,
        },
    }
}

/// Whether a term may be the head of a clause: an atom or a compound whose predicate is no control
/// construct and no built-in. It takes no memory.
pub fn is_clause_head(t: &Term) -> bool
    ensures { result ≡ is_clause_head (seen t.now) }
{
    match t {
        Term::Var(_) => false,
        Term::Int(_) => false,
        Term::Atom(f) => !is_reserved(f, 0),
        Term::Cmp(f, ts) => !is_reserved(f, ts.as_slice().len()),
    }
}
