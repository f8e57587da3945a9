//! The forms of the clauses of rules and of scripts.
ghost use Rattle.std.specs.Prelude.{◌≡◌, ◌≢◌, ◌∷◌, [], MatchOption, length};
ghost use Rattle.std.specs.Option.{option_map};
ghost use Rattle.ml_reader.specs.Forms.{directive_of, form};
ghost use Rattle.ml_reader.specs.inside.rules.FormsSeen.{form_seen};
ghost use Rattle.ml_term.specs.Seen.{all_seen, seen};
ghost use Rattle.ml_term.specs.Tree.{compound, trees_of};

use crate::parser::operators::is;
use ml_term::{Args, Name, Term};

/// A clause's term by its form: `:- T`, `?- T`, `HEAD :- BODY`, and every other term `HEAD`.
#[derive(Drop)]
pub enum Form {
    Directive(Term),
    Query(Term),
    Rule(Term, Term),
    Fact(Term),
}

/// The one argument.
pub fn only_argument(args: Args) -> Term
    requires { length args ≡ 1 }
    ensures { args ≡ result ∷ [] }
{
    let mut items = args.into_vec();
    items.pop().unwrap()
}

// The two arguments.
fn two_arguments(args: Args) -> (Term, Term)
    requires { length args ≡ 2 }
    ensures { args ≡ result.0 ∷ result.1 ∷ [] }
{
    let mut items = args.into_vec();
    let second = items.pop().unwrap();
    let first = items.pop().unwrap();
    (first, second)
}

// The form of a compound of one argument.
fn form_of_one(f: Name, args: Args) -> Form
    requires { length args ≡ 1 }
    ensures { form_seen result ≡ form (compound f (trees_of (all_seen args))) }
{
    if is(&f, b":-") {
        Form::Directive(only_argument(args))
    } else if is(&f, b"?-") {
        Form::Query(only_argument(args))
    } else {
        Form::Fact(Term::Cmp(f, args))
    }
}

// The form of a compound of two arguments.
fn form_of_two(f: Name, args: Args) -> Form
    requires { length args ≡ 2 }
    ensures { form_seen result ≡ form (compound f (trees_of (all_seen args))) }
{
    if is(&f, b":-") {
        let (head, body) = two_arguments(args);
        Form::Rule(head, body)
    } else {
        Form::Fact(Term::Cmp(f, args))
    }
}

// The form of a compound.
fn form_of_compound(f: Name, args: Args) -> Form
    ensures { form_seen result ≡ form (compound f (trees_of (all_seen args))) }
{
    let count = args.as_slice().len();
    if count == 1 {
        form_of_one(f, args)
    } else if count == 2 {
        form_of_two(f, args)
    } else {
        Form::Fact(Term::Cmp(f, args))
    }
}

/// The form of a clause's term. It takes no memory.
pub fn form_of(term: Term) -> Form
    ensures { form_seen result ≡ form (seen term) }
{
    match term {
        Term::Cmp(f, args) => form_of_compound(f, args),
        Term::Var(n) => Form::Fact(Term::Var(n)),
        Term::Int(z) => Form::Fact(Term::Int(z)),
        Term::Atom(f) => Form::Fact(Term::Atom(f)),
    }
}

/// The one item of a slice, where there is one and no other.
pub fn single(ts: &[Term]) -> Option<&Term>
    ensures { MatchOption result (length ts.now ≢ 1) (λ t. ts.now ≡ t.now ∷ []) }
{
    match ts {
        [t] => Some(t),
        _ => None,
    }
}

/// The two items of a slice, where there are two and no others.
pub fn pair(ts: &[Term]) -> Option<(&Term, &Term)>
    ensures { MatchOption result (length ts.now ≢ 2) (λ r. ts.now ≡ r.0.now ∷ r.1.now ∷ []) }
{
    match ts {
        [t, u] => Some((t, u)),
        _ => None,
    }
}

/// The T of a clause `:- T`. It takes no memory.
pub fn directive_of(term: &Term) -> Option<&Term>
    ensures { option_map (λ t. seen t.now) result ≡ directive_of (form (seen term.now)) }
{
    match term {
        Term::Cmp(f, args) => match single(args.as_slice()) {
            Some(t) => { if is(f, b":-") { Some(t) } else { None } }
            None => None,
        },
        Term::Var(_) => None,
        Term::Int(_) => None,
        Term::Atom(_) => None,
    }
}
