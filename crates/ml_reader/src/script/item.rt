//! What a clause is in a script.
ghost use Rattle.std.specs.Prelude.{◌≡◌, codes};
ghost use Rattle.std.specs.Option.{option_map};
ghost use Rattle.std.specs.Str.{bytes_eq};
ghost use Rattle.ml_term.specs.Seen.{all_seen, seen};
ghost use Rattle.ml_reader.specs.inside.script.ScriptItems.{IsGoalIfCallable, budget_of};
ghost use Rattle.ml_reader.specs.inside.script.ScriptItems.{condition_of, directive_item, item};
ghost use Rattle.ml_reader.specs.inside.script.ScriptItems.{directive_by_name, only_tree};
ghost use Rattle.ml_reader.specs.inside.script.ScriptItems.{item_by_name, query_of};
ghost use Rattle.ml_reader.specs.inside.script.ScriptSeen.{item_seen};
ghost use Rattle.ml_reader.specs.Seen.{read_seen};
ghost use Rattle.ml_reader.specs.Texts.{IsWellRead};

use crate::parser::lexeme::Read;
use crate::parser::operators::is;
use ml_search::{Goal, Last, MAX_INFERENCES, Names, is_callable};
use ml_term::{Args, Name, Term};

/// What a clause is in a script.
#[derive(Drop)]
pub enum Item {
    /// `:- budget(N).`
    Budget(u32),
    /// `?- GOAL.`
    Query(Goal),
    /// `:- abort.` or `:- commit_unless(GOAL).`
    Ending(Last),
    /// What no script has.
    Other,
}

// The argument, if there is only one.
fn only_term(args: Args) -> Option<Term>
    ensures { option_map seen result ≡ only_tree (all_seen args) }
{
    let mut terms = args.into_vec();
    if terms.len() == 1 { terms.pop() } else { None }
}

// `:- budget(T).`
fn budget(t: &Term) -> Item
    ensures { item_seen result ≡ budget_of (seen t.now) }
{
    match t {
        Term::Var(_) => Item::Other,
        Term::Int(n) => {
            if 1 <= *n && *n <= i64::from(MAX_INFERENCES) {
                Item::Budget(*n as u32)
            } else {
                Item::Other
            }
        }
        Term::Atom(_) => Item::Other,
        Term::Cmp(_, _) => Item::Other,
    }
}

// `?- T.` with the names of its variables.
fn query(t: Term, names: Names) -> Item
    requires { IsGoalIfCallable (seen t) names }
    ensures { item_seen result ≡ query_of (seen t) names }
{
    if is_callable(&t) {
        Item::Query(Goal::new(t, names))
    } else {
        Item::Other
    }
}

// `:- commit_unless(T).` with the names of its variables.
fn condition(goal: Term, names: Names) -> Item
    requires { IsGoalIfCallable (seen goal) names }
    ensures { item_seen result ≡ condition_of (seen goal) names }
{
    if is_callable(&goal) {
        Item::Ending(Last::Unless(Goal::new(goal, names)))
    } else {
        Item::Other
    }
}

// `:- T.` with the names of its variables.
fn directive_item(t: Term, names: Names) -> Item
    requires { IsGoalIfCallable (seen t) names }
    ensures { item_seen result ≡ directive_item (seen t) names }
{
    match t {
        Term::Var(_) => Item::Other,
        Term::Int(_) => Item::Other,
        Term::Atom(name) => {
            if is(&name, b"abort") {
                Item::Ending(Last::Abort)
            } else {
                Item::Other
            }
        }
        Term::Cmp(name, args) => match only_term(args) {
            None => Item::Other,
            Some(t) => directive_by_name(&name, t, names),
        },
    }
}

// `:- F(T).` with the names of its variables.
fn directive_by_name(name: &Name, t: Term, names: Names) -> Item
    requires { IsGoalIfCallable (seen t) names }
    ensures { item_seen result ≡ directive_by_name (bytes_eq (codes "budget") name.now)
        (bytes_eq (codes "commit_unless") name.now) (seen t) names }
{
    if is(name, b"budget") {
        budget(&t)
    } else if is(name, b"commit_unless") {
        condition(t, names)
    } else {
        Item::Other
    }
}

// A clause `F(T).` with the names of its variables.
fn item_by_name(name: &Name, t: Term, names: Names) -> Item
    requires { IsGoalIfCallable (seen t) names }
    ensures { item_seen result ≡ item_by_name (bytes_eq (codes "?-") name.now)
        (bytes_eq (codes ":-") name.now) (seen t) names }
{
    if is(name, b"?-") {
        query(t, names)
    } else if is(name, b":-") {
        directive_item(t, names)
    } else {
        Item::Other
    }
}

/// What a clause is in a script. It takes no memory.
pub fn item_of(clause: Read) -> Item
    requires { IsWellRead (read_seen clause) }
    ensures { item_seen result ≡ item (read_seen clause) }
{
    let Read {
        term,
        names,
        place: _,
    } = clause;
    match term {
        Term::Var(_) => Item::Other,
        Term::Int(_) => Item::Other,
        Term::Atom(_) => Item::Other,
        Term::Cmp(name, args) => match only_term(args) {
            None => Item::Other,
            Some(t) => item_by_name(&name, t, Names::from_vec(names.into_vec())),
        },
    }
}
