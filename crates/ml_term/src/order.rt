//! The standard order of terms.
ghost use Rattle.std.specs.Prelude.{◌≡◌};
ghost use Rattle.ml_term.specs.Order.{rank, tree_cmp, trees_cmp};
ghost use Rattle.ml_term.specs.Seen.{all_seen, seen};
ghost use Rattle.ml_term.specs.Tree.{trees_of};

use crate::term::Term;
use std::cmp::Ordering;

// The place of a term's kind: variables, integers, atoms, compounds.
pub(crate) fn rank_of(t: &Term) -> u8
    ensures { result ≡ rank (seen t.now) }
{
    match t {
        Term::Var(_) => 0,
        Term::Int(_) => 1,
        Term::Atom(_) => 2,
        Term::Cmp(_, _) => 3,
    }
}

/// The standard order: variables by age, integers by value, atoms by their bytes, compounds by
/// arity, then name, then arguments from the left.
/// It takes no memory.
#[cycle(compare)]
pub fn compare(a: &Term, b: &Term) -> Ordering
    ensures { result ≡ tree_cmp (seen a.now) (seen b.now) }
{
    match (a, b) {
        (Term::Var(m), Term::Var(n)) => m.cmp(n),
        (Term::Int(y), Term::Int(z)) => y.cmp(z),
        (Term::Atom(f), Term::Atom(g)) => f.compare(g),
        (Term::Cmp(f, ts), Term::Cmp(g, us)) => {
            let (ts, us) = (ts.as_slice(), us.as_slice());
            match ts.len().cmp(&us.len()).then(f.compare(g)) {
                Ordering::Equal => compare_all(ts, us),
                other => other,
            }
        }
        _ => rank_of(a).cmp(&rank_of(b)),
    }
}

// The order of arguments from the left.
#[cycle(compare)]
fn compare_all(ts: &[Term], us: &[Term]) -> Ordering
    ensures { result ≡ trees_cmp (trees_of (all_seen ts.now)) (trees_of (all_seen us.now)) }
{
    match (ts.split_first(), us.split_first()) {
        (Some((t, ts)), Some((u, us))) => match compare(t, u) {
            Ordering::Equal => compare_all(ts, us),
            other => other,
        },
        _ => ts.len().cmp(&us.len()),
    }
}
