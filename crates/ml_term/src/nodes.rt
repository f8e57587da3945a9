//! How large a term is, and whether it has variables.
ghost use Rattle.std.specs.Prelude.{◌≡◌, ◌+◌, ◌-◌, ◌<◌, ◌^◌, ◌==◌, min, length};
ghost use Rattle.ml_term.specs.Seen.{all_seen, seen};
ghost use Rattle.ml_term.specs.Tree.{is_ground, nodes, nodes_of, trees_of, variables_of};

use crate::term::Term;

/// The number of a term's nodes where it is at most the limit, and else the limit and one more. It
/// takes no memory.
#[cycle(nodes)]
pub fn nodes_up_to(t: &Term, limit: usize) -> usize
    requires { limit < 2 ^ 64 - 1 }
    ensures { result ≡ min (nodes (seen t.now)) (limit + 1) }
{
    match t {
        Term::Cmp(_, ts) if limit > 0 => 1 + nodes_of_up_to(ts.as_slice(), limit - 1),
        _ => 1,
    }
}

// The same for the nodes of some terms together.
#[cycle(nodes)]
fn nodes_of_up_to(ts: &[Term], limit: usize) -> usize
    requires { limit < 2 ^ 64 - 1 }
    ensures { result ≡ min (nodes_of (trees_of (all_seen ts.now))) (limit + 1) }
{
    match ts.split_first() {
        None => 0,
        Some((t, ts)) => {
            let count = nodes_up_to(t, limit);
            if count > limit {
                count
            } else {
                count + nodes_of_up_to(ts, limit - count)
            }
        }
    }
}

/// Whether a term has no variable. It takes no memory.
#[cycle(ground)]
pub fn is_ground(t: &Term) -> bool
    ensures { result ≡ is_ground (seen t.now) }
{
    match t {
        Term::Var(_) => false,
        Term::Cmp(_, ts) => are_ground(ts.as_slice()),
        _ => true,
    }
}

// Whether some terms have no variable.
#[cycle(ground)]
fn are_ground(ts: &[Term]) -> bool
    ensures { result ≡ (length (variables_of (trees_of (all_seen ts.now))) == 0) }
{
    match ts.split_first() {
        None => true,
        Some((t, ts)) => is_ground(t) && are_ground(ts),
    }
}
