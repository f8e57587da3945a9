//! How many canonical bytes a term has, without the bytes.
ghost use Rattle.std.specs.Prelude.{◌≡◌, ◌+◌, ◌-◌, ◌<◌, ◌^◌, min, length};
ghost use Rattle.ml_term.specs.CanonicalBytes.{bytes_of, bytes_of_all};
ghost use Rattle.ml_term.specs.Seen.{all_seen, seen};
ghost use Rattle.ml_term.specs.Tree.{trees_of};

use crate::term::Term;

/// The number of a term's canonical bytes where it is at most the limit, and else the limit and one
/// more. It takes no memory.
#[cycle(canonical_size)]
pub fn canonical_len_up_to(t: &Term, limit: usize) -> usize
    requires { limit < 2 ^ 63 }
    ensures { result ≡ min (length (bytes_of (seen t.now))) (limit + 1) }
{
    match t {
        Term::Var(_) => (limit + 1).min(5),
        Term::Int(_) => (limit + 1).min(9),
        Term::Atom(f) => (limit + 1).min(2 + f.as_slice().len()),
        Term::Cmp(f, ts) => {
            let front = 3 + f.as_slice().len();
            if front > limit {
                limit + 1
            } else {
                front + all_canonical_len_up_to(ts.as_slice(), limit - front)
            }
        }
    }
}

// The same for the canonical bytes of some terms together.
#[cycle(canonical_size)]
fn all_canonical_len_up_to(ts: &[Term], limit: usize) -> usize
    requires { limit < 2 ^ 63 }
    ensures { result ≡ min (length (bytes_of_all (trees_of (all_seen ts.now)))) (limit + 1) }
{
    match ts.split_first() {
        None => 0,
        Some((t, ts)) => {
            let count = canonical_len_up_to(t, limit);
            if count > limit {
                count
            } else {
                count + all_canonical_len_up_to(ts, limit - count)
            }
        }
    }
}
