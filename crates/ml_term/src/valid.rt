//! Whether a term is one of the language.
ghost use Rattle.std.specs.Prelude.{◌≡◌};
ghost use Rattle.ml_term.specs.Seen.{all_seen, seen};
ghost use Rattle.ml_term.specs.Tree.{trees_of};
ghost use Rattle.ml_term.specs.Valid.{are_valid, is_in_range, is_valid};

use crate::limits::INTEGER_OFFSET;
use crate::term::Term;

/// Whether an integer is from -2305843009213693952 to 2305843009213693951.
pub fn is_in_range(v: i64) -> bool
    ensures { result ≡ is_in_range v }
{
    -INTEGER_OFFSET <= v && v < INTEGER_OFFSET
}

/// Whether a term's integers are in range. All else that makes it valid is kept by its type. It
/// takes no memory.
#[cycle(valid)]
pub fn is_valid(t: &Term) -> bool
    ensures { result ≡ is_valid (seen t.now) }
{
    match t {
        Term::Var(n) => {
            let _in_range = *n;
            true
        }
        Term::Int(v) => is_in_range(*v),
        Term::Atom(f) => {
            let _is_name = f.as_slice();
            true
        }
        Term::Cmp(f, ts) => {
            let _is_name = f.as_slice();
            are_valid(ts.as_slice())
        }
    }
}

// Whether this holds of some terms.
#[cycle(valid)]
fn are_valid(ts: &[Term]) -> bool
    ensures { result ≡ are_valid (trees_of (all_seen ts.now)) }
{
    match ts.split_first() {
        None => true,
        Some((t, ts)) => is_valid(t) && are_valid(ts),
    }
}
