//! The order of canonical bytes, without the bytes.
ghost use Rattle.std.specs.Prelude.{◌≡◌, IsTrue, length};
ghost use Rattle.std.specs.Cmp.Lexicographic.{slice_cmp};
ghost use Rattle.std.specs.Ordering.{nat_cmp};
ghost use Rattle.ml_term.specs.CanonicalBytes.{bytes_of, bytes_of_all, name_bytes};
ghost use Rattle.ml_term.specs.Seen.{all_seen, seen};
ghost use Rattle.ml_term.specs.Tree.{trees_of};
ghost use Rattle.ml_term.specs.Valid.{are_valid, is_valid};

use crate::name::Name;
use crate::order::rank_of;
use crate::term::Term;
use std::cmp::Ordering;

// The order of two names as they stand in canonical bytes: by length, and then by their bytes.
fn name_bytes_cmp(f: &Name, g: &Name) -> Ordering
    ensures { result ≡ slice_cmp nat_cmp (name_bytes f.now) (name_bytes g.now) }
{
    let (f, g) = (f.as_slice(), g.as_slice());
    f.len().cmp(&g.len()).then_with(|| f.cmp(g))
}

/// The order of the canonical bytes of two terms. It takes no memory.
#[cycle(canonical)]
pub fn canonical_cmp(a: &Term, b: &Term) -> Ordering
    requires a { IsTrue (is_valid (seen a.now)) }
    requires b { IsTrue (is_valid (seen b.now)) }
    ensures { result ≡ slice_cmp nat_cmp (bytes_of (seen a.now)) (bytes_of (seen b.now)) }
{
    match (a, b) {
        (Term::Var(m), Term::Var(n)) => m.cmp(n),
        (Term::Int(y), Term::Int(z)) => y.cmp(z),
        (Term::Atom(f), Term::Atom(g)) => name_bytes_cmp(f, g),
        (Term::Cmp(f, ts), Term::Cmp(g, us)) => {
            let (ts, us) = (ts.as_slice(), us.as_slice());
            match ts.len().cmp(&us.len()).then(name_bytes_cmp(f, g)) {
                Ordering::Equal => all_canonical_cmp(ts, us),
                other => other,
            }
        }
        _ => rank_of(a).cmp(&rank_of(b)),
    }
}

// The order of the canonical bytes of as many terms on both sides.
#[cycle(canonical)]
fn all_canonical_cmp(ts: &[Term], us: &[Term]) -> Ordering
    requires as_many { length ts.now ≡ length us.now }
    requires ts { IsTrue (are_valid (trees_of (all_seen ts.now))) }
    requires us { IsTrue (are_valid (trees_of (all_seen us.now))) }
    ensures { result ≡ slice_cmp nat_cmp (bytes_of_all (trees_of (all_seen ts.now)))
        (bytes_of_all (trees_of (all_seen us.now))) }
{
    match (ts.split_first(), us.split_first()) {
        (Some((t, ts)), Some((u, us))) => match canonical_cmp(t, u) {
            Ordering::Equal => all_canonical_cmp(ts, us),
            other => other,
        },
        _ => Ordering::Equal,
    }
}
