//! The parts of compounds.
ghost use Rattle.std.specs.Prelude.{◌≡◌, [], ◌∷◌, ◌++◌, MatchOption, false};
ghost use Rattle.ml_compile.specs.inside.Appended.{is_pair};
ghost use Rattle.ml_term.specs.Seen.{seen};
ghost use Rattle.ml_term.specs.Tree.{compound_2};

use ml_term::{Args, Term};

/// The arguments before the last one, and the last one.
pub(crate) fn front_and_last(args: &Args) -> (&[Term], &Term)
    ensures { args.now ≡ result.0.now ++ result.1.now ∷ [] }
{
    match args.as_slice().split_last() {
        Some((last, front)) => (front, last),
        None => unreachable!(),
    }
}

/// Both arguments of a compound of this name, if the term is one.
pub(crate) fn operands_of<'a>(term: &'a Term, name: &[u8]) -> Option<(&'a Term, &'a Term)>
    ensures { MatchOption result (is_pair name.now (seen term.now) ≡ false)
        (λ p. seen term.now ≡ compound_2 name.now (seen p.0.now) (seen p.1.now)) }
{
    let Term::Cmp(f, args) = term else {
        return None;
    };
    let args = args.as_slice();
    if args.len() != 2 {
        return None;
    }
    if f.as_slice() == name {
        return Some((&args[0], &args[1]));
    }
    None
}
