//! Finite maps from variables to terms.
ghost use Rattle.std.specs.Prelude.{◌≡◌, IsTrue, IfSome, MatchOption, None, Some};
ghost use Rattle.std.specs.List.{list_all};
ghost use Rattle.ml_search.specs.MapSeen.{bound_term, map_seen};
ghost use Rattle.ml_term.specs.Seen.{seen};
ghost use Rattle.ml_term.specs.Valid.{is_valid};

use ml_term::Term;
use std::marker::Model;

/// What unification gives: variables, and for each the term that replaces it. Contracts see the
/// list of the pairs, in the order in which the variables were bound.
#[derive(Drop)]
pub struct Map {
    pairs: Vec<(u32, Term)>,
}

impl Model for Map {
    ghost use Rattle.std.specs.Coded.{codes};
    ghost use Rattle.std.specs.List.{list_all};
    ghost use Rattle.std.specs.Prelude.{List, ℕ, IsTrue};
    ghost use Rattle.ml_term.specs.Seen.{seen};
    ghost use Rattle.ml_term.specs.Valid.{is_valid};
    ghost use Rattle.ml_term.specs.contracts.term.Term as term;
    ghost use Rattle.ml_term.specs.declared.term.Term.{Term};

    ghost Value = { List (ℕ × Term) };

    ghost coded = { Prim.hlevel (codes, term.the_row.coded) };

    ghost view = { λ m. m.pairs.items };

    ghost invariant = { λ m. IsTrue (list_all (λ b. is_valid (seen b.1)) m.pairs.items) };
}

impl Map {
    // The map of these pairs, whose terms have integers in range. It takes no memory.
    pub(crate) fn from_vec(pairs: Vec<(u32, Term)>) -> Map
        requires { IsTrue (list_all (λ b. is_valid (seen b.1)) pairs.items) }
        ensures { result ≡ pairs.items }
    {
        Map { pairs }
    }

    /// The pairs as a slice. It takes no memory.
    pub fn as_slice(&self) -> &[(u32, Term)]
        ensures same { result.now ≡ self.now }
        ensures valid { IsTrue (list_all (λ b. is_valid (seen b.1)) self.now) }
    {
        self.pairs.as_slice()
    }

    /// The term that replaces a variable, and none where none does. It takes no memory.
    pub fn get(&self, variable: u32) -> Option<&Term>
        ensures same { MatchOption result (bound_term (map_seen self.now) variable ≡ None)
            (λ term. bound_term (map_seen self.now) variable ≡ Some (seen term.now)) }
        ensures valid { IfSome result (λ term. IsTrue (is_valid (seen term.now))) }
    {
        for (replaced, term) in self.as_slice() {
            if *replaced == variable {
                return Some(term);
            }
        }
        None
    }
}
