//! Terms that are replaced where they are too large.
ghost use Rattle.std.specs.Prelude.{◌≡◌, IfOk, IsTrue};
ghost use Rattle.ml_search.specs.Errors.{is_too_large, kept_small};
ghost use Rattle.ml_term.specs.Seen.{seen};
ghost use Rattle.ml_term.specs.Valid.{is_valid};

use crate::errors::resource_error;
use crate::limit::Limit;
use ml_term::{MAX_TERM_NODES, Term, nodes_up_to};
use std::alloc::{AllocError, Global};

/// Whether a term has more than 4,096 nodes. It takes no memory.
pub fn is_too_large(t: &Term) -> bool
    ensures { result ≡ is_too_large (seen t.now) }
{
    nodes_up_to(t, MAX_TERM_NODES) > MAX_TERM_NODES
}

/// A term that is raised: itself, or `resource_error(term)` where it has more than 4,096 nodes.
pub fn keep_small(alloc: Global, t: Term) -> Result<Term, AllocError>
    requires { IsTrue (is_valid (seen t)) }
    ensures same { IfOk result (λ term. seen term ≡ kept_small (seen t)) }
    ensures valid { IfOk result (λ term. IsTrue (is_valid (seen term))) }
{
    if is_too_large(&t) {
        return resource_error(alloc, Limit::TermNodes);
    }
    Ok(t)
}
